ghost use Rattle.std.specs.Prelude.{◌≡◌, ◌↔◌, List, true};
ghost use Rattle.std.specs.List.{Contains};
ghost use Rattle.oai_item.specs.Item.{ItemState};
ghost use Rattle.oai_item.specs.Order.{are_in_order};
ghost use Rattle.oai_item.specs.Selection.{Filter, IsSelected, selected};

/// A list request selects exactly the matching items, in order (OAI-PMH 2.0, section 2.7). Of items that rise strictly
/// by datestamp and identifier, the selection rises strictly too; its members are those that have a record with the
/// prefix, a datestamp within the bounds, and are in the set if one is given; and it is the only strictly rising list
/// with exactly these members. A theorem, proved by an empty function.
pub fn selection_law()
    ensures rising { (asked : Filter) (items : List ItemState)
        → are_in_order items ≡ true → are_in_order (selected asked items) ≡ true }
    ensures members { (asked : Filter) (items : List ItemState) (item : ItemState)
        → Contains (selected asked items) item ↔ IsSelected asked items item }
    ensures only { (asked : Filter) (items others : List ItemState)
        → are_in_order items ≡ true
        → are_in_order others ≡ true
        → ((item : ItemState) → Contains others item ↔ IsSelected asked items item)
        → others ≡ selected asked items }
{}
