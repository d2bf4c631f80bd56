//! What holds of every two lists of items: theorems, by empty functions.
ghost use Rattle.oai_holdings.specs.Differences.{AreDifferences, AreInOrderAndApart, ItemDifference, with_differences};
ghost use Rattle.oai_holdings.specs.Missing.{AreBatches, AreStepwise, IsBatch, differences_of, goes_on, is_same_item, items_past, missing_in};
ghost use Rattle.oai_holdings.specs.declared.differences.MissingItems.{MissingItems};
ghost use Rattle.oai_holdings.specs.declared.differences.OwnedKey.{OwnedKey};
ghost use Rattle.oai_item.specs.Item.{ItemState};
ghost use Rattle.oai_item.specs.Order.{are_in_order};
ghost use Rattle.std.specs.List.{flat_map};
ghost use Rattle.std.specs.Prelude.{◌≡◌, ◌≤◌, ◌↔◌, ◌++◌, ℕ, List, None, Option, length, max, take, true};

/// Differences that lead to the right item under each identifier, taken by itself, lead from items to others as whole
/// lists: in their order, and with nothing else in them (`lead`). So who saves what has changed between two moments
/// looks at one identifier at a time. From any items to any others there are some (`some`). A theorem, proved by an
/// empty function.
pub fn difference_law()
    ensures lead { (items others : List ItemState) (differences : List ItemDifference)
        → AreInOrderAndApart items → AreInOrderAndApart others
        → AreDifferences items differences others → with_differences items differences ≡ others }
    ensures some { (items others : List ItemState) → AreInOrderAndApart others
        → (differences : List ItemDifference) × AreDifferences items differences others }
{}

/// The items that others lack, and the others that they lack, are all that has changed: if the first go, and then the
/// others come, the items become the others (`lead`). Each that goes is there, none of the identifier of one that comes
/// is (`stepwise`), and meanwhile there are never more of them than there were or will be (`few`). An item that has
/// changed is among both. Batches, joined from the first to the last, are the items that the others lack (`joined`); so
/// are a batch and what lies behind it (`next`, `last`). The comparison of two items looks at all of them (`same`). A
/// theorem, proved by an empty function.
pub fn missing_law()
    ensures lead { (items others : List ItemState)
        → AreInOrderAndApart items → AreInOrderAndApart others
        → AreDifferences items (differences_of items others) others }
    ensures stepwise { (items others : List ItemState)
        → AreInOrderAndApart items → AreInOrderAndApart others
        → AreStepwise items (differences_of items others) }
    ensures few { (items others : List ItemState) (n : ℕ)
        → AreInOrderAndApart items → AreInOrderAndApart others
        → length (with_differences items (take n (differences_of items others)))
        ≤ max (length items) (length others) }
    ensures joined { (items others : List ItemState) (batches : List MissingItems)
        → are_in_order items ≡ true → AreBatches items others None batches
        → flat_map (λ (batch : MissingItems). batch.items) batches ≡ missing_in others items }
    ensures next { (items others : List ItemState) (behind : Option OwnedKey) (batch : MissingItems)
        → are_in_order items ≡ true → IsBatch items others behind batch
        → goes_on behind batch.next ≡ true → missing_in others (items_past behind items)
        ≡ batch.items ++ missing_in others (items_past batch.next items) }
    ensures last { (items others : List ItemState) (behind : Option OwnedKey) (batch : MissingItems)
        → IsBatch items others behind batch → batch.next ≡ None
        → missing_in others (items_past behind items) ≡ batch.items }
    ensures same { (item other : ItemState)
        → (is_same_item item other ≡ true) ↔ (item ≡ other) }
{}
