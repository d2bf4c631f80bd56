ghost use Rattle.std.specs.Prelude.{◌≡◌, ◌↔◌, ◌⊎◌, ℕ, ℤ, List, None, false, true};
ghost use Rattle.std.specs.Cmp.Lexicographic.{slice_cmp};
ghost use Rattle.std.specs.List.{Contains};
ghost use Rattle.std.specs.Ordering.{int_cmp, nat_cmp, ordering_then};
ghost use Rattle.oai_item.specs.Item.{ItemState};
ghost use Rattle.oai_item.specs.Items.{is_at, item_at, items_after, placed, with_item, without_at};
ghost use Rattle.oai_item.specs.Order.{IsPlace, are_in_order, item_cmp, place_cmp};

use crate::items::Item;
use std::cmp::Ordering;

impl Item {
    /// Compares the item with another in the order of items: by datestamp, then by the bytes of the identifiers.
    pub fn order(&self, other: &Item) -> Ordering
        ensures { result ≡ item_cmp self.now other.now }
    {
        self.order_to(other.stamp(), other.identifier().as_str())
    }

    /// Compares the item in that order with this datestamp, in seconds from 1970 on, and identifier.
    pub fn order_to(&self, stamp: i64, identifier: &str) -> Ordering
        ensures { result ≡ place_cmp self.now stamp identifier.now }
    {
        order_of_places(self.stamp(), self.identifier().as_str(), stamp, identifier)
    }
}

/// Compares that datestamp, in seconds from 1970 on, and identifier with the other ones: by datestamp, then by the
/// bytes of the identifiers.
fn order_of_places(
    stamp: i64,
    identifier: &str,
    other_stamp: i64,
    other_identifier: &str,
) -> Ordering
    ensures { result ≡ ordering_then (int_cmp stamp other_stamp)
        (slice_cmp nat_cmp identifier.now other_identifier.now) }
{
    match stamp.cmp(&other_stamp) {
        Ordering::Equal => identifier.cmp(other_identifier),
        unequal => unequal,
    }
}

/// Binary search for this datestamp, in seconds from 1970 on, and identifier among the items, which are in their order:
/// `Ok` with the position of the item that has them, or `Err` with the position where it would be inserted. O(log n)
/// comparisons.
pub fn place_of(items: &[Item], stamp: i64, identifier: &str) -> Result<usize, usize>
    requires { are_in_order items.now ≡ true }
    ensures { IsPlace items.now stamp identifier.now result }
{
    items.binary_search_by(|item| item.order_to(stamp, identifier))
}

/// The items, of a list in their order, that come after this datestamp, in seconds from 1970 on, and identifier,
/// whether or not an item has these. Binary search: O(log n) comparisons.
pub fn items_after<'a>(items: &'a [Item], stamp: i64, identifier: &str) -> &'a [Item]
    requires { are_in_order items.now ≡ true }
    ensures { result.now ≡ items_after stamp identifier.now items.now }
{
    match place_of(items, stamp, identifier) {
        Ok(at) => &items[at + 1..],
        Err(at) => &items[at..],
    }
}

/// Inserting and removing an item preserves the other members and the order. After an insertion the members are the new
/// item and the old ones; after the removal of a datestamp and identifier, the others; and items that rise strictly by
/// datestamp and identifier still do. A theorem, proved by an empty function.
pub fn order_law()
    ensures members { (item : ItemState) (items : List ItemState) (other : ItemState)
        → Contains (placed item items) other ↔ ((other ≡ item) ⊎ Contains items other) }
    ensures placed { (item : ItemState) (items : List ItemState)
        → are_in_order items ≡ true → item_at item.stamp item.identifier items ≡ None
        → are_in_order (placed item items) ≡ true }
    ensures put { (item : ItemState) (items : List ItemState)
        → are_in_order items ≡ true → are_in_order (with_item item items) ≡ true }
    ensures others { (stamp : ℤ) (identifier : List ℕ) (items : List ItemState) (other : ItemState)
        → Contains (without_at stamp identifier items) other
        ↔ (Contains items other × (is_at stamp identifier other ≡ false)) }
    ensures left { (stamp : ℤ) (identifier : List ℕ) (items : List ItemState)
        → are_in_order items ≡ true → are_in_order (without_at stamp identifier items) ≡ true }
{}
