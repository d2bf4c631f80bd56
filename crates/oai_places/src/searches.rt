ghost use Rattle.oai_places.specs.Searches.{BelongsAt};

use crate::places::SharedPlace;
use oai_item::ItemKey;
use std::cmp::Ordering;

/// The position of the leaf to which the key belongs: the last one whose first item does not come after it, or else the
/// first. Binary search, O(log n).
pub fn leaf_of(places: &[SharedPlace], key: ItemKey<'_>) -> usize
    ensures { BelongsAt places.now key.entry.stamp key.entry.identifier.now result }
{
    let mut low = 0;
    let mut high = places.len();
    'halves: while high - low > 1 {
        let middle = low + (high - low) / 2;
        if places[middle].order_to(key) == Ordering::Greater {
            high = middle;
        } else {
            low = middle;
        }
    }
    low
}
