//! Keys: positions in the order of items.
ghost use Rattle.std.specs.Prelude.{◌≡◌};

use crate::items::Item;

/// A position in the order of items, whether or not an item is there: a datestamp, then an identifier.
#[derive(Clone, Copy)]
pub struct ItemKey<'a> {
    /// The datestamp, in seconds from 1970 on.
    pub stamp: i64,
    /// The identifier.
    pub identifier: &'a str,
}

impl Item {
    /// The key of the item.
    pub fn key(&self) -> ItemKey<'_>
        ensures stamp { result.stamp ≡ self.now.stamp }
        ensures identifier { result.identifier.now ≡ self.now.identifier }
    {
        ItemKey {
            stamp: self.stamp(),
            identifier: self.identifier().as_str(),
        }
    }
}
