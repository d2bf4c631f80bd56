//! How far the differences between two versions are read.

use oai_holdings::OwnedKey;
use oai_item::Item;
use oai_names::Sequence;

/// How far the differences between two versions are handed out.
#[derive(Drop)]
pub(crate) enum DifferencePlace {
    /// The items after the key go, or all.
    Going(Option<OwnedKey>),
    /// The items have gone, and others come: those after the key, or all.
    Arriving(Option<OwnedKey>),
}

/// A batch of differences.
#[derive(Drop)]
pub(crate) enum Differences {
    /// These items go, and the differences after them are left.
    Go(Sequence<Item>, DifferencePlace),
    /// These items come, and the differences after them are left, or none.
    Come(Sequence<Item>, Option<DifferencePlace>),
}
