ghost use Rattle.std.specs.Prelude.{◌≡◌, ℕ, List, [], true, OnErr, OnOk};
ghost use Rattle.std.specs.List.{flat_map};
ghost use Rattle.oai_item.specs.Item.{ItemState};
ghost use Rattle.oai_item.specs.Items.{item_named};
ghost use Rattle.oai_copy.specs.Copies.{are_listed, caught_up, caught_up_with, last_named};

use crate::merges::catch_up;
use oai_item::Item;
use std::alloc::{AllocError, Global};
use std::marker::Model;

/// A harvester's copy of an archive: for each identifier the version of its item that was harvested last, live or
/// deleted, in the byte order of the identifiers.
#[derive(Debug, Drop)]
pub struct Copy {
    items: Vec<Item>,
}

impl Model for Copy {
    ghost use Rattle.std.specs.Prelude.{◌≡◌, List, true};
    ghost use Rattle.oai_item.specs.Item.{ItemState};
    ghost use Rattle.oai_copy.specs.Copies.{are_listed};

    ghost Value = { List ItemState };

    ghost view = { λ copy. copy.items.items };

    ghost invariant = { λ copy. are_listed copy.items.items ≡ true };
}

impl Copy {
    /// An empty copy. Allocates nothing.
    pub fn new(alloc: Global) -> Copy
        ensures { result ≡ [] }
    {
        Copy {
            items: Vec::new(alloc),
        }
    }

    /// Applies a harvest, in the order in which its items came: each item replaces the one with its identifier, or is
    /// added. So the last of several items with one identifier stays, and a deleted item stays as a tombstone. O(n + m
    /// log m) for a copy of n items and a harvest of m. The error is out of memory, and the copy is unchanged.
    pub fn catch_up(&mut self, items: &[Item]) -> Result<(), AllocError>
        ensures ok { OnOk result (self.new ≡ caught_up self.old items.now) }
        ensures err { OnErr result (self.new ≡ self.old) }
    {
        catch_up(&mut self.items, items)
    }

    /// The items of the copy, in the byte order of their identifiers, which are distinct.
    pub fn items(&self) -> &[Item]
        ensures items { result.now ≡ self.now }
        ensures listed { are_listed self.now ≡ true }
    {
        self.items.as_slice()
    }
}

/// After harvests, one after the other, a new copy holds under each identifier the last item with that identifier in
/// any of them, in the order of the identifiers, which are distinct. A theorem, proved by an empty function.
pub fn copy_law()
    ensures last { (harvests : List (List ItemState)) (identifier : List ℕ)
        → item_named identifier (caught_up_with [] harvests)
        ≡ last_named identifier (flat_map (λ items. items) harvests) }
    ensures listed { (harvests : List (List ItemState))
        → are_listed (caught_up_with [] harvests) ≡ true }
{}
