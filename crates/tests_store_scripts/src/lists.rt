//! Two lists of a store, each of which changes beside the other.
ghost use Rattle.std.specs.Prelude.{◌≡◌, IsSome};

use oai_catalogue::{Filter, Versions, remove_items};
use oai_item::{Fault, Item};
use oai_names::Sequence;
use std::mem;

/// A store, and two of its lists: the one at hand, of which the calls speak, and the other one. The key of an item is its
/// datestamp and its identifier.
#[derive(Drop)]
pub(crate) struct TwoLists<V: Versions + Drop> {
    store: V,
    own: u64,
    other: u64,
    ghost own_stands: { IsSome (V.lists store own) },
    ghost other_stands: { IsSome (V.lists store other) },
}

impl<V: Versions + Drop> TwoLists<V> {
    /// Two empty lists of the store; None where it has no room for them.
    pub(crate) fn new(mut store: V) -> Option<TwoLists<V>> {
        let Ok(own) = store.fresh() else {
            return None;
        };
        let Ok(other) = store.fresh() else {
            return None;
        };
        Some(TwoLists { store, own, other })
    }

    /// The store.
    pub(crate) fn store(&self) -> &V {
        &self.store
    }

    /// The other list is at hand from now on.
    pub(crate) fn turn(&mut self) {
        mem::swap(&mut self.own, &mut self.other);
    }

    /// The other list is released, and what the current one holds takes its place. The store is damaged where numbers are not
    /// different.
    pub(crate) fn freeze(&mut self) -> Result<(), Fault> {
        match self.store.freeze(self.own) {
            Ok(frozen) => {
                if self.other == self.own {
                    return Err(Fault::Damaged);
                }
                if self.other == frozen {
                    return Err(Fault::Damaged);
                }
                self.store.release(self.other);
                self.other = frozen;
                Ok(())
            }
            Err(fault) => Err(fault),
        }
    }

    /// The current list is released, and an empty one takes its place.
    pub(crate) fn renew(&mut self) -> Result<(), Fault> {
        match self.store.fresh() {
            Ok(fresh) => {
                if self.own == self.other {
                    return Err(Fault::Damaged);
                }
                if self.own == fresh {
                    return Err(Fault::Damaged);
                }
                self.store.release(self.own);
                self.own = fresh;
                Ok(())
            }
            Err(fault) => Err(fault),
        }
    }

    /// Puts the item in. There are too many pages for one of more than 1,048,576 bytes.
    pub(crate) fn put(&mut self, item: &Item) -> Result<(), Fault> {
        match item.encoded_len() {
            Ok(_) => self.store.put(self.own, item),
            Err(_) => Err(Fault::TooManyPages),
        }
    }

    /// Takes the item of that key out, and answers whether there was one.
    pub(crate) fn remove(&mut self, key: &Item) -> Result<bool, Fault> {
        self.store.remove(self.own, key.stamp(), key.identifier())
    }

    /// Takes the item of that key out of a frozen version, which takes the place of the current list.
    pub(crate) fn take_out(&mut self, key: Item) -> Result<(), Fault> {
        if self.own == self.other {
            return Err(Fault::Damaged);
        }
        match remove_items(&mut self.store, self.own, &[key]) {
            Ok(left) => {
                self.own = left;
                if left == self.other {
                    return Err(Fault::Damaged);
                }
                Ok(())
            }
            Err(fault) => Err(fault),
        }
    }

    /// Takes the item of that key out and puts the other item in, and answers whether there was one to take out.
    pub(crate) fn replace(&mut self, key: &Item, item: &Item) -> Result<bool, Fault> {
        match item.encoded_len() {
            Ok(_) => self
                .store
                .replace(self.own, key.stamp(), key.identifier(), item),
            Err(_) => Err(Fault::TooManyPages),
        }
    }

    /// The item of that key.
    pub(crate) fn find(&mut self, key: &Item) -> Result<Option<Item>, Fault> {
        self.store
            .find(self.own, key.stamp(), key.identifier().as_str())
    }

    /// How many items pass the filter.
    pub(crate) fn count(&mut self, filter: &Filter) -> Result<usize, Fault> {
        self.store.count(self.own, filter)
    }

    /// Of the items that pass the filter those after the first `skip`, at most `most` of them.
    pub(crate) fn part(
        &mut self,
        filter: &Filter,
        skip: usize,
        most: usize,
    ) -> Result<Sequence<Item>, Fault> {
        self.store.part(self.own, filter, skip, most)
    }

    /// Of the items that pass the filter those behind the key, at most `most` of them.
    pub(crate) fn part_after(
        &mut self,
        filter: &Filter,
        key: &Item,
        most: usize,
    ) -> Result<Sequence<Item>, Fault> {
        let identifier = key.identifier();
        self.store
            .part_after(self.own, filter, key.stamp(), identifier, most)
    }
}
