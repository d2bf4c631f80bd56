ghost use Rattle.std.specs.Prelude.{◌≡◌, ◌⊎◌, ◌+◌, ◌-◌, ◌≤◌, ℕ, None, Some, IsSome, true, unwrap_or, [], IfErr, IfOk, OnErr};
ghost use Rattle.std.specs.BTreeMap.{get};
ghost use Rattle.std.specs.Ordering.{nat_cmp};
ghost use Rattle.oai_item.specs.Order.{are_in_order};
ghost use Rattle.oai_catalogue.specs.Store.{no_lists, with_list};
ghost use Rattle.oai_catalogue.specs.Plain.{lists_of};
ghost use Rattle.oai_item.specs.declared.faults.Fault.TheVariants as fault;

use crate::filters::Filter;
use crate::items::Items;
use crate::versions::Versions;
use oai_item::{Fault, Item};
use oai_names::{Identifier, Sequence};
use std::alloc::Global;
use std::collections::BTreeMap;

/// The number that no version gets.
pub const LAST_VERSION: u64 = 18_446_744_073_709_551_615;

/// A store that stores each version as a list of its own. Its faults are `NoMemory` and, if no number is left,
/// `TooManyPages`. A look-up is a binary search; `freeze` copies the whole list.
#[derive(Drop)]
pub struct PlainVersions {
    alloc: Global,
    next: u64,
    versions: BTreeMap<u64, Items>,
    ghost unused: { (v : ℕ) → next ≤ v → get nat_cmp versions v ≡ None },
    ghost rising: { (v : ℕ) → are_in_order (unwrap_or (get nat_cmp versions v) []) ≡ true },
}

impl Versions for PlainVersions {
    ghost use Rattle.oai_catalogue.specs.declared.plain.TheConstants.{LAST_VERSION};

    ghost lists = { λ s v. get nat_cmp s.versions v };

    ghost failures = { λ s. 0 };

    ghost honest = { λ s. true };

    ghost room = { λ s. LAST_VERSION - s.next };

    fn fresh(&mut self) -> Result<u64, Fault> {
        self.add(Items::new(self.alloc))
    }

    fn freeze(&mut self, v: u64) -> Result<u64, Fault> {
        let copy = self.list(v).copy(self.alloc)?;
        self.add(copy)
    }

    fn put(&mut self, v: u64, item: &Item) -> Result<(), Fault> {
        let alloc = self.alloc;
        let Some(items) = self.versions.get_mut(&v) else {
            unreachable!()
        };
        Ok(items.put_copy(alloc, item)?)
    }

    fn remove(&mut self, v: u64, stamp: i64, identifier: &Identifier) -> Result<bool, Fault> {
        let Some(items) = self.versions.get_mut(&v) else {
            unreachable!()
        };
        Ok(items.remove(stamp, identifier.as_str()))
    }

    fn replace(
        &mut self,
        v: u64,
        stamp: i64,
        identifier: &Identifier,
        item: &Item,
    ) -> Result<bool, Fault> {
        let alloc = self.alloc;
        let Some(items) = self.versions.get_mut(&v) else {
            unreachable!()
        };
        Ok(items.replace(alloc, stamp, identifier.as_str(), item)?)
    }

    fn find(&mut self, v: u64, stamp: i64, identifier: &str) -> Result<Option<Item>, Fault> {
        match self.list(v).find(stamp, identifier) {
            Some(item) => Ok(Some(item.copy(self.alloc)?)),
            None => Ok(None),
        }
    }

    fn count(&mut self, v: u64, filter: &Filter) -> Result<usize, Fault> {
        Ok(self.list(v).count(filter))
    }

    fn part(
        &mut self,
        v: u64,
        filter: &Filter,
        skip: usize,
        most: usize,
    ) -> Result<Sequence<Item>, Fault> {
        Ok(self.list(v).part(self.alloc, filter, skip, most)?)
    }

    fn part_after(
        &mut self,
        v: u64,
        filter: &Filter,
        stamp: i64,
        identifier: &Identifier,
        most: usize,
    ) -> Result<Sequence<Item>, Fault> {
        Ok(
            self.list(v)
                .part_after(self.alloc, filter, stamp, identifier.as_str(), most)?,
        )
    }

    fn release(&mut self, v: u64) {
        self.versions.remove(&v);
    }

    ghost rising = { λ s. s.rising };
}

impl PlainVersions {
    /// A store without versions, with room for at least 18,446,744,073,709,551,614 calls. Allocates nothing.
    pub fn new(alloc: Global) -> PlainVersions
        ensures lists { ⟦<PlainVersions as Versions>⟧.lists result ≡ no_lists }
        ensures failures { ⟦<PlainVersions as Versions>⟧.failures result ≡ 0 }
        ensures honest { ⟦<PlainVersions as Versions>⟧.honest result ≡ true }
        ensures room { ⟦<PlainVersions as Versions>⟧.room result ≡ 18_446_744_073_709_551_614 }
    {
        PlainVersions {
            alloc,
            next: 1,
            versions: BTreeMap::new(alloc),
        }
    }

    /// The list with that number.
    fn list(&self, v: u64) -> &Items
        requires { IsSome (lists_of self.now.versions v) }
        ensures { lists_of self.now.versions v ≡ Some result.now }
    {
        match self.versions.get(&v) {
            Some(items) => items,
            None => unreachable!(),
        }
    }

    /// Stores the list under the next number.
    fn add(&mut self, items: Items) -> Result<u64, Fault>
        requires { are_in_order items ≡ true }
        ensures unused { IfOk result (λ v. lists_of self.old.versions v ≡ None) }
        ensures ok { IfOk result
            (λ v. lists_of self.new.versions ≡ with_list v items (lists_of self.old.versions)) }
        ensures err { OnErr result (lists_of self.new.versions ≡ lists_of self.old.versions) }
        ensures fault { IfErr result (λ f. (f ≡ fault.NoMemory)
            ⊎ ((f ≡ fault.TooManyPages) × (self.old.next ≡ LAST_VERSION))) }
        ensures next { self.new.next ≤ self.old.next + 1 }
    {
        let v = self.next;
        if v == LAST_VERSION {
            return Err(Fault::TooManyPages);
        }
        self.versions.insert(v, items)?;
        self.next = v + 1;
        Ok(v)
    }
}
