//! The index of the items of a repository, and their version in a store, in which they are found by their datestamps.
ghost use Rattle.std.specs.Prelude.{◌≡◌, ◌≤◌, ◌+◌, ℕ, List, [], if◌then◌else◌, None, Some, true, length, IfOk, IfSome, IsSome, IsTrue, OnErr, OnOk};
ghost use Rattle.std.specs.BTreeMap.{get_by_text};
ghost use Rattle.std.specs.Option.{option_copied};
ghost use Rattle.std.specs.Str.{bytes_eq};
ghost use Rattle.oai_item.specs.Encoding.{encoded};
ghost use Rattle.oai_item.specs.Items.{item_named, without};
ghost use Rattle.oai_item.specs.declared.sizes.TheConstants.{MAX_ITEM_BYTES};
ghost use Rattle.oai_catalogue.specs.Calls.{OnlyReads};
ghost use Rattle.oai_catalogue.specs.Store.{Spends, without_each};
ghost use Rattle.oai_holdings.specs.Changes.{purged, with_new};
ghost use Rattle.oai_holdings.specs.Index.{IndexAgrees, has_writable_stamp, stored_items};
ghost use Rattle.oai_holdings.specs.Purges.{AreFoundInTurn, is_in_core};
ghost use Rattle.oai_time.specs.Stamp.{IsWritable};
ghost use Rattle.oai_item.specs.Item.{IsStamp, ItemState};
ghost use Rattle.std.specs.List.{list_all};
ghost use Rattle.oai_holdings.specs.Entries.{Forgets, SetsStamp, count_with, stamp_in};
ghost use Rattle.oai_holdings.specs.Indexing.{IsMadeOn, Moves, StandsOn, is_one_named};

use crate::changes::deleted_below;
use oai_catalogue::{Versions, remove_items};
use oai_item::{Fault, Item};
use std::alloc::Global;
use std::collections::BTreeMap;
use std::marker::Model;

/// The index of the items of a repository: the number of their version in a store, and the datestamp of each by its
/// identifier. Reading an item is a look-up of its datestamp, O(log n), and one search of the store.
#[derive(Debug, Drop)]
pub struct ItemIndex {
    version: u64,
    stamps: BTreeMap<String, i64>,
}

impl Model for ItemIndex {
    ghost use Rattle.std.specs.Prelude.{ℕ};
    ghost use Rattle.oai_holdings.specs.Index as spec;
    ghost use Rattle.oai_holdings.specs.Entries.{entries_in};

    ghost Value = { spec.ItemIndex };

    ghost view = { λ s. record { version = s.version; entries = entries_in s.stamps } };

    ghost use Rattle.oai_holdings.specs.Entries.{AreDated};

    ghost invariant = { λ s. AreDated (entries_in s.stamps) };
}

impl ItemIndex {
    /// No items, in the version with that number. Allocates nothing.
    pub fn new(alloc: Global, version: u64) -> ItemIndex
        ensures { result ≡ record { version = version; entries = [] } }
    {
        ItemIndex {
            version,
            stamps: BTreeMap::new(alloc),
        }
    }

    /// The number of the version.
    pub fn version(&self) -> u64
        ensures { result ≡ self.now.version }
    {
        self.version
    }

    /// How many items there are.
    pub fn len(&self) -> u64
        ensures { result ≡ length self.now.entries }
    {
        self.stamps.len() as u64
    }

    /// The datestamp of the item with that identifier, in seconds from 1970 on, if there is one.
    pub(crate) fn stamp_of(&self, identifier: &str) -> Option<i64>
        ensures stamp { result ≡ stamp_in identifier.now self.now.entries }
        ensures in_range { IfSome result IsStamp }
    {
        self.stamps.get(identifier).copied()
    }

    /// The item with that identifier, if there is one. Any fault but `TooManyPages` may come if it exists, and
    /// `Damaged` if the store lacks it or returns another.
    pub fn find<V: Versions>(&self, store: &mut V, identifier: &str) -> Result<Option<Item>, Fault>
        requires stands { StandsOn V.Versions self.now store.old }
        ensures found { IfOk result (λ item. IsTrue (V.honest store.old) → item
            ≡ item_named identifier.now (stored_items self.now (V.lists store.old))) }
        ensures known { OnErr result (IsTrue (V.honest store.old)
            → IsSome (item_named identifier.now (stored_items self.now (V.lists store.old)))) }
        ensures there { IfOk result (λ item. IsSome item
            → IsSome (stamp_in identifier.now self.now.entries)) }
        ensures entered { OnErr result (IsSome (stamp_in identifier.now self.now.entries)) }
        ensures named { IfOk result (λ item. IfSome item (λ item. item.identifier
            ≡ identifier.now)) }
        ensures reads { OnlyReads V.Versions result store.old store.new }
    {
        let known = self.stamp_of(identifier);
        self.find_known(store, identifier, known)
    }

    /// The item with that identifier, if there is one, as `find` does; `known` is the datestamp of its entry.
    pub(crate) fn find_known<V: Versions>(
        &self,
        store: &mut V,
        identifier: &str,
        known: Option<i64>,
    ) -> Result<Option<Item>, Fault>
        requires stands { StandsOn V.Versions self.now store.old }
        requires known { known ≡ stamp_in identifier.now self.now.entries }
        ensures found { IfOk result (λ item. IsTrue (V.honest store.old) → item
            ≡ item_named identifier.now (stored_items self.now (V.lists store.old))) }
        ensures known { OnErr result (IsTrue (V.honest store.old)
            → IsSome (item_named identifier.now (stored_items self.now (V.lists store.old)))) }
        ensures there { IfOk result (λ item. IsSome item
            → IsSome (stamp_in identifier.now self.now.entries)) }
        ensures entered { OnErr result (IsSome (stamp_in identifier.now self.now.entries)) }
        ensures named { IfOk result (λ item. IfSome item (λ item. item.identifier
            ≡ identifier.now)) }
        ensures reads { OnlyReads V.Versions result store.old store.new }
    {
        match known {
            Some(stamp) => self.find_at(store, stamp, identifier),
            None => Ok(None),
        }
    }

    /// The item with that identifier, whose entry has the datestamp `stamp`. Any fault but `TooManyPages` may come, and
    /// `Damaged` if the store lacks the item or returns another.
    fn find_at<V: Versions>(
        &self,
        store: &mut V,
        stamp: i64,
        identifier: &str,
    ) -> Result<Option<Item>, Fault>
        requires stands { StandsOn V.Versions self.now store.old }
        requires there { stamp_in identifier.now self.now.entries ≡ Some stamp }
        ensures found { IfOk result (λ item. IsTrue (V.honest store.old) → item
            ≡ item_named identifier.now (stored_items self.now (V.lists store.old))) }
        ensures named { IfOk result (λ item. IfSome item (λ item. item.identifier
            ≡ identifier.now)) }
        ensures reads { OnlyReads V.Versions result store.old store.new }
    {
        let found = store.find(self.version, stamp, identifier)?;
        if is_one_named(found.as_ref(), identifier) {
            Ok(found)
        } else {
            Err(Fault::Damaged)
        }
    }

    /// Adds the item, in place of the one with its identifier, if there is one. A fault leaves everything unchanged.
    pub(crate) fn put<V: Versions>(
        &mut self,
        alloc: Global,
        store: &mut V,
        item: &Item,
    ) -> Result<(), Fault>
        requires stands { StandsOn V.Versions self.old store.old }
        requires fits { length (encoded item.now) ≤ MAX_ITEM_BYTES }
        ensures made { OnOk result
            (IsMadeOn V.Versions (with_new item.now) self.old store.old self.new store.new) }
        ensures stamped { OnOk result (SetsStamp item.now.identifier (Some item.now.stamp)
            self.old.entries self.new.entries) }
        ensures many { OnOk result (length self.new.entries
            ≡ count_with (stamp_in item.now.identifier self.old.entries) (length self.old.entries)) }
        ensures moves { Moves V.Versions result self.old store.old self.new store.new }
        ensures store { Spends V.room V.failures V.honest 1 result store.old store.new }
    {
        let known = self.stamp_of(item.identifier().as_str());
        self.put_known(alloc, store, item, known)
    }

    /// Adds the item as `put` does; `known` is the datestamp of the entry of its identifier, if there is one.
    pub(crate) fn put_known<V: Versions>(
        &mut self,
        alloc: Global,
        store: &mut V,
        item: &Item,
        known: Option<i64>,
    ) -> Result<(), Fault>
        requires stands { StandsOn V.Versions self.old store.old }
        requires fits { length (encoded item.now) ≤ MAX_ITEM_BYTES }
        requires known { known ≡ stamp_in item.now.identifier self.old.entries }
        ensures made { OnOk result
            (IsMadeOn V.Versions (with_new item.now) self.old store.old self.new store.new) }
        ensures stamped { OnOk result (SetsStamp item.now.identifier (Some item.now.stamp)
            self.old.entries self.new.entries) }
        ensures many { OnOk result (length self.new.entries
            ≡ count_with (stamp_in item.now.identifier self.old.entries) (length self.old.entries)) }
        ensures moves { Moves V.Versions result self.old store.old self.new store.new }
        ensures store { Spends V.room V.failures V.honest 1 result store.old store.new }
    {
        match known {
            None => self.insert(alloc, store, item),
            Some(stamp) if stamp == item.stamp() => self.overwrite(store, item),
            Some(stamp) => self.move_to_new_stamp(store, stamp, item),
        }
    }

    /// Adds an item with a new identifier.
    fn insert<V: Versions>(
        &mut self,
        alloc: Global,
        store: &mut V,
        item: &Item,
    ) -> Result<(), Fault>
        requires stands { StandsOn V.Versions self.old store.old }
        requires fits { length (encoded item.now) ≤ MAX_ITEM_BYTES }
        requires first { stamp_in item.now.identifier self.old.entries ≡ None }
        ensures made { OnOk result
            (IsMadeOn V.Versions (with_new item.now) self.old store.old self.new store.new) }
        ensures stamped { OnOk result (SetsStamp item.now.identifier (Some item.now.stamp)
            self.old.entries self.new.entries) }
        ensures many { OnOk result (length self.new.entries ≡ length self.old.entries + 1) }
        ensures moves { Moves V.Versions result self.old store.old self.new store.new }
        ensures store { Spends V.room V.failures V.honest 1 result store.old store.new }
    {
        let identifier = item.identifier().as_str();
        let key = String::from_str(alloc, identifier)?;
        self.stamps.insert(key, item.stamp())?;
        match store.put(self.version, item) {
            Ok(()) => Ok(()),
            Err(fault) => {
                self.stamps.remove(identifier);
                Err(fault)
            }
        }
    }

    /// Replaces the item with its identifier, which has the same datestamp.
    fn overwrite<V: Versions>(&self, store: &mut V, item: &Item) -> Result<(), Fault>
        requires stands { StandsOn V.Versions self.now store.old }
        requires fits { length (encoded item.now) ≤ MAX_ITEM_BYTES }
        requires again { stamp_in item.now.identifier self.now.entries ≡ Some item.now.stamp }
        ensures made { OnOk result
            (IsMadeOn V.Versions (with_new item.now) self.now store.old self.now store.new) }
        ensures stamped { SetsStamp item.now.identifier (Some item.now.stamp) self.now.entries
            self.now.entries }
        ensures moves { Moves V.Versions result self.now store.old self.now store.new }
        ensures store { Spends V.room V.failures V.honest 1 result store.old store.new }
    {
        store.put(self.version, item)
    }

    /// Replaces the item with its identifier, which has another datestamp, `old`.
    fn move_to_new_stamp<V: Versions>(
        &mut self,
        store: &mut V,
        old: i64,
        item: &Item,
    ) -> Result<(), Fault>
        requires stands { StandsOn V.Versions self.old store.old }
        requires fits { length (encoded item.now) ≤ MAX_ITEM_BYTES }
        requires there { stamp_in item.now.identifier self.old.entries ≡ Some old }
        ensures made { OnOk result
            (IsMadeOn V.Versions (with_new item.now) self.old store.old self.new store.new) }
        ensures stamped { OnOk result (SetsStamp item.now.identifier (Some item.now.stamp)
            self.old.entries self.new.entries) }
        ensures many { OnOk result (length self.new.entries ≡ length self.old.entries) }
        ensures moves { Moves V.Versions result self.old store.old self.new store.new }
        ensures store { Spends V.room V.failures V.honest 1 result store.old store.new }
    {
        store.replace(self.version, old, item.identifier(), item)?;
        self.restamp(item.identifier().as_str(), item.stamp());
        Ok(())
    }

    /// Changes the datestamp of an identifier that has one. Allocates nothing.
    fn restamp(&mut self, identifier: &str, stamp: i64)
        requires there { IsSome (stamp_in identifier.now self.old.entries) }
        requires in_range { IsStamp stamp }
        ensures version { self.new.version ≡ self.old.version }
        ensures entries { SetsStamp identifier.now (Some stamp) self.old.entries self.new.entries }
        ensures many { length self.new.entries ≡ length self.old.entries }
    {
        overwrite_stamp(&mut self.stamps, identifier, stamp);
    }

    /// Removes the item, which is one of the repository's. A fault leaves everything unchanged.
    pub(crate) fn remove<V: Versions>(&mut self, store: &mut V, item: &Item) -> Result<(), Fault>
        requires stands { StandsOn V.Versions self.old store.old }
        requires there { IsTrue (V.honest store.old)
            → item_named item.now.identifier (stored_items self.old (V.lists store.old))
            ≡ Some item.now }
        ensures made { OnOk result (IsMadeOn V.Versions (without item.now.identifier) self.old
            store.old self.new store.new) }
        ensures stamped { OnOk result (SetsStamp item.now.identifier None self.old.entries
            self.new.entries) }
        ensures fewer { OnOk result (length self.new.entries ≤ length self.old.entries) }
        ensures moves { Moves V.Versions result self.old store.old self.new store.new }
        ensures store { Spends V.room V.failures V.honest 1 result store.old store.new }
    {
        store.remove(self.version, item.stamp(), item.identifier())?;
        self.forget(item.identifier().as_str());
        Ok(())
    }

    /// Removes the deleted items with datestamps below the limit, in seconds from 1970 on, in a new version. If there
    /// are none, nothing changes. A fault leaves everything unchanged. It reads each item with a datestamp below the
    /// limit once.
    pub(crate) fn purge<V: Versions>(
        &mut self,
        alloc: Global,
        store: &mut V,
        limit: i64,
    ) -> Result<(), Fault>
        requires stands { StandsOn V.Versions self.old store.old }
        requires limit { IsWritable limit }
        requires core { IsTrue (V.honest store.old)
            → list_all is_in_core (stored_items self.old (V.lists store.old)) ≡ true }
        requires dated { IsTrue (V.honest store.old)
            → list_all has_writable_stamp (stored_items self.old (V.lists store.old)) ≡ true }
        ensures made { OnOk result
            (IsMadeOn V.Versions (purged limit) self.old store.old self.new store.new) }
        ensures forgotten { OnOk result (Forgets self.old.entries self.new.entries) }
        ensures moves { Moves V.Versions result self.old store.old self.new store.new }
        ensures store { Spends V.room V.failures V.honest (length self.old.entries + 1) result store.old store.new }
    {
        let gone = deleted_below(alloc, store, self.version(), limit, self.len() as usize)?;
        self.remove_each(store, gone.as_slice())
    }

    /// Removes the items, which are the repository's, in a new version. If there are none, nothing changes. A fault
    /// leaves everything unchanged.
    fn remove_each<V: Versions>(&mut self, store: &mut V, gone: &[Item]) -> Result<(), Fault>
        requires stands { StandsOn V.Versions self.old store.old }
        requires taken { IsTrue (V.honest store.old)
            → AreFoundInTurn gone.now (stored_items self.old (V.lists store.old)) }
        ensures made { OnOk result
            (IsMadeOn V.Versions (without_each gone.now) self.old store.old self.new store.new) }
        ensures forgotten { OnOk result (Forgets self.old.entries self.new.entries) }
        ensures moves { Moves V.Versions result self.old store.old self.new store.new }
        ensures store { Spends V.room V.failures V.honest (length gone.now + 1) result store.old store.new }
    {
        if gone.is_empty() {
            return Ok(());
        }
        self.version = remove_items(store, self.version, gone)?;
        self.forget_each(gone);
        Ok(())
    }

    /// Removes the identifiers of the items from the index. Allocates nothing.
    fn forget_each(&mut self, gone: &[Item])
        ensures version { self.new.version ≡ self.old.version }
        ensures agrees { (items : List ItemState) → IndexAgrees self.old.entries items
            → AreFoundInTurn gone.now items → IndexAgrees self.new.entries (without_each gone.now items) }
        ensures forgotten { Forgets self.old.entries self.new.entries }
    {
        for deleted in gone {
            self.forget(deleted.identifier().as_str());
        }
    }

    /// Removes the identifier from the index. Allocates nothing.
    fn forget(&mut self, identifier: &str)
        ensures version { self.new.version ≡ self.old.version }
        ensures entries { SetsStamp identifier.now None self.old.entries self.new.entries }
        ensures many { IsSome (stamp_in identifier.now self.old.entries) → length self.new.entries + 1
            ≡ length self.old.entries }
        ensures fewer { length self.new.entries ≤ length self.old.entries }
    {
        self.stamps.remove(identifier);
    }
}

/// Whether there is an item, and it has that identifier.
fn is_one_named(item: Option<&Item>, identifier: &str) -> bool
    ensures { result ≡ is_one_named identifier.now (option_copied item.entry) }
{
    match item {
        Some(item) => item.identifier().as_str() == identifier,
        None => false,
    }
}

/// Writes another datestamp under an existing key. Allocates nothing.
fn overwrite_stamp(stamps: &mut BTreeMap<String, i64>, identifier: &str, stamp: i64)
    requires { IsSome (get_by_text stamps.old identifier.now) }
    ensures stamps { (q : List ℕ) → get_by_text stamps.new q
        ≡ (if bytes_eq identifier.now q then Some stamp else get_by_text stamps.old q) }
    ensures many { length stamps.new.entries ≡ length stamps.old.entries }
{
    match stamps.get_mut(identifier) {
        Some(kept) => *kept = stamp,
        None => {}
    }
}
