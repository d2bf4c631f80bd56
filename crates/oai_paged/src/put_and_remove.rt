//! Inserts items into a directory, and removes them.
ghost use Rattle.std.specs.Prelude.{◌≡◌, ◌+◌, ◌<◌, ◌≤◌, ℕ, [], true, length, take, drop, is_some, HoldsAt, vec_capacity, vec_len, IfOk, IfSome, IsTrue, OnErr, OnOk};
ghost use Rattle.oai_catalogue.specs.Store.{Spends};
ghost use Rattle.oai_item.specs.Encoding.{encoded};
ghost use Rattle.oai_item.specs.Items.{item_at, with_item, without_at};
ghost use Rattle.oai_item.specs.declared.sizes.TheConstants.{MAX_ITEM_BYTES};
ghost use Rattle.oai_paged.specs.Changes.{Changes, ChangesNothing, HasWayBack, PutsItem, Stages, TakesItemOut};
ghost use Rattle.oai_places.specs.Directory.{IsRunWithin, MayReplace, PutsAt, StandsIn, items_with_run};
ghost use Rattle.oai_places.specs.Places.{items_on};
ghost use Rattle.oai_places.specs.Searches.{IsPlaceFor};
ghost use Rattle.oai_places.specs.Sums.{AreGroups};
ghost use Rattle.oai_places.specs.declared.sizes.TheConstants.{MAX_OVERFLOW_PAGES};

use crate::changes::{Changed, CutEntries, LeafRun};
use crate::directories::DirectoryLeaves;
use crate::merging::merge;
use oai_item::{Fault, Item, ItemKey};
use oai_places::{Entries, drop_all, leaf_of, read_place};
use oai_pool::PagePool;
use oai_sums::SetNames;
use std::alloc::Global;
use std::cmp::Ordering;

impl DirectoryLeaves {
    /// Inserts the item, in place of the one with its key if there is one. The encoded item has at most
    /// `MAX_ITEM_BYTES`. It reads at most one page and adds at most three, and the overflow pages of the item. Any
    /// fault may come; directory and pages are then unchanged.
    pub(crate) fn put<P: PagePool>(
        &mut self,
        alloc: Global,
        pages: &mut P,
        names: &mut SetNames,
        item: &Item,
    ) -> Result<(), Fault>
        requires stands { StandsIn P.PagePool pages.old self.old.places.items }
        requires fits { length (encoded item.now) ≤ MAX_ITEM_BYTES }
        ensures list { OnOk result (IsTrue (P.honest pages.old) → items_on (P.pages pages.new) self.new.places.items
            ≡ with_item item.now (items_on (P.pages pages.old) self.old.places.items)) }
        ensures changes { Changes P.PagePool (3 + MAX_OVERFLOW_PAGES) result self.old.places.items self.new.places.items pages.old pages.new }
        ensures groups { AreGroups self.old.places.items self.old.groups → AreGroups self.new.places.items self.new.groups }
    {
        let changed = self.put_in(alloc, pages, names, item)?;
        drop_all(pages, changed.gone);
        Ok(())
    }

    /// Removes the item with that key; returns whether there was one. It reads at most three pages and adds at most
    /// one: if what is left of a page and the items of its neighbours together fill at most nine tenths of one, they
    /// are merged. Any fault may come; directory and pages are then unchanged.
    pub(crate) fn remove<P: PagePool>(
        &mut self,
        alloc: Global,
        pages: &mut P,
        names: &mut SetNames,
        key: ItemKey<'_>,
    ) -> Result<bool, Fault>
        requires { StandsIn P.PagePool pages.old self.old.places.items }
        ensures found { IfOk result (λ found. IsTrue (P.honest pages.old)
            → found ≡ is_some (item_at key.entry.stamp key.entry.identifier.now (items_on (P.pages pages.old) self.old.places.items))) }
        ensures list { OnOk result (IsTrue (P.honest pages.old) → items_on (P.pages pages.new) self.new.places.items
            ≡ without_at key.entry.stamp key.entry.identifier.now (items_on (P.pages pages.old) self.old.places.items)) }
        ensures changes { Changes P.PagePool 1 result self.old.places.items self.new.places.items pages.old pages.new }
        ensures groups { AreGroups self.old.places.items self.old.groups → AreGroups self.new.places.items self.new.groups }
    {
        match self.take_out(alloc, pages, names, key)? {
            Some(changed) => {
                drop_all(pages, changed.gone);
                Ok(true)
            }
            None => Ok(false),
        }
    }

    /// Removes the item with that key and inserts the other item, as `remove` and then `put` do; returns whether there
    /// was one to remove. The encoded item has at most `MAX_ITEM_BYTES`. It reads at most four pages and adds at most
    /// four, and the overflow pages of the item. Any fault may come; directory and pages are then unchanged.
    pub(crate) fn replace<P: PagePool>(
        &mut self,
        alloc: Global,
        pages: &mut P,
        names: &mut SetNames,
        key: ItemKey<'_>,
        item: &Item,
    ) -> Result<bool, Fault>
        requires stands { StandsIn P.PagePool pages.old self.old.places.items }
        requires fits { length (encoded item.now) ≤ MAX_ITEM_BYTES }
        ensures found { IfOk result (λ found. IsTrue (P.honest pages.old)
            → found ≡ is_some (item_at key.entry.stamp key.entry.identifier.now (items_on (P.pages pages.old) self.old.places.items))) }
        ensures list { OnOk result (IsTrue (P.honest pages.old) → items_on (P.pages pages.new) self.new.places.items
            ≡ with_item item.now (without_at key.entry.stamp key.entry.identifier.now (items_on (P.pages pages.old) self.old.places.items))) }
        ensures changes { Changes P.PagePool (4 + MAX_OVERFLOW_PAGES) result self.old.places.items self.new.places.items pages.old pages.new }
        ensures groups { AreGroups self.old.places.items self.old.groups → AreGroups self.new.places.items self.new.groups }
    {
        let Some(first) = self.take_out(alloc, pages, names, key)? else {
            self.put(alloc, pages, names, item)?;
            return Ok(false);
        };
        match self.put_in(alloc, pages, names, item) {
            Ok(second) => {
                drop_all(pages, second.gone);
                drop_all(pages, first.gone);
                Ok(true)
            }
            Err(fault) => {
                self.undo(pages, first);
                Err(fault)
            }
        }
    }

    /// Inserts the item; the pages of the replaced leaves are still referenced. Any fault may come; directory and pages
    /// are then unchanged.
    fn put_in<P: PagePool>(
        &mut self,
        alloc: Global,
        pages: &mut P,
        names: &mut SetNames,
        item: &Item,
    ) -> Result<Changed, Fault>
        requires stands { StandsIn P.PagePool pages.old self.old.places.items }
        requires fits { length (encoded item.now) ≤ MAX_ITEM_BYTES }
        ensures { PutsItem P.PagePool item.now result self.old.places self.new.places self.old.groups self.new.groups pages.old pages.new }
    {
        if self.places.is_empty() {
            return self.put_alone(alloc, pages, names, LeafRun { at: 0, len: 0 }, item);
        }
        let at = leaf_of(self.places.as_slice(), item.key());
        if self.places[at].is_long() {
            return self.put_by_long(alloc, pages, names, at, item);
        }
        self.put_among(alloc, pages, names, at, item)
    }

    /// Inserts the item among those of the leaf at `at`, which has one page, and to which it belongs. Any fault may
    /// come; directory and pages are then unchanged.
    fn put_among<P: PagePool>(
        &mut self,
        alloc: Global,
        pages: &mut P,
        names: &mut SetNames,
        at: usize,
        item: &Item,
    ) -> Result<Changed, Fault>
        requires place { IsPlaceFor (λ place. length place.pages ≤ 1) self.old.places.items (vec_len self.old.places) item.now.stamp item.now.identifier at }
        requires stands { StandsIn P.PagePool pages.old self.old.places.items }
        requires fits { length (encoded item.now) ≤ MAX_ITEM_BYTES }
        ensures { PutsItem P.PagePool item.now result self.old.places self.new.places self.old.groups self.new.groups pages.old pages.new }
    {
        let old = read_place(alloc, pages, self.places.as_slice(), at)?;
        let comes_last = at + 1 == self.places.len() && old.are_before(item.key());
        let (entries, cuts) = old.put(alloc, item, comes_last)?;
        let cut = CutEntries {
            entries: &entries,
            cuts,
        };
        self.change(alloc, pages, names, LeafRun { at, len: 1 }, cut)
    }

    /// Inserts the item beside the one of the leaf at `at`, which has overflow pages, and to which the item belongs, or
    /// in its place. Nothing is read. Any fault but `Damaged` may come; directory and pages are then unchanged.
    fn put_by_long<P: PagePool>(
        &mut self,
        alloc: Global,
        pages: &mut P,
        names: &mut SetNames,
        at: usize,
        item: &Item,
    ) -> Result<Changed, Fault>
        requires place { IsPlaceFor (λ place. 1 < length place.pages) self.old.places.items (vec_len self.old.places) item.now.stamp item.now.identifier at }
        requires stands { StandsIn P.PagePool pages.old self.old.places.items }
        requires fits { length (encoded item.now) ≤ MAX_ITEM_BYTES }
        ensures { PutsItem P.PagePool item.now result self.old.places self.new.places self.old.groups self.new.groups pages.old pages.new }
    {
        match self.places[at].order_to(item.key()) {
            Ordering::Less => self.put_alone(
                alloc,
                pages,
                names,
                LeafRun { at: at + 1, len: 0 },
                item,
            ),
            Ordering::Equal => self.put_alone(alloc, pages, names, LeafRun { at, len: 1 }, item),
            Ordering::Greater => self.put_alone(alloc, pages, names, LeafRun { at, len: 0 }, item),
        }
    }

    /// Adds pages of the item alone, and swaps their leaf in for `len` leaves from `at` on, at most one, where it
    /// belongs. Any fault but `Damaged` may come; directory and pages are then unchanged.
    fn put_alone<P: PagePool>(
        &mut self,
        alloc: Global,
        pages: &mut P,
        names: &mut SetNames,
        run: LeafRun,
        item: &Item,
    ) -> Result<Changed, Fault>
        requires within { IsRunWithin run.at run.len (vec_len self.old.places) }
        requires stands { StandsIn P.PagePool pages.old self.old.places.items }
        requires fits { length (encoded item.now) ≤ MAX_ITEM_BYTES }
        requires puts { PutsAt (P.pages pages.old) self.old.places.items item.now run.at run.len }
        ensures { PutsItem P.PagePool item.now result self.old.places self.new.places self.old.groups self.new.groups pages.old pages.new }
    {
        let (entries, cuts) = Entries::new(alloc).put(alloc, item, false)?;
        let cut = CutEntries {
            entries: &entries,
            cuts,
        };
        self.change(alloc, pages, names, run, cut)
    }

    /// Removes the item with that key, if there is one; the pages that it was on are still referenced. It adds at most
    /// one page. Any fault may come; directory and pages are then unchanged.
    fn take_out<P: PagePool>(
        &mut self,
        alloc: Global,
        pages: &mut P,
        names: &mut SetNames,
        key: ItemKey<'_>,
    ) -> Result<Option<Changed>, Fault>
        requires { StandsIn P.PagePool pages.old self.old.places.items }
        ensures { TakesItemOut P.PagePool key.entry.stamp key.entry.identifier.now result self.old.places self.new.places self.old.groups self.new.groups pages.old pages.new }
    {
        if self.places.is_empty() {
            return Ok(None);
        }
        let at = leaf_of(self.places.as_slice(), key);
        if self.places[at].is_long() {
            return self.take_out_long(alloc, pages, names, at, key);
        }
        self.take_out_among(alloc, pages, names, at, key)
    }

    /// Removes the item from those of the leaf at `at`, which has one page, and to which its key belongs. Any fault may
    /// come; directory and pages are then unchanged.
    fn take_out_among<P: PagePool>(
        &mut self,
        alloc: Global,
        pages: &mut P,
        names: &mut SetNames,
        at: usize,
        key: ItemKey<'_>,
    ) -> Result<Option<Changed>, Fault>
        requires place { IsPlaceFor (λ place. length place.pages ≤ 1) self.old.places.items (vec_len self.old.places) key.stamp key.identifier.now at }
        requires stands { StandsIn P.PagePool pages.old self.old.places.items }
        ensures { TakesItemOut P.PagePool key.entry.stamp key.entry.identifier.now result self.old.places self.new.places self.old.groups self.new.groups pages.old pages.new }
    {
        let old = read_place(alloc, pages, self.places.as_slice(), at)?;
        match old.remove(alloc, key)? {
            Some(entries) => {
                let changed = self.leave(alloc, pages, names, at, entries)?;
                Ok(Some(changed))
            }
            None => Ok(None),
        }
    }

    /// Removes the leaf at `at`, which has overflow pages, if its item is the one with that key, which belongs to it.
    /// It is not read. Any fault but `Damaged` may come; directory and pages are then unchanged.
    fn take_out_long<P: PagePool>(
        &mut self,
        alloc: Global,
        pages: &mut P,
        names: &mut SetNames,
        at: usize,
        key: ItemKey<'_>,
    ) -> Result<Option<Changed>, Fault>
        requires place { IsPlaceFor (λ place. 1 < length place.pages) self.old.places.items (vec_len self.old.places) key.stamp key.identifier.now at }
        requires stands { StandsIn P.PagePool pages.old self.old.places.items }
        ensures { TakesItemOut P.PagePool key.entry.stamp key.entry.identifier.now result self.old.places self.new.places self.old.groups self.new.groups pages.old pages.new }
    {
        if self.places[at].order_to(key) != Ordering::Equal {
            return Ok(None);
        }
        let changed = self.leave(alloc, pages, names, at, Entries::new(alloc))?;
        Ok(Some(changed))
    }

    /// Replaces the leaf at `at` by one page of the entries, or by none if there are no entries, merged with the items
    /// of its neighbours if all fill at most nine tenths of a page. Any fault but `Damaged` may come; directory and
    /// pages are then unchanged.
    fn leave<P: PagePool>(
        &mut self,
        alloc: Global,
        pages: &mut P,
        names: &mut SetNames,
        at: usize,
        entries: Entries,
    ) -> Result<Changed, Fault>
        requires stands { StandsIn P.PagePool pages.old self.old.places.items }
        requires may { MayReplace (P.pages pages.old) self.old.places.items at 1 entries }
        ensures list { OnOk result (IsTrue (P.honest pages.old) → items_on (P.pages pages.new) self.new.places.items
            ≡ items_with_run (P.pages pages.old) self.old.places.items at 1 entries) }
        ensures staged { IfOk result (λ changed. Stages P.PagePool changed.at changed.len changed.gone.items self.old.places.items self.new.places.items pages.old pages.new) }
        ensures err { OnErr result (ChangesNothing P.PagePool self.old.places.items self.new.places.items pages.old pages.new) }
        ensures back { IfOk result (λ changed. HasWayBack changed.at changed.len
            (vec_len self.new.places) (vec_capacity self.new.places) (vec_len changed.gone) (vec_capacity changed.gone)) }
        ensures pool { Spends P.room P.failures P.honest 1 result pages.old pages.new }
        ensures groups { AreGroups self.old.places.items self.old.groups → AreGroups self.new.places.items self.new.groups }
    {
        let merged = merge(alloc, pages, self.places.as_slice(), at, entries);
        let cuts = merged.entries.cuts(false);
        let run = LeafRun {
            at: merged.at,
            len: merged.len,
        };
        let cut = CutEntries {
            entries: &merged.entries,
            cuts,
        };
        self.change(alloc, pages, names, run, cut)
    }
}
