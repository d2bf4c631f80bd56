//! Takes a snapshot of a repository, hands it out, and releases it.
ghost use Rattle.std.specs.Prelude.{◌≡◌, ◌+◌, ◌<◌, List, [], None, Some, is_none, length, option_map, slice_get, true, IfOk, IfSome, IsSome, IsTrue, OnErr};
ghost use Rattle.oai_catalogue.specs.Store.{Spares, Spends, list_at};
ghost use Rattle.oai_catalogue.specs.Calls.{OnlyReads};
ghost use Rattle.oai_holdings.specs.Holdings.{NamedSet};
ghost use Rattle.oai_lists.specs.OpenLists.{open_ones};
ghost use Rattle.oai_repo.specs.Fields.{AreInUse, KeepsOthers, Owns, numbers_of};
ghost use Rattle.oai_snapshots.specs.Batches.{HasHandedOutMore, HoldsSnapshot, LeavesSnapshot, has_nothing_left, next_parts};
ghost use Rattle.oai_snapshots.specs.Passing.{HandsOutChange, HasPassed};
ghost use Rattle.oai_snapshots.specs.Reading.{AreNextDifferences, place_in_differences};
ghost use Rattle.oai_snapshots.specs.declared.batches.Batch.TheVariants.{Begins, HasSet};
ghost use Rattle.oai_snapshots.specs.Snapshots.{HandsOut, IsSnapshotTaken, going, items_before, with_before, are_apart_from, have_whole, numbers_of_snapshot, without_lists};

use crate::batches::Batch;
use crate::freezing::{freeze_all, release_each, release_if, sources_of};
use crate::places::{DifferencePlace, Differences};
use crate::reading::read_differences;
use crate::versions::{SnapshotList, SnapshotVersion};
use oai_catalogue::Versions;
use oai_item::Fault;
use oai_repo::Repo;
use std::alloc::Global;
use std::collections::VecDeque;
use std::marker::Model;

/// A snapshot of a repository with its open lists, and what is left of it to hand out: a frozen version of the store
/// for each list that was open, and one of the items. They are no versions of the repository, which goes on serving.
#[derive(Drop)]
pub struct Snapshot {
    clock: i64,
    next: u64,
    begun: bool,
    sets: usize,
    given: usize,
    before: Option<u64>,
    versions: VecDeque<SnapshotVersion>,
    place: DifferencePlace,
}

impl Model for Snapshot {
    ghost use Rattle.oai_snapshots.specs.Snapshots.{SnapshotFields};
    ghost use Rattle.oai_snapshots.specs.Inside.{snapshot_in};

    ghost Value = { SnapshotFields };

    ghost view = { snapshot_in };
}

impl Snapshot {
    /// A snapshot of the repository: it freezes the version of each list that is open at the repository's clock, in the
    /// order of their numbers, and last that of the items. What grows is allocated from `alloc`. Any fault may come,
    /// `TooManyPages` only if the store may lack room for one call more than there are open lists. After a fault the
    /// lists of the store are unchanged.
    pub fn take<V: Versions>(alloc: Global, repo: &Repo, store: &mut V) -> Result<Snapshot, Fault>
        requires { Owns (V.honest store.old) repo.now (V.lists store.old) }
        ensures taken { IfOk result (λ snapshot. IsSnapshotTaken repo.now (V.lists store.old) snapshot
            (V.lists store.new)) }
        ensures holds { IfOk result (λ snapshot. HoldsSnapshot (V.honest store.old) snapshot (V.lists store.new)) }
        ensures whole { have_whole (numbers_of repo.now) (V.lists store.old) ≡ true
            → IfOk result (λ snapshot. have_whole (numbers_of_snapshot snapshot) (V.lists store.new) ≡ true) }
        ensures others { IfOk result (λ snapshot. KeepsOthers [] (V.lists store.old)
            (numbers_of_snapshot snapshot) (V.lists store.new)) }
        ensures apart { IfOk result (λ snapshot. are_apart_from snapshot (numbers_of repo.now)
            (V.lists store.new) ≡ true) }
        ensures err { OnErr result (V.lists store.new ≡ V.lists store.old) }
        ensures store { Spends V.room V.failures V.honest
            (length (open_ones repo.now.clock repo.now.table.lists) + 1) result store.old store.new }
    {
        let sources = sources_of(alloc, repo)?;
        let versions = freeze_all(alloc, store, sources)?;
        Ok(Snapshot {
            clock: repo.clock(),
            next: repo.next_list(),
            begun: false,
            sets: repo.sets().len(),
            given: 0,
            before: None,
            versions,
            place: DifferencePlace::Going(None),
        })
    }

    /// The clock of the repository when the snapshot was taken, in seconds from 1970 on.
    pub fn clock(&self) -> i64
        ensures { result ≡ self.now.clock }
    {
        self.clock
    }

    /// Hands out the next batch, or None if nothing is left. At most `most` items of each of two versions are read. Where
    /// a version is now handed out whole, the one before it is released; the last one is released by `release`. A batch
    /// of items may be empty. What grows is allocated from `alloc`. Any fault but `TooManyPages` may come; after it
    /// everything is unchanged.
    pub fn next<V: Versions>(
        &mut self,
        alloc: Global,
        store: &mut V,
        most: usize,
    ) -> Result<Option<Batch>, Fault>
        requires holds { HoldsSnapshot (V.honest store.old) self.old (V.lists store.old) }
        requires some { 0 < most }
        ensures handed { IfOk result (λ batch. IsTrue (V.honest store.old) → (sets : List NamedSet)
            → HandsOut sets (V.lists store.old) self.old (next_parts sets batch) self.new) }
        ensures further { IfOk result (λ batch. IfSome batch (λ _. IsTrue (V.honest store.old)
            → HasHandedOutMore self.old self.new)) }
        ensures none { IfOk result (λ batch. is_none batch ≡ has_nothing_left self.old) }
        ensures leaves { LeavesSnapshot (V.honest store.old) self.old (V.lists store.old) self.new
            (V.lists store.new) }
        ensures err { OnErr result ((self.new ≡ self.old) × (V.lists store.new ≡ V.lists store.old)) }
        ensures store { Spends V.room V.failures V.honest 0 result store.old store.new }
    {
        if !self.begun {
            return Ok(Some(self.begin()));
        }
        if self.given < self.sets {
            return Ok(Some(self.next_set()));
        }
        match self.first_version() {
            Some(version) => Ok(Some(self.next_change(alloc, store, version, most)?)),
            None => Ok(None),
        }
    }

    /// Releases what is left of the snapshot. It allocates nothing and cannot fail.
    pub fn release<V: Versions>(self, store: &mut V)
        requires { AreInUse (numbers_of_snapshot self) (V.lists store.old) }
        ensures released { V.lists store.new
            ≡ without_lists (numbers_of_snapshot self) (V.lists store.old) }
        ensures store { Spares V.room V.failures V.honest store.old store.new }
    {
        let Snapshot {
            before,
            versions,
            ..
        } = self;
        release_if(store, before);
        release_each(store, versions);
    }

    /// The clock and the next number, which are then handed out.
    fn begin(&mut self) -> Batch
        ensures batch { result ≡ Begins self.old.clock self.old.next }
        ensures begun { self.new ≡ record self.old { begun = true } }
    {
        self.begun = true;
        Batch::Begins {
            clock: self.clock,
            next: self.next,
        }
    }

    /// The next set, which is then handed out.
    fn next_set(&mut self) -> Batch
        requires { self.old.given < self.old.sets }
        ensures batch { result ≡ HasSet self.old.given }
        ensures given { self.new ≡ record self.old { given = self.old.given + 1 } }
    {
        let (at, sets) = (self.given, self.sets);
        if sets <= at {
            unreachable!()
        }
        self.given = at + 1;
        Batch::HasSet(at)
    }

    /// The number of the first version that is left.
    fn first_version(&self) -> Option<u64>
        ensures { result ≡ option_map (λ s. s.version) (slice_get self.now.versions 0) }
    {
        match self.versions.front() {
            Some(first) => Some(first.version),
            None => None,
        }
    }

    /// The next of the changes to the first version that is left, which has that number; and its list after the last of
    /// them.
    fn next_change<V: Versions>(
        &mut self,
        alloc: Global,
        store: &mut V,
        version: u64,
        most: usize,
    ) -> Result<Batch, Fault>
        requires holds { HoldsSnapshot (V.honest store.old) self.old (V.lists store.old) }
        requires some { 0 < most }
        requires first { Some version ≡ option_map (λ s. s.version) (slice_get self.old.versions 0) }
        ensures changes { IfOk result (λ batch. IsTrue (V.honest store.old)
            → HandsOutChange (V.lists store.old) self.old batch self.new) }
        ensures leaves { LeavesSnapshot (V.honest store.old) self.old (V.lists store.old) self.new
            (V.lists store.new) }
        ensures err { OnErr result ((self.new ≡ self.old) × (V.lists store.new ≡ V.lists store.old)) }
        ensures store { Spends V.room V.failures V.honest 0 result store.old store.new }
    {
        let read = self.read(alloc, store, version, most)?;
        match read {
            Differences::Go(items, place) => {
                self.move_to(place);
                Ok(Batch::Gone(items))
            }
            Differences::Come(items, next) => {
                match next {
                    Some(place) => {
                        self.move_to(place);
                        Ok(Batch::Come(items, None))
                    }
                    None => {
                        let list = self.pass_first(store);
                        Ok(Batch::Come(items, list))
                    }
                }
            }
        }
    }

    /// Reads the next differences to the version.
    fn read<V: Versions>(
        &self,
        alloc: Global,
        store: &mut V,
        version: u64,
        most: usize,
    ) -> Result<Differences, Fault>
        requires holds { HoldsSnapshot (V.honest store.old) self.now (V.lists store.old) }
        requires some { 0 < most }
        requires first { Some version ≡ option_map (λ s. s.version) (slice_get self.now.versions 0) }
        ensures read { IfOk result (λ differences. IsTrue (V.honest store.old)
            → AreNextDifferences self.now.place (items_before (V.lists store.old) self.now.before)
            (list_at (V.lists store.old) version) differences) }
        ensures reads { OnlyReads V.Versions result store.old store.new }
    {
        read_differences(alloc, store, self.before, version, &self.place, most)
    }

    /// Moves to the place.
    fn move_to(&mut self, place: DifferencePlace)
        ensures { self.new ≡ record self.old { place = place_in_differences place } }
    {
        self.place = place;
    }

    /// Passes the first version that is left, and returns its list. The one before it is released.
    fn pass_first<V: Versions>(&mut self, store: &mut V) -> Option<SnapshotList>
        requires stands { AreInUse (numbers_of_snapshot self.old) (V.lists store.old) }
        requires first { IsSome (slice_get self.old.versions 0) }
        ensures passed { HasPassed self.old result self.new }
        ensures released { V.lists store.new
            ≡ without_lists (with_before self.old.before []) (V.lists store.old) }
        ensures store { Spares V.room V.failures V.honest store.old store.new }
    {
        let Some(first) = self.versions.pop_front() else {
            unreachable!()
        };
        release_if(store, self.before);
        self.before = Some(first.version);
        self.place = DifferencePlace::Going(None);
        first.list
    }
}
