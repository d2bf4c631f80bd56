//! Snapshots of all repositories of a host, taken at one moment and saved batch by batch while the host serves.
ghost use Rattle.std.specs.Prelude.{◌≡◌, ◌+◌, ◌++◌, ◌∷◌, ◌≤◌, [], IfOk, IsTrue, List, OnErr, OnOk, is_none, not, slice_get, true};
ghost use Rattle.std.specs.VecDeque.{deque_capacity, deque_len};
ghost use Rattle.oai_catalogue.specs.Store.{Spares, Spends};
ghost use Rattle.oai_host.specs.HostSnapshots.{AreSnapshotsTaken, HasSavedMore, HoldsSnapshots, LeavesSnapshots, SavesSome, calls_for, numbers_of_snapshots};
ghost use Rattle.oai_host.specs.NamedRepos.{AreNamedRepos};
ghost use Rattle.oai_host.specs.Saving.{TakesNext};
ghost use Rattle.oai_repo.specs.Fields.{AreInUse, KeepsOthers};
ghost use Rattle.oai_snapshots.specs.Batches.{HasHandedOutMore, HoldsSnapshot, LeavesSnapshot, has_nothing_left};
ghost use Rattle.oai_snapshots.specs.Snapshots.{SnapshotFields, numbers_of_snapshot, without_lists};

use crate::repositories::NamedRepo;
use crate::saving::{SavedRepo, save_next};
use oai_catalogue::Versions;
use oai_item::Fault;
use oai_replay::{SaveFault, Sink};
use oai_snapshots::Snapshot;
use std::alloc::Global;
use std::collections::VecDeque;
use std::marker::Model;

/// A snapshot of each repository of a host, all taken at the same moment, in the order of the repositories. Those of
/// the first repositories are saved and released; these are left.
#[derive(Drop)]
pub(crate) struct HostSnapshots {
    left: VecDeque<Snapshot>,
}

impl Model for HostSnapshots {
    ghost use Rattle.std.specs.Prelude.{List};
    ghost use Rattle.oai_snapshots.specs.Snapshots.{SnapshotFields};

    ghost Value = { List SnapshotFields };

    ghost view = { λ snapshots. snapshots.left.items };
}

impl HostSnapshots {
    /// No snapshot. Allocates nothing.
    pub(crate) fn none(alloc: Global) -> HostSnapshots
        ensures { result ≡ [] }
    {
        HostSnapshots {
            left: VecDeque::new(alloc),
        }
    }

    /// A snapshot of each of the repositories: it freezes versions of the store, and reads no item. Any fault may come;
    /// `TooManyPages` only if the store may lack room for a call for each repository and each open list. After a fault
    /// the lists of the store are unchanged.
    #[tactic(auto, using(crate::proofs::InUseLemmas::taken_away))]
    pub(crate) fn take<V: Versions>(
        alloc: Global,
        repos: &[NamedRepo],
        store: &mut V,
    ) -> Result<HostSnapshots, Fault>
        requires { AreNamedRepos (V.honest store.old) repos.now (V.lists store.old) }
        ensures taken { IfOk result (λ snapshots. AreSnapshotsTaken (V.honest store.old) repos.now
            (V.lists store.old) snapshots (V.lists store.new)) }
        ensures holds { IfOk result (λ snapshots. HoldsSnapshots (V.honest store.old) repos.now snapshots
            (V.lists store.new)) }
        ensures err { OnErr result (V.lists store.new ≡ V.lists store.old) }
        ensures store { Spends V.room V.failures V.honest (calls_for repos.now) result store.old store.new }
    {
        let mut left = VecDeque::new(alloc);
        match take_each(alloc, repos, store, &mut left) {
            Ok(()) => Ok(HostSnapshots { left }),
            Err(fault) => {
                release_each(store, &mut left);
                Err(fault)
            }
        }
    }

    /// Passes the next batch of the first snapshot that is left to the sink; or, if nothing of it is left, releases it.
    /// Returns false if no snapshot is left. A fault of the store leaves the snapshots unchanged. After any other fault
    /// the sink lacks parts of a batch, and the snapshots can only be released.
    pub(crate) fn save_next<V: Versions, S: Sink>(
        &mut self,
        alloc: Global,
        repos: &[NamedRepo],
        store: &mut V,
        sink: &mut S,
    ) -> Result<bool, SaveFault>
        requires { HoldsSnapshots (V.honest store.old) repos.now self.old (V.lists store.old) }
        ensures saved { IfOk result (λ more. IsTrue (V.honest store.old) → SavesSome S.has repos.now self.old
            (V.lists store.old) sink.old self.new (V.lists store.new) sink.new) }
        ensures further { IfOk result (λ more. more ≡ true → IsTrue (V.honest store.old)
            → HasSavedMore self.old self.new) }
        ensures end { IfOk result (λ more. not more ≡ is_none (slice_get self.old 0)) }
        ensures leaves { LeavesSnapshots (V.honest store.old) repos.now self.old (V.lists store.old) self.new
            (V.lists store.new) }
        ensures honesty { V.honest store.new ≡ V.honest store.old }
    {
        if self.left.is_empty() {
            return Ok(false);
        }
        let one = &repos[repos.len() - self.left.len()];
        let more = save_one(alloc, one, &mut self.left[0], store, sink)?;
        if !more {
            self.release_first(store);
        }
        Ok(true)
    }

    /// Releases the first snapshot that is left. It allocates nothing and cannot fail.
    fn release_first<V: Versions>(&mut self, store: &mut V)
        requires { AreInUse (numbers_of_snapshots self.old) (V.lists store.old) }
        ensures first { (first : SnapshotFields) (others : List SnapshotFields) → self.old ≡ first ∷ others
            → (self.new ≡ others) }
        ensures released { (first : SnapshotFields) (others : List SnapshotFields) → self.old ≡ first ∷ others
            → V.lists store.new ≡ without_lists (numbers_of_snapshot first) (V.lists store.old) }
        ensures honesty { V.honest store.new ≡ V.honest store.old }
    {
        match self.left.pop_front() {
            Some(first) => first.release(store),
            None => {}
        }
    }

    /// Releases all that are left. It allocates nothing and cannot fail.
    pub(crate) fn release<V: Versions>(&mut self, store: &mut V)
        requires { AreInUse (numbers_of_snapshots self.old) (V.lists store.old) }
        ensures none { self.new ≡ [] }
        ensures released { V.lists store.new ≡ without_lists (numbers_of_snapshots self.old) (V.lists store.old) }
        ensures store { Spares V.room V.failures V.honest store.old store.new }
    {
        release_each(store, &mut self.left);
    }
}

/// Takes a snapshot of each of the repositories, and appends them to an empty queue. After a fault it has those that
/// are taken so far.
fn take_each<V: Versions>(
    alloc: Global,
    repos: &[NamedRepo],
    store: &mut V,
    snapshots: &mut VecDeque<Snapshot>,
) -> Result<(), Fault>
    requires repos { AreNamedRepos (V.honest store.old) repos.now (V.lists store.old) }
    requires empty { snapshots.old.items ≡ [] }
    ensures taken { OnOk result (AreSnapshotsTaken (V.honest store.old) repos.now (V.lists store.old)
        snapshots.new.items (V.lists store.new)) }
    ensures stands { AreInUse (numbers_of_snapshots snapshots.new.items) (V.lists store.new) }
    ensures others { KeepsOthers [] (V.lists store.old) (numbers_of_snapshots snapshots.new.items) (V.lists store.new) }
    ensures store { Spends V.room V.failures V.honest (calls_for repos.now) result store.old store.new }
{
    for one in repos {
        snapshots.try_reserve(1)?;
        let snapshot = Snapshot::take(alloc, &one.repo, store)?;
        append(snapshot, snapshots);
    }
    Ok(())
}

/// Appends the snapshot to the queue, which has the capacity.
fn append(snapshot: Snapshot, snapshots: &mut VecDeque<Snapshot>)
    requires { deque_len snapshots.old + 1 ≤ deque_capacity snapshots.old }
    ensures { snapshots.new.items ≡ snapshots.old.items ++ snapshot ∷ [] }
{
    snapshots.push_back(snapshot).unwrap();
}

/// Releases each of the snapshots. It allocates nothing and cannot fail.
fn release_each<V: Versions>(store: &mut V, left: &mut VecDeque<Snapshot>)
    requires { AreInUse (numbers_of_snapshots left.old.items) (V.lists store.old) }
    ensures none { left.new.items ≡ [] }
    ensures released { V.lists store.new ≡ without_lists (numbers_of_snapshots left.old.items) (V.lists store.old) }
    ensures store { Spares V.room V.failures V.honest store.old store.new }
{
    'snapshots: while let Some(snapshot) = left.pop_front() {
        snapshot.release(store);
    }
}

/// Passes the next batch of the repository's snapshot to the sink, and returns whether there was one, as `save_next`
/// does. Its parts that have no moment of their own have the clock at which the snapshot was taken.
fn save_one<V: Versions, S: Sink>(
    alloc: Global,
    one: &NamedRepo,
    snapshot: &mut Snapshot,
    store: &mut V,
    sink: &mut S,
) -> Result<bool, SaveFault>
    requires { HoldsSnapshot (V.honest store.old) snapshot.old (V.lists store.old) }
    ensures saved { IfOk result (λ more. IsTrue (V.honest store.old) → TakesNext S.has one.now.name snapshot.old.clock
        one.now.repo.sets (V.lists store.old) snapshot.old sink.old snapshot.new sink.new) }
    ensures further { IfOk result (λ more. more ≡ true → IsTrue (V.honest store.old)
        → HasHandedOutMore snapshot.old snapshot.new) }
    ensures end { IfOk result (λ more. not more ≡ has_nothing_left snapshot.old) }
    ensures leaves { LeavesSnapshot (V.honest store.old) snapshot.old (V.lists store.old) snapshot.new
        (V.lists store.new) }
    ensures honesty { V.honest store.new ≡ V.honest store.old }
{
    let repo = SavedRepo {
        name: one.name.as_str().as_bytes(),
        clock: snapshot.clock(),
        sets: one.repo.sets(),
    };
    save_next(alloc, &repo, snapshot, store, sink)
}
