//! A repository that is saved while it serves: the batches of a snapshot of it, passed to a sink.
ghost use Rattle.oai_args.specs.Verbs.{is_of_records};
ghost use Rattle.oai_host.specs.Saving.{TakesNext, TakesParts};
ghost use Rattle.oai_item.specs.Item.{ItemState};
ghost use Rattle.oai_repo.specs.Saved.{has_gone, has_item, has_list, has_named_set};
ghost use Rattle.oai_snapshots.specs.Batches.{HasHandedOutMore, HoldsSnapshot, LeavesSnapshot, has_nothing_left, parts_of_batch};
ghost use Rattle.oai_snapshots.specs.Snapshots.{list_parts};
ghost use Rattle.std.specs.Option.{option_copied};
ghost use Rattle.std.specs.Prelude.{◌≡◌, ◌∷◌, ◌++◌, [], IfOk, IsTrue, OnOk, drop, map, not, slice_get, take, true};

use crate::list_parts::spelled_list;
use crate::saves::{put, save_piece, save_set, save_start};
use oai_catalogue::Versions;
use oai_item::{Fault, Item};
use oai_names::{ListVerb, SetSpec, SetTree, Text};
use oai_replay::{Part, PartKind, SaveFault, Sink};
use oai_repo::SavedList;
use oai_snapshots::{Batch, Snapshot, SnapshotList};
use std::alloc::Global;

/// How many items of each of two versions are read at once.
const PIECE: usize = 256;

/// A repository of which a snapshot is saved.
#[derive(Clone, Copy)]
pub(crate) struct SavedRepo<'a> {
    /// Its name.
    pub(crate) name: &'a [u8],
    /// The moment of its parts that have none of their own, in seconds from 1970 on.
    pub(crate) clock: i64,
    /// Its sets; some may have been added since the snapshot was taken.
    pub(crate) sets: &'a SetTree,
}

/// Passes the next batch of the snapshot to the sink, and returns whether there was one. A fault of the store leaves the
/// snapshot unchanged. After any other fault the sink lacks parts of the batch, and the snapshot can only be released.
pub(crate) fn save_next<V: Versions, S: Sink>(
    alloc: Global,
    repo: &SavedRepo<'_>,
    snapshot: &mut Snapshot,
    store: &mut V,
    sink: &mut S,
) -> Result<bool, SaveFault>
    requires { HoldsSnapshot (V.honest store.old) snapshot.old (V.lists store.old) }
    ensures saved { IfOk result (λ more. IsTrue (V.honest store.old) → TakesNext S.has repo.now.name.now repo.now.clock
        repo.now.sets.now (V.lists store.old) snapshot.old sink.old snapshot.new sink.new) }
    ensures further { IfOk result (λ more. more ≡ true → IsTrue (V.honest store.old)
        → HasHandedOutMore snapshot.old snapshot.new) }
    ensures end { IfOk result (λ more. not more ≡ has_nothing_left snapshot.old) }
    ensures leaves { LeavesSnapshot (V.honest store.old) snapshot.old (V.lists store.old) snapshot.new
        (V.lists store.new) }
    ensures honesty { V.honest store.new ≡ V.honest store.old }
{
    let batch = match snapshot.next(alloc, store, PIECE) {
        Ok(batch) => batch,
        Err(fault) => return Err(SaveFault::Reading(fault)),
    };
    match batch {
        Some(batch) => {
            save_batch(alloc, repo, &batch, sink)?;
            Ok(true)
        }
        None => Ok(false),
    }
}

/// Passes the parts of a batch.
fn save_batch<S: Sink>(
    alloc: Global,
    repo: &SavedRepo<'_>,
    batch: &Batch,
    sink: &mut S,
) -> Result<(), SaveFault>
    ensures { OnOk result (TakesParts S.has repo.now.name.now repo.now.clock
        (parts_of_batch repo.now.sets.now batch.now) sink.old sink.new) }
{
    match batch {
        Batch::Begins { clock, next } => save_start(repo.name, *clock, *next, sink),
        Batch::HasSet(at) => save_set_at(alloc, repo, *at, sink),
        Batch::Gone(items) => save_gone(repo, items.as_slice(), sink),
        Batch::Come(items, list) => save_come(alloc, repo, items.as_slice(), list, sink),
    }
}

/// Passes the set at the position, if there is one.
fn save_set_at<S: Sink>(
    alloc: Global,
    repo: &SavedRepo<'_>,
    at: usize,
    sink: &mut S,
) -> Result<(), SaveFault>
    ensures { OnOk result (TakesParts S.has repo.now.name.now repo.now.clock
        (map has_named_set (take 1 (drop at repo.now.sets.now))) sink.old sink.new) }
{
    match set_at(repo.sets, at) {
        Some(set) => save_set(alloc, repo.clock, repo.name, &set.0, &set.1, sink),
        None => Ok(()),
    }
}

/// The set at the position, in order of addition, if there is one.
fn set_at(sets: &SetTree, at: usize) -> Option<&(SetSpec, Text)>
    ensures { option_copied result ≡ slice_get sets.now at }
{
    sets.as_slice().get(at)
}

/// Passes that the items go.
fn save_gone<S: Sink>(repo: &SavedRepo<'_>, items: &[Item], sink: &mut S) -> Result<(), SaveFault>
    ensures { OnOk result (TakesParts S.has repo.now.name.now repo.now.clock
        (map (λ (item : ItemState). has_gone item.identifier) items.now) sink.old sink.new) }
{
    for item in items {
        save_one_gone(repo, item, sink)?;
    }
    Ok(())
}

/// Passes that the item goes.
fn save_one_gone<S: Sink>(repo: &SavedRepo<'_>, item: &Item, sink: &mut S) -> Result<(), SaveFault>
    ensures { OnOk result (TakesParts S.has repo.now.name.now repo.now.clock
        (has_gone item.now.identifier ∷ []) sink.old sink.new) }
{
    let part = Part {
        kind: PartKind::Gone,
        moment: repo.clock,
        name: repo.name,
        bytes: item.identifier().as_str().as_bytes(),
    };
    put(sink, &part)
}

/// Passes items, and then an open list, if there is one.
fn save_come<S: Sink>(
    alloc: Global,
    repo: &SavedRepo<'_>,
    items: &[Item],
    list: &Option<SnapshotList>,
    sink: &mut S,
) -> Result<(), SaveFault>
    ensures { OnOk result (TakesParts S.has repo.now.name.now repo.now.clock
        (map has_item items.now ++ list_parts list.now) sink.old sink.new) }
{
    save_piece(alloc, items, repo.name, sink)?;
    save_list_if(alloc, repo, list, sink)
}

/// Passes the open list, if there is one.
fn save_list_if<S: Sink>(
    alloc: Global,
    repo: &SavedRepo<'_>,
    list: &Option<SnapshotList>,
    sink: &mut S,
) -> Result<(), SaveFault>
    ensures { OnOk result (TakesParts S.has repo.now.name.now repo.now.clock (list_parts list.now)
        sink.old sink.new) }
{
    match list {
        Some(list) => save_list(alloc, repo, list, sink),
        None => Ok(()),
    }
}

/// Passes an open list. The error is also `Damaged` for a list of sets, which no repository opens.
fn save_list<S: Sink>(
    alloc: Global,
    repo: &SavedRepo<'_>,
    list: &SnapshotList,
    sink: &mut S,
) -> Result<(), SaveFault>
    ensures { OnOk result (TakesParts S.has repo.now.name.now repo.now.clock (has_list list.now ∷ [])
        sink.old sink.new) }
{
    if !lists_items(list.verb) {
        return Err(SaveFault::Reading(Fault::Damaged));
    }
    let saved = SavedList {
        number: list.number,
        verb: list.verb,
        filter: &list.filter,
        end: list.end,
        given: list.given,
    };
    let Ok(bytes) = spelled_list(alloc, &saved) else {
        return Err(SaveFault::Reading(Fault::NoMemory));
    };
    let part = Part {
        kind: PartKind::List,
        moment: repo.clock,
        name: repo.name,
        bytes: bytes.as_slice(),
    };
    put(sink, &part)
}

/// Whether the verb lists records or headers of items.
fn lists_items(verb: ListVerb) -> bool
    ensures { result ≡ is_of_records verb }
{
    match verb {
        ListVerb::Records => true,
        ListVerb::Identifiers => true,
        ListVerb::Sets => false,
    }
}
