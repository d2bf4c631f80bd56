//! Freezes the versions of a repository for a snapshot, and releases them.
ghost use Rattle.std.specs.Prelude.{◌≡◌, ◌+◌, ◌≤◌, ◌∷◌, ◌++◌, None, [], length, true, IfOk, IfSome, IsSome, OnErr, OnOk};
ghost use Rattle.std.specs.VecDeque.{deque_capacity, deque_len};
ghost use Rattle.oai_catalogue.specs.Store.{Spares, Spends, list_at, with_list};
ghost use Rattle.oai_repo.specs.Fields.{AreInUse, KeepsOthers};
ghost use Rattle.oai_snapshots.specs.Snapshots.{versions_of, with_before, without_lists};
ghost use Rattle.oai_snapshots.specs.Taking as spec;
ghost use Rattle.oai_snapshots.specs.Taking.{AreCopies, are_in_use};

use crate::versions::{SnapshotList, SnapshotVersion};
use oai_catalogue::Versions;
use oai_item::Fault;
use oai_lists::OpenList;
use oai_repo::Repo;
use std::alloc::{AllocError, Global};
use std::collections::VecDeque;

/// The versions to freeze: those of the lists that are open at the repository's clock, in the order of their numbers,
/// and last that of the items. The error is out of memory.
pub(crate) fn sources_of(alloc: Global, repo: &Repo) -> Result<Vec<SnapshotVersion>, AllocError>
    ensures { IfOk result (λ sources. sources.items ≡ spec.sources_of repo.now) }
{
    let mut sources = Vec::new(alloc);
    let clock = repo.clock();
    'lists: for at in 0..repo.open_lists() {
        match repo.list_at(at) {
            Some(list) => add_if_open(alloc, clock, list, &mut sources)?,
            None => {}
        }
    }
    sources.push(SnapshotVersion {
        version: repo.version(),
        list: None,
    })?;
    Ok(sources)
}

/// Appends the version of the list if it is open at that clock. The error is out of memory.
fn add_if_open(
    alloc: Global,
    clock: i64,
    list: &OpenList,
    sources: &mut Vec<SnapshotVersion>,
) -> Result<(), AllocError>
    ensures { OnOk result (sources.new.items ≡ spec.with_open clock list.now sources.old.items) }
{
    if clock < list.end {
        sources.push(source_of(alloc, list)?)?;
    }
    Ok(())
}

/// The version of the list, with the list. The error is out of memory.
fn source_of(alloc: Global, list: &OpenList) -> Result<SnapshotVersion, AllocError>
    ensures { IfOk result (λ source. source ≡ spec.source_of list.now) }
{
    Ok(SnapshotVersion {
        version: list.version,
        list: Some(SnapshotList {
            number: list.number,
            verb: list.verb,
            filter: list.filter.copy(alloc)?,
            end: list.end,
            given: list.given,
        }),
    })
}

/// Freezes each of the versions, in their order. After a fault those that are frozen so far are released. Any fault
/// may come; `TooManyPages` only if the store may lack room for so many calls.
pub(crate) fn freeze_all<V: Versions>(
    alloc: Global,
    store: &mut V,
    sources: Vec<SnapshotVersion>,
) -> Result<VecDeque<SnapshotVersion>, Fault>
    requires { are_in_use (V.lists store.old) sources.items ≡ true }
    ensures frozen { IfOk result (λ versions. spec.HasFrozen sources.items (V.lists store.old) versions.items
        (V.lists store.new)) }
    ensures err { OnErr result (V.lists store.new ≡ V.lists store.old) }
    ensures store { Spends V.room V.failures V.honest (length sources.items) result store.old store.new }
{
    let mut versions = VecDeque::new(alloc);
    match freeze_each(store, sources, &mut versions) {
        Ok(()) => Ok(versions),
        Err(fault) => {
            release_each(store, versions);
            Err(fault)
        }
    }
}

/// Freezes the versions, in their order, and appends those that are frozen to an empty queue. After a fault it has
/// those that are frozen so far.
fn freeze_each<V: Versions>(
    store: &mut V,
    sources: Vec<SnapshotVersion>,
    versions: &mut VecDeque<SnapshotVersion>,
) -> Result<(), Fault>
    requires used { are_in_use (V.lists store.old) sources.items ≡ true }
    requires empty { versions.old.items ≡ [] }
    ensures copies { OnOk result (AreCopies sources.items (V.lists store.old) versions.new.items (V.lists store.new)) }
    ensures stands { AreInUse (versions_of versions.new.items) (V.lists store.new) }
    ensures others { KeepsOthers [] (V.lists store.old) (versions_of versions.new.items) (V.lists store.new) }
    ensures store { Spends V.room V.failures V.honest (length sources.items) result store.old store.new }
{
    'sources: for source in sources {
        versions.try_reserve(1)?;
        let frozen = freeze_version(store, source)?;
        append(frozen, versions);
    }
    Ok(())
}

/// Freezes the version. Any fault may come.
fn freeze_version<V: Versions>(
    store: &mut V,
    source: SnapshotVersion,
) -> Result<SnapshotVersion, Fault>
    requires { IsSome (V.lists store.old source.version) }
    ensures unused { IfOk result (λ frozen. V.lists store.old frozen.version ≡ None) }
    ensures list { IfOk result (λ frozen. frozen.list ≡ source.list) }
    ensures ok { IfOk result (λ frozen. V.lists store.new
        ≡ with_list frozen.version (list_at (V.lists store.old) source.version) (V.lists store.old)) }
    ensures err { OnErr result (V.lists store.new ≡ V.lists store.old) }
    ensures store { Spends V.room V.failures V.honest 1 result store.old store.new }
{
    let version = store.freeze(source.version)?;
    Ok(SnapshotVersion {
        version,
        list: source.list,
    })
}

/// Appends the version to the queue, which has the capacity.
fn append(version: SnapshotVersion, versions: &mut VecDeque<SnapshotVersion>)
    requires { deque_len versions.old + 1 ≤ deque_capacity versions.old }
    ensures { versions.new.items ≡ versions.old.items ++ version ∷ [] }
{
    versions.push_back(version).unwrap();
}

/// Releases the version, if there is one. It allocates nothing and cannot fail.
#[tactic(auto, using(crate::proofs::TakingLemmas::without_one, crate::proofs::TakingLemmas::without_none))]
pub(crate) fn release_if<V: Versions>(store: &mut V, version: Option<u64>)
    requires { IfSome version (λ v. IsSome (V.lists store.old v)) }
    ensures released { V.lists store.new ≡ without_lists (with_before version []) (V.lists store.old) }
    ensures store { Spares V.room V.failures V.honest store.old store.new }
{
    match version {
        Some(v) => store.release(v),
        None => {}
    }
}

/// Releases each of the versions. It allocates nothing and cannot fail.
pub(crate) fn release_each<V: Versions>(store: &mut V, versions: VecDeque<SnapshotVersion>)
    requires { AreInUse (versions_of versions.items) (V.lists store.old) }
    ensures released { V.lists store.new ≡ without_lists (versions_of versions.items) (V.lists store.old) }
    ensures store { Spares V.room V.failures V.honest store.old store.new }
{
    let mut left = versions;
    'versions: while let Some(frozen) = left.pop_front() {
        store.release(frozen.version);
    }
}
