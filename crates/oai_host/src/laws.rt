//! Theorems on the exchanges with a host and on its snapshots: empty functions whose contracts are the statements.
ghost use Rattle.oai_device.specs.declared.devices.TheConstants.{MAX_FAILURES};
ghost use Rattle.oai_host.specs.Answers.{tells_of_device};
ghost use Rattle.oai_catalogue.specs.Store.{AreInOrder, VersionLists};
ghost use Rattle.oai_host.specs.HostSnapshots.{AreSnapshotsTaken, HoldsSnapshots, HasChangedAt, LeavesSnapshots, parts_left_in};
ghost use Rattle.oai_host.specs.Hosts.{AreExchanged, HostState, IsRun};
ghost use Rattle.oai_host.specs.NamedRepos.{AllHeld, AreNamedRepos, repositories_of};
ghost use Rattle.oai_host.specs.declared.repositories.NamedRepo.{NamedRepo};
ghost use Rattle.oai_repo.specs.Fields.{state_of};
ghost use Rattle.oai_snapshots.specs.Snapshots.{IsSnapshot, SnapshotFields};
ghost use Rattle.oai_host.specs.Performed.{StoreState};
ghost use Rattle.oai_http.specs.declared.exchanges.Answer.{Answer};
ghost use Rattle.oai_http.specs.declared.exchanges.Call.{Call};
ghost use Rattle.oai_http.specs.declared.statuses.Status.TheVariants.{InternalServerError};
ghost use Rattle.oai_repo.specs.State.{RepoState};
ghost use Rattle.oai_settings.specs.Config.{RepositoryConfig};
ghost use Rattle.std.specs.List.{AllByRecursion, AllZip};
ghost use Rattle.std.specs.Prelude.{Bool, IsTrue, List, filter, length, true, ℕ, ◌+◌, ◌<◌, ◌≡◌, ◌≤◌};

/// At most as many answers report a failed device as failures were counted meanwhile: of all exchanges with a host, and
/// of those of each repository, as long as the count has not saturated. And over a store that returns what was written
/// to it, an exchange is answered 500 (RFC 9110, section 15.6.1) only with the fault that a device failed. A theorem,
/// proved by an empty function.
pub fn failures_law()
    ensures exchanged { (calls : List Call) (answers : List Answer) (before after : HostState)
        → AreExchanged calls answers before after → after.failures < MAX_FAILURES
        → length (filter tells_of_device answers) + before.failures ≤ after.failures }
    ensures run { (config : RepositoryConfig) (calls : List Call) (answers : List Answer) (before : RepoState)
        (old : StoreState) (after : RepoState) (new : StoreState)
        → IsRun config calls answers before old after new → new.failures < MAX_FAILURES
        → length (filter tells_of_device answers) + old.failures ≤ new.failures }
    ensures broken { (calls : List Call) (answers : List Answer) (before after : HostState)
        → IsTrue before.honest → AreExchanged calls answers before after
        → AllByRecursion (λ (answer : Answer). answer.status ≡ InternalServerError
        → tells_of_device answer ≡ true) answers }
{}

/// Over an honest store, what is left of snapshots just taken are the parts of each repository's state at that moment,
/// with all its open lists (`taken`). Whatever a call then does at one of the repositories, the snapshots hold, and the
/// same parts are left of them (`kept`). And handing them out leaves all repositories as they are (`apart`). A theorem,
/// proved by an empty function.
pub fn host_snapshots_law()
    ensures taken { (honest : Bool) (repos : List NamedRepo) (before : VersionLists) (snapshots : List SnapshotFields)
        (after : VersionLists) → AreInOrder before → AllHeld repos before
        → AreSnapshotsTaken honest repos before snapshots after
        → AllZip (λ (one : NamedRepo) (snapshot : SnapshotFields). IsSnapshot (state_of one.repo before) one.repo.sets
        after snapshot) repos snapshots }
    ensures kept { (honest : Bool) (place : ℕ) (old new : List NamedRepo) (snapshots : List SnapshotFields)
        (before after : VersionLists) → HasChangedAt place old before new after
        → HoldsSnapshots honest old snapshots before → HoldsSnapshots honest new snapshots after
        × (parts_left_in new after snapshots ≡ parts_left_in old before snapshots) }
    ensures apart { (honest : Bool) (repos : List NamedRepo) (old new : List SnapshotFields)
        (before after : VersionLists) → HoldsSnapshots honest repos old before
        → LeavesSnapshots honest repos old before new after → AreNamedRepos honest repos before
        → AreNamedRepos honest repos after × (repositories_of repos after ≡ repositories_of repos before) }
{}
