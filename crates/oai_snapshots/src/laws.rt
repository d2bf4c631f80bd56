//! What a snapshot hands out: theorems, each an empty function.
ghost use Rattle.std.specs.Prelude.{◌≡◌, ◌≤◌, ◌++◌, ℕ, Bool, List, Option, IfSome, length, map, true};
ghost use Rattle.oai_catalogue.specs.Store.{AreInOrder, VersionLists};
ghost use Rattle.oai_item.specs.Item.{ItemState};
ghost use Rattle.oai_item.specs.Order.{are_in_order};
ghost use Rattle.oai_holdings.specs.Differences.{ItemDifference, comes, goes};
ghost use Rattle.oai_holdings.specs.Holdings.{NamedSet, no_holdings};
ghost use Rattle.oai_holdings.specs.Missing.{IsBatch, is_after};
ghost use Rattle.oai_holdings.specs.declared.differences.MissingItems.{MissingItems};
ghost use Rattle.oai_holdings.specs.declared.differences.OwnedKey.{OwnedKey};
ghost use Rattle.oai_repo.specs.Fields.{IsStored, KeepsOthers, RepoFields, has, numbers_of, state_of};
ghost use Rattle.oai_repo.specs.Saved.{with_parts};
ghost use Rattle.oai_repo.specs.State.{RepoState};
ghost use Rattle.oai_snapshots.specs.Batches.{HoldsSnapshot, LeavesSnapshot};
ghost use Rattle.oai_snapshots.specs.Snapshots.{IsSnapshot, IsSnapshotTaken, SnapshotFields, after_gone, are_apart_from, arriving, differences_left, going, have_whole, left_to_come, parts_left};

/// What an honest store holds of a repository can be read as a whole (`whole`). What a snapshot hands out are the parts
/// of the repository's state when it was taken, with all its open lists (`taken`), and they restore it (`restored`). What is left does not depend on what the repository does meanwhile, since
/// the snapshot's versions are not the repository's, and sets are only added (`kept`); and the next batch can be handed
/// out then (`held`). Handing out a batch changes none of the repository's versions, and the snapshot's are none of them
/// after it (`apart`). The changes from a version to the next are handed out in batches of items that go, and then of
/// items that come (`goes`, `comes`). A theorem, proved by an empty function.
pub fn snapshot_law()
    ensures whole { (repo : RepoFields) (lists : VersionLists) → IsStored repo lists
        → have_whole (numbers_of repo) lists ≡ true }
    ensures taken { (repo : RepoFields) (before after : VersionLists) (snapshot : SnapshotFields)
        → AreInOrder before → have_whole (numbers_of repo) before ≡ true
        → IsSnapshotTaken repo before snapshot after
        → IsSnapshot (state_of repo before) repo.sets after snapshot }
    ensures restored { (state start : RepoState) (sets : List NamedSet) (lists : VersionLists)
        (snapshot : SnapshotFields) → start.holdings ≡ no_holdings → IsSnapshot state sets lists snapshot
        → with_parts start (parts_left sets lists snapshot) ≡ state }
    ensures kept { (snapshot : SnapshotFields) (old new : List ℕ) (before after : VersionLists)
        (sets more : List NamedSet) → KeepsOthers old before new after
        → are_apart_from snapshot old before ≡ true → snapshot.sets ≤ length sets
        → (are_apart_from snapshot new after ≡ true)
        × (parts_left (sets ++ more) after snapshot ≡ parts_left sets before snapshot) }
    ensures held { (honest : Bool) (snapshot : SnapshotFields) (old new : List ℕ) (before after : VersionLists)
        → KeepsOthers old before new after → are_apart_from snapshot old before ≡ true
        → HoldsSnapshot honest snapshot before → HoldsSnapshot honest snapshot after }
    ensures apart { (honest : Bool) (old new : SnapshotFields) (numbers : List ℕ) (before after : VersionLists)
        → LeavesSnapshot honest old before new after → are_apart_from old numbers before ≡ true
        → (are_apart_from new numbers after ≡ true)
        × ((n : ℕ) → has numbers n ≡ true → after n ≡ before n) }
    ensures goes { (items others : List ItemState) (behind : Option OwnedKey) (batch : MissingItems)
        → are_in_order items ≡ true → IsBatch items others behind batch
        → IfSome batch.next (λ next. is_after next behind ≡ true)
        → differences_left (going behind) items others
        ≡ map (λ (item : ItemState). goes item.identifier) batch.items
        ++ differences_left (after_gone batch.next) items others }
    ensures comes { (items others : List ItemState) (behind : Option OwnedKey) (batch : MissingItems)
        → are_in_order others ≡ true → IsBatch others items behind batch
        → IfSome batch.next (λ next. is_after next behind ≡ true)
        → differences_left (arriving behind) items others
        ≡ map comes batch.items ++ left_to_come batch.next items others }
{}
