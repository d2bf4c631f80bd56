//! Commit groups: frames, written to a disk after the unset commit byte that ends the journal.
ghost use Rattle.std.specs.Prelude.{◌≡◌, ◌⊎◌, ◌+◌, ◌++◌, ◌<◌, ◌^◌, ℕ, List, length, OnOk, IfErr};
ghost use Rattle.sqlite_disk.specs.Disk.{Only, Torn};
ghost use Rattle.oai_journal.specs.Files as spec;
ghost use Rattle.oai_journal.specs.Groups.{EndsBeforeOrAfter, IsGroup, IsOnDisk, IsMadeDurable, digest_of_all};
ghost use Rattle.oai_journal.specs.Records.{Entry};
ghost use Rattle.oai_journal.specs.declared.journals.JournalFault.TheVariants as fault;

use crate::journals::JournalFault;
use sqlite_disk::Disk;

/// The commit byte that begins a committed group.
pub(crate) const OPEN_GATE: u8 = b'+';

/// The commit byte of a further frame of a group.
pub(crate) const FURTHER_GATE: u8 = b'&';

/// Whether the commit byte is set, so that the frame after it is committed.
pub(crate) fn is_open(gate: u8) -> bool
    ensures { result ≡ spec.is_commit_set gate }
{
    gate == OPEN_GATE || gate == FURTHER_GATE
}

/// Writes a group after the unset commit byte at `end`: first the group's bytes, the last of which is an unset commit
/// byte, and syncs; then sets the commit byte at `end`, and syncs.
pub(crate) fn write_group<D: Disk>(
    disk: &mut D,
    end: usize,
    group: &[u8],
) -> Result<(), JournalFault>
    requires some { 0 < length group.now }
    requires within { end + length group.now < 2 ^ 64 }
    ensures settled { OnOk result ((digest : ℕ) (first : Entry) (entries later : List Entry)
        → IsOnDisk D.Disk.seen D.Disk.may_leave disk.old end digest first entries → IsGroup group.now digest later
        → IsOnDisk D.Disk.seen D.Disk.may_leave disk.new (end + length group.now) (digest_of_all digest later) first
        (entries ++ later)) }
    ensures crash { (digest : ℕ) (first : Entry) (entries later : List Entry)
        → IsOnDisk D.Disk.seen D.Disk.may_leave disk.old end digest first entries → IsGroup group.now digest later
        → (file : List ℕ) → D.Disk.may_leave disk.new file → EndsBeforeOrAfter file first entries later }
{
    write_synced(disk, end + 1, group)?;
    write_synced(disk, end, &[OPEN_GATE])
}

/// Writes bytes and syncs. The error: Failed if the disk fails, or has failed.
pub(crate) fn write_synced<D: Disk>(
    disk: &mut D,
    at: usize,
    bytes: &[u8],
) -> Result<(), JournalFault>
    requires { 0 < length bytes.now }
    ensures written { OnOk result (IsMadeDurable D.Disk.seen D.Disk.may_leave at bytes.now disk.old disk.new) }
    ensures crash { Only (D.Disk.seen disk.old) (D.Disk.may_leave disk.old)
        → (file : List ℕ) → D.Disk.may_leave disk.new file
        → (file ≡ D.Disk.seen disk.old) ⊎ Torn at (length bytes.now) (D.Disk.seen disk.old) file }
    ensures failed { IfErr result (λ cause. cause ≡ fault.Failed) }
    ensures clean { D.Disk.is_clean disk.new ≡ D.Disk.is_clean disk.old }
{
    if !disk.may_be_used() {
        return Err(JournalFault::Failed);
    }
    let Ok(()) = disk.write_at(at, bytes) else {
        return Err(JournalFault::Failed);
    };
    match disk.sync() {
        Ok(()) => Ok(()),
        Err(_) => Err(JournalFault::Failed),
    }
}
