//! Replays the records of a journal: crash recovery.
ghost use Rattle.oai_durable.specs.Journaled.{IsHeld, promised};
ghost use Rattle.oai_durable.specs.Records.{left_by_entry};
ghost use Rattle.oai_durable.specs.Recovered.{HasRedone, IsRecovered, TellsDamage, is_of_journal};
ghost use Rattle.oai_journal.specs.Changes.{IsUndamaged};
ghost use Rattle.oai_journal.specs.Records.{Entry, as_entry};
ghost use Rattle.oai_journal.specs.Recovered.{HasRecovered, current, disk_of};
ghost use Rattle.std.specs.Prelude.{◌≡◌, ◌++◌, ◌∷◌, [], ℕ, Some, false, IfErr, IfOk, IfSome, IsTrue, List, OnOk, length};

use crate::journaled::Journaled;
use crate::records::{part_in, performed_in};
use oai_item::Fault;
use oai_journal::{FileJournal, Journal, LogRecord, Recovery, RecoveryFault};
use oai_replay::Replayed;
use sqlite_disk::Disk;
use std::alloc::Global;
use thiserror::Error;

/// Why the records of a journal were not all replayed. A number is that of a record: 1 is the one after the first.
#[derive(Clone, Copy, Debug, PartialEq, Eq, Error)]
pub enum RecoverFault {
    /// The journal could not be read on.
    #[error("{0}")]
    Journal(RecoveryFault),
    /// The record has a kind that is neither an exchange nor a part.
    #[error("record {0}: it is neither an exchange nor a part")]
    UnknownKind(u64),
    /// A fault ended it.
    #[error("record {0}: performing it fails: {1}")]
    Performing(u64, Fault),
}

/// Receives the progress of a recovery.
pub trait Progress {
    /// The record with that number was read and replayed, counted from 1 after the first one. That many bytes of `len`
    /// were read then.
    fn note(&mut self, entry: &LogRecord<'_>, number: u64, position: usize, len: usize);
}

/// Replays the records of the journal after its first one, one by one, and restores those that are parts; returns how
/// many there were. The recovery has begun. The journal is unchanged, also after an error: one of the journal's own, or
/// one with the number of the record that could not be performed. It reports damage only at a byte where the file is
/// damaged, or where a commit byte was changed; what a crash leaves is not damaged ([`recovery_law`](crate::recovery_law)).
pub fn recover<H: Replayed, D: Disk + Drop, P: Progress>(
    handler: &mut H,
    recovery: &mut Recovery<D>,
    progress: &mut P,
) -> Result<u64, RecoverFault>
    ensures recovered { IfOk result (λ count. IsTrue (D.Disk.is_clean (disk_of recovery.new)) → (first : Entry)
        → HasRecovered D.Disk.seen D.Disk.may_leave recovery.old first []
        → IsRecovered H.kept H.is_honest (record { redone = H.redone; restored = H.restored }) D.Disk.seen D.Disk.may_leave (H.kept handler.old) handler.new
        recovery.new first count) }
    ensures damaged { IfErr result (λ cause. IsTrue (D.Disk.is_clean (disk_of recovery.new)) → (first : Entry)
        → HasRecovered D.Disk.seen D.Disk.may_leave recovery.old first []
        → TellsDamage (D.Disk.seen (disk_of recovery.new)) cause) }
    ensures honesty { H.is_honest handler.new ≡ H.is_honest handler.old }
    ensures seen { D.Disk.seen (disk_of recovery.new) ≡ D.Disk.seen (disk_of recovery.old) }
    ensures crash { (c : List ℕ) → D.Disk.may_leave (disk_of recovery.new) c
        → D.Disk.may_leave (disk_of recovery.old) c }
    ensures clean { IsTrue (D.Disk.is_clean (disk_of recovery.new)) → IsTrue (D.Disk.is_clean (disk_of recovery.old)) }
{
    for count in 0..u64::MAX {
        match redo_next(handler, recovery, progress, count + 1) {
            Ok(true) => {}
            Ok(false) => return Ok(count),
            Err(fault) => return Err(fault),
        }
    }
    Err(RecoverFault::UnknownKind(u64::MAX))
}

/// The handler with the journal whose records it replayed, that many behind the first one; `None` before all of them
/// were read.
pub fn resume<H: Replayed + Drop, D: Disk + Drop>(
    alloc: Global,
    handler: H,
    recovery: Recovery<D>,
    records: u64,
) -> Option<Journaled<H, FileJournal<D>>>
    ensures { IfSome result (λ journaled. (begun : H.Kept) (first : Entry) (entries : List Entry)
        → HasRedone H.kept H.is_honest (record { redone = H.redone; restored = H.restored }) D.Disk.seen D.Disk.may_leave begun handler recovery first entries
        → IsHeld (promised H.Replayed) ⟦<FileJournal<D> as Journal>⟧ begun journaled entries (length entries)) }
{
    match recovery.into_journal() {
        Some(journal) => Some(Journaled::new(alloc, handler, journal, records)),
        None => None,
    }
}

/// Reads the next record, performs it, or restores its part, and reports it; returns false if there is none.
fn redo_next<H: Replayed, D: Disk + Drop, P: Progress>(
    handler: &mut H,
    recovery: &mut Recovery<D>,
    progress: &mut P,
    number: u64,
) -> Result<bool, RecoverFault>
    ensures next { IfOk result (λ more. IsTrue more → IsTrue (D.Disk.is_clean (disk_of recovery.new))
        → (begun : H.Kept) (first : Entry) (entries : List Entry)
        → HasRedone H.kept H.is_honest (record { redone = H.redone; restored = H.restored }) D.Disk.seen D.Disk.may_leave begun handler.old recovery.old first entries
        → (e : Entry) × HasRedone H.kept H.is_honest (record { redone = H.redone; restored = H.restored }) D.Disk.seen D.Disk.may_leave begun handler.new
        recovery.new first (entries ++ e ∷ [])) }
    ensures end { IfOk result (λ more. more ≡ false → IsTrue (D.Disk.is_clean (disk_of recovery.new))
        → (begun : H.Kept) (first : Entry) (entries : List Entry)
        → HasRedone H.kept H.is_honest (record { redone = H.redone; restored = H.restored }) D.Disk.seen D.Disk.may_leave begun handler.old recovery.old first entries
        → HasRedone H.kept H.is_honest (record { redone = H.redone; restored = H.restored }) D.Disk.seen D.Disk.may_leave begun handler.new recovery.new first entries
        × IsUndamaged (D.Disk.seen (disk_of recovery.new)) first entries) }
    ensures damaged { IfErr result (λ cause. IsTrue (D.Disk.is_clean (disk_of recovery.new))
        → (first : Entry) (entries : List Entry) → HasRecovered D.Disk.seen D.Disk.may_leave recovery.old first entries
        → TellsDamage (D.Disk.seen (disk_of recovery.new)) cause) }
    ensures honesty { H.is_honest handler.new ≡ H.is_honest handler.old }
    ensures seen { D.Disk.seen (disk_of recovery.new) ≡ D.Disk.seen (disk_of recovery.old) }
    ensures crash { (c : List ℕ) → D.Disk.may_leave (disk_of recovery.new) c
        → D.Disk.may_leave (disk_of recovery.old) c }
    ensures clean { IsTrue (D.Disk.is_clean (disk_of recovery.new)) → IsTrue (D.Disk.is_clean (disk_of recovery.old)) }
{
    match recovery.advance() {
        Ok(true) => match redo_last(handler, recovery, progress, number) {
            Ok(()) => Ok(true),
            Err(fault) => Err(fault),
        },
        Ok(false) => Ok(false),
        Err(fault) => Err(RecoverFault::Journal(fault)),
    }
}

/// Performs the record that was read last, or restores its part, and reports it.
fn redo_last<H: Replayed, D: Disk + Drop, P: Progress>(
    handler: &mut H,
    recovery: &Recovery<D>,
    progress: &mut P,
    number: u64,
) -> Result<(), RecoverFault>
    ensures redone { OnOk result ((e : Entry) → current recovery.now ≡ Some e → IsTrue (H.is_honest handler.old)
        → H.kept handler.new ≡ left_by_entry (record { redone = H.redone; restored = H.restored }) (H.kept handler.old) e) }
    ensures own { IfErr result (λ cause. is_of_journal cause ≡ false) }
    ensures honesty { H.is_honest handler.new ≡ H.is_honest handler.old }
{
    let Some(entry) = recovery.record() else {
        return Err(RecoverFault::UnknownKind(number));
    };
    match redo_entry(handler, &entry, number) {
        Ok(()) => {
            progress.note(&entry, number, recovery.position(), recovery.file_len());
            Ok(())
        }
        Err(fault) => Err(fault),
    }
}

/// Performs a record, or restores its part.
fn redo_entry<H: Replayed>(
    handler: &mut H,
    entry: &LogRecord<'_>,
    number: u64,
) -> Result<(), RecoverFault>
    ensures redone { OnOk result (IsTrue (H.is_honest handler.old)
        → H.kept handler.new ≡ left_by_entry (record { redone = H.redone; restored = H.restored }) (H.kept handler.old) (as_entry entry.now)) }
    ensures own { IfErr result (λ cause. is_of_journal cause ≡ false) }
    ensures honesty { H.is_honest handler.new ≡ H.is_honest handler.old }
{
    let done = match part_in(entry) {
        Some(part) => handler.restore(&part),
        None => match performed_in(entry) {
            Some(performed) => handler.redo(entry.moment, &performed),
            None => return Err(RecoverFault::UnknownKind(number)),
        },
    };
    match done {
        Ok(()) => Ok(()),
        Err(fault) => Err(RecoverFault::Performing(number, fault)),
    }
}
