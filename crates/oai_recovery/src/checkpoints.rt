//! Replaces a journal by a checkpoint: a command.
ghost use Rattle.oai_archive.specs.Readings.{HasBegun};
ghost use Rattle.oai_journal.specs.Recovered.{disk_of};
ghost use Rattle.oai_recovery.specs.Renewals.{HasRenewed, IsJournalReplaced};
ghost use Rattle.std.specs.Prelude.{IfOk, IsTrue, OnOk};

use crate::places::Place;
use crate::renewals::{Renewal, renew};
use crate::starts::keep_checkpoint;
use oai_archive::{ServerStop, begin_reading, write_verified};
use oai_host::Config;
use oai_journal::{FileJournal, Journal, Recovery};
use oai_startup::WrittenConfig;
use sqlite_disk::Disk;
use std::alloc::Global;
use std::io::Write;
use std::rt::Clock;

/// By how much the number of each next list is raised, so that none is given twice even if records were lost with the
/// machine that wrote them.
const RAISE: u32 = 1_000_000;

/// Replaces the journal of the place by a checkpoint with the configuration, and writes `ok`, the number of records in it
/// after the first one, and its length in bytes, as a line. Nothing is served meanwhile. All open lists have ended then,
/// and the number of each next list is raised by 1,000,000. The errors are those of `serve`; `CannotOpen` if there is no
/// journal. After an error the journal is unchanged, or it is the checkpoint already: where the folder could not be
/// synced, or the line not be written.
pub fn checkpoint_folder<P: Place, C: Clock, W: Write>(
    alloc: Global,
    place: &mut P,
    clock: &C,
    written: WrittenConfig,
    writer: &mut W,
) -> Result<(), ServerStop>
    ensures { OnOk result (IsJournalReplaced P.OldDisk.Disk.seen P.OldDisk.Disk.is_clean ⟦<FileJournal<P::NewDisk> as Journal>⟧ P.is_honest 1_000_000
        P.Disk.Disk.seen P.Disk.Disk.may_leave P.Disk.Disk.is_clean P.held_begun written.text) }
{
    let (text, config) = written.into_parts();
    renew_journal(alloc, place, clock, &text, &config)?;
    let read_back = keep_checkpoint(alloc, place, clock, &text, config);
    drop(text);
    let kept = read_back?;
    let told = write_verified(kept.records, kept.recovery.position(), writer);
    drop(kept);
    told?;
    Ok(())
}

/// Writes a checkpoint beside the journal of the place, with the configuration, which was read from the text.
fn renew_journal<P: Place, C: Clock>(
    alloc: Global,
    place: &mut P,
    clock: &C,
    text: &[u8],
    config: &Config,
) -> Result<(), ServerStop>
    ensures { OnOk result (HasRenewed P.OldDisk.Disk.seen P.OldDisk.Disk.is_clean
        ⟦<FileJournal<P::NewDisk> as Journal>⟧ P.is_honest 1_000_000) }
{
    let renewal = Renewal {
        text,
        config,
        raise: RAISE,
    };
    let mut old = begin_old(alloc, place)?;
    let renewed = renew(alloc, place, clock, &renewal, &mut old);
    drop(old);
    drop(renewed?);
    Ok(())
}

/// The journal of the place, which is locked, with its first record read.
fn begin_old<P: Place>(alloc: Global, place: &mut P) -> Result<Recovery<P::OldDisk>, ServerStop>
    ensures { IfOk result (λ old. IsTrue (P.OldDisk.Disk.is_clean (disk_of old))
        → HasBegun P.OldDisk.Disk.seen P.OldDisk.Disk.may_leave old) }
{
    place.lock()?;
    if !place.find_journal()? {
        return Err(ServerStop::CannotOpen);
    }
    begin_reading(alloc, place.read_journal()?)
}
