//! Reads a journal without replaying it.
ghost use Rattle.oai_archive.specs.Readings.{HasBegun, IsVerified};
ghost use Rattle.oai_journal.specs.Changes.{IsUndamaged};
ghost use Rattle.oai_journal.specs.Records.{Entry};
ghost use Rattle.oai_journal.specs.Recovered.{HasRecovered, current, disk_of};
ghost use Rattle.std.specs.Prelude.{◌≡◌, ◌++◌, ◌∷◌, [], List, Some, false, IfOk, IsTrue, OnOk};

use crate::firsts::config_of;
use crate::journals::stop_of_reading;
use crate::stop::ServerStop;
use oai_journal::Recovery;
use oai_startup::Stop;
use sqlite_disk::Disk;
use std::alloc::Global;
use std::io::Write;

/// Reads the journal on the disk, from its first byte to the commit byte that ends it, and replays nothing. Writes
/// `ok`, the number of records after the first one, and the number of bytes before that commit byte, as a line. A
/// server may write to the journal meanwhile: what looks like damage is read once more, and is damage if it is found at
/// the same byte. The errors are `Damaged`, `NotOurs`, `OfVersion`, `InputFault`, `OutputFault` and `NoMemory`.
pub fn verify_journal<D: Disk + Drop, W: Write>(
    alloc: Global,
    disk: D,
    writer: &mut W,
) -> Result<(), ServerStop> {
    let mut recovery = Recovery::new(alloc, disk);
    let mut records = 0;
    let Err(stop) = read_all(&mut recovery, &mut records) else {
        return write_verified(records, recovery.position(), writer);
    };
    let ServerStop::Damaged(at) = stop else {
        return Err(stop);
    };
    match read_all(&mut recovery, &mut records) {
        Err(ServerStop::Damaged(again)) if again > at => {}
        Err(stop) => return Err(stop),
        Ok(()) => {}
    }
    write_verified(records, recovery.position(), writer)
}

/// Reads the whole journal; `records` is then the number of records read after the first one.
fn read_all<D: Disk + Drop>(recovery: &mut Recovery<D>, records: &mut u64) -> Result<(), ServerStop>
    ensures whole { OnOk result (IsTrue (D.Disk.is_clean (disk_of recovery.new))
        → IsVerified D.Disk.seen recovery.new records.new) }
{
    *records = 0;
    match recovery.begin() {
        Ok(()) => {}
        Err(fault) => return Err(stop_of_reading(fault)),
    }
    check_program(recovery)?;
    read_rest(recovery, records)
}

/// Reads the records after the first one; `records` is then how many were read.
fn read_rest<D: Disk + Drop>(
    recovery: &mut Recovery<D>,
    records: &mut u64,
) -> Result<(), ServerStop>
    ensures whole { OnOk result (IsTrue (D.Disk.is_clean (disk_of recovery.new))
        → HasBegun D.Disk.seen D.Disk.may_leave recovery.old → IsVerified D.Disk.seen recovery.new records.new) }
    ensures clean { IsTrue (D.Disk.is_clean (disk_of recovery.new)) → IsTrue (D.Disk.is_clean (disk_of recovery.old)) }
{
    for count in 0..u64::MAX {
        *records = count;
        if !read_next(recovery)? {
            return Ok(());
        }
    }
    Err(ServerStop::Common(Stop::InputFault))
}

/// Reads the next record; returns false if there is none.
fn read_next<D: Disk + Drop>(recovery: &mut Recovery<D>) -> Result<bool, ServerStop>
    ensures next { IfOk result (λ more. IsTrue (D.Disk.is_clean (disk_of recovery.new))
        → (first : Entry) (entries : List Entry)
        → HasRecovered D.Disk.seen D.Disk.may_leave recovery.old first entries → IsTrue more
        → (e : Entry) × HasRecovered D.Disk.seen D.Disk.may_leave recovery.new first (entries ++ e ∷ [])
        × (current recovery.new ≡ Some e)) }
    ensures end { IfOk result (λ more. IsTrue (D.Disk.is_clean (disk_of recovery.new))
        → (first : Entry) (entries : List Entry)
        → HasRecovered D.Disk.seen D.Disk.may_leave recovery.old first entries → more ≡ false
        → HasRecovered D.Disk.seen D.Disk.may_leave recovery.new first entries
        × IsUndamaged (D.Disk.seen (disk_of recovery.new)) first entries) }
    ensures clean { IsTrue (D.Disk.is_clean (disk_of recovery.new)) → IsTrue (D.Disk.is_clean (disk_of recovery.old)) }
{
    match recovery.advance() {
        Ok(more) => Ok(more),
        Err(fault) => Err(stop_of_reading(fault)),
    }
}

/// Whether the first record, which was read, is this program's.
fn check_program<D: Disk + Drop>(recovery: &Recovery<D>) -> Result<(), ServerStop> {
    match recovery.record() {
        Some(first) => match config_of(&first) {
            Ok(_) => Ok(()),
            Err(stop) => Err(stop),
        },
        None => Err(ServerStop::NotOurs),
    }
}

/// Writes `ok`, the number of records after the first one, and the number of bytes of a journal, as a line. The error is
/// `OutputFault`.
pub fn write_verified<W: Write>(
    records: u64,
    bytes: usize,
    writer: &mut W,
) -> Result<(), ServerStop> {
    if writeln!(writer, "ok {records} {bytes}").is_err() {
        return Err(ServerStop::Common(Stop::OutputFault));
    }
    if writer.flush().is_err() {
        return Err(ServerStop::Common(Stop::OutputFault));
    }
    Ok(())
}
