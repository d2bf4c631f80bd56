//! The journal of an archive: begun, and read up to its first record.
ghost use Rattle.oai_archive.specs.Readings.{HasBegun, HasBegunFor};
ghost use Rattle.oai_archive.specs.Firsts.{IsOf, first_body, program};
ghost use Rattle.oai_journal.specs.Kept.{HoldsFirst};
ghost use Rattle.oai_journal.specs.Records.{Entry};
ghost use Rattle.oai_journal.specs.Recovered.{current, disk_of};
ghost use Rattle.std.specs.Prelude.{◌≡◌, IfOk, IfSome, IsTrue, Some};

use crate::firsts::{PROGRAM, config_of, forms_for, write_first};
use crate::stop::ServerStop;
use oai_item::Forms;
use oai_journal::{FileJournal, JournalFault, Kind, LogRecord, Recovery, RecoveryFault};
use oai_startup::Stop;
use sqlite_disk::Disk;
use std::alloc::Global;

/// Begins a journal on the disk, at the moment, with the configuration in the text. It is of this program's version, so its
/// records may be elements.
pub fn create_journal<D: Disk + Drop>(
    alloc: Global,
    disk: D,
    moment: i64,
    text: &[u8],
) -> Result<FileJournal<D>, ServerStop>
    ensures { IfOk result (λ journal. (first : Entry) × HoldsFirst D.Disk.seen D.Disk.may_leave journal first
        × (first.name ≡ program) × (first.body ≡ first_body text.now)) }
{
    let body = write_first(alloc, text)?;
    let first = LogRecord {
        moment,
        kind: Kind::Journal,
        name: PROGRAM,
        body: &body,
    };
    if !first.is_fit() {
        return Err(ServerStop::Common(Stop::CannotRead));
    }
    match FileJournal::create(alloc, disk, &first) {
        Ok(journal) => Ok(journal),
        Err(fault) => Err(stop_of_journal(fault)),
    }
}

/// The journal on the disk, whose first record is read. The errors are `Damaged`, `InputFault` and `NoMemory`.
pub fn begin_reading<D: Disk + Drop>(alloc: Global, disk: D) -> Result<Recovery<D>, ServerStop>
    ensures begun { IfOk result (λ recovery. IsTrue (D.Disk.is_clean (disk_of recovery))
        → HasBegun D.Disk.seen D.Disk.may_leave recovery) }
    ensures seen { IfOk result (λ recovery. D.Disk.seen (disk_of recovery) ≡ D.Disk.seen disk) }
{
    let mut recovery = Recovery::new(alloc, disk);
    match recovery.begin() {
        Ok(()) => Ok(recovery),
        Err(fault) => Err(stop_of_reading(fault)),
    }
}

/// The journal on the disk, whose first record is read, and has the configuration in the text, ignoring the size of the
/// cache, and a version whose records have these forms. The errors are those of `begin_reading` and of
/// `forms_with_config`, and `NotOurs` if it has another one.
pub fn begin_for<D: Disk + Drop>(
    alloc: Global,
    disk: D,
    forms: Forms,
    text: &[u8],
) -> Result<Recovery<D>, ServerStop>
    ensures begun { IfOk result (λ recovery. IsTrue (D.Disk.is_clean (disk_of recovery))
        → HasBegunFor D.Disk.seen D.Disk.may_leave forms text.now recovery) }
    ensures seen { IfOk result (λ recovery. D.Disk.seen (disk_of recovery) ≡ D.Disk.seen disk) }
{
    let recovery = begin_reading(alloc, disk)?;
    match forms_with_config(alloc, &recovery, text)? {
        Some(found) if found == forms => Ok(recovery),
        _ => Err(ServerStop::NotOurs),
    }
}

/// The forms of the records of the journal, if its first record, which was read, has the configuration in the text,
/// ignoring the size of the cache. The errors are `NotOurs`, `OfVersion` and `NoMemory`.
pub fn forms_with_config<D: Disk + Drop>(
    alloc: Global,
    recovery: &Recovery<D>,
    text: &[u8],
) -> Result<Option<Forms>, ServerStop>
    ensures { IfOk result (λ found. IfSome found (λ forms. (first : Entry) → current recovery.now ≡ Some first
        → IsOf forms first.name first.body text.now)) }
{
    match recovery.record() {
        Some(first) => forms_for(alloc, &first, text),
        None => Err(ServerStop::NotOurs),
    }
}

/// The forms of the journal's records, and a copy of the configuration in its first record, which was read. The errors are
/// `NotOurs`, `OfVersion` and `NoMemory`.
pub fn config_text<D: Disk + Drop>(
    alloc: Global,
    recovery: &Recovery<D>,
) -> Result<(Forms, Vec<u8>), ServerStop>
    ensures { IfOk result (λ found. (first : Entry) → current recovery.now ≡ Some first
        → IsOf found.0 first.name first.body found.1.items) }
{
    let Some(first) = recovery.record() else {
        return Err(ServerStop::NotOurs);
    };
    let (forms, config) = config_of(&first)?;
    let mut text = Vec::new(alloc);
    text.extend_from_slice(config)?;
    Ok((forms, text))
}

/// Why the program stops if the journal could not be written.
pub(crate) fn stop_of_journal(fault: JournalFault) -> ServerStop {
    match fault {
        JournalFault::NoRoom => ServerStop::Common(Stop::NoMemory),
        JournalFault::Failed => ServerStop::CannotWrite,
    }
}

/// Why the program stops if the journal cannot be read on.
pub(crate) fn stop_of_reading(fault: RecoveryFault) -> ServerStop {
    match fault {
        RecoveryFault::Damaged(at) => ServerStop::Damaged(at),
        RecoveryFault::Stopped(JournalFault::NoRoom) => ServerStop::Common(Stop::NoMemory),
        RecoveryFault::Stopped(JournalFault::Failed) => ServerStop::Common(Stop::InputFault),
    }
}
