//! A journal into which a checkpoint is written while a server serves.
ghost use Rattle.std.specs.Prelude.{[], ℕ, IfOk};

use oai_archive::{ServerStop, create_journal};
use oai_durable::CheckpointFault;
use oai_journal::{FileJournal, Journal, JournalFault};
use oai_startup::Stop;
use sqlite_disk::Disk;
use std::alloc::Global;

/// Begins a journal on the disk, which is empty, for a checkpoint: at the moment, with the configuration in the text. It
/// has no record behind its first one. The errors are `Journal`: `NoRoom` if memory runs out, and `Failed`.
pub fn begin_checkpoint<D: Disk + Drop>(
    alloc: Global,
    disk: D,
    moment: i64,
    text: &[u8],
) -> Result<FileJournal<D>, CheckpointFault>
    ensures { IfOk result (λ journal. (durable : ℕ) × ⟦<FileJournal<D> as Journal>⟧.holds journal [] durable) }
{
    match create_journal(alloc, disk, moment, text) {
        Ok(journal) => Ok(journal),
        Err(stop) => Err(fault_of(stop)),
    }
}

/// Why no checkpoint is begun, if a server would stop so.
pub(crate) fn fault_of(stop: ServerStop) -> CheckpointFault {
    match stop {
        ServerStop::Common(Stop::NoMemory) => CheckpointFault::Journal(JournalFault::NoRoom),
        _ => CheckpointFault::Journal(JournalFault::Failed),
    }
}
