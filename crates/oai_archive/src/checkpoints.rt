//! Writes a checkpoint of a handler's state on a disk.
ghost use Rattle.oai_durable.specs.Checkpoints.{HoldsCheckpoint};
ghost use Rattle.std.specs.Prelude.{◌≡◌, IfOk, IsTrue};

use crate::journals::{create_journal, stop_of_journal};
use crate::stop::ServerStop;
use oai_durable::{CheckpointFault, checkpoint};
use oai_item::Fault;
use oai_journal::{FileJournal, Journal};
use oai_replay::Replayed;
use oai_startup::Stop;
use sqlite_disk::Disk;
use std::alloc::Global;

/// Writes the handler's state as a checkpoint on the disk, which is empty, at the moment, with the configuration in the
/// text, and the number of each next list raised by that much. The journal that is returned holds its records.
pub fn write_checkpoint<H: Replayed, D: Disk + Drop>(
    alloc: Global,
    disk: D,
    moment: i64,
    text: &[u8],
    handler: &mut H,
    raise: u32,
) -> Result<FileJournal<D>, ServerStop>
    ensures saved { IfOk result (λ written. IsTrue (H.is_honest handler.old)
        → HoldsCheckpoint (record {
          leaving = record { redone = H.redone; restored = H.restored };
          reply = H.reply;
          parts = H.parts;
          ended = H.ended;
          emptied = H.emptied;
        }) ⟦<FileJournal<D> as Journal>⟧ (H.kept handler.old) raise written) }
    ensures same { H.kept handler.new ≡ H.kept handler.old }
{
    let journal = create_journal(alloc, disk, moment, text)?;
    match checkpoint(handler, raise, journal) {
        Ok(written) => Ok(written),
        Err(CheckpointFault::Reading(Fault::NoMemory)) => Err(ServerStop::Common(Stop::NoMemory)),
        Err(CheckpointFault::Reading(_)) => Err(ServerStop::Common(Stop::DeviceFault)),
        Err(CheckpointFault::Numbers) => Err(ServerStop::CannotWrite),
        Err(CheckpointFault::Journal(fault)) => Err(stop_of_journal(fault)),
    }
}
