//! Replaces a journal by a checkpoint.
ghost use Rattle.oai_archive.specs.Readings.{HasBegun};
ghost use Rattle.oai_recovery.specs.Renewals.{IsRenewed, IsSaved};
ghost use Rattle.oai_durable.specs.Checkpoints.{HoldsCheckpoint};
ghost use Rattle.oai_journal.specs.Records.{Entry};
ghost use Rattle.oai_journal.specs.Recovered.{HasRecovered, disk_of};
ghost use Rattle.std.specs.Prelude.{[], IfOk, IsTrue};

use crate::moments::moment_of;
use crate::origins::Origin;
use crate::places::Place;
use crate::recoveries::recover_all;
use crate::starts::host_in;
use oai_archive::{ServerStop, check_differences, config_text, write_checkpoint};
use oai_host::Config;
use oai_journal::{FileJournal, Journal, Recovery};
use oai_replay::Replayed;
use oai_startup::config_in;
use sqlite_disk::Disk;
use std::alloc::Global;
use std::rt::Clock;

/// What an archive continues with after a checkpoint.
#[derive(Clone, Copy)]
pub(crate) struct Renewal<'a> {
    /// The bytes of the configuration.
    pub(crate) text: &'a [u8],
    /// The configuration in them.
    pub(crate) config: &'a Config,
    /// By how much the number of each next list is raised.
    pub(crate) raise: u32,
}

/// Writes a checkpoint beside the journal of the place, which it replaces once it was read back: of the state that all
/// records of the old journal leave, whose first record is read. The configuration may be another one with which the
/// archive can continue; all open lists have ended in the checkpoint. If the configuration does not match, or after a
/// fault, the old journal stays.
pub(crate) fn renew<D: Disk + Drop, P: Place, C: Clock>(
    alloc: Global,
    place: &mut P,
    clock: &C,
    renewal: &Renewal<'_>,
    old: &mut Recovery<D>,
) -> Result<FileJournal<P::NewDisk>, ServerStop>
    ensures { IfOk result (λ written. IsTrue P.is_honest → IsTrue (D.Disk.is_clean (disk_of old.new))
        → (IsTrue (D.Disk.is_clean (disk_of old.old)) → HasBegun D.Disk.seen D.Disk.may_leave old.old)
        → IsRenewed ⟦<FileJournal<P::NewDisk> as Journal>⟧ (D.Disk.seen (disk_of old.new)) renewal.now.raise written) }
{
    let (forms, text) = config_text(alloc, old)?;
    let config = config_in(alloc, forms, &text)?;
    check_differences(alloc, &config, renewal.config)?;
    let host = host_in(alloc, place, config)?;
    match renew_by(alloc, place, clock, renewal, host, old) {
        Ok(written) => Ok(written),
        Err(stop) => Err(stop),
    }
}

/// Writes the checkpoint of the handler, once it has replayed the old journal.
fn renew_by<D: Disk + Drop, P: Place, H: Replayed + Drop, C: Clock>(
    alloc: Global,
    place: &mut P,
    clock: &C,
    renewal: &Renewal<'_>,
    mut handler: H,
    old: &mut Recovery<D>,
) -> Result<FileJournal<P::NewDisk>, ServerStop>
    ensures saved { IfOk result (λ written. IsTrue (H.is_honest handler) → IsTrue (D.Disk.is_clean (disk_of old.new)) → (first : Entry)
        → HasRecovered D.Disk.seen D.Disk.may_leave old.old first []
        → IsSaved (record {
          leaving = record { redone = H.redone; restored = H.restored };
          reply = H.reply;
          parts = H.parts;
          ended = H.ended;
          emptied = H.emptied;
        }) ⟦<FileJournal<P::NewDisk> as Journal>⟧ (D.Disk.seen (disk_of old.new)) (H.kept handler) first renewal.now.raise written) }
    ensures clean { IsTrue (D.Disk.is_clean (disk_of old.new)) → IsTrue (D.Disk.is_clean (disk_of old.old)) }
{
    recover_all(alloc, place, clock, Origin::Found, &mut handler, old)?;
    match save(
        alloc,
        place,
        clock,
        renewal.text,
        &mut handler,
        renewal.raise,
    ) {
        Ok(written) => Ok(written),
        Err(stop) => Err(stop),
    }
}

/// Writes the handler's state as a checkpoint beside the journal of the place, with the configuration in the text, and
/// the number of each next list raised by that much.
pub(crate) fn save<P: Place, H: Replayed, C: Clock>(
    alloc: Global,
    place: &mut P,
    clock: &C,
    text: &[u8],
    handler: &mut H,
    raise: u32,
) -> Result<FileJournal<P::NewDisk>, ServerStop>
    ensures { IfOk result (λ written. IsTrue (H.is_honest handler.old)
        → HoldsCheckpoint (record {
          leaving = record { redone = H.redone; restored = H.restored };
          reply = H.reply;
          parts = H.parts;
          ended = H.ended;
          emptied = H.emptied;
        }) ⟦<FileJournal<P::NewDisk> as Journal>⟧ (H.kept handler.old) raise written) }
{
    let disk = place.begin_journal()?;
    let moment = moment_of(clock)?;
    write_checkpoint(alloc, disk, moment, text, handler, raise)
}
