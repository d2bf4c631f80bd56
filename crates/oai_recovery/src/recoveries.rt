//! Replays what a server performed before.
ghost use Rattle.oai_durable.specs.Recovered.{IsRecovered};
ghost use Rattle.oai_journal.specs.Records.{Entry};
ghost use Rattle.oai_journal.specs.Recovered.{HasRecovered, disk_of};
ghost use Rattle.std.specs.Prelude.{◌≡◌, [], IfOk, IsTrue};

use crate::dates::Dates;
use crate::moments::{moment_of, second_of};
use crate::notices::Notice;
use crate::origins::Origin;
use crate::places::Place;
use crate::startups::RecoveryFigures;
use oai_archive::{ServerStop, stop_of_checkpoint, stop_of_recovery};
use oai_durable::{Progress, RecoverFault, recover};
use oai_journal::{LogRecord, Recovery};
use oai_replay::Replayed;
use sqlite_disk::Disk;
use std::alloc::Global;
use std::rt::Clock;

/// How many seconds the clock may be ahead of the last record without a warning: 366 days.
const MAX_AHEAD: i64 = 31_622_400;

/// How many seconds it may be behind it: an hour.
const MAX_BEHIND: i64 = 3_600;

/// Reports the progress of a recovery each second.
#[derive(Drop)]
struct Meter<'a, P, C> {
    place: &'a mut P,
    clock: &'a C,
    /// The second at which the recovery began.
    begun: u64,
    /// The second of the last report.
    last: u64,
    /// What is known of the records.
    dates: Dates,
}

impl<P: Place, C: Clock> Progress for Meter<'_, P, C> {
    fn note(&mut self, entry: &LogRecord<'_>, number: u64, position: usize, len: usize) {
        self.dates.note(entry, number, position, len);
        let second = second_of(self.clock);
        if second > self.last {
            self.last = second;
            self.place.tell(Notice::Recovering(position, len, number));
        }
    }
}

impl<'a, P: Place, C: Clock> Meter<'a, P, C> {
    /// Of a recovery that begins.
    fn new(place: &'a mut P, clock: &'a C) -> Meter<'a, P, C> {
        let begun = second_of(clock);
        Meter {
            place,
            clock,
            begun,
            last: begun,
            dates: Dates::new(),
        }
    }

    /// Reports the totals of the recovery, and whether the clock is far from the last record. The error is
    /// `InputFault` if the clock cannot be read.
    fn end(&mut self, records: u64, position: usize) -> Result<RecoveryFigures, ServerStop>
        ensures { IfOk result (λ replay. replay.records ≡ records) }
    {
        let seconds = second_of(self.clock).saturating_sub(self.begun);
        self.place
            .tell(Notice::Recovered(records, position, seconds));
        let moment = moment_of(self.clock)?;
        match self.dates.last {
            Some(last) if is_far(moment, last) => self.place.tell(Notice::Clock(moment, last)),
            _ => {}
        }
        Ok(RecoveryFigures {
            records,
            seconds,
            moment,
            dates: self.dates,
        })
    }
}

/// Replays the records of the journal after its first one; returns how many there are, with figures. It reports its progress each
/// second, at its end the totals, and whether the clock is far from the last record. The handler then has its state
/// again. The errors are `Damaged`, `NotOurs`, `Performing`, `InputFault` and `NoMemory`; and `OtherConfig` if a part of
/// a checkpoint that was just written does not fit the handler.
pub(crate) fn recover_all<D: Disk + Drop, P: Place, H: Replayed, C: Clock>(
    alloc: Global,
    place: &mut P,
    clock: &C,
    origin: Origin,
    handler: &mut H,
    recovery: &mut Recovery<D>,
) -> Result<RecoveryFigures, ServerStop>
    ensures recovered { IfOk result (λ replay. IsTrue (D.Disk.is_clean (disk_of recovery.new)) → (first : Entry)
        → HasRecovered D.Disk.seen D.Disk.may_leave recovery.old first []
        → IsRecovered H.kept H.is_honest (record { redone = H.redone; restored = H.restored })
        D.Disk.seen D.Disk.may_leave (H.kept handler.old) handler.new recovery.new first replay.records) }
    ensures honesty { H.is_honest handler.new ≡ H.is_honest handler.old }
    ensures seen { D.Disk.seen (disk_of recovery.new) ≡ D.Disk.seen (disk_of recovery.old) }
    ensures clean { IsTrue (D.Disk.is_clean (disk_of recovery.new)) → IsTrue (D.Disk.is_clean (disk_of recovery.old)) }
{
    let mut meter = Meter::new(place, clock);
    match recover(handler, recovery, &mut meter) {
        Ok(records) => meter.end(records, recovery.position()),
        Err(fault) => Err(stop_of(alloc, origin, fault, recovery)),
    }
}

/// Why the server stops if the replay failed at the record that was read last.
fn stop_of<D: Disk + Drop>(
    alloc: Global,
    origin: Origin,
    fault: RecoverFault,
    recovery: &Recovery<D>,
) -> ServerStop {
    match origin {
        Origin::Found => stop_of_recovery(fault),
        Origin::Begun => stop_of_recovery(fault),
        Origin::Shortened => stop_of_checkpoint(alloc, fault, recovery),
        Origin::Reconfigured => stop_of_checkpoint(alloc, fault, recovery),
    }
}

/// Whether the moment is more than 366 days ahead of the other one, or more than an hour behind it.
fn is_far(moment: i64, last: i64) -> bool {
    moment > last.saturating_add(MAX_AHEAD) || moment < last.saturating_sub(MAX_BEHIND)
}
