//! The messages of a server while it runs.
ghost use Rattle.std.specs.Prelude.{◌≡◌};
ghost use Rattle.oai_recovery.specs.Notices as spec;

use oai_archive::{Second, fault_word};
use oai_item::Fault;
use std::fmt;

/// A message of a server about its work.
#[derive(Clone, Copy, Debug, PartialEq, Eq)]
pub enum Notice {
    /// The progress of a recovery: bytes read, bytes of the journal, and records replayed.
    Recovering(usize, usize, u64),
    /// A recovery is done: the records and bytes of the journal, and the seconds that it took.
    Recovered(u64, usize, u64),
    /// The clock is at the first second, from 1970 on, more than 366 days ahead of the last record, whose second is the
    /// other, or more than an hour behind it.
    Clock(i64, i64),
    /// The archive continues with another configuration, and its open lists have ended.
    OtherConfig,
    /// The journal is of version 1, whose records are lists of fields, until a checkpoint replaces it.
    OldVersion,
    /// That many exchanges were answered 500 (Internal Server Error) for that fault.
    Failed(u64, Fault),
}

impl fmt::Display for Notice {
    ghost use Rattle.std.specs.Prelude.{Some};
    ghost use Rattle.oai_recovery.specs.Notices.{notice_text};

    ghost output = { λ notice. Some (notice_text notice) };

    fn fmt<W: fmt::Write>(&self, f: &mut fmt::Formatter<W>) -> fmt::Result {
        match self {
            Notice::Recovering(bytes, all, records) => {
                write!(f, "recovering: {bytes} of {all} bytes, {records} records")
            }
            Notice::Recovered(records, bytes, seconds) => {
                write!(
                    f,
                    "recovered: {records} records, {bytes} bytes, {seconds} s"
                )
            }
            Notice::Clock(now, last) => {
                let behind = last_record();
                write!(f, "clock: at {}{behind}{}", Second(*now), Second(*last))
            }
            Notice::OtherConfig => write!(f, "config: another one: the open lists have ended"),
            Notice::OldVersion => write!(
                f,
                "journal: of version 1: no elements until a checkpoint"
            ),
            Notice::Failed(count, fault) => {
                let cause = fault_word(*fault);
                write!(f, "answered 500: {count} times: {cause}")
            }
        }
    }
}

/// The words between the time of a clock and that of a record.
#[tactic(auto, unfolding(crate::specs::Notices::last_record))]
fn last_record() -> &'static str
    ensures { result.now ≡ spec.last_record }
{
    ", and the last record is of "
}
