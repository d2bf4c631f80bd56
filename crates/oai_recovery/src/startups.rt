//! What a server knows of its startup: figures.
use crate::dates::Dates;
use oai_figures::{Exposition, Figures};

/// What a server knows of its startup.
#[derive(Clone, Copy, Debug)]
pub struct StartupFigures {
    /// What was replayed.
    pub(crate) replay: RecoveryFigures,
    /// When the journal was begun, or written as a checkpoint, in seconds from 1970 on.
    pub(crate) checkpoint: i64,
}

/// What was replayed of a journal.
#[derive(Clone, Copy, Debug)]
pub(crate) struct RecoveryFigures {
    /// How many records, after the first one.
    pub(crate) records: u64,
    /// In how many seconds.
    pub(crate) seconds: u64,
    /// When all of them were, in seconds from 1970 on.
    pub(crate) moment: i64,
    /// What is known of them.
    pub(crate) dates: Dates,
}

impl StartupFigures {
    /// Of a server that has not begun.
    pub fn new() -> StartupFigures {
        StartupFigures {
            replay: RecoveryFigures {
                records: 0,
                seconds: 0,
                moment: 0,
                dates: Dates::new(),
            },
            checkpoint: 0,
        }
    }

    /// The same where a checkpoint of that moment, of so many bytes, has taken the place of the journal since.
    pub fn replaced(mut self, moment: i64, bytes: usize) -> StartupFigures {
        self.checkpoint = moment;
        self.replay.dates.saved_to = bytes;
        self
    }
}

impl Figures for StartupFigures {
    fn report(&self, page: &mut Exposition) {
        page.add("up", "1 while the server serves.", 1);
        let moment = to_second(self.replay.moment);
        page.add(
            "start_time_seconds",
            "When the server began to serve.",
            moment,
        );
        let seconds = self.replay.seconds;
        page.add(
            "recovery_seconds",
            "How long the replay of the journal took.",
            seconds,
        );
        let records = self.replay.records;
        page.add(
            "recovered_records",
            "Log records that were replayed.",
            records,
        );
        page.add(
            "checkpoint_time_seconds",
            "When the journal was begun, or replaced by a checkpoint.",
            to_second(self.checkpoint),
        );
        let bytes = self.replay.dates.saved_to as u64;
        page.add(
            "checkpoint_bytes",
            "Length of that checkpoint in bytes.",
            bytes,
        );
    }
}

/// A moment as a second from 1970 on; 0 if it is earlier.
fn to_second(moment: i64) -> u64 {
    u64::try_from(moment).unwrap_or(0)
}
