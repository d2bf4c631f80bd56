//! A folder, of which the event loop knows whether a checkpoint is written in it.
use crate::tallies::Tally;
use oai_durable::{CheckpointFault, CheckpointNote, Folder, Replacement};
use oai_journal::Journal;
use std::rc::Rc;
use std::time::Duration;

/// A folder; while a checkpoint is written in it, the event loop does not wait for connections. What is reported of one
/// that was written is among the figures.
#[derive(Drop)]
pub struct NotedFolder<F> {
    folder: F,
    tally: Rc<Tally>,
    /// The moment of the last checkpoint, in seconds from 1970 on.
    moment: i64,
}

impl<F> NotedFolder<F> {
    /// That folder, in which no checkpoint is written.
    pub(crate) fn new(folder: F, tally: Rc<Tally>) -> NotedFolder<F> {
        NotedFolder {
            folder,
            tally,
            moment: 0,
        }
    }
}

impl<K: Journal, F: Folder<K>> Folder<K> for NotedFolder<F> {
    fn max_tail(&self) -> Option<usize> {
        self.folder.max_tail()
    }

    fn begin(&mut self, moment: i64) -> Result<K, CheckpointFault> {
        self.moment = moment;
        match self.folder.begin(moment) {
            Ok(journal) => {
                self.tally.note_busy(true);
                Ok(journal)
            }
            Err(fault) => Err(fault),
        }
    }

    fn replace(&mut self) -> Replacement {
        self.tally.note_busy(false);
        self.folder.replace()
    }

    fn discard(&mut self) {
        self.tally.note_busy(false);
        self.folder.discard();
    }

    fn tell(&mut self, note: CheckpointNote) {
        match note {
            CheckpointNote::Written(_, bytes) => self.tally.note_checkpoint(self.moment, bytes),
            CheckpointNote::GivenUp(_) => {}
        }
        self.folder.tell(note);
    }

    fn clock(&self) -> Duration {
        self.folder.clock()
    }
}
