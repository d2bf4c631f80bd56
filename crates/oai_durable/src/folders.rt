//! A folder with a journal, beside which a new one is begun.
ghost use Rattle.std.specs.Prelude.{[], ℕ, IfOk};

use crate::checkpoints::CheckpointFault;
use crate::either::EitherJournal;
use oai_journal::{FileJournal, Journal};
use sqlite_disk::Disk;
use std::time::Duration;

/// A journal whose length is known.
pub trait Measured {
    /// The length of its file in bytes, with the records that are not yet written.
    fn bytes(&self) -> usize;
}

/// What became of a new journal that is to take the place of the old one.
#[derive(Clone, Copy, Debug, PartialEq, Eq)]
pub enum Replacement {
    /// It has the name of the old one, durably.
    Done,
    /// It could not be renamed. The old one is in its place.
    Refused,
    /// It was renamed, but the folder could not be synced: after a crash either may be in its place.
    Unsynced,
}

/// What is reported of a checkpoint that was written while its handler served.
#[derive(Clone, Copy, Debug, PartialEq, Eq)]
pub enum CheckpointNote {
    /// It took the place of the journal: with so many records behind its first one, and of so many bytes.
    Written(u64, usize),
    /// It was given up.
    GivenUp(CheckpointFault),
}

/// A folder with a journal, beside which a new one is begun.
pub trait Folder<K: Journal> {
    /// A checkpoint is begun once the folder's journal is longer than twice its length at the last switch, or at the start,
    /// and this many bytes. None: it never is.
    fn max_tail(&self) -> Option<usize>;

    /// Begins a journal beside the folder's, at the moment in seconds from 1970 on, in place of what was left of one
    /// there. It has no record behind its first one. The error says why not.
    fn begin(&mut self, moment: i64) -> Result<K, CheckpointFault>
        ensures { IfOk result (λ journal. (durable : ℕ) × K.holds journal [] durable) };

    /// Renames the journal that was begun over the folder's, and syncs the folder. All records of both are durable, and
    /// both leave the same state.
    fn replace(&mut self) -> Replacement;

    /// Removes the journal that was begun.
    fn discard(&mut self);

    /// Reports to the operator.
    fn tell(&mut self, note: CheckpointNote);

    /// The time by a monotonic clock; zero if it cannot be read.
    fn clock(&self) -> Duration;
}

impl<D: Disk + Drop> Measured for FileJournal<D> {
    fn bytes(&self) -> usize {
        self.len()
    }
}

impl<J: Measured, K: Measured> Measured for EitherJournal<J, K> {
    fn bytes(&self) -> usize {
        match self {
            EitherJournal::First(journal) => journal.bytes(),
            EitherJournal::Second(journal) => journal.bytes(),
        }
    }
}
