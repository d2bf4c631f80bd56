//! A checkpoint that is written into a new journal while exchanges go on, a step at a time.
ghost use Rattle.oai_durable.specs.Journaled.{IsHeld, promised};
ghost use Rattle.oai_durable.specs.OnlineCheckpoints.{IsCopying, IsWriting, IsWritingOn};
ghost use Rattle.oai_journal.specs.Records.{Entry};
ghost use Rattle.std.specs.Prelude.{◌≡◌, [], ℕ, IfOk, IsTrue, List, OnOk, false, length};

use crate::checkpoints::{CheckpointFault, JournalSink};
use crate::journaled::Journaled;
use oai_journal::{Journal, JournalFault, Tail, copy_some};
use oai_replay::Replayed;
use std::marker::Model;

/// How many times as many bytes are read back in a step as are copied.
const READS: usize = 4;

/// A checkpoint that is written into a new journal while exchanges go on: first the parts of the state when it began,
/// then the records behind it.
#[derive(Drop)]
pub struct OnlineCheckpoint<K> {
    sink: JournalSink<K>,
    /// Up to where the records of the old journal are in the new one.
    tail: Tail,
    /// Whether all parts are in the new journal.
    whole: bool,
    /// Up to where the new journal was read back.
    reread: Tail,
}

impl<K> Model for OnlineCheckpoint<K> {
    ghost use Rattle.oai_durable.specs.OnlineCheckpoints.{Writing};

    ghost Value = { Writing K };

    ghost view = { λ c. record { journal = c.sink.journal; tail = c.tail; whole = c.whole } };
}

impl<K: Journal> OnlineCheckpoint<K> {
    /// The new journal.
    pub fn into_journal(self) -> K
        ensures { result ≡ self.journal }
    {
        self.sink.journal
    }

    /// How many records it has behind its first one.
    pub fn records(&self) -> u64 {
        self.sink.records
    }

    /// Makes the records of the new journal durable.
    fn commit(&mut self) -> Result<(), CheckpointFault>
        ensures durable { OnOk result ((entries : List Entry) (lasting : ℕ) → K.holds self.old.journal entries lasting
            → K.holds self.new.journal entries (length entries)) }
        ensures tail { self.new.tail ≡ self.old.tail }
        ensures whole { self.new.whole ≡ self.old.whole }
    {
        match self.sink.journal.commit() {
            Ok(()) => Ok(()),
            Err(fault) => Err(CheckpointFault::Journal(fault)),
        }
    }

    /// Reads the next records of the new journal back, each of which has to be as it was written, until they have that
    /// many bytes; returns whether more may be left.
    fn read_back(&mut self, bytes: usize) -> Result<bool, CheckpointFault>
        ensures same { (entries : List Entry) (lasting : ℕ) → K.holds self.old.journal entries lasting
            → K.holds self.new.journal entries lasting }
        ensures tail { self.new.tail ≡ self.old.tail }
        ensures whole { self.new.whole ≡ self.old.whole }
    {
        match read_some(&mut self.sink.journal, &mut self.reread, bytes) {
            Ok(more) => Ok(more),
            Err(fault) => Err(CheckpointFault::Journal(fault)),
        }
    }
}

/// Reads the durable records of the journal behind the tail, until they have that many bytes; returns whether more may be
/// left. The errors: Failed if the disk fails, or returns something else than a record; NoRoom if out of memory.
fn read_some<K: Journal>(
    journal: &mut K,
    tail: &mut Tail,
    bytes: usize,
) -> Result<bool, JournalFault>
    ensures { (entries : List Entry) (durable : ℕ) → K.holds journal.old entries durable → K.holds journal.new entries durable }
{
    let mut read = 0usize;
    while read < bytes {
        if !journal.read_next(tail)? {
            return Ok(false);
        }
        let size = match tail.record() {
            Some(record) => record.body.len(),
            None => 0,
        };
        read = read.saturating_add(size).saturating_add(1);
    }
    Ok(true)
}

impl<H: Replayed, J: Journal> Journaled<H, J> {
    /// Begins a checkpoint of the state as it is now, into a journal that has no record behind its first one; one that was
    /// begun before is given up. All records have to be durable. The errors: `Reading`, and `Journal`, if the disk has
    /// failed; then none is begun.
    pub fn begin_checkpoint<K: Journal>(
        &mut self,
        mut journal: K,
    ) -> Result<OnlineCheckpoint<K>, CheckpointFault>
        ensures begun { IfOk result (λ checkpoint. IsTrue (H.is_honest self.old.handler) → (begun : H.Kept)
            (entries : List Entry) (lasting : ℕ)
            → IsHeld (promised H.Replayed) J.Journal begun self.old entries (length entries) → K.holds journal [] lasting
            → IsWriting (promised H.Replayed) J.Journal K.Journal H.emptied begun self.new entries (length entries)
            checkpoint) }
        ensures held { (begun : H.Kept) (entries : List Entry) (durable : ℕ)
            → IsHeld (promised H.Replayed) J.Journal begun self.old entries durable
            → IsHeld (promised H.Replayed) J.Journal begun self.new entries durable }
        ensures honesty { H.is_honest self.new.handler ≡ H.is_honest self.old.handler }
    {
        let reread = match journal.tail(self.alloc) {
            Ok(reread) => reread,
            Err(fault) => return Err(CheckpointFault::Journal(fault)),
        };
        if let Err(fault) = self.handler.begin_saving() {
            return Err(CheckpointFault::Reading(fault));
        }
        match self.journal.tail(self.alloc) {
            Ok(tail) => Ok(OnlineCheckpoint {
                sink: JournalSink::new(journal),
                tail,
                whole: false,
                reread,
            }),
            Err(fault) => {
                self.handler.stop_saving();
                Err(CheckpointFault::Journal(fault))
            }
        }
    }

    /// Writes the next records of the checkpoint, and makes them durable: parts of the state, or once all of these are
    /// written, durable records behind them, until they have that many bytes. Where none is left, the next records of the
    /// new journal are read back. Returns whether more may be left. If not, and all records are durable, those of the new
    /// journal leave the same state. The errors: `Reading`; `Journal`, of either
    /// journal. After one the checkpoint can only be given up.
    pub fn write_checkpoint<K: Journal>(
        &mut self,
        checkpoint: &mut OnlineCheckpoint<K>,
        bytes: usize,
    ) -> Result<bool, CheckpointFault>
        ensures writes { IfOk result (λ more. IsTrue (H.is_honest self.old.handler) → IsTrue (J.is_clean self.new.journal)
            → (begun : H.Kept) (entries : List Entry) (durable : ℕ) → H.emptied begun ≡ begun
            → IsHeld (promised H.Replayed) J.Journal begun self.old entries durable
            → IsWriting (promised H.Replayed) J.Journal K.Journal H.emptied begun self.old entries durable checkpoint.old
            → IsWritingOn (promised H.Replayed) J.Journal K.Journal H.emptied begun self.new entries durable
            checkpoint.new more) }
        ensures held { (begun : H.Kept) (entries : List Entry) (durable : ℕ)
            → IsHeld (promised H.Replayed) J.Journal begun self.old entries durable
            → IsHeld (promised H.Replayed) J.Journal begun self.new entries durable }
        ensures honesty { H.is_honest self.new.handler ≡ H.is_honest self.old.handler }
    {
        if !checkpoint.whole {
            self.save_parts(checkpoint)?;
            checkpoint.commit()?;
            return Ok(true);
        }
        let more = self.copy_records(checkpoint, bytes)?;
        checkpoint.commit()?;
        if more {
            return Ok(true);
        }
        let unread = checkpoint.read_back(bytes.saturating_mul(READS))?;
        Ok(unread)
    }

    /// Writes the next parts of the state, if some are left; otherwise all are written.
    fn save_parts<K: Journal>(
        &mut self,
        checkpoint: &mut OnlineCheckpoint<K>,
    ) -> Result<(), CheckpointFault>
        requires { checkpoint.old.whole ≡ false }
        ensures saves { OnOk result (IsTrue (H.is_honest self.old.handler) → (begun : H.Kept) (entries : List Entry) (durable : ℕ)
            → IsWriting (promised H.Replayed) J.Journal K.Journal H.emptied begun self.old entries durable checkpoint.old
            → IsWriting (promised H.Replayed) J.Journal K.Journal H.emptied begun self.new entries durable checkpoint.new) }
        ensures held { (begun : H.Kept) (entries : List Entry) (durable : ℕ)
            → IsHeld (promised H.Replayed) J.Journal begun self.old entries durable
            → IsHeld (promised H.Replayed) J.Journal begun self.new entries durable }
        ensures honesty { H.is_honest self.new.handler ≡ H.is_honest self.old.handler }
    {
        let more = match self.handler.save_next(&mut checkpoint.sink) {
            Ok(more) => more,
            Err(fault) => return Err(checkpoint.sink.cause(fault)),
        };
        checkpoint.whole = !more;
        Ok(())
    }

    /// Copies durable records behind those that are in the new journal, until they have that many bytes; returns whether
    /// more may be left.
    fn copy_records<K: Journal>(
        &mut self,
        checkpoint: &mut OnlineCheckpoint<K>,
        bytes: usize,
    ) -> Result<bool, CheckpointFault>
        requires { IsTrue checkpoint.old.whole }
        ensures copies { IfOk result (λ more. IsTrue (J.is_clean self.new.journal) → (begun : H.Kept) (entries : List Entry)
            (durable : ℕ) → IsHeld (promised H.Replayed) J.Journal begun self.old entries durable
            → IsWriting (promised H.Replayed) J.Journal K.Journal H.emptied begun self.old entries durable checkpoint.old
            → IsCopying (promised H.Replayed) J.Journal K.Journal H.emptied begun self.new entries durable checkpoint.new
            more) }
        ensures held { (begun : H.Kept) (entries : List Entry) (durable : ℕ)
            → IsHeld (promised H.Replayed) J.Journal begun self.old entries durable
            → IsHeld (promised H.Replayed) J.Journal begun self.new entries durable }
        ensures honesty { H.is_honest self.new.handler ≡ H.is_honest self.old.handler }
    {
        let copy = &mut checkpoint.sink.journal;
        let more = match copy_some(&mut self.journal, &mut checkpoint.tail, copy, bytes) {
            Ok(more) => more,
            Err(fault) => return Err(CheckpointFault::Journal(fault)),
        };
        Ok(more)
    }

    /// Gives up the checkpoint that is written, if one is. It cannot fail.
    pub fn stop_checkpoint(&mut self)
        ensures held { (begun : H.Kept) (entries : List Entry) (durable : ℕ)
            → IsHeld (promised H.Replayed) J.Journal begun self.old entries durable
            → IsHeld (promised H.Replayed) J.Journal begun self.new entries durable }
        ensures honesty { H.is_honest self.new.handler ≡ H.is_honest self.old.handler }
    {
        self.handler.stop_saving();
    }

    /// The handler with the new journal in place of its own, which is dropped.
    pub fn switched<K: Journal>(self, journal: K, records: u64) -> Journaled<H, K>
        ensures handler { result.handler ≡ self.handler }
        ensures journal { result.journal ≡ journal }
    {
        Journaled::new(self.alloc, self.handler, journal, records)
    }
}
