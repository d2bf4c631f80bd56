//! Writes a handler's state into a journal part by part: a checkpoint.
ghost use Rattle.oai_durable.specs.Checkpoints.{HasSaved, HoldsCheckpoint};
ghost use Rattle.oai_durable.specs.Records.{entry_of_part};
ghost use Rattle.oai_replay.specs.Parts.{PartState, as_part};
ghost use Rattle.oai_journal.specs.Records.{Entry};
ghost use Rattle.std.specs.Prelude.{◌≡◌, ◌++◌, ◌∷◌, [], ℕ, IfOk, IsTrue, List, OnOk, length};

use crate::records::record_of_part;
use oai_item::Fault;
use oai_journal::{Journal, JournalFault};
use oai_replay::{Part, Replayed, SaveFault, Sink, SinkFault};
use thiserror::Error;

/// After that many bytes of records they are committed, which bounds the memory that they take.
const GROUP_BYTES: usize = 1_048_576;

/// The bytes that are counted for a record besides its body.
const HEAD_BYTES: usize = 128;

/// Why no checkpoint was written.
#[derive(Clone, Copy, Debug, PartialEq, Eq, Error)]
pub enum CheckpointFault {
    /// The handler's state could not be read.
    #[error("{0}")]
    Reading(Fault),
    /// A list number would not fit in 64 bits.
    #[error("no list number is left")]
    Numbers,
    /// The journal could not be written, or a part is longer than a record may be.
    #[error("{0}")]
    Journal(JournalFault),
}

/// A journal that takes parts as log records, and commits them in groups.
#[derive(Drop)]
pub(crate) struct JournalSink<J> {
    pub(crate) journal: J,
    /// The bytes of the records that were added since the last commit.
    waiting: usize,
    /// How many records it has behind its first one.
    pub(crate) records: u64,
    /// Why no further part was taken.
    fault: JournalFault,
}

impl<J: Journal> Sink for JournalSink<J> {
    ghost has = { λ sink parts. HasSaved J.Journal sink.journal parts };

    fn add(&mut self, part: &Part<'_>) -> Result<(), SinkFault> {
        match self.take(part) {
            Ok(()) => Ok(()),
            Err(fault) => {
                self.fault = fault;
                Err(SinkFault)
            }
        }
    }
}

impl<J: Journal> JournalSink<J> {
    /// The journal, which has no record behind its first one.
    pub(crate) fn new(journal: J) -> JournalSink<J>
        ensures { result.journal ≡ journal }
    {
        JournalSink {
            journal,
            waiting: 0,
            records: 0,
            fault: JournalFault::Failed,
        }
    }

    /// Why a checkpoint that was passed to it could not be saved.
    pub(crate) fn cause(&self, fault: SaveFault) -> CheckpointFault {
        match fault {
            SaveFault::Reading(fault) => CheckpointFault::Reading(fault),
            SaveFault::Numbers => CheckpointFault::Numbers,
            SaveFault::Sink(_) => CheckpointFault::Journal(self.fault),
        }
    }

    /// Adds the part as a record, after a commit if enough bytes wait for one.
    fn take(&mut self, part: &Part<'_>) -> Result<(), JournalFault>
        ensures { OnOk result ((parts : List PartState) → HasSaved J.Journal self.old.journal parts
            → HasSaved J.Journal self.new.journal (parts ++ as_part part.now ∷ [])) }
    {
        commit_group(&mut self.journal, &mut self.waiting)?;
        add_part(&mut self.journal, part)?;
        let bytes = part.bytes.len().saturating_add(HEAD_BYTES);
        self.waiting = self.waiting.saturating_add(bytes);
        self.records = self.records.saturating_add(1);
        Ok(())
    }
}

/// Commits the records if enough bytes of them wait to make a group; none wait then.
fn commit_group<J: Journal>(journal: &mut J, waiting: &mut usize) -> Result<(), JournalFault>
    ensures { OnOk result ((parts : List PartState) → HasSaved J.Journal journal.old parts
        → HasSaved J.Journal journal.new parts) }
{
    if *waiting < GROUP_BYTES {
        return Ok(());
    }
    *waiting = 0;
    journal.commit()
}

/// Appends a part as a record. The error is NoRoom, if out of memory, or if no record can hold the part.
fn add_part<J: Journal>(journal: &mut J, part: &Part<'_>) -> Result<(), JournalFault>
    ensures { OnOk result ((entries : List Entry) (durable : ℕ) → J.holds journal.old entries durable
        → J.holds journal.new (entries ++ entry_of_part (as_part part.now) ∷ []) durable) }
{
    let record = record_of_part(part);
    if !record.is_fit() {
        return Err(JournalFault::NoRoom);
    }
    journal.reserve(record.body.len())?;
    journal.append(&record);
    Ok(())
}

/// Writes a checkpoint: the records of all parts of the handler's state, with the number of each next list raised by
/// that much, into a journal that has no record yet. All of them are durable then; restored by a handler of the same
/// repositories they give this one's state, except that all lists have ended. The handler's state is unchanged, also
/// after an error; the journal is dropped then.
pub fn checkpoint<H: Replayed, J: Journal>(
    handler: &mut H,
    raise: u32,
    journal: J,
) -> Result<J, CheckpointFault>
    ensures saved { IfOk result (λ written. IsTrue (H.is_honest handler.old) → (durable : ℕ) → J.holds journal [] durable
        → HoldsCheckpoint (record {
          leaving = record { redone = H.redone; restored = H.restored };
          reply = H.reply;
          parts = H.parts;
          ended = H.ended;
          emptied = H.emptied;
        }) J.Journal (H.kept handler.old) raise written) }
    ensures same { H.kept handler.new ≡ H.kept handler.old }
    ensures honesty { H.is_honest handler.new ≡ H.is_honest handler.old }
{
    let mut sink = JournalSink::new(journal);
    match handler.save(raise, &mut sink) {
        Ok(()) => committed(sink.journal),
        Err(fault) => Err(sink.cause(fault)),
    }
}

/// The journal, with all its records durable.
fn committed<J: Journal>(mut journal: J) -> Result<J, CheckpointFault>
    ensures { IfOk result (λ written. (entries : List Entry) (durable : ℕ) → J.holds journal entries durable
        → J.holds written entries (length entries)) }
{
    match journal.commit() {
        Ok(()) => Ok(journal),
        Err(fault) => Err(CheckpointFault::Journal(fault)),
    }
}
