//! Steps of a checkpoint that is written while exchanges go on: when it begins, and what becomes of it.
ghost use Rattle.oai_durable.specs.Checkpointed.{StepsTo};
ghost use Rattle.oai_durable.specs.Journaled.{IsHeld, promised};
ghost use Rattle.oai_durable.specs.OnlineCheckpoints.{IsWriting};
ghost use Rattle.oai_journal.specs.Records.{Entry};
ghost use Rattle.std.specs.Prelude.{◌≡◌, [], ℕ, IfOk, IfSome, IsTrue, List, Some, length};

use crate::checkpoints::CheckpointFault;
use crate::folders::{CheckpointNote, Folder, Measured, Replacement};
use crate::journaled::Journaled;
use crate::online_checkpoints::OnlineCheckpoint;
use oai_journal::{Journal, JournalFault};
use oai_replay::Replayed;
use std::time::Duration;

/// The bytes of records that a step copies at least: 256 KiB.
const STEP_BYTES: usize = 262_144;

/// How many times as many bytes a step copies as came after the last one, so that it catches up.
const COPIES: usize = 2;

/// How many times as long as a step took the next one rests, while exchanges come: these get two thirds of the time.
const RESTS: u32 = 2;

/// Where a step of a checkpoint leads.
#[derive(Drop)]
pub(crate) enum Stepped<K> {
    /// The journal stays. This is the checkpoint that is written, if one is.
    Stays(Option<OnlineCheckpoint<K>>),
    /// A new journal took its place, which has that many records behind its first one.
    Replaced(K, u64),
    /// A new journal was renamed over it, but the folder could not be synced.
    InDoubt(K),
}

/// A folder, and when the next checkpoint of its journal begins.
#[derive(Drop)]
pub(crate) struct Schedule<F> {
    folder: F,
    /// A checkpoint is due once the journal is longer than this and the longest tail that the folder admits.
    base: usize,
    /// The moment of the last exchange, in seconds from 1970 on; 0 before the first.
    moment: i64,
    /// The length of the journal at the last step.
    seen: usize,
    /// Whether more came between the last two steps than a step copies at least.
    is_behind: bool,
    /// Whether an exchange came after the last step.
    is_asked: bool,
    /// Until when the next step rests if exchanges come, by the folder's clock.
    rested: Duration,
}

impl<F> Schedule<F> {
    /// Of a journal of that length.
    pub(crate) fn new(folder: F, bytes: usize) -> Schedule<F> {
        Schedule {
            folder,
            base: bytes.saturating_mul(2),
            moment: 0,
            seen: bytes,
            is_behind: false,
            is_asked: false,
            rested: Duration::ZERO,
        }
    }

    /// Notes the moment of an exchange.
    pub(crate) fn note(&mut self, moment: i64) {
        self.moment = moment;
        self.is_asked = true;
    }

    /// How many bytes of records the next step copies, of a journal of that length.
    fn step_bytes(&mut self, bytes: usize) -> usize {
        let came = bytes.saturating_sub(self.seen);
        self.seen = bytes;
        self.is_behind = came > STEP_BYTES;
        STEP_BYTES.saturating_add(came.saturating_mul(COPIES))
    }

    /// The time by the folder's clock.
    fn clock<K: Journal>(&self) -> Duration
    where
        F: Folder<K>,
    {
        self.folder.clock()
    }

    /// Whether the next step rests, since exchanges come.
    fn rests<K: Journal>(&self) -> bool
    where
        F: Folder<K>,
    {
        self.is_asked && self.folder.clock() < self.rested
    }

    /// Lets the next step rest after one that was begun at that time, unless records come faster than it copies.
    fn rest<K: Journal>(&mut self, begun: Duration)
    where
        F: Folder<K>,
    {
        let now = self.folder.clock();
        let spent = now.saturating_sub(begun);
        self.rested = if self.is_behind {
            now
        } else {
            now.saturating_add(spent.saturating_mul(RESTS))
        };
        self.is_asked = false;
    }

    /// Begins a journal beside the folder's.
    fn begin<K: Journal>(&mut self) -> Result<K, CheckpointFault>
    where
        F: Folder<K>,
        ensures { IfOk result (λ journal. (durable : ℕ) × K.holds journal [] durable) }
    {
        self.folder.begin(self.moment)
    }

    /// Whether a checkpoint of a journal of that length is due.
    fn is_due<K: Journal>(&self, bytes: usize) -> bool
    where
        F: Folder<K>,
    {
        match self.folder.max_tail() {
            Some(most) => bytes > self.base.saturating_add(most),
            None => false,
        }
    }

    /// Gives up the journal that was begun beside that of the length. The next one begins once this has grown.
    fn give_up<K: Journal>(&mut self, bytes: usize, fault: CheckpointFault)
    where
        F: Folder<K>,
    {
        self.folder.discard();
        self.folder.tell(CheckpointNote::GivenUp(fault));
        self.base = bytes;
    }

    /// Puts the journal that was begun, of so many records and bytes, in the place of the folder's.
    fn replace<K: Journal>(&mut self, records: u64, bytes: usize) -> Replacement
    where
        F: Folder<K>,
    {
        let replacement = self.folder.replace();
        if replacement == Replacement::Done {
            self.base = bytes.saturating_mul(2);
            self.folder.tell(CheckpointNote::Written(records, bytes));
        }
        replacement
    }
}

/// Makes a step of a checkpoint, behind a commit: it is begun if it is due, written on unless it rests, or put in the place
/// of the journal if it is whole. A fault ends the checkpoint alone.
pub(crate) fn make_step<H: Replayed, J: Journal + Measured, K: Journal + Measured, F: Folder<K>>(
    journaled: &mut Journaled<H, J>,
    schedule: &mut Schedule<F>,
    writing: Option<OnlineCheckpoint<K>>,
) -> Stepped<K>
    ensures held { (begun : H.Kept) (entries : List Entry) (durable : ℕ)
        → IsHeld (promised H.Replayed) J.Journal begun journaled.old entries durable
        → IsHeld (promised H.Replayed) J.Journal begun journaled.new entries durable }
    ensures honesty { H.is_honest journaled.new.handler ≡ H.is_honest journaled.old.handler }
    ensures leads { StepsTo (promised H.Replayed) J.Journal K.Journal H.emptied journaled.old writing journaled.new result }
{
    let Some(checkpoint) = writing else {
        return Stepped::Stays(begin_if_due(journaled, schedule));
    };
    if schedule.rests() {
        return Stepped::Stays(Some(checkpoint));
    }
    let begun = schedule.clock();
    let stepped = write(journaled, schedule, checkpoint);
    schedule.rest(begun);
    stepped
}

/// Begins a checkpoint, if the journal is long.
fn begin_if_due<H: Replayed, J: Journal + Measured, K: Journal, F: Folder<K>>(
    journaled: &mut Journaled<H, J>,
    schedule: &mut Schedule<F>,
) -> Option<OnlineCheckpoint<K>>
    ensures begun { IfSome result (λ w. IsTrue (H.is_honest journaled.old.handler) → (begun : H.Kept) (entries : List Entry)
        → IsHeld (promised H.Replayed) J.Journal begun journaled.old entries (length entries)
        → IsWriting (promised H.Replayed) J.Journal K.Journal H.emptied begun journaled.new entries (length entries) w) }
    ensures held { (begun : H.Kept) (entries : List Entry) (durable : ℕ)
        → IsHeld (promised H.Replayed) J.Journal begun journaled.old entries durable
        → IsHeld (promised H.Replayed) J.Journal begun journaled.new entries durable }
    ensures honesty { H.is_honest journaled.new.handler ≡ H.is_honest journaled.old.handler }
{
    let bytes = journaled.bytes();
    if !schedule.is_due(bytes) {
        return None;
    }
    let journal = match schedule.begin() {
        Ok(journal) => journal,
        Err(fault) => {
            schedule.give_up(bytes, fault);
            return None;
        }
    };
    match journaled.begin_checkpoint(journal) {
        Ok(checkpoint) => Some(checkpoint),
        Err(fault) => {
            schedule.give_up(bytes, fault);
            None
        }
    }
}

/// Writes on at the checkpoint, and puts it in the place of the journal if it is whole.
fn write<H: Replayed, J: Journal + Measured, K: Journal + Measured, F: Folder<K>>(
    journaled: &mut Journaled<H, J>,
    schedule: &mut Schedule<F>,
    mut checkpoint: OnlineCheckpoint<K>,
) -> Stepped<K>
    ensures held { (begun : H.Kept) (entries : List Entry) (durable : ℕ)
        → IsHeld (promised H.Replayed) J.Journal begun journaled.old entries durable
        → IsHeld (promised H.Replayed) J.Journal begun journaled.new entries durable }
    ensures honesty { H.is_honest journaled.new.handler ≡ H.is_honest journaled.old.handler }
    ensures leads { StepsTo (promised H.Replayed) J.Journal K.Journal H.emptied journaled.old (Some checkpoint)
        journaled.new result }
{
    let bytes = schedule.step_bytes(journaled.bytes());
    let more = match journaled.write_checkpoint(&mut checkpoint, bytes) {
        Ok(more) => more,
        Err(fault) => {
            give_up(journaled, schedule, fault);
            return Stepped::Stays(None);
        }
    };
    if more {
        return Stepped::Stays(Some(checkpoint));
    }
    let records = checkpoint.records();
    let new = checkpoint.into_journal();
    match schedule.replace(records, new.bytes()) {
        Replacement::Done => Stepped::Replaced(new, records),
        Replacement::Unsynced => Stepped::InDoubt(new),
        Replacement::Refused => {
            give_up(
                journaled,
                schedule,
                CheckpointFault::Journal(JournalFault::Failed),
            );
            Stepped::Stays(None)
        }
    }
}

/// Gives up the checkpoint that is written.
fn give_up<H: Replayed, J: Journal + Measured, K: Journal, F: Folder<K>>(
    journaled: &mut Journaled<H, J>,
    schedule: &mut Schedule<F>,
    fault: CheckpointFault,
)
    ensures held { (begun : H.Kept) (entries : List Entry) (durable : ℕ)
        → IsHeld (promised H.Replayed) J.Journal begun journaled.old entries durable
        → IsHeld (promised H.Replayed) J.Journal begun journaled.new entries durable }
    ensures honesty { H.is_honest journaled.new.handler ≡ H.is_honest journaled.old.handler }
{
    journaled.stop_checkpoint();
    let bytes = journaled.bytes();
    schedule.give_up(bytes, fault);
}
