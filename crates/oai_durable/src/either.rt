//! A journal of one of two kinds.
use oai_journal::{Journal, JournalFault, LogRecord, Tail};
use std::alloc::Global;

/// A journal of one of two kinds: a new one is of another kind than the one whose place it takes, since both are open at
/// once.
#[derive(Drop)]
pub enum EitherJournal<J, K> {
    /// One of the first kind.
    First(J),
    /// One of the second kind.
    Second(K),
}

impl<J: Journal, K: Journal> Journal for EitherJournal<J, K> {
    ghost use Rattle.oai_durable.specs.Either.{each, either};
    ghost use Rattle.oai_journal.specs.Journals.{IsLeft};
    ghost use Rattle.oai_journal.specs.Records.{Entry};
    ghost use Rattle.std.specs.Prelude.{◌≤◌, ℕ, List};

    ghost holds = { either J.holds K.holds };

    ghost may_leave = { either J.may_leave K.may_leave };

    ghost stands = { either J.stands K.stands };

    ghost is_clean = { either J.is_clean K.is_clean };

    ghost has_room = { either J.has_room K.has_room };

    fn reserve(&mut self, bytes: usize) -> Result<(), JournalFault> {
        match self {
            EitherJournal::First(journal) => journal.reserve(bytes),
            EitherJournal::Second(journal) => journal.reserve(bytes),
        }
    }

    fn append(&mut self, entry: &LogRecord<'_>) {
        match self {
            EitherJournal::First(journal) => journal.append(entry),
            EitherJournal::Second(journal) => journal.append(entry),
        }
    }

    fn commit(&mut self) -> Result<(), JournalFault> {
        match self {
            EitherJournal::First(journal) => journal.commit(),
            EitherJournal::Second(journal) => journal.commit(),
        }
    }

    fn tail(&mut self, alloc: Global) -> Result<Tail, JournalFault> {
        match self {
            EitherJournal::First(journal) => journal.tail(alloc),
            EitherJournal::Second(journal) => journal.tail(alloc),
        }
    }

    fn read_next(&mut self, tail: &mut Tail) -> Result<bool, JournalFault> {
        match self {
            EitherJournal::First(journal) => journal.read_next(tail),
            EitherJournal::Second(journal) => journal.read_next(tail),
        }
    }

    ghost less_room = { each (λ journal. (bytes less : ℕ) → less ≤ bytes → either J.has_room K.has_room journal bytes
        → either J.has_room K.has_room journal less) J.less_room K.less_room };

    ghost stays = { each (λ journal. (entries : List Entry) (durable : ℕ) → either J.holds K.holds journal entries durable
        → (found : List Entry) × either J.may_leave K.may_leave journal found) J.stays K.stays };

    ghost left = { each (λ journal. (entries : List Entry) (durable : ℕ) (found : List Entry)
        → either J.holds K.holds journal entries durable → either J.may_leave K.may_leave journal found
        → IsLeft durable entries found) J.left K.left };
}
