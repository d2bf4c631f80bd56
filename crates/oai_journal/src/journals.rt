ghost use Rattle.std.specs.Prelude.{◌≡◌, ◌≤◌, ◌++◌, [], ◌∷◌, ℕ, Bool, List, false, length, take, IfOk, IsTrue, OnOk, OnErr};
ghost use Rattle.oai_journal.specs.Journals.{IsLeft, IsReadNext};
ghost use Rattle.oai_journal.specs.Records.{Entry, as_entry, is_first_kind, is_fit};
ghost use Rattle.oai_journal.specs.Tails.{tail_record};
ghost use Rattle.oai_journal.specs.declared.journals.JournalFault.TheVariants as fault;
ghost use Rattle.oai_journal.specs.declared.tails.Tail.{Tail};

use crate::records::LogRecord;
use crate::tails::Tail;
use std::alloc::{AllocError, AllocFailed, Global};
use thiserror::Error;

/// Why a call of a journal failed.
#[derive(Clone, Copy, Debug, PartialEq, Eq, Error)]
pub enum JournalFault {
    /// Out of memory, or the file would be longer than 2^64 bytes.
    #[error("out of memory")]
    NoRoom,
    /// The disk failed, in this call or earlier. No further records are written to it.
    #[error("the disk failed")]
    Failed,
}

impl From<AllocError> for JournalFault {
    ghost from_gives = { λ _ e. e ≡ fault.NoRoom };

    fn from(_refused: AllocError) -> JournalFault {
        JournalFault::NoRoom
    }
}

impl<T: Drop> From<AllocFailed<T>> for JournalFault {
    ghost from_gives = { λ _ e. e ≡ fault.NoRoom };

    fn from(_refused: AllocFailed<T>) -> JournalFault {
        JournalFault::NoRoom
    }
}

/// A list of log records, of which that many, from the first on, are durable. At each moment, within a call too, a
/// crash leaves a prefix of the list that has all durable ones. (A crash within a call is one after a call that
/// failed.)
pub trait Journal: Drop {
    /// Its records, and how many of them are durable.
    ghost holds: { Self → List Entry → ℕ → Type 0 };

    /// A crash at this moment may leave these records.
    ghost may_leave: { Self → List Entry → Type 0 };

    /// The tail is behind these records, the first ones of the journal.
    ghost stands: { Self → Tail → List Entry → Type 0 };

    /// Whether each read of the disk returned what it has.
    ghost is_clean: { Self → Bool };

    /// Space is reserved for a record of that many bytes.
    ghost has_room: { Self → ℕ → Type 0 };

    /// Reserves space for a record of that many bytes. The error is NoRoom, out of memory; nothing has changed then.
    fn reserve(&mut self, bytes: usize) -> Result<(), JournalFault>
        ensures room { OnOk result (has_room self.new bytes) }
        ensures same { (entries : List Entry) (durable : ℕ) → holds self.old entries durable
            → holds self.new entries durable }
        ensures tails { (tail : Tail) (read : List Entry) → stands self.old tail read → stands self.new tail read };

    /// Appends a record, into reserved space. It allocates nothing and cannot fail.
    fn append(&mut self, entry: &LogRecord<'_>)
        requires fit { IsTrue (is_fit (as_entry entry.now)) }
        requires kind { is_first_kind entry.now.kind ≡ false }
        requires room { has_room self.old (length entry.now.body.now) }
        ensures appended { (entries : List Entry) (durable : ℕ) → holds self.old entries durable
            → holds self.new (entries ++ as_entry entry.now ∷ []) durable }
        ensures tails { (tail : Tail) (read : List Entry) → stands self.old tail read → stands self.new tail read };

    /// Makes all records durable. The error is Failed if the disk fails, and from then on always; then as many are
    /// durable as before, or all.
    fn commit(&mut self) -> Result<(), JournalFault>
        ensures ok { OnOk result ((entries : List Entry) (durable : ℕ) → holds self.old entries durable
            → holds self.new entries (length entries)) }
        ensures err { OnErr result ((entries : List Entry) (durable : ℕ) → holds self.old entries durable
            → holds self.new entries durable) }
        ensures tails { OnOk result ((entries : List Entry) (durable : ℕ) → holds self.old entries durable
            → (tail : Tail) (read : List Entry) → stands self.old tail read → stands self.new tail read) };

    /// A tail behind the last durable record; nothing is read yet. The error is Failed if the disk has failed.
    fn tail(&mut self, alloc: Global) -> Result<Tail, JournalFault>
        ensures behind { IfOk result (λ tail. (entries : List Entry) (durable : ℕ) → holds self.old entries durable
            → stands self.new tail (take durable entries)) }
        ensures same { (entries : List Entry) (durable : ℕ) → holds self.old entries durable
            → holds self.new entries durable }
        ensures tails { (other : Tail) (read : List Entry) → stands self.old other read → stands self.new other read };

    /// Reads the durable record behind the tail, and moves the tail behind it; returns false if there is none. The
    /// errors: Failed if the disk fails, has failed, or returns something else than the record; NoRoom if out of
    /// memory. After an error the tail is where it was.
    fn read_next(&mut self, tail: &mut Tail) -> Result<bool, JournalFault>
        ensures next { IfOk result (λ more. IsTrue more → IsTrue (is_clean self.new)
            → (entries : List Entry) (durable : ℕ) (read behind : List Entry) → holds self.old entries durable
            → take durable entries ≡ read ++ behind → stands self.old tail.old read
            → IsReadNext (stands self.new tail.new) (tail_record tail.new) read behind) }
        ensures end { IfOk result (λ more. more ≡ false
            → (entries : List Entry) (durable : ℕ) (read behind : List Entry) → holds self.old entries durable
            → take durable entries ≡ read ++ behind → stands self.old tail.old read → behind ≡ []) }
        ensures rest { IfOk result (λ more. more ≡ false
            → (read : List Entry) → stands self.old tail.old read → stands self.new tail.new read) }
        ensures err { OnErr result ((read : List Entry) → stands self.old tail.old read → stands self.new tail.new read) }
        ensures same { (entries : List Entry) (durable : ℕ) → holds self.old entries durable
            → holds self.new entries durable }
        ensures tails { (other : Tail) (read : List Entry) → stands self.old other read → stands self.new other read }
        ensures clean { IsTrue (is_clean self.new) → IsTrue (is_clean self.old) };

    /// Space for a record is space for a shorter one.
    ghost less_room: { (journal : Self) (bytes less : ℕ) → less ≤ bytes → has_room journal bytes
        → has_room journal less };

    /// A crash leaves some records.
    ghost stays: { (journal : Self) (entries : List Entry) (durable : ℕ) → holds journal entries durable
        → (found : List Entry) × may_leave journal found };

    /// What a crash leaves is a prefix of the records that has all durable ones.
    ghost left: { (journal : Self) (entries : List Entry) (durable : ℕ) (found : List Entry)
        → holds journal entries durable → may_leave journal found → IsLeft durable entries found };
}
