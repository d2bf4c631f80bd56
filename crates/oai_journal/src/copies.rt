//! Copies what was appended to a journal that is being written to another one.
ghost use Rattle.std.specs.Prelude.{◌≡◌, ◌++◌, [], ◌∷◌, ◌<◌, ℕ, Bool, List, None, false, take, IfOk, IfSome, IsSome, IsTrue, OnErr, OnOk};
ghost use Rattle.oai_journal.specs.Copies.{AreCopied, IsCopied};
ghost use Rattle.oai_journal.specs.Records.{Entry, as_entry};

use crate::frames::FRAME_ROOM;
use crate::journals::{Journal, JournalFault};
use crate::records::LogRecord;
use crate::tails::Tail;

/// Copies durable records behind the tail, in their order, as records that wait in the other journal: until their
/// frames have that many bytes, or none is left. Returns whether the bytes were reached, so that more may be left; then
/// at least one was copied, if `bytes` is above 0. The errors: Failed if a disk fails, or has failed, or does not return
/// a record as it was written; NoRoom if out of memory. After an error the tail may be behind a record that was not
/// copied.
pub fn copy_some<J: Journal, K: Journal>(
    journal: &mut J,
    tail: &mut Tail,
    copy: &mut K,
    bytes: usize,
) -> Result<bool, JournalFault>
    ensures copied { IfOk result (λ more. IsTrue (J.is_clean journal.new)
        → (entries : List Entry) (durable : ℕ) (read behind : List Entry) → J.holds journal.old entries durable
        → take durable entries ≡ read ++ behind → J.stands journal.old tail.old read
        → (others : List Entry) (lasting : ℕ) → K.holds copy.old others lasting
        → AreCopied (J.stands journal.new tail.new) (λ records. K.holds copy.new records lasting) read behind others
        bytes more) }
    ensures grows { (others : List Entry) (lasting : ℕ) → K.holds copy.old others lasting
        → (some : List Entry) × K.holds copy.new (others ++ some) lasting }
    ensures same { (entries : List Entry) (durable : ℕ) → J.holds journal.old entries durable
        → J.holds journal.new entries durable }
    ensures clean { IsTrue (J.is_clean journal.new) → IsTrue (J.is_clean journal.old) }
{
    let mut copied = 0;
    while copied < bytes {
        match copy_next(journal, tail, copy)? {
            Some(size) => copied = size.saturating_add(copied),
            None => return Ok(false),
        }
    }
    Ok(true)
}

/// Copies the durable record behind the tail; returns how many bytes its frame has at most, or None if there is none.
fn copy_next<J: Journal, K: Journal>(
    journal: &mut J,
    tail: &mut Tail,
    copy: &mut K,
) -> Result<Option<usize>, JournalFault>
    ensures copied { IfOk result (λ size. IsSome size → IsTrue (J.is_clean journal.new)
        → (entries : List Entry) (durable : ℕ) (read behind : List Entry) → J.holds journal.old entries durable
        → take durable entries ≡ read ++ behind → J.stands journal.old tail.old read
        → (others : List Entry) (lasting : ℕ) → K.holds copy.old others lasting
        → IsCopied (J.stands journal.new tail.new) (λ records. K.holds copy.new records lasting) read behind others) }
    ensures end { IfOk result (λ size. size ≡ None
        → (entries : List Entry) (durable : ℕ) (read behind : List Entry) → J.holds journal.old entries durable
        → take durable entries ≡ read ++ behind → J.stands journal.old tail.old read
        → (behind ≡ []) × J.stands journal.new tail.new read) }
    ensures none { IfOk result (λ size. size ≡ None → (others : List Entry) (lasting : ℕ)
        → K.holds copy.old others lasting → K.holds copy.new others lasting) }
    ensures some { IfOk result (λ size. IfSome size (λ n. 0 < n)) }
    ensures grows { (others : List Entry) (lasting : ℕ) → K.holds copy.old others lasting
        → (some : List Entry) × K.holds copy.new (others ++ some) lasting }
    ensures same { (entries : List Entry) (durable : ℕ) → J.holds journal.old entries durable
        → J.holds journal.new entries durable }
    ensures clean { IsTrue (J.is_clean journal.new) → IsTrue (J.is_clean journal.old) }
{
    if !journal.read_next(tail)? {
        return Ok(None);
    }
    match tail.record() {
        Some(record) => {
            append_again(&record, copy)?;
            Ok(Some(record.body.len().saturating_add(FRAME_ROOM)))
        }
        None => Err(JournalFault::Failed),
    }
}

/// Appends a record that was read from another journal. Failed if no journal has it behind its first record.
fn append_again<K: Journal>(entry: &LogRecord<'_>, copy: &mut K) -> Result<(), JournalFault>
    ensures appended { OnOk result ((others : List Entry) (lasting : ℕ) → K.holds copy.old others lasting
        → K.holds copy.new (others ++ as_entry entry.now ∷ []) lasting) }
    ensures err { OnErr result ((others : List Entry) (lasting : ℕ) → K.holds copy.old others lasting
        → K.holds copy.new others lasting) }
{
    if !entry.is_fit() || entry.kind.is_first() {
        return Err(JournalFault::Failed);
    }
    copy.reserve(entry.body.len())?;
    copy.append(entry);
    Ok(())
}
