//! Reads frames from a disk one at a time, each into a buffer that grows to the longest of them.
ghost use Rattle.std.specs.Prelude.{◌≡◌, ◌+◌, ◌<◌, ◌≤◌, ℕ, List, length, drop, vec_capacity, vec_len, IsTrue, OnOk, IfOk, IfSome};
ghost use Rattle.std.specs.Option.{option_map};
ghost use Rattle.sqlite_disk.specs.Disk.{Only};
ghost use Rattle.oai_journal.specs.Blocks.{IsBlock};
ghost use Rattle.oai_journal.specs.Frames.{IsFrameHead};
ghost use Rattle.oai_journal.specs.Heads.{RecordHeadFields};
ghost use Rattle.oai_journal.specs.Recoveries.{Checks, FindsFrame, IsGateAt, IsHeadOf, IsHeadRead, IsLenAt};
ghost use Rattle.oai_journal.specs.declared.heads.TheConstants.{MAX_HEAD};

use crate::blocks::BlockReader;
use crate::frames::{FRAME_ROOM, FRONT_ROOM, FrameHead, body_in, frame_digest, frame_head};
use crate::journals::JournalFault;
use sqlite_disk::Disk;

/// Where a frame is looked for.
#[derive(Clone, Copy)]
pub(crate) struct FramePlace {
    /// Its position.
    pub(crate) at: usize,
    /// Whether it is that of the first record of a journal.
    pub(crate) first: bool,
    /// The digest of the frame before it; 0 if there is none.
    pub(crate) before: u64,
}

/// Reads the commit byte at that position; None if the file ends there.
pub(crate) fn read_gate<D: Disk + Drop>(
    reader: &mut BlockReader<D>,
    len: usize,
    at: usize,
    frame: &mut Vec<u8>,
) -> Result<Option<u8>, JournalFault>
    ensures found { IfOk result (λ gate. IsTrue (D.Disk.is_clean reader.new.disk) → IsBlock D.Disk.seen reader.old
        → len ≡ length (D.Disk.seen reader.old.disk)
        → IsGateAt (D.Disk.seen reader.old.disk) at gate) }
    ensures within { IfOk result (λ gate. IfSome gate (λ byte. at < len)) }
    ensures block { OnOk result (IsTrue (D.Disk.is_clean reader.new.disk) → IsBlock D.Disk.seen reader.old
        → IsBlock D.Disk.seen reader.new) }
    ensures seen { D.Disk.seen reader.new.disk ≡ D.Disk.seen reader.old.disk }
    ensures crash { (c : List ℕ) → D.Disk.may_leave reader.new.disk c → D.Disk.may_leave reader.old.disk c }
    ensures clean { IsTrue (D.Disk.is_clean reader.new.disk) → IsTrue (D.Disk.is_clean reader.old.disk) }
{
    if len <= at {
        return Ok(None);
    }
    reader.read(len, at, 1, frame)?;
    Ok(Some(frame[0]))
}

/// Reads the frame at that place; returns its digest, or None if there is none. Its bytes are then in `frame`. `out`
/// needs capacity for what precedes a record's bytes. Of a frame that is cut short, whose head is malformed or whose
/// length is too great, only the head is read. The head is parsed once.
pub(crate) fn read_frame<D: Disk + Drop>(
    reader: &mut BlockReader<D>,
    len: usize,
    place: FramePlace,
    frame: &mut Vec<u8>,
    out: &mut Vec<u8>,
) -> Result<Option<u64>, JournalFault>
    requires room { FRONT_ROOM ≤ vec_capacity out.old }
    ensures found { IfOk result (λ found. IsTrue (D.Disk.is_clean reader.new.disk) → IsBlock D.Disk.seen reader.old
        → len ≡ length (D.Disk.seen reader.old.disk)
        → FindsFrame place.first place.before (drop place.at (D.Disk.seen reader.old.disk)) frame.new.items found) }
    ensures within { IfOk result (λ found. IfSome found (λ digest. place.at + length frame.new.items ≤ len)) }
    ensures room { vec_capacity out.old ≤ vec_capacity out.new }
    ensures block { OnOk result (IsTrue (D.Disk.is_clean reader.new.disk) → IsBlock D.Disk.seen reader.old
        → IsBlock D.Disk.seen reader.new) }
    ensures seen { D.Disk.seen reader.new.disk ≡ D.Disk.seen reader.old.disk }
    ensures crash { (c : List ℕ) → D.Disk.may_leave reader.new.disk c → D.Disk.may_leave reader.old.disk c }
    ensures clean { IsTrue (D.Disk.is_clean reader.new.disk) → IsTrue (D.Disk.is_clean reader.old.disk) }
{
    match read_head(reader, len, place.at, frame, out)? {
        None => Ok(None),
        Some(head) => {
            reader.read(len, place.at, head.len, frame)?;
            Ok(check_frame(place.first, place.before, head, frame, out))
        }
    }
}

/// The head that begins at that position, or None if no frame begins there. Its text is then in `out`, and the frame is
/// within the file.
fn read_head<D: Disk + Drop>(
    reader: &mut BlockReader<D>,
    len: usize,
    at: usize,
    frame: &mut Vec<u8>,
    out: &mut Vec<u8>,
) -> Result<Option<FrameHead>, JournalFault>
    requires room { FRONT_ROOM ≤ vec_capacity out.old }
    ensures found { IfOk result (λ found. IsTrue (D.Disk.is_clean reader.new.disk) → IsBlock D.Disk.seen reader.old
        → len ≡ length (D.Disk.seen reader.old.disk)
        → IsLenAt (drop at (D.Disk.seen reader.old.disk)) (option_map (λ head. head.len) found)) }
    ensures head { IfOk result (λ found. IfSome found (λ head. IsHeadRead (D.Disk.is_clean reader.new.disk)
        D.Disk.seen reader.old len at head out.new)) }
    ensures room { vec_capacity out.old ≤ vec_capacity out.new }
    ensures block { OnOk result (IsTrue (D.Disk.is_clean reader.new.disk) → IsBlock D.Disk.seen reader.old
        → IsBlock D.Disk.seen reader.new) }
    ensures seen { D.Disk.seen reader.new.disk ≡ D.Disk.seen reader.old.disk }
    ensures crash { (c : List ℕ) → D.Disk.may_leave reader.new.disk c → D.Disk.may_leave reader.old.disk c }
    ensures clean { IsTrue (D.Disk.is_clean reader.new.disk) → IsTrue (D.Disk.is_clean reader.old.disk) }
{
    if len <= at {
        return Ok(None);
    }
    reader.read(len, at, FRAME_ROOM.min(len - at), frame)?;
    match frame_head(frame, out) {
        Some(head) if head.len <= len - at => Ok(Some(head)),
        _ => Ok(None),
    }
}

/// Whether the bytes are the frame of a record after the digest `before`, of the first one of a journal or of another,
/// with that head, whose text is in `out`; its digest.
fn check_frame(
    first: bool,
    before: u64,
    head: FrameHead,
    bytes: &[u8],
    out: &mut Vec<u8>,
) -> Option<u64>
    requires text { vec_len out.old ≤ MAX_HEAD }
    requires room { FRONT_ROOM ≤ vec_capacity out.old }
    ensures checked { (h : RecordHeadFields) → IsFrameHead h head.kind head.size out.old.items → IsHeadOf h bytes.now
        → Checks first before bytes.now result }
    ensures room { vec_capacity out.old ≤ vec_capacity out.new }
{
    if head.kind.is_first() != first {
        return None;
    }
    match body_in(head.size, bytes) {
        Some(body) => frame_digest(before, body, bytes, out),
        None => None,
    }
}

/// Syncs the file; returns its length in bytes.
pub(crate) fn open_len<D: Disk>(disk: &mut D) -> Result<usize, JournalFault>
    ensures len { IfOk result (λ len. IsTrue (D.Disk.is_clean disk.new) → len ≡ length (D.Disk.seen disk.old)) }
    ensures durable { OnOk result (Only (D.Disk.seen disk.new) (D.Disk.may_leave disk.new)) }
    ensures crash { (c : List ℕ) → D.Disk.may_leave disk.new c → D.Disk.may_leave disk.old c }
    ensures seen { D.Disk.seen disk.new ≡ D.Disk.seen disk.old }
{
    if !disk.may_be_used() {
        return Err(JournalFault::Failed);
    }
    let Ok(()) = disk.sync() else {
        return Err(JournalFault::Failed);
    };
    match disk.len() {
        Ok(len) => Ok(len),
        Err(_) => Err(JournalFault::Failed),
    }
}
