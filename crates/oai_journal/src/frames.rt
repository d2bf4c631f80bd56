//! Frames: a head with a digest, a line end, the bytes of a log record, and a line end. `groups` and `readings` handle
//! the commit byte before a frame.
ghost use Rattle.std.specs.Prelude.{◌≡◌, ◌≢◌, ◌↔◌, ◌<◌, ◌≤◌, ◌+◌, ◌++◌, length, List, ℕ, drop, take, vec_len, vec_capacity, IsTrue, IfSome, MatchOption, Some};
ghost use Rattle.std.specs.Option.{option_copied, option_map};
ghost use Rattle.sqlite_disk.specs.Digest.{digest};
ghost use Rattle.oai_journal.specs.Frames as spec;
ghost use Rattle.oai_journal.specs.Heads.{RecordHeadFields, fields_of_head, head_front, head_in};
ghost use Rattle.oai_journal.specs.Records.{Entry, IsFit, as_entry, is_fit};
ghost use Rattle.oai_journal.specs.declared.records.TheConstants.{MAX_FIRST_BODY};

use crate::heads::{MAX_HEAD, RecordHead, parse_head, put, write_head};
use crate::records::{Kind, LogRecord, is_within};
use std::hash::{DefaultHasher, Hasher};

/// The length of a digest as text, in bytes.
const DIGEST_LEN: usize = 16;

/// A capacity that is enough for a frame and its commit byte without the record's bytes: a head, a digest, two line
/// ends and a commit byte.
pub(crate) const FRAME_ROOM: usize = 102;

/// A capacity that is enough for what precedes the record's bytes.
pub(crate) const FRONT_ROOM: usize = 100;

/// What the head of a frame has of it.
#[derive(Clone, Copy)]
pub(crate) struct FrameHead {
    /// The kind of its record.
    pub(crate) kind: Kind,
    /// The length of the record's bytes.
    pub(crate) size: usize,
    /// The length of the frame.
    pub(crate) len: usize,
}

/// Writes a frame into reserved space; returns its digest.
#[tactic(auto, unfolding(crate::specs::Frames::frame, crate::specs::Heads::plain))]
pub(crate) fn write_frame(before: u64, entry: &LogRecord<'_>, out: &mut Vec<u8>) -> u64
    requires fit { IsTrue (is_fit (as_entry entry.now)) }
    requires room { vec_len out.old + length entry.now.body.now + FRAME_ROOM ≤ vec_capacity out.old }
    ensures items { out.new.items ≡ out.old.items ++ spec.frame before (as_entry entry.now) }
    ensures digest { result ≡ spec.next_digest before (as_entry entry.now) }
    ensures len { vec_len out.new + 1 ≤ vec_len out.old + length entry.now.body.now + FRAME_ROOM }
    ensures room { vec_capacity out.old ≤ vec_capacity out.new }
{
    let digest = write_front(before, entry, out);
    put(entry.body, out);
    put(b"\n", out);
    digest
}

/// The head of a record.
fn head_of<'a>(entry: &LogRecord<'a>) -> RecordHead<'a>
    ensures { fields_of_head result ≡ spec.head_of (as_entry entry.now) }
{
    RecordHead {
        moment: entry.moment,
        kind: entry.kind,
        name: entry.name,
        size: entry.body.len(),
    }
}

/// The digest of a frame, over the digest before it, its head and its bytes.
fn digest_of(before: u64, head: &[u8], body: &[u8]) -> u64
    ensures { result ≡ digest before (head.now ++ body.now) }
{
    let mut hasher = DefaultHasher::new();
    hasher.write(&before.to_le_bytes());
    hasher.write(head);
    hasher.write(body);
    1.max(hasher.finish())
}

/// A digest as 16 hexadecimal digits.
#[tactic(auto, unfolding(crate::specs::Frames::digest_text))]
fn digest_text(digest: u64) -> [u8; DIGEST_LEN]
    ensures { result ≡ spec.digest_text digest }
{
    let mut text = [0; DIGEST_LEN];
    hex::encode_to_slice(digest.to_be_bytes(), &mut text).unwrap();
    text
}

/// The head with which these bytes begin. Its text is then in `out`, which is cleared, and needs capacity for a head.
/// None if no frame begins so.
#[tactic(auto, unfolding(crate::specs::Frames::len_in), using(crate::proofs::FitLemmas::within_parts))]
pub(crate) fn frame_head(bytes: &[u8], out: &mut Vec<u8>) -> Option<FrameHead>
    requires room { MAX_HEAD ≤ vec_capacity out.old }
    ensures len { option_map (λ head. head.len) result ≡ spec.len_in bytes.now }
    ensures head { IfSome result (λ head. (h : RecordHeadFields) × (head_in bytes.now ≡ Some h)
        × spec.IsFrameHead h head.kind head.size out.new.items) }
    ensures some { IfSome result (λ head. 0 < head.len) }
    ensures text { IfSome result (λ head. vec_len out.new ≤ MAX_HEAD) }
    ensures room { vec_capacity out.old ≤ vec_capacity out.new }
{
    let head = parse_head(bytes)?;
    if !is_within(head.kind, head.name, head.size) {
        return None;
    }
    out.clear();
    write_head(&head, out);
    Some(FrameHead {
        kind: head.kind,
        size: head.size,
        len: out.len() + DIGEST_LEN + head.size + 2,
    })
}

/// The log record in the bytes of a frame; whether the bytes encode it is not tested.
#[tactic(auto, unfolding(crate::specs::Frames::entry_in))]
pub(crate) fn record_in(bytes: &[u8]) -> Option<LogRecord<'_>>
    ensures { option_map as_entry result ≡ spec.entry_in bytes.now }
{
    let head = parse_head(bytes)?;
    let body = body_in(head.size, bytes)?;
    Some(LogRecord {
        moment: head.moment,
        kind: head.kind,
        name: head.name,
        body,
    })
}

/// That many bytes before the last one.
#[tactic(auto, unfolding(crate::specs::Frames::body_in))]
pub(crate) fn body_in(size: usize, bytes: &[u8]) -> Option<&[u8]>
    ensures { option_copied result ≡ spec.body_in size bytes.now }
{
    if size < bytes.len() {
        Some(&bytes[bytes.len() - size - 1..bytes.len() - 1])
    } else {
        None
    }
}

/// Whether the bytes are a frame after the digest `before`: the head whose text is in `out`, its digest, a line end,
/// the bytes of a record, which are those before the last one, and a line end. Returns the digest of that frame; `out`
/// needs capacity for what precedes the record's bytes.
pub(crate) fn frame_digest(before: u64, body: &[u8], bytes: &[u8], out: &mut Vec<u8>) -> Option<u64>
    requires read { spec.body_in (length body.now) bytes.now ≡ Some body.now }
    requires room { vec_len out.old + DIGEST_LEN + 1 ≤ vec_capacity out.old }
    ensures spelled { MatchOption result (bytes.now ≢ spec.framed before out.old.items body.now)
        (λ d. (bytes.now ≡ spec.framed before out.old.items body.now)
        × (d ≡ digest before (out.old.items ++ body.now))) }
    ensures room { vec_capacity out.old ≤ vec_capacity out.new }
{
    let digest = write_digest(before, 0, body, out);
    if is_framed(bytes, out, body) {
        Some(digest)
    } else {
        None
    }
}

/// Writes what precedes the bytes of a record; returns the digest of the frame.
fn write_front(before: u64, entry: &LogRecord<'_>, out: &mut Vec<u8>) -> u64
    requires fit { IsTrue (is_fit (as_entry entry.now)) }
    requires room { vec_len out.old + FRONT_ROOM ≤ vec_capacity out.old }
    ensures items { out.new.items ≡ out.old.items ++ spec.frame_front before (as_entry entry.now) }
    ensures digest { result ≡ spec.next_digest before (as_entry entry.now) }
    ensures len { vec_len out.new ≤ vec_len out.old + FRONT_ROOM }
    ensures room { vec_capacity out.old ≤ vec_capacity out.new }
{
    let start = out.len();
    write_head(&head_of(entry), out);
    write_digest(before, start, entry.body, out)
}

/// Writes the digest of a frame, and a line end, behind its head, which begins at that position; returns the digest.
fn write_digest(before: u64, start: usize, body: &[u8], out: &mut Vec<u8>) -> u64
    requires within { start ≤ length out.old.items }
    requires room { vec_len out.old + DIGEST_LEN + 1 ≤ vec_capacity out.old }
    ensures items { out.new.items ≡ out.old.items
        ++ spec.digest_text (digest before (drop start out.old.items ++ body.now)) ++ spec.plain_line_end }
    ensures returned { result ≡ digest before (drop start out.old.items ++ body.now) }
    ensures len { vec_len out.new ≡ vec_len out.old + DIGEST_LEN + 1 }
    ensures room { vec_capacity out.old ≤ vec_capacity out.new }
{
    let digest = digest_of(before, behind(start, out), body);
    put(&digest_text(digest), out);
    put(b"\n", out);
    digest
}

/// The bytes from a position on.
fn behind(at: usize, bytes: &[u8]) -> &[u8]
    requires { at ≤ length bytes.now }
    ensures { result.now ≡ drop at bytes.now }
{
    &bytes[at..]
}

/// Whether the bytes are `front`, the body, and a line end. The body is what they have before their last byte, and is
/// not compared.
fn is_framed(bytes: &[u8], front: &[u8], body: &[u8]) -> bool
    requires { spec.body_in (length body.now) bytes.now ≡ Some body.now }
    ensures { IsTrue result ↔ (bytes.now ≡ front.now ++ (body.now ++ spec.plain_line_end)) }
{
    match bytes.strip_prefix(front) {
        Some(rest) => match rest.strip_suffix(b"\n") {
            Some(middle) => middle.len() == body.len(),
            None => false,
        },
        None => false,
    }
}
