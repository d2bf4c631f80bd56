//! Items from bytes: reads the parts of an encoded item in place. No function here allocates.

ghost use Rattle.std.specs.Prelude.{◌≡◌, ◌↔◌, ◌<◌, ◌≤◌, length, false, nat_lt, true, IsTrue, MatchOption};
ghost use Rattle.std.specs.List.{list_all};
ghost use Rattle.std.specs.Str.{is_utf8};
ghost use Rattle.oai_names.specs.Names.{may_be_identifier, may_be_prefix};
ghost use Rattle.oai_names.specs.Sets.{may_be_set_spec};
ghost use Rattle.oai_item.specs.Encoding.{is_text_field, encoded_bool, encoded_count, encoded_field, encoded_list, encoded_record, encoded_stamp, encoded_text};
ghost use Rattle.oai_item.specs.Item.{IsStamp};
ghost use Rattle.oai_item.specs.Walks.{are_fields, is_record};
ghost use Rattle.oai_item.specs.declared.decodings.DecodeFault.TheVariants as fault;
ghost use Rattle.oai_item.specs.SpellingParts.{IsAny, IsCount, IsText, IsNamed, Reads, are_records, are_sets};

use crate::sizes::MAX_ITEM_BYTES;
use crate::walks::{FieldTexts, SpelledFields, SpelledRecord, SpelledRecords, SpelledSets};
use oai_names::{may_be_identifier, may_be_prefix, may_be_set_spec};
use oai_time::{FIRST_SECOND, LAST_SECOND};
use std::alloc::AllocError;
use std::str::{from_utf8, from_utf8_unchecked};
use thiserror::Error;

/// The least bytes of an encoded text: those of its length.
const TEXT_BYTES: usize = 4;

/// The least bytes of a field, and of an encoded record: those of two texts, or of a text and a count.
const PAIR_BYTES: usize = 8;

/// Why bytes were not decoded as an item.
#[derive(Clone, Copy, Debug, PartialEq, Eq, Error)]
pub enum DecodeFault {
    /// The bytes encode no item, or are more than 1,048,576.
    #[error("the bytes are not those of an item")]
    Damaged,
    /// Out of memory.
    #[error("out of memory")]
    NoMemory,
}

impl From<AllocError> for DecodeFault {
    ghost from_gives = { λ _ e. e ≡ fault.NoMemory };

    fn from(_refused: AllocError) -> DecodeFault {
        DecodeFault::NoMemory
    }
}

/// Reads whether an item is live, and returns the remaining bytes.
pub(crate) fn read_live(bytes: &[u8]) -> Option<(bool, &[u8])>
    ensures { Reads (λ a. (a.0, a.1.now)) encoded_bool IsAny bytes.now result }
{
    match bytes {
        [0, rest @ ..] => Some((false, rest)),
        [1, rest @ ..] => Some((true, rest)),
        _ => None,
    }
}

/// Reads a datestamp, in seconds from 1970 on, and returns the remaining bytes.
pub(crate) fn read_stamp(bytes: &[u8]) -> Option<(i64, &[u8])>
    ensures { Reads (λ a. (a.0, a.1.now)) encoded_stamp IsStamp bytes.now result }
{
    let [a, b, c, d, e, f, g, h, rest @ ..] = bytes else {
        return None;
    };
    let stamp = i64::from_be_bytes([*a, *b, *c, *d, *e, *f, *g, *h]);
    if !is_stamp(stamp) {
        return None;
    }
    Some((stamp, rest))
}

/// Whether the number of seconds lies in the years 0000 to 9999.
fn is_stamp(stamp: i64) -> bool
    ensures { IsTrue result ↔ IsStamp stamp }
{
    (FIRST_SECOND..=LAST_SECOND).contains(&stamp)
}

/// Reads a number, and returns the remaining bytes.
pub(crate) fn read_count(bytes: &[u8]) -> Option<(usize, &[u8])>
    ensures { Reads (λ a. (a.0, a.1.now)) encoded_count IsCount bytes.now result }
{
    let [a, b, c, d, rest @ ..] = bytes else {
        return None;
    };
    Some((u32::from_be_bytes([*a, *b, *c, *d]) as usize, rest))
}

/// Reads a text, and returns the remaining bytes.
pub(crate) fn read_text(bytes: &[u8]) -> Option<(&str, &[u8])>
    ensures { Reads (λ a. (a.0.now, a.1.now)) encoded_text IsText bytes.now result }
{
    let (len, rest) = read_count(bytes)?;
    if rest.len() < len {
        return None;
    }
    let (text, rest) = rest.split_at(len);
    let text = text_of(text)?;
    Some((text, rest))
}

/// The bytes as a text, if they are UTF-8. If all are ASCII, as in most texts, no character is decoded.
fn text_of(bytes: &[u8]) -> Option<&str>
    ensures { MatchOption result (is_utf8 bytes.now ≡ false)
        (λ text. (text.now ≡ bytes.now) × (is_utf8 bytes.now ≡ true)) }
{
    if are_ascii(bytes) {
        return Some(unsafe { from_utf8_unchecked(bytes) });
    }
    match from_utf8(bytes) {
        Ok(text) => Some(text),
        Err(_) => None,
    }
}

/// Whether each byte is ASCII, by the largest chunks that fit. A separate function returns the result, so that the test
/// of a chunk can be vectorized.
#[inline(never)]
fn are_ascii(bytes: &[u8]) -> bool
    ensures { result ≡ list_all (λ byte. nat_lt byte 128) bytes.now }
{
    if bytes.len() >= 32 {
        return are_ascii_by::<32>(bytes);
    }
    if bytes.len() >= 16 {
        return are_ascii_by::<16>(bytes);
    }
    if bytes.len() >= 8 {
        return are_ascii_by::<8>(bytes);
    }
    is_each_ascii(bytes)
}

/// Whether each byte is ASCII, of N bytes or more: first the whole chunks of N, then the last N bytes, some of them a
/// second time. So no byte is tested alone.
fn are_ascii_by<const N: usize>(bytes: &[u8]) -> bool
    requires fits { (0 < N) × (N ≤ 32) }
    requires long { N ≤ length bytes.now }
    ensures { result ≡ list_all (λ byte. nat_lt byte 128) bytes.now }
{
    let Some(last) = bytes.last_chunk::<N>() else {
        unreachable!()
    };
    let (chunks, _) = bytes.as_chunks::<N>();
    are_chunks_ascii(chunks) && is_each_ascii(last)
}

/// Whether each byte of each chunk is ASCII.
fn are_chunks_ascii<const N: usize>(chunks: &[[u8; N]]) -> bool
    ensures { result ≡ list_all (list_all (λ byte. nat_lt byte 128)) chunks.now }
{
    for chunk in chunks {
        if !is_each_ascii(chunk) {
            return false;
        }
    }
    true
}

/// Whether each byte is ASCII. The loop ends only at the last byte, so that it can be vectorized over a chunk of known
/// length.
fn is_each_ascii(bytes: &[u8]) -> bool
    ensures { result ≡ list_all (λ byte. nat_lt byte 128) bytes.now }
{
    let mut ascii = true;
    for byte in bytes {
        ascii = ascii & (*byte < 0x80);
    }
    ascii
}

/// Reads an identifier, and returns the remaining bytes.
pub(crate) fn read_identifier(bytes: &[u8]) -> Option<(&str, &[u8])>
    ensures { Reads (λ a. (a.0.now, a.1.now)) encoded_text (IsNamed may_be_identifier)
        bytes.now result }
{
    let (text, rest) = read_text(bytes)?;
    if !may_be_identifier(text) {
        return None;
    }
    Some((text, rest))
}

/// Reads a setSpec, and returns the remaining bytes.
fn read_set(bytes: &[u8]) -> Option<(&str, &[u8])>
    ensures { Reads (λ a. (a.0.now, a.1.now)) encoded_text (IsNamed may_be_set_spec)
        bytes.now result }
{
    let (text, rest) = read_text(bytes)?;
    if !may_be_set_spec(text) {
        return None;
    }
    Some((text, rest))
}

/// Reads a prefix, and returns the remaining bytes.
fn read_prefix(bytes: &[u8]) -> Option<(&str, &[u8])>
    ensures { Reads (λ a. (a.0.now, a.1.now)) encoded_text (IsNamed may_be_prefix)
        bytes.now result }
{
    let (text, rest) = read_text(bytes)?;
    if !may_be_prefix(text) {
        return None;
    }
    Some((text, rest))
}

/// Reads a field, and returns the remaining bytes.
fn read_field(bytes: &[u8]) -> Option<(FieldTexts<'_>, &[u8])>
    ensures { Reads (λ a. (record { name = a.0.name.now; text = a.0.text.now }, a.1.now))
        encoded_field (λ field. is_text_field field ≡ true) bytes.now result }
{
    let (name, rest) = read_text(bytes)?;
    let (text, rest) = read_text(rest)?;
    Some((FieldTexts { name, text }, rest))
}

/// Reads an encoded record, and returns the remaining bytes.
fn read_record(bytes: &[u8]) -> Option<(SpelledRecord<'_>, &[u8])>
    requires { length bytes.now ≤ MAX_ITEM_BYTES }
    ensures { Reads (λ a. ((a.0.prefix.now, a.0.fields), a.1.now))
        encoded_record (λ format. is_record format ≡ true) bytes.now result }
{
    let (prefix, rest) = read_prefix(bytes)?;
    let (fields, rest) = read_fields(rest)?;
    Some((SpelledRecord { prefix, fields }, rest))
}

/// Reads a list of sets, and returns the remaining bytes.
pub(crate) fn read_sets(bytes: &[u8]) -> Option<(SpelledSets<'_>, &[u8])>
    requires { length bytes.now ≤ MAX_ITEM_BYTES }
    ensures { Reads (λ a. (a.0, a.1.now)) (encoded_list encoded_text) (λ sets. are_sets sets ≡ true)
        bytes.now result }
{
    let (count, start) = read_count(bytes)?;
    if start.len() / TEXT_BYTES < count {
        return None;
    }
    let mut rest = start;
    for _ in 0..count {
        let (_, after) = read_set(rest)?;
        rest = after;
    }
    Some((SpelledSets::new(count, start), rest))
}

/// Reads a list of fields, and returns the remaining bytes.
fn read_fields(bytes: &[u8]) -> Option<(SpelledFields<'_>, &[u8])>
    requires { length bytes.now ≤ MAX_ITEM_BYTES }
    ensures { Reads (λ a. (a.0, a.1.now)) (encoded_list encoded_field) (λ fields. are_fields fields ≡ true)
        bytes.now result }
{
    let (count, start) = read_count(bytes)?;
    if start.len() / PAIR_BYTES < count {
        return None;
    }
    let mut rest = start;
    for _ in 0..count {
        let (_, after) = read_field(rest)?;
        rest = after;
    }
    Some((SpelledFields::new(count, start), rest))
}

/// Reads a list of records, and returns the remaining bytes.
pub(crate) fn read_records(bytes: &[u8]) -> Option<(SpelledRecords<'_>, &[u8])>
    requires { length bytes.now ≤ MAX_ITEM_BYTES }
    ensures { Reads (λ a. (a.0, a.1.now)) (encoded_list encoded_record) (λ records. are_records records ≡ true)
        bytes.now result }
{
    let (count, start) = read_count(bytes)?;
    if start.len() / PAIR_BYTES < count {
        return None;
    }
    let mut rest = start;
    for _ in 0..count {
        let (_, after) = read_record(rest)?;
        rest = after;
    }
    Some((SpelledRecords::new(count, start), rest))
}
