//! Items as bytes: writes the parts of an encoded item.

ghost use Rattle.std.specs.Prelude.{◌≡◌, ◌≤◌, true, length};
ghost use Rattle.std.specs.List.{list_all};
ghost use Rattle.std.specs.Str.{is_utf8};
ghost use Rattle.oai_item.specs.Encoding.{encoded_bool, encoded_count, encoded_field, encoded_list, encoded_record, encoded_stamp, encoded_text, encoded, is_text_field, is_text_item, is_text_record};
ghost use Rattle.oai_item.specs.SpellingParts.{Writes, item_with};

use crate::fields::Field;
use crate::held_records::HeldRecords;
use crate::memory_records::MemoryRecord;
use oai_names::SetSpec;

/// Writes the bytes at the start of `out`, and returns how many they are.
pub(crate) fn put_bytes(out: &mut [u8], bytes: &[u8]) -> usize
    requires { length bytes.now ≤ length out.old }
    ensures { Writes bytes.now out.old result out.new }
{
    out[..bytes.len()].copy_from_slice(bytes);
    bytes.len()
}

/// Writes the encoding of an item with these parts at the start of `out`. The datestamp is in seconds from 1970 on.
pub(crate) fn put_parts(
    out: &mut [u8],
    live: bool,
    stamp: i64,
    identifier: &str,
    sets: &[SetSpec],
    records: &HeldRecords,
) -> usize
    requires { length (encoded (item_with live stamp identifier.now sets.now records.now))
        ≤ length out.old }
    ensures written { Writes (encoded (item_with live stamp identifier.now sets.now records.now))
        out.old result out.new }
    ensures texts { is_text_item (item_with live stamp identifier.now sets.now records.now) ≡ true }
{
    let mut at = put_live(out, live);
    at += put_stamp(&mut out[at..], stamp);
    at += put_text(&mut out[at..], identifier);
    at += put_sets(&mut out[at..], sets);
    at += records.put(&mut out[at..]);
    at
}

/// Writes whether an item is live at the start of `out`, as 1 or 0.
fn put_live(out: &mut [u8], live: bool) -> usize
    requires { 1 ≤ length out.old }
    ensures { Writes (encoded_bool live) out.old result out.new }
{
    put_bytes(out, &[u8::from(live)])
}

/// Writes a datestamp at the start of `out`, in seconds from 1970 on.
#[tactic(auto, unfolding(crate::specs::Encoding::encoded_stamp))]
fn put_stamp(out: &mut [u8], stamp: i64) -> usize
    requires { 8 ≤ length out.old }
    ensures { Writes (encoded_stamp stamp) out.old result out.new }
{
    put_bytes(out, &stamp.to_be_bytes())
}

/// Writes a number at the start of `out`, its lower 32 bits.
#[tactic(auto, unfolding(crate::specs::Encoding::encoded_count))]
fn put_count(out: &mut [u8], count: usize) -> usize
    requires { 4 ≤ length out.old }
    ensures { Writes (encoded_count count) out.old result out.new }
{
    let [_, _, _, _, a, b, c, d] = count.to_be_bytes();
    put_bytes(out, &[a, b, c, d])
}

/// Writes a text at the start of `out`.
fn put_text(out: &mut [u8], text: &str) -> usize
    requires { length (encoded_text text.now) ≤ length out.old }
    ensures written { Writes (encoded_text text.now) out.old result out.new }
    ensures texts { is_utf8 text.now ≡ true }
{
    let at = put_count(out, text.len());
    at + put_bytes(&mut out[at..], text.as_bytes())
}

/// Writes a list of sets at the start of `out`.
fn put_sets(out: &mut [u8], sets: &[SetSpec]) -> usize
    requires { length (encoded_list encoded_text sets.now) ≤ length out.old }
    ensures written { Writes (encoded_list encoded_text sets.now) out.old result out.new }
    ensures texts { list_all is_utf8 sets.now ≡ true }
{
    let mut at = put_count(out, sets.len());
    for set in sets {
        at += put_text(&mut out[at..], set.as_str());
    }
    at
}

/// Writes a list of records at the start of `out`.
pub(crate) fn put_records<R: MemoryRecord>(out: &mut [u8], records: &[R]) -> usize
    requires { length (encoded_list (λ r. encoded_record (R.record_of r)) records.now) ≤ length out.old }
    ensures written { Writes (encoded_list (λ r. encoded_record (R.record_of r)) records.now)
        out.old result out.new }
    ensures texts { list_all (λ r. is_text_record (R.record_of r)) records.now ≡ true }
{
    let mut at = put_count(out, records.len());
    for format in records {
        at += put_record(&mut out[at..], format);
    }
    at
}

/// Writes a record at the start of `out`.
fn put_record<R: MemoryRecord>(out: &mut [u8], format: &R) -> usize
    requires { length (encoded_record (R.record_of format.now)) ≤ length out.old }
    ensures written { Writes (encoded_record (R.record_of format.now)) out.old result out.new }
    ensures texts { is_text_record (R.record_of format.now) ≡ true }
{
    let at = put_text(out, format.prefix());
    at + put_fields(&mut out[at..], format.fields())
}

/// Writes a list of fields at the start of `out`.
fn put_fields(out: &mut [u8], fields: &[Field]) -> usize
    requires { length (encoded_list encoded_field fields.now) ≤ length out.old }
    ensures written { Writes (encoded_list encoded_field fields.now) out.old result out.new }
    ensures texts { list_all is_text_field fields.now ≡ true }
{
    let mut at = put_count(out, fields.len());
    for field in fields {
        at += put_field(&mut out[at..], field);
    }
    at
}

/// Writes a field at the start of `out`.
fn put_field(out: &mut [u8], field: &Field) -> usize
    requires { length (encoded_field field.now) ≤ length out.old }
    ensures written { Writes (encoded_field field.now) out.old result out.new }
    ensures texts { is_text_field field.now ≡ true }
{
    let at = put_text(out, field.name.as_str());
    at + put_text(&mut out[at..], field.text.as_str())
}
