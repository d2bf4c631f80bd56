//! Reads what bytes are known to begin with, by the lengths alone: texts are not validated again. No function here
//! allocates.

ghost use Rattle.std.specs.Prelude.{◌≡◌, ◌++◌, true};
ghost use Rattle.oai_names.specs.Sets.{may_be_set_spec};
ghost use Rattle.oai_item.specs.Decoding.{first_field, first_list, first_record, first_text};
ghost use Rattle.oai_item.specs.Encoding.{encoded_field, encoded_list, encoded_record, encoded_text, is_text_field};
ghost use Rattle.oai_item.specs.SpellingParts.{IsFront, IsNamed, IsText, Stands, are_records, are_sets};
ghost use Rattle.oai_item.specs.Walks.{are_fields, is_record};

use crate::decodings::read_count;
use crate::walks::{FieldTexts, SpelledFields, SpelledRecord, SpelledRecords, SpelledSets};
use std::str::from_utf8_unchecked;

/// The text at the start of the bytes, and the remaining bytes.
pub(crate) fn first_text(bytes: &[u8]) -> (&str, &[u8])
    requires { Stands encoded_text IsText bytes.now }
    ensures { IsFront encoded_text IsText result.0.now bytes.now result.1.now }
{
    let (len, rest) = read_count(bytes).unwrap();
    let (text, after) = rest.split_at(len);
    // The bytes begin with a text, so these are UTF-8.
    (unsafe { from_utf8_unchecked(text) }, after)
}

/// The bytes after the first text.
fn after_text(bytes: &[u8]) -> &[u8]
    requires { Stands encoded_text IsText bytes.now }
    ensures { IsFront encoded_text IsText (first_text bytes.now).0 bytes.now result.now }
{
    let (_, after) = first_text(bytes);
    after
}

/// The field at the start of the bytes, and the remaining bytes.
pub(crate) fn first_field(bytes: &[u8]) -> (FieldTexts<'_>, &[u8])
    requires { Stands encoded_field (λ field. is_text_field field ≡ true) bytes.now }
    ensures { IsFront encoded_field (λ field. is_text_field field ≡ true)
        (record { name = result.0.name.now; text = result.0.text.now }) bytes.now result.1.now }
{
    let (name, rest) = first_text(bytes);
    let (text, rest) = first_text(rest);
    (FieldTexts { name, text }, rest)
}

/// The bytes after the first field.
fn after_field(bytes: &[u8]) -> &[u8]
    requires { Stands encoded_field (λ field. is_text_field field ≡ true) bytes.now }
    ensures { IsFront encoded_field (λ field. is_text_field field ≡ true) (first_field bytes.now).0
        bytes.now result.now }
{
    after_text(after_text(bytes))
}

/// The list of fields at the start of the bytes, and the remaining bytes.
fn first_fields(bytes: &[u8]) -> (SpelledFields<'_>, &[u8])
    requires { Stands (encoded_list encoded_field) (λ fields. are_fields fields ≡ true) bytes.now }
    ensures { IsFront (encoded_list encoded_field) (λ fields. are_fields fields ≡ true) result.0
        bytes.now result.1.now }
{
    let (count, start) = read_count(bytes).unwrap();
    let mut rest = start;
    for _ in 0..count {
        rest = after_field(rest);
    }
    (SpelledFields::new(count, start), rest)
}

/// The setSpec at the start of the bytes, and the remaining bytes.
pub(crate) fn first_set(bytes: &[u8]) -> (&str, &[u8])
    requires { Stands encoded_text (IsNamed may_be_set_spec) bytes.now }
    ensures { IsFront encoded_text (IsNamed may_be_set_spec) result.0.now bytes.now result.1.now }
{
    first_text(bytes)
}

/// The bytes after the first setSpec.
fn after_set(bytes: &[u8]) -> &[u8]
    requires { Stands encoded_text (IsNamed may_be_set_spec) bytes.now }
    ensures { IsFront encoded_text (IsNamed may_be_set_spec) (first_text bytes.now).0
        bytes.now result.now }
{
    after_text(bytes)
}

/// The list of sets at the start of the bytes, and the remaining bytes.
pub(crate) fn first_sets(bytes: &[u8]) -> (SpelledSets<'_>, &[u8])
    requires { Stands (encoded_list encoded_text) (λ sets. are_sets sets ≡ true) bytes.now }
    ensures { IsFront (encoded_list encoded_text) (λ sets. are_sets sets ≡ true) result.0
        bytes.now result.1.now }
{
    let (count, start) = read_count(bytes).unwrap();
    let mut rest = start;
    for _ in 0..count {
        rest = after_set(rest);
    }
    (SpelledSets::new(count, start), rest)
}

/// The list of sets at the start of the bytes. What is behind it is not looked for, so the sets are not passed over.
pub(crate) fn sets_alone(bytes: &[u8]) -> SpelledSets<'_>
    requires { Stands (encoded_list encoded_text) (λ sets. are_sets sets ≡ true) bytes.now }
    ensures { result ≡ (first_list first_text bytes.now).0 }
{
    let (count, start) = read_count(bytes).unwrap();
    SpelledSets::new(count, start)
}

/// The record at the start of the bytes, and the remaining bytes.
pub(crate) fn first_record(bytes: &[u8]) -> (SpelledRecord<'_>, &[u8])
    requires { Stands encoded_record (λ format. is_record format ≡ true) bytes.now }
    ensures { IsFront encoded_record (λ format. is_record format ≡ true)
        (result.0.prefix.now, result.0.fields) bytes.now result.1.now }
{
    let (prefix, rest) = first_text(bytes);
    let (fields, rest) = first_fields(rest);
    (SpelledRecord { prefix, fields }, rest)
}

/// The record at the start of the bytes. What is behind it is not looked for, so its fields are not passed over.
pub(crate) fn last_record(bytes: &[u8]) -> SpelledRecord<'_>
    requires { Stands encoded_record (λ format. is_record format ≡ true) bytes.now }
    ensures { IsFront encoded_record (λ format. is_record format ≡ true)
        (result.prefix.now, result.fields) bytes.now (first_record bytes.now).1 }
{
    let (prefix, rest) = first_text(bytes);
    SpelledRecord {
        prefix,
        fields: last_fields(rest),
    }
}

/// The list of fields at the start of the bytes.
fn last_fields(bytes: &[u8]) -> SpelledFields<'_>
    requires { Stands (encoded_list encoded_field) (λ fields. are_fields fields ≡ true) bytes.now }
    ensures { result ≡ (first_list first_field bytes.now).0 }
{
    let (count, start) = read_count(bytes).unwrap();
    SpelledFields::new(count, start)
}

/// The list of records at the start of the bytes.
pub(crate) fn first_records(bytes: &[u8]) -> SpelledRecords<'_>
    requires { Stands (encoded_list encoded_record) (λ formats. are_records formats ≡ true)
        bytes.now }
    ensures { result ≡ (first_list first_record bytes.now).0 }
{
    let (count, start) = read_count(bytes).unwrap();
    SpelledRecords::new(count, start)
}
