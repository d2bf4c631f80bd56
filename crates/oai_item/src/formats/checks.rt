ghost use Rattle.std.specs.Prelude.{◌≡◌, true, IfOk, OnOk};
ghost use Rattle.std.specs.List.{list_all, list_any};
ghost use Rattle.oai_names.specs.Names.{may_be_prefix};
ghost use Rattle.oai_item.specs.Declaring.{IsCheck, has_room};
ghost use Rattle.oai_item.specs.Rules.{are_names, are_uris, has_repeat, is_element_name, is_element_name_byte, is_first_byte, is_name, is_space, is_uri};

use super::{Format, FormatFault, format_named};
use crate::short_texts::is_short_text;
use oai_names::Text;
use std::alloc::{AllocError, Global};
use std::collections::BTreeSet;

/// The maximum number of formats of a repository, including oai_dc.
const MAX_FORMATS: usize = 64;

/// The maximum number of fields of a format.
const MAX_FIELDS: usize = 256;

/// The maximum length of an element's name in bytes.
const MAX_NAME_BYTES: usize = 64;

/// Whether the format may be added to these; the error is the first cause against it.
#[tactic(auto, unfolding(crate::specs::Declaring::declare_fault))]
pub(super) fn check(alloc: Global, formats: &[Format], format: &Format) -> Result<(), FormatFault>
    ensures checked { IsCheck formats.now format.now result }
    ensures prefix { OnOk result (may_be_prefix format.now.prefix ≡ true) }
{
    if format_named(format.prefix.as_str(), formats).is_some() {
        return Err(FormatFault::Duplicate);
    }
    if !are_names(format) {
        return Err(FormatFault::BadName);
    }
    if !are_uris(format) {
        return Err(FormatFault::BadUri);
    }
    match has_repeat(alloc, format.fields.as_slice()) {
        Ok(true) => return Err(FormatFault::FieldTwice),
        Ok(false) => {}
        Err(_) => return Err(FormatFault::NoMemory),
    }
    if !has_room(formats, format) {
        return Err(FormatFault::TooMany);
    }
    Ok(())
}

/// Whether the root and each field are named like elements.
fn are_names(format: &Format) -> bool
    ensures { result ≡ are_names format.now }
{
    is_name(format.root.as_str()) && all_names(format.fields.as_slice())
}

fn all_names(names: &[Text]) -> bool
    ensures { result ≡ list_all is_name names.now }
{
    names.iter().all(|name| is_name(name.as_str()))
}

/// Whether the text is an element's name of at most 64 bytes.
fn is_name(text: &str) -> bool
    ensures { result ≡ is_name text.now }
{
    is_element_name(text) && text.len() <= MAX_NAME_BYTES
}

/// Whether the text is an element's name, of any length: an ASCII letter or `_`, followed by letters, digits, `-`, `_`
/// and `.` (XML 1.0, section 2.3).
#[tactic(auto, unfolding(crate::specs::Rules::is_element_name))]
fn is_element_name(text: &str) -> bool
    ensures { result ≡ is_element_name text.now }
{
    match text.as_bytes() {
        [first, rest @ ..] => is_first_byte(*first) && all_name_bytes(rest),
        [] => false,
    }
}

fn is_first_byte(b: u8) -> bool
    ensures { result ≡ is_first_byte b }
{
    b.is_ascii_alphabetic() || b == b'_'
}

fn all_name_bytes(bytes: &[u8]) -> bool
    ensures { result ≡ list_all is_element_name_byte bytes.now }
{
    bytes.iter().all(|b| is_name_byte(*b))
}

fn is_name_byte(b: u8) -> bool
    ensures { result ≡ is_element_name_byte b }
{
    b.is_ascii_alphanumeric() || b"-_.".contains(&b)
}

/// Whether the schema and the namespace may be used as URIs.
fn are_uris(format: &Format) -> bool
    ensures { result ≡ are_uris format.now }
{
    is_uri(format.schema.as_str()) && is_uri(format.namespace.as_str())
}

/// Whether the text may be used as a URI in a document: 1 to 512 bytes, of characters that a document may hold, without
/// space, tab, LF and CR.
#[tactic(auto, unfolding(crate::specs::Rules::is_uri))]
fn is_uri(text: &str) -> bool
    ensures { result ≡ is_uri text.now }
{
    is_short_text(text) && !has_space(text)
}

fn has_space(text: &str) -> bool
    ensures { result ≡ list_any is_space text.now }
{
    text.as_bytes().iter().any(|b| is_space(*b))
}

fn is_space(b: u8) -> bool
    ensures { result ≡ is_space b }
{
    matches!(b, b' ' | b'\t' | b'\r' | b'\n')
}

/// Whether a text occurs twice. The error is out of memory.
fn has_repeat(alloc: Global, texts: &[Text]) -> Result<bool, AllocError>
    ensures { IfOk result (λ repeat. repeat ≡ has_repeat texts.now) }
{
    let mut seen = BTreeSet::new(alloc);
    for text in texts {
        if !seen.insert(text.as_str())? {
            return Ok(true);
        }
    }
    Ok(false)
}

/// Whether one more format fits beside these, with at most 256 fields.
fn has_room(formats: &[Format], format: &Format) -> bool
    ensures { result ≡ has_room formats.now format.now }
{
    formats.len() < MAX_FORMATS && format.fields.as_slice().len() <= MAX_FIELDS
}
