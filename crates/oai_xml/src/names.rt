ghost use Rattle.std.specs.Prelude.{◌≡◌, ◌+◌, ◌<◌, ◌≤◌, true, false, length, IfOk, MatchOption};
ghost use Rattle.std.specs.List.{list_all, prefix_len, position_or_len};
ghost use Rattle.std.specs.Str.{chars};
ghost use Rattle.oai_names.specs.Names.{is_colon};
ghost use Rattle.oai_xml.specs.Answers.{Gives};
ghost use Rattle.oai_xml.specs.Parts.{qname_in, is_target, name_in};
ghost use Rattle.oai_xml.specs.QNames as spec;
ghost use Rattle.oai_xml.specs.Ascii.{is_ascii_ncname, starts_name};

use crate::faults::{ParseFault, XmlCause};
use crate::literals::fault_at;

/// The QName that stands here, and what stands behind it (production [NS 7]).
#[tactic(auto, unfolding(crate::specs::Parts::name_in))]
pub(crate) fn qname(bytes: &[u8]) -> Result<(&[u8], &[u8]), ParseFault>
    ensures gives { Gives (λ r. (r.0.now, r.1.now)) (qname_in bytes.now) result }
    ensures shorter { IfOk result (λ r. length r.1.now < length bytes.now) }
{
    let (name, rest) = bytes.split_at(name_len(bytes));
    if !is_qname(name) {
        return Err(fault_at(bytes, XmlCause::Name));
    }
    Ok((name, rest))
}

/// Passes the target of a processing instruction (production [17]).
#[tactic(auto, unfolding(crate::specs::Parts::name_in))]
pub(crate) fn past_target(bytes: &[u8]) -> Result<(&[u8], &[u8]), ParseFault>
    ensures gives { Gives (λ r. (r.0.now, r.1.now)) (name_in is_target bytes.now) result }
    ensures shorter { IfOk result (λ r. length r.1.now < length bytes.now) }
{
    let (name, rest) = bytes.split_at(name_len(bytes));
    if !is_target(name) {
        return Err(fault_at(bytes, XmlCause::Name));
    }
    Ok((name, rest))
}

fn is_target(name: &[u8]) -> bool
    ensures { result ≡ is_target name.now }
{
    is_ncname(name) && !name.eq_ignore_ascii_case(b"xml")
}

/// How many bytes stand here that names may hold.
pub(crate) fn name_len(bytes: &[u8]) -> usize
    ensures len { result ≡ prefix_len spec.is_name_byte bytes.now }
    ensures within { result ≤ length bytes.now }
{
    for (i, b) in bytes.iter().enumerate() {
        if !is_name_byte(*b) {
            return i;
        }
    }
    bytes.len()
}

fn is_name_byte(b: u8) -> bool
    ensures { result ≡ spec.is_name_byte b }
{
    matches!(b, b'a'..=b'z' | b'A'..=b'Z' | b'0'..=b'9' | b'-' | b'.' | b'_' | b':' | 0x80..=0xff)
}

/// Whether these bytes, which names may hold, are a QName.
#[tactic(auto, unfolding(crate::specs::QNames::is_qname, crate::specs::QNames::prefix_of, crate::specs::QNames::local_of))]
fn is_qname(name: &[u8]) -> bool
    requires { list_all spec.is_name_byte name.now ≡ true }
    ensures { result ≡ spec.is_qname name.now }
{
    let at = colon(name);
    if at < name.len() {
        is_ncname(&name[..at]) && is_ncname(&name[at + 1..])
    } else {
        is_ncname(name)
    }
}

/// Where the first colon stands, or the length where there is none.
fn colon(name: &[u8]) -> usize
    ensures at { result ≡ position_or_len is_colon name.now }
    ensures within { result ≤ length name.now }
{
    for (i, b) in name.iter().enumerate() {
        if *b == b':' {
            return i;
        }
    }
    name.len()
}

/// Whether the name has a prefix.
pub(crate) fn is_prefixed(name: &[u8]) -> bool
    ensures { result ≡ spec.is_prefixed name.now }
{
    colon(name) < name.len()
}

/// What stands before its first colon.
#[tactic(auto, unfolding(crate::specs::QNames::prefix_of))]
pub(crate) fn prefix_of(name: &[u8]) -> &[u8]
    ensures { result.now ≡ spec.prefix_of name.now }
{
    let at = colon(name);
    if at < name.len() { &name[..at] } else { b"" }
}

/// What stands behind its first colon, or the whole name.
#[tactic(auto, unfolding(crate::specs::QNames::local_of))]
pub fn local_of(name: &[u8]) -> &[u8]
    ensures { result.now ≡ spec.local_of name.now }
{
    let at = colon(name);
    if at < name.len() {
        &name[at + 1..]
    } else {
        name
    }
}

/// Whether these bytes are a name without a colon (production [NS 4]).
fn is_ncname(name: &[u8]) -> bool
    ensures { result ≡ spec.is_ncname name.now }
{
    is_ascii_ncname(name) || is_any_ncname(name)
}

/// Whether the bytes are a name of ASCII without a colon, as most are: no character needs to be decoded.
fn is_ascii_ncname(name: &[u8]) -> bool
    ensures { result ≡ is_ascii_ncname name.now }
{
    match name {
        [first, rest @ ..] => is_ascii_start(*first) && are_ascii_further(rest),
        [] => false,
    }
}

fn are_ascii_further(bytes: &[u8]) -> bool
    ensures { result ≡ list_all spec.is_ascii_further bytes.now }
{
    bytes.iter().all(|b| is_ascii_further(*b))
}

fn is_ascii_start(b: u8) -> bool
    ensures { result ≡ spec.is_ascii_start b }
{
    matches!(b, b'a'..=b'z' | b'A'..=b'Z' | b'_')
}

fn is_ascii_further(b: u8) -> bool
    ensures { result ≡ spec.is_ascii_further b }
{
    matches!(b, b'a'..=b'z' | b'A'..=b'Z' | b'0'..=b'9' | b'-' | b'.' | b'_')
}

/// Whether the bytes are a name without a colon, by decoding each character.
#[tactic(auto, unfolding(crate::specs::QNames::is_ncname))]
fn is_any_ncname(name: &[u8]) -> bool
    ensures { result ≡ spec.is_ncname name.now }
{
    match std::str::from_utf8(name) {
        Ok(text) => are_name_chars(text),
        Err(_) => false,
    }
}

fn are_name_chars(text: &str) -> bool
    ensures { result ≡ spec.are_name_chars (chars text.now) }
{
    starts_name(text) && are_further_chars(text)
}

fn starts_name(text: &str) -> bool
    ensures { result ≡ starts_name (chars text.now) }
{
    match text.chars().next() {
        Some(c) => is_start_char(c),
        None => false,
    }
}

fn are_further_chars(text: &str) -> bool
    ensures { result ≡ list_all spec.is_further_char (chars text.now) }
{
    text.chars().all(is_further_char)
}

/// Production [4], without the colon.
fn is_start_char(c: char) -> bool
    ensures { result ≡ spec.is_start_char c }
{
    matches!(c, 'a'..='z' | 'A'..='Z' | '_'
        | '\u{C0}'..='\u{D6}' | '\u{D8}'..='\u{F6}' | '\u{F8}'..='\u{2FF}' | '\u{370}'..='\u{37D}'
        | '\u{37F}'..='\u{1FFF}' | '\u{200C}'..='\u{200D}' | '\u{2070}'..='\u{218F}' | '\u{2C00}'..='\u{2FEF}'
        | '\u{3001}'..='\u{D7FF}' | '\u{F900}'..='\u{FDCF}' | '\u{FDF0}'..='\u{FFFD}' | '\u{10000}'..='\u{EFFFF}')
}

/// Production [4a], without the colon.
fn is_further_char(c: char) -> bool
    ensures { result ≡ spec.is_further_char c }
{
    is_start_char(c)
        || matches!(c, '-' | '.' | '0'..='9' | '\u{B7}' | '\u{300}'..='\u{36F}' | '\u{203F}'..='\u{2040}')
}
