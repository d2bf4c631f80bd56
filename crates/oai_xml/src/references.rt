ghost use Rattle.std.specs.Prelude.{◌≡◌, ◌+◌, ◌*◌, ◌<◌, ◌≤◌, ◌&&◌, nat_lt, nat_le, true, false, length, IfOk, MatchOption};
ghost use Rattle.std.specs.Char.{digit_value, encode_utf8};
ghost use Rattle.oai_names.specs.Characters.{is_xml_char};
ghost use Rattle.oai_xml.specs.Answers.{Gives};
ghost use Rattle.oai_xml.specs.Parts as spec;

use crate::faults::{ParseFault, XmlCause};
use crate::literals::{behind, fault_at};

/// The greatest number of a character.
const LAST_CHAR: u32 = 0x10FFFF;

/// The character that a reference stands for, behind its `&`, and what stands behind the reference (production [67]).
#[tactic(auto, unfolding(crate::specs::Parts::reference_in, crate::specs::Parts::char_ref_in))]
pub(crate) fn reference(bytes: &[u8]) -> Result<(char, &[u8]), ParseFault>
    ensures gives { Gives (λ r. (encode_utf8 r.0, r.1.now)) (spec.reference_in bytes.now) result }
    ensures shorter { IfOk result (λ r. length r.1.now < length bytes.now) }
{
    match behind(b"#", bytes) {
        Some(rest) => number(rest),
        None => entity(bytes),
    }
}

/// The character of a number (production [66]).
#[tactic(auto, unfolding(crate::specs::Parts::char_ref_in))]
fn number(bytes: &[u8]) -> Result<(char, &[u8]), ParseFault>
    ensures gives { Gives (λ r. (encode_utf8 r.0, r.1.now)) (spec.char_ref_in bytes.now) result }
    ensures shorter { IfOk result (λ r. length r.1.now < length bytes.now) }
{
    match behind(b"x", bytes) {
        Some(rest) => digits(16, rest),
        None => digits(10, bytes),
    }
}

/// Digits, and the `;` behind them.
#[tactic(auto, unfolding(crate::specs::Parts::digits_in))]
fn digits(base: u32, bytes: &[u8]) -> Result<(char, &[u8]), ParseFault>
    requires { base ≤ 16 }
    ensures gives { Gives (λ r. (encode_utf8 r.0, r.1.now)) (spec.digits_in base 0 bytes.now) result }
    ensures shorter { IfOk result (λ r. length r.1.now < length bytes.now) }
{
    let mut value = 0;
    let mut rest = bytes;
    while let Some((b, tail)) = rest.split_first() {
        if *b == b';' {
            return match legal_char(value) {
                Some(c) => Ok((c, tail)),
                None => Err(fault_at(rest, XmlCause::Reference)),
            };
        }
        match with_digit(base, value, *b) {
            Some(next) => value = next,
            None => return Err(fault_at(rest, XmlCause::Reference)),
        }
        rest = tail;
    }
    Err(ParseFault {
        left: 0,
        cause: XmlCause::Ends,
    })
}

/// The number with one digit more, if the byte is a digit, and no character has a greater number.
fn with_digit(base: u32, value: u32, b: u8) -> Option<u32>
    requires base { base ≤ 16 }
    requires value { value ≤ LAST_CHAR }
    ensures { MatchOption result ((nat_lt (digit_value b) base && nat_le (value * base + digit_value b) 0x10FFFF) ≡ false)
        (λ next. (next ≡ value * base + digit_value b) × (next ≤ LAST_CHAR)
        × ((nat_lt (digit_value b) base && nat_le (value * base + digit_value b) 0x10FFFF) ≡ true)) }
{
    let digit = digit_of(b);
    if digit >= base {
        return None;
    }
    let next = value * base + digit;
    if next > LAST_CHAR {
        return None;
    }
    Some(next)
}

/// What the byte is worth as a digit: 36 where it is none.
fn digit_of(b: u8) -> u32
    ensures value { result ≡ digit_value b }
    ensures small { result ≤ 36 }
{
    match b {
        b'0'..=b'9' => u32::from(b - b'0'),
        b'A'..=b'Z' => u32::from(b - b'A') + 10,
        b'a'..=b'z' => u32::from(b - b'a') + 10,
        _ => 36,
    }
}

/// The character of that number, if XML allows it.
fn legal_char(value: u32) -> Option<char>
    ensures { MatchOption result (is_xml_char value ≡ false) (λ c. (c ≡ value) × (is_xml_char value ≡ true)) }
{
    let is_legal =
        matches!(value, 0x9 | 0xA | 0xD | 0x20..=0xD7FF | 0xE000..=0xFFFD | 0x10000..=0x10FFFF);
    if is_legal {
        char::from_u32(value)
    } else {
        None
    }
}

/// One of the five entities that need no declaration (production [68], section 4.6).
#[tactic(auto, unfolding(crate::specs::Parts::entity_in))]
fn entity(bytes: &[u8]) -> Result<(char, &[u8]), ParseFault>
    ensures gives { Gives (λ r. (encode_utf8 r.0, r.1.now)) (spec.entity_in bytes.now) result }
    ensures shorter { IfOk result (λ r. length r.1.now < length bytes.now) }
{
    if let Some(rest) = behind(b"lt;", bytes) {
        return Ok(('<', rest));
    }
    if let Some(rest) = behind(b"gt;", bytes) {
        return Ok(('>', rest));
    }
    if let Some(rest) = behind(b"amp;", bytes) {
        return Ok(('&', rest));
    }
    if let Some(rest) = behind(b"apos;", bytes) {
        return Ok(('\'', rest));
    }
    if let Some(rest) = behind(b"quot;", bytes) {
        return Ok(('"', rest));
    }
    Err(fault_at(bytes, XmlCause::Reference))
}
