ghost use Rattle.std.specs.Prelude.{◌≡◌, ◌==◌, ◌||◌, ◌++◌, ◌<◌, ◌≤◌, ℕ, List, [], ◌∷◌, true, false, length, take, drop, IfOk, OnOk};
ghost use Rattle.std.specs.List.{list_all, prefix_len};
ghost use Rattle.std.specs.Char.{encode_utf8};
ghost use Rattle.oai_xml.specs.Answers.{Leaves, LeavesIn, LeavesPiece, is_bare_value_byte, is_closed, formed};
ghost use Rattle.oai_names.specs.Escapes.{attribute_spelling};
ghost use Rattle.oai_xml.specs.Parts.{reference_in};
ghost use Rattle.oai_xml.specs.Tags as spec;

use crate::faults::{ParseFault, ParseStop, XmlCause};
use crate::literals::fault_at;
use crate::references::reference;
use crate::spaces::is_space;
use oai_names::escape_attr;
use std::alloc::AllocError;

/// How a value is appended: as it is, or as it is spelled in a start tag.
#[derive(Clone, Copy, PartialEq, Eq)]
pub(crate) enum Form {
    Plain,
    Spelled,
}

/// Appends a value, from its first quote on (production [10]), and answers what stands behind it.
#[tactic(auto, unfolding(crate::specs::Tags::quoted_in))]
pub(crate) fn quoted<'a>(
    form: Form,
    bytes: &'a [u8],
    out: &mut Vec<u8>,
) -> Result<&'a [u8], ParseStop>
    ensures leaves { Leaves (λ rest value. (rest.now ≡ value.1) × (out.new.items ≡ out.old.items ++ formed form value.0)) (spec.quoted_in bytes.now) result }
    ensures shorter { IfOk result (λ rest. length rest.now < length bytes.now) }
{
    match bytes.split_first() {
        Some((quote, rest)) if *quote == b'"' || *quote == b'\'' => value(form, *quote, rest, out),
        _ => Err(ParseStop::At(fault_at(bytes, XmlCause::Syntax))),
    }
}

/// Appends what is left of a value that is closed by that quote.
fn value<'a>(
    form: Form,
    quote: u8,
    bytes: &'a [u8],
    out: &mut Vec<u8>,
) -> Result<&'a [u8], ParseStop>
    requires { (quote == 34 || quote == 39) ≡ true }
    ensures leaves { LeavesIn (λ rest value. (rest.now ≡ value.1) × (out.new.items ≡ out.old.items ++ formed form value.0)) (λ steps. spec.value_in steps quote bytes.now) bytes.now result }
    ensures shorter { IfOk result (λ rest. length rest.now ≤ length bytes.now) }
{
    let mut rest = bytes;
    while let Some((b, tail)) = rest.split_first() {
        if *b == quote {
            return Ok(tail);
        }
        match value_piece(form, quote, rest, out) {
            Ok(behind) => rest = behind,
            Err(stop) => return Err(stop),
        }
    }
    Err(ParseStop::At(ParseFault {
        left: 0,
        cause: XmlCause::Ends,
    }))
}

/// Appends bytes of a value that stand for themselves, or one that does not, or a reference.
fn value_piece<'a>(
    form: Form,
    quote: u8,
    bytes: &'a [u8],
    out: &mut Vec<u8>,
) -> Result<&'a [u8], ParseStop>
    requires quote { (quote == 34 || quote == 39) ≡ true }
    requires apart { is_closed quote bytes.now ≡ false }
    ensures leaves { LeavesPiece (λ a b. a ++ b) (λ steps bytes. spec.value_in steps quote bytes) (λ rest. rest.now)
        (λ rest piece. out.new.items ≡ out.old.items ++ formed form piece) bytes.now result }
    ensures shorter { IfOk result (λ rest. length rest.now < length bytes.now) }
{
    let (run, rest) = bytes.split_at(bare_len(bytes));
    if !run.is_empty() {
        out.extend_from_slice(run)?;
        return Ok(rest);
    }
    let Some((b, tail)) = bytes.split_first() else {
        return Err(ParseStop::At(ParseFault {
            left: 0,
            cause: XmlCause::Ends,
        }));
    };
    if *b == b'<' {
        return Err(ParseStop::At(fault_at(bytes, XmlCause::Value)));
    }
    if *b == b'&' {
        return character(form, tail, out);
    }
    push_byte(form, *b, out)?;
    Ok(tail)
}

/// How many bytes at the front stand for themselves, however the value is written.
fn bare_len(bytes: &[u8]) -> usize
    ensures len { result ≡ prefix_len is_bare_value_byte bytes.now }
    ensures within { result ≤ length bytes.now }
{
    for (i, b) in bytes.iter().enumerate() {
        if !is_bare_value_byte(*b) {
            return i;
        }
    }
    bytes.len()
}

fn is_bare_value_byte(b: u8) -> bool
    ensures { result ≡ is_bare_value_byte b }
{
    !matches!(b, b'"' | b'\'' | b'&' | b'<' | b'>' | b'\t' | b'\n' | b'\r')
}

/// Appends the character that a reference stands for, behind its `&`.
fn character<'a>(form: Form, bytes: &'a [u8], out: &mut Vec<u8>) -> Result<&'a [u8], ParseStop>
    ensures leaves { Leaves (λ rest c. (rest.now ≡ c.1) × (out.new.items ≡ out.old.items ++ formed form c.0)) (reference_in bytes.now) result }
    ensures shorter { IfOk result (λ rest. length rest.now < length bytes.now) }
{
    match reference(bytes) {
        Ok((c, rest)) => {
            push_char(form, c, out)?;
            Ok(rest)
        }
        Err(fault) => Err(ParseStop::At(fault)),
    }
}

/// Appends a character of a value.
fn push_char(form: Form, c: char, out: &mut Vec<u8>) -> Result<(), AllocError>
    ensures { OnOk result (out.new.items ≡ out.old.items ++ formed form (encode_utf8 c)) }
{
    let mut buffer = [0; 4];
    let text = c.encode_utf8(&mut buffer);
    match form {
        Form::Plain => out.extend_from_slice(text.as_bytes()),
        Form::Spelled => escape_attr(text, out),
    }
}

/// Appends a byte of a value, where white space is a space.
#[tactic(auto, using(crate::proofs::Bare::one_spelled))]
fn push_byte(form: Form, b: u8, out: &mut Vec<u8>) -> Result<(), AllocError>
    ensures { OnOk result (out.new.items ≡ out.old.items ++ formed form (spec.value_byte b ∷ [])) }
{
    let normal = if is_space(b) { b' ' } else { b };
    match form {
        Form::Plain => push(normal, out),
        Form::Spelled => push_spelled(normal, out),
    }
}

/// Appends a byte that is no white space but the space, as it is spelled in a value.
fn push_spelled(b: u8, out: &mut Vec<u8>) -> Result<(), AllocError>
    requires { (b == 9 || b == 10 || b == 13) ≡ false }
    ensures { OnOk result (out.new.items ≡ out.old.items ++ attribute_spelling b) }
{
    match b {
        b'"' => out.extend_from_slice(b"&quot;"),
        b'&' => out.extend_from_slice(b"&amp;"),
        b'<' => out.extend_from_slice(b"&lt;"),
        b'>' => out.extend_from_slice(b"&gt;"),
        _ => push(b, out),
    }
}

/// Appends a byte.
fn push(b: u8, out: &mut Vec<u8>) -> Result<(), AllocError>
    ensures { OnOk result (out.new.items ≡ out.old.items ++ b ∷ []) }
{
    out.push(b)?;
    Ok(())
}
