ghost use Rattle.std.specs.Prelude.{◌≡◌, ◌++◌, ◌∷◌, [], ◌<◌, ◌≤◌, ◌-◌, ℕ, List, true, false, length, take, drop, codes, IfOk, OnOk};
ghost use Rattle.std.specs.List.{list_all, prefix_len};
ghost use Rattle.std.specs.Char.{encode_utf8};
ghost use Rattle.oai_names.specs.Escapes.{escaped_text, text_spelling};
ghost use Rattle.oai_xml.specs.Answers.{Leaves, is_bare_text_byte, AreCharacters};
ghost use Rattle.oai_xml.specs.Parts.{reference_in};

use crate::faults::{ParseFault, ParseStop, XmlCause};
use crate::literals::{begins, fault_at};
use crate::references::reference;
use oai_names::escape_text;
use std::alloc::AllocError;

/// Appends bytes of a text that stand for themselves, or one that does not.
pub(crate) fn characters<'a>(bytes: &'a [u8], out: &mut Vec<u8>) -> Result<&'a [u8], ParseStop>
    ensures { AreCharacters bytes.now out.old.items out.new.items result }
{
    let (run, rest) = bytes.split_at(bare_len(bytes));
    if !run.is_empty() {
        out.extend_from_slice(run)?;
        return Ok(rest);
    }
    if begins(b"]]>", bytes) {
        return Err(ParseStop::At(ParseFault {
            left: bytes.len() - 2,
            cause: XmlCause::Section,
        }));
    }
    let Some((b, tail)) = bytes.split_first() else {
        return Err(ParseStop::At(ParseFault {
            left: 0,
            cause: XmlCause::Ends,
        }));
    };
    push_byte(*b, out)?;
    Ok(tail)
}

/// How many bytes at the front stand for themselves, whatever follows them.
fn bare_len(bytes: &[u8]) -> usize
    ensures len { result ≡ prefix_len is_bare_text_byte bytes.now }
    ensures within { result ≤ length bytes.now }
{
    for (i, b) in bytes.iter().enumerate() {
        if !is_bare_text_byte(*b) {
            return i;
        }
    }
    bytes.len()
}

fn is_bare_text_byte(b: u8) -> bool
    ensures { result ≡ is_bare_text_byte b }
{
    !matches!(b, b'&' | b'<' | b'>' | b']' | b'\r')
}

/// Appends the character that a reference stands for, behind its `&`.
pub(crate) fn referenced<'a>(bytes: &'a [u8], out: &mut Vec<u8>) -> Result<&'a [u8], ParseStop>
    ensures leaves { Leaves (λ rest c. (rest.now ≡ c.1) × (out.new.items ≡ out.old.items ++ escaped_text c.0)) (reference_in bytes.now) result }
    ensures shorter { IfOk result (λ rest. length rest.now < length bytes.now) }
{
    match reference(bytes) {
        Ok((c, rest)) => {
            let mut buffer = [0; 4];
            escape_text(c.encode_utf8(&mut buffer), out)?;
            Ok(rest)
        }
        Err(fault) => Err(ParseStop::At(fault)),
    }
}

/// Appends a text.
#[tactic(auto, unfolding(oai_names::specs::Escapes::escaped))]
pub(crate) fn push_text(text: &[u8], out: &mut Vec<u8>) -> Result<(), AllocError>
    ensures { OnOk result (out.new.items ≡ out.old.items ++ escaped_text text.now) }
{
    for b in text {
        push_byte(*b, out)?;
    }
    Ok(())
}

/// Appends a byte of a text, as it is spelled.
fn push_byte(b: u8, out: &mut Vec<u8>) -> Result<(), AllocError>
    ensures { OnOk result (out.new.items ≡ out.old.items ++ text_spelling b) }
{
    match b {
        b'&' => out.extend_from_slice(b"&amp;")?,
        b'<' => out.extend_from_slice(b"&lt;")?,
        b'>' => out.extend_from_slice(b"&gt;")?,
        b'\r' => out.extend_from_slice(b"&#13;")?,
        _ => out.push(b)?,
    }
    Ok(())
}
