ghost use Rattle.std.specs.Prelude.{◌≡◌, ◌++◌, ◌<◌, ◌≤◌, ℕ, true, false, length, codes, IfOk};
ghost use Rattle.oai_xml.specs.Answers.{Gives, Leaves, LeavesIn, LeavesPiece};
ghost use Rattle.oai_xml.specs.Contents as spec;
ghost use Rattle.oai_xml.specs.Readings.{begins};
ghost use Rattle.oai_xml.specs.Trees.{followed_by, nothing, spelled, spelled_content};

use crate::characters::{characters, push_text, referenced};
use crate::declarations::Declared;
use crate::faults::{ParseFault, ParseStop, XmlCause};
use crate::instructions::{past_comment, past_instruction};
use crate::literals::{begins, behind, fault_at, past, up_to};
use crate::tags::{past_end, push_end, start};
use std::alloc::Global;

/// Reads an element, behind its `<`, and appends it as it is spelled, where so many levels of elements may still come
/// (production [39]).
#[cycle(elements)]
pub(crate) fn element<'a>(
    alloc: Global,
    levels: usize,
    bytes: &'a [u8],
    scope: &mut Vec<Declared<'a>>,
    out: &mut Vec<u8>,
) -> Result<&'a [u8], ParseStop>
    ensures leaves { LeavesIn (λ rest e. (rest.now ≡ e.1) × (scope.new.items ≡ scope.old.items) × (out.new.items ≡ out.old.items ++ spelled e.0))
        (λ steps. spec.element_in (spec.content_in steps) levels scope.old.items bytes.now) bytes.now result }
    ensures shorter { IfOk result (λ rest. length rest.now < length bytes.now) }
{
    if levels == 0 {
        return Err(ParseStop::At(fault_at(bytes, XmlCause::Depth)));
    }
    let outer = scope.as_slice().len();
    let (name, closing) = match start(alloc, bytes, scope, out) {
        Ok(read) => read,
        Err(stop) => return Err(stop),
    };
    let rest = match inside(alloc, levels - 1, name, closing, scope, out) {
        Ok(rest) => rest,
        Err(stop) => return Err(stop),
    };
    push_end(name, out)?;
    scope.truncate(outer);
    Ok(rest)
}

/// Reads what stands behind the attributes of a start tag: `/>`, or content and an end tag of that name.
#[cycle(elements)]
fn inside<'a>(
    alloc: Global,
    levels: usize,
    name: &[u8],
    bytes: &'a [u8],
    scope: &mut Vec<Declared<'a>>,
    out: &mut Vec<u8>,
) -> Result<&'a [u8], ParseStop>
    ensures leaves { LeavesIn (λ rest c. (rest.now ≡ c.1) × (scope.new.items ≡ scope.old.items) × (out.new.items ≡ out.old.items ++ spelled_content c.0))
        (λ steps. spec.inside_in (spec.content_in steps) levels scope.old.items name.now bytes.now) bytes.now result }
    ensures shorter { IfOk result (λ rest. length rest.now < length bytes.now) }
{
    if begins(b"/", bytes) {
        return match past(b"/>", bytes, XmlCause::Syntax) {
            Ok(rest) => Ok(rest),
            Err(fault) => Err(ParseStop::At(fault)),
        };
    }
    let inner = match past(b">", bytes, XmlCause::Syntax) {
        Ok(inner) => inner,
        Err(fault) => return Err(ParseStop::At(fault)),
    };
    let behind = match content(alloc, levels, inner, scope, out) {
        Ok(behind) => behind,
        Err(stop) => return Err(stop),
    };
    match past_end(name, behind) {
        Ok(rest) => Ok(rest),
        Err(fault) => Err(ParseStop::At(fault)),
    }
}

/// Reads the content of an element, and the `</` behind it (production [43]).
#[cycle(elements)]
fn content<'a>(
    alloc: Global,
    levels: usize,
    bytes: &'a [u8],
    scope: &mut Vec<Declared<'a>>,
    out: &mut Vec<u8>,
) -> Result<&'a [u8], ParseStop>
    ensures leaves { LeavesIn (λ rest c. (rest.now ≡ c.1) × (scope.new.items ≡ scope.old.items) × (out.new.items ≡ out.old.items ++ spelled_content c.0))
        (λ steps. spec.content_in steps levels scope.old.items bytes.now) bytes.now result }
    ensures shorter { IfOk result (λ rest. length rest.now < length bytes.now) }
{
    let mut rest = bytes;
    loop {
        match behind(b"</", rest) {
            Some(tag) => return Ok(tag),
            None => {}
        }
        match piece(alloc, levels, rest, scope, out) {
            Ok(behind) => rest = behind,
            Err(stop) => return Err(stop),
        }
    }
}

/// Reads a piece of content.
#[cycle(elements)]
fn piece<'a>(
    alloc: Global,
    levels: usize,
    bytes: &'a [u8],
    scope: &mut Vec<Declared<'a>>,
    out: &mut Vec<u8>,
) -> Result<&'a [u8], ParseStop>
    requires { begins (codes "</") bytes.now ≡ false }
    ensures leaves { LeavesPiece followed_by (λ steps bytes. spec.content_in steps levels scope.old.items bytes) (λ rest. rest.now)
        (λ rest piece. (scope.new.items ≡ scope.old.items) × (out.new.items ≡ out.old.items ++ spelled_content piece)) bytes.now result }
    ensures shorter { IfOk result (λ rest. length rest.now < length bytes.now) }
{
    match behind(b"<", bytes) {
        Some(tag) => return markup(alloc, levels, tag, scope, out),
        None => {}
    }
    match behind(b"&", bytes) {
        Some(name) => referenced(name, out),
        None => characters(bytes, out),
    }
}

/// Reads markup in content, behind its `<`: a comment, a CDATA section, a processing instruction, or an element.
#[cycle(elements)]
fn markup<'a>(
    alloc: Global,
    levels: usize,
    bytes: &'a [u8],
    scope: &mut Vec<Declared<'a>>,
    out: &mut Vec<u8>,
) -> Result<&'a [u8], ParseStop>
    ensures leaves { LeavesIn (λ rest c. (rest.now ≡ c.1) × (scope.new.items ≡ scope.old.items) × (out.new.items ≡ out.old.items ++ spelled_content c.0))
        (λ steps. spec.markup_in (spec.content_in steps) levels scope.old.items bytes.now) bytes.now result }
    ensures shorter { IfOk result (λ rest. length rest.now < length bytes.now) }
{
    if begins(b"!", bytes) {
        return section(bytes, out);
    }
    if begins(b"?", bytes) {
        return match left_out(bytes) {
            Ok(rest) => Ok(rest),
            Err(fault) => Err(ParseStop::At(fault)),
        };
    }
    element(alloc, levels, bytes, scope, out)
}

/// Reads a comment or a CDATA section, behind its `<`.
#[tactic(auto, unfolding(crate::specs::Contents::section_in))]
fn section<'a>(bytes: &'a [u8], out: &mut Vec<u8>) -> Result<&'a [u8], ParseStop>
    ensures leaves { Leaves (λ rest c. (rest.now ≡ c.1) × (out.new.items ≡ out.old.items ++ spelled_content c.0)) (spec.section_in bytes.now) result }
    ensures shorter { IfOk result (λ rest. length rest.now < length bytes.now) }
{
    if begins(b"!-", bytes) {
        return match left_out_comment(bytes) {
            Ok(rest) => Ok(rest),
            Err(fault) => Err(ParseStop::At(fault)),
        };
    }
    match cdata(bytes) {
        Ok((text, rest)) => {
            push_text(text, out)?;
            Ok(rest)
        }
        Err(fault) => Err(ParseStop::At(fault)),
    }
}

/// Passes a comment, behind its `<`.
#[tactic(auto, unfolding(crate::specs::Contents::left_out_comment_in))]
fn left_out_comment(bytes: &[u8]) -> Result<&[u8], ParseFault>
    ensures gives { Gives (λ rest. (nothing, rest.now)) (spec.left_out_comment_in bytes.now) result }
    ensures shorter { IfOk result (λ rest. length rest.now < length bytes.now) }
{
    match past(b"!--", bytes, XmlCause::Syntax) {
        Ok(rest) => past_comment(rest),
        Err(fault) => Err(fault),
    }
}

/// Passes a processing instruction, behind its `<`.
#[tactic(auto, unfolding(crate::specs::Contents::left_out_in))]
fn left_out(bytes: &[u8]) -> Result<&[u8], ParseFault>
    ensures gives { Gives (λ rest. (nothing, rest.now)) (spec.left_out_in bytes.now) result }
    ensures shorter { IfOk result (λ rest. length rest.now < length bytes.now) }
{
    match past(b"?", bytes, XmlCause::Syntax) {
        Ok(rest) => past_instruction(rest),
        Err(fault) => Err(fault),
    }
}

/// The text of a CDATA section, behind its `<`, and what stands behind the section (production [18]).
#[tactic(auto, unfolding(crate::specs::Contents::cdata_section_in))]
fn cdata(bytes: &[u8]) -> Result<(&[u8], &[u8]), ParseFault>
    ensures gives { Gives (λ r. (r.0.now, r.1.now)) (spec.cdata_section_in bytes.now) result }
    ensures shorter { IfOk result (λ r. length r.1.now < length bytes.now) }
{
    match past(b"![CDATA[", bytes, XmlCause::Syntax) {
        Ok(inside) => up_to(b"]]>", inside),
        Err(fault) => Err(fault),
    }
}
