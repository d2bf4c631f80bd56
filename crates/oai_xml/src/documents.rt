ghost use Rattle.std.specs.Prelude.{◌≡◌, ◌++◌, ◌∷◌, [], ◌<◌, ◌≤◌, ℕ, true, length, take, drop, codes, IfOk};
ghost use Rattle.oai_xml.specs.Answers.{Gives, Leaves, PassesIn, PassesOne};
ghost use Rattle.oai_xml.specs.Documents as spec;
ghost use Rattle.oai_xml.specs.Trees.{spelled};

use crate::elements::element;
use crate::faults::{ParseFault, ParseStop, XmlCause};
use crate::instructions::{past_comment, past_instruction};
use crate::limits::MAX_DEPTH;
use crate::literals::{begins, fault_at, past};
use crate::prologs::past_opening;
use crate::spaces::past_spaces;
use std::alloc::Global;

/// Reads a document, and appends its element as it is spelled (production [1]).
pub(crate) fn document(alloc: Global, bytes: &[u8], out: &mut Vec<u8>) -> Result<(), ParseStop>
    ensures { Leaves (λ _ tree. out.new.items ≡ out.old.items ++ spelled tree) (spec.document_in bytes.now) result }
{
    let tag = match past_prolog(bytes) {
        Ok(tag) => tag,
        Err(fault) => return Err(ParseStop::At(fault)),
    };
    let mut scope = Vec::new(alloc);
    let behind = match element(alloc, MAX_DEPTH, tag, &mut scope, out) {
        Ok(behind) => behind,
        Err(stop) => return Err(stop),
    };
    match past_end(behind) {
        Ok(()) => Ok(()),
        Err(fault) => Err(ParseStop::At(fault)),
    }
}

/// Passes what stands before the root, and its `<`.
fn past_prolog(bytes: &[u8]) -> Result<&[u8], ParseFault>
    ensures { Gives (λ rest. rest.now) (spec.prolog_in bytes.now) result }
{
    let opened = match past_opening(bytes) {
        Ok(rest) => rest,
        Err(fault) => return Err(fault),
    };
    match past_misc(opened) {
        Ok(rest) => past(b"<", rest, XmlCause::Syntax),
        Err(fault) => Err(fault),
    }
}

/// Passes what stands behind the root, where nothing more may follow.
fn past_end(bytes: &[u8]) -> Result<(), ParseFault>
    ensures { Gives (λ _. []) (spec.tail_in bytes.now) result }
{
    let rest = match past_misc(bytes) {
        Ok(rest) => rest,
        Err(fault) => return Err(fault),
    };
    if !rest.is_empty() {
        return Err(fault_at(rest, XmlCause::Syntax));
    }
    Ok(())
}

/// Passes comments, processing instructions and white space (production [27]).
fn past_misc(bytes: &[u8]) -> Result<&[u8], ParseFault>
    ensures gives { PassesIn spec.misc_in bytes.now result }
    ensures within { IfOk result (λ rest. length rest.now ≤ length bytes.now) }
{
    let mut rest = bytes;
    loop {
        match past_one(rest) {
            Ok(Some(behind)) => rest = behind,
            Ok(None) => return Ok(past_spaces(rest)),
            Err(fault) => return Err(fault),
        }
    }
}

/// Passes white space and a comment or a processing instruction, if one stands behind it.
fn past_one(bytes: &[u8]) -> Result<Option<&[u8]>, ParseFault>
    ensures { PassesOne bytes.now result }
{
    let next = past_spaces(bytes);
    if begins(b"<!", next) {
        return match comment(next) {
            Ok(rest) => Ok(Some(rest)),
            Err(fault) => Err(fault),
        };
    }
    if begins(b"<?", next) {
        return match instruction(next) {
            Ok(rest) => Ok(Some(rest)),
            Err(fault) => Err(fault),
        };
    }
    Ok(None)
}

/// Passes a comment, from its first byte on.
#[tactic(auto, unfolding(crate::specs::Documents::whole_comment_in))]
fn comment(bytes: &[u8]) -> Result<&[u8], ParseFault>
    ensures gives { Gives (λ rest. rest.now) (spec.whole_comment_in bytes.now) result }
    ensures shorter { IfOk result (λ rest. length rest.now < length bytes.now) }
{
    match past(b"<!--", bytes, XmlCause::Syntax) {
        Ok(rest) => past_comment(rest),
        Err(fault) => Err(fault),
    }
}

/// Passes a processing instruction, from its first byte on.
#[tactic(auto, unfolding(crate::specs::Documents::whole_instruction_in))]
fn instruction(bytes: &[u8]) -> Result<&[u8], ParseFault>
    ensures gives { Gives (λ rest. rest.now) (spec.whole_instruction_in bytes.now) result }
    ensures shorter { IfOk result (λ rest. length rest.now < length bytes.now) }
{
    match past(b"<?", bytes, XmlCause::Syntax) {
        Ok(rest) => past_instruction(rest),
        Err(fault) => Err(fault),
    }
}
