ghost use Rattle.std.specs.Prelude.{◌≡◌, ◌<◌, ◌≤◌, length, IfOk};
ghost use Rattle.oai_xml.specs.Answers.{Gives};
ghost use Rattle.oai_xml.specs.Parts as spec;

use crate::faults::{ParseFault, XmlCause};
use crate::literals::{fault_at, past};

/// Passes the white space that stands here, if there is some.
#[tactic(auto, unfolding(crate::specs::Parts::past_spaces))]
pub(crate) fn past_spaces(bytes: &[u8]) -> &[u8]
    ensures rest { result.now ≡ spec.past_spaces bytes.now }
    ensures within { length result.now ≤ length bytes.now }
{
    let mut rest = bytes;
    while let Some((b, tail)) = rest.split_first() {
        if !is_space(*b) {
            return rest;
        }
        rest = tail;
    }
    rest
}

/// White space (production [3]).
pub(crate) fn is_space(b: u8) -> bool
    ensures { result ≡ spec.is_space b }
{
    matches!(b, b' ' | b'\t' | b'\r' | b'\n')
}

/// Passes white space, of which there has to be some.
#[tactic(auto, unfolding(crate::specs::Parts::past_space))]
pub(crate) fn past_space(bytes: &[u8]) -> Result<&[u8], ParseFault>
    ensures gives { Gives (λ rest. rest.now) (spec.past_space bytes.now) result }
    ensures shorter { IfOk result (λ rest. length rest.now < length bytes.now) }
{
    let rest = past_spaces(bytes);
    if rest.len() == bytes.len() {
        return Err(fault_at(bytes, XmlCause::Syntax));
    }
    Ok(rest)
}

/// Passes `=`, and white space around it (production [25]).
#[tactic(auto, unfolding(crate::specs::Parts::past_equals))]
pub(crate) fn past_equals(bytes: &[u8]) -> Result<&[u8], ParseFault>
    ensures gives { Gives (λ rest. rest.now) (spec.past_equals bytes.now) result }
    ensures shorter { IfOk result (λ rest. length rest.now < length bytes.now) }
{
    match past(b"=", past_spaces(bytes), XmlCause::Syntax) {
        Ok(rest) => Ok(past_spaces(rest)),
        Err(fault) => Err(fault),
    }
}
