ghost use Rattle.std.specs.Prelude.{◌≡◌, ◌<◌, length, IfOk};
ghost use Rattle.oai_xml.specs.Answers.{Gives};
ghost use Rattle.oai_xml.specs.Parts as spec;

use crate::faults::{ParseFault, XmlCause};
use crate::literals::{begins, past, up_to};
use crate::names::past_target;
use crate::spaces::past_space;

/// Passes a comment, behind its `<!--` (production [15]).
#[tactic(auto, unfolding(crate::specs::Parts::comment_in))]
pub(crate) fn past_comment(bytes: &[u8]) -> Result<&[u8], ParseFault>
    ensures gives { Gives (λ rest. rest.now) (spec.comment_in bytes.now) result }
    ensures shorter { IfOk result (λ rest. length rest.now < length bytes.now) }
{
    match up_to(b"--", bytes) {
        Ok((_, rest)) => past(b">", rest, XmlCause::Syntax),
        Err(fault) => Err(fault),
    }
}

/// Passes a processing instruction, behind its `<?` (production [16]).
#[tactic(auto, unfolding(crate::specs::Parts::instruction_in))]
pub(crate) fn past_instruction(bytes: &[u8]) -> Result<&[u8], ParseFault>
    ensures gives { Gives (λ rest. rest.now) (spec.instruction_in bytes.now) result }
    ensures shorter { IfOk result (λ rest. length rest.now < length bytes.now) }
{
    match past_target(bytes) {
        Ok((_, rest)) => past_instruction_end(rest),
        Err(fault) => Err(fault),
    }
}

/// Passes what stands behind the target of a processing instruction.
#[tactic(auto, unfolding(crate::specs::Parts::instruction_end_in))]
fn past_instruction_end(bytes: &[u8]) -> Result<&[u8], ParseFault>
    ensures gives { Gives (λ rest. rest.now) (spec.instruction_end_in bytes.now) result }
    ensures shorter { IfOk result (λ rest. length rest.now < length bytes.now) }
{
    if begins(b"?", bytes) {
        return past(b"?>", bytes, XmlCause::Syntax);
    }
    let rest = match past_space(bytes) {
        Ok(rest) => rest,
        Err(fault) => return Err(fault),
    };
    match up_to(b"?>", rest) {
        Ok((_, behind)) => Ok(behind),
        Err(fault) => Err(fault),
    }
}
