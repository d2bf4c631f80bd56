ghost use Rattle.std.specs.Prelude.{◌≡◌, ◌+◌, ◌<◌, true, false, length, drop, IfOk, MatchOption};
ghost use Rattle.oai_xml.specs.Answers.{Gives};
ghost use Rattle.oai_xml.specs.Readings as spec;

use crate::faults::{ParseFault, XmlCause};

/// Whether the bytes begin with the literal.
pub(crate) fn begins(literal: &[u8], bytes: &[u8]) -> bool
    ensures { result ≡ spec.begins literal.now bytes.now }
{
    behind(literal, bytes).is_some()
}

/// What stands behind the literal, if the bytes begin with it.
#[tactic(auto, using(crate::proofs::LiteralLemmas::strips))]
pub(crate) fn behind<'a>(literal: &[u8], bytes: &'a [u8]) -> Option<&'a [u8]>
    ensures { MatchOption result (spec.begins literal.now bytes.now ≡ false)
        (λ rest. (spec.begins literal.now bytes.now ≡ true) × (rest.now ≡ spec.behind literal.now bytes.now)
        × (length rest.now + length literal.now ≡ length bytes.now)) }
{
    bytes.strip_prefix(literal)
}

/// Passes the literal, which has to stand here. A fault is at the first byte that is another.
#[tactic(auto, using(crate::proofs::LiteralLemmas::past_step, crate::proofs::LiteralLemmas::past_other, crate::proofs::LiteralLemmas::past_short, crate::proofs::LiteralLemmas::past_end))]
pub(crate) fn past<'a>(
    literal: &[u8],
    bytes: &'a [u8],
    cause: XmlCause,
) -> Result<&'a [u8], ParseFault>
    ensures gives { Gives (λ rest. rest.now) (spec.past literal.now bytes.now) result }
    ensures shorter { IfOk result (λ rest. length rest.now + length literal.now ≡ length bytes.now) }
{
    let mut rest = bytes;
    for expected in literal {
        match rest.split_first() {
            Some((b, tail)) if *b == *expected => rest = tail,
            Some(_) => return Err(fault_at(rest, cause)),
            None => return Err(ParseFault {
                left: 0,
                cause: XmlCause::Ends,
            }),
        }
    }
    Ok(rest)
}

/// The text up to the first place where the mark stands, and what stands behind the mark.
#[tactic(auto, using(crate::proofs::LiteralLemmas::up_to_step, crate::proofs::LiteralLemmas::up_to_found, crate::proofs::LiteralLemmas::up_to_end))]
pub(crate) fn up_to<'a>(mark: &[u8], bytes: &'a [u8]) -> Result<(&'a [u8], &'a [u8]), ParseFault>
    ensures gives { Gives (λ r. (r.0.now, r.1.now)) (spec.up_to mark.now bytes.now) result }
    ensures shorter { IfOk result (λ r. length r.0.now + length mark.now + length r.1.now ≡ length bytes.now) }
{
    for at in 0..bytes.len() {
        let (text, marked) = bytes.split_at(at);
        match behind(mark, marked) {
            Some(rest) => return Ok((text, rest)),
            None => {}
        }
    }
    Err(ParseFault {
        left: 0,
        cause: XmlCause::Ends,
    })
}

/// The fault at the first of these bytes.
pub(crate) fn fault_at(bytes: &[u8], cause: XmlCause) -> ParseFault
    ensures { result.left ≡ length bytes.now }
{
    let cause = if bytes.is_empty() {
        XmlCause::Ends
    } else {
        cause
    };
    ParseFault {
        left: bytes.len(),
        cause,
    }
}
