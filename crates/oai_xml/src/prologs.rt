ghost use Rattle.std.specs.Prelude.{◌≡◌, ◌∷◌, [], ◌<◌, ◌≤◌, length, IfOk};
ghost use Rattle.std.specs.List.{prefix_len};
ghost use Rattle.std.specs.Char.{is_ascii_digit};
ghost use Rattle.oai_xml.specs.Answers.{Gives};
ghost use Rattle.oai_xml.specs.Documents as spec;

use crate::faults::{ParseFault, XmlCause};
use crate::literals::{begins, behind, fault_at, past};
use crate::spaces::{past_equals, past_space, past_spaces};

/// Passes the XML declaration, if there is one.
#[tactic(auto, unfolding(crate::specs::Documents::opening_in))]
pub(crate) fn past_opening(bytes: &[u8]) -> Result<&[u8], ParseFault>
    ensures gives { Gives (λ rest. rest.now) (spec.opening_in bytes.now) result }
    ensures within { IfOk result (λ rest. length rest.now ≤ length bytes.now) }
{
    match behind(b"<?xml", bytes) {
        Some(rest) if begins_spaces(rest) => past_declaration(rest),
        _ => Ok(bytes),
    }
}

/// Whether white space stands here.
fn begins_spaces(bytes: &[u8]) -> bool
    ensures { result ≡ spec.begins_spaces bytes.now }
{
    past_spaces(bytes).len() != bytes.len()
}

/// Passes the XML declaration, behind its `<?xml` (production [23]).
#[tactic(auto, unfolding(crate::specs::Documents::declaration_in))]
fn past_declaration(bytes: &[u8]) -> Result<&[u8], ParseFault>
    ensures gives { Gives (λ rest. rest.now) (spec.declaration_in bytes.now) result }
    ensures within { IfOk result (λ rest. length rest.now ≤ length bytes.now) }
{
    let version = past_version(bytes)?;
    let encoding = past_encoding(version)?;
    let standalone = past_standalone(encoding)?;
    let rest = past(b"?>", past_spaces(standalone), XmlCause::Syntax)?;
    Ok(rest)
}

/// Passes the version (production [24]).
#[tactic(auto, unfolding(crate::specs::Documents::version_in))]
fn past_version(bytes: &[u8]) -> Result<&[u8], ParseFault>
    ensures gives { Gives (λ rest. rest.now) (spec.version_in bytes.now) result }
    ensures within { IfOk result (λ rest. length rest.now ≤ length bytes.now) }
{
    let (mark, value) = past_name(b"version", bytes)?;
    let number = past_version_number(value)?;
    let rest = past(&[mark], number, XmlCause::Syntax)?;
    Ok(rest)
}

/// Passes white space, a name, `=` and a quote, and answers the quote.
#[tactic(auto, unfolding(crate::specs::Documents::pseudo_attribute_in))]
fn past_name<'a>(name: &[u8], bytes: &'a [u8]) -> Result<(u8, &'a [u8]), ParseFault>
    ensures gives { Gives (λ r. (r.0, r.1.now)) (spec.pseudo_attribute_in name.now bytes.now) result }
    ensures within { IfOk result (λ r. length r.1.now ≤ length bytes.now) }
{
    let start = past_space(bytes)?;
    let equals = past(name, start, XmlCause::Syntax)?;
    let quoted = past_equals(equals)?;
    let read = quote(quoted)?;
    Ok(read)
}

/// Passes the number of a version (production [26]).
#[tactic(auto, unfolding(crate::specs::Documents::version_number_in))]
fn past_version_number(bytes: &[u8]) -> Result<&[u8], ParseFault>
    ensures gives { Gives (λ rest. rest.now) (spec.version_number_in bytes.now) result }
    ensures within { IfOk result (λ rest. length rest.now ≤ length bytes.now) }
{
    let minor = past(b"1.", bytes, XmlCause::Syntax)?;
    let digits = digits_len(minor);
    if digits == 0 {
        return Err(fault_at(minor, XmlCause::Syntax));
    }
    Ok(&minor[digits..])
}

/// How many digits stand here.
fn digits_len(bytes: &[u8]) -> usize
    ensures len { result ≡ prefix_len is_ascii_digit bytes.now }
    ensures within { result ≤ length bytes.now }
{
    for (i, b) in bytes.iter().enumerate() {
        if !b.is_ascii_digit() {
            return i;
        }
    }
    bytes.len()
}

/// Passes the encoding, if it is named: UTF-8 (production [80]).
#[tactic(auto, unfolding(crate::specs::Documents::encoding_in))]
fn past_encoding(bytes: &[u8]) -> Result<&[u8], ParseFault>
    ensures gives { Gives (λ rest. rest.now) (spec.encoding_in bytes.now) result }
    ensures within { IfOk result (λ rest. length rest.now ≤ length bytes.now) }
{
    if !begins(b"encoding", past_spaces(bytes)) {
        return Ok(bytes);
    }
    let (mark, value) = past_name(b"encoding", bytes)?;
    let behind = past_utf_8(value)?;
    let rest = past(&[mark], behind, XmlCause::Syntax)?;
    Ok(rest)
}

/// Passes the name of the one encoding that texts have, whatever the case of its letters.
#[tactic(auto, unfolding(crate::specs::Documents::utf_8_in))]
fn past_utf_8(bytes: &[u8]) -> Result<&[u8], ParseFault>
    ensures gives { Gives (λ rest. rest.now) (spec.utf_8_in bytes.now) result }
    ensures within { IfOk result (λ rest. length rest.now ≤ length bytes.now) }
{
    if bytes.len() < 5 || !bytes[..5].eq_ignore_ascii_case(b"UTF-8") {
        return Err(fault_at(bytes, XmlCause::Syntax));
    }
    Ok(&bytes[5..])
}

/// Skips the standalone declaration, if there is one (production [32]).
#[tactic(auto, unfolding(crate::specs::Documents::standalone_in))]
fn past_standalone(bytes: &[u8]) -> Result<&[u8], ParseFault>
    ensures gives { Gives (λ rest. rest.now) (spec.standalone_in bytes.now) result }
    ensures within { IfOk result (λ rest. length rest.now ≤ length bytes.now) }
{
    if !begins(b"standalone", past_spaces(bytes)) {
        return Ok(bytes);
    }
    let (mark, value) = past_name(b"standalone", bytes)?;
    let behind = past_answer(value)?;
    let rest = past(&[mark], behind, XmlCause::Syntax)?;
    Ok(rest)
}

/// Passes `yes` or `no`.
#[tactic(auto, unfolding(crate::specs::Documents::yes_or_no_in))]
fn past_answer(bytes: &[u8]) -> Result<&[u8], ParseFault>
    ensures gives { Gives (λ rest. rest.now) (spec.yes_or_no_in bytes.now) result }
    ensures within { IfOk result (λ rest. length rest.now ≤ length bytes.now) }
{
    if begins(b"y", bytes) {
        return past(b"yes", bytes, XmlCause::Syntax);
    }
    past(b"no", bytes, XmlCause::Syntax)
}

/// The quote that stands here.
#[tactic(auto, unfolding(crate::specs::Documents::quote_in))]
fn quote(bytes: &[u8]) -> Result<(u8, &[u8]), ParseFault>
    ensures gives { Gives (λ r. (r.0, r.1.now)) (spec.quote_in bytes.now) result }
    ensures within { IfOk result (λ r. length r.1.now ≤ length bytes.now) }
{
    match bytes.split_first() {
        Some((b, rest)) if *b == b'"' || *b == b'\'' => Ok((*b, rest)),
        _ => Err(fault_at(bytes, XmlCause::Syntax)),
    }
}
