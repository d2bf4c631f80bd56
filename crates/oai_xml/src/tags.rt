ghost use Rattle.std.specs.Prelude.{◌≡◌, ◌++◌, ◌∷◌, [], ◌<◌, ◌≤◌, ℕ, List, true, length, take, drop, codes, IfOk, OnOk};
ghost use Rattle.oai_xml.specs.Answers.{Gives, Leaves, Tells};
ghost use Rattle.oai_xml.specs.Contents as spec;
ghost use Rattle.oai_xml.specs.Tags.{end_in};
ghost use Rattle.oai_xml.specs.Trees.{end_tag, start_tag};
ghost use Rattle.oai_xml.specs.Whole.{within};

use crate::attributes::attributes;
use crate::declarations::{Declared, Name};
use crate::faults::{ParseFault, ParseStop, XmlCause};
use crate::literals::{fault_at, past};
use crate::names::qname;
use crate::namespaces::{are_names_whole, has_default};
use crate::spaces::past_spaces;
use std::alloc::{AllocError, Global};

/// Reads a start tag, behind its `<`, up to what closes it, and answers its name and what closes it. What it declares is added
/// to the scope, and the tag is appended as it is spelled.
pub(crate) fn start<'a>(
    alloc: Global,
    bytes: &'a [u8],
    scope: &mut Vec<Declared<'a>>,
    out: &mut Vec<u8>,
) -> Result<(&'a [u8], &'a [u8]), ParseStop>
    ensures leaves { Leaves (λ r s. (r.0.now ≡ s.0.name) × (r.1.now ≡ s.1) × (scope.new.items ≡ within scope.old.items s.0.attributes)
        × (out.new.items ≡ out.old.items ++ start_tag s.0.name s.0.attributes)) (spec.whole_start_in scope.old.items bytes.now) result }
    ensures shorter { IfOk result (λ r. length r.1.now < length bytes.now) }
{
    let (name, behind) = match qname(bytes) {
        Ok(read) => read,
        Err(fault) => return Err(ParseStop::At(fault)),
    };
    let outer = scope.as_slice().len();
    out.push(b'<')?;
    out.extend_from_slice(name)?;
    let mut names = Vec::new(alloc);
    let rest = match attributes(alloc, behind, &mut names, scope, out) {
        Ok(rest) => rest,
        Err(stop) => return Err(stop),
    };
    complete(alloc, &mut names, scope, out)?;
    if !are_names_whole(scope, outer, name, &names) {
        return Err(ParseStop::At(fault_at(rest, XmlCause::Tag)));
    }
    out.push(b'>')?;
    Ok((name, rest))
}

/// Adds the declaration of no default namespace, where none is in force.
fn complete<'a>(
    alloc: Global,
    names: &mut Vec<Name<'a>>,
    scope: &mut Vec<Declared<'a>>,
    out: &mut Vec<u8>,
) -> Result<(), AllocError>
    ensures { OnOk result (Tells (spec.completion scope.old.items) names.old.items names.new.items scope.old.items scope.new.items out.old.items out.new.items) }
{
    if has_default(scope) {
        return Ok(());
    }
    names.push(Name { text: b"xmlns" })?;
    scope.push(Declared {
        prefix: b"",
        namespace: Vec::new(alloc),
    })?;
    out.extend_from_slice(b" xmlns=\"\"")?;
    Ok(())
}

/// Reads an end tag of that name, behind its `</` (production [NS 13]).
#[tactic(auto, unfolding(crate::specs::Tags::end_in))]
pub(crate) fn past_end<'a>(name: &[u8], bytes: &'a [u8]) -> Result<&'a [u8], ParseFault>
    ensures gives { Gives (λ rest. rest.now) (end_in name.now bytes.now) result }
    ensures shorter { IfOk result (λ rest. length rest.now < length bytes.now) }
{
    match past(name, bytes, XmlCause::EndTag) {
        Ok(rest) => past(b">", past_spaces(rest), XmlCause::EndTag),
        Err(fault) => Err(fault),
    }
}

/// Appends the end tag of that name.
#[tactic(auto, unfolding(crate::specs::Trees::end_tag))]
pub(crate) fn push_end(name: &[u8], out: &mut Vec<u8>) -> Result<(), AllocError>
    ensures { OnOk result (out.new.items ≡ out.old.items ++ end_tag name.now) }
{
    out.extend_from_slice(b"</")?;
    out.extend_from_slice(name)?;
    out.push(b'>')?;
    Ok(())
}
