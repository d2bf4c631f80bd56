ghost use Rattle.std.specs.Prelude.{◌≡◌, ◌++◌, ◌∷◌, [], ◌<◌, ◌≤◌, ℕ, List, true, length, IfOk, OnOk, Ok};
ghost use Rattle.oai_xml.specs.Answers.{Declares, Leaves, LeavesIn, Tells};
ghost use Rattle.oai_xml.specs.Tags as spec;
ghost use Rattle.oai_xml.specs.Trees.{spelled_attribute};

use crate::declarations::{Declared, Name, declared_prefix, is_declaring};
use crate::faults::{ParseStop, XmlCause};
use crate::literals::{begins, fault_at};
use crate::names::qname;
use crate::spaces::{past_equals, past_space, past_spaces};
use crate::values::{Form, quoted};
use std::alloc::{AllocError, Global};

/// Reads the attributes of a start tag up to what closes it: their names and what they declare are added to those that are
/// there, and each is appended as it is spelled.
pub(crate) fn attributes<'a>(
    alloc: Global,
    bytes: &'a [u8],
    names: &mut Vec<Name<'a>>,
    scope: &mut Vec<Declared<'a>>,
    out: &mut Vec<u8>,
) -> Result<&'a [u8], ParseStop>
    ensures leaves { LeavesIn (λ rest a. (rest.now ≡ a.1) × Tells a.0 names.old.items names.new.items scope.old.items scope.new.items out.old.items out.new.items)
        (λ steps. spec.attributes_in steps bytes.now) bytes.now result }
    ensures within { IfOk result (λ rest. length rest.now ≤ length bytes.now) }
{
    let mut rest = bytes;
    loop {
        let next = past_spaces(rest);
        if ends_tag(next) {
            return Ok(next);
        }
        match spaced_attribute(alloc, rest, names, scope, out) {
            Ok(behind) => rest = behind,
            Err(stop) => return Err(stop),
        }
    }
}

/// Whether this may close a start tag.
fn ends_tag(bytes: &[u8]) -> bool
    ensures { result ≡ spec.ends_tag bytes.now }
{
    begins(b">", bytes) || begins(b"/", bytes)
}

/// Reads white space and an attribute.
fn spaced_attribute<'a>(
    alloc: Global,
    bytes: &'a [u8],
    names: &mut Vec<Name<'a>>,
    scope: &mut Vec<Declared<'a>>,
    out: &mut Vec<u8>,
) -> Result<&'a [u8], ParseStop>
    ensures leaves { Leaves (λ rest a. (rest.now ≡ a.1) × Tells (a.0 ∷ []) names.old.items names.new.items scope.old.items scope.new.items out.old.items out.new.items)
        (spec.spaced_attribute_in bytes.now) result }
    ensures shorter { IfOk result (λ rest. length rest.now < length bytes.now) }
{
    match past_space(bytes) {
        Ok(rest) => attribute(alloc, rest, names, scope, out),
        Err(fault) => Err(ParseStop::At(fault)),
    }
}

/// Reads an attribute (production [NS 15]).
#[tactic(auto, unfolding(crate::specs::Tags::attribute_in))]
fn attribute<'a>(
    alloc: Global,
    bytes: &'a [u8],
    names: &mut Vec<Name<'a>>,
    scope: &mut Vec<Declared<'a>>,
    out: &mut Vec<u8>,
) -> Result<&'a [u8], ParseStop>
    ensures leaves { Leaves (λ rest a. (rest.now ≡ a.1) × Tells (a.0 ∷ []) names.old.items names.new.items scope.old.items scope.new.items out.old.items out.new.items)
        (spec.attribute_in bytes.now) result }
    ensures shorter { IfOk result (λ rest. length rest.now < length bytes.now) }
{
    let (name, behind) = match qname(bytes) {
        Ok(read) => read,
        Err(fault) => return Err(ParseStop::At(fault)),
    };
    let value = match past_equals(behind) {
        Ok(rest) => rest,
        Err(fault) => return Err(ParseStop::At(fault)),
    };
    let rest = spell(name, value, out)?;
    names.push(Name { text: name })?;
    declare(alloc, name, value, scope)?;
    Ok(rest)
}

/// Appends an attribute of that name, of which the value stands here, and answers what stands behind the value.
fn spell<'a>(name: &[u8], value: &'a [u8], out: &mut Vec<u8>) -> Result<&'a [u8], ParseStop>
    ensures leaves { Leaves (λ rest v. (rest.now ≡ v.1) × (out.new.items ≡ out.old.items ++ spelled_attribute (record { name = name.now; value = v.0 }))) (spec.quoted_in value.now) result }
    ensures shorter { IfOk result (λ rest. length rest.now < length value.now) }
{
    out.push(b' ')?;
    out.extend_from_slice(name)?;
    out.extend_from_slice(b"=\"")?;
    let rest = quoted(Form::Spelled, value, out)?;
    out.push(b'"')?;
    Ok(rest)
}

/// Adds what an attribute of that name declares, if it declares something: its value, which stands here, is read once more.
fn declare<'a>(
    alloc: Global,
    name: &'a [u8],
    value: &[u8],
    scope: &mut Vec<Declared<'a>>,
) -> Result<(), ParseStop>
    ensures { Declares name.now (spec.quoted_in value.now) scope.old.items scope.new.items result }
{
    if !is_declaring(name) {
        return Ok(());
    }
    let mut namespace = Vec::new(alloc);
    quoted(Form::Plain, value, &mut namespace)?;
    scope.push(Declared {
        prefix: declared_prefix(name),
        namespace,
    })?;
    Ok(())
}
