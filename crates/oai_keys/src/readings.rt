//! Keys, read from a text.
ghost use Rattle.std.specs.Prelude.{◌≡◌, ℕ, List, map, not};
ghost use Rattle.std.specs.List.{find, list_any};
ghost use Rattle.std.specs.Option.{option_copied};
ghost use Rattle.std.specs.Str.{bytes_eq};
ghost use Rattle.serde_json.specs.View.{view};
ghost use Rattle.oai_names.specs.Optional.{each_of};
ghost use Rattle.oai_config.specs.Configs.{NamedConfig as Named};
ghost use Rattle.oai_keys.specs.Reading as spec;
ghost use Rattle.oai_keys.specs.ReadingWork.{GivesKeys, HasFirstFault, IsRingsText};

use crate::faults::KeysFault;
use crate::rings::Ring;
use hex::FromHex;
use oai_config::{Config, NamedConfig};
use oai_json::{elements_at, has_members, read_json, text_at};
use oai_names::{Sequence, Text};
use serde_json::Value;
use std::alloc::Global;

/// The maximum number of digests of a repository.
const MAX_DIGESTS: usize = 16;

/// Reads the keys of the depositors of a host with that configuration: a JSON object (RFC 8259) with exactly its
/// members, for each repository at most one ring, of 0 to 16 digests. The error is the first fault in the order of
/// `KeysFault`; or it is `NoMemory`, which may come in place of any other, but not for a text that is empty or not in
/// UTF-8. Of two members with one name the last counts.
pub fn read_keys(alloc: Global, text: &[u8], config: &Config) -> Result<Sequence<Ring>, KeysFault>
    ensures { spec.AreKeys config.now.repositories text.now result }
{
    let rings = rings_in(alloc, text)?;
    check(alloc, config.repositories(), rings.as_slice())?;
    Ok(rings)
}

/// The rings in the text. The errors: `BadJson` if it is no JSON text, `BadShape` if that does not have the shape of
/// keys.
fn rings_in(alloc: Global, text: &[u8]) -> Result<Sequence<Ring>, KeysFault>
    ensures { IsRingsText text.now result }
{
    match read_json(alloc, text)? {
        Some(value) => rings_of(alloc, &value),
        None => Err(KeysFault::BadJson),
    }
}

/// The rings of an object with exactly the member `keys`; `BadShape` for any other value.
#[tactic(auto, unfolding(crate::specs::Reading::rings_of))]
fn rings_of(alloc: Global, value: &Value) -> Result<Sequence<Ring>, KeysFault>
    ensures { GivesKeys result (spec.rings_of (view value.now)) }
{
    if !has_members(value, &["keys"]) {
        return Err(KeysFault::BadShape);
    }
    match elements_at(value, "keys") {
        Some(values) => each_ring(alloc, values),
        None => Err(KeysFault::BadShape),
    }
}

/// The ring of each value, in order; `BadShape` at the first that has none.
#[tactic(auto, using(oai_json::proofs::ReadingLemmas::starts))]
fn each_ring(alloc: Global, values: &[Value]) -> Result<Sequence<Ring>, KeysFault>
    ensures { GivesKeys result (each_of spec.ring_in (map view values.now)) }
{
    let mut rings = Vec::new(alloc);
    for value in values {
        rings.push(ring_in(alloc, value)?)?;
    }
    Ok(Sequence::new(rings))
}

/// The ring of an object with exactly its members; `BadShape` for any other value.
#[tactic(auto, unfolding(crate::specs::Reading::ring_in))]
fn ring_in(alloc: Global, value: &Value) -> Result<Ring, KeysFault>
    ensures { GivesKeys result (spec.ring_in (view value.now)) }
{
    if !has_members(value, &["name", "digests"]) {
        return Err(KeysFault::BadShape);
    }
    let Some(name) = text_at(value, "name") else {
        return Err(KeysFault::BadShape);
    };
    let digests = digests_at(alloc, value)?;
    Ok(Ring {
        name: Text::new(alloc, name)?,
        digests,
    })
}

/// The digests in the member `digests`; `BadShape` if there is no such list.
#[tactic(auto, unfolding(crate::specs::Reading::digests_at))]
fn digests_at(alloc: Global, value: &Value) -> Result<Sequence<[u8; 32]>, KeysFault>
    ensures { GivesKeys result (spec.digests_at (view value.now)) }
{
    match elements_at(value, "digests") {
        Some(values) => each_digest(alloc, values),
        None => Err(KeysFault::BadShape),
    }
}

/// The digest in each string, in order; `BadShape` at the first value that is none.
#[tactic(auto, using(oai_json::proofs::ReadingLemmas::starts))]
fn each_digest(alloc: Global, values: &[Value]) -> Result<Sequence<[u8; 32]>, KeysFault>
    ensures { GivesKeys result (each_of spec.digest_in (map view values.now)) }
{
    let mut digests = Vec::new(alloc);
    for value in values {
        let Some(digest) = digest_in(value) else {
            return Err(KeysFault::BadShape);
        };
        digests.push(digest)?;
    }
    Ok(Sequence::new(digests))
}

/// The digest in a string of 64 hex digits; `None` for any other value.
#[tactic(auto, unfolding(crate::specs::Reading::digest_in))]
fn digest_in(value: &Value) -> Option<[u8; 32]>
    ensures { result ≡ spec.digest_in (view value.now) }
{
    let text = value.as_str()?;
    <[u8; 32] as FromHex>::from_hex(text).ok()
}

/// The first fault of the rings of a host with these repositories.
#[tactic(auto, unfolding(crate::specs::Reading::rings_fault))]
fn check(alloc: Global, entries: &[NamedConfig], rings: &[Ring]) -> Result<(), KeysFault>
    ensures { HasFirstFault entries.now rings.now result }
{
    if let Some(ring) = first_unknown(entries, rings) {
        return Err(KeysFault::NoRepository(ring.name.copy(alloc)?));
    }
    if let Some(ring) = first_twice(rings) {
        return Err(KeysFault::Twice(ring.name.copy(alloc)?));
    }
    if let Some(ring) = first_too_long(rings) {
        return Err(KeysFault::TooMany(ring.name.copy(alloc)?));
    }
    Ok(())
}

/// The first ring whose name no repository has.
fn first_unknown<'a>(entries: &[NamedConfig], rings: &'a [Ring]) -> Option<&'a Ring>
    ensures { option_copied result ≡ find (spec.is_unknown entries.now) rings.now }
{
    rings
        .iter()
        .find(|ring| !is_named(entries, ring.name.as_str()))
}

/// Whether a repository has that name.
fn is_named(entries: &[NamedConfig], name: &str) -> bool
    ensures { result ≡ list_any (λ (entry : Named). bytes_eq name.now entry.name) entries.now }
{
    entries.iter().any(|entry| name == entry.name.as_str())
}

/// The first ring whose name a later one has.
fn first_twice(mut rings: &[Ring]) -> Option<&Ring>
    ensures { option_copied result ≡ spec.first_twice rings.now }
{
    while let [ring, rest @ ..] = rings {
        if has_ring(rest, ring.name.as_str()) {
            return Some(ring);
        }
        rings = rest;
    }
    None
}

/// Whether one of the rings has that name.
pub(crate) fn has_ring(rings: &[Ring], name: &str) -> bool
    ensures { result ≡ spec.has_ring rings.now name.now }
{
    rings.iter().any(|ring| ring.name.as_str() == name)
}

/// The first ring that has too many digests.
fn first_too_long(rings: &[Ring]) -> Option<&Ring>
    ensures { option_copied result ≡ find spec.is_too_long rings.now }
{
    rings.iter().find(|ring| MAX_DIGESTS < ring.digests.len())
}
