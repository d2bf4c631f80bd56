ghost use Rattle.std.specs.Prelude.{◌≡◌, ◌<◌, is_some, length, map, option_copied, option_map, IfOk, OnErr};
ghost use Rattle.std.specs.List.{filter, list_all};
ghost use Rattle.serde_json.specs.Find.{get};
ghost use Rattle.serde_json.specs.Read.{read};
ghost use Rattle.serde_json.specs.View.{view};
ghost use Rattle.oai_json.specs.Json as json;

use serde_json::Value;
use std::alloc::{AllocError, Global};

/// The JSON value of the text, in UTF-8 (RFC 8259); `None` if it is no JSON text. The error is out of memory, which
/// does not come for a text that is empty or not in UTF-8.
#[tactic(auto, unfolding(crate::specs::Json::json_in))]
pub fn read_json(alloc: Global, text: &[u8]) -> Result<Option<Value>, AllocError>
    ensures ok { IfOk result (λ value. json.json_in text.now ≡ option_map view value) }
    ensures err { OnErr result (json.TakesMemory text.now) }
{
    let Ok(text) = str::from_utf8(text) else {
        return Ok(None);
    };
    read_json_text(alloc, text)
}

/// The JSON value of the text (RFC 8259); `None` if it is no JSON text. The error is out of memory, which does not come
/// for an empty text.
pub fn read_json_text(alloc: Global, text: &str) -> Result<Option<Value>, AllocError>
    ensures ok { IfOk result (λ value. read text.now ≡ option_map view value) }
    ensures err { OnErr result (0 < length text.now) }
{
    match Value::from_str(alloc, text) {
        Ok(value) => Ok(Some(value)),
        Err(error) if error.is_memory() => Err(AllocError),
        Err(_) => Ok(None),
    }
}

/// Whether the value is an object with exactly these members (RFC 8259, section 4), in any order. Allocates nothing.
#[tactic(auto, using(crate::proofs::JsonLemmas::has_members_map))]
pub fn has_members(value: &Value, names: &[&str]) -> bool
    ensures { result ≡ json.has_members (map (λ name. name.now) names.now) (view value.now) }
{
    size(value) == names.len() && has_each(value, names)
}

/// Whether the value is an object with exactly these members, and those of the others that it has, in any order. Allocates
/// nothing.
#[tactic(auto, using(crate::proofs::JsonLemmas::has_members_and_map))]
pub fn has_members_and(value: &Value, names: &[&str], others: &[&str]) -> bool
    ensures { result ≡ json.has_members_and (map (λ name. name.now) names.now)
        (map (λ name. name.now) others.now) (view value.now) }
{
    let size = size(value);
    names.len() <= size
        && size - names.len() == count_there(value, others)
        && has_each(value, names)
}

/// How many of these names the value has members with.
fn count_there(value: &Value, names: &[&str]) -> usize
    ensures { result ≡ length (filter (λ name. is_some (get name.now (view value.now))) names.now) }
{
    names.iter().filter(|name| has(value, name)).count()
}

/// Whether the value has a member with each of these names.
fn has_each(value: &Value, names: &[&str]) -> bool
    ensures { result ≡ list_all (λ name. is_some (get name.now (view value.now))) names.now }
{
    names.iter().all(|name| has(value, name))
}

/// Whether the value is an object with a member of that name.
fn has(value: &Value, name: &str) -> bool
    ensures { result ≡ is_some (get name.now (view value.now)) }
{
    value.get(name).is_some()
}

/// The number of members of an object, and 0 for any other value.
fn size(value: &Value) -> usize
    ensures { result ≡ json.size (view value.now) }
{
    match value {
        Value::Object(members) => members.len(),
        _ => 0,
    }
}

/// The text of the member with that name; `None` if there is no such string. Allocates nothing.
#[tactic(auto, unfolding(crate::specs::Json::text_at))]
pub fn text_at<'v>(value: &'v Value, name: &str) -> Option<&'v str>
    ensures { json.text_at name.now (view value.now) ≡ option_copied result }
{
    match value.get(name) {
        Some(member) => member.as_str(),
        None => None,
    }
}

/// The number of the member with that name; `Some(None)` if it is not whole, is negative, or does not fit 64 bits;
/// `None` if there is no such number. Allocates nothing.
#[tactic(auto, unfolding(crate::specs::Json::number_at))]
pub fn number_at(value: &Value, name: &str) -> Option<Option<u64>>
    ensures { json.number_at name.now (view value.now) ≡ result }
{
    match value.get(name)?.as_number() {
        Some(number) => Some(number.as_u64()),
        None => None,
    }
}

/// The elements of the member with that name; `None` if there is no such array. Allocates nothing.
#[tactic(auto, unfolding(crate::specs::Json::elements_at))]
pub fn elements_at<'v>(value: &'v Value, name: &str) -> Option<&'v [Value]>
    ensures { json.elements_at name.now (view value.now) ≡ option_map (λ values. map view values.now) result }
{
    match value.get(name) {
        Some(member) => elements_of(member),
        None => None,
    }
}

/// The elements of an array; `None` for any other value. Allocates nothing.
#[tactic(auto, unfolding(crate::specs::Json::elements_of))]
pub fn elements_of(value: &Value) -> Option<&[Value]>
    ensures { json.elements_of (view value.now) ≡ option_map (λ values. map view values.now) result }
{
    match value.as_array() {
        Some(values) => Some(values.as_slice()),
        None => None,
    }
}
