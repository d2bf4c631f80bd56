ghost use Rattle.std.specs.Prelude.{◌≡◌, true, map, is_some, string_bytes, Some};
ghost use Rattle.std.specs.Option.{option_copied};
ghost use Rattle.serde_json.specs.Find.{as_object};
ghost use Rattle.serde_json.specs.View.{view};
ghost use Rattle.oai_names.specs.Optional.{each_of};
ghost use Rattle.oai_deposit.specs.Calls.{Anywhere};
ghost use Rattle.oai_json.specs.Json as json;
ghost use Rattle.oai_deposit.specs.Lines as lines;
ghost use Rattle.oai_deposit.specs.Readings.{Finds};

use crate::deposit_texts::RecordTexts;
use crate::faults::LineFault;
use crate::members::text_of;
use oai_item::{Field, Forms, Given, LineRefusal};
use oai_json::elements_of;
use oai_names::{Sequence, Text};
use serde_json::Value;
use std::alloc::Global;
use std::collections::BTreeMap;

/// The records of the member `records`, of these forms; `BadCommand` if there is no such member.
#[tactic(auto, unfolding(crate::specs::Lines::records_at))]
pub(crate) fn records_at(
    alloc: Global,
    forms: Forms,
    value: &Value,
) -> Result<RecordTexts, LineFault>
    ensures { Finds Anywhere result (lines.records_at forms (view value.now)) }
{
    match value.get("records") {
        Some(records) => records_of(alloc, forms, records),
        None => Err(LineFault::Refused(LineRefusal::BadCommand)),
    }
}

/// The records of the members of an object; `BadCommand` for any other value. Each text is copied once.
#[tactic(auto, unfolding(crate::specs::Lines::records_of))]
fn records_of(alloc: Global, forms: Forms, value: &Value) -> Result<RecordTexts, LineFault>
    ensures { Finds (is_some (as_object (view value.now)) ≡ true) result
        (lines.records_of forms (view value.now)) }
{
    match value {
        Value::Object(members) => records_in(alloc, forms, members),
        _ => Err(LineFault::Refused(LineRefusal::BadCommand)),
    }
}

/// The record of each member, in the order of the prefixes.
#[tactic(auto, using(oai_json::proofs::ReadingLemmas::starts), unfolding(crate::specs::Lines::record_of))]
fn records_in(
    alloc: Global,
    forms: Forms,
    members: &BTreeMap<String, Value>,
) -> Result<RecordTexts, LineFault>
    ensures { Finds Anywhere result
        (each_of (lines.record_of forms) (map (λ m. (string_bytes m.0, view m.1)) members.now.entries)) }
{
    let mut records = Vec::new(alloc);
    for (prefix, given) in members.iter() {
        let prefix = Text::new(alloc, prefix.as_str())?;
        records.push((prefix, given_of(alloc, forms, given)?))?;
    }
    Ok(RecordTexts::new(Sequence::new(records)))
}

/// The text of a string, if a record may be an element, or the fields of an array; `BadCommand` for any other value.
#[tactic(auto, unfolding(crate::specs::Lines::given_read))]
fn given_of(alloc: Global, forms: Forms, value: &Value) -> Result<Given, LineFault>
    ensures { Finds Anywhere result (lines.given_read forms (view value.now)) }
{
    match element_text(forms, value) {
        Some(text) => Ok(Given::Whole(Text::new(alloc, text)?)),
        None => Ok(Given::Listed(field_list_of(alloc, value)?)),
    }
}

/// The text of a string, if a record may be an element.
fn element_text(forms: Forms, value: &Value) -> Option<&str>
    ensures { option_copied result ≡ lines.element_text forms (view value.now) }
{
    match forms {
        Forms::Fields => None,
        Forms::Elements => value.as_str(),
    }
}

/// The fields of an array; `BadCommand` for any other value.
#[tactic(auto, unfolding(crate::specs::Lines::field_list_of))]
fn field_list_of(alloc: Global, value: &Value) -> Result<Sequence<Field>, LineFault>
    ensures { Finds (is_some (json.elements_of (view value.now)) ≡ true) result
        (lines.field_list_of (view value.now)) }
{
    match elements_of(value) {
        Some(values) => fields_in(alloc, values),
        None => Err(LineFault::Refused(LineRefusal::BadCommand)),
    }
}

/// The field of each value; `BadCommand` at the first that is none.
#[tactic(auto, using(oai_json::proofs::ReadingLemmas::starts))]
fn fields_in(alloc: Global, values: &[Value]) -> Result<Sequence<Field>, LineFault>
    ensures { Finds Anywhere result (each_of lines.field_of (map view values.now)) }
{
    let mut fields = Vec::new(alloc);
    for value in values {
        fields.push(field_of(alloc, value)?)?;
    }
    Ok(Sequence::new(fields))
}

/// The field of `[NAME,TEXT]`; `BadCommand` for any other value.
#[tactic(auto, unfolding(crate::specs::Lines::field_of))]
fn field_of(alloc: Global, value: &Value) -> Result<Field, LineFault>
    ensures { Finds (is_some (lines.field_of (view value.now)) ≡ true) result
        (lines.field_of (view value.now)) }
{
    match elements_of(value) {
        Some(values) => pair_of(alloc, values),
        None => Err(LineFault::Refused(LineRefusal::BadCommand)),
    }
}

/// The field of two strings; `BadCommand` for any other values.
#[tactic(auto, unfolding(crate::specs::Lines::pair_of))]
fn pair_of(alloc: Global, values: &[Value]) -> Result<Field, LineFault>
    ensures { Finds (is_some (lines.pair_of (map view values.now)) ≡ true) result
        (lines.pair_of (map view values.now)) }
{
    match values {
        [name, text] => field_from(alloc, text_of(name)?, text_of(text)?),
        _ => Err(LineFault::Refused(LineRefusal::BadCommand)),
    }
}

/// The field with that name and that text.
pub(crate) fn field_from(alloc: Global, name: &str, text: &str) -> Result<Field, LineFault>
    ensures { Finds Anywhere result (Some (record { name = name.now; text = text.now })) }
{
    Ok(Field {
        name: Text::new(alloc, name)?,
        text: Text::new(alloc, text)?,
    })
}
