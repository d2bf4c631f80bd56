ghost use Rattle.std.specs.Prelude.{◌≡◌, ◌&&◌, map, Some};
ghost use Rattle.serde_json.specs.View.{view};
ghost use Rattle.oai_names.specs.Optional.{each_of};
ghost use Rattle.oai_json.specs.Json.{has_members};
ghost use Rattle.oai_config.specs.Shapes as shape;
ghost use Rattle.oai_config.specs.ReadingWork.{GivesRead};

use crate::faults::ReadFault;
use crate::members::{read_texts, read_two};
use oai_item::Forms;
use oai_json::has_members;
use oai_names::{Sequence, Text};
use oai_settings::FormatSettings;
use serde_json::Value;
use std::alloc::Global;

/// The format of each value, in order, of records of these forms; `BadShape` at the first that has none.
#[tactic(auto, using(oai_json::proofs::ReadingLemmas::starts))]
pub(crate) fn each_format(
    alloc: Global,
    forms: Forms,
    values: &[Value],
) -> Result<Sequence<FormatSettings>, ReadFault>
    ensures { GivesRead result (each_of (shape.format_in forms) (map view values.now)) }
{
    let mut formats = Vec::new(alloc);
    for value in values {
        formats.push(read_format(alloc, forms, value)?)?;
    }
    Ok(Sequence::new(formats))
}

/// The format of an object with exactly its members; `BadShape` for any other value. Without the member `fields`, if that
/// may be missing, it has no fields.
#[tactic(auto, unfolding(crate::specs::Shapes::format_in))]
fn read_format(alloc: Global, forms: Forms, value: &Value) -> Result<FormatSettings, ReadFault>
    ensures { GivesRead result (shape.format_in forms (view value.now)) }
{
    if is_without_fields(forms, value) {
        return format_from(alloc, value, Sequence::new(Vec::new(alloc)));
    }
    if !has_members(value, &["prefix", "schema", "namespace", "root", "fields"]) {
        return Err(ReadFault::BadShape);
    }
    let fields = fields_at(alloc, forms, value)?;
    format_from(alloc, value, fields)
}

/// Whether the value is an object with exactly the members of a format without fields, where there may be one.
fn is_without_fields(forms: Forms, value: &Value) -> bool
    ensures { result ≡ (shape.takes_elements forms && has_members shape.element_members (view value.now)) }
{
    match forms {
        Forms::Fields => false,
        Forms::Elements => has_members(value, &["prefix", "schema", "namespace", "root"]),
    }
}

/// The format with these fields, from the other members of an object; `BadShape` if one of them is no string.
fn format_from(
    alloc: Global,
    value: &Value,
    fields: Sequence<Text>,
) -> Result<FormatSettings, ReadFault>
    ensures { GivesRead result (shape.format_from (view value.now) (Some fields)) }
{
    let (prefix, schema) = read_two(alloc, value, "prefix", "schema")?;
    let (namespace, root) = read_two(alloc, value, "namespace", "root")?;
    Ok(FormatSettings {
        prefix,
        schema,
        namespace,
        root,
        fields,
    })
}

/// The fields, from the member `fields`; `BadShape` if it is no list of strings, or is empty where it may be missing.
#[tactic(auto, unfolding(crate::specs::Shapes::fields_at))]
fn fields_at(alloc: Global, forms: Forms, value: &Value) -> Result<Sequence<Text>, ReadFault>
    ensures { GivesRead result (shape.fields_at forms (view value.now)) }
{
    let fields = read_texts(alloc, value, "fields")?;
    told_fields(forms, fields)
}

/// The fields that the member `fields` lists; `BadShape` if it is empty where it may be missing.
fn told_fields(forms: Forms, fields: Sequence<Text>) -> Result<Sequence<Text>, ReadFault>
    ensures { GivesRead result (shape.fields_told forms fields) }
{
    match forms {
        Forms::Elements if fields.is_empty() => Err(ReadFault::BadShape),
        _ => Ok(fields),
    }
}
