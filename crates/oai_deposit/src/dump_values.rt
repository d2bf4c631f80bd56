//! The JSON values that deposit lines are made of.
ghost use Rattle.std.specs.Prelude.{◌≡◌, ◌++◌, true, map, IfOk};
ghost use Rattle.std.specs.List.{before_first};
ghost use Rattle.serde_json.specs.Data.{string};
ghost use Rattle.serde_json.specs.View.{members_view, view};
ghost use Rattle.oai_json.specs.Json.{array_of, members_of};
ghost use Rattle.oai_deposit.specs.Calls.{put_texts};
ghost use Rattle.oai_deposit.specs.Dumps.{line_abouts, line_record};
ghost use Rattle.oai_deposit.specs.Shapes.{written_about, written_field, written_given, written_records, written_texts};
ghost use Rattle.oai_item.specs.Elements.{content_in, element_in, is_nameless};
ghost use Rattle.oai_item.specs.Givens.{given_back, given_of};
ghost use Rattle.oai_item.specs.Item.{are_rising};

use oai_item::{FieldTexts, Fields, ItemRecords};
use oai_names::SetSpec;
use serde_json::{Map, Value, put};
use std::alloc::{AllocError, Global};

/// A text. The error is out of memory.
pub(crate) fn text_value(alloc: Global, text: &str) -> Result<Value, AllocError>
    ensures { IfOk result (λ value. view value ≡ string text.now) }
{
    Ok(Value::String(String::from_str(alloc, text)?))
}

/// The setSpecs, as an array. The error is out of memory.
pub(crate) fn texts_value(alloc: Global, specs: &[SetSpec]) -> Result<Value, AllocError>
    ensures { IfOk result (λ value. view value ≡ written_texts specs.now) }
{
    let mut texts = Vec::with_capacity(alloc, specs.len())?;
    for spec in specs {
        let text = text_value(alloc, spec.as_str())?;
        texts.push(text).unwrap();
    }
    Ok(Value::Array(texts))
}

/// The field, as an array of its name and its text. The error is out of memory.
fn field_value(alloc: Global, field: &FieldTexts<'_>) -> Result<Value, AllocError>
    ensures { IfOk result (λ value. view value
        ≡ written_field (record { name = field.now.name.now; text = field.now.text.now })) }
{
    let mut pair = Vec::with_capacity(alloc, 2)?;
    let name = text_value(alloc, field.name)?;
    let text = text_value(alloc, field.text)?;
    pair.push(name).unwrap();
    pair.push(text).unwrap();
    Ok(Value::Array(pair))
}

/// The record itself as an array of its fields. The error is out of memory.
fn fields_value(alloc: Global, fields: Fields<'_>) -> Result<Value, AllocError>
    ensures { IfOk result (λ value. view value ≡ array_of (map written_field (content_in fields.entry))) }
{
    let mut left = fields;
    let mut values = Vec::new(alloc);
    match left.next() {
        Some(field) => {
            let value = field_value(alloc, &field)?;
            values.push(value)?;
            add_named(alloc, left, &mut values)?;
            Ok(Value::Array(values))
        }
        None => Ok(Value::Array(values)),
    }
}

/// Appends each field up to the first without a name. The error is out of memory.
fn add_named(alloc: Global, fields: Fields<'_>, values: &mut Vec<Value>) -> Result<(), AllocError>
    ensures { IfOk result (λ _. map view values.new.items
        ≡ map view values.old.items ++ map written_field (before_first is_nameless fields.entry)) }
{
    let mut left = fields;
    while let Some(field) = left.next_named() {
        let value = field_value(alloc, &field)?;
        values.push(value)?;
    }
    Ok(())
}

/// A record: the text of the element that its fields keep, or its fields. The error is out of memory.
fn record_value(alloc: Global, fields: Fields<'_>) -> Result<Value, AllocError>
    ensures { IfOk result (λ value. view value
        ≡ written_given (given_of (content_in fields.entry) (element_in fields.entry))) }
{
    match fields.element() {
        Some(text) => text_value(alloc, text),
        None => fields_value(alloc, fields),
    }
}

/// The records, whose prefixes rise, as an object. The error is out of memory.
pub(crate) fn records_value(alloc: Global, records: ItemRecords<'_>) -> Result<Value, AllocError>
    requires { are_rising records ≡ true }
    ensures { IfOk result (λ value. view value ≡ written_records (map line_record (map given_back records.entry))) }
{
    let mut left = records;
    let mut members = Map::new(alloc);
    while let Some(record) = left.next() {
        let value = record_value(alloc, record.fields)?;
        put(&mut members, alloc, record.prefix, value)?;
    }
    Ok(Value::Object(members))
}

/// The elements about a record as an array of their texts. The error is out of memory.
fn about_value(alloc: Global, about: Fields<'_>) -> Result<Value, AllocError>
    ensures { IfOk result (λ value. view value ≡ written_texts (map (λ field. field.text) about.entry)) }
{
    let mut left = about;
    let mut texts = Vec::new(alloc);
    while let Some(field) = left.next() {
        let text = text_value(alloc, field.text)?;
        texts.push(text)?;
    }
    Ok(Value::Array(texts))
}

/// The members of an object of what is about the records, whose prefixes rise: of those about which something is. The error
/// is out of memory.
pub(crate) fn abouts_members(
    alloc: Global,
    records: ItemRecords<'_>,
) -> Result<Map<String, Value>, AllocError>
    requires { are_rising records ≡ true }
    ensures { IfOk result (λ members. members_view members.entries
        ≡ members_of (map written_about (line_abouts (map given_back records.entry)))) }
{
    let mut left = records;
    let mut members = Map::new(alloc);
    while let Some(record) = left.next() {
        put_about(alloc, record.prefix, record.fields.about(), &mut members)?;
    }
    Ok(members)
}

/// Puts what is about the record of that prefix among the members, if something is. The error is out of memory.
#[tactic(auto, using(crate::proofs::ValueLemmas::texts_not_put, crate::proofs::ValueLemmas::texts_put))]
fn put_about(
    alloc: Global,
    prefix: &str,
    about: Fields<'_>,
    members: &mut Map<String, Value>,
) -> Result<(), AllocError>
    ensures { IfOk result (λ _. members_view members.new.entries
        ≡ put_texts prefix.now (map (λ field. field.text) about.entry) (members_view members.old.entries)) }
{
    if about.is_empty() {
        return Ok(());
    }
    let value = about_value(alloc, about)?;
    put(members, alloc, prefix, value)
}
