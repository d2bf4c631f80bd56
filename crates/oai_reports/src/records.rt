//! What is wrong with the records of a deposit.
use crate::abouts::{report_about_nothing, report_elements_about};
use crate::causes::Diagnostic;
use crate::values::{elements_of, kind_of, text_of};
use oai_item::{Format, Formats, is_root_of};
use oai_names::is_xml_text;
use oai_xml::{ElementText, Root, XmlFault};
use serde_json::Value;
use std::alloc::Global;

/// What a field is.
const FIELD: &str = "a field is a list of two texts";

/// Reports the first record or field that is of another kind.
pub(crate) fn report_records(cause: &mut Diagnostic<'_>, value: &Value) {
    if let Some(Value::Object(records)) = value.get("records") {
        for (prefix, fields) in records.iter() {
            report_fields(cause, prefix.as_str(), fields);
        }
    }
}

/// Reports the first field of the record that is of another kind. A text is an element.
fn report_fields(cause: &mut Diagnostic<'_>, prefix: &str, fields: &Value) {
    if !fields.is_array() && !fields.is_string() {
        let place = record_place(cause, prefix);
        cause.add(
            place,
            &[
                "\"",
                prefix,
                "\" is ",
                kind_of(fields),
                ", and neither a list of fields nor an element's text",
            ],
        );
    }
    for (number, field) in elements_of(fields).iter().enumerate() {
        if !is_field(field) {
            let place = field_place(cause, prefix, number);
            report_no_field(cause, place, field);
        }
    }
}

/// Reports the first text that is no element, of a record or about one, and where and why it is none: refusal 20.
pub(crate) fn report_elements(cause: &mut Diagnostic<'_>, value: &Value) {
    if let Some(Value::Object(records)) = value.get("records") {
        for (prefix, text) in records.iter() {
            let prefix = prefix.as_str();
            if let Some(text) = text.as_str() {
                let place = record_place(cause, prefix);
                report_element(cause, place, "of ", prefix, text);
            }
            report_elements_about(cause, value, prefix);
        }
    }
}

/// Reports where and why the text at that place, which is that of a record or about it, is no element, if it is none.
pub(crate) fn report_element(
    cause: &mut Diagnostic<'_>,
    place: Option<usize>,
    relation: &str,
    prefix: &str,
    text: &str,
) {
    let alloc = cause.alloc();
    let Err(XmlFault::Refused { offset, cause: why }) = ElementText::read(alloc, text) else {
        return;
    };
    let Ok(told) = format!(in alloc; "at byte {offset} {relation}\"{prefix}\": {why}") else {
        return;
    };
    cause.add(place, &[told.as_str()]);
}

/// Reports the first record that is not one of its format, or that something is about and that is not there: refusal 21.
pub(crate) fn report_other_records(cause: &mut Diagnostic<'_>, value: &Value, formats: &Formats) {
    if let Some(Value::Object(records)) = value.get("records") {
        for (prefix, record) in records.iter() {
            let prefix = prefix.as_str();
            if let Some(format) = formats.find_named(prefix) {
                report_other_record(cause, prefix, record, format);
            }
            report_about_nothing(cause, value, prefix, record);
        }
    }
}

/// Reports that the record is a list, and its format has no fields, or that its root is not the format's.
fn report_other_record(cause: &mut Diagnostic<'_>, prefix: &str, record: &Value, format: &Format) {
    let place = record_place(cause, prefix);
    let Some(text) = record.as_str() else {
        if format.fields.is_empty() {
            cause.add(
                place,
                &[
                    "the format \"",
                    prefix,
                    "\" has no fields: a record is an element's text",
                ],
            );
        }
        return;
    };
    if !has_root(cause.alloc(), format, text) {
        let namespace = format.namespace.as_str();
        cause.add(
            place,
            &[
                "the root is not \"",
                local_part(format),
                "\" of \"",
                namespace,
                "\"",
            ],
        );
    }
}

/// Whether the element that the text is has the format's root; also if it is none, or memory runs out.
fn has_root(alloc: Global, format: &Format, text: &str) -> bool {
    let Ok(element) = ElementText::read(alloc, text) else {
        return true;
    };
    match Root::of(alloc, element.as_str()) {
        Ok(root) => is_root_of(format, &root),
        Err(_) => true,
    }
}

/// The local part of the name of the format's root.
fn local_part(format: &Format) -> &str {
    let root = format.root.as_str();
    match root.split_once(':') {
        Some((_, local)) => local,
        None => root,
    }
}

/// Whether the value is a list of two texts.
fn is_field(value: &Value) -> bool {
    matches!(elements_of(value), [Value::String(_), Value::String(_)])
}

/// Reports that the value at that place is no field.
fn report_no_field(cause: &mut Diagnostic<'_>, place: Option<usize>, value: &Value) {
    match value {
        Value::String(text) => cause.add(
            place,
            &["\"", text.as_str(), "\" is a text, and ", FIELD],
        ),
        Value::Array(_) => cause.add(place, &["it is another list, and ", FIELD]),
        _ => cause.add(place, &["it is ", kind_of(value), ", and ", FIELD]),
    }
}

/// Reports the first text of a field that has a character which no XML document may hold.
pub(crate) fn report_bad_texts(cause: &mut Diagnostic<'_>, value: &Value) {
    if let Some(Value::Object(records)) = value.get("records") {
        for (prefix, fields) in records.iter() {
            report_bad_text(cause, prefix.as_str(), fields);
        }
    }
}

/// Reports the first text of the record's fields that has such a character.
fn report_bad_text(cause: &mut Diagnostic<'_>, prefix: &str, fields: &Value) {
    for (number, field) in elements_of(fields).iter().enumerate() {
        if !is_xml_text(part_of(field, 1)) {
            let place = cause.element(field_place(cause, prefix, number), 1);
            let name = part_of(field, 0);
            cause.add(
                place,
                &[
                    "the text of \"",
                    name,
                    "\" has a character that XML forbids",
                ],
            );
        }
    }
}

/// The name of a field, or its text.
fn part_of(field: &Value, number: usize) -> &str {
    match elements_of(field).get(number) {
        Some(part) => text_of(part),
        None => "",
    }
}

/// Reports the first record in a format that is not among these: refusal 7.
pub(crate) fn report_formats(cause: &mut Diagnostic<'_>, value: &Value, formats: &Formats) {
    if let Some(Value::Object(records)) = value.get("records") {
        for (prefix, _fields) in records.iter() {
            if formats.find_named(prefix.as_str()).is_none() {
                let place = record_place(cause, prefix.as_str());
                cause.add(
                    place,
                    &["the repository has no format \"", prefix.as_str(), "\""],
                );
            }
        }
    }
}

/// Reports the first field that its format does not have: refusal 9.
pub(crate) fn report_unknown_fields(cause: &mut Diagnostic<'_>, value: &Value, formats: &Formats) {
    if let Some(Value::Object(records)) = value.get("records") {
        for (prefix, fields) in records.iter() {
            report_unknown_field(cause, prefix.as_str(), fields, formats);
        }
    }
}

/// Reports the first field of the record that its format does not have.
fn report_unknown_field(
    cause: &mut Diagnostic<'_>,
    prefix: &str,
    fields: &Value,
    formats: &Formats,
) {
    for (number, field) in elements_of(fields).iter().enumerate() {
        let name = part_of(field, 0);
        if !has_field(formats, prefix, name) {
            let place = cause.element(field_place(cause, prefix, number), 0);
            cause.add(
                place,
                &["the format \"", prefix, "\" has no field \"", name, "\""],
            );
        }
    }
}

/// Whether the format with that prefix has a field with that name.
pub(crate) fn has_field(formats: &Formats, prefix: &str, name: &str) -> bool {
    match formats.find_named(prefix) {
        Some(format) => format
            .fields
            .as_slice()
            .iter()
            .any(|field| field.as_str() == name),
        None => false,
    }
}

/// Where the record with that prefix begins.
fn record_place(cause: &Diagnostic<'_>, prefix: &str) -> Option<usize> {
    cause.member(cause.member(cause.start(), "records"), prefix)
}

/// Where the field with that number of the record begins.
fn field_place(cause: &Diagnostic<'_>, prefix: &str, number: usize) -> Option<usize> {
    cause.element(record_place(cause, prefix), number)
}
