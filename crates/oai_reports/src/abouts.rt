//! What is wrong with the elements that a deposit gives about its records.
use crate::causes::Diagnostic;
use crate::records::report_element;
use crate::values::{elements_of, kind_of, text_of};
use serde_json::Value;

/// Reports the first prefix that is no record's, or the first member that is no list of texts.
pub(crate) fn report_abouts(cause: &mut Diagnostic<'_>, value: &Value) {
    if let Some(Value::Object(abouts)) = value.get("about") {
        for (prefix, texts) in abouts.iter() {
            report_prefix(cause, value, prefix.as_str());
            report_texts(cause, prefix.as_str(), texts);
        }
    }
}

/// Reports that the command has no record under the prefix.
fn report_prefix(cause: &mut Diagnostic<'_>, value: &Value, prefix: &str) {
    let records = value.get("records");
    if records.and_then(|records| records.get(prefix)).is_none() {
        let place = about_place(cause, prefix);
        cause.add(
            place,
            &["\"", prefix, "\" is none of the prefixes in \"records\""],
        );
    }
}

/// Reports that what is about the record is no list, or the first of its elements that is no text.
fn report_texts(cause: &mut Diagnostic<'_>, prefix: &str, texts: &Value) {
    if !texts.is_array() {
        let place = about_place(cause, prefix);
        let kind = kind_of(texts);
        cause.add(
            place,
            &[
                "\"",
                prefix,
                "\" is ",
                kind,
                ", and not a list of elements' texts",
            ],
        );
    }
    for (number, text) in elements_of(texts).iter().enumerate() {
        if !text.is_string() {
            let place = text_place(cause, prefix, number);
            cause.add(
                place,
                &["it is ", kind_of(text), ", and not an element's text"],
            );
        }
    }
}

/// Reports the first text about the record that is no element, and where and why it is none: refusal 20.
pub(crate) fn report_elements_about(cause: &mut Diagnostic<'_>, value: &Value, prefix: &str) {
    for (number, text) in texts_about(value, prefix).iter().enumerate() {
        let place = text_place(cause, prefix, number);
        report_element(cause, place, "of an element about ", prefix, text_of(text));
    }
}

/// Reports that something is about a record that is an empty list: refusal 21.
pub(crate) fn report_about_nothing(
    cause: &mut Diagnostic<'_>,
    value: &Value,
    prefix: &str,
    record: &Value,
) {
    let is_empty_list = record.is_array() && elements_of(record).is_empty();
    if is_empty_list && !texts_about(value, prefix).is_empty() {
        let place = about_place(cause, prefix);
        cause.add(
            place,
            &[
                "nothing may be about \"",
                prefix,
                "\", which is an empty list in \"records\"",
            ],
        );
    }
}

/// The texts about the record with that prefix.
fn texts_about<'v>(value: &'v Value, prefix: &str) -> &'v [Value] {
    match value.get("about").and_then(|abouts| abouts.get(prefix)) {
        Some(texts) => elements_of(texts),
        None => &[],
    }
}

/// Where what is about the record with that prefix begins.
fn about_place(cause: &Diagnostic<'_>, prefix: &str) -> Option<usize> {
    cause.member(cause.member(cause.start(), "about"), prefix)
}

/// Where the text with that number about the record begins.
fn text_place(cause: &Diagnostic<'_>, prefix: &str, number: usize) -> Option<usize> {
    cause.element(about_place(cause, prefix), number)
}
