//! Fault 5, BadFormat: what is wrong with formats whose members have their kinds.
use crate::reports::{Object, Report};
use crate::values::{elements_at, text_at, text_of};
use oai_item::is_short_text;
use oai_names::may_be_prefix;
use serde_json::Value;
use std::collections::BTreeSet;

/// The maximum number of formats of a repository beside oai_dc.
const MAX_FORMATS: usize = 63;

/// The maximum number of fields of a format.
const MAX_FIELDS: usize = 256;

/// The maximum length of an element's name in bytes.
const MAX_NAME_BYTES: usize = 64;

/// Adds each fault of the repository's formats.
pub(crate) fn report_formats(report: &mut Report<'_>, object: Object<'_>, repository: &Value) {
    let formats = elements_at(repository, "formats");
    if MAX_FORMATS < formats.len() {
        report.add_member(object, "formats", &["has more than 63 formats"]);
    }
    report_prefixes(report, object, formats);
    for (number, format) in formats.iter().enumerate() {
        report_format(report, object.format(number), format);
    }
}

/// Adds each prefix that stands before, or that each repository has.
fn report_prefixes(report: &mut Report<'_>, object: Object<'_>, formats: &[Value]) {
    let mut seen = BTreeSet::new(report.alloc());
    let _ = seen.insert("oai_dc");
    for (number, format) in formats.iter().enumerate() {
        if let Ok(false) = seen.insert(text_at(format, "prefix")) {
            let why = "is the prefix of another format, or oai_dc";
            report.add_member(object.format(number), "prefix", &[why]);
        }
    }
}

/// Adds each fault of the format alone.
fn report_format(report: &mut Report<'_>, object: Object<'_>, format: &Value) {
    if !may_be_prefix(text_at(format, "prefix")) {
        let why = "is not 1 to 64 letters, digits and -_.!~*'()";
        report.add_member(object, "prefix", &[why]);
    }
    report_uri(report, object, format, "schema");
    report_uri(report, object, format, "namespace");
    if !is_name(text_at(format, "root")) {
        report.add_member(object, "root", &[NO_NAME]);
    }
    report_fields(report, object, elements_at(format, "fields"));
}

/// Why a text is no name of an element.
const NO_NAME: &str = "is not a letter or _, and at most 63 letters, digits and -_. behind it";

/// Adds that the member with that name may be no URI, if so.
fn report_uri(report: &mut Report<'_>, object: Object<'_>, format: &Value, name: &str) {
    let text = text_at(format, name);
    if !is_short_text(text) || has_blank(text) {
        let why = "is empty, longer than 512 bytes, or has a blank or a character that XML forbids";
        report.add_member(object, name, &[why]);
    }
}

/// Adds each fault of the format's fields.
fn report_fields(report: &mut Report<'_>, object: Object<'_>, fields: &[Value]) {
    if MAX_FIELDS < fields.len() {
        report.add_member(object, "fields", &["has more than 256 names"]);
    }
    let mut seen = BTreeSet::new(report.alloc());
    for (number, field) in fields.iter().enumerate() {
        let name = text_of(field);
        if !is_name(name) {
            report.add_element(object, "fields", number, &[NO_NAME]);
        }
        if let Ok(false) = seen.insert(name) {
            report.add_element(object, "fields", number, &["stands twice"]);
        }
    }
}

/// Whether the text is an element's name (XML 1.0, section 2.3, `Name` in ASCII and without colons) of at most 64 bytes.
fn is_name(text: &str) -> bool {
    let bytes = text.as_bytes();
    match bytes.first() {
        Some(first) => {
            (first.is_ascii_alphabetic() || *first == b'_')
                && bytes.len() <= MAX_NAME_BYTES
                && bytes
                    .iter()
                    .all(|b| b.is_ascii_alphanumeric() || b"-_.".contains(b))
        }
        None => false,
    }
}

/// Whether the text has a space, a tab or a line end.
fn has_blank(text: &str) -> bool {
    text.as_bytes().iter().any(|b| b" \t\r\n".contains(b))
}
