//! The shape of the repositories and of their formats.
use crate::reports::{Object, Report};
use crate::shapes::{
    report_all_members, report_kind, report_members, report_short_text, report_texts, report_word,
};
use crate::values::{elements_at, elements_of, kind_of, text_at};
use oai_xml::{ElementText, XmlFault};
use serde_json::Value;

/// The members that a repository has.
const MEMBERS: [&str; 11] = [
    "name",
    "repositoryName",
    "adminEmail",
    "earliestDatestamp",
    "deletedRecord",
    "granularity",
    "chunk",
    "lifetime",
    "lists",
    "items",
    "formats",
];

/// Those that it may have.
const FURTHER_MEMBERS: [&str; 2] = ["description", "sets"];

/// The members of a format.
const FORMAT_MEMBERS: [&str; 5] = ["prefix", "schema", "namespace", "root", "fields"];

/// The maximum number of addresses.
const MAX_ADDRESSES: usize = 16;

/// Adds each fault of shape in the repositories of the configuration.
pub(crate) fn report_repositories(report: &mut Report<'_>, value: &Value) {
    let repositories = elements_at(value, "repositories");
    if repositories.is_empty() {
        report.add_member(Object::whole(), "repositories", &["is empty"]);
    }
    for (number, repository) in repositories.iter().enumerate() {
        let object = Object::repository(number, text_at(repository, "name"));
        if report_all_members(report, object, repository, &MEMBERS, &FURTHER_MEMBERS) {
            report_repository(report, object, repository);
        }
    }
}

/// Adds each fault of shape in the members of the repository.
fn report_repository(report: &mut Report<'_>, object: Object<'_>, value: &Value) {
    report_kind(report, object, value, "name", "a text");
    report_short_text(report, object, value, "repositoryName");
    report_addresses(report, object, value);
    report_kind(report, object, value, "earliestDatestamp", "a text");
    let policies = "\"no\", \"transient\" and \"persistent\"";
    report_word(
        report,
        object,
        value,
        "deletedRecord",
        &["no", "transient", "persistent"],
        policies,
    );
    let words = "\"days\" and \"seconds\"";
    report_word(
        report,
        object,
        value,
        "granularity",
        &["days", "seconds"],
        words,
    );
    for name in &["chunk", "lifetime", "lists", "items"] {
        report_kind(report, object, value, name, "a number");
    }
    if report_kind(report, object, value, "formats", "a list") {
        report_formats(report, object, value);
    }
    report_elements(report, object, value, "description");
    report_sets(report, object, value);
}

/// Adds each fault of shape in the elements that describe sets.
fn report_sets(report: &mut Report<'_>, object: Object<'_>, value: &Value) {
    if !report_kind(report, object, value, "sets", "an object") {
        return;
    }
    let Some(sets) = value.get("sets") else {
        return;
    };
    if let Value::Object(members) = sets {
        for (spec, elements) in members.iter() {
            report_set(report, object, spec.as_str(), elements);
        }
    }
}

/// Adds that what describes a set is no list of texts of XML elements, if it is none.
fn report_set(report: &mut Report<'_>, object: Object<'_>, spec: &str, elements: &Value) {
    if !elements.is_array() {
        let why = &["\"", spec, "\" is ", kind_of(elements), ", and not a list"];
        report.add_member(object, "sets", why);
        return;
    }
    for element in elements_of(elements) {
        if !is_element(report, element) {
            let why = &["\"", spec, "\" has what is no text of an XML element"];
            report.add_member(object, "sets", why);
        }
    }
}

/// Whether the value is a text of an XML element.
fn is_element(report: &Report<'_>, value: &Value) -> bool {
    match value.as_str() {
        Some(text) => ElementText::read(report.alloc(), text).is_ok(),
        None => false,
    }
}

/// Adds each element of the list in the member with that name that is no text of an XML element.
fn report_elements(report: &mut Report<'_>, object: Object<'_>, value: &Value, name: &str) {
    if !report_kind(report, object, value, name, "a list") {
        return;
    }
    report_texts(report, object, value, name, false);
    for (number, element) in elements_at(value, name).iter().enumerate() {
        if let Some(text) = element.as_str() {
            report_element(report, object, name, number, text);
        }
    }
}

/// Adds that the text is no XML element, where and why, if it is none.
fn report_element(
    report: &mut Report<'_>,
    object: Object<'_>,
    name: &str,
    number: usize,
    text: &str,
) {
    let alloc = report.alloc();
    let Err(XmlFault::Refused { offset, cause }) = ElementText::read(alloc, text) else {
        return;
    };
    let Ok(why) = format!(in alloc; "is no XML element, at its byte {offset}: {cause}") else {
        return;
    };
    report.add_element(object, name, number, &[why.as_str()]);
}

/// Adds each fault of the addresses.
fn report_addresses(report: &mut Report<'_>, object: Object<'_>, value: &Value) {
    if !report_kind(report, object, value, "adminEmail", "a list") {
        return;
    }
    let count = elements_at(value, "adminEmail").len();
    if count == 0 || MAX_ADDRESSES < count {
        report.add_member(object, "adminEmail", &["does not have 1 to 16 addresses"]);
    }
    report_texts(report, object, value, "adminEmail", true);
}

/// Adds each fault of shape in the formats of the repository.
fn report_formats(report: &mut Report<'_>, object: Object<'_>, value: &Value) {
    for (number, format) in elements_at(value, "formats").iter().enumerate() {
        let object = object.format(number);
        if report_members(report, object, format, members_of(format)) {
            report_format(report, object, format);
        }
    }
}

/// The members that a format has: one without `fields` takes elements alone.
fn members_of(format: &Value) -> &[&str] {
    match format.get("fields") {
        Some(_) => &FORMAT_MEMBERS,
        None => &FORMAT_MEMBERS[..4],
    }
}

/// Adds each fault of shape in the members of the format.
fn report_format(report: &mut Report<'_>, object: Object<'_>, value: &Value) {
    for name in &["prefix", "schema", "namespace", "root"] {
        report_kind(report, object, value, name, "a text");
    }
    if value.get("fields").is_some() && report_kind(report, object, value, "fields", "a list") {
        report_field_names(report, object, value);
    }
}

/// Adds that the fields are none, though they stand there, or each that is no text.
fn report_field_names(report: &mut Report<'_>, object: Object<'_>, value: &Value) {
    if elements_at(value, "fields").is_empty() {
        let why = "is empty: a format whose records are elements has no such member";
        report.add_member(object, "fields", &[why]);
    }
    report_texts(report, object, value, "fields", false);
}
