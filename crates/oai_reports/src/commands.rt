//! Why a line of JSON is no command, or one with an identifier, a setSpec or a text that may not be.
use crate::abouts::report_abouts;
use crate::causes::Diagnostic;
use crate::records::{report_bad_texts, report_records};
use crate::values::{elements_at, is_among, kind_of, text_at, text_of};
use oai_item::is_short_text;
use oai_names::may_be_set_spec;
use serde_json::Value;

/// Reports why the value is no command: refusal 2.
pub(crate) fn report_command(cause: &mut Diagnostic<'_>, value: &Value) {
    if !value.is_object() {
        let start = cause.start();
        cause.add(start, &["it is ", kind_of(value), ", and not an object"]);
    } else if value.get("deposit").is_some() {
        report_deposit(cause, value, "deposit");
    } else if value.get("put").is_some() {
        report_deposit(cause, value, "put");
    } else if value.get("delete").is_some() {
        report_names(cause, value, &["delete"], &[]);
        report_kind(cause, value, "delete", "a text");
    } else if value.get("purge").is_some() {
        report_names(cause, value, &["purge"], &[]);
        report_kind(cause, value, "purge", "a text");
    } else {
        report_new_set(cause, value);
    }
}

/// Reports why the object adds no set.
fn report_new_set(cause: &mut Diagnostic<'_>, value: &Value) {
    if value.get("set").is_none() {
        let start = cause.start();
        cause.add(
            start,
            &["it has no member \"deposit\", \"put\", \"delete\", \"purge\" or \"set\""],
        );
    }
    report_names(cause, value, &["set", "name"], &[]);
    report_kind(cause, value, "set", "a text");
    report_kind(cause, value, "name", "a text");
}

/// Reports what is wrong with the members of a deposit or a put, whose identifier has that name.
fn report_deposit(cause: &mut Diagnostic<'_>, value: &Value, name: &str) {
    report_names(cause, value, &[name, "sets", "records"], &["about"]);
    report_kind(cause, value, name, "a text");
    report_kind(cause, value, "sets", "a list");
    for (number, set) in elements_at(value, "sets").iter().enumerate() {
        if !matches!(set, Value::String(_)) {
            let place = set_place(cause, number);
            cause.add(
                place,
                &["it is ", kind_of(set), ", and a setSpec is a text"],
            );
        }
    }
    report_kind(cause, value, "records", "an object");
    report_records(cause, value);
    report_kind(cause, value, "about", "an object");
    report_abouts(cause, value);
}

/// Reports a member that is missing, or one of another name than these and those that may be missing.
fn report_names(cause: &mut Diagnostic<'_>, value: &Value, names: &[&str], others: &[&str]) {
    for name in names {
        if value.get(*name).is_none() {
            let start = cause.start();
            cause.add(start, &["member \"", name, "\" is missing"]);
        }
    }
    if let Value::Object(members) = value {
        for (name, _member) in members.iter() {
            if !is_among(name.as_str(), names) && !is_among(name.as_str(), others) {
                let place = cause.member(cause.start(), name.as_str());
                cause.add(
                    place,
                    &["\"", name.as_str(), "\" is no member of this command"],
                );
            }
        }
    }
}

/// Reports that the member with that name is of another kind.
fn report_kind(cause: &mut Diagnostic<'_>, value: &Value, name: &str, kind: &str) {
    let Some(member) = value.get(name) else {
        return;
    };
    if kind_of(member) != kind {
        let place = cause.member(cause.start(), name);
        cause.add(
            place,
            &["\"", name, "\" is ", kind_of(member), ", and not ", kind],
        );
    }
}

/// Where the set with that number of a deposit begins.
pub(crate) fn set_place(cause: &Diagnostic<'_>, number: usize) -> Option<usize> {
    cause.element(cause.member(cause.start(), "sets"), number)
}

/// The name of the member that has the identifier.
fn identifier_name(value: &Value) -> &'static str {
    if value.get("deposit").is_some() {
        "deposit"
    } else if value.get("put").is_some() {
        "put"
    } else {
        "delete"
    }
}

/// Reports that the identifier is none: refusal 3.
pub(crate) fn report_identifier(cause: &mut Diagnostic<'_>, value: &Value) {
    let name = identifier_name(value);
    let place = cause.member(cause.start(), name);
    let why = "is not a scheme, a colon and characters of a URI, of at most 512 bytes";
    cause.add(place, &["\"", text_at(value, name), "\" ", why]);
}

/// Reports the first setSpec that is none: refusal 4.
pub(crate) fn report_set_spec(cause: &mut Diagnostic<'_>, value: &Value) {
    for (number, set) in elements_at(value, "sets").iter().enumerate() {
        if !may_be_set_spec(text_of(set)) {
            let place = set_place(cause, number);
            report_no_set_spec(cause, place, text_of(set));
        }
    }
    let place = cause.member(cause.start(), "set");
    report_no_set_spec(cause, place, text_at(value, "set"));
}

/// Reports that the text is no setSpec.
fn report_no_set_spec(cause: &mut Diagnostic<'_>, place: Option<usize>, text: &str) {
    let why =
        "is not parts of letters, digits and -_.!~*'() joined by colons, of at most 256 bytes";
    cause.add(place, &["\"", text, "\" ", why]);
}

/// Reports the first text that may not be: refusal 5.
pub(crate) fn report_text(cause: &mut Diagnostic<'_>, value: &Value) {
    if value.get("name").is_some() && !is_short_text(text_at(value, "name")) {
        let place = cause.member(cause.start(), "name");
        let why = "is empty, longer than 512 bytes, or has a character that XML forbids";
        cause.add(place, &["\"name\" ", why]);
    }
    report_bad_texts(cause, value);
}
