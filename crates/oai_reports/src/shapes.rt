//! Fault 2, BadShape: members that are missing, unknown or of another kind, and texts of another length or character.
use crate::reports::{Object, Report};
use crate::repositories::report_repositories;
use crate::values::{elements_of, is_among, kind_of, text_at, text_of};
use oai_item::is_short_text;
use serde_json::Value;

/// The members of a configuration.
const MEMBERS: [&str; 3] = ["base", "cache", "repositories"];

/// Why a text is not what it should be.
const NO_SHORT_TEXT: &str = "is empty, longer than 512 bytes, or has a character that XML forbids";

/// Adds each fault of shape in the configuration.
pub(crate) fn report_shapes(report: &mut Report<'_>, value: &Value) {
    let whole = Object::whole();
    if !report_members(report, whole, value, &MEMBERS) {
        return;
    }
    report_short_text(report, whole, value, "base");
    report_kind(report, whole, value, "cache", "a number");
    if !report_kind(report, whole, value, "repositories", "a list") {
        return;
    }
    report_repositories(report, value);
}

/// Adds what is wrong with the names of the object's members; false if the value is no object.
pub(crate) fn report_members(
    report: &mut Report<'_>,
    object: Object<'_>,
    value: &Value,
    names: &[&str],
) -> bool {
    report_all_members(report, object, value, names, &[])
}

/// The same, of an object that may have some others too.
pub(crate) fn report_all_members(
    report: &mut Report<'_>,
    object: Object<'_>,
    value: &Value,
    names: &[&str],
    others: &[&str],
) -> bool {
    if !value.is_object() {
        report.add(object, &["it is ", kind_of(value), ", and not an object"]);
        return false;
    }
    report_missing(report, object, value, names);
    report_unknown(report, object, value, names, others);
    true
}

/// Adds each name of which the object has no member.
fn report_missing(report: &mut Report<'_>, object: Object<'_>, value: &Value, names: &[&str]) {
    for name in names {
        if value.get(*name).is_none() {
            report.add(object, &["member \"", name, "\" is missing"]);
        }
    }
}

/// Adds each member of the object that has another name.
fn report_unknown(
    report: &mut Report<'_>,
    object: Object<'_>,
    value: &Value,
    names: &[&str],
    others: &[&str],
) {
    if let Value::Object(members) = value {
        for (name, _member) in members.iter() {
            if !is_among(name.as_str(), names) && !is_among(name.as_str(), others) {
                report.add_member(object, name.as_str(), &["is no member that is known here"]);
            }
        }
    }
}

/// Adds that the member with that name is of another kind than that one, if it is; false if there is none of that kind.
pub(crate) fn report_kind(
    report: &mut Report<'_>,
    object: Object<'_>,
    value: &Value,
    name: &str,
    kind: &str,
) -> bool {
    let Some(member) = value.get(name) else {
        return false;
    };
    if kind_of(member) == kind {
        return true;
    }
    report.add_member(object, name, &["is ", kind_of(member), ", and not ", kind]);
    false
}

/// Adds that the member with that name is no text of 1 to 512 bytes that an XML document may hold, if it is not.
pub(crate) fn report_short_text(
    report: &mut Report<'_>,
    object: Object<'_>,
    value: &Value,
    name: &str,
) {
    if report_kind(report, object, value, name, "a text") && !is_short_text(text_at(value, name)) {
        report.add_member(object, name, &[NO_SHORT_TEXT]);
    }
}

/// Adds that the member with that name is none of these words, if it is not.
pub(crate) fn report_word(
    report: &mut Report<'_>,
    object: Object<'_>,
    value: &Value,
    name: &str,
    words: &[&str],
    listed: &str,
) {
    if report_kind(report, object, value, name, "a text")
        && !is_among(text_at(value, name), words)
    {
        report.add_member(object, name, &["is none of ", listed]);
    }
}

/// Adds each element of the list in the member with that name that is no text; each that is empty, too long or of
/// other characters too, if the texts are short ones.
pub(crate) fn report_texts(
    report: &mut Report<'_>,
    object: Object<'_>,
    value: &Value,
    name: &str,
    are_short: bool,
) {
    let Some(member) = value.get(name) else {
        return;
    };
    for (number, element) in elements_of(member).iter().enumerate() {
        if !matches!(element, Value::String(_)) {
            report.add_element(
                object,
                name,
                number,
                &["is ", kind_of(element), ", and not a text"],
            );
        } else if are_short && !is_short_text(text_of(element)) {
            report.add_element(object, name, number, &[NO_SHORT_TEXT]);
        }
    }
}
