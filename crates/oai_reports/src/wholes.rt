//! The report on a whole configuration, for each of its faults.
use crate::dates::report_date;
use crate::formats::report_formats;
use crate::places::{bad_place, column_at, line_at, utf8_length, why_bad};
use crate::reports::{Object, Report};
use crate::shapes::report_shapes;
use crate::values::{elements_at, text_at};
use oai_config::ReadFault;
use serde_json::Value;
use std::alloc::Global;
use std::collections::BTreeSet;

/// The maximum number of repositories.
const MAX_REPOSITORIES: usize = 1_000;

/// Where the configuration in the text has the fault, and why it is one: a line for each place, at most 20. Nothing if it
/// does not have that fault, or memory ran out.
pub fn report_of(alloc: Global, text: &[u8], fault: ReadFault) -> String {
    match str::from_utf8(text) {
        Ok(text) => text_report(alloc, text, fault),
        Err(_) => json_report(
            alloc,
            text,
            Some(utf8_length(text)),
            "here the text is not in UTF-8",
        ),
    }
}

/// The report on a text in UTF-8.
fn text_report(alloc: Global, text: &str, fault: ReadFault) -> String {
    match Value::from_str(alloc, text) {
        Ok(value) => value_report(alloc, text, &value, fault),
        Err(error) if error.is_memory() => String::new(alloc),
        Err(_) => {
            let place = bad_place(alloc, text);
            json_report(alloc, text.as_bytes(), place, why_bad(text, place))
        }
    }
}

/// The report on a text that is not JSON from that byte on.
fn json_report(alloc: Global, text: &[u8], place: Option<usize>, why: &str) -> String {
    let mut report = String::new(alloc);
    let _ = report.push_str("config: 1 BadJson: ");
    if let Some(place) = place {
        let (line, column) = (line_at(text, place), column_at(text, place));
        let _ = write!(report, "line {line}, column {column}: ");
    }
    let _ = writeln!(report, "{why}");
    report
}

/// The report on a JSON value.
fn value_report(alloc: Global, text: &str, value: &Value, fault: ReadFault) -> String {
    let mut report = Report::new(alloc, text, fault.answer());
    match fault {
        ReadFault::BadShape => report_shapes(&mut report, value),
        ReadFault::BadNumber => report_numbers(&mut report, value),
        ReadFault::DuplicateName => report_repeats(&mut report, value),
        ReadFault::TooMany => report_count(&mut report, value),
        ReadFault::BadName => report_each(&mut report, value, fault),
        ReadFault::BadFormat => report_each(&mut report, value, fault),
        ReadFault::BadDate => report_each(&mut report, value, fault),
        ReadFault::BadJson => {}
        ReadFault::NoMemory => {}
    }
    report.into_lines()
}

/// Adds the faults of each repository.
fn report_each(report: &mut Report<'_>, value: &Value, fault: ReadFault) {
    for (number, repository) in elements_at(value, "repositories").iter().enumerate() {
        let object = Object::repository(number, text_at(repository, "name"));
        match fault {
            ReadFault::BadName => report_name(report, object, repository),
            ReadFault::BadFormat => report_formats(report, object, repository),
            ReadFault::BadDate => report_date(report, object, repository),
            _ => report_limits(report, object, repository),
        }
    }
}

/// Adds that the repository's name is none, if so.
fn report_name(report: &mut Report<'_>, object: Object<'_>, repository: &Value) {
    if !is_repository_name(text_at(repository, "name")) {
        report.add_member(object, "name", &["is not 1 to 32 of a to z, 0 to 9 and -"]);
    }
}

/// Whether the text is 1 to 32 of `a` to `z`, `0` to `9` and `-`.
fn is_repository_name(name: &str) -> bool {
    let is_short = !name.is_empty() && name.len() <= 32;
    is_short
        && name.as_bytes().iter().all(|b| b.is_ascii_lowercase()
            || b.is_ascii_digit()
            || *b == b'-')
}

/// Adds each name that stands before.
fn report_repeats(report: &mut Report<'_>, value: &Value) {
    let mut seen = BTreeSet::new(report.alloc());
    for (number, repository) in elements_at(value, "repositories").iter().enumerate() {
        let name = text_at(repository, "name");
        if let Ok(false) = seen.insert(name) {
            let object = Object::repository(number, name);
            report.add_member(object, "name", &["is the name of another repository"]);
        }
    }
}

/// Adds each number that is out of its range.
fn report_numbers(report: &mut Report<'_>, value: &Value) {
    report_limit(report, Object::whole(), value, "cache", 65_536, "65536");
    report_each(report, value, ReadFault::BadNumber);
}

/// Adds each limit of the repository that is out of its range.
fn report_limits(report: &mut Report<'_>, object: Object<'_>, repository: &Value) {
    report_limit(report, object, repository, "chunk", 1_000, "1000");
    report_limit(
        report, object, repository, "lifetime", 31_536_000, "31536000",
    );
    report_limit(report, object, repository, "lists", 10_000, "10000");
    report_limit(report, object, repository, "items", 1_000_000, "1000000");
}

/// Adds that the member with that name is no whole number from 1 to the most, if so.
fn report_limit(
    report: &mut Report<'_>,
    object: Object<'_>,
    value: &Value,
    name: &str,
    most: u64,
    spelled: &str,
) {
    let number = value.get(name).and_then(Value::as_u64).unwrap_or(0);
    if number == 0 || most < number {
        report.add_member(object, name, &["is no whole number from 1 to ", spelled]);
    }
}

/// Adds that there are too many repositories, if so.
fn report_count(report: &mut Report<'_>, value: &Value) {
    if MAX_REPOSITORIES < elements_at(value, "repositories").len() {
        report.add_member(
            Object::whole(),
            "repositories",
            &["has more than 1000 elements"],
        );
    }
}
