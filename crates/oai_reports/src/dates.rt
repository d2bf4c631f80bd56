//! Fault 6, BadDate: an earliestDatestamp of another form, or of no day.
use crate::reports::{Object, Report};
use crate::values::text_at;
use oai_time::{Bound, LAST_TICK, read_bound};
use serde_json::Value;

/// The first second of the year 0001.
const FIRST_DATE: i64 = -62_135_596_800;

/// Adds what is wrong with the repository's earliestDatestamp, if it is none of its granularity.
pub(crate) fn report_date(report: &mut Report<'_>, object: Object<'_>, repository: &Value) {
    let is_of_days = text_at(repository, "granularity") == "days";
    let why = match read_bound(text_at(repository, "earliestDatestamp")) {
        Ok(Bound::Day(second)) => fault_of(is_of_days, is_of_days, second),
        Ok(Bound::Second(second)) => fault_of(!is_of_days, is_of_days, second),
        Err(_) => form_of(is_of_days),
    };
    if !why.is_empty() {
        report.add_member(object, "earliestDatestamp", &[why]);
    }
}

/// What is wrong with a date of that second; nothing if it has the granularity, and a year that may be.
fn fault_of(is_of_granularity: bool, is_of_days: bool, second: i64) -> &'static str {
    if !is_of_granularity {
        return form_of(is_of_days);
    }
    if second < FIRST_DATE || LAST_TICK < second {
        return "is not of the years 0001 to 9998";
    }
    ""
}

/// That a text is no date of a granularity.
fn form_of(is_of_days: bool) -> &'static str {
    if is_of_days {
        return "is no date such as 2024-01-01, as the granularity is \"days\"";
    }
    "is no date such as 2024-01-01T00:00:00Z, as the granularity is \"seconds\""
}
