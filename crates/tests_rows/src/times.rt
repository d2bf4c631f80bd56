//! Times as texts, the clock, and the bounds of a list request.
ghost use Rattle.std.specs.Prelude.{IfSome};
ghost use Rattle.oai_time.specs.Stamp.{IsWritable};

use crate::answers::Answer;
use crate::rows::Row;
use oai_time::{
    Bound, Clock, Granularity, is_no_finer_than, lower, read_bound, stamp, upper, write_datestamp,
    write_day, write_second,
};

/// Adds what the row is answered.
pub(crate) fn answer(row: &Row<'_>, answer: &mut Answer) {
    match row.call {
        "write_second" => second(row.number(0), answer),
        "write_day" => day(row.number(0), answer),
        "write_datestamp" => datestamp(granularity_of(row.text(0)), row.number(1), answer),
        "stamp" => stamped(granularity_of(row.text(0)), row.number(1), answer),
        "Clock::tick" => ticks(row, answer),
        "read_bound" => bound(row.text(0), answer),
        "lower" => ends(row.text(0), answer),
        "is_no_finer_than" => finer(row.text(0), granularity_of(row.text(1)), answer),
        _ => answer.word("no such call"),
    }
}

/// `days` or, of any other text, seconds.
pub(crate) fn granularity_of(text: &str) -> Granularity {
    match text {
        "days" => Granularity::Day,
        _ => Granularity::Second,
    }
}

/// The number, where it is a second of the years 0000 to 9999.
pub(crate) fn written(seconds: Option<i64>) -> Option<i64>
    ensures { IfSome result (λ second. IsWritable second) }
{
    match seconds {
        Some(second) => {
            if second < -62_167_219_200 || second > 253_402_300_799 {
                None
            } else {
                Some(second)
            }
        }
        None => None,
    }
}

fn second(seconds: Option<i64>, answer: &mut Answer) {
    match written(seconds) {
        Some(seconds) => answer.bytes(&write_second(seconds)),
        None => answer.word("no second"),
    }
}

fn day(seconds: Option<i64>, answer: &mut Answer) {
    match written(seconds) {
        Some(seconds) => answer.bytes(&write_day(seconds)),
        None => answer.word("no second"),
    }
}

fn datestamp(granularity: Granularity, seconds: Option<i64>, answer: &mut Answer) {
    match written(seconds) {
        Some(seconds) => answer.bytes(write_datestamp(granularity, seconds).as_bytes()),
        None => answer.word("no second"),
    }
}

fn stamped(granularity: Granularity, seconds: Option<i64>, answer: &mut Answer) {
    match written(seconds) {
        Some(seconds) => answer.value(stamp(granularity, seconds)),
        None => answer.word("no second"),
    }
}

/// What a clock shows that was started at the first moment, and behind each other one.
fn ticks(row: &Row<'_>, answer: &mut Answer) {
    let mut clock = Clock::start(row.number(0).unwrap_or(0));
    answer.value(clock.now());
    for at in 1..row.len() {
        clock.tick(row.number(at).unwrap_or(0));
        answer.value(clock.now());
    }
}

/// Adds the bound: a day by its midnight, or a second.
pub(crate) fn show_bound(bound: Bound, answer: &mut Answer) {
    match bound {
        Bound::Day(midnight) => {
            answer.word("day");
            answer.value(midnight);
        }
        Bound::Second(second) => {
            answer.word("second");
            answer.value(second);
        }
    }
}

fn bound(text: &str, answer: &mut Answer) {
    match read_bound(text) {
        Ok(bound) => show_bound(bound, answer),
        Err(fault) => answer.fault(fault),
    }
}

/// The first and the last second of the bound.
fn ends(text: &str, answer: &mut Answer) {
    match read_bound(text) {
        Ok(bound) => {
            answer.value(lower(bound));
            answer.value(upper(bound));
        }
        Err(fault) => answer.fault(fault),
    }
}

fn finer(text: &str, granularity: Granularity, answer: &mut Answer) {
    match read_bound(text) {
        Ok(bound) => answer.is(is_no_finer_than(bound, granularity)),
        Err(fault) => answer.fault(fault),
    }
}
