ghost use Rattle.std.specs.Prelude.{◌≡◌, ℕ, ◌+◌, ◌*◌, ◌-◌, ◌<◌, min, length, ◌↔◌, codes, neg_ℤ, pos, IsTrue, IfOk, OnErr, IfSome};
ghost use Rattle.std.specs.Result.{result_ok};
ghost use Rattle.oai_time.specs.Bound.{HasEachDate, IsBound, IsWritableBound, bound_of, is_no_finer_than, lower_of, midnight_of, upper_of};
ghost use Rattle.oai_time.specs.Calendar.{calendar_day};
ghost use Rattle.oai_time.specs.Stamp.{IsWritable};
ghost use Rattle.oai_time.specs.TimeTexts.{date_text, second_text, time_text};

use crate::granularity::Granularity;
use crate::text::{FIRST_SECOND, write_day, write_second};
use jiff::civil::Date;
use thiserror::Error;

/// A bound of a harvest, one of the arguments `from` and `until` (OAI-PMH 2.0, 2.7.1 "Selective
/// harvesting and datestamps").
#[derive(Clone, Copy, Debug, PartialEq, Eq)]
pub enum Bound {
    /// A whole day, by the seconds of its midnight.
    Day(i64),
    /// One second.
    Second(i64),
}

/// The text is neither `YYYY-MM-DD` nor `YYYY-MM-DDThh:mm:ssZ` of a date and a time that exist.
#[derive(Clone, Copy, Debug, PartialEq, Eq, Error)]
#[error("not a date of the form YYYY-MM-DD or YYYY-MM-DDThh:mm:ssZ")]
pub struct BadDate;

/// The bound that the text stands for: `YYYY-MM-DD` or `YYYY-MM-DDThh:mm:ssZ` (OAI-PMH 2.0, 3.3 "UTCdatetime"), with
/// ASCII digits and upper case letters, of a date of the Gregorian calendar in the years 0000 to 9999, and of a time
/// from 00:00:00 to 23:59:59. The error is `BadDate` for any other text.
#[tactic(auto, using(crate::proofs::ReadingLemmas::bound_of_read))]
pub fn read_bound(text: &str) -> Result<Bound, BadDate>
    ensures found { IfOk result (IsBound text.now) }
    ensures only { (bound : Bound) → IsBound text.now bound → result ≡ Ok bound }
    ensures refused { OnErr result ((bound : Bound) → ¬ IsBound text.now bound) }
    ensures value { result_ok result ≡ bound_of text.now }
{
    bound_written(text.as_bytes())
}

/// The bound with this text.
fn bound_written(text: &[u8]) -> Result<Bound, BadDate>
    ensures found { IfOk result (IsBound text.now) }
    ensures only { (bound : Bound) → IsBound text.now bound → result ≡ Ok bound }
    ensures refused { OnErr result ((bound : Bound) → ¬ IsBound text.now bound) }
{
    match candidate(text) {
        Some(bound) if is_written(bound, text) => Ok(bound),
        _ => Err(BadDate),
    }
}

/// The first second of a bound: the midnight that begins a day, or the second itself.
pub fn lower(bound: Bound) -> i64
    requires { IsWritableBound bound }
    ensures value { result ≡ lower_of bound }
    ensures in_range { IsWritable result }
{
    match bound {
        Bound::Day(midnight) => midnight,
        Bound::Second(second) => second,
    }
}

/// The last second of a bound: 23:59:59 of a day, or the second itself.
pub fn upper(bound: Bound) -> i64
    requires { IsWritableBound bound }
    ensures value { result ≡ upper_of bound }
    ensures in_range { IsWritable result }
{
    match bound {
        Bound::Day(midnight) => midnight + 86_399,
        Bound::Second(second) => second,
    }
}

/// Whether the bound is no finer than the granularity: the datestamps of a repository of days cannot be compared with a
/// bound of seconds (OAI-PMH 2.0, section 2.7.1).
pub fn is_no_finer_than(bound: Bound, granularity: Granularity) -> bool
    ensures { result ≡ is_no_finer_than bound granularity }
{
    match (bound, granularity) {
        (Bound::Day(_), _) => true,
        (Bound::Second(_), Granularity::Second) => true,
        (Bound::Second(_), Granularity::Day) => false,
    }
}

/// Each date of the calendar is the text of a day. That is each date of a year from 0000 to 9999, a month from 1 to 12,
/// and a day from 1 to the month's last; and the numbers of the definitions are the seconds that their comments say, 0
/// being 1970-01-01T00:00:00Z. A theorem, proved by an empty function.
pub fn calendar_law()
    ensures dates { HasEachDate }
    ensures epoch { second_text (pos 0) ≡ codes "1970-01-01T00:00:00Z" }
    ensures first { second_text (neg_ℤ (pos 62_167_219_200)) ≡ codes "0000-01-01T00:00:00Z" }
    ensures last { second_text (pos 253_402_300_799) ≡ codes "9999-12-31T23:59:59Z" }
    ensures last_tick { second_text (pos 253_370_764_799) ≡ codes "9998-12-31T23:59:59Z" }
{}

/// Whether the text is the bound's.
fn is_written(bound: Bound, text: &[u8]) -> bool
    requires { IsWritableBound bound }
    ensures { IsTrue result ↔ IsBound text.now bound }
{
    match bound {
        Bound::Day(midnight) => text == write_day(midnight).as_slice(),
        Bound::Second(second) => text == write_second(second).as_slice(),
    }
}

/// The only bound that the text can stand for, if there is one. It takes the digits from their positions and tests
/// nothing else: the caller writes the bound and compares.
fn candidate(text: &[u8]) -> Option<Bound>
    ensures in_range { IfSome result IsWritableBound }
    ensures only { (bound : Bound) → IsBound text.now bound → result ≡ Some bound }
{
    if text.len() == 10 {
        let days = day_number(text)?;
        return Some(Bound::Day(midnight_of(days)));
    }
    if text.len() == 20 {
        let (date, time) = text.split_at(10);
        let days = day_number(date)?;
        return Some(Bound::Second(midnight_of(days) + second_of_day(time) as i64));
    }
    None
}

/// The midnight that begins the day with that number, counted from 0000-01-01.
fn midnight_of(days: u64) -> i64
    requires { days < 3_652_425 }
    ensures { result ≡ midnight_of days }
{
    86_400 * days as i64 + FIRST_SECOND
}

/// The number of the only day that the ten bytes can name, if there is one.
fn day_number(text: &[u8]) -> Option<u64>
    requires { length text.now ≡ 10 }
    ensures in_range { IfSome result (λ days. days < 3_652_425) }
    ensures only { (days : ℕ) → days < 3_652_425 → text.now ≡ date_text (calendar_day days)
        → result ≡ Some days }
{
    let year = 100 * two_digits(text[0], text[1]) + two_digits(text[2], text[3]);
    let month = two_digits(text[5], text[6]);
    let day = two_digits(text[8], text[9]);
    day_of_calendar(year, month, day)
}

/// The number of the day with this date, if the calendar has it.
fn day_of_calendar(year: u64, month: u64, day: u64) -> Option<u64>
    requires year_in { year < 10_000 }
    requires month_in { month < 100 }
    requires day_in { day < 100 }
    ensures in_range { IfSome result (λ days. days < 3_652_425) }
    ensures only { (days : ℕ) → calendar_day days ≡ record { year = year; month = month; day = day }
        → result ≡ Some days }
{
    let Ok(date) = Date::new(year as i16, month as i8, day as i8) else {
        return None;
    };
    Some((date.to_plain().to_unix_epoch_day() + 719_528) as u64)
}

/// The only second of the day that the ten bytes can name.
fn second_of_day(text: &[u8]) -> u64
    requires { length text.now ≡ 10 }
    ensures in_range { result < 86_400 }
    ensures only { (second : ℕ) → second < 86_400 → text.now ≡ time_text second → result ≡ second }
{
    let hour = two_digits(text[1], text[2]);
    let minute = two_digits(text[4], text[5]);
    let second = two_digits(text[7], text[8]);
    (3600 * hour + 60 * minute + second) % 86_400
}

/// The number that two digits write; for other bytes, some number below 100.
fn two_digits(tens: u8, ones: u8) -> u64
    ensures value { result ≡ 10 * min (tens - 48) 9 + min (ones - 48) 9 }
    ensures in_range { result < 100 }
{
    10 * digit_value(tens) + digit_value(ones)
}

/// The value of a digit; for another byte, some number below 10.
fn digit_value(byte: u8) -> u64
    ensures { result ≡ min (byte - 48) 9 }
{
    byte.saturating_sub(b'0').min(9) as u64
}
