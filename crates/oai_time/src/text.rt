ghost use Rattle.std.specs.Prelude.{◌≡◌, pos, ◌%◌, ◌<◌};
ghost use Rattle.oai_time.specs.Calendar.{calendar_day};
ghost use Rattle.oai_time.specs.Bound.{IsBound};
ghost use Rattle.oai_time.specs.Stamp.{IsWritable, stamp_of};
ghost use Rattle.oai_time.specs.TimeTexts.{day_text, digit, second_text, seconds_of_era, time_text};

use crate::bound::Bound;
use crate::granularity::Granularity;
use jiff::ToSpan;
use jiff::civil::Date;

/// The first second that has a datestamp: 0000-01-01T00:00:00Z, in seconds from 1970 on.
pub const FIRST_SECOND: i64 = -62_167_219_200;

/// The last second that has a datestamp: 9999-12-31T23:59:59Z, in seconds from 1970 on.
pub const LAST_SECOND: i64 = 253_402_300_799;

/// The text `YYYY-MM-DD` of the day that contains `seconds` (OAI-PMH 2.0, 3.3 "UTCdatetime"). The seconds lie in the
/// years 0000 to 9999.
#[tactic(auto, unfolding(crate::specs::TimeTexts::day_text, crate::specs::TimeTexts::date_text))]
pub fn write_day(seconds: i64) -> [u8; 10]
    requires { IsWritable seconds }
    ensures text { result ≡ day_text seconds }
    ensures read { IsBound result (Bound.Day (stamp_of Granularity.Day seconds)) }
{
    let date = date_after(seconds_of_era(seconds) / 86_400);
    let (year, month, day) = (date.year() as u64, date.month() as u64, date.day() as u64);
    [
        digit(1000, year),
        digit(100, year),
        digit(10, year),
        digit(1, year),
        b'-',
        digit(10, month),
        digit(1, month),
        b'-',
        digit(10, day),
        digit(1, day),
    ]
}

/// The text `YYYY-MM-DDThh:mm:ssZ` of `seconds` (OAI-PMH 2.0, 3.3 "UTCdatetime"). The seconds lie in the years 0000 to
/// 9999.
pub fn write_second(seconds: i64) -> [u8; 20]
    requires { IsWritable seconds }
    ensures text { result ≡ second_text seconds }
    ensures read { IsBound result (Bound.Second seconds) }
{
    let mut text = [0; 20];
    text[..10].copy_from_slice(&write_day(seconds));
    text[10..].copy_from_slice(&write_time(seconds));
    text
}

/// The text `Thh:mm:ssZ` of the time of day.
#[tactic(auto, unfolding(crate::specs::TimeTexts::time_text))]
fn write_time(seconds: i64) -> [u8; 10]
    requires { IsWritable seconds }
    ensures { result ≡ time_text (seconds_of_era seconds % 86_400) }
{
    let second = seconds_of_era(seconds) % 86_400;
    let (hour, minute, second) = (second / 3600, second / 60 % 60, second % 60);
    [
        b'T',
        digit(10, hour),
        digit(1, hour),
        b':',
        digit(10, minute),
        digit(1, minute),
        b':',
        digit(10, second),
        digit(1, second),
        b'Z',
    ]
}

/// The decimal digit of the number at the place 1, 10, 100 or 1000, in ASCII.
fn digit(place: u64, number: u64) -> u8
    requires { 0 < place }
    ensures { result ≡ digit place number }
{
    b'0' + (number / place % 10) as u8
}

/// The date that many days after 0000-01-01.
fn date_after(days: u64) -> Date
    requires { days < 3_652_425 }
    ensures year { result.year ≡ pos (calendar_day days).year }
    ensures month { result.month ≡ (calendar_day days).month }
    ensures day { result.day ≡ (calendar_day days).day }
{
    Date::ZERO.checked_add((days as i64).days()).unwrap()
}

/// The seconds after 0000-01-01T00:00:00Z.
fn seconds_of_era(seconds: i64) -> u64
    requires { IsWritable seconds }
    ensures value { result ≡ seconds_of_era seconds }
    ensures bound { result < 315_569_520_000 }
{
    (seconds - FIRST_SECOND) as u64
}
