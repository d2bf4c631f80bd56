ghost use Rattle.std.specs.Prelude.{◌≡◌, ℤ, ◌≤ℤ◌};
ghost use Rattle.oai_time.specs.Stamp.{IsWritable, stamp_of};

/// How fine the datestamps of a repository are (OAI-PMH 2.0, section 2.7.1).
#[derive(Clone, Copy, Debug, PartialEq, Eq)]
pub enum Granularity {
    /// Whole days: `YYYY-MM-DD`.
    Day,
    /// Seconds: `YYYY-MM-DDThh:mm:ssZ`.
    Second,
}

/// The datestamp, in seconds, of a change at `seconds`: the seconds themselves, or the midnight that begins their day.
/// The seconds lie in the years 0000 to 9999, and so does the result.
pub fn stamp(granularity: Granularity, seconds: i64) -> i64
    requires { IsWritable seconds }
    ensures value { result ≡ stamp_of granularity seconds }
    ensures in_range { IsWritable result }
    ensures not_after { result ≤ℤ seconds }
    ensures in_order { (earlier : ℤ) → earlier ≤ℤ seconds → stamp_of granularity earlier ≤ℤ result }
{
    match granularity {
        Granularity::Day => seconds - seconds.rem_euclid(86_400),
        Granularity::Second => seconds,
    }
}
