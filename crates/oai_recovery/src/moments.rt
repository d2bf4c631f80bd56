//! The moments of a clock.
ghost use Rattle.oai_recovery.specs.Moments.{moment_at};
ghost use Rattle.std.specs.Prelude.{◌≡◌};

use oai_archive::ServerStop;
use oai_startup::Stop;
use std::rt::Clock;
use std::time::Duration;

/// The clock's moment, in seconds from 1970 on. The error is `InputFault`.
pub(crate) fn moment_of<C: Clock>(clock: &C) -> Result<i64, ServerStop> {
    match clock.since_1970() {
        Ok(time) => Ok(to_moment(time.as_secs())),
        Err(_) => Err(ServerStop::Common(Stop::InputFault)),
    }
}

/// The second of a monotonic clock; 0 if it cannot be read.
pub fn second_of<C: Clock>(clock: &C) -> u64 {
    time_of(clock).as_secs()
}

/// The time by a monotonic clock; zero if it cannot be read.
pub(crate) fn time_of<C: Clock>(clock: &C) -> Duration {
    match clock.monotonic() {
        Ok(time) => time,
        Err(_) => Duration::ZERO,
    }
}

/// The second from 1970 on, as a moment; one of more than 63 bits is the last that there is.
pub fn to_moment(second: u64) -> i64
    ensures { result ≡ moment_at second }
{
    i64::try_from(second).unwrap_or(i64::MAX)
}
