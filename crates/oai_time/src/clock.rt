ghost use Rattle.std.specs.Prelude.{◌≡◌, ℤ, ◌≤ℤ◌};
ghost use Rattle.oai_time.specs.Clock.{tick};
ghost use Rattle.oai_time.specs.Stamp.{IsWritable};

use std::marker::Model;

/// The last second that a clock shows: 9998-12-31T23:59:59Z, in seconds from 1970 on.
pub const LAST_TICK: i64 = 253_370_764_799;

/// A clock of whole seconds that never goes back. If it starts no later than 9998-12-31T23:59:59Z, it never passes that
/// second, whatever the moments: an expiration up to a year later still has a year of four digits.
#[derive(Clone, Copy, Debug, PartialEq, Eq)]
pub struct Clock(i64);

impl Model for Clock {
    ghost Value = { ℤ };

    ghost view = { λ c. c.0 };

    ghost inverse = { λ seconds. record { 0 = seconds } };
}

impl Clock {
    /// A clock that shows `seconds`.
    pub fn start(seconds: i64) -> Clock
        ensures { result ≡ seconds }
    {
        Clock(seconds)
    }

    /// Moves the clock forward to `moment`, or to the last second of the year 9998 if that is earlier. A clock that is
    /// already there stays.
    pub fn tick(&mut self, moment: i64)
        ensures moved { self.new ≡ tick self.old moment }
        ensures never_back { self.old ≤ℤ self.new }
        ensures in_range { IsWritable self.old → IsWritable self.new }
    {
        self.0 = self.0.max(moment.min(LAST_TICK));
    }

    /// The seconds that the clock shows.
    pub fn now(&self) -> i64
        ensures { result ≡ self.now }
    {
        self.0
    }
}
