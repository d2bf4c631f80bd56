//! The clock of a server.
use crate::tallies::Tally;
use std::cell::Cell;
use std::io;
use std::rc::Rc;
use std::rt::Clock;
use std::time::Duration;

/// How many seconds the system's clock may gain on the monotonic one: a day.
const MAX_GAIN: u64 = 86_400;

/// The system's clock, which cannot be read once it has jumped ahead: it gained more than a day, between two readings
/// of it, on the monotonic clock, which a server reads before it.
#[derive(Drop)]
pub(crate) struct GuardedClock<'a, C> {
    clock: &'a C,
    /// Where the second of the monotonic clock is noted.
    tally: Rc<Tally>,
    /// What both clocks showed at the last reading, in seconds; both are 0 before the first.
    last: Cell<(u64, u64)>,
    /// The second to which it jumped.
    jumped: Cell<Option<u64>>,
}

impl<'a, C: Clock> GuardedClock<'a, C> {
    /// Over the system's clock, which has not been read.
    pub(crate) fn new(clock: &'a C, tally: Rc<Tally>) -> GuardedClock<'a, C> {
        GuardedClock {
            clock,
            tally,
            last: Cell::new((0, 0)),
            jumped: Cell::new(None),
        }
    }

    /// The second from 1970 on to which the clock jumped, if it did.
    pub(crate) fn jumped(&self) -> Option<u64> {
        self.jumped.get()
    }
}

impl<C: Clock> Clock for GuardedClock<'_, C> {
    fn monotonic(&self) -> io::Result<Duration> {
        let time = self.clock.monotonic()?;
        self.tally.note(time.as_secs());
        Ok(time)
    }

    fn since_1970(&self) -> io::Result<Duration> {
        let time = self.clock.since_1970()?;
        let steady = self.tally.second();
        let shown = time.as_secs();
        if has_jumped(self.last.get(), (shown, steady)) {
            self.jumped.set(Some(shown));
            return Err(io::Error::from(io::ErrorKind::InvalidData));
        }
        self.last.set((shown, steady));
        Ok(time)
    }
}

/// Whether the clock gained more than a day on the monotonic one, between two readings of both.
fn has_jumped(last: (u64, u64), now: (u64, u64)) -> bool {
    if last == (0, 0) {
        return false;
    }
    let steady = now.1.saturating_sub(last.1);
    now.0 > last.0.saturating_add(steady).saturating_add(MAX_GAIN)
}
