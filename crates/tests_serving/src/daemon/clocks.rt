//! Clocks in memory, and what a server does whose clock jumps.
use crate::assertions::assert_same;
use crate::daemon::places::{MemoryPlace, Outset, configuration, served, with_journal};
use oai_archive::ServerStop;
use oai_startup::Stop;
use std::alloc::Global;
use std::cell::Cell;
use std::io;
use std::process::Abort;
use std::rt::Clock;
use std::time::Duration;

/// What the clocks show first: 2024-01-01T00:00:00Z.
const FIRST: u64 = 1_704_067_200;

/// A clock that stands.
#[derive(Drop)]
pub(crate) struct Standing;

impl Clock for Standing {
    fn monotonic(&self) -> io::Result<Duration> {
        Ok(Duration::from_secs(5))
    }

    fn since_1970(&self) -> io::Result<Duration> {
        Ok(Duration::from_secs(FIRST))
    }
}

/// A clock that gains so many seconds with each reading.
#[derive(Drop)]
struct Gaining {
    seconds: u64,
    shown: Cell<u64>,
}

impl Clock for Gaining {
    fn monotonic(&self) -> io::Result<Duration> {
        Ok(Duration::from_secs(5))
    }

    fn since_1970(&self) -> io::Result<Duration> {
        let shown = self.shown.get();
        self.shown.set(shown.saturating_add(self.seconds));
        Ok(Duration::from_secs(shown))
    }
}

/// A service whose clock gains so many seconds with each reading ends so.
fn assert_ended(rt: &impl Abort, alloc: Global, seconds: u64, wanted: ServerStop) {
    let clock = Gaining {
        seconds,
        shown: Cell::new(FIRST),
    };
    let outset = Outset {
        rounds: 10,
        ..with_journal()
    };
    let mut place = MemoryPlace::new(alloc, outset);
    let ended = served(&mut place, &clock, configuration());
    assert_same(rt, ended, Ok(Err(wanted)));
}

/// A server ends whose clock gained a day and a second between two readings, and says to which second it jumped: the
/// start reads it once, and each round once.
#[test]
fn clock_jumps(rt: HostRuntime) {
    assert_ended(&rt, rt.alloc(), 86_401, ServerStop::Jumped(1_704_240_002));
}

/// One that gained a day goes on.
#[test]
fn clock_gains_a_day(rt: HostRuntime) {
    let waits = ServerStop::Common(Stop::SocketFault);
    assert_ended(&rt, rt.alloc(), 86_400, waits);
}

/// A start on that place with the configuration in the text makes these calls, and waits, which fails.
pub(crate) fn assert_waits(
    rt: &impl Abort,
    alloc: Global,
    outset: Outset<'_>,
    text: &[u8],
    calls: &str,
) {
    let mut place = MemoryPlace::new(alloc, outset);
    let ended = served(&mut place, &Standing, text);
    assert_same(rt, ended, Ok(Err(ServerStop::Common(Stop::SocketFault))));
    assert_same(rt, place.calls.as_str(), calls);
}

/// A start in a place whose journal ends with a tick at that moment makes these calls.
fn assert_calls(rt: &impl Abort, alloc: Global, moment: i64, calls: &str) {
    let outset = Outset {
        tick: Some(moment),
        ..with_journal()
    };
    assert_waits(rt, alloc, outset, configuration(), calls);
}

/// A clock that is more than 366 days ahead of the last record, or more than an hour behind it, is reported, and ends
/// nothing.
#[test]
fn clock_is_far_from_the_journal(rt: HostRuntime) {
    let near = "lock listen find open pages recovered announce ";
    let far = "lock listen find open pages recovered clock announce ";
    assert_calls(&rt, rt.alloc(), 1_672_444_799, far);
    assert_calls(&rt, rt.alloc(), 1_672_444_800, near);
    assert_calls(&rt, rt.alloc(), 1_704_070_800, near);
    assert_calls(&rt, rt.alloc(), 1_704_070_801, far);
}
