//! The figures of a server: the page that is answered, and the line that is reported each hour.
use crate::assertions::assert_same;
use crate::daemon::clocks::Standing;
use crate::daemon::places::{MemoryPlace, Outset, configuration, received, served, with_journal};
use std::alloc::Global;
use std::cell::Cell;
use std::io;
use std::panic::Expect;
use std::process::Abort;
use std::rt::Clock;
use std::time::Duration;

/// Messages of a client: a deposit, two that are no repository's, and two for the figures, the last by another method.
const SENT: &[u8] = b"POST /deposit/a HTTP/1.1\r\nHost: h\r\nContent-Length: 55\r\n\r\n\
{\"deposit\":\"oai:a:1\",\"sets\":[],\"records\":{\"oai_dc\":[]}}GET /status? HTTP/1.1\r\nHost: h\r\n\r\nGET /status/ HTTP/1.1\r\nHost: h\r\n\r\n\
GET /status HTTP/1.1\r\nHost: h\r\n\r\nHEAD /status HTTP/1.1\r\nHost: h\r\nConnection: close\r\n\r\n";

/// What the client receives.
fn answers() -> &'static str {
    "HTTP/1.1 200 OK\r\nContent-Type: text/plain; charset=utf-8\r\nContent-Length: 24\r\n\r\nok 2024-01-01T00:00:00Z\n\
HTTP/1.1 404 Not Found\r\nContent-Length: 0\r\n\r\nHTTP/1.1 404 Not Found\r\nContent-Length: 0\r\n\r\n\
HTTP/1.1 200 OK\r\nContent-Type: text/plain; version=0.0.4\r\nContent-Length: 2769\r\n\r\n\
# HELP oaihostd_up 1 while the server serves.\n\
# TYPE oaihostd_up gauge\n\
oaihostd_up 1\n\
# HELP oaihostd_start_time_seconds When the server began to serve.\n\
# TYPE oaihostd_start_time_seconds gauge\n\
oaihostd_start_time_seconds 1704067200\n\
# HELP oaihostd_recovery_seconds How long the replay of the journal took.\n\
# TYPE oaihostd_recovery_seconds gauge\n\
oaihostd_recovery_seconds 0\n\
# HELP oaihostd_recovered_records Log records that were replayed.\n\
# TYPE oaihostd_recovered_records gauge\n\
oaihostd_recovered_records 0\n\
# HELP oaihostd_checkpoint_time_seconds When the journal was begun, or replaced by a checkpoint.\n\
# TYPE oaihostd_checkpoint_time_seconds gauge\n\
oaihostd_checkpoint_time_seconds 1704067200\n\
# HELP oaihostd_checkpoint_bytes Length of that checkpoint in bytes.\n\
# TYPE oaihostd_checkpoint_bytes gauge\n\
oaihostd_checkpoint_bytes 0\n\
# HELP oaihostd_connections Connections that are open.\n\
# TYPE oaihostd_connections gauge\n\
oaihostd_connections 1\n\
# HELP oaihostd_connections_total Connections that were accepted.\n\
# TYPE oaihostd_connections_total counter\n\
oaihostd_connections_total 1\n\
# HELP oaihostd_requests_total Messages by the status of their answer.\n\
# TYPE oaihostd_requests_total counter\n\
oaihostd_requests_total{status=\"200\"} 1\n\
oaihostd_requests_total{status=\"400\"} 0\n\
oaihostd_requests_total{status=\"401\"} 0\n\
oaihostd_requests_total{status=\"404\"} 2\n\
oaihostd_requests_total{status=\"405\"} 0\n\
oaihostd_requests_total{status=\"415\"} 0\n\
oaihostd_requests_total{status=\"500\"} 0\n\
oaihostd_requests_total{status=\"503\"} 0\n\
# HELP oaihostd_deposits_total Deposits that were answered 200.\n\
# TYPE oaihostd_deposits_total counter\n\
oaihostd_deposits_total{repository=\"a\"} 1\n\
# HELP oaihostd_denied_total Deposits that were answered 401.\n\
# TYPE oaihostd_denied_total counter\n\
oaihostd_denied_total{repository=\"a\"} 0\n\
# HELP oaihostd_journal_records Log records of the journal behind its first one.\n\
# TYPE oaihostd_journal_records gauge\n\
oaihostd_journal_records 1\n\
# HELP oaihostd_journal_bytes Length of the journal in bytes.\n\
# TYPE oaihostd_journal_bytes gauge\n\
oaihostd_journal_bytes 429\n\
# HELP oaihostd_items Items of the repository, deleted ones among them.\n\
# TYPE oaihostd_items gauge\n\
oaihostd_items{repository=\"a\"} 1\n\
# HELP oaihostd_open_lists Lists that the repository holds open.\n\
# TYPE oaihostd_open_lists gauge\n\
oaihostd_open_lists{repository=\"a\"} 0\n\
# HELP oaihostd_pages Pages of the page file that are in use.\n\
# TYPE oaihostd_pages gauge\n\
oaihostd_pages 1\n\
# HELP oaihostd_page_cache_hits_total Reads of a page that the cache answered.\n\
# TYPE oaihostd_page_cache_hits_total counter\n\
oaihostd_page_cache_hits_total 0\n\
# HELP oaihostd_page_cache_misses_total Reads of a page that the cache did not answer.\n\
# TYPE oaihostd_page_cache_misses_total counter\n\
oaihostd_page_cache_misses_total 0\n\
HTTP/1.1 405 Method Not Allowed\r\nAllow: GET\r\nConnection: close\r\nContent-Length: 0\r\n\r\n"
}

/// What the client received.
fn answered(rt: &impl Abort, alloc: Global) -> Vec<u8> {
    let outset = Outset {
        rounds: 12,
        sends: Some(SENT),
        ..with_journal()
    };
    let mut place = MemoryPlace::new(alloc, outset);
    received(&mut place, &Standing, configuration()).expect(rt, "served")
}

/// Each message is counted, but those for the figures.
#[test]
fn page(rt: HostRuntime) {
    let written = answered(&rt, rt.alloc());
    let text = str::from_utf8(&written).expect(&rt, "from_utf8");
    assert_same(&rt, text, answers());
}

/// A clock whose seconds since some moment gain 900 with each reading; the time stands.
#[derive(Drop)]
struct Running {
    shown: Cell<u64>,
}

impl Clock for Running {
    fn monotonic(&self) -> io::Result<Duration> {
        let shown = self.shown.get();
        self.shown.set(shown.saturating_add(900));
        Ok(Duration::from_secs(shown))
    }

    fn since_1970(&self) -> io::Result<Duration> {
        Standing.since_1970()
    }
}

/// A service in that place by that clock.
fn serve(place: &mut MemoryPlace<'_>) {
    let clock = Running {
        shown: Cell::new(0),
    };
    drop(served(place, &clock, configuration()));
}

/// Each round reads the clock once, so it takes 900 seconds: the first line comes in the second, the second in the
/// sixth.
#[test]
fn lines(rt: HostRuntime) {
    let outset = Outset {
        rounds: 9,
        ..with_journal()
    };
    let mut place = MemoryPlace::new(rt.alloc(), outset);
    serve(&mut place);
    assert_same(
        &rt,
        place.calls.as_str(),
        "lock listen find open pages recovered announce figures figures ",
    );
    assert_same(
        &rt,
        place.figures.as_str(),
        "up 1, start_time_seconds 1704067200, recovery_seconds 900, recovered_records 0, \
checkpoint_time_seconds 1704067200, checkpoint_bytes 0, connections 0, connections_total 0, \
requests_total{status=\"200\"} 0, requests_total{status=\"400\"} 0, requests_total{status=\"401\"} 0, \
requests_total{status=\"404\"} 0, requests_total{status=\"405\"} 0, requests_total{status=\"415\"} 0, \
requests_total{status=\"500\"} 0, requests_total{status=\"503\"} 0, journal_records 0, journal_bytes 331, \
pages 0, page_cache_hits_total 0, page_cache_misses_total 0",
    );
}
