//! The order of the steps at startup, and where startup stops.
use crate::assertions::assert_same;
use crate::daemon::clocks::Standing;
use crate::daemon::places::{MemoryPlace, Outset, configuration, first_body, served, with_journal};
use oai_archive::{Aspect, Difference, ServerStop};
use oai_journal::Kind;
use oai_startup::Stop;
use std::alloc::Global;
use std::panic::Expect;
use std::process::Abort;

/// The calls at startup with a journal, and without one.
const FOUND: &str = "lock listen find open pages recovered announce ";

const BEGUN: &str = "lock listen find begin begun pages recovered keep announce ";

/// A start in that place, or the service behind it, stops so, after these calls.
fn assert_start(
    rt: &impl Abort,
    alloc: Global,
    outset: Outset<'_>,
    wanted: ServerStop,
    calls: &str,
) {
    let mut place = MemoryPlace::new(alloc, outset);
    let stop = match served(&mut place, &Standing, configuration()) {
        Ok(ended) => ended,
        Err(stop) => Err(stop),
    };
    assert_same(rt, stop, Err(wanted));
    assert_same(rt, place.calls.as_str(), calls);
}

/// A start with a journal, or without one, goes so far that the server waits, which fails.
fn assert_waits(rt: &impl Abort, alloc: Global, found: bool, calls: &str) {
    let outset = Outset {
        found,
        ..with_journal()
    };
    assert_start(
        rt,
        alloc,
        outset,
        ServerStop::Common(Stop::SocketFault),
        calls,
    );
}

/// So many calls were made: the first ones without a journal.
fn assert_calls(rt: &impl Abort, calls: &str, count: usize) {
    assert!(rt; BEGUN.starts_with(calls));
    let made = calls.as_bytes().iter().filter(|b| **b == b' ').count();
    assert_same(rt, made, count);
}

/// With and without a journal, all is done in order; then the server waits, which fails here.
#[test]
fn starts(rt: HostRuntime) {
    assert_waits(&rt, rt.alloc(), true, FOUND);
    assert_waits(&rt, rt.alloc(), false, BEGUN);
}

/// A journal of version 1 that is long is replayed, and replaced by a checkpoint, which is replayed in turn; but not
/// where a list may be open.
#[test]
fn long_journals_of_version_1(rt: HostRuntime) {
    let replaced =
        "lock listen find open pages recovered begin begun pages recovered keep announce ";
    let goes_on = "lock listen find open pages recovered old announce ";
    assert_long(&rt, rt.alloc(), "1", Kind::Tick, replaced);
    assert_long(&rt, rt.alloc(), "1", Kind::Oai, goes_on);
}

/// One of version 2 is served as it is.
#[test]
fn long_journal(rt: HostRuntime) {
    assert_long(&rt, rt.alloc(), "2", Kind::Tick, FOUND);
}

/// The configuration behind that version, as the first record of a journal has it.
fn body_with(rt: &impl Abort, alloc: Global, version: &str) -> String {
    let text = std::str::from_utf8(configuration()).expect(rt, "from_utf8");
    format!(in alloc; "{version}\n{text}").expect(rt, "memory")
}

/// A start on a journal of that version with long records of that kind makes these calls.
fn assert_long(rt: &impl Abort, alloc: Global, version: &str, kind: Kind, calls: &str) {
    let body = body_with(rt, alloc, version);
    let outset = Outset {
        other: Some(body.as_str()),
        long: Some(kind),
        ..with_journal()
    };
    assert_start(
        rt,
        alloc,
        outset,
        ServerStop::Common(Stop::SocketFault),
        calls,
    );
}

/// A journal that was begun and has a record when it is read back is not kept.
#[test]
fn begun_journal_has_a_record(rt: HostRuntime) {
    let outset = Outset {
        found: false,
        behind: Some(1_704_067_200),
        ..with_journal()
    };
    let calls = "lock listen find begin begun pages recovered ";
    assert_start(&rt, rt.alloc(), outset, ServerStop::CannotWrite, calls);
}

/// A fault of the call behind so many ends a start without a journal there.
fn assert_fault(rt: &impl Abort, alloc: Global, count: u32) {
    let outset = Outset {
        left: count,
        found: false,
        ..with_journal()
    };
    let mut place = MemoryPlace::new(alloc, outset);
    let stop = served(&mut place, &Standing, configuration());
    assert_same(rt, stop, Err(ServerStop::Common(Stop::DeviceFault)));
    assert_calls(rt, place.calls.as_str(), (count as usize).wrapping_add(1));
}

/// A fault at any step ends a start there, but one of a report.
#[test]
fn faults_at_each_step(rt: HostRuntime) {
    for count in [0u32, 1, 2, 3, 4, 5, 7, 8] {
        assert_fault(&rt, rt.alloc(), count);
    }
}

/// A start on a journal whose first record has that name and body stops so, once it is opened.
fn assert_not_read(
    rt: &impl Abort,
    alloc: Global,
    name: &'static [u8],
    body: &'static [u8],
    wanted: ServerStop,
) {
    let outset = Outset {
        name,
        body,
        ..with_journal()
    };
    assert_start(rt, alloc, outset, wanted, "lock listen find open ");
}

/// Another program, another version.
#[test]
fn other_journals(rt: HostRuntime) {
    let alloc = rt.alloc();
    let ours = b"oaihostd";
    assert_not_read(&rt, alloc, b"other", first_body(), ServerStop::NotOurs);
    assert_not_read(&rt, alloc, ours, b"3\n{}", ServerStop::OfVersion(3));
    assert_not_read(&rt, alloc, ours, b"{}", ServerStop::NotOurs);
}

/// A journal of a configuration whose repository has that name, that number of pages in the cache, granularity and
/// title.
fn body_of(
    rt: &impl Abort,
    alloc: Global,
    name: &str,
    cache: u32,
    granularity: &str,
    title: &str,
) -> String {
    let earliest = if granularity == "days" {
        "2024-01-01"
    } else {
        "2024-01-01T00:00:00Z"
    };
    let first = format!(in alloc;
        "2\n{{\"cache\": {cache}, \"base\":\"http://host.example\",\"repositories\":[{{\"name\":\"{name}\","
    ).expect(rt, "memory");
    let second = format!(in alloc;
        "\"repositoryName\":\"{title}\",\"adminEmail\":[\"a@host.example\"],\"earliestDatestamp\":\"{earliest}\","
    ).expect(rt, "memory");
    format!(in alloc;
        "{first}{second}\"deletedRecord\":\"persistent\",\"granularity\":\"{granularity}\",\"chunk\":2,\"lifetime\":60,\"lists\":1,\"items\":100,\"formats\":[]}}]}}"
    ).expect(rt, "memory")
}

/// A start on a journal of that body ends so, behind these calls.
fn assert_other(rt: &impl Abort, alloc: Global, body: &str, wanted: ServerStop, calls: &str) {
    let outset = Outset {
        other: Some(body),
        ..with_journal()
    };
    assert_start(rt, alloc, outset, wanted, calls);
}

/// A start on a journal of a repository `a` with that cache and title makes these calls, and waits.
fn assert_goes_on(rt: &impl Abort, alloc: Global, cache: u32, title: &str, calls: &str) {
    let body = body_of(rt, alloc, "a", cache, "seconds", title);
    let waits = ServerStop::Common(Stop::SocketFault);
    assert_other(rt, alloc, body.as_str(), waits, calls);
}

/// A start on a journal of a repository with that name and granularity stops: the server cannot go on with another
/// aspect of it.
fn assert_differs(rt: &impl Abort, alloc: Global, name: &str, granularity: &str, aspect: Aspect) {
    let body = body_of(rt, alloc, name, 1, granularity, "A");
    let repository = String::from_str(alloc, name).expect(rt, "memory");
    let stop = ServerStop::OtherConfig(Difference { repository, aspect });
    assert_other(rt, alloc, body.as_str(), stop, "lock listen find open ");
}

/// Another order of members and another cache are the same configuration; with another name for people the server goes
/// on by a checkpoint; and with a repository that is missing, or has another granularity, it does not.
#[test]
fn other_configurations(rt: HostRuntime) {
    let alloc = rt.alloc();
    assert_goes_on(&rt, alloc, 7, "A", FOUND);
    let by_a_checkpoint =
        "lock listen find open pages recovered begin begun pages recovered keep other announce ";
    assert_goes_on(&rt, alloc, 1, "B", by_a_checkpoint);
    assert_differs(&rt, alloc, "b", "seconds", Aspect::Name);
    assert_differs(&rt, alloc, "a", "days", Aspect::Granularity);
}

/// It was not a configuration.
fn assert_bad_config(rt: &impl Abort, stop: Result<Result<(), ServerStop>, ServerStop>) {
    match stop {
        Err(ServerStop::Common(Stop::BadConfig(_))) => {}
        _ => assert!(rt; false),
    }
}

/// A configuration that is none stops it before anything is opened.
#[test]
fn no_configuration(rt: HostRuntime) {
    let mut place = MemoryPlace::new(rt.alloc(), with_journal());
    assert_bad_config(&rt, served(&mut place, &Standing, b"{}"));
    assert_same(&rt, place.calls.as_str(), "");
}
