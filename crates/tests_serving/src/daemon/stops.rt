//! What a server says where it stops, and with which status.
use crate::assertions::assert_same;
use oai_archive::{Aspect, Difference, ServerStop};
use oai_item::Fault;
use oai_recovery::Notice;
use oai_startup::Stop;
use std::alloc::Global;
use std::fmt::Display;
use std::panic::Expect;
use std::process::Abort;

/// The value is shown so.
fn assert_shown<T: Display + Drop>(rt: &impl Abort, alloc: Global, value: &T, wanted: &str) {
    let shown = value.to_string(alloc).expect(rt, "memory");
    assert_same(rt, shown.as_str(), wanted);
}

/// The stop has that text and that status.
fn assert_stop(rt: &impl Abort, alloc: Global, stop: ServerStop, text: &str, status: u8) {
    assert_shown(rt, alloc, &stop, text);
    assert_same(rt, stop.status(), status);
}

#[test]
fn arguments_and_configurations(rt: HostRuntime) {
    let alloc = rt.alloc();
    let unread = ServerStop::Common(Stop::CannotRead);
    assert_stop(&rt, alloc, unread, "config: cannot read", 2);
    let unknown = "dump: no such repository";
    assert_stop(&rt, alloc, ServerStop::NoRepository, unknown, 2);
    let refused = ServerStop::Common(Stop::NoMemory);
    assert_stop(&rt, alloc, refused, "out of memory", 1);
}

/// A configuration that an archive cannot go on with is reported by the first aspect that differs.
#[test]
fn other_configurations(rt: HostRuntime) {
    for (aspect, text) in [
        (
            Aspect::Name,
            "config: differs from the journal: repository a: name",
        ),
        (
            Aspect::Granularity,
            "config: differs from the journal: repository a: granularity",
        ),
        (
            Aspect::Earliest,
            "config: differs from the journal: repository a: earliestDatestamp",
        ),
        (
            Aspect::Deleted,
            "config: differs from the journal: repository a: deletedRecord",
        ),
        (
            Aspect::Contents,
            "config: differs from the journal: repository a: sets and items",
        ),
    ] {
        let repository = String::from_str(rt.alloc(), "a").expect(&rt, "memory");
        let stop = ServerStop::OtherConfig(Difference { repository, aspect });
        assert_stop(&rt, rt.alloc(), stop, text, 2);
    }
}

#[test]
fn folders_and_clocks(rt: HostRuntime) {
    let alloc = rt.alloc();
    assert_stop(&rt, alloc, ServerStop::CannotOpen, "folder: cannot open", 1);
    assert_stop(&rt, alloc, ServerStop::InUse, "folder: in use", 1);
    let second = ServerStop::Jumped(1_704_153_601);
    assert_stop(
        &rt,
        alloc,
        second,
        "clock: jumped to 2024-01-02T00:00:01Z",
        1,
    );
    let late = ServerStop::Jumped(999_999_999_999);
    assert_stop(&rt, alloc, late, "clock: jumped to 9998-12-31T23:59:59Z", 1);
}

#[test]
fn journals(rt: HostRuntime) {
    let alloc = rt.alloc();
    assert_stop(
        &rt,
        alloc,
        ServerStop::NotOurs,
        "journal: not of this program",
        1,
    );
    assert_stop(
        &rt,
        alloc,
        ServerStop::OfVersion(2),
        "journal: of version 2",
        1,
    );
    assert_stop(
        &rt,
        alloc,
        ServerStop::Damaged(975),
        "journal: damaged at byte 975",
        1,
    );
    assert_stop(
        &rt,
        alloc,
        ServerStop::CannotWrite,
        "journal: cannot write",
        1,
    );
    let failed = ServerStop::Performing(3, Fault::NoMemory);
    let text = "journal: record 3: performing it fails: out of memory";
    assert_stop(&rt, alloc, failed, text, 1);
}

#[test]
fn notices(rt: HostRuntime) {
    let alloc = rt.alloc();
    let on = "recovering: 100 of 975 bytes, 7 records";
    assert_shown(&rt, alloc, &Notice::Recovering(100, 975, 7), on);
    let done = "recovered: 7 records, 975 bytes, 2 s";
    assert_shown(&rt, alloc, &Notice::Recovered(7, 975, 2), done);
    let far = "clock: at 2024-01-02T00:00:01Z, and the last record is of 2024-01-01T00:00:00Z";
    assert_shown(
        &rt,
        alloc,
        &Notice::Clock(1_704_153_601, 1_704_067_200),
        far,
    );
    let other = "config: another one: the open lists have ended";
    assert_shown(&rt, alloc, &Notice::OtherConfig, other);
    let old = "journal: of version 1: no elements until a checkpoint";
    assert_shown(&rt, alloc, &Notice::OldVersion, old);
    let failed = "answered 500: 3 times: the device failed";
    assert_shown(&rt, alloc, &Notice::Failed(3, Fault::Device), failed);
}
