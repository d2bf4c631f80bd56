//! The limits of connections: how many are open, for how long, and how much one that takes nothing holds.
use crate::assertions::assert_same;
use crate::memory::{Manner, PLAIN, Seen};
use crate::served::{Stage, assert_received, come, go_round, new_seen, new_stage, times};
use std::alloc::Global;
use std::panic::Expect;
use std::process::Abort;
use std::rc::Rc;

/// A client that comes now is served.
fn assert_other_served(rt: &impl Abort, stage: &mut Stage) {
    let other = new_seen(rt, stage.alloc);
    let one = times(rt, stage.alloc, b"GET /a HTTP/1.0\r\n\r\n", 1);
    come(rt, stage, one, &other, PLAIN);
    go_round(rt, stage, 0, 5);
    assert_received(
        rt,
        &other,
        b"HTTP/1.1 200 OK\r\nContent-Type: text/plain; version=0.0.4\r\nConnection: close\r\nContent-Length: 2\r\n\r\n/a",
    );
}

/// A client that sends 1,000 requests, each answered with 2,000 bytes, and takes none, has at most two of them
/// performed; another is served beside it.
fn assert_stalled(rt: &impl Abort, stage: &mut Stage, stalled: &Rc<Seen>) {
    let many = times(
        rt,
        stage.alloc,
        b"GET /l HTTP/1.1\r\nHost: h\r\n\r\n",
        1_000,
    );
    come(rt, stage, many, stalled, Manner { takes: 0, ..PLAIN });
    go_round(rt, stage, 0, 50);
    assert!(rt; stage.count.performed.get() <= 2);
    assert_other_served(rt, stage);
    assert_received(rt, stalled, b"");
    assert_same(rt, Rc::strong_count(stalled), 2);
    go_round(rt, stage, 60, 2);
    assert_same(rt, Rc::strong_count(stalled), 1);
}

#[test]
fn client_that_stops_taking(rt: HostRuntime) {
    let stalled = new_seen(&rt, rt.alloc());
    assert_stalled(&rt, &mut new_stage(&rt, rt.alloc(), 0, 0), &stalled);
}

/// 1,100 clients come and send nothing: 1,024 are open, the others wait; once the first have been idle for 60
/// seconds the others are accepted.
fn assert_places(rt: &impl Abort, stage: &mut Stage, seen: &Rc<Seen>) {
    let idle = Manner {
        ends: false,
        ..PLAIN
    };
    for _ in 0..1_100 {
        let nothing = Vec::new(stage.alloc);
        come(rt, stage, nothing, seen, idle);
    }
    for second in 0..60 {
        go_round(rt, stage, second, 1);
    }
    assert_same(rt, stage.waiting.len(), 76);
    assert_same(rt, Rc::strong_count(seen), 1_101);
    go_round(rt, stage, 60, 2);
    assert_same(rt, stage.waiting.len(), 0);
    assert_same(rt, Rc::strong_count(seen), 77);
}

#[test]
fn clients_beyond_the_places(rt: HostRuntime) {
    let seen = new_seen(&rt, rt.alloc());
    assert_places(&rt, &mut new_stage(&rt, rt.alloc(), 0, 0), &seen);
}

/// A message that is too long, and 100,000 bytes of its body.
fn too_long(rt: &impl Abort, alloc: Global) -> Vec<u8> {
    let head = b"POST /a HTTP/1.1\r\nHost: h\r\nContent-Length: 1048577\r\n\r\n";
    let mut sends = times(rt, alloc, head, 1);
    for _ in 0..10_000 {
        sends.extend_from_slice(b"0123456789").expect(rt, "memory");
    }
    sends
}

/// A client whose message is too long gets its answer, is shut, and what it still sends is dropped, for 2 seconds.
fn assert_shut(rt: &impl Abort, stage: &mut Stage, seen: &Rc<Seen>) {
    let slow = Manner {
        read: 1_000,
        ends: false,
        ..PLAIN
    };
    let sends = too_long(rt, stage.alloc);
    come(rt, stage, sends, seen, slow);
    go_round(rt, stage, 0, 50);
    assert_received(
        rt,
        seen,
        b"HTTP/1.1 413 Content Too Large\r\nConnection: close\r\nContent-Length: 0\r\n\r\n",
    );
    assert!(rt; seen.finished.get());
    go_round(rt, stage, 1, 1);
    assert_same(rt, Rc::strong_count(seen), 2);
    go_round(rt, stage, 2, 2);
    assert_same(rt, Rc::strong_count(seen), 1);
    assert_same(rt, stage.count.performed.get(), 0);
}

#[test]
fn client_that_still_sends(rt: HostRuntime) {
    let seen = new_seen(&rt, rt.alloc());
    assert_shut(&rt, &mut new_stage(&rt, rt.alloc(), 0, 0), &seen);
}
