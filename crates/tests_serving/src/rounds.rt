//! What becomes of a round: nothing leaves before the handler has settled, and a fault ends its connection alone.
use crate::assertions::assert_same;
use crate::memory::{At, Manner, PLAIN, Seen};
use crate::served::{Stage, assert_received, come, go_round, new_seen, new_stage, times};
use oai_serving::ServeFault;
use std::process::Abort;
use std::rc::Rc;

const ASKED: &[u8] = b"GET /a HTTP/1.0\r\n\r\n";

const ANSWERED: &[u8] =
    b"HTTP/1.1 200 OK\r\nContent-Type: text/plain; version=0.0.4\r\nConnection: close\r\nContent-Length: 2\r\n\r\n/a";

/// A client comes that asks once, and behaves so.
fn come_and_ask(rt: &impl Abort, stage: &mut Stage, seen: &Rc<Seen>, manner: Manner) {
    let sends = times(rt, stage.alloc, ASKED, 1);
    come(rt, stage, sends, seen, manner);
}

/// The server ends at the settling, before anything leaves.
fn assert_unsettled(rt: &impl Abort, stage: &mut Stage) {
    let seen = new_seen(rt, stage.alloc);
    come_and_ask(rt, stage, &seen, PLAIN);
    let end = stage.server.serve(&mut stage.waiting, &At(0));
    assert_same(rt, end, Err(ServeFault::Unsettled));
    assert_received(rt, &seen, b"");
    assert_same(rt, stage.count.performed.get(), 1);
}

#[test]
fn answers_wait_for_the_settling(rt: HostRuntime) {
    assert_unsettled(&rt, &mut new_stage(&rt, rt.alloc(), 0, 1));
}

/// Once the listener has failed, three clients are accepted and gone within four rounds.
fn assert_gone(rt: &impl Abort, stage: &mut Stage) {
    go_round(rt, stage, 0, 1);
    assert_same(rt, stage.waiting.len(), 3);
    for second in 1..5 {
        go_round(rt, stage, second, 1);
    }
    assert_same(rt, stage.waiting.len(), 0);
}

/// A client that can be read and written is served beside one that cannot be read and one that cannot be written.
fn assert_seen_alone(
    rt: &impl Abort,
    stage: &mut Stage,
    good: &Rc<Seen>,
    unread: &Rc<Seen>,
    unwritten: &Rc<Seen>,
) {
    let read_fails = Manner {
        read_fails: 1,
        ..PLAIN
    };
    let write_fails = Manner {
        write_fails: 1,
        ..PLAIN
    };
    come_and_ask(rt, stage, good, PLAIN);
    come_and_ask(rt, stage, unread, read_fails);
    come_and_ask(rt, stage, unwritten, write_fails);
    assert_gone(rt, stage);
    assert_received(rt, good, ANSWERED);
    assert!(rt; good.finished.get());
    assert_received(rt, unread, b"");
    assert_received(rt, unwritten, b"");
    assert_same(rt, stage.count.performed.get(), 2);
}

/// So it is on that stage.
fn assert_alone(rt: &impl Abort, stage: &mut Stage) {
    let good = new_seen(rt, stage.alloc);
    let unread = new_seen(rt, stage.alloc);
    let unwritten = new_seen(rt, stage.alloc);
    assert_seen_alone(rt, stage, &good, &unread, &unwritten);
}

#[test]
fn faults_end_their_connection_alone(rt: HostRuntime) {
    assert_alone(&rt, &mut new_stage(&rt, rt.alloc(), 1, 0));
}
