//! What a client receives does not depend on the sizes of reads and writes, nor on calls that would block.
use crate::memory::{Manner, PLAIN, Seen};
use crate::served::{Stage, come, go_round, new_seen, new_stage, times};
use std::alloc::Global;
use std::process::Abort;
use std::rc::Rc;

/// Two requests, one with a body, and the last one, with an end of line in each of its forms.
const SENT: &[u8] =
    b"GET /a HTTP/1.1\r\nHost: h\r\n\r\nPOST /b HTTP/1.1\nHost: h\nContent-Length: 6\n\n1\n\r\n\n2GET /c HTTP/1.0\r\n\r\nGET /d HTTP/1.0\r\n\r\n";

const WANTED: &[u8] =
    b"HTTP/1.1 200 OK\r\nContent-Type: text/plain; version=0.0.4\r\nContent-Length: 2\r\n\r\n/a\
HTTP/1.1 200 OK\r\nContent-Type: text/plain; version=0.0.4\r\nContent-Length: 2\r\n\r\n/b\
HTTP/1.1 200 OK\r\nContent-Type: text/plain; version=0.0.4\r\nConnection: close\r\nContent-Length: 2\r\n\r\n/c";

/// A client of that manner sends the bytes, and is served in so many rounds.
fn serve(
    rt: &impl Abort,
    stage: &mut Stage,
    sent: &[u8],
    manner: Manner,
    rounds: usize,
    seen: &Rc<Seen>,
) {
    let sends = times(rt, stage.alloc, sent, 1);
    come(rt, stage, sends, seen, manner);
    go_round(rt, stage, 0, rounds);
}

/// What a client of that manner receives in so many rounds.
fn received(rt: &impl Abort, alloc: Global, sent: &[u8], manner: Manner, rounds: usize) -> Vec<u8> {
    let seen = new_seen(rt, alloc);
    let mut stage = new_stage(rt, alloc, 0, 0);
    serve(rt, &mut stage, sent, manner, rounds, &seen);
    drop(stage);
    seen.bytes()
}

/// It receives what is wanted.
fn assert_answered(rt: &impl Abort, alloc: Global, manner: Manner, rounds: usize) {
    assert!(rt; received(rt, alloc, SENT, manner, rounds).as_slice() == WANTED);
}

#[test]
fn reads_of_each_size(rt: HostRuntime) {
    for read in 1..100 {
        let manner = Manner { read, ..PLAIN };
        assert_answered(&rt, rt.alloc(), manner, 150 / read + 10);
    }
}

#[test]
fn writes_of_each_size(rt: HostRuntime) {
    for write in 1..100 {
        let manner = Manner { write, ..PLAIN };
        assert_answered(&rt, rt.alloc(), manner, 16);
    }
}

#[test]
fn calls_that_would_block(rt: HostRuntime) {
    let manner = Manner {
        read: 3,
        write: 5,
        blocks: true,
        ..PLAIN
    };
    assert_answered(&rt, rt.alloc(), manner, 300);
}

/// A client that ends its side within a message receives what was whole before.
#[test]
fn end_within_a_message(rt: HostRuntime) {
    let sent = b"GET /a HTTP/1.1\r\nHost: h\r\n\r\nGET /b HTTP/1.1\r\nHo";
    let wanted =
        b"HTTP/1.1 200 OK\r\nContent-Type: text/plain; version=0.0.4\r\nContent-Length: 2\r\n\r\n/a";
    assert!(&rt; received(&rt, rt.alloc(), sent, PLAIN, 20).as_slice() == wanted.as_slice());
}
