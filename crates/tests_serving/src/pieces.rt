//! Bytes that come in pieces.
use crate::assertions::assert_same;
use crate::recording_handler::{assert_waits, front, hand_on, take_all};
use oai_front::{ConnId, Front};
use std::alloc::Global;
use std::panic::Expect;
use std::process::Abort;
use tests_fixtures::Teller;

/// Five messages: a GET, a POST, a deposit, a bad path, and one that closes the connection; and bytes
/// behind it.
fn stream() -> &'static [u8] {
    b"GET /oai/a HTTP/1.1\r\nHost: h\r\n\r\nPOST /oai/a HTTP/1.1\r\nHost: h\r\nContent-Type: t\r\nContent-Type: u\r\nContent-Length: 5\r\n\r\nhelloPOST /deposit/a HTTP/1.1\r\nHost: h\r\nContent-Length: 2\r\n\r\n{}GET /x HTTP/1.1\r\nHost: h\r\n\r\nGET /oai/a HTTP/1.1\r\nHost: h\r\nConnection: close\r\n\r\nGET / HTTP"
}

/// What is answered to them at moment 7.
fn answers() -> &'static [u8] {
    b"HTTP/1.1 200 OK\r\nContent-Type: text/xml\r\nContent-Length: 12\r\n\r\n1 7 GET [-] HTTP/1.1 200 OK\r\nContent-Type: text/xml\r\nContent-Length: 18\r\n\r\n2 7 POST [t] helloHTTP/1.1 200 OK\r\nContent-Type: text/plain; charset=utf-8\r\nContent-Length: 15\r\n\r\n3 7 POST [-] {}HTTP/1.1 404 Not Found\r\nContent-Length: 0\r\n\r\nHTTP/1.1 200 OK\r\nContent-Type: text/xml\r\nConnection: close\r\nContent-Length: 12\r\n\r\n5 7 GET [-] "
}

#[test]
fn every_cut_gives_the_same_answers(rt: HostRuntime) {
    let bytes = stream();
    for at in 0..=bytes.len() {
        let (first, second) = bytes.split_at(at);
        assert_cut(&rt, rt.alloc(), first, second);
    }
}

/// The stream, cut into these two, is answered so.
fn assert_cut(rt: &impl Abort, alloc: Global, first: &[u8], second: &[u8]) {
    let mut front = front(alloc, 1);
    let conn = front.open().expect(rt, "open");
    hand_on(rt, &mut front, conn, 7, first);
    hand_on(rt, &mut front, conn, 7, second);
    assert_waits(rt, alloc, &mut front, conn, answers());
    assert_same(rt, front.closing(conn), Some(true));
}

#[test]
fn single_bytes_give_the_same_answers(rt: HostRuntime) {
    let mut front = front(rt.alloc(), 1);
    let conn = front.open().expect(&rt, "open");
    let all = slowly_answered(&rt, rt.alloc(), &mut front, conn);
    assert_same(&rt, all.as_slice(), answers());
}

/// What is answered where the stream comes byte by byte, and is taken so behind each.
fn slowly_answered(
    rt: &impl Abort,
    alloc: Global,
    front: &mut Front<Teller>,
    conn: ConnId,
) -> Vec<u8> {
    let mut all = Vec::new(alloc);
    for byte in stream() {
        hand_on(rt, front, conn, 7, &[*byte]);
        take_all(rt, front, conn, true, &mut all);
    }
    all
}
