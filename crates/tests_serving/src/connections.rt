//! The ends of connections, and their numbers.
use crate::assertions::{assert_same, assert_shown};
use crate::recording_handler::front;
use oai_front::{ConnId, Front, NoSuchConnection, OpenFault, PieceFault};
use std::panic::Expect;
use std::process::Abort;
use tests_fixtures::Teller;

/// The connection ends, and is closing; what comes behind is not answered.
fn assert_closes(rt: &impl Abort, front: &mut Front<Teller>, conn: ConnId) {
    front.end(conn).expect(rt, "end");
    assert_same(rt, front.closing(conn), Some(true));
    front.piece(conn, 0, b"y").expect(rt, "piece");
    assert_same(rt, front.output(conn).map(|bytes| bytes.len()), Some(0));
}

#[test]
fn what_is_not_whole_at_the_end_is_dropped(rt: HostRuntime) {
    let mut front = front(rt.alloc(), 1);
    let conn = front.open().expect(&rt, "open");
    front
        .piece(
            conn,
            0,
            b"POST /oai/a HTTP/1.1\r\nHost: h\r\nContent-Length: 2\r\n\r\nx",
        )
        .expect(&rt, "piece");
    assert_same(&rt, front.closing(conn), Some(false));
    assert_closes(&rt, &mut front, conn);
}

/// No call finds the connection.
fn assert_gone(rt: &impl Abort, front: &mut Front<Teller>, conn: ConnId) {
    assert_same(
        rt,
        front.piece(conn, 0, b""),
        Err(PieceFault::NoSuchConnection),
    );
    assert_same(rt, front.end(conn), Err(NoSuchConnection));
    assert_same(rt, front.forget(conn), Err(NoSuchConnection));
}

/// The front has no such connection: no output of it, and neither open nor closing.
fn assert_untold(rt: &impl Abort, front: &Front<Teller>, conn: ConnId) {
    assert!(rt; front.output(conn).is_none());
    assert_same(rt, front.closing(conn), None);
}

/// The one connection that may be open.
fn only_opened(rt: &impl Abort, front: &mut Front<Teller>) -> ConnId {
    let conn = front.open().expect(rt, "open");
    assert_same(rt, conn.number, 1);
    assert_same(rt, front.open(), Err(OpenFault::Full));
    conn
}

#[test]
fn a_forgotten_connection_is_gone(rt: HostRuntime) {
    let mut front = front(rt.alloc(), 1);
    let conn = only_opened(&rt, &mut front);
    front.forget(conn).expect(&rt, "forget");
    assert_gone(&rt, &mut front, conn);
    assert_untold(&rt, &front, conn);
    assert_same(&rt, front.open(), Ok(ConnId { number: 2 }));
}

#[test]
fn as_many_connections_are_open_as_may_be(rt: HostRuntime) {
    let mut front = front(rt.alloc(), 1_024);
    for number in 1..=1_024 {
        assert_same(&rt, front.open(), Ok(ConnId { number }));
    }
    assert_same(&rt, front.open(), Err(OpenFault::Full));
}

#[test]
fn faults_of_opening_are_told(rt: HostRuntime) {
    for (fault, text) in [
        (OpenFault::Full, "too many connections are open"),
        (OpenFault::NoMemory, "out of memory"),
        (
            OpenFault::NumbersSpent,
            "no number is left for a connection",
        ),
    ] {
        assert_shown(&rt, rt.alloc(), fault, text);
    }
}

#[test]
fn faults_of_pieces_are_told(rt: HostRuntime) {
    for (fault, text) in [
        (PieceFault::NoSuchConnection, "no such connection is open"),
        (PieceFault::NoMemory, "out of memory"),
        (
            PieceFault::Unfinished,
            "out of memory before all was performed",
        ),
    ] {
        assert_shown(&rt, rt.alloc(), fault, text);
    }
}
