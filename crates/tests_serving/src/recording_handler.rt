//! What a front answers over a handler that repeats what it was asked.
use crate::assertions::assert_same;
use oai_front::{ConnId, Front};
use std::alloc::Global;
use std::panic::Expect;
use std::process::Abort;
use tests_fixtures::{Teller, unasked};

/// A front over such a handler.
pub(crate) fn front(alloc: Global, limit: usize) -> Front<Teller> {
    Front::new(alloc, unasked(alloc), limit)
}

/// Hands the piece on, which is taken with all that it completes.
pub(crate) fn hand_on(
    rt: &impl Abort,
    front: &mut Front<Teller>,
    conn: ConnId,
    moment: i64,
    piece: &[u8],
) {
    front.piece(conn, moment, piece).expect(rt, "piece");
}

/// Takes what is to be written on the connection, one byte at a time where `slowly`.
pub(crate) fn take_all<H>(
    rt: &impl Abort,
    front: &mut Front<H>,
    conn: ConnId,
    slowly: bool,
    all: &mut Vec<u8>,
) {
    for _ in 0..100_000u32 {
        let count = match front.output(conn) {
            Some([]) => break,
            Some(bytes) => {
                let count = if slowly { 1 } else { bytes.len() };
                all.extend_from_slice(&bytes[..count]).expect(rt, "memory");
                count
            }
            None => break,
        };
        front.taken(conn, count);
    }
}

/// What is to be written on the connection is that.
pub(crate) fn assert_waits(
    rt: &impl Abort,
    alloc: Global,
    front: &mut Front<Teller>,
    conn: ConnId,
    wanted: &[u8],
) {
    let mut all = Vec::new(alloc);
    take_all(rt, front, conn, false, &mut all);
    assert_same(rt, all.as_slice(), wanted);
}

/// Hands the pieces on, each at the moment of its number.
fn hand_each(rt: &impl Abort, front: &mut Front<Teller>, conn: ConnId, pieces: &[&[u8]]) {
    let mut moment: i64 = 0;
    for piece in pieces {
        hand_on(rt, front, conn, moment, piece);
        moment = moment.wrapping_add(1);
    }
}

/// What is answered to these pieces on one connection, each at the moment of its number, and whether the
/// connection is closing then.
pub(crate) fn answered(rt: &impl Abort, alloc: Global, pieces: &[&[u8]]) -> (Vec<u8>, bool) {
    let mut front = front(alloc, 1);
    let conn = front.open().expect(rt, "open");
    hand_each(rt, &mut front, conn, pieces);
    let mut all = Vec::new(alloc);
    take_all(rt, &mut front, conn, false, &mut all);
    (all, front.closing(conn) == Some(true))
}
