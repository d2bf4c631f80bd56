//! Servers of clients in memory, and what is asked of them. A test makes a stage, and hands it to one helper that
//! borrows it: what a function owns at each call makes it dear to prove.
use crate::handler::{Count, Echo};
use crate::memory::{At, Client, Manner, Seen, Waiting};
use oai_serving::Server;
use std::alloc::Global;
use std::panic::Expect;
use std::process::Abort;
use std::rc::Rc;

/// A server of clients in memory.
type EchoServer = Server<Client, Echo>;

/// A server, the clients that wait for it, and how much its handler did.
#[derive(Drop)]
pub(crate) struct Stage {
    pub(crate) alloc: Global,
    pub(crate) count: Rc<Count>,
    pub(crate) waiting: Waiting,
    pub(crate) server: EchoServer,
}

/// A server whose listener fails so many times at first, and whose settling of that number fails. Nobody waits.
pub(crate) fn new_stage(rt: &impl Abort, alloc: Global, listener: usize, settling: u64) -> Stage {
    let count = Count::new(alloc).expect(rt, "memory");
    let server = new_server(rt, alloc, &count, settling);
    Stage {
        alloc,
        count,
        waiting: Waiting::new(alloc, listener),
        server,
    }
}

/// What a client saw: nothing so far.
pub(crate) fn new_seen(rt: &impl Abort, alloc: Global) -> Rc<Seen> {
    Seen::new(alloc).expect(rt, "memory")
}

/// A server whose handler counts there, and whose settling of that number fails.
fn new_server(rt: &impl Abort, alloc: Global, count: &Rc<Count>, fails: u64) -> EchoServer {
    let count = count.clone().expect(rt, "memory");
    let echo = Echo {
        alloc,
        count,
        fails,
    };
    Server::new(alloc, echo).expect(rt, "memory")
}

/// The bytes, so many times.
pub(crate) fn times(rt: &impl Abort, alloc: Global, bytes: &[u8], times: usize) -> Vec<u8> {
    let mut all = Vec::new(alloc);
    for _ in 0..times {
        all.extend_from_slice(bytes).expect(rt, "memory");
    }
    all
}

/// A client comes that sends these bytes, and behaves so.
pub(crate) fn come(
    rt: &impl Abort,
    stage: &mut Stage,
    sends: Vec<u8>,
    seen: &Rc<Seen>,
    manner: Manner,
) {
    let seen = seen.clone().expect(rt, "memory");
    let client = Client::new(sends, seen, manner);
    stage.waiting.come(client).expect(rt, "memory");
}

/// So many rounds at that second.
pub(crate) fn go_round(rt: &impl Abort, stage: &mut Stage, second: u64, rounds: usize) {
    for _ in 0..rounds {
        stage
            .server
            .round(&mut stage.waiting, &At(second))
            .expect(rt, "a round");
    }
}

/// The client received these bytes.
pub(crate) fn assert_received(rt: &impl Abort, seen: &Rc<Seen>, wanted: &[u8]) {
    let received = seen.bytes();
    assert!(rt; received.as_slice() == wanted);
}
