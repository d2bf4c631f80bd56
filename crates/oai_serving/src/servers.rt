//! The event loop: rounds over all connections.
ghost use Rattle.std.specs.Prelude.{◌≡◌, ◌<◌, ◌+◌, ◌^◌, [], IfOk};
ghost use Rattle.oai_serving.specs.declared.tables.TheConstants.{MAX_LINKS};
ghost use Rattle.slab.specs.Slab.{slab_len};
ghost use Rattle.oai_serving.specs.Accepted.{known_of};
ghost use Rattle.oai_serving.specs.Rounds.{AreAccepted, AreLinksEnded, AreLinksWritten, IsAdmitted, IsPerformance, IsRound, IsService, IsStoredOrDropped};

use crate::faults::ServeFault;
use crate::links::{Link, READ_BYTES};
use crate::sockets::{Readiness, Sockets, Stream};
use crate::tables::{
    MAX_LINKS, RoundKeys, RoundTime, end_all, is_any_busy, let_go, note_at, put_all, read_all,
    shed_all,
};
use oai_http::Settled;
use slab::Slab;
use std::alloc::{AllocError, Global};
use std::marker::Model;
use std::rt::Clock;
use std::time::Duration;

/// The maximum number of seconds of a wait.
const WAIT_SECONDS: u64 = 1;

/// The seconds after which a failed `accept` is retried.
const RETRY_SECONDS: u64 = 1;

/// Connections, and the handler that performs their messages; `keys` is above each key that a link had. It runs in
/// rounds: input that is ready is read and performed, the handler settles (group commit), and then the answers are
/// written.
#[derive(Drop)]
pub struct Server<S, H> {
    handler: H,
    alloc: Global,
    links: Slab<Link<S>>,
    last: u64,
    buffer: Vec<u8>,
    keys: usize,
    first: usize,
    waiting: bool,
    retry: u64,
}

impl<S, H> Model for Server<S, H> {
    ghost use Rattle.oai_serving.specs.Rounds.{World};

    ghost Value = { World S H };

    ghost use Rattle.oai_serving.specs.ServerInside.{IsServer, world_in};

    ghost view = { world_in };

    ghost invariant = { IsServer };
}

impl<S: Stream + Drop, H: Settled> Server<S, H> {
    /// A server without connections. The error is out of memory.
    pub fn new(alloc: Global, handler: H) -> Result<Server<S, H>, AllocError>
    where
        H: Drop,
        ensures handler { IfOk result (λ server. server.handler ≡ handler) }
        ensures links { IfOk result (λ server. server.links.slots ≡ []) }
        ensures last { IfOk result (λ server. server.last ≡ 0) }
    {
        let links = Slab::with_capacity(alloc, MAX_LINKS)?;
        let buffer = vec![in alloc; 0u8; READ_BYTES]?;
        Ok(Server {
            handler,
            alloc,
            links,
            last: 0,
            buffer,
            keys: 0,
            first: 0,
            waiting: true,
            retry: 0,
        })
    }

    /// Serves until it cannot wait, the clock cannot be read, or the handler does not settle. A client receives a
    /// prefix of the answers to its messages, each of which the handler settled before.
    pub fn serve<K: Sockets<S>, C: Clock>(
        &mut self,
        sockets: &mut K,
        clock: &C,
    ) -> Result<(), ServeFault>
        ensures { IsService H.step H.settled S.contents S.remaining (known_of (K.accepted sockets.old) (K.gone sockets.old))
            (known_of (K.accepted sockets.new) (K.gone sockets.new)) self.old result self.new }
    {
        for _count in 0..u64::MAX {
            match self.round(sockets, clock) {
                Ok(()) => {}
                Err(fault) => return Err(fault),
            }
        }
        Ok(())
    }

    /// A round: waits until something becomes ready, at most a second, accepts connections, reads each readable one
    /// once, and performs what came; then the handler settles; and then the output is written. If the handler does not
    /// settle, nothing is written. Both clocks are read once, after the wait, the monotonic one first.
    pub fn round<K: Sockets<S>, C: Clock>(
        &mut self,
        sockets: &mut K,
        clock: &C,
    ) -> Result<(), ServeFault>
        ensures { IsRound H.step H.settled S.contents S.remaining (known_of (K.accepted sockets.old) (K.gone sockets.old))
            (known_of (K.accepted sockets.new) (K.gone sockets.new)) self.old result self.new }
    {
        let Ok(count) = sockets.wait(self.patience()) else {
            return Err(ServeFault::Wait);
        };
        let Ok(second) = second_of(clock) else {
            return Err(ServeFault::Clock);
        };
        let Ok(moment) = moment_of(clock) else {
            return Err(ServeFault::Clock);
        };
        self.note_all(sockets, count);
        self.end_links(sockets);
        self.accept_all(sockets, second);
        self.serve_links(moment, second)
    }

    /// The maximum time to wait: 0 if something can be done.
    fn patience(&self) -> Duration {
        if self.is_accepting() || is_any_busy(&self.links) {
            return Duration::ZERO;
        }
        Duration::from_secs(WAIT_SECONDS)
    }

    /// Whether a connection may wait to be accepted for which there is a place.
    fn is_accepting(&self) -> bool {
        self.waiting && self.retry == 0 && self.links.len() < MAX_LINKS
    }

    /// Reads, performs, settles, and writes.
    fn serve_links(&mut self, moment: i64, second: u64) -> Result<(), ServeFault>
        ensures { IsPerformance H.step H.settled S.contents S.remaining self.old result self.new }
    {
        let keys = RoundKeys {
            first: self.first,
            most: self.keys,
        };
        let time = RoundTime { moment, second };
        self.first = read_all(
            self.alloc,
            &mut self.links,
            keys,
            &mut self.handler,
            time,
            &mut self.buffer,
        );
        match self.handler.settle() {
            Ok(()) => {
                self.put(second);
                Ok(())
            }
            Err(_) => Err(ServeFault::Unsettled),
        }
    }

    /// Writes the waiting output of all links.
    fn put(&mut self, second: u64)
        ensures { AreLinksWritten S.contents S.remaining self.old self.new }
    {
        put_all(&mut self.links, self.keys, second);
    }

    /// Removes the links that are over, and others while all together hold more than they may. It is called at the
    /// beginning of a round, so that at the end of each the links that it wrote to still exist.
    fn end_links<K: Sockets<S>>(&mut self, sockets: &mut K)
        ensures { AreLinksEnded S.contents S.remaining (known_of (K.accepted sockets.old) (K.gone sockets.old))
            (known_of (K.accepted sockets.new) (K.gone sockets.new)) self.old self.new }
    {
        end_all(sockets, &mut self.links, self.keys);
        shed_all(sockets, &mut self.links);
    }

    /// Notes what became ready.
    fn note_all<K: Sockets<S>>(&mut self, sockets: &K, count: usize)
        ensures { AreLinksWritten S.contents S.remaining self.old self.new }
    {
        for at in 0..count {
            self.note(sockets.ready(at));
        }
    }

    /// Notes one readiness.
    fn note(&mut self, readiness: Option<Readiness>)
        ensures { AreLinksWritten S.contents S.remaining self.old self.new }
    {
        match readiness {
            Some(
                Readiness::Stream {
                    key,
                    readable,
                    writable,
                    ended,
                },
            ) => note_at(&mut self.links, key, readable, writable, ended),
            Some(Readiness::Listener) => self.waiting = true,
            None => {}
        }
    }

    /// Accepts the waiting connections, as far as there are places.
    fn accept_all<K: Sockets<S>>(&mut self, sockets: &mut K, second: u64)
        ensures { AreAccepted S.contents S.remaining (known_of (K.accepted sockets.old) (K.gone sockets.old))
            (known_of (K.accepted sockets.new) (K.gone sockets.new)) self.old self.new }
    {
        if second < self.retry {
            return;
        }
        self.retry = 0;
        for _ in 0..MAX_LINKS {
            if !self.accept_next(sockets, second) {
                return;
            }
        }
    }

    /// Accepts the next connection, if there is a place; returns whether a further one may wait.
    fn accept_next<K: Sockets<S>>(&mut self, sockets: &mut K, second: u64) -> bool
        ensures { AreAccepted S.contents S.remaining (known_of (K.accepted sockets.old) (K.gone sockets.old))
            (known_of (K.accepted sockets.new) (K.gone sockets.new)) self.old self.new }
    {
        if !self.waiting || self.links.len() >= MAX_LINKS || self.last == u64::MAX {
            return false;
        }
        match sockets.accept() {
            Ok(Some(stream)) => {
                self.admit(sockets, stream, second);
                true
            }
            Ok(None) => {
                self.waiting = false;
                false
            }
            Err(_) => {
                self.retry = second.saturating_add(RETRY_SECONDS);
                false
            }
        }
    }

    /// Begins a link with the accepted stream, which is dropped if it cannot be watched or memory runs out.
    fn admit<K: Sockets<S>>(&mut self, sockets: &mut K, mut stream: S, second: u64)
        requires place { slab_len self.old.links < MAX_LINKS }
        requires number { self.old.last + 1 < 2 ^ 64 }
        ensures { IsAdmitted S.contents S.remaining (known_of (K.accepted sockets.old) (K.gone sockets.old))
            (known_of (K.accepted sockets.new) (K.gone sockets.new)) stream self.old self.new }
    {
        let number = self.last + 1;
        self.last = number;
        let key = self.links.vacant_key();
        self.keys = self.keys.max(key.saturating_add(1));
        if sockets.watch(&mut stream, key).is_err() {
            sockets.let_go(number, stream);
            return;
        }
        let link = Link::new(self.alloc, number, stream, second);
        self.keep(sockets, link);
    }

    /// Stores a link, or closes its stream if memory runs out.
    fn keep<K: Sockets<S>>(&mut self, sockets: &mut K, link: Link<S>)
        requires { slab_len self.old.links < MAX_LINKS }
        ensures handler { self.new.handler ≡ self.old.handler }
        ensures last { self.new.last ≡ self.old.last }
        ensures links { IsStoredOrDropped (known_of (K.accepted sockets.old) (K.gone sockets.old))
            (known_of (K.accepted sockets.new) (K.gone sockets.new)) link self.old.links self.new.links }
    {
        match self.links.insert(link) {
            Ok(_) => {}
            Err(failed) => let_go(sockets, failed.value),
        }
    }
}

/// The clock's moment, in seconds from 1970 on. The error is that it cannot be read.
fn moment_of<C: Clock>(clock: &C) -> Result<i64, ServeFault> {
    match clock.since_1970() {
        Ok(time) => Ok(i64::try_from(time.as_secs()).unwrap_or(i64::MAX)),
        Err(_) => Err(ServeFault::Clock),
    }
}

/// The second of a monotonic clock. The error is that it cannot be read.
fn second_of<C: Clock>(clock: &C) -> Result<u64, ServeFault> {
    match clock.monotonic() {
        Ok(time) => Ok(time.as_secs()),
        Err(_) => Err(ServeFault::Clock),
    }
}
