//! What the event loop counts of connections, the second that it read last, and whether a checkpoint is written.
ghost use Rattle.std.specs.Prelude.{◌≡◌};

use oai_serving::{Readiness, Sockets, Stream};
use std::cell::Cell;
use std::io;
use std::rc::Rc;
use std::time::Duration;

/// Connections that were accepted, and closed; the second of a monotonic clock that was read last; and whether a
/// checkpoint is written.
#[derive(Drop)]
pub(crate) struct Tally {
    accepted: Cell<u64>,
    closed: Cell<u64>,
    second: Cell<u64>,
    busy: Cell<bool>,
    /// The moment and the bytes of the last one that was written.
    checkpoint: Cell<Option<(i64, usize)>>,
}

impl Tally {
    /// No connection, in that second, and no checkpoint.
    pub(crate) fn new(second: u64) -> Tally {
        Tally {
            accepted: Cell::new(0),
            closed: Cell::new(0),
            second: Cell::new(second),
            busy: Cell::new(false),
            checkpoint: Cell::new(None),
        }
    }

    /// Notes the second.
    pub(crate) fn note(&self, second: u64) {
        self.second.set(second);
    }

    /// The second that was noted last.
    pub(crate) fn second(&self) -> u64 {
        self.second.get()
    }

    /// Notes whether a checkpoint is written.
    pub(crate) fn note_busy(&self, is_busy: bool) {
        self.busy.set(is_busy);
    }

    /// Notes a checkpoint that was written, by its moment and its bytes.
    pub(crate) fn note_checkpoint(&self, moment: i64, bytes: usize) {
        self.checkpoint.set(Some((moment, bytes)));
    }

    /// The moment and the bytes of the checkpoint that was written last.
    pub(crate) fn checkpoint(&self) -> Option<(i64, usize)> {
        self.checkpoint.get()
    }

    /// How many connections were accepted.
    pub(crate) fn accepted(&self) -> u64 {
        self.accepted.get()
    }

    /// How many are open.
    pub(crate) fn open(&self) -> u64 {
        self.accepted.get().saturating_sub(self.closed.get())
    }

    /// Counts a connection that was accepted.
    fn accept(&self) {
        self.accepted.set(self.accepted.get().wrapping_add(1));
    }

    /// Counts a connection that was closed.
    fn close(&self) {
        self.closed.set(self.closed.get().wrapping_add(1));
    }
}

/// A port whose connections are counted. While a checkpoint is written it does not wait for them.
#[derive(Drop)]
pub(crate) struct CountedPort<K> {
    port: K,
    tally: Rc<Tally>,
}

impl<K> CountedPort<K> {
    /// Over that port.
    pub(crate) fn new(port: K, tally: Rc<Tally>) -> CountedPort<K>
        ensures { result.port ≡ port }
    {
        CountedPort { port, tally }
    }

    /// The port.
    pub(crate) fn into_port(self) -> K
        ensures { result ≡ self.port }
    {
        self.port
    }
}

impl<S: Stream, K: Sockets<S>> Sockets<S> for CountedPort<K> {
    ghost accepted = { λ counted. K.accepted counted.port };

    ghost gone = { λ counted. K.gone counted.port };

    fn wait(&mut self, most: Duration) -> io::Result<usize> {
        if self.tally.busy.get() {
            return self.port.wait(Duration::ZERO);
        }
        self.port.wait(most)
    }

    fn ready(&self, at: usize) -> Option<Readiness> {
        self.port.ready(at)
    }

    fn accept(&mut self) -> io::Result<Option<S>> {
        let accepted = self.port.accept();
        if let Ok(Some(_)) = &accepted {
            self.tally.accept();
        }
        accepted
    }

    fn watch(&mut self, stream: &mut S, key: usize) -> io::Result<()> {
        self.port.watch(stream, key)
    }

    fn let_go(&mut self, number: u64, stream: S) {
        self.tally.close();
        self.port.let_go(number, stream);
    }
}
