//! Sockets in memory: what clients send and received, with reads and writes of any size.
use oai_serving::{Readiness, Sockets, Stream};
use std::alloc::{AllocError, Global};
use std::cell::{Cell, RefCell};
use std::io::{self, ErrorKind};
use std::rc::Rc;
use std::rt::Clock;
use std::time::Duration;

/// How a stream behaves.
#[derive(Clone, Copy)]
pub(crate) struct Manner {
    /// The most bytes of a read, at least 1.
    pub(crate) read: usize,
    /// The most bytes of a write, at least 1.
    pub(crate) write: usize,
    /// Every second read and every second write would block.
    pub(crate) blocks: bool,
    /// The bytes that the client takes before it takes no more.
    pub(crate) takes: usize,
    /// The client ends its side behind what it sends.
    pub(crate) ends: bool,
    /// The read of that number fails, counted from 1.
    pub(crate) read_fails: usize,
    /// The write of that number fails, counted from 1.
    pub(crate) write_fails: usize,
}

/// A client that sends all at once, takes all, and ends its side.
pub(crate) const PLAIN: Manner = Manner {
    read: 65_536,
    write: 1_048_576,
    blocks: false,
    takes: 16_777_216,
    ends: true,
    read_fails: 0,
    write_fails: 0,
};

/// What a client saw.
#[derive(Drop)]
pub(crate) struct Seen {
    alloc: Global,
    pub(crate) received: RefCell<Vec<u8>>,
    pub(crate) finished: Cell<bool>,
}

impl Seen {
    /// Nothing so far.
    pub(crate) fn new(alloc: Global) -> Result<Rc<Seen>, AllocError> {
        Ok(Rc::new(
            alloc,
            Seen {
                alloc,
                received: RefCell::new(Vec::new(alloc)),
                finished: Cell::new(false),
            },
        )?)
    }

    /// What it received.
    pub(crate) fn bytes(&self) -> Vec<u8> {
        match self.received.try_replace(Vec::new(self.alloc)) {
            Ok(bytes) => bytes,
            Err(none) => none,
        }
    }
}

/// A stream in memory.
#[derive(Drop)]
pub(crate) struct Client {
    sends: Vec<u8>,
    at: usize,
    seen: Rc<Seen>,
    manner: Manner,
    reads: usize,
    writes: usize,
    taken: usize,
}

impl Client {
    /// A client that sends these bytes, and behaves so.
    pub(crate) fn new(sends: Vec<u8>, seen: Rc<Seen>, manner: Manner) -> Client {
        Client {
            sends,
            at: 0,
            seen,
            manner,
            reads: 0,
            writes: 0,
            taken: 0,
        }
    }
}

impl Stream for Client {
    fn read(&mut self, buffer: &mut [u8]) -> io::Result<usize> {
        self.reads = self.reads.saturating_add(1);
        if self.reads == self.manner.read_fails {
            return Err(io::Error::from(ErrorKind::ConnectionReset));
        }
        if self.manner.blocks && self.reads % 2 == 1 {
            return Err(io::Error::from(ErrorKind::WouldBlock));
        }
        let Some(left) = self.sends.get(self.at..) else {
            return Ok(0);
        };
        if left.is_empty() {
            if self.manner.ends {
                return Ok(0);
            }
            return Err(io::Error::from(ErrorKind::WouldBlock));
        }
        let count = left.len().min(buffer.len()).min(self.manner.read);
        copy(&left[..count], &mut buffer[..count]);
        self.at = self.at.saturating_add(count);
        Ok(count)
    }

    fn write(&mut self, bytes: &[u8]) -> io::Result<usize> {
        self.writes = self.writes.saturating_add(1);
        if self.writes == self.manner.write_fails {
            return Err(io::Error::from(ErrorKind::BrokenPipe));
        }
        if self.manner.blocks && self.writes % 2 == 1 {
            return Err(io::Error::from(ErrorKind::WouldBlock));
        }
        let room = self.manner.takes.saturating_sub(self.taken);
        let count = bytes.len().min(self.manner.write).min(room);
        if count == 0 {
            return Err(io::Error::from(ErrorKind::WouldBlock));
        }
        let Ok(mut received) = self.seen.received.try_borrow_mut() else {
            return Err(io::Error::from(ErrorKind::Other));
        };
        if received.extend_from_slice(&bytes[..count]).is_err() {
            return Err(io::Error::from(ErrorKind::OutOfMemory));
        }
        self.taken = self.taken.saturating_add(count);
        Ok(count)
    }

    fn finish(&mut self) {
        self.seen.finished.set(true);
    }
}

/// Copies bytes to a place of their length.
fn copy(bytes: &[u8], place: &mut [u8]) {
    for (byte, at) in bytes.iter().zip(place.iter_mut()) {
        *at = *byte;
    }
}

/// A listener in memory. After each wait it reports the listener and every key, ready or not.
#[derive(Drop)]
pub(crate) struct Waiting {
    clients: Vec<Client>,
    keys: usize,
    fails: usize,
}

impl Waiting {
    /// Nobody waits, and so many calls of `accept` fail first.
    pub(crate) fn new(alloc: Global, fails: usize) -> Waiting {
        Waiting {
            clients: Vec::new(alloc),
            keys: 0,
            fails,
        }
    }

    /// A client comes; the one that came last is accepted first.
    pub(crate) fn come(&mut self, client: Client) -> Result<(), AllocError> {
        match self.clients.push(client) {
            Ok(()) => Ok(()),
            Err(_) => Err(AllocError),
        }
    }

    /// How many clients wait to be accepted.
    pub(crate) fn len(&self) -> usize {
        self.clients.len()
    }
}

impl Sockets<Client> for Waiting {
    fn wait(&mut self, _most: Duration) -> io::Result<usize> {
        Ok(self.keys.saturating_add(2))
    }

    fn ready(&self, at: usize) -> Option<Readiness> {
        if at == 0 {
            return Some(Readiness::Listener);
        }
        Some(Readiness::Stream {
            key: at - 1,
            readable: true,
            writable: true,
            ended: false,
        })
    }

    fn accept(&mut self) -> io::Result<Option<Client>> {
        if self.fails > 0 {
            self.fails -= 1;
            return Err(io::Error::from(ErrorKind::Other));
        }
        Ok(self.clients.pop())
    }

    fn watch(&mut self, _stream: &mut Client, key: usize) -> io::Result<()> {
        self.keys = self.keys.max(key.saturating_add(1));
        Ok(())
    }

    fn let_go(&mut self, _number: u64, stream: Client) {
        drop(stream);
    }
}

/// A clock that stands at that second, and 2024 began with its start.
#[derive(Drop)]
pub(crate) struct At(pub(crate) u64);

impl Clock for At {
    fn monotonic(&self) -> io::Result<Duration> {
        Ok(Duration::from_secs(self.0))
    }

    fn since_1970(&self) -> io::Result<Duration> {
        Ok(Duration::from_secs(self.0.saturating_add(1_704_067_200)))
    }
}
