//! Sockets over mio.
ghost use Rattle.std.specs.Prelude.{◌≡◌, ◌<◌, length};

use crate::sockets::{Readiness, Sockets, Stream};
use mio::net::{TcpListener, TcpStream};
use mio::{Events, Interest, Poll, Token};
use std::alloc::Global;
use std::io::{self, Read, Write};
use std::net::{Net, Shutdown, SocketAddr};
use std::time::Duration;

/// The token of the listener; that of a stream is its key plus one.
const LISTENER: usize = 0;

/// The maximum number of events of a wait.
const MAX_EVENTS: usize = 1_024;

/// A TCP stream. No contract knows the bytes that are written to it and read from it.
#[derive(Drop)]
pub struct Socket {
    stream: TcpStream,
}

impl Stream for Socket {
    fn read(&mut self, buffer: &mut [u8]) -> io::Result<usize> {
        self.stream.read(buffer)
    }

    fn write(&mut self, bytes: &[u8]) -> io::Result<usize> {
        self.stream.write(bytes)
    }

    fn finish(&mut self) {
        let _ = self.stream.shutdown(Shutdown::Write);
    }
}

/// A TCP listener, and the readiness of the streams that it accepted, by `epoll`, edge-triggered.
#[derive(Drop)]
pub struct Listener {
    poll: Poll,
    events: Events,
    listener: TcpListener,
}

impl Listener {
    /// Listens at that address.
    pub fn bind<N: Net>(alloc: Global, net: &N, address: SocketAddr) -> io::Result<Listener> {
        let poll = Poll::new(net)?;
        let events = match Events::with_capacity(alloc, MAX_EVENTS) {
            Ok(events) => events,
            Err(_) => return Err(io::Error::from(io::ErrorKind::OutOfMemory)),
        };
        let mut listener = TcpListener::bind(net, address)?;
        poll.registry()
            .register(&mut listener, Token(LISTENER), Interest::READABLE)?;
        Ok(Listener {
            poll,
            events,
            listener,
        })
    }

    /// The address at which it listens.
    pub fn address(&self) -> io::Result<SocketAddr> {
        self.listener.local_addr()
    }
}

impl Sockets<Socket> for Listener {
    fn wait(&mut self, most: Duration) -> io::Result<usize> {
        self.poll.poll(&mut self.events, Some(most))?;
        Ok(self.events.iter().count())
    }

    fn ready(&self, at: usize) -> Option<Readiness> {
        let event = self.events.iter().nth(at)?;
        let Token(token) = event.token();
        if token == LISTENER {
            return Some(Readiness::Listener);
        }
        Some(Readiness::Stream {
            key: token - 1,
            readable: event.is_readable(),
            writable: event.is_writable(),
            ended: event.is_read_closed(),
        })
    }

    fn accept(&mut self) -> io::Result<Option<Socket>> {
        match self.listener.accept() {
            Ok((stream, _)) => {
                let _ = stream.set_nodelay(true);
                Ok(Some(Socket { stream }))
            }
            Err(error) => match error.kind() {
                io::ErrorKind::WouldBlock => Ok(None),
                _ => Err(error),
            },
        }
    }

    fn watch(&mut self, stream: &mut Socket, key: usize) -> io::Result<()> {
        let token = Token(key.saturating_add(1));
        let interests = Interest::READABLE | Interest::WRITABLE;
        self.poll
            .registry()
            .register(&mut stream.stream, token, interests)
    }

    fn let_go(&mut self, _number: u64, stream: Socket) {
        drop(stream);
    }
}
