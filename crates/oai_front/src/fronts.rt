ghost use Rattle.std.specs.Prelude.{◌≡◌, ◌<◌, ◌∷◌, ◌++◌, [], true, vec_capacity, vec_len};
ghost use Rattle.std.specs.List.{remove};
ghost use Rattle.std.specs.Option.{option_copied, option_map};
ghost use Rattle.oai_front.specs.Fronts.{HasOutput, IsChange, IsEnding, IsForgetting, IsOpening, IsOutput, IsPiece, IsSettling, IsTaking, are_numbered, connection_numbered, nothing_open};
ghost use Rattle.oai_front.specs.Places.{IsPlaced};
ghost use Rattle.oai_front.specs.Stages.{is_closing};

use crate::connections::Connection;
use crate::faults::{NoSuchConnection, OpenFault, PieceFault};
use crate::numbers::{ConnId, LAST_NUMBER};
use oai_http::{Handler, SettleFault, Settled};
use std::alloc::Global;
use std::marker::Model;

/// Connections, and the handler that performs their messages, one after the other. Bytes arrive in pieces, on any
/// connection, and answers wait there to be written.
#[derive(Drop)]
pub struct Front<H> {
    handler: H,
    alloc: Global,
    limit: usize,
    last: u64,
    connections: Vec<Connection>,
}

impl<H> Model for Front<H> {
    ghost use Rattle.oai_front.specs.Fronts.{State};

    ghost Value = { State H };

    ghost use Rattle.oai_front.specs.FrontInside.{HasConnectionTable, state_in};

    ghost view = { state_in };

    ghost invariant = { HasConnectionTable };
}

impl<H> Front<H> {
    /// A front with no open connection. At most `limit` may be open at once. Allocates nothing.
    pub fn new(alloc: Global, handler: H, limit: usize) -> Front<H>
        ensures { result ≡ nothing_open handler limit }
    {
        Front {
            handler,
            alloc,
            limit,
            last: 0,
            connections: Vec::new(alloc),
        }
    }

    /// Opens a connection. The errors are those of `OpenFault`; nothing changes then.
    pub fn open(&mut self) -> Result<ConnId, OpenFault>
        ensures { IsOpening self.old result self.new }
    {
        if self.connections.len() >= self.limit {
            return Err(OpenFault::Full);
        }
        match self.connections.try_reserve(1) {
            Ok(()) => {}
            Err(_) => return Err(OpenFault::NoMemory),
        }
        let number = self.last + 1;
        if number == LAST_NUMBER {
            return Err(OpenFault::NumbersSpent);
        }
        push(Connection::new(self.alloc, number), &mut self.connections);
        self.last = number;
        Ok(ConnId { number })
    }

    /// Notes that no more bytes come on the connection. An incomplete message is dropped; messages that wait to be
    /// performed, and a fault that waits to be answered, stay for the next piece, even an empty one. The error is that
    /// the connection is not open; nothing changes then. Allocates nothing.
    pub fn end(&mut self, conn: ConnId) -> Result<(), NoSuchConnection>
        ensures { IsEnding conn.number self.old result self.new }
    {
        match place_of(self.connections.as_slice(), conn.number) {
            Some(at) => {
                let connection = &mut self.connections[at];
                connection.end(self.alloc);
                Ok(())
            }
            None => Err(NoSuchConnection),
        }
    }

    /// Drops the connection, with all that waits on it. The error is that it is not open; nothing changes then.
    /// Allocates nothing.
    pub fn forget(&mut self, conn: ConnId) -> Result<(), NoSuchConnection>
        ensures { IsForgetting conn.number self.old result self.new }
    {
        match place_of(self.connections.as_slice(), conn.number) {
            Some(at) => {
                drop_at(&mut self.connections, at);
                Ok(())
            }
            None => Err(NoSuchConnection),
        }
    }

    /// What to write next on the connection: the start of the bytes that were not taken, empty only if there are none;
    /// None if the connection is not open. Allocates nothing.
    pub fn output(&self, conn: ConnId) -> Option<&[u8]>
        ensures { IsOutput conn.number self.now.connections (option_copied result) }
    {
        match place_of(self.connections.as_slice(), conn.number) {
            Some(at) => {
                let connection = &self.connections[at];
                Some(connection.output())
            }
            None => None,
        }
    }

    /// Notes that the first `count` bytes of the output of the connection were written. The connection must be open,
    /// with at least as many bytes to write. Allocates nothing.
    pub fn taken(&mut self, conn: ConnId, count: usize)
        requires { HasOutput conn.number count self.old.connections }
        ensures change { IsChange conn.number self.old self.new (IsTaking count) }
        ensures handler { self.new.handler ≡ self.old.handler }
    {
        match place_of(self.connections.as_slice(), conn.number) {
            Some(at) => {
                let connection = &mut self.connections[at];
                connection.take(count);
            }
            None => unreachable!(),
        }
    }

    /// Whether the connection reads no more input: its end came, or the last message, or a fault, was answered. None if
    /// the connection is not open. Allocates nothing.
    pub fn closing(&self, conn: ConnId) -> Option<bool>
        ensures { result ≡ option_map (λ c. is_closing c.stage)
            (connection_numbered conn.number self.now.connections) }
    {
        match place_of(self.connections.as_slice(), conn.number) {
            Some(at) => {
                let connection = &self.connections[at];
                Some(connection.is_closing())
            }
            None => None,
        }
    }
}

impl<H: Handler> Front<H> {
    /// Takes a piece of the input of the connection, and performs the messages that it completes, in order, at the
    /// moment, in seconds from 1970 on; their answers, and then the answer to a connection fault, are appended to the
    /// output. No other connection changes. The errors are those of `PieceFault`. On a connection that is closing the
    /// piece is dropped.
    ///
    /// The cost is that of the piece: each byte of a body is copied once, and of an answer only the head is written. An
    /// incomplete head is parsed again with each piece, at most 16,384 bytes of it.
    pub fn piece(&mut self, conn: ConnId, moment: i64, piece: &[u8]) -> Result<(), PieceFault>
        ensures { IsPiece H.step conn.number moment piece.now self.old result self.new }
    {
        match place_of(self.connections.as_slice(), conn.number) {
            Some(at) => {
                let connection = &mut self.connections[at];
                connection.piece(self.alloc, &mut self.handler, moment, piece)
            }
            None => Err(PieceFault::NoSuchConnection),
        }
    }
}

impl<H: Settled> Front<H> {
    /// Makes all that was performed durable; no connection changes. The error is the handler's, and the answers since
    /// the last settling that was Ok may then not be sent.
    pub fn settle(&mut self) -> Result<(), SettleFault>
        ensures { IsSettling H.settled self.old result self.new }
    {
        self.handler.settle()
    }
}

/// The position of the connection with that number, among connections whose numbers rise.
fn place_of(connections: &[Connection], number: u64) -> Option<usize>
    requires { are_numbered connections.now ≡ true }
    ensures { IsPlaced number connections.now result }
{
    match connections.binary_search_by_key(&number, |connection| connection.number()) {
        Ok(at) => Some(at),
        Err(_) => None,
    }
}

/// Drops the connection at that position.
fn drop_at(connections: &mut Vec<Connection>, at: usize)
    requires { at < vec_len connections.old }
    ensures { connections.new.items ≡ remove connections.old.items at }
{
    connections.remove(at);
}

/// Appends a connection; the capacity is reserved.
fn push(connection: Connection, connections: &mut Vec<Connection>)
    requires { vec_len connections.old < vec_capacity connections.old }
    ensures { connections.new.items ≡ connections.old.items ++ connection ∷ [] }
{
    connections.push(connection).unwrap();
}
