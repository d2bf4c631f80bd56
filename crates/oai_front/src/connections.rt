ghost use Rattle.std.specs.Prelude.{◌≡◌, ◌≤◌, ◌++◌, length, drop, nat_lt, OnErr, OnOk};
ghost use Rattle.oai_front.specs.Connections.{IsEnded, IsFrontOf, IsGoneOver, IsTakenIn, bytes_with, fresh};
ghost use Rattle.oai_front.specs.Pipelining.{IsRestLeft, answer_of_left, left_with};
ghost use Rattle.oai_front.specs.Stages.{is_closing};

use crate::faults::PieceFault;
use crate::messages::{Left, Next, next_in, perform_all, perform_first};
use crate::queues::{drop_front, drop_taken, left_of};
use crate::request_heads::Head;
use crate::stages::Stage;
use oai_http::Handler;
use oai_names::Sequence;
use std::alloc::{AllocError, Global};
use std::collections::VecDeque;
use std::marker::Model;

/// A connection: the bytes received, of which those from `start` on belong to no message that was performed, what is
/// known of the head at their start, and the buffers that wait to be written, with `taken` bytes of the first already
/// written.
#[derive(Drop)]
pub struct Connection {
    number: u64,
    bytes: Vec<u8>,
    start: usize,
    head: Option<Head>,
    queue: VecDeque<Sequence<u8>>,
    taken: usize,
    stage: Stage,
}

impl Model for Connection {
    ghost use Rattle.oai_front.specs.Connections.{Connection};

    ghost Value = { Connection };

    ghost use Rattle.oai_front.specs.Inside.{IsConnection, connection_in};

    ghost view = { connection_in };

    ghost invariant = { IsConnection };
}

impl Connection {
    /// A connection that was just opened. Allocates nothing.
    pub fn new(alloc: Global, number: u64) -> Connection
        ensures { result ≡ fresh number }
    {
        Connection {
            number,
            bytes: Vec::new(alloc),
            start: 0,
            head: None,
            queue: VecDeque::new(alloc),
            taken: 0,
            stage: Stage::Reading,
        }
    }

    /// Its number.
    pub fn number(&self) -> u64
        ensures { result ≡ self.now.number }
    {
        self.number
    }

    /// Whether the connection reads no more input.
    pub fn is_closing(&self) -> bool
        ensures { result ≡ is_closing self.now.stage }
    {
        self.stage.is_closing()
    }

    /// Whether bytes were received that belong to no message that was performed.
    pub fn has_rest(&self) -> bool
        ensures { result ≡ nat_lt 0 (length self.now.rest) }
    {
        rest_of(&self.bytes, self.start).len() > 0
    }

    /// How many bytes it holds: those received that belong to no message that was performed, and those in the buffers
    /// that wait to be written, including what is taken of the first; saturates at `usize::MAX`.
    pub fn size(&self) -> usize {
        let mut size = rest_of(&self.bytes, self.start).len();
        for buffer in self.queue.iter() {
            size = size.saturating_add(buffer.as_slice().len());
        }
        size
    }

    /// What to write next: the start of the waiting bytes, empty only if none wait.
    pub fn output(&self) -> &[u8]
        ensures { IsFrontOf result.now self.now.output }
    {
        left_of(&self.queue, self.taken)
    }

    /// Drops the first `count` bytes of what waits to be written; at least as many must wait.
    pub fn take(&mut self, count: usize)
        requires { count ≤ length self.old.output }
        ensures { self.new ≡ record self.old { output = drop count self.old.output } }
    {
        self.taken = drop_taken(&mut self.queue, self.taken, count);
    }

    /// Notes that no more bytes come. An incomplete message is dropped.
    pub(crate) fn end(&mut self, alloc: Global)
        ensures { IsEnded self.old self.new }
    {
        match next_in(rest_of(&self.bytes, self.start), self.head) {
            Next::Unfinished(_) => {
                self.bytes = Vec::new(alloc);
                self.start = 0;
                self.head = None;
                self.stage = self.stage.ended();
            }
            Next::Faulty(_) => self.stage = self.stage.ended(),
            Next::Message(_) => self.stage = self.stage.ended(),
        }
    }

    /// Takes a piece, and performs at the moment all complete messages. The errors are those of `PieceFault`, except
    /// the first.
    pub fn piece<H: Handler>(
        &mut self,
        alloc: Global,
        handler: &mut H,
        moment: i64,
        piece: &[u8],
    ) -> Result<(), PieceFault>
        ensures { IsTakenIn H.step moment piece.now self.old handler.old result self.new handler.new }
    {
        match self.read(piece) {
            Ok(()) => self.perform_messages(alloc, handler, moment),
            Err(_) => Err(PieceFault::NoMemory),
        }
    }

    /// Takes a piece, and performs at the moment the first message, if it is complete. The errors are those of
    /// `PieceFault`, except the first: `Unfinished` also if another complete message waits behind it.
    pub fn piece_by_message<H: Handler>(
        &mut self,
        alloc: Global,
        handler: &mut H,
        moment: i64,
        piece: &[u8],
    ) -> Result<(), PieceFault>
        ensures { IsTakenIn H.step moment piece.now self.old handler.old result self.new handler.new }
    {
        match self.read(piece) {
            Ok(()) => self.perform_next(alloc, handler, moment),
            Err(_) => Err(PieceFault::NoMemory),
        }
    }

    /// Appends a piece to the bytes, if the connection still reads. The error is out of memory; nothing changes then.
    fn read(&mut self, piece: &[u8]) -> Result<(), AllocError>
        ensures ok { OnOk result (self.new ≡ record self.old { rest = bytes_with self.old piece.now }) }
        ensures err { OnErr result (self.new ≡ self.old) }
    {
        match self.stage {
            Stage::Reading => {
                if piece.is_empty() {
                    return Ok(());
                }
                self.drop_performed();
                self.append(piece)
            }
            Stage::Ended => Ok(()),
            Stage::Closed => Ok(()),
        }
    }

    /// Drops the bytes of messages that were performed.
    fn drop_performed(&mut self)
        ensures { self.new ≡ self.old }
    {
        drop_front(&mut self.bytes, self.start);
        self.start = 0;
    }

    /// Appends bytes. The error is out of memory; nothing changes then.
    fn append(&mut self, piece: &[u8]) -> Result<(), AllocError>
        ensures ok { OnOk result (self.new ≡ record self.old { rest = self.old.rest ++ piece.now }) }
        ensures err { OnErr result (self.new ≡ self.old) }
    {
        self.bytes.extend_from_slice(piece)
    }

    /// Performs at the moment all complete messages.
    fn perform_messages<H: Handler>(
        &mut self,
        alloc: Global,
        handler: &mut H,
        moment: i64,
    ) -> Result<(), PieceFault>
        ensures { IsGoneOver H.step moment self.old handler.old result self.new handler.new }
    {
        let bytes = rest_of(&self.bytes, self.start);
        let left = perform_all(alloc, handler, moment, bytes, self.head, &mut self.queue);
        self.leave(alloc, left)
    }

    /// Performs at the moment the first message, if it is complete.
    fn perform_next<H: Handler>(
        &mut self,
        alloc: Global,
        handler: &mut H,
        moment: i64,
    ) -> Result<(), PieceFault>
        ensures { IsGoneOver H.step moment self.old handler.old result self.new handler.new }
    {
        let bytes = rest_of(&self.bytes, self.start);
        let left = perform_first(alloc, handler, moment, bytes, self.head, &mut self.queue);
        self.leave(alloc, left)
    }

    /// Keeps what is left of the bytes after the messages that were performed. The error is that complete ones are.
    fn leave(&mut self, alloc: Global, left: Left) -> Result<(), PieceFault>
        requires { IsRestLeft self.old.rest left }
        ensures left { self.new ≡ left_with self.old left }
        ensures result { result ≡ answer_of_left left }
    {
        match left {
            Left::Waiting(begun, head) => {
                self.start += begun;
                self.head = head;
                Ok(())
            }
            Left::Nothing => {
                self.bytes = Vec::new(alloc);
                self.start = 0;
                self.head = None;
                self.stage = Stage::Closed;
                Ok(())
            }
            Left::Unanswered(begun, head) => {
                self.start += begun;
                self.head = head;
                Err(PieceFault::Unfinished)
            }
        }
    }
}

/// The bytes from `start` on.
fn rest_of(bytes: &Vec<u8>, start: usize) -> &[u8]
    requires { start ≤ length bytes.now.items }
    ensures { result.now ≡ drop start bytes.now.items }
{
    &bytes[start..]
}
