//! A connection over a stream.
ghost use Rattle.std.specs.Prelude.{◌≡◌, ◌≤◌, [], true, false, drop, length};
ghost use Rattle.oai_serving.specs.Links.{IsLinkStep, IsPassedOn, IsSent, IsStill, is_able, opened};

use crate::phases::Phase;
use crate::sockets::Stream;
use oai_front::{Connection, PieceFault};
use oai_http::Handler;
use std::alloc::Global;
use std::io::{self, ErrorKind};
use std::marker::Model;

/// The maximum number of bytes of one read.
pub const READ_BYTES: usize = 65_536;

/// The maximum number of writes of one step.
const MAX_WRITES: usize = 64;

/// The maximum number of bytes that are gathered for one write.
const GATHERED_BYTES: usize = 16_384;

/// The idle timeout: seconds without a byte in either direction after which a connection is closed.
const IDLE_SECONDS: u64 = 60;

/// The message timeout: seconds after its first byte within which a message has to be complete.
const MESSAGE_SECONDS: u64 = 300;

/// The seconds for which a connection that is shut down for writing is still read (lingering close).
const CLOSING_SECONDS: u64 = 2;

/// The bytes that are read, and dropped, of a connection that is shut down for writing.
const CLOSING_BYTES: usize = 1_048_576;

/// A connection over a stream: the bytes that were taken of its output to be written together; whether a complete
/// message waits in it to be performed; and the second of the last byte in either direction, and of the start of the
/// incomplete message, on a monotonic clock.
#[derive(Drop)]
pub struct Link<S> {
    stream: S,
    connection: Connection,
    gathered: Vec<u8>,
    pending: bool,
    phase: Phase,
    readable: bool,
    writable: bool,
    ended: bool,
    heard: u64,
    begun: Option<u64>,
}

impl<S> Model for Link<S> {
    ghost use Rattle.oai_serving.specs.Links.{Link as View};

    ghost Value = { View S };

    ghost use Rattle.oai_serving.specs.Inside.{link_in};

    ghost view = { link_in };
}

impl<S: Stream> Link<S> {
    /// A connection with that number that was opened over the stream in that second.
    pub(crate) fn new(alloc: Global, number: u64, stream: S, second: u64) -> Link<S>
        ensures { result ≡ opened number stream }
    {
        Link {
            stream,
            connection: Connection::new(alloc, number),
            gathered: Vec::new(alloc),
            pending: false,
            phase: Phase::Open,
            readable: true,
            writable: true,
            ended: false,
            heard: second,
            begun: None,
        }
    }

    /// Whether output waits to be written.
    fn waits(&self) -> bool
        ensures { result ≡ false → self.now.connection.output ≡ [] }
    {
        if !self.gathered.is_empty() {
            return true;
        }
        !self.connection.output().is_empty()
    }

    /// Whether a complete message waits that may be performed: no output waits.
    fn has_message(&self) -> bool {
        self.pending && self.phase.is_open() && !self.waits()
    }

    /// Whether the stream may have input, and all complete messages were performed.
    fn may_read(&self) -> bool {
        self.readable && !self.pending
    }

    /// A read step: performs a message that waits, or else reads at most once, and performs the first message that came
    /// (backpressure: while output waits, nothing is read and nothing performed). Returns how many bytes it then holds,
    /// 0 if output waited.
    pub(crate) fn read<H: Handler>(
        &mut self,
        alloc: Global,
        handler: &mut H,
        moment: i64,
        second: u64,
        buffer: &mut [u8],
    ) -> usize
        ensures { IsLinkStep H.step S.contents S.remaining moment self.old handler.old self.new handler.new }
    {
        if self.waits() {
            return 0;
        }
        self.take_turn(alloc, handler, moment, second, buffer);
        self.size()
    }

    /// Performs a message that waits, or else reads at most once. No output may wait.
    fn take_turn<H: Handler>(
        &mut self,
        alloc: Global,
        handler: &mut H,
        moment: i64,
        second: u64,
        buffer: &mut [u8],
    )
        requires idle { self.old.connection.output ≡ [] }
        ensures { IsLinkStep H.step S.contents S.remaining moment self.old handler.old self.new handler.new }
    {
        if self.pending {
            self.pass_on(alloc, handler, moment, &[]);
            return;
        }
        if self.readable {
            self.take_input(alloc, handler, moment, second, buffer);
        }
    }

    /// Reads once, and passes on what came. No output may wait.
    fn take_input<H: Handler>(
        &mut self,
        alloc: Global,
        handler: &mut H,
        moment: i64,
        second: u64,
        buffer: &mut [u8],
    )
        requires idle { self.old.connection.output ≡ [] }
        ensures { IsLinkStep H.step S.contents S.remaining moment self.old handler.old self.new handler.new }
    {
        match self.stream.read(buffer) {
            Ok(0) => self.phase = self.phase.at_end(),
            Ok(count) => {
                self.heard = second;
                self.readable = count == buffer.len() || self.ended;
                self.pass_on(alloc, handler, moment, &buffer[..count]);
            }
            Err(error) => self.unread(error),
        }
    }

    /// Passes the bytes that were read to the connection, if they are to be performed. No output may wait.
    fn pass_on<H: Handler>(&mut self, alloc: Global, handler: &mut H, moment: i64, bytes: &[u8])
        requires idle { self.old.connection.output ≡ [] }
        ensures { IsPassedOn H.step S.contents S.remaining moment bytes.now self.old handler.old self.new handler.new }
    {
        match self.phase {
            Phase::Open => self.hand_in(alloc, handler, moment, bytes),
            Phase::Last => {}
            Phase::Closing { since, dropped } => {
                self.phase = closing(since, dropped.saturating_add(bytes.len()));
            }
            Phase::Over => {}
        }
    }

    /// Passes the bytes to the connection, which performs the first message that they complete; out of memory, nothing
    /// more is performed. No output may wait.
    fn hand_in<H: Handler>(&mut self, alloc: Global, handler: &mut H, moment: i64, bytes: &[u8])
        requires able { self.old.able ≡ true }
        requires idle { self.old.connection.output ≡ [] }
        ensures { IsPassedOn H.step S.contents S.remaining moment bytes.now self.old handler.old self.new handler.new }
    {
        if self.connection.is_closing() {
            self.phase = Phase::Last;
            return;
        }
        match self
            .connection
            .piece_by_message(alloc, handler, moment, bytes)
        {
            Ok(()) => self.pending = false,
            Err(PieceFault::Unfinished) => self.pause(),
            Err(_) => self.phase = Phase::Last,
        }
    }

    /// After a piece of which a complete message is left: it is performed once the output is written; if there is none,
    /// memory ran out, and nothing more is performed.
    fn pause(&mut self)
        ensures { IsStill self.old self.new }
    {
        if self.waits() {
            self.pending = true;
        } else {
            self.phase = Phase::Last;
        }
    }

    /// After a read that failed: waits for readiness, tries again or is over.
    fn unread(&mut self, error: io::Error)
        ensures { IsStill self.old self.new }
    {
        match error.kind() {
            ErrorKind::WouldBlock => self.readable = self.ended,
            ErrorKind::Interrupted => {}
            _ => self.phase = Phase::Over,
        }
    }

    /// Whether output waits, and the stream may be written.
    fn may_write(&self) -> bool {
        self.writable && self.phase != Phase::Over && self.waits()
    }

    /// A write step: writes the waiting output as far as the stream takes it, and moves on to the next phase.
    pub(crate) fn put(&mut self, second: u64)
        ensures { IsSent S.contents S.remaining self.old self.new }
    {
        self.note_begun(second);
        self.write_all(second);
        self.go_on(second);
    }

    /// Writes the waiting output as far as the stream takes it.
    fn write_all(&mut self, second: u64)
        ensures { IsSent S.contents S.remaining self.old self.new }
    {
        for _ in 0..MAX_WRITES {
            if !self.may_write() {
                return;
            }
            self.write(second);
        }
    }

    /// Writes once, short outputs together.
    fn write(&mut self, second: u64)
        ensures { IsSent S.contents S.remaining self.old self.new }
    {
        self.gather();
        self.write_next(second);
    }

    /// Gathers the outputs that are short, as far as memory is available.
    fn gather(&mut self)
        ensures { self.new ≡ self.old }
    {
        for _ in 0..MAX_WRITES {
            if !self.is_short() {
                return;
            }
            self.gather_next();
        }
    }

    /// Whether there is an output that is short enough to be gathered.
    fn is_short(&self) -> bool {
        let count = self.connection.output().len();
        count > 0 && count <= GATHERED_BYTES && self.gathered.len() <= GATHERED_BYTES - count
    }

    /// Gathers the next output, if memory is available.
    fn gather_next(&mut self)
        ensures { self.new ≡ self.old }
    {
        let next = self.connection.output();
        let count = next.len();
        match self.gathered.extend_from_slice(next) {
            Ok(()) => self.connection.take(count),
            Err(_) => {}
        }
    }

    /// Writes what was gathered, or else the next output.
    fn write_next(&mut self, second: u64)
        ensures { IsSent S.contents S.remaining self.old self.new }
    {
        if is_vacant(&self.gathered) {
            match self.stream.write(self.connection.output()) {
                Ok(0) => self.phase = Phase::Over,
                Ok(count) => {
                    self.connection.take(count);
                    self.heard = second;
                }
                Err(error) => self.unwritten(error),
            }
            return;
        }
        match self.stream.write(&self.gathered) {
            Ok(0) => self.phase = Phase::Over,
            Ok(count) => {
                drop_front(&mut self.gathered, count);
                self.heard = second;
            }
            Err(error) => self.unwritten(error),
        }
    }

    /// After a write that failed: waits for readiness, tries again or is over.
    fn unwritten(&mut self, error: io::Error)
        ensures { IsStill self.old self.new }
    {
        match error.kind() {
            ErrorKind::WouldBlock => self.writable = false,
            ErrorKind::Interrupted => {}
            _ => self.phase = Phase::Over,
        }
    }

    /// Notes what became ready.
    pub(crate) fn note(&mut self, readable: bool, writable: bool, ended: bool)
        ensures { self.new ≡ self.old }
    {
        self.ended = self.ended || ended;
        self.readable = self.readable || readable || ended;
        self.writable = self.writable || writable;
    }

    /// Moves on to the next phase, in that second: once no output waits, it is shut down for writing if the connection
    /// is closed, and over if nothing more is performed; and it is over at its timeout.
    fn go_on(&mut self, second: u64)
        ensures { IsSent S.contents S.remaining self.old self.new }
    {
        if self.is_late(second) {
            self.phase = Phase::Over;
            return;
        }
        if self.waits() {
            return;
        }
        match self.phase {
            Phase::Open => self.close_after(second),
            Phase::Last => self.phase = Phase::Over,
            Phase::Closing {
                since: _,
                dropped: _,
            } => {}
            Phase::Over => {}
        }
    }

    /// Shuts the stream down for writing, if the connection is closed.
    fn close_after(&mut self, second: u64)
        ensures { IsSent S.contents S.remaining self.old self.new }
    {
        if !self.connection.is_closing() {
            return;
        }
        self.stream.finish();
        self.phase = closing(second, 0);
    }

    /// Notes when the incomplete message began: now, if output waits.
    fn note_begun(&mut self, second: u64)
        ensures { self.new ≡ self.old }
    {
        if !self.connection.has_rest() {
            self.begun = None;
            return;
        }
        if self.waits() || self.begun.is_none() {
            self.begun = Some(second);
        }
    }

    /// Whether its time is over in that second.
    fn is_late(&self, second: u64) -> bool {
        match self.phase {
            Phase::Open => self.is_idle(second),
            Phase::Last => self.is_idle(second),
            Phase::Closing { since, dropped } => {
                second.saturating_sub(since) >= CLOSING_SECONDS || dropped >= CLOSING_BYTES
            }
            Phase::Over => true,
        }
    }

    /// Whether no byte was sent or received for 60 seconds, or a message is incomplete for 300.
    fn is_idle(&self, second: u64) -> bool {
        if second.saturating_sub(self.heard) >= IDLE_SECONDS {
            return true;
        }
        match self.begun {
            Some(begun) => second.saturating_sub(begun) >= MESSAGE_SECONDS,
            None => false,
        }
    }

    /// The number of its connection.
    pub(crate) fn number(&self) -> u64
        ensures { result ≡ self.now.connection.number }
    {
        self.connection.number()
    }

    /// Its stream.
    pub(crate) fn into_stream(self) -> S
        ensures { result ≡ self.stream }
    {
        self.stream
    }

    /// Whether it has to be removed.
    pub(crate) fn is_over(&self) -> bool {
        self.phase == Phase::Over
    }

    /// Whether it has something to do without waiting.
    pub(crate) fn is_busy(&self) -> bool {
        if self.is_over() {
            return true;
        }
        if self.waits() {
            return self.writable;
        }
        self.has_message() || self.may_read()
    }

    /// The second of the last byte in either direction.
    pub(crate) fn heard(&self) -> u64 {
        self.heard
    }

    /// How many bytes it holds; saturates at `usize::MAX`.
    pub(crate) fn size(&self) -> usize {
        self.connection.size().saturating_add(self.gathered.len())
    }
}

/// Whether there are no bytes.
fn is_vacant(bytes: &Vec<u8>) -> bool
    ensures { result ≡ true → bytes.now.items ≡ [] }
{
    bytes.is_empty()
}

/// Drops the first bytes.
fn drop_front(bytes: &mut Vec<u8>, count: usize)
    requires { count ≤ length bytes.old.items }
    ensures { bytes.new.items ≡ drop count bytes.old.items }
{
    bytes.drain(..count);
}

/// It was shut down for writing in that second, and that many bytes were dropped since.
fn closing(since: u64, dropped: usize) -> Phase
    ensures { is_able result ≡ false }
{
    Phase::Closing { since, dropped }
}
