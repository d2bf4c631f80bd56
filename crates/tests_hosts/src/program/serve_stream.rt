//! Connections over streams: of the tests, and of the system.
ghost use Rattle.std.specs.Prelude.{◌≤◌};

use crate::assertions::{assert_begins, assert_same, assert_same_at, assert_shown};
use crate::program::asking::new_host;
use crate::program::trace_lines::{
    answer_with, but_the_last, later_set_answer, not_found, set_again_answer, set_answer,
    set_message,
};
use oai_cli::{StreamFault, serve_stream};
use oai_front::{ConnId, Front};
use oai_http::Handler;
use std::alloc::Global;
use std::cell::Cell;
use std::io::{self, ErrorKind, Read, Write};
use std::net::{Ipv4Addr, Shutdown, SocketAddr, SocketAddrV4, TcpListener, TcpStream};
use std::panic::Expect;
use std::process::Abort;
use std::rt::Clock;
use std::time::Duration;
use tests_fixtures::identify_document;

/// The moment 1704067200.
struct StandingClock;

impl Clock for StandingClock {
    fn monotonic(&self) -> io::Result<Duration> {
        Ok(Duration::ZERO)
    }

    fn since_1970(&self) -> io::Result<Duration> {
        Ok(Duration::from_secs(1_704_067_200))
    }
}

/// A clock that cannot be read.
struct StoppedClock;

impl Clock for StoppedClock {
    fn monotonic(&self) -> io::Result<Duration> {
        Err(io::Error::from(ErrorKind::Unsupported))
    }

    fn since_1970(&self) -> io::Result<Duration> {
        Err(io::Error::from(ErrorKind::Unsupported))
    }
}

/// A clock that others move; it counts seconds from 1970 on.
#[derive(Drop)]
struct MovedClock(Cell<u64>);

impl Clock for MovedClock {
    fn monotonic(&self) -> io::Result<Duration> {
        Ok(Duration::ZERO)
    }

    fn since_1970(&self) -> io::Result<Duration> {
        Ok(Duration::from_secs(self.0.get()))
    }
}

/// Gives its text in reads of at most so many bytes and keeps what is written, until so many reads, so many writes or
/// so many of both were made; the next one fails. It keeps how much room the last read had.
#[derive(Drop)]
struct Wire<'a> {
    text: &'a [u8],
    piece: usize,
    room: usize,
    reads: usize,
    writes: usize,
    calls: usize,
    written: Vec<u8>,
}

impl Read for Wire<'_> {
    fn read(&mut self, buffer: &mut [u8]) -> io::Result<usize> {
        if self.reads == 0 || self.calls == 0 {
            return Err(io::Error::from(ErrorKind::ConnectionReset));
        }
        self.reads -= 1;
        self.calls -= 1;
        self.room = buffer.len();
        let most = self.piece.min(self.text.len());
        let mut piece = &self.text[..most];
        let count = piece.read(buffer)?;
        self.text = self.text.get(count..).unwrap_or(&[]);
        Ok(count)
    }
}

impl Write for Wire<'_> {
    fn write(&mut self, bytes: &[u8]) -> io::Result<usize> {
        let fails = self.writes == 0 || self.calls == 0;
        if fails || self.written.extend_from_slice(bytes).is_err() {
            return Err(io::Error::from(ErrorKind::ConnectionReset));
        }
        self.writes -= 1;
        self.calls -= 1;
        Ok(bytes.len())
    }

    fn flush(&mut self) -> io::Result<()> {
        Ok(())
    }
}

/// A wire on which nothing fails.
fn wire_of(alloc: Global, text: &[u8], piece: usize) -> Wire<'_> {
    Wire {
        text,
        piece,
        room: 0,
        reads: 1_000,
        writes: 1_000,
        calls: 2_000,
        written: Vec::new(alloc),
    }
}

/// A wire each read of which takes ten seconds.
#[derive(Drop)]
struct SlowWire<'a> {
    wire: Wire<'a>,
    clock: &'a MovedClock,
}

impl Read for SlowWire<'_> {
    fn read(&mut self, buffer: &mut [u8]) -> io::Result<usize> {
        let seconds = self.clock.0.get();
        self.clock.0.set(seconds.saturating_add(10));
        self.wire.read(buffer)
    }
}

impl Write for SlowWire<'_> {
    fn write(&mut self, bytes: &[u8]) -> io::Result<usize> {
        self.wire.write(bytes)
    }

    fn flush(&mut self) -> io::Result<()> {
        self.wire.flush()
    }
}

// ---- streams, each on a new front

/// What comes of the stream on a new front, on which one connection may be open. A set that is added on the next
/// connection is answered so.
fn served<S: Read + Write, C: Clock>(
    rt: &impl Abort,
    alloc: Global,
    stream: &mut S,
    clock: &C,
    next: &str,
) -> Result<(), StreamFault> {
    let host = new_host(rt, alloc);
    served_by(rt, alloc, host, stream, clock, next)
}

/// The same on a front of that handler.
fn served_by<H: Handler + Drop, S: Read + Write, C: Clock>(
    rt: &impl Abort,
    alloc: Global,
    handler: H,
    stream: &mut S,
    clock: &C,
    next: &str,
) -> Result<(), StreamFault> {
    let mut front = Front::new(alloc, handler, 1);
    let served = serve_stream(alloc, &mut front, stream, clock);
    assert_set(rt, alloc, &mut front, next);
    served
}

/// A connection on which a set is added is answered so.
fn assert_set<H: Handler + Drop>(
    rt: &impl Abort,
    alloc: Global,
    front: &mut Front<H>,
    wanted: &str,
) {
    let mut wire = wire_of(alloc, set_message().as_bytes(), 1_000);
    let served = serve_stream(alloc, front, &mut wire, &StandingClock);
    assert_same(rt, served, Ok(()));
    assert_same(rt, wire.written.as_slice(), wanted.as_bytes());
}

/// That comes of the wire at the place in a test, and that is all that is written; the next connection is answered so.
fn assert_served(
    rt: &impl Abort,
    alloc: Global,
    wire: &mut Wire<'_>,
    wanted: (Result<(), StreamFault>, &str),
    next: &str,
    place: usize,
) {
    let served = served(rt, alloc, wire, &StandingClock, next);
    assert_same_at(rt, served, wanted.0, place);
    assert_same_at(rt, wire.written.as_slice(), wanted.1.as_bytes(), place);
}

/// The texts, one behind the other.
fn joined(rt: &impl Abort, alloc: Global, texts: &[&str]) -> String {
    let mut all = String::new(alloc);
    for text in texts {
        all.push_str(text).expect(rt, "memory");
    }
    all
}

/// Two messages, the second of which is the last, and one that is not read any more.
fn three_messages(rt: &impl Abort, alloc: Global) -> String {
    let last = "GET / HTTP/1.1\r\nHost: h\r\nConnection: close\r\n\r\n";
    joined(rt, alloc, &[set_message(), last, set_message()])
}

/// The answers to the two.
fn two_answers(rt: &impl Abort, alloc: Global) -> String {
    let last = "HTTP/1.1 404 Not Found\r\nConnection: close\r\nContent-Length: 0\r\n\r\n";
    joined(rt, alloc, &[set_answer(), last])
}

/// So many bytes were read in pieces of so many, each with room for 65,536 bytes.
fn assert_reads(rt: &impl Abort, wire: &Wire<'_>, bytes: usize, piece: usize)
    requires { 1 ≤ piece }
{
    let reads = 1_000_usize.saturating_sub(wire.reads);
    assert_same_at(rt, reads, bytes.div_ceil(piece), piece);
    assert_same_at(rt, wire.room, 65_536, piece);
}

/// The three messages come in pieces of so many bytes, and are answered so; they are not read any more once the
/// connection closes.
fn assert_pieces(rt: &impl Abort, alloc: Global, text: &str, wanted: &str, piece: usize)
    requires { 1 ≤ piece }
{
    let mut wire = wire_of(alloc, text.as_bytes(), piece);
    let wanted = (Ok(()), wanted);
    assert_served(rt, alloc, &mut wire, wanted, set_again_answer(), piece);
    let bytes = text.len().saturating_sub(set_message().len());
    assert_reads(rt, &wire, bytes, piece);
}

/// However the bytes are cut, the answers are the same.
#[test]
fn streams_in_pieces(rt: HostRuntime) {
    let text = three_messages(&rt, rt.alloc());
    let wanted = two_answers(&rt, rt.alloc());
    for piece in 1..=text.len() {
        assert_pieces(&rt, rt.alloc(), text.as_str(), wanted.as_str(), piece);
    }
}

/// A stream ends in the middle of a message: nothing is performed of it.
#[test]
fn stream_ends_in_a_body(rt: HostRuntime) {
    let message = set_message().as_bytes();
    let mut wire = wire_of(rt.alloc(), but_the_last(message), 1_000);
    assert_served(&rt, rt.alloc(), &mut wire, (Ok(()), ""), set_answer(), 0);
}

/// A message comes a byte a read, and the read behind so many fails; that is written for it, and for the next one.
fn assert_read_fails(rt: &impl Abort, alloc: Global, reads: usize, wanted: &str, next: &str) {
    let mut wire = wire_of(alloc, set_message().as_bytes(), 1);
    wire.reads = reads;
    let wanted = (Err(StreamFault::ReadFault), wanted);
    assert_served(rt, alloc, &mut wire, wanted, next, reads);
}

/// Each read fails in turn, and what was performed stays.
#[test]
fn reads_of_a_stream_fail(rt: HostRuntime) {
    let all = set_message().len();
    for reads in 0..all {
        assert_read_fails(&rt, rt.alloc(), reads, "", set_answer());
    }
    assert_read_fails(&rt, rt.alloc(), all, set_answer(), set_again_answer());
}

/// The messages come, and the write behind so many fails; what is written is a front of that, and what was performed
/// stays.
fn assert_write_fails(rt: &impl Abort, alloc: Global, text: &str, wanted: &str, writes: usize) {
    let mut wire = wire_of(alloc, text.as_bytes(), set_message().len());
    wire.writes = writes;
    let served = served(rt, alloc, &mut wire, &StandingClock, set_again_answer());
    assert_same_at(rt, served, Err(StreamFault::WriteFault), writes);
    assert_begins(rt, wanted.as_bytes(), wire.written.as_slice(), writes);
}

/// Each write fails in turn.
#[test]
fn writes_of_a_stream_fail(rt: HostRuntime) {
    let text = three_messages(&rt, rt.alloc());
    let wanted = two_answers(&rt, rt.alloc());
    for writes in 0..2 {
        assert_write_fails(&rt, rt.alloc(), text.as_str(), wanted.as_str(), writes);
    }
}

/// The messages come in pieces of 30 bytes, the third of which has the end of the first message, and the call behind so
/// many fails. What is written is a front of that, and what was performed stays; whether a call failed.
fn fails_behind(rt: &impl Abort, alloc: Global, text: &str, wanted: &str, calls: usize) -> bool {
    let mut wire = wire_of(alloc, text.as_bytes(), 30);
    wire.calls = calls;
    let performed = calls >= 3;
    let next = if performed {
        set_again_answer()
    } else {
        set_answer()
    };
    let served = served(rt, alloc, &mut wire, &StandingClock, next);
    let read = text.len().saturating_sub(wire.text.len());
    assert_same_at(rt, read >= set_message().len(), performed, calls);
    assert_begins(rt, wanted.as_bytes(), wire.written.as_slice(), calls);
    served.is_err()
}

/// Each call of a stream fails in turn, a read or a write, up to the first time that none does.
#[test]
fn calls_of_a_stream_fail(rt: HostRuntime) {
    let text = three_messages(&rt, rt.alloc());
    let wanted = two_answers(&rt, rt.alloc());
    for calls in 0..100usize {
        if !fails_behind(&rt, rt.alloc(), text.as_str(), wanted.as_str(), calls) {
            assert!(rt; calls > 0);
            return;
        }
    }
    panic!(rt; "a call fails each time")
}

/// A message comes whose moment cannot be read, and nothing is written.
#[test]
fn clock_of_a_stream_fails(rt: HostRuntime) {
    let mut wire = wire_of(rt.alloc(), set_message().as_bytes(), 1_000);
    let served = served(&rt, rt.alloc(), &mut wire, &StoppedClock, set_answer());
    assert_same(&rt, served, Err(StreamFault::ClockFault));
    assert_same(&rt, wire.written.len(), 0);
}

/// A message is performed at the moment of the clock behind the read that completes it: the second read ends twenty
/// seconds behind the first moment.
#[test]
fn moments_of_a_stream(rt: HostRuntime) {
    let clock = MovedClock(Cell::new(1_704_067_210));
    let mut stream = SlowWire {
        wire: wire_of(rt.alloc(), set_message().as_bytes(), 60),
        clock: &clock,
    };
    let served = served(&rt, rt.alloc(), &mut stream, &clock, set_again_answer());
    assert_same(&rt, served, Ok(()));
    let written = stream.wire.written.as_slice();
    assert_same(&rt, written, later_set_answer().as_bytes());
}

/// No connection is opened for a stream.
fn assert_not_opened<H: Handler + Drop>(rt: &impl Abort, alloc: Global, front: &mut Front<H>) {
    let mut wire = wire_of(alloc, set_message().as_bytes(), 1_000);
    let served = serve_stream(alloc, front, &mut wire, &StandingClock);
    assert!(rt; matches!(served, Err(StreamFault::NotOpened(_))));
}

/// A connection is opened; none is opened beside it, and it stays.
fn assert_one_opened<H: Handler + Drop>(rt: &impl Abort, alloc: Global, handler: H) {
    let mut front = Front::new(alloc, handler, 1);
    let conn = front.open().expect(rt, "open");
    assert_not_opened(rt, alloc, &mut front);
    assert_same(rt, front.closing(conn), Some(false));
    assert_same(rt, front.closing(ConnId { number: 2 }), None);
}

/// Where as many connections are open as may be, none is opened.
#[test]
fn no_room_for_a_stream(rt: HostRuntime) {
    let host = new_host(&rt, rt.alloc());
    assert_one_opened(&rt, rt.alloc(), host);
}

/// The text so many times.
fn times(rt: &impl Abort, alloc: Global, text: &str, count: usize) -> String {
    let mut all = String::new(alloc);
    for _ in 0..count {
        all.push_str(text).expect(rt, "memory");
    }
    all
}

/// A deposit of a record whose title is so many of the letter, a request of it, and one of what is not there.
fn long_record(rt: &impl Abort, alloc: Global, letter: &str, letters: usize) -> String {
    let title = times(rt, alloc, letter, letters);
    let line = format!(in alloc;
        "{{\"deposit\":\"oai:a:1\",\"sets\":[],\"records\":{{\"oai_dc\":[[\"title\",\"{title}\"]]}}}}"
    ).expect(rt, "memory");
    format!(in alloc;
        "POST /deposit/a HTTP/1.1\r\nHost: h\r\nContent-Length: {}\r\n\r\n{}GET /oai/a?verb=GetRecord&identifier=oai:a:1&metadataPrefix=oai_dc HTTP/1.1\r\nHost: h\r\n\r\nGET / HTTP/1.1\r\nHost: h\r\n\r\n",
        line.len(),
        line
    )
    .expect(rt, "memory")
}

/// The document of that record up to its title.
fn front_of_the_record() -> &'static str {
    r#"DOC <responseDate>2024-01-01T00:00:00Z</responseDate><request verb="GetRecord" identifier="oai:a:1" metadataPrefix="oai_dc">http://host.example/oai/a</request><GetRecord><record><header><identifier>oai:a:1</identifier><datestamp>2024-01-01T00:00:00Z</datestamp></header><metadata>{dc}<dc:title>"#
}

/// The answers to the three, where the letter is shown so.
fn long_answers(rt: &impl Abort, alloc: Global, shown: &str, letters: usize) -> String {
    let title = times(rt, alloc, shown, letters);
    let end = "</dc:title></oai_dc:dc></metadata></record></GetRecord></OAI-PMH>";
    let document = joined(rt, alloc, &[front_of_the_record(), title.as_str(), end]);
    let answer = answer_with(rt, alloc, document.as_str());
    joined(rt, alloc, &[set_answer(), answer.as_str(), not_found()])
}

/// What comes on a stream is answered so, and that is all that is written.
fn assert_answered(rt: &impl Abort, alloc: Global, text: &str, wanted: &str, place: usize) {
    let mut wire = wire_of(alloc, text.as_bytes(), 65_536);
    assert_served(rt, alloc, &mut wire, (Ok(()), wanted), set_answer(), place);
}

/// A record of a short document, one whose document is not gathered, and one whose document has 79,725 bytes of
/// title: each byte is written, and each head before its body.
#[test]
fn long_outputs(rt: HostRuntime) {
    let alloc = rt.alloc();
    for (letter, shown, letters) in [("t", "t", 1), ("t", "t", 4_096), ("&", "&amp;", 15_945)] {
        let text = long_record(&rt, alloc, letter, letters);
        let wanted = long_answers(&rt, alloc, shown, letters);
        assert_answered(&rt, alloc, text.as_str(), wanted.as_str(), letters);
    }
}

/// A hundred short answers, which are more bytes than are gathered.
#[test]
fn many_short_outputs(rt: HostRuntime) {
    let alloc = rt.alloc();
    let text = times(&rt, alloc, "GET / HTTP/1.1\r\nHost: h\r\n\r\n", 100);
    let wanted = times(&rt, alloc, not_found(), 100);
    assert_answered(&rt, alloc, text.as_str(), wanted.as_str(), 100);
}

/// What comes of the text where so many writes are made and the next one fails.
fn served_with_writes(
    rt: &impl Abort,
    alloc: Global,
    text: &str,
    writes: usize,
) -> Result<(), StreamFault> {
    let mut wire = wire_of(alloc, text.as_bytes(), 65_536);
    wire.writes = writes;
    served(rt, alloc, &mut wire, &StandingClock, set_answer())
}

/// What is short is written together: an answer, the head of the next, then its long body, and the last.
#[test]
fn short_outputs_are_gathered(rt: HostRuntime) {
    let text = long_record(&rt, rt.alloc(), "t", 4_096);
    for (writes, wanted) in [(2, Err(StreamFault::WriteFault)), (3, Ok(()))] {
        let served = served_with_writes(&rt, rt.alloc(), text.as_str(), writes);
        assert_same_at(&rt, served, wanted, writes);
    }
}

/// Gives the head of a message of 1,048,576 bytes, and then one byte a read, for ever.
#[derive(Drop)]
struct EndlessWire<'a> {
    head: &'a [u8],
    reads: u64,
}

impl Read for EndlessWire<'_> {
    fn read(&mut self, buffer: &mut [u8]) -> io::Result<usize> {
        self.reads = self.reads.saturating_add(1);
        if self.head.is_empty() {
            let mut byte: &[u8] = b"x";
            return byte.read(buffer);
        }
        self.head.read(buffer)
    }
}

impl Write for EndlessWire<'_> {
    fn write(&mut self, bytes: &[u8]) -> io::Result<usize> {
        Ok(bytes.len())
    }

    fn flush(&mut self) -> io::Result<()> {
        Ok(())
    }
}

/// A stream that gives a byte a read for ever is given up at the read of number 1,000,000.
#[test]
fn endless_streams(rt: HostRuntime) {
    let mut stream = EndlessWire {
        head: b"POST /deposit/a HTTP/1.1\r\nHost: h\r\nContent-Length: 1048576\r\n\r\n",
        reads: 0,
    };
    let served = served(&rt, rt.alloc(), &mut stream, &StandingClock, set_answer());
    assert_same(&rt, served, Err(StreamFault::Endless));
    assert_same(&rt, stream.reads, 1_000_000);
}

/// What is reported of each fault of a stream.
#[test]
fn faults_of_streams(rt: HostRuntime) {
    for (fault, text) in [
        (StreamFault::NoMemory, "out of memory"),
        (StreamFault::ReadFault, "the stream could not be read"),
        (StreamFault::WriteFault, "the stream could not be written"),
        (StreamFault::ClockFault, "the clock could not be read"),
        (StreamFault::Endless, "the stream has not ended"),
    ] {
        assert_shown(&rt, rt.alloc(), fault, text);
    }
}

// ---- sockets

/// Asks for a set and for Identify, and ends its writing side.
fn ask(rt: &impl Abort, client: &mut TcpStream) {
    client
        .write_all(set_message().as_bytes())
        .expect(rt, "write_all");
    client
        .write_all(b"GET /oai/a?verb=Identify HTTP/1.1\r\nHost: h\r\n\r\n")
        .expect(rt, "write_all");
    client.shutdown(Shutdown::Write).expect(rt, "shutdown");
}

/// Serves the next connection to its end.
fn serve_next(rt: &impl Abort, alloc: Global, listener: &TcpListener) {
    let (mut stream, _) = listener.accept().expect(rt, "accept");
    let served = served(rt, alloc, &mut stream, &StandingClock, set_again_answer());
    assert_same(rt, served, Ok(()));
}

/// What the client is answered by a new host that listens.
fn answers_to(
    rt: &impl Abort,
    alloc: Global,
    client: &mut TcpStream,
    listener: &TcpListener,
) -> Vec<u8> {
    ask(rt, client);
    serve_next(rt, alloc, listener);
    let mut answers = Vec::new(alloc);
    client.read_to_end(&mut answers).expect(rt, "read_to_end");
    answers
}

/// A listener, and a client of it, over the system's sockets.
fn connected(rt: &HostRuntime) -> io::Result<(TcpListener, TcpStream)> {
    let local = SocketAddr::V4(SocketAddrV4::new(Ipv4Addr::LOCALHOST, 0));
    let listener = TcpListener::bind(rt, local)?;
    let client = TcpStream::connect(rt, listener.local_addr()?)?;
    Ok((listener, client))
}

/// The answers to what is asked.
fn wanted_answers(rt: &impl Abort, alloc: Global) -> String {
    let document = answer_with(rt, alloc, identify_document());
    joined(rt, alloc, &[set_answer(), document.as_str()])
}

/// A client asks, ends its writing side, and reads the answers.
#[test]
fn sockets(rt: HostRuntime) {
    let (listener, mut client) = connected(&rt).expect(&rt, "connected");
    let answers = answers_to(&rt, rt.alloc(), &mut client, &listener);
    let wanted = wanted_answers(&rt, rt.alloc());
    assert_same(&rt, answers.as_slice(), wanted.as_bytes());
}
