//! Connections whose pieces stand in lines, where the input or the output fails.
use crate::assertions::{assert_same, assert_same_at};
use crate::program::asking::new_host;
use crate::program::failing_streams::{FailingReader, FailingWriter};
use crate::program::inputs::{CountingWriter, EmptyLines};
use oai_cli::{MAX_CONNECTIONS, trace_lines};
use oai_front::Front;
use oai_http::Handler;
use oai_startup::Stop;
use std::alloc::Global;
use std::io::{Read, Write};
use std::panic::Expect;
use std::process::Abort;
use tests_fixtures::push_wanted;

/// Traces the lines that the reader gives on a new host over pages in memory, as the program does; why that
/// stopped, if it did.
fn traced<R: Read, W: Write>(
    rt: &impl Abort,
    alloc: Global,
    reader: &mut R,
    writer: &mut W,
) -> Result<(), Stop> {
    traced_by(alloc, new_host(rt, alloc), reader, writer)
}

/// The same on that handler.
fn traced_by<H: Handler + Drop, R: Read, W: Write>(
    alloc: Global,
    handler: H,
    reader: &mut R,
    writer: &mut W,
) -> Result<(), Stop> {
    let mut front = Front::new(alloc, handler, MAX_CONNECTIONS);
    trace_lines(alloc, &mut front, reader, writer)
}

/// A message that adds a set.
pub(crate) fn set_message() -> &'static str {
    "POST /deposit/a HTTP/1.1\r\nHost: h\r\nContent-Length: 22\r\n\r\n{\"set\":\"x\",\"name\":\"X\"}"
}

/// The answer to it.
pub(crate) fn set_answer() -> &'static str {
    "HTTP/1.1 200 OK\r\nContent-Type: text/plain; charset=utf-8\r\nContent-Length: 24\r\n\r\nok 2024-01-01T00:00:00Z\n"
}

/// The answer to it half a minute later.
pub(crate) fn later_set_answer() -> &'static str {
    "HTTP/1.1 200 OK\r\nContent-Type: text/plain; charset=utf-8\r\nContent-Length: 24\r\n\r\nok 2024-01-01T00:00:30Z\n"
}

/// The answer to it where the set is there.
pub(crate) fn set_again_answer() -> &'static str {
    "HTTP/1.1 200 OK\r\nContent-Type: text/plain; charset=utf-8\r\nContent-Length: 22\r\n\r\nrefused 17 set-exists\n"
}

/// The answer to a request of what is not there.
pub(crate) fn not_found() -> &'static str {
    "HTTP/1.1 404 Not Found\r\nContent-Length: 0\r\n\r\n"
}

/// The bytes but the last.
pub(crate) fn but_the_last(bytes: &[u8]) -> &[u8] {
    match bytes.split_last() {
        Some((_, front)) => front,
        None => &[],
    }
}

/// The answer whose body is the document.
pub(crate) fn answer_with(rt: &impl Abort, alloc: Global, document: &str) -> String {
    let mut body = String::new(alloc);
    push_wanted(document, &mut body).expect(rt, "push_wanted");
    format!(in alloc;
        "HTTP/1.1 200 OK\r\nContent-Type: text/xml\r\nContent-Length: {}\r\n\r\n{}",
        body.len(),
        body
    )
    .expect(rt, "memory")
}

/// What was sent before a read that fails stays written.
fn assert_input_fails(rt: &impl Abort, alloc: Global, text: &[u8], wanted: &str) {
    let mut reader = FailingReader { text, piece: 1_000 };
    let mut output = Vec::new(alloc);
    let done = traced(rt, alloc, &mut reader, &mut output);
    assert_same_at(rt, done, Err(Stop::InputFault), text.len());
    assert_same_at(rt, output.as_slice(), wanted.as_bytes(), text.len());
}

#[test]
fn input_of_a_trace_fails(rt: HostRuntime) {
    let text = b"1 1 end\n1 2 end\n1 3 e".as_slice();
    for (length, wanted) in [
        (0, ""),
        (7, ""),
        (8, "1 close\n"),
        (15, "1 close\n"),
        (16, "1 close\n2 close\n"),
        (20, "1 close\n2 close\n"),
    ] {
        assert_input_fails(&rt, rt.alloc(), &text[..length], wanted);
    }
}

/// What comes of a trace whose output has so much room: on a connection comes `GET / HTTP/1.0`, and an empty line.
fn traced_with_room(rt: &impl Abort, alloc: Global, room: usize) -> Result<(), Stop> {
    let mut reader = b"1704067200 1 474554202f20485454502f312e300d0a0d0a\n".as_slice();
    let mut writer = FailingWriter { room };
    traced(rt, alloc, &mut reader, &mut writer)
}

/// An output that fails at any byte is a fault.
#[test]
fn output_of_a_trace_fails(rt: HostRuntime) {
    for room in 0..139 {
        let done = traced_with_room(&rt, rt.alloc(), room);
        assert_same_at(&rt, done, Err(Stop::OutputFault), room);
    }
}

/// A flush that fails is a fault of the output, though all was written.
#[test]
fn flush_of_a_trace_fails(rt: HostRuntime) {
    let mut reader = b"1 1 end\n".as_slice();
    let mut writer = CountingWriter {
        taken: Vec::new(rt.alloc()),
        writes: 100,
        flushes: false,
    };
    let done = traced(&rt, rt.alloc(), &mut reader, &mut writer);
    assert_same(&rt, done, Err(Stop::OutputFault));
    assert_same(&rt, writer.taken.as_slice(), b"1 close\n".as_slice());
}

/// That comes of so many empty lines, and nothing is written.
fn assert_reads(rt: &impl Abort, alloc: Global, lines: u64, wanted: Result<(), Stop>) {
    let mut output = Vec::new(alloc);
    let done = traced(rt, alloc, &mut EmptyLines(lines), &mut output);
    assert_same_at(rt, done, wanted, lines);
    assert_same_at(rt, output.len(), 0, lines);
}

/// The end has to come at the read of number 1,000,000 at the latest.
#[test]
fn most_reads_of_a_trace(rt: HostRuntime) {
    assert_reads(&rt, rt.alloc(), 999_999, Ok(()));
    assert_reads(&rt, rt.alloc(), 1_000_000, Err(Stop::InputFault));
}
