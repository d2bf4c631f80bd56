//! How the input is cut into lines, whatever the pieces in which it comes, and what is written
//! where it, the output or memory fails.
use crate::assertions::{assert_begins, assert_same, assert_same_at, assert_shown};
use crate::program::asking::{performed, stop_of, written};
use crate::program::failing_streams::FailingReader;
use oai_cli::write_answer;
use oai_host::{Answer, ReadFault, Status};
use oai_names::Sequence;
use oai_startup::Stop;
use std::alloc::Global;
use std::io::{self, ErrorKind, Read, Write};
use std::panic::Expect;
use std::process::Abort;
use tests_fixtures::{bad_verb_document, push_wanted};

/// A deposit, an empty line, a line that is no JSON, and a deposit that has no line end.
fn script() -> &'static str {
    r#"1704067200 POST /deposit/a {"deposit":"oai:a:1","sets":[],"records":{"oai_dc":[]}}

1704067205 POST /deposit/a [
1704067210 POST /deposit/a {"deposit":"oai:a:2","sets":[],"records":{"oai_dc":[]}}"#
}

/// What it is answered.
fn script_answer() -> &'static str {
    "200
ok 2024-01-01T00:00:00Z
200
refused 1 bad-json
200
ok 2024-01-01T00:00:10Z
"
}

/// The answers to its first lines, where so many bytes of it have come.
fn answer_to_front(bytes: usize) -> &'static str {
    match bytes {
        0..=82 => "",
        83..=112 => "200\nok 2024-01-01T00:00:00Z\n",
        _ => "200\nok 2024-01-01T00:00:00Z\n200\nrefused 1 bad-json\n",
    }
}

/// Gives at most so many bytes at its first read, and at most so many at each later one.
#[derive(Drop)]
struct PiecesReader<'a> {
    text: &'a [u8],
    first: usize,
    later: usize,
}

impl Read for PiecesReader<'_> {
    fn read(&mut self, buffer: &mut [u8]) -> io::Result<usize> {
        let most = self.first.min(self.text.len());
        let mut piece = &self.text[..most];
        let count = piece.read(buffer)?;
        self.text = self.text.get(count..).unwrap_or(&[]);
        self.first = self.later;
        Ok(count)
    }
}

/// The text, the script or the script after empty lines, is answered as the script is, where it comes
/// in these pieces.
fn assert_in_pieces(rt: &impl Abort, alloc: Global, text: &[u8], first: usize, later: usize) {
    let mut reader = PiecesReader { text, first, later };
    let output = written(rt, alloc, &mut reader);
    assert_same_at(rt, output.as_slice(), script_answer().as_bytes(), first);
}

/// In two that are cut at every place, and in many of each length.
#[test]
fn pieces(rt: HostRuntime) {
    let alloc = rt.alloc();
    let text = script().as_bytes();
    for length in 1..=text.len() {
        assert_in_pieces(&rt, alloc, text, length, text.len());
        assert_in_pieces(&rt, alloc, text, length, length);
    }
}

/// The script after so many empty lines.
fn script_after(rt: &impl Abort, alloc: Global, empty: usize) -> Vec<u8> {
    let mut text = Vec::new(alloc);
    for _ in 0..empty {
        text.push(b'\n').expect(rt, "memory");
    }
    text.extend_from_slice(script().as_bytes())
        .expect(rt, "memory");
    text
}

/// Empty lines move the script over the end of a read of 65,536 bytes, place by place.
#[test]
fn lines_cross_the_buffer(rt: HostRuntime) {
    let alloc = rt.alloc();
    for before in 0..=script().len() {
        let text = script_after(&rt, alloc, 65_536 - before.min(65_536));
        assert_in_pieces(&rt, alloc, text.as_slice(), 65_536, 65_536);
    }
}

/// A line of so many bytes and 22 more, and the script after it.
fn long_line(rt: &impl Abort, alloc: Global, bytes: usize) -> String {
    let mut text = String::from_str(alloc, "1704067200 GET /oai/a?").expect(rt, "memory");
    for _ in 0..bytes {
        text.push('x').expect(rt, "memory");
    }
    text.push('\n').expect(rt, "memory");
    text.push_str(script()).expect(rt, "memory");
    text
}

/// What they are answered.
fn long_line_answer(rt: &impl Abort, alloc: Global) -> String {
    let mut wanted = String::from_str(alloc, "200\n").expect(rt, "memory");
    push_wanted(bad_verb_document(), &mut wanted).expect(rt, "push_wanted");
    wanted.push_str(script_answer()).expect(rt, "memory");
    wanted
}

/// A line that comes in 1,223 reads.
#[test]
fn line_of_many_reads(rt: HostRuntime) {
    let alloc = rt.alloc();
    let text = long_line(&rt, alloc, 1_200);
    let wanted = long_line_answer(&rt, alloc);
    let mut reader = PiecesReader {
        text: text.as_bytes(),
        first: 1,
        later: 1,
    };
    let output = written(&rt, alloc, &mut reader);
    assert_same(&rt, output.as_slice(), wanted.as_bytes());
}

/// The program stops at a bad line of that number where the text comes in pieces of such a length.
fn assert_bad_line(rt: &impl Abort, alloc: Global, text: &[u8], length: usize, number: u64) {
    let mut reader = PiecesReader {
        text,
        first: length,
        later: length,
    };
    let stop = stop_of(rt, alloc, &mut reader);
    assert_same_at(rt, stop, Stop::BadExchange(number), length);
}

/// A bad line has its number, with a line end and without one, whatever the pieces.
#[test]
fn numbers_of_bad_lines(rt: HostRuntime) {
    let alloc = rt.alloc();
    for (text, number) in [
        ("x", 1),
        ("x\n", 1),
        ("\nx", 2),
        ("\n\n1 GET\n", 3),
        ("1 PUT /deposit/a [\n\n1 PUT /deposit/a [\n+1 GET /\n", 4),
        ("1 PUT /deposit/a [\n1 PUT /deposit/a [\n1.0 GET /", 3),
    ] {
        for length in 1..=9 {
            assert_bad_line(&rt, alloc, text.as_bytes(), length, number);
        }
    }
    let mut text = script_after(&rt, alloc, 70_000);
    text.extend_from_slice(b"\nx\n\n").expect(&rt, "memory");
    assert_bad_line(&rt, alloc, text.as_slice(), 65_536, 70_005);
}

/// What is written to standard error.
#[test]
fn what_is_said(rt: HostRuntime) {
    for (stop, text) in [
        (
            Stop::Usage,
            "usage: oaihost check CONFIG | ask CONFIG | trace CONFIG | serve CONFIG PORT SPILL CONNECTIONS",
        ),
        (Stop::CannotRead, "config: cannot read"),
        (
            Stop::BadConfig(ReadFault::DuplicateName),
            "config: 4 DuplicateName",
        ),
        (Stop::BadExchange(1), "line 1: bad exchange"),
        (Stop::BadExchange(10), "line 10: bad exchange"),
        (Stop::InputFault, "input fault"),
        (Stop::OutputFault, "output fault"),
        (Stop::NoMemory, "out of memory"),
    ] {
        assert_shown(&rt, rt.alloc(), stop, text);
    }
}

/// That is written of the answer without a body.
fn assert_short(
    rt: &impl Abort,
    alloc: Global,
    told: (Status, Option<i64>, Option<u64>),
    wanted: &str,
) {
    let (status, seconds, done) = told;
    let answer = Answer {
        status,
        seconds,
        done,
        body: Sequence::new(Vec::new(alloc)),
        fault: None,
    };
    let mut output = Vec::new(alloc);
    write_answer(&answer, &mut output).expect(rt, "write_answer");
    assert_same(rt, output.as_slice(), wanted.as_bytes());
}

/// What is written of answers without a body.
#[test]
fn short_answers(rt: HostRuntime) {
    for (told, text) in [
        (
            (Status::ServiceUnavailable, Some(60), Some(0)),
            "503 60 0\n",
        ),
        ((Status::ServiceUnavailable, Some(60), None), "503 60\n"),
        (
            (Status::ServiceUnavailable, Some(60), Some(12)),
            "503 60 12\n",
        ),
        ((Status::ServiceUnavailable, Some(1), None), "503 1\n"),
        ((Status::InternalServerError, None, None), "500\n"),
        ((Status::InternalServerError, None, Some(3)), "500 3\n"),
        ((Status::NotFound, None, None), "404\n"),
    ] {
        assert_short(&rt, rt.alloc(), told, text);
    }
}

/// The text comes in pieces of so many bytes, and then a read fails. What was answered before stays written, and the
/// line begun is not performed.
pub(crate) fn assert_input_fails(
    rt: &impl Abort,
    alloc: Global,
    text: &[u8],
    piece: usize,
    wanted: &str,
) {
    let mut reader = FailingReader { text, piece };
    let mut output = Vec::new(alloc);
    let done = performed(rt, alloc, &mut reader, &mut output);
    assert_same_at(rt, done, Err(Stop::InputFault), text.len());
    assert_same_at(rt, output.as_slice(), wanted.as_bytes(), text.len());
}

/// A byte comes a read, and each read fails in turn.
#[test]
fn each_read_fails(rt: HostRuntime) {
    let text = script().as_bytes();
    for reads in 0..=text.len() {
        assert_input_fails(&rt, rt.alloc(), &text[..reads], 1, answer_to_front(reads));
    }
}

/// Takes what so many calls write, and fails at the next, or at its flush.
#[derive(Drop)]
pub(crate) struct CountingWriter {
    pub(crate) taken: Vec<u8>,
    pub(crate) writes: usize,
    pub(crate) flushes: bool,
}

impl Write for CountingWriter {
    fn write(&mut self, bytes: &[u8]) -> io::Result<usize> {
        if self.writes == 0 || self.taken.extend_from_slice(bytes).is_err() {
            return Err(io::Error::from(ErrorKind::BrokenPipe));
        }
        self.writes -= 1;
        Ok(bytes.len())
    }

    fn flush(&mut self) -> io::Result<()> {
        if self.flushes {
            Ok(())
        } else {
            Err(io::Error::from(ErrorKind::BrokenPipe))
        }
    }
}

/// What comes of the script where its answers are written so.
fn script_performed(
    rt: &impl Abort,
    alloc: Global,
    writer: &mut CountingWriter,
) -> Result<(), Stop> {
    let mut reader = script().as_bytes();
    performed(rt, alloc, &mut reader, writer)
}

/// What is written before a write that fails is a prefix of the responses; nothing is written after it.
fn assert_write_fails(rt: &impl Abort, alloc: Global, writes: usize) {
    let mut writer = CountingWriter {
        taken: Vec::new(alloc),
        writes,
        flushes: true,
    };
    let done = script_performed(rt, alloc, &mut writer);
    assert_begins(
        rt,
        script_answer().as_bytes(),
        writer.taken.as_slice(),
        writes,
    );
    let is_whole = writer.taken.len() == script_answer().len();
    let wanted = if is_whole {
        Ok(())
    } else {
        Err(Stop::OutputFault)
    };
    assert_same_at(rt, done, wanted, writes);
}

/// Each write fails in turn.
#[test]
fn each_write_fails(rt: HostRuntime) {
    for writes in 0..20 {
        assert_write_fails(&rt, rt.alloc(), writes);
    }
}

/// A flush that fails is a fault of the output, though all was written.
#[test]
fn flush_fails(rt: HostRuntime) {
    let mut writer = CountingWriter {
        taken: Vec::new(rt.alloc()),
        writes: 100,
        flushes: false,
    };
    let done = script_performed(&rt, rt.alloc(), &mut writer);
    assert_same(&rt, done, Err(Stop::OutputFault));
    assert_same(&rt, writer.taken.as_slice(), script_answer().as_bytes());
}

/// So many empty lines, one a read, and then the end.
#[derive(Drop)]
pub(crate) struct EmptyLines(pub(crate) u64);

impl Read for EmptyLines {
    fn read(&mut self, buffer: &mut [u8]) -> io::Result<usize> {
        if self.0 == 0 {
            return Ok(0);
        }
        self.0 -= 1;
        let mut line: &[u8] = b"\n";
        line.read(buffer)
    }
}

/// That comes of so many empty lines, and nothing is written.
fn assert_reads(rt: &impl Abort, alloc: Global, lines: u64, wanted: Result<(), Stop>) {
    let mut output = Vec::new(alloc);
    let done = performed(rt, alloc, &mut EmptyLines(lines), &mut output);
    assert_same_at(rt, done, wanted, lines);
    assert_same_at(rt, output.len(), 0, lines);
}

/// The end has to come at the read of number 1,000,000 at the latest.
#[test]
fn most_reads(rt: HostRuntime) {
    assert_reads(&rt, rt.alloc(), 999_999, Ok(()));
    assert_reads(&rt, rt.alloc(), 1_000_000, Err(Stop::InputFault));
}
