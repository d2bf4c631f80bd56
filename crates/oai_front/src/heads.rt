ghost use Rattle.std.specs.Prelude.{◌≡◌, ◌≤◌, ◌+◌, ◌*◌, ◌++◌, [], length, decimal, vec_len, vec_capacity};
ghost use Rattle.std.specs.Fmt.{signed_decimal};
ghost use Rattle.oai_front.specs.Heads as spec;

use itoa::Buffer;
use oai_http::{Endpoint, Status, put};

/// The contents of the head of an answer.
#[derive(Clone, Copy)]
pub struct AnswerHead {
    /// The endpoint of the request's target.
    pub endpoint: Option<Endpoint>,
    /// The status.
    pub status: Status,
    /// The seconds after which to retry, in a 503.
    pub seconds: Option<i64>,
    /// The number of lines of a deposit that were done, in a 500 or a 503.
    pub done: Option<u64>,
    /// Whether the connection is closed after the answer.
    pub last: bool,
    /// The length of the body in bytes.
    pub size: usize,
}

/// A capacity that is enough for the head of any answer, in bytes.
pub const HEAD_ROOM: usize = 512;

/// A capacity that is enough for a line of a head, in bytes.
pub const LINE_ROOM: usize = 64;

/// Writes the head of an answer, with the empty line after it, into reserved space (RFC 9112, sections 4 and 5).
#[tactic(auto, unfolding(crate::specs::Heads::answer_head))]
pub(crate) fn write_head(head: &AnswerHead, out: &mut Vec<u8>)
    requires empty { out.old.items ≡ [] }
    requires room { HEAD_ROOM ≤ vec_capacity out.old }
    ensures { out.new.items ≡ spec.answer_head head.now }
{
    write_status(head.status, out);
    write_fields(head, out);
    write_close(head.last, out);
    write_length(head.size, out);
    put(b"\r\n", out);
}

/// Writes the status line (RFC 9112, section 4).
#[tactic(auto, unfolding(crate::specs::Heads::plain, crate::specs::Heads::status_line))]
fn write_status(status: Status, out: &mut Vec<u8>)
    requires { vec_len out.old + LINE_ROOM ≤ vec_capacity out.old }
    ensures items { out.new.items ≡ out.old.items ++ spec.status_line status }
    ensures len { vec_len out.new ≤ vec_len out.old + LINE_ROOM }
    ensures room { vec_capacity out.old ≤ vec_capacity out.new }
{
    let mut number = Buffer::new();
    put(b"HTTP/1.1 ", out);
    put(number.format(status.number()).as_bytes(), out);
    put(b" ", out);
    put(status.phrase().as_bytes(), out);
    put(b"\r\n", out);
}

/// Writes the fields that the status requires.
#[tactic(auto, unfolding(crate::specs::Heads::status_fields))]
fn write_fields(head: &AnswerHead, out: &mut Vec<u8>)
    requires { vec_len out.old + 2 * LINE_ROOM ≤ vec_capacity out.old }
    ensures items { out.new.items ≡ out.old.items ++ spec.status_fields head.now.status head.now }
    ensures len { vec_len out.new ≤ vec_len out.old + 2 * LINE_ROOM }
    ensures room { vec_capacity out.old ≤ vec_capacity out.new }
{
    match head.status {
        Status::Ok => write_type(head.endpoint, out),
        Status::Unauthorized => write_challenge(out),
        Status::MethodNotAllowed => write_allow(head.endpoint, out),
        Status::InternalServerError => write_done(head.endpoint, head.done, out),
        Status::ServiceUnavailable => {
            write_retry(head.seconds, out);
            write_done(head.endpoint, head.done, out);
        }
        _ => {}
    }
}

/// Writes the Content-Type of a 200 (RFC 9110, section 8.3).
#[tactic(auto, unfolding(crate::specs::Heads::plain, crate::specs::Heads::type_field))]
fn write_type(endpoint: Option<Endpoint>, out: &mut Vec<u8>)
    requires { vec_len out.old + LINE_ROOM ≤ vec_capacity out.old }
    ensures items { out.new.items ≡ out.old.items ++ spec.type_field endpoint }
    ensures len { vec_len out.new ≤ vec_len out.old + LINE_ROOM }
    ensures room { vec_capacity out.old ≤ vec_capacity out.new }
{
    match endpoint {
        Some(Endpoint::Requests) => write_field("Content-Type", b"text/xml", out),
        Some(Endpoint::Deposits) => write_field("Content-Type", b"text/plain; charset=utf-8", out),
        None => write_field("Content-Type", b"text/plain; version=0.0.4", out),
    }
}

/// Writes what a 401 asks for (RFC 9110, section 11.6.1; RFC 6750, section 3).
#[tactic(auto, unfolding(crate::specs::Heads::plain, crate::specs::Heads::challenge_field))]
fn write_challenge(out: &mut Vec<u8>)
    requires { vec_len out.old + LINE_ROOM ≤ vec_capacity out.old }
    ensures items { out.new.items ≡ out.old.items ++ spec.challenge_field }
    ensures len { vec_len out.new ≤ vec_len out.old + LINE_ROOM }
    ensures room { vec_capacity out.old ≤ vec_capacity out.new }
{
    write_field("WWW-Authenticate", b"Bearer realm=\"deposit\"", out)
}

/// Writes the allowed methods, in a 405 (RFC 9110, section 10.2.1).
#[tactic(auto, unfolding(crate::specs::Heads::plain, crate::specs::Heads::allow_field))]
fn write_allow(endpoint: Option<Endpoint>, out: &mut Vec<u8>)
    requires { vec_len out.old + LINE_ROOM ≤ vec_capacity out.old }
    ensures items { out.new.items ≡ out.old.items ++ spec.allow_field endpoint }
    ensures len { vec_len out.new ≤ vec_len out.old + LINE_ROOM }
    ensures room { vec_capacity out.old ≤ vec_capacity out.new }
{
    match endpoint {
        Some(Endpoint::Requests) => write_field("Allow", b"GET, POST", out),
        Some(Endpoint::Deposits) => write_field("Allow", b"POST", out),
        None => write_field("Allow", b"GET", out),
    }
}

/// Writes the seconds after which to retry (RFC 9110, section 10.2.3).
#[tactic(auto, unfolding(crate::specs::Heads::retry_field))]
fn write_retry(seconds: Option<i64>, out: &mut Vec<u8>)
    requires { vec_len out.old + LINE_ROOM ≤ vec_capacity out.old }
    ensures items { out.new.items ≡ out.old.items ++ spec.retry_field seconds }
    ensures len { vec_len out.new ≤ vec_len out.old + LINE_ROOM }
    ensures room { vec_capacity out.old ≤ vec_capacity out.new }
{
    match seconds {
        Some(seconds) => {
            let mut text = Buffer::new();
            write_field("Retry-After", text.format(seconds).as_bytes(), out)
        }
        None => {}
    }
}

/// Writes how many lines of a deposit were done before it failed, if the answer says so.
#[tactic(auto, unfolding(crate::specs::Heads::done_field))]
fn write_done(endpoint: Option<Endpoint>, done: Option<u64>, out: &mut Vec<u8>)
    requires { vec_len out.old + LINE_ROOM ≤ vec_capacity out.old }
    ensures items { out.new.items ≡ out.old.items ++ spec.done_field endpoint done }
    ensures len { vec_len out.new ≤ vec_len out.old + LINE_ROOM }
    ensures room { vec_capacity out.old ≤ vec_capacity out.new }
{
    match (endpoint, done) {
        (Some(Endpoint::Deposits), Some(lines)) => {
            let mut text = Buffer::new();
            write_field("X-Lines-Done", text.format(lines).as_bytes(), out)
        }
        _ => {}
    }
}

/// Writes that the connection is closed after the answer, if it is (RFC 9110, section 7.6.1).
#[tactic(auto, unfolding(crate::specs::Heads::plain, crate::specs::Heads::close_field))]
fn write_close(last: bool, out: &mut Vec<u8>)
    requires { vec_len out.old + LINE_ROOM ≤ vec_capacity out.old }
    ensures items { out.new.items ≡ out.old.items ++ spec.close_field last }
    ensures len { vec_len out.new ≤ vec_len out.old + LINE_ROOM }
    ensures room { vec_capacity out.old ≤ vec_capacity out.new }
{
    if last {
        write_field("Connection", b"close", out);
    }
}

/// Writes the length of the body (RFC 9110, section 8.6).
#[tactic(auto, unfolding(crate::specs::Heads::length_field))]
fn write_length(size: usize, out: &mut Vec<u8>)
    requires { vec_len out.old + LINE_ROOM ≤ vec_capacity out.old }
    ensures items { out.new.items ≡ out.old.items ++ spec.length_field size }
    ensures len { vec_len out.new ≤ vec_len out.old + LINE_ROOM }
    ensures room { vec_capacity out.old ≤ vec_capacity out.new }
{
    let mut text = Buffer::new();
    write_field("Content-Length", text.format(size).as_bytes(), out);
}

/// Writes a field: its name, a colon, a space, its value and a line end (RFC 9112, section 5).
#[tactic(auto, unfolding(crate::specs::Heads::plain, crate::specs::Heads::field))]
fn write_field(name: &str, value: &[u8], out: &mut Vec<u8>)
    requires short { length name.now + length value.now + 4 ≤ LINE_ROOM }
    requires room { vec_len out.old + LINE_ROOM ≤ vec_capacity out.old }
    ensures items { out.new.items ≡ out.old.items ++ spec.field name.now value.now }
    ensures len { vec_len out.new ≤ vec_len out.old + LINE_ROOM }
    ensures room { vec_capacity out.old ≤ vec_capacity out.new }
{
    put(name.as_bytes(), out);
    put(b": ", out);
    put(value, out);
    put(b"\r\n", out);
}
