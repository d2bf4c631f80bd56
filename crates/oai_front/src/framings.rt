ghost use Rattle.std.specs.Prelude.{◌≡◌, ◌==◌, ◌||◌, ℕ, List, length, IfSome};
ghost use Rattle.httparse.specs.Spans.{IsWithin};
ghost use Rattle.oai_http.specs.Targets.{endpoint_of};
ghost use Rattle.oai_front.specs.HeadFields.{AreLines, AreRead};
ghost use Rattle.oai_front.specs.Fields as spec;

use crate::fields::{FieldLines, HeadFields, length_given};
use oai_http::{Endpoint, Status};

/// The maximum length of a message body, in bytes, if the path of its target does not begin with `/deposit/`.
pub const MAX_BODY_BYTES: usize = 1_048_576;

/// The maximum length of a message body, in bytes, if the path of its target begins with `/deposit/`.
pub const MAX_DEPOSIT_BYTES: usize = 2_097_152;

/// The maximum number of digits of a Content-Length.
pub const MAX_LENGTH_DIGITS: usize = 19;

/// How the body after a head is framed (RFC 9112, section 6).
#[derive(Clone, Copy, PartialEq, Eq)]
pub enum Framing {
    /// No body is read: the message is answered with that status.
    Refused(Status),
    /// A body of that many bytes, and whether the connection is closed after the message.
    Body(usize, bool),
}

/// The framing after a head of HTTP/1.`minor` with these fields, whose values are in `bytes`, and with that endpoint
/// (RFC 9112, sections 3.2, 6.1 and 6.3).
#[tactic(auto, unfolding(crate::specs::Fields::framing_of))]
pub(crate) fn framing_of(
    bytes: &[u8],
    minor: u8,
    endpoint: Option<Endpoint>,
    fields: &HeadFields,
) -> Framing
    requires { IfSome fields.now.content_length.first (IsWithin (length bytes.now)) }
    ensures { (target : List ℕ) (all : List (List ℕ × List ℕ)) → endpoint ≡ endpoint_of target
        → AreRead bytes.now all fields.now → result ≡ spec.framing_of minor target all }
{
    if !is_host_count(minor, &fields.host) {
        return Framing::Refused(Status::BadRequest);
    }
    if fields.transfer_encoding.first.is_some() {
        return Framing::Refused(Status::NotImplemented);
    }
    let last = is_last(minor, fields.is_close);
    match length_given(bytes, &fields.content_length) {
        None => Framing::Refused(Status::BadRequest),
        Some(size) => framing_by(max_body_at(endpoint), size, last),
    }
}

/// Whether the connection is closed after a message of HTTP/1.`minor`, if a field Connection lists `close` or if none
/// does (RFC 9112, section 9.3).
fn is_last(minor: u8, is_close: bool) -> bool
    ensures { result ≡ (minor == 0 || is_close) }
{
    minor == 0 || is_close
}

/// The maximum length of a message body, in bytes, by the endpoint of its target, whatever its method.
fn max_body_at(endpoint: Option<Endpoint>) -> usize
    ensures { result ≡ spec.max_body_at endpoint }
{
    match endpoint {
        Some(Endpoint::Deposits) => MAX_DEPOSIT_BYTES,
        Some(Endpoint::Requests) => MAX_BODY_BYTES,
        None => MAX_BODY_BYTES,
    }
}

/// The framing if a body of `size` bytes is announced, and may have `most` bytes.
fn framing_by(most: usize, size: usize, last: bool) -> Framing
    ensures { result ≡ spec.framing_sized most size last }
{
    if size > most {
        Framing::Refused(Status::ContentTooLarge)
    } else {
        Framing::Body(size, last)
    }
}

/// Whether a head of HTTP/1.`minor` may have that many field lines Host (RFC 9112, section 3.2).
fn is_host_count(minor: u8, host: &FieldLines) -> bool
    ensures { (bytes : List ℕ) (values : List (List ℕ)) → AreLines bytes values host.now
        → result ≡ spec.is_host_count minor (length values) }
{
    if minor == 0 {
        !host.is_repeated
    } else {
        host.first.is_some() && !host.is_repeated
    }
}
