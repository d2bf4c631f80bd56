ghost use Rattle.std.specs.Prelude.{◌≡◌, ◌≤◌, length, take};
ghost use Rattle.httparse.specs.Spans.{IsRequestOf, IsRequestWithin};
ghost use Rattle.oai_front.specs.RequestHeads.{IsHeadParse, IsHeadResult, parse_unless_full};

use crate::fields::read_fields;
use crate::framings::{Framing, framing_of};
use httparse::spans::{EMPTY_HEADER_SPAN, HeaderSpan, RequestSpans, Span, parse_request};
use httparse::{Error, Status as Parsed};
use oai_http::{Status, TargetPath, parse_path};

/// The maximum length of a head, in bytes. Empty lines before it count.
pub const MAX_HEAD_BYTES: usize = 16_384;

/// The maximum number of fields of a head.
pub const MAX_HEAD_FIELDS: usize = 64;

/// A complete head: the positions of its parts, and the framing of what follows it.
#[derive(Clone, Copy)]
pub struct Head {
    /// The method.
    pub method: Span,
    /// The target.
    pub target: Span,
    /// What was parsed of the target.
    pub path: TargetPath,
    /// The value of the first field Content-Type, if there is one.
    pub content_type: Option<Span>,
    /// The value of the first field Authorization, if there is one.
    pub authorization: Option<Span>,
    /// The length of the head in bytes; the body begins after it.
    pub start: usize,
    /// The length of the body in bytes.
    pub size: usize,
    /// Whether the connection is closed after the message.
    pub last: bool,
}

/// What the received bytes begin with.
#[derive(Clone, Copy)]
pub enum HeadParse {
    /// No complete head; one may come.
    Unknown,
    /// A fault, which is answered with that status, since no message can follow.
    Fault(Status),
    /// A head.
    Whole(Head),
}

/// What the bytes begin with (RFC 9112, sections 2 and 3). Of an incomplete head at most the first 16,384 bytes are
/// read.
pub(crate) fn read_head(bytes: &[u8]) -> HeadParse
    ensures { IsHeadParse bytes.now result }
{
    read_within(bytes, MAX_HEAD_BYTES)
}

/// What the bytes begin with, if a head has at most `most` bytes.
fn read_within(bytes: &[u8], most: usize) -> HeadParse
    requires { most ≡ MAX_HEAD_BYTES }
    ensures { IsHeadParse bytes.now result }
{
    let mut headers = [EMPTY_HEADER_SPAN; MAX_HEAD_FIELDS];
    let front = front_of(bytes, most);
    match parse_request(front, &mut headers) {
        Ok(Parsed::Complete(spans)) => kept_of(front, &spans, &headers),
        Ok(Parsed::Partial) => unless_full(bytes, most),
        Err(error) => match error {
            Error::TooManyHeaders => unless_full(bytes, most),
            _ => HeadParse::Fault(Status::BadRequest),
        },
    }
}

/// The first `most` bytes, or all if there are fewer.
fn front_of(bytes: &[u8], most: usize) -> &[u8]
    ensures { result.now ≡ take most bytes.now }
{
    if bytes.len() <= most {
        return bytes;
    }
    &bytes[..most]
}

/// The result for bytes that do not begin with a head: a fault, once they are as many as a head may have.
fn unless_full(bytes: &[u8], most: usize) -> HeadParse
    ensures { result ≡ parse_unless_full most bytes.now }
{
    if bytes.len() < most {
        HeadParse::Unknown
    } else {
        HeadParse::Fault(Status::BadRequest)
    }
}

/// What is kept of a head that was parsed, or why it is refused.
fn kept_of(bytes: &[u8], spans: &RequestSpans, headers: &[HeaderSpan]) -> HeadParse
    requires short { length bytes.now ≤ MAX_HEAD_BYTES }
    requires few { length headers.now ≤ MAX_HEAD_FIELDS }
    requires within { IsRequestWithin bytes.now headers.now spans.now }
    requires read { IsRequestOf bytes.now headers.now spans.now }
    ensures { IsHeadResult bytes.now result }
{
    let fields = read_fields(bytes, &headers[..spans.headers]);
    let path = parse_path(spans.path.of(bytes));
    match framing_of(bytes, spans.version, path.endpoint, &fields) {
        Framing::Refused(status) => HeadParse::Fault(status),
        Framing::Body(size, last) => HeadParse::Whole(Head {
            method: spans.method,
            target: spans.path,
            path,
            content_type: fields.content_type.first,
            authorization: fields.authorization.first,
            start: spans.len,
            size,
            last,
        }),
    }
}
