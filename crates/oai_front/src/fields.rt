ghost use Rattle.std.specs.Prelude.{◌≡◌, ◌≤◌, ◌++◌, ◌∷◌, [], ℕ, List, true, length, map, All, IfSome};
ghost use Rattle.std.specs.Str.Parse.{digits_value};
ghost use Rattle.httparse.specs.Spans.{IsHeaderWithin, IsWithin, header_bytes};
ghost use Rattle.oai_front.specs.Fields as spec;
ghost use Rattle.oai_front.specs.HeadFields.{AreLines, AreRead};

use crate::framings::MAX_LENGTH_DIGITS;
use httparse::spans::{HeaderSpan, Span};
use oai_http::trim;

/// The field lines with one name (RFC 9110, section 5.2).
#[derive(Clone, Copy)]
pub(crate) struct FieldLines {
    /// The position of the value of the first, if there is one.
    pub(crate) first: Option<Span>,
    /// Whether there is more than one.
    pub(crate) is_repeated: bool,
}

/// What the fields of a head say about its message.
#[derive(Clone, Copy)]
pub(crate) struct HeadFields {
    /// The field lines Host.
    pub(crate) host: FieldLines,
    /// The field lines Transfer-Encoding.
    pub(crate) transfer_encoding: FieldLines,
    /// The field lines Content-Length.
    pub(crate) content_length: FieldLines,
    /// The field lines Content-Type.
    pub(crate) content_type: FieldLines,
    /// The field lines Authorization.
    pub(crate) authorization: FieldLines,
    /// Whether a field Connection lists `close`.
    pub(crate) is_close: bool,
}

/// What the fields of a head say, in one pass over them.
pub(crate) fn read_fields(bytes: &[u8], headers: &[HeaderSpan]) -> HeadFields
    requires { All (IsHeaderWithin (length bytes.now)) headers.now }
    ensures { AreRead bytes.now (map (header_bytes bytes.now) headers.now) result }
{
    let mut fields = HeadFields::new();
    for header in headers {
        fields.add(bytes, header);
    }
    fields
}

impl HeadFields {
    /// What an empty list of fields says.
    #[tactic(auto, unfolding(crate::specs::Fields::values_named, crate::specs::Fields::any_close))]
    fn new() -> HeadFields
        ensures { (bytes : List ℕ) → AreRead bytes [] result }
    {
        let none = FieldLines {
            first: None,
            is_repeated: false,
        };
        HeadFields {
            host: none,
            transfer_encoding: none,
            content_length: none,
            content_type: none,
            authorization: none,
            is_close: false,
        }
    }

    /// Adds one more field.
    fn add(&mut self, bytes: &[u8], header: &HeaderSpan)
        requires { IsHeaderWithin (length bytes.now) header.now }
        ensures { (fields : List (List ℕ × List ℕ)) → AreRead bytes.now fields self.old
            → AreRead bytes.now (fields ++ header_bytes bytes.now header.now ∷ []) self.new }
    {
        self.host.add(bytes, header, b"Host");
        self.transfer_encoding
            .add(bytes, header, b"Transfer-Encoding");
        self.content_length.add(bytes, header, b"Content-Length");
        self.content_type.add(bytes, header, b"Content-Type");
        self.authorization.add(bytes, header, b"Authorization");
        self.is_close = self.is_close || closes(bytes, header);
    }
}

impl FieldLines {
    /// Adds one more field, if it has that name.
    fn add(&mut self, bytes: &[u8], header: &HeaderSpan, name: &[u8])
        requires { IsHeaderWithin (length bytes.now) header.now }
        ensures { (fields : List (List ℕ × List ℕ))
            → AreLines bytes.now (spec.values_named name.now fields) self.old
            → AreLines bytes.now
            (spec.values_named name.now (fields ++ header_bytes bytes.now header.now ∷ [])) self.new }
    {
        if is_named(bytes, header, name) {
            self.is_repeated = self.first.is_some();
            self.first = self.first.or(Some(header.value));
        }
    }
}

/// Whether it is a field Connection that lists `close`.
fn closes(bytes: &[u8], header: &HeaderSpan) -> bool
    requires { IsHeaderWithin (length bytes.now) header.now }
    ensures { result ≡ spec.any_close (header_bytes bytes.now header.now ∷ []) }
{
    is_named(bytes, header, b"Connection") && lists_close(header.value.of(bytes))
}

/// Whether the field has that name, ignoring case (RFC 9110, section 5.1).
fn is_named(bytes: &[u8], header: &HeaderSpan, name: &[u8]) -> bool
    requires { IsHeaderWithin (length bytes.now) header.now }
    ensures { result ≡ spec.is_field_named name.now (header_bytes bytes.now header.now) }
{
    is_alike(header.name.of(bytes), name)
}

/// Whether two texts are equal up to the case of ASCII letters.
#[tactic(auto, unfolding(crate::specs::Fields::is_alike))]
fn is_alike(a: &[u8], b: &[u8]) -> bool
    ensures { result ≡ spec.is_alike a.now b.now }
{
    a.eq_ignore_ascii_case(b)
}

/// The length of the body by the field lines Content-Length, or None if they are invalid (RFC 9112, section 6.3).
pub(crate) fn length_given(bytes: &[u8], lines: &FieldLines) -> Option<usize>
    requires { IfSome lines.now.first (IsWithin (length bytes.now)) }
    ensures { (values : List (List ℕ)) → AreLines bytes.now values lines.now
        → result ≡ spec.length_given values }
{
    if lines.is_repeated {
        return None;
    }
    match lines.first {
        None => Some(0),
        Some(value) => length_written(value.of(bytes)),
    }
}

/// The number that a Content-Length of 1 to 19 digits writes (RFC 9110, section 8.6).
#[tactic(auto, unfolding(crate::specs::Fields::length_written))]
fn length_written(value: &[u8]) -> Option<usize>
    ensures { result ≡ spec.length_written value.now }
{
    if value.is_empty() || value.len() > MAX_LENGTH_DIGITS || !are_digits(value) {
        return None;
    }
    Some(number(value))
}

/// Whether each byte is a digit.
fn are_digits(value: &[u8]) -> bool
    ensures { result ≡ spec.are_digits value.now }
{
    value.iter().all(|b| b.is_ascii_digit())
}

/// The number that the digits write.
fn number(digits: &[u8]) -> usize
    requires few { length digits.now ≤ MAX_LENGTH_DIGITS }
    requires digits { spec.are_digits digits.now ≡ true }
    ensures { result ≡ digits_value 10 digits.now }
{
    let mut number: usize = 0;
    for digit in digits {
        number = number * 10 + usize::from(*digit - b'0');
    }
    number
}

/// Whether one of the elements between commas is `close` (RFC 9110, sections 5.6.1 and 7.6.1).
#[tactic(auto, unfolding(crate::specs::Fields::lists_close))]
fn lists_close(value: &[u8]) -> bool
    ensures { result ≡ spec.lists_close value.now }
{
    value.split(|b| *b == b',').any(is_close)
}

/// Whether the element is `close`, ignoring white space around it.
fn is_close(element: &[u8]) -> bool
    ensures { result ≡ spec.is_close element.now }
{
    is_alike(trim(element), b"close")
}
