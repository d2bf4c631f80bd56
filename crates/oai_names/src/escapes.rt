ghost use Rattle.std.specs.Prelude.{◌≡◌, ◌≢◌, ◌<◌, ◌+◌, ◌≤◌, ◌++◌, ℕ, List, [], ◌∷◌, false, length, slice_index, take, unwrap_or, OnOk, OnErr};
ghost use Rattle.std.specs.List.{list_all, list_any};
ghost use Rattle.std.specs.Option.{option_copied};
ghost use Rattle.memchr.specs.Find.{is_byte3};
ghost use Rattle.oai_names.specs.ByteTests.{is_bare_byte, is_bare_in_value};
ghost use Rattle.oai_names.specs.Escapes as spec;
ghost use Rattle.oai_names.specs.Names.{is_one_of};
ghost use Rattle.oai_names.specs.declared.escapes.Place.TheVariants.{Attribute, Element};

use crate::byte_tests::{ByteTest, all_pass};
use memchr::{memchr, memchr3};
use std::alloc::AllocError;

/// The most bytes of an element's text that are scanned at once.
const MAX_RUN: usize = 256;

/// Where in a document a text stands.
#[derive(Clone, Copy, PartialEq, Eq)]
enum Place {
    Element,
    Attribute,
}

/// Appends the text as it is spelled in an element: `&amp;` for `&`, `&lt;` for `<`, `&gt;` for `>` and `&#13;` for CR,
/// everything else as it is (XML 1.0, sections 2.4 and 2.11). Out of memory, the buffer is unchanged.
pub fn escape_text(text: &str, out: &mut Vec<u8>) -> Result<(), AllocError>
    ensures ok { OnOk result (out.new.items ≡ out.old.items ++ spec.escaped_text text.now) }
    ensures err { OnErr result (out.new.items ≡ out.old.items) }
{
    if all_pass::<Bare>(text.as_bytes()) {
        return out.extend_from_slice(text.as_bytes());
    }
    escape(Place::Element, text, out)
}

/// Appends the text as it is spelled in the value of an attribute: as in an element, and `&quot;` for a quote, `&#9;`
/// for tab and `&#10;` for LF (XML 1.0, section 3.3.3). Out of memory, the buffer is unchanged.
pub fn escape_attr(text: &str, out: &mut Vec<u8>) -> Result<(), AllocError>
    ensures ok { OnOk result (out.new.items ≡ out.old.items ++ spec.escaped_attribute text.now) }
    ensures err { OnErr result (out.new.items ≡ out.old.items) }
{
    if all_pass::<BareInValue>(text.as_bytes()) {
        return out.extend_from_slice(text.as_bytes());
    }
    escape(Place::Attribute, text, out)
}

/// Escaped texts hold no markup, and two texts with the same escaped form are equal. Apart from the `&` of its
/// entities, no byte is left that a reader would take for markup or would change: in an element `<` and CR (XML 1.0,
/// sections 2.4 and 2.11); in the value of an attribute these, the quote, tab and LF (section 3.3.3). A theorem, proved
/// by an empty function.
pub fn escape_law()
    ensures element { (text : List ℕ)
        → list_any (is_one_of (60 ∷ 13 ∷ [])) (spec.escaped_text text) ≡ false }
    ensures attribute { (text : List ℕ)
        → list_any (is_one_of (60 ∷ 13 ∷ 34 ∷ 9 ∷ 10 ∷ [])) (spec.escaped_attribute text) ≡ false }
    ensures texts { (text other : List ℕ)
        → spec.escaped_text text ≡ spec.escaped_text other → text ≡ other }
    ensures values { (value other : List ℕ)
        → spec.escaped_attribute value ≡ spec.escaped_attribute other → value ≡ other }
{}

/// Whether a byte stands for itself in an element, as each does in most texts: such a text is appended in one piece.
struct Bare;

impl ByteTest for Bare {
    ghost passes = { is_bare_byte };

    fn passes(b: u8) -> bool {
        (b != b'&') & (b != b'<') & (b != b'>') & (b != b'\r')
    }
}

/// Whether a byte stands for itself in the value of an attribute, and is no space: so does each of most identifiers,
/// names and URLs. It stands behind `&`, and is no other markup: the white space and the quote stand before it.
struct BareInValue;

impl ByteTest for BareInValue {
    ghost passes = { is_bare_in_value };

    fn passes(b: u8) -> bool {
        (b > b'&') & (b != b'<') & (b != b'>')
    }
}

/// Appends the text, each of its characters as the table spells it.
fn escape(place: Place, text: &str, out: &mut Vec<u8>) -> Result<(), AllocError>
    ensures ok { OnOk result (out.new.items ≡ out.old.items ++ spec.escaped place text.now) }
    ensures err { OnErr result (out.new.items ≡ out.old.items) }
{
    let old_len = out.len();
    let written = append(place, text.as_bytes(), out);
    if written.is_err() {
        out.truncate(old_len);
    }
    written
}

/// As `escape`, but what was appended before memory ran out stays.
#[tactic(auto, unfolding(crate::specs::Escapes::escaped))]
fn append(place: Place, text: &[u8], out: &mut Vec<u8>) -> Result<(), AllocError>
    ensures ok { OnOk result (out.new.items ≡ out.old.items ++ spec.escaped place text.now) }
    ensures err { OnErr result (take (length out.old.items) out.new.items ≡ out.old.items) }
{
    let mut rest = text;
    loop {
        let (run, after) = rest.split_at(run_len(place, rest));
        out.extend_from_slice(run)?;
        let Some((b, tail)) = after.split_first() else {
            return Ok(());
        };
        append_byte(place, *b, out)?;
        rest = tail;
    }
}

/// The number of leading bytes that are spelled as they are.
fn run_len(place: Place, bytes: &[u8]) -> usize
    ensures within { result ≤ length bytes.now }
    ensures run { spec.escaped place (take result bytes.now) ≡ take result bytes.now }
{
    match place {
        Place::Element => element_run_len(bytes),
        Place::Attribute => attribute_run_len(bytes),
    }
}

/// The number of leading bytes that are spelled as they are in an element. Texts of elements are long, and most of
/// their bytes stand for themselves, so these are skipped many at a time.
fn element_run_len(bytes: &[u8]) -> usize
    ensures within { result ≤ length bytes.now }
    ensures run { spec.escaped Element (take result bytes.now) ≡ take result bytes.now }
{
    let unmarked = unmarked_len(bytes);
    len_before_cr(&bytes[..unmarked])
}

/// The number of bytes before the first `&`, `<` or `>` among the next 256. It looks no further, since the bytes after
/// a CR are scanned again.
fn unmarked_len(bytes: &[u8]) -> usize
    ensures within { result ≤ length bytes.now }
    ensures before { (k : ℕ) → k < result → is_byte3 38 60 62 (slice_index bytes.now k) ≡ false }
{
    let near = &bytes[..bytes.len().min(MAX_RUN)];
    memchr3(b'&', b'<', b'>', near).unwrap_or(near.len())
}

/// The number of bytes before the first CR.
fn len_before_cr(bytes: &[u8]) -> usize
    ensures within { result ≤ length bytes.now }
    ensures before { (k : ℕ) → k < result → slice_index bytes.now k ≢ 13 }
{
    memchr(b'\r', bytes).unwrap_or(bytes.len())
}

/// The number of leading bytes that are spelled as they are in the value of an attribute.
#[tactic(auto, unfolding(crate::specs::Escapes::escaped))]
fn attribute_run_len(bytes: &[u8]) -> usize
    ensures within { result ≤ length bytes.now }
    ensures run { spec.escaped Attribute (take result bytes.now) ≡ take result bytes.now }
{
    for (i, b) in bytes.iter().enumerate() {
        if escape_of(Place::Attribute, *b).is_some() {
            return i;
        }
    }
    bytes.len()
}

/// Appends one byte as the table spells it.
fn append_byte(place: Place, b: u8, out: &mut Vec<u8>) -> Result<(), AllocError>
    ensures ok { OnOk result (out.new.items ≡ out.old.items ++ spec.spelling place b) }
    ensures err { OnErr result (out.new.items ≡ out.old.items) }
{
    match escape_of(place, b) {
        Some(spelling) => out.extend_from_slice(spelling.as_bytes())?,
        None => out.push(b)?,
    }
    Ok(())
}

/// The one table of spellings: the escape of a byte, or `None` where it stands for itself.
fn escape_of(place: Place, b: u8) -> Option<&'static str>
    ensures { unwrap_or (option_copied result) (b ∷ []) ≡ spec.spelling place b }
{
    match (b, place) {
        (b'&', _) => Some("&amp;"),
        (b'<', _) => Some("&lt;"),
        (b'>', _) => Some("&gt;"),
        (b'\r', _) => Some("&#13;"),
        (b'"', Place::Attribute) => Some("&quot;"),
        (b'\t', Place::Attribute) => Some("&#9;"),
        (b'\n', Place::Attribute) => Some("&#10;"),
        _ => None,
    }
}
