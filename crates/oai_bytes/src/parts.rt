//! The parts of a line, between single spaces.
ghost use Rattle.std.specs.Prelude.{◌≡◌, ◌≤◌, length};
ghost use Rattle.std.specs.List.{position_or_len};
ghost use Rattle.oai_bytes.specs.Parts as spec;

use memchr::memchr;

/// What precedes the first space, and what follows it; everything and nothing if there is none.
pub fn split_at_space(text: &[u8]) -> (&[u8], &[u8])
    ensures front { result.0.now ≡ spec.part text.now }
    ensures back { result.1.now ≡ spec.rest text.now }
{
    let front = front_len(text);
    if front < text.len() {
        (&text[..front], &text[front + 1..])
    } else {
        (text, &[])
    }
}

/// The number of bytes before the first space.
fn front_len(text: &[u8]) -> usize
    ensures length { result ≡ position_or_len spec.is_separator text.now }
    ensures within { result ≤ length text.now }
{
    memchr(b' ', text).unwrap_or(text.len())
}
