//! How many spaces a line has.
ghost use Rattle.std.specs.Prelude.{◌≡◌, nat_le};
ghost use Rattle.std.specs.List.{count_by, list_any};
ghost use Rattle.oai_bytes.specs.Parts as spec;

use oai_bytes::split_at_space;

/// The number of spaces in the text.
pub(crate) fn spaces(text: &[u8]) -> usize
    ensures { result ≡ count_by spec.is_separator text.now }
{
    text.iter().filter(|b| **b == b' ').count()
}

/// Whether the text has two spaces or more. It reads no byte after the second.
pub(crate) fn has_two_spaces(text: &[u8]) -> bool
    ensures { result ≡ nat_le 2 (count_by spec.is_separator text.now) }
{
    let (_, rest) = split_at_space(text);
    has_space(rest)
}

/// Whether the text has a space. It reads no byte after it.
fn has_space(text: &[u8]) -> bool
    ensures { result ≡ list_any spec.is_separator text.now }
{
    text.iter().any(|b| *b == b' ')
}
