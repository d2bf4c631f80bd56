//! Numbers and moments, as lines, log records and arguments spell them.
ghost use Rattle.std.specs.Prelude.{◌≡◌};
ghost use Rattle.oai_bytes.specs.Numbers.{moment_of, number_in};

/// A sign that no number here begins with, though `parse` takes it.
const PLUS: &[u8] = b"+";

/// Reads a moment: decimal digits, after a minus where it is negative.
pub fn read_moment(text: &[u8]) -> Option<i64>
    ensures { result ≡ moment_of text.now }
{
    if text.starts_with(PLUS) {
        return None;
    }
    let Ok(text) = std::str::from_utf8(text) else {
        return None;
    };
    text.parse().ok()
}

/// Reads a number: decimal digits alone, below 2^64.
pub fn read_number(text: &[u8]) -> Option<u64>
    ensures { result ≡ number_in text.now }
{
    if text.starts_with(PLUS) {
        return None;
    }
    let Ok(text) = std::str::from_utf8(text) else {
        return None;
    };
    text.parse().ok()
}
