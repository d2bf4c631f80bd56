ghost use Rattle.std.specs.Prelude.{◌≡◌, ◌≤◌, length};
ghost use Rattle.std.specs.Str.{chars};
ghost use Rattle.oai_names.specs.Characters.{is_xml_char};
ghost use Rattle.oai_xml.specs.Documents as spec;

use oai_names::is_xml_text;

/// How many bytes the characters have up to the first that XML does not allow.
pub(crate) fn legal_len(text: &str) -> usize
    ensures len { result ≡ spec.legal_len (chars text.now) }
    ensures within { result ≤ length text.now }
{
    if is_xml_text(text) {
        return text.len();
    }
    decoded_len(text)
}

/// The same, by decoding each character.
fn decoded_len(text: &str) -> usize
    ensures len { result ≡ spec.legal_len (chars text.now) }
    ensures within { result ≤ length text.now }
{
    let mut len = 0;
    for c in text.chars() {
        if !is_xml_char(c) {
            return len;
        }
        len += c.len_utf8();
    }
    len
}

/// The production `Char` (section 2.2).
fn is_xml_char(c: char) -> bool
    ensures { result ≡ is_xml_char c }
{
    matches!(c, '\t' | '\n' | '\r' | ' '..='\u{D7FF}' | '\u{E000}'..='\u{FFFD}' | '\u{10000}'..='\u{10FFFF}')
}
