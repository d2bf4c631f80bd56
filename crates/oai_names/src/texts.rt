ghost use Rattle.std.specs.Prelude.{◌≡◌, IfOk};
ghost use Rattle.std.specs.String.{string_bytes};
ghost use Rattle.oai_names.specs.Characters as spec;
ghost use Rattle.oai_names.specs.ByteTests.{is_plain_byte};

use crate::byte_tests::{ByteTest, all_pass};
use std::alloc::{AllocError, Global};
use std::marker::Model;

/// Whether each character of the text may stand in an XML document: all but U+0000 to U+001F without tab, LF and CR,
/// and but U+FFFE and U+FFFF (XML 1.0, section 2.2).
pub fn is_xml_text(text: &str) -> bool
    ensures { result ≡ spec.is_xml_text text.now }
{
    all_pass::<Plain>(text.as_bytes()) || are_xml_chars(text)
}

/// Whether each character is one of XML's, by decoding each.
#[tactic(auto, unfolding(crate::specs::Characters::is_xml_text))]
fn are_xml_chars(text: &str) -> bool
    ensures { result ≡ spec.is_xml_text text.now }
{
    text.chars().all(is_xml_char)
}

/// Whether a byte is an ASCII character from the space on, or tab, LF or CR, as each is in most texts. Such a text needs
/// no decoding: all of these are characters of XML.
struct Plain;

impl ByteTest for Plain {
    ghost passes = { is_plain_byte };

    fn passes(b: u8) -> bool {
        ((b >= b' ') & (b <= 0x7f)) | (b == b'\t') | (b == b'\n') | (b == b'\r')
    }
}

/// The production `Char` of XML 1.0, section 2.2.
fn is_xml_char(c: char) -> bool
    ensures { result ≡ spec.is_xml_char c }
{
    matches!(c, '\t' | '\n' | '\r' | ' '..='\u{D7FF}' | '\u{E000}'..='\u{FFFD}' | '\u{10000}'..='\u{10FFFF}')
}

/// An owned text. Contracts see its bytes, in UTF-8.
#[derive(Debug, Drop)]
pub struct Text {
    text: String,
}

impl Model for Text {
    ghost use Rattle.std.specs.Prelude.{ℕ, List};
    ghost use Rattle.std.specs.String.{string_bytes};

    ghost Value = { List ℕ };

    ghost view = { λ t. string_bytes t.text };
}

impl Text {
    /// A copy of the text. The error is out of memory.
    pub fn new(alloc: Global, text: &str) -> Result<Text, AllocError>
        ensures { IfOk result (λ copy. copy ≡ text.now) }
    {
        Ok(Text {
            text: String::from_str(alloc, text)?,
        })
    }

    /// The text of this string. Allocates nothing.
    pub fn from_string(text: String) -> Text
        ensures { result ≡ string_bytes text }
    {
        Text { text }
    }

    /// The text.
    pub fn as_str(&self) -> &str
        ensures { result.now ≡ self.now }
    {
        self.text.as_str()
    }

    /// A copy of the text. The error is out of memory.
    pub fn copy(&self, alloc: Global) -> Result<Text, AllocError>
        ensures { IfOk result (λ copy. copy ≡ self.now) }
    {
        Text::new(alloc, self.as_str())
    }

    /// The text as a `String`. Allocates nothing.
    pub fn into_string(self) -> String
        ensures { string_bytes result ≡ self }
    {
        let Text { text } = self;
        text
    }
}
