//! Names and values of a query as texts.
ghost use Rattle.std.specs.Prelude.{◌≡◌, true, IfSome};
ghost use Rattle.oai_names.specs.Characters.{is_xml_text};
ghost use Rattle.oai_args.specs.Pairs.{decoded_text};
ghost use Rattle.oai_args.specs.Steps.{is_unescaped_byte};

use oai_names::{ByteTest, all_pass};
use percent_encoding::ascii_str;

/// The bytes as text if each of them stands for itself, as in most names and values: then nothing has to be decoded,
/// and each character is one of XML's.
pub(crate) fn unescaped_text(bytes: &[u8]) -> Option<&str>
    ensures decoded { IfSome result (λ text. text.now ≡ decoded_text bytes.now) }
    ensures xml { IfSome result (λ text. is_xml_text text.now ≡ true) }
{
    if all_pass::<Unescaped>(bytes) {
        Some(ascii_str(bytes))
    } else {
        None
    }
}

/// Whether a byte is an ASCII character from the comma on. `%` and `+` stand before it, and so do the controls but
/// U+007F.
struct Unescaped;

impl ByteTest for Unescaped {
    ghost passes = { is_unescaped_byte };

    fn passes(b: u8) -> bool {
        (b >= b',') & (b <= 0x7f)
    }
}
