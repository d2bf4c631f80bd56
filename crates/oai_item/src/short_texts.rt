ghost use Rattle.std.specs.Prelude.{◌≡◌};
ghost use Rattle.oai_item.specs.ShortTexts.{is_short_text};

use oai_names::is_xml_text;

/// The maximum length in bytes of a short text, such as a repository's name, address or URL: this repository's own
/// limit.
pub const MAX_SHORT_TEXT_BYTES: usize = 512;

/// Whether the text has 1 to 512 bytes, of characters that an XML document may hold (XML 1.0, section 2.2). Allocates
/// nothing.
#[tactic(auto, unfolding(crate::specs::ShortTexts::is_short_text))]
pub fn is_short_text(text: &str) -> bool
    ensures { result ≡ is_short_text text.now }
{
    !text.is_empty() && text.len() <= MAX_SHORT_TEXT_BYTES && is_xml_text(text)
}
