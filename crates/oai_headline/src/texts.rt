//! The texts that every accepted configuration has.
ghost use Rattle.std.specs.Prelude.{◌≡◌, true};
ghost use Rattle.std.specs.List.{All};
ghost use Rattle.oai_documents.specs.Texts.{is_legal_config};
ghost use Rattle.oai_headline.specs.XmlAnswers.{HasLegalTexts, HasUtf8Texts, HaveTexts, IsUtf8Text};

use oai_config::{Config, NamedConfig};
use oai_item::Format;
use oai_names::Text;
use oai_settings::RepoConfig;

/// The texts of a configuration are UTF-8, of characters that XML allows, as [`documents_law`](crate::documents_law)
/// requires. It iterates over them, since that a text is UTF-8 is known of its type, and returns nothing.
pub fn texts_law(config: Config)
    ensures { HaveTexts config }
{
    let repositories = config.into_repositories();
    have_texts(repositories.as_slice());
}

fn have_texts(entries: &[NamedConfig])
    ensures { All HasLegalTexts entries.now }
{
    for entry in entries {
        has_texts(entry);
    }
}

fn has_texts(entry: &NamedConfig)
    ensures { HasLegalTexts entry.now }
{
    is_legal(&entry.config);
}

fn is_legal(config: &RepoConfig)
    ensures { is_legal_config config.now ≡ true }
{
    let _count = config.formats().len();
    let base = config.base();
    let name = config.repository_name();
    is_text(base);
    is_text(name);
    are_texts(config.addresses());
    are_formats(config.formats().as_slice());
}

fn are_texts(texts: &[Text])
    ensures { All IsUtf8Text texts.now }
{
    for text in texts {
        is_text(text.as_str());
    }
}

fn are_formats(formats: &[Format])
    ensures { All HasUtf8Texts formats.now }
{
    for format in formats {
        is_format(format);
    }
}

fn is_format(format: &Format)
    ensures { HasUtf8Texts format.now }
{
    let _prefix = format.prefix.as_str();
    is_text(format.schema.as_str());
    is_text(format.namespace.as_str());
}

fn is_text(text: &str)
    ensures { IsUtf8Text text.now }
{}
