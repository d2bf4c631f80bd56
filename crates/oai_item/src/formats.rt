mod checks;

ghost use Rattle.std.specs.Prelude.{◌≡◌, [], ◌∷◌, true, length, map, IfOk, IfSome, OnOk, slice_get};
ghost use Rattle.std.specs.Option.{option_copied};
ghost use Rattle.oai_names.specs.Names.{may_be_prefix};
ghost use Rattle.oai_item.specs.Formats.{AreRepositoryFormats, are_formats_prefixed, dublin_core, format_named};
ghost use Rattle.oai_item.specs.Declaring.{IsDeclaring};

use checks::check;
use oai_names::{NameFault, Prefix, Sequence, Text};
use std::alloc::{AllocError, Global};
use std::marker::Model;
use thiserror::Error;

/// The prefix of the format that every repository has.
const DUBLIN_CORE: &str = "oai_dc";

/// The elements of Dublin Core (DCES 1.1), all optional and repeatable.
const ELEMENTS: [&str; 15] = [
    "title",
    "creator",
    "subject",
    "description",
    "publisher",
    "contributor",
    "date",
    "type",
    "format",
    "identifier",
    "source",
    "language",
    "relation",
    "coverage",
    "rights",
];

/// A metadata format (OAI-PMH 2.0, section 3.4).
#[derive(Debug, Drop)]
pub struct Format {
    /// The metadataPrefix.
    pub prefix: Prefix,
    /// The URL of the XML schema.
    pub schema: Text,
    /// The XML namespace.
    pub namespace: Text,
    /// The name of the element that holds the fields.
    pub root: Text,
    /// The names of the fields that a record may have; none, if its records are elements.
    pub fields: Sequence<Text>,
}

/// The metadata formats of a repository: oai_dc, then the declared ones in order of declaration. There are at most 64,
/// with distinct prefixes, and each declared one satisfies the rules that `FormatFault` names.
#[derive(Debug, Drop)]
pub struct Formats {
    formats: Vec<Format>,
}

/// Why a format was not declared, in the order in which the causes are tested. Only `NoMemory` may come earlier, in
/// place of `FieldTwice` and of `TooMany`.
#[derive(Clone, Copy, Debug, PartialEq, Eq, Error)]
pub enum FormatFault {
    /// A format with that prefix exists, as oai_dc always does.
    #[error("a format of that prefix stands already")]
    Duplicate,
    /// The root, or a field, is not an ASCII letter or `_` followed by letters, digits, `-`, `_` and
    /// `.` (XML 1.0, section 2.3, `Name` in ASCII and without colons), or has more than 64 bytes.
    #[error("the name of an element is of illegal syntax or too long")]
    BadName,
    /// The schema or the namespace does not have 1 to 512 bytes, or has a character that no document may hold (XML 1.0,
    /// section 2.2), or a space, tab, LF or CR.
    #[error("a URI is empty, too long or of illegal characters")]
    BadUri,
    /// The name of a field occurs twice.
    #[error("a field stands twice")]
    FieldTwice,
    /// There are 64 formats already, including oai_dc; or the format has more than 256 fields.
    #[error("too many formats, or too many fields")]
    TooMany,
    /// Out of memory: the format could not be stored, or not be tested.
    #[error("out of memory")]
    NoMemory,
}

impl Model for Formats {
    ghost use Rattle.std.specs.Prelude.{List};
    ghost use Rattle.oai_item.specs.declared.formats.Format.{Format};

    ghost Value = { List Format };

    ghost use Rattle.oai_item.specs.Formats.{AreFormats};

    ghost view = { λ f. f.formats.items };

    ghost invariant = { λ f. AreFormats f.formats.items };
}

impl Formats {
    /// The formats of a repository that declares none: oai_dc alone. The error is out of memory.
    #[tactic(auto, using(crate::proofs::FormatLemmas::prefixed_dc))]
    pub fn dc(alloc: Global) -> Result<Formats, AllocError>
        ensures { IfOk result (λ formats. formats ≡ dublin_core ∷ []) }
    {
        let mut formats = Vec::new(alloc);
        formats.push(dublin_core(alloc)?)?;
        Ok(Formats { formats })
    }

    /// Adds the format at the end. On an error the formats are unchanged. The error is the first cause that applies, in
    /// the order of `FormatFault`; `NoMemory` may come in place of `FieldTwice`, of `TooMany`, or while the format is
    /// stored. O(n log n) for n fields.
    pub fn declare(&mut self, format: Format) -> Result<(), FormatFault>
        ensures { IsDeclaring self.old format result self.new }
    {
        add(&mut self.formats, format)
    }

    /// The format with that prefix, or None.
    pub fn find(&self, prefix: &Prefix) -> Option<&Format>
        ensures { option_copied result ≡ format_named prefix.now self.now }
    {
        self.find_named(prefix.as_str())
    }

    /// The format whose prefix is that text, or None.
    pub fn find_named(&self, prefix: &str) -> Option<&Format>
        ensures found { option_copied result ≡ format_named prefix.now self.now }
        ensures prefix { IfSome (option_copied result) (λ format. format.prefix ≡ prefix.now) }
        ensures valid { AreRepositoryFormats self.now }
    {
        format_named(prefix, self.formats.as_slice())
    }

    /// The format at that position, counted from 0, or None past the last.
    pub fn get(&self, at: usize) -> Option<&Format>
        ensures { option_copied result ≡ slice_get self.now at }
    {
        self.formats.get(at)
    }

    /// The formats in order, oai_dc first.
    pub fn as_slice(&self) -> &[Format]
        ensures { result.now ≡ self.now }
    {
        self.formats.as_slice()
    }

    /// How many formats there are.
    pub fn len(&self) -> usize
        ensures count { result ≡ length self.now }
        ensures valid { AreRepositoryFormats self.now }
    {
        self.formats.len()
    }

    /// The law of the prefixes: the prefix of each format is valid. It reads no format.
    pub(crate) fn prefix_law(&self)
        ensures { are_formats_prefixed self.now ≡ true }
    {
        let _ = self.formats.as_slice();
    }
}

/// Adds the format at the end, if it may be declared beside the others.
#[tactic(auto, using(crate::proofs::Declarations::good_texts))]
fn add(formats: &mut Vec<Format>, format: Format) -> Result<(), FormatFault>
    ensures declared { IsDeclaring formats.old.items format result formats.new.items }
    ensures prefix { OnOk result (may_be_prefix format.prefix ≡ true) }
{
    check(*formats.allocator(), formats.as_slice(), &format)?;
    match formats.push(format) {
        Ok(()) => Ok(()),
        Err(_) => Err(FormatFault::NoMemory),
    }
}

/// The format with that prefix among these.
#[tactic(auto, unfolding(crate::specs::Formats::format_named))]
fn format_named<'a>(prefix: &str, formats: &'a [Format]) -> Option<&'a Format>
    ensures { option_copied result ≡ format_named prefix.now formats.now }
{
    formats
        .iter()
        .find(|format| format.prefix.as_str() == prefix)
}

/// The format oai_dc.
#[tactic(auto, unfolding(crate::specs::Formats::dublin_core))]
fn dublin_core(alloc: Global) -> Result<Format, AllocError>
    ensures { IfOk result (λ format. format ≡ dublin_core) }
{
    Ok(Format {
        prefix: dublin_core_prefix(alloc)?,
        schema: Text::new(alloc, "http://www.openarchives.org/OAI/2.0/oai_dc.xsd")?,
        namespace: Text::new(alloc, "http://www.openarchives.org/OAI/2.0/oai_dc/")?,
        root: Text::new(alloc, "oai_dc:dc")?,
        fields: texts(alloc, &ELEMENTS)?,
    })
}

/// Its prefix.
#[tactic(auto, unfolding(oai_names::specs::Names::is_prefix))]
fn dublin_core_prefix(alloc: Global) -> Result<Prefix, AllocError>
    ensures { IfOk result (λ prefix. prefix ≡ DUBLIN_CORE.now) }
{
    match Prefix::read(alloc, DUBLIN_CORE) {
        Ok(prefix) => Ok(prefix),
        Err(NameFault::NoMemory) => Err(AllocError),
        Err(NameFault::Syntax) => unreachable!(),
        Err(NameFault::TooLong) => unreachable!(),
    }
}

/// Copies of the names.
fn texts(alloc: Global, names: &[&str]) -> Result<Sequence<Text>, AllocError>
    ensures { IfOk result (λ texts. texts ≡ map (λ name. name.now) names.now) }
{
    let mut texts = Vec::new(alloc);
    for name in names {
        texts.push(Text::new(alloc, name)?)?;
    }
    Ok(Sequence::new(texts))
}
