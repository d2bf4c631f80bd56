ghost use Rattle.std.specs.Prelude.{◌≡◌};
ghost use Rattle.std.specs.List.{list_all};
ghost use Rattle.std.specs.Str.{IsUtf8};
ghost use Rattle.oai_item.specs.ShortTexts as short;
ghost use Rattle.oai_settings.specs.Config as rule;
ghost use Rattle.oai_settings.specs.Settings as spec;

use oai_item::{DeletedRecord, Forms, is_short_text};
use oai_names::{Sequence, Text};
use oai_time::Granularity;
use oai_xml::{ElementTexts, NamedElements};
use std::alloc::AllocError;
use std::error::Error;
use std::fmt;

/// The maximum length of a repository's name in its base URL, in bytes.
const MAX_NAME_BYTES: usize = 32;

/// The maximum number of addresses of administrators.
const MAX_ADDRESSES: usize = 16;

/// The settings of a metadata format (OAI-PMH 2.0, section 3.4), not yet validated.
#[derive(Debug, Drop)]
pub struct FormatSettings {
    /// The metadataPrefix.
    pub prefix: Text,
    /// The URL of the XML schema.
    pub schema: Text,
    /// The XML namespace.
    pub namespace: Text,
    /// The name of the element that holds the fields.
    pub root: Text,
    /// The names of the fields that a record may have; none, if its records are elements.
    pub fields: Sequence<Text>,
}

/// The settings of a repository, not yet validated. A number is None if the given one does not fit 64 bits, is not
/// whole, or is negative.
#[derive(Debug, Drop)]
pub struct Settings {
    /// The start of the base URLs of all repositories: 1 to 512 bytes.
    pub base: Text,
    /// The repository's name in its base URL: 1 to 32 of `a` to `z`, `0` to `9` and `-`.
    pub name: Text,
    /// The repositoryName: 1 to 512 bytes.
    pub repository_name: Text,
    /// The addresses of the administrators: 1 to 16, of 1 to 512 bytes each.
    pub addresses: Sequence<Text>,
    /// The earliestDatestamp: `YYYY-MM-DD` if the granularity is days, `YYYY-MM-DDThh:mm:ssZ` if it is seconds, in the
    /// years 0001 to 9998.
    pub earliest: Text,
    /// The policy on deleted records.
    pub deleted: DeletedRecord,
    /// The granularity of the datestamps.
    pub granularity: Granularity,
    /// Records in a part of a list: 1 to 1,000.
    pub chunk: Option<u64>,
    /// Seconds that a list stays open after each of its parts: 1 to 31,536,000.
    pub lifetime: Option<u64>,
    /// Lists that are open at once: 1 to 10,000.
    pub lists: Option<u64>,
    /// Items, including deleted ones: 1 to 1,000,000.
    pub items: Option<u64>,
    /// The metadata formats besides oai_dc: at most 63.
    pub formats: Sequence<FormatSettings>,
    /// Which forms records may have. With `Fields` each format has fields.
    pub forms: Forms,
    /// The elements that describe the repository (OAI-PMH 2.0, section 4.2, `description`).
    pub descriptions: ElementTexts,
    /// The elements that describe sets, each list under a setSpec (OAI-PMH 2.0, section 4.6, `setDescription`).
    pub set_descriptions: NamedElements,
}

/// Why settings make no configuration, in the order in which the causes are tested; `NoMemory` may come as soon as the
/// name is tested.
#[derive(Clone, Copy, Debug, PartialEq, Eq)]
pub enum ConfigFault {
    /// The base, the repositoryName or an address does not have 1 to 512 bytes, or has a character that no XML document
    /// may hold (XML 1.0, section 2.2); or there is no address, or more than 16. Number 2.
    BadShape,
    /// The name in the base URL is not 1 to 32 of `a` to `z`, `0` to `9` and `-`. Number 3.
    BadName,
    /// A format's prefix does not have the syntax of a metadataPrefix and at most 64 bytes, or the format violates a
    /// rule that `FormatFault` names; or a prefix occurs twice or is oai_dc; or there are more than 63 formats; or records
    /// are lists of fields alone, and a format has none. Number 5.
    BadFormat,
    /// The earliestDatestamp is not written at exactly the granularity, is no date that exists, or is not in the years
    /// 0001 to 9998. Number 6.
    BadDate,
    /// A limit is None, or out of its range. Number 7.
    BadNumber,
    /// Out of memory: a format or the base URL could not be stored. Number 9.
    NoMemory,
}

impl ConfigFault {
    /// The fault's number and name, such as `2 BadShape`.
    pub fn answer(self) -> &'static str
        ensures { result.now ≡ spec.fault_text self }
    {
        match self {
            ConfigFault::BadShape => "2 BadShape",
            ConfigFault::BadName => "3 BadName",
            ConfigFault::BadFormat => "5 BadFormat",
            ConfigFault::BadDate => "6 BadDate",
            ConfigFault::BadNumber => "7 BadNumber",
            ConfigFault::NoMemory => "9 NoMemory",
        }
    }
}

impl fmt::Display for ConfigFault {
    ghost use Rattle.std.specs.Prelude.{Some};
    ghost use Rattle.oai_settings.specs.Settings.{fault_text};

    ghost output = { λ fault. Some (fault_text fault) };

    fn fmt<W: fmt::Write>(&self, f: &mut fmt::Formatter<W>) -> fmt::Result {
        write!(f, "{}", self.answer())
    }
}

impl Error for ConfigFault {}

impl From<AllocError> for ConfigFault {
    ghost use Rattle.std.specs.Prelude.{◌≡◌};
    ghost use Rattle.oai_settings.specs.declared.settings.ConfigFault.TheVariants.{NoMemory};

    ghost from_gives = { λ _ e. e ≡ NoMemory };

    fn from(_refused: AllocError) -> ConfigFault {
        ConfigFault::NoMemory
    }
}

/// Whether the base, the repositoryName and the addresses are valid.
pub(crate) fn has_shape(settings: &Settings) -> bool
    ensures shape { result ≡ spec.has_shape settings.now }
    ensures base_is_text { IsUtf8 settings.now.base }
{
    is_short_text(settings.base.as_str())
        && is_described(
            settings.repository_name.as_str(),
            settings.addresses.as_slice(),
        )
}

/// Whether the repositoryName and the addresses are valid.
#[tactic(auto, unfolding(crate::specs::Config::is_described))]
fn is_described(name: &str, addresses: &[Text]) -> bool
    ensures { result ≡ rule.is_described name.now addresses.now }
{
    is_short_text(name)
        && 1 <= addresses.len()
        && addresses.len() <= MAX_ADDRESSES
        && are_short_texts(addresses)
}

fn are_short_texts(texts: &[Text]) -> bool
    ensures { result ≡ list_all short.is_short_text texts.now }
{
    texts.iter().all(|text| is_short_text(text.as_str()))
}

/// Whether each format has fields, if records are lists of fields alone.
pub(crate) fn have_forms(forms: Forms, formats: &[FormatSettings]) -> bool
    ensures { result ≡ spec.have_forms forms formats.now }
{
    match forms {
        Forms::Fields => have_fields(formats),
        Forms::Elements => true,
    }
}

fn have_fields(formats: &[FormatSettings]) -> bool
    ensures { result ≡ list_all spec.has_fields formats.now }
{
    formats.iter().all(|format| !format.fields.is_empty())
}

/// Whether the text may be a repository's name in its base URL.
#[tactic(auto, unfolding(crate::specs::Config::is_repository_name))]
pub(crate) fn is_repository_name(name: &str) -> bool
    ensures { result ≡ rule.is_repository_name name.now }
{
    1 <= name.len() && name.len() <= MAX_NAME_BYTES && are_repository_bytes(name)
}

fn are_repository_bytes(name: &str) -> bool
    ensures { result ≡ list_all rule.is_repository_byte name.now }
{
    name.bytes().all(is_repository_byte)
}

fn is_repository_byte(byte: u8) -> bool
    ensures { result ≡ rule.is_repository_byte byte }
{
    byte.is_ascii_lowercase() || byte.is_ascii_digit() || byte == b'-'
}
