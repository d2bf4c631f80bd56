mod parts;

ghost use Rattle.std.specs.Prelude.{◌≡◌};
ghost use Rattle.oai_time.specs.Stamp.{IsWritable};
ghost use Rattle.oai_settings.specs.Config.{IsConfig};
ghost use Rattle.oai_settings.specs.Settings.{IsConfigured};

use crate::settings::{ConfigFault, Settings};
use oai_item::{DeletedRecord, Formats, Forms};
use oai_names::{Sequence, Text};
use oai_time::Granularity;
use oai_xml::{ElementTexts, NamedElements};
use parts::{Limits, made_of};
use std::alloc::Global;
use std::marker::Model;

/// The configuration of a repository. It satisfies the rules of its settings: its name, addresses and earliest
/// datestamp, its limits, and the characters of its base URL.
#[derive(Debug, Drop)]
pub struct RepoConfig {
    base: Text,
    repository_name: Text,
    addresses: Sequence<Text>,
    earliest: i64,
    deleted: DeletedRecord,
    granularity: Granularity,
    limits: Limits,
    formats: Formats,
    forms: Forms,
    descriptions: ElementTexts,
    set_descriptions: NamedElements,
}

impl Model for RepoConfig {
    ghost use Rattle.oai_settings.specs.Config.{IsConfig, RepositoryConfig};

    ghost Value = { RepositoryConfig };

    ghost use Rattle.oai_settings.specs.ConfigInside.{config_in};

    ghost view = { config_in };

    ghost invariant = { λ c. IsConfig (config_in c) };
}

impl RepoConfig {
    /// The configuration of these settings: the base URL is the base, `/oai/` and the name. The errors, in this order:
    /// `BadShape`, `BadName`, `BadFormat`, `BadDate`, `BadNumber`; and `NoMemory`, which may come in place of any but
    /// the first two: these are tested before anything is allocated. Of the texts only the prefixes of the formats are
    /// copied, and the base if its buffer has no capacity for the name.
    pub fn new(alloc: Global, mut settings: Settings) -> Result<RepoConfig, ConfigFault>
        ensures { IsConfigured settings result }
    {
        let made = made_of(alloc, &mut settings)?;
        Ok(RepoConfig {
            base: made.base,
            repository_name: settings.repository_name,
            addresses: settings.addresses,
            earliest: made.earliest,
            deleted: settings.deleted,
            granularity: settings.granularity,
            limits: made.limits,
            formats: made.formats,
            forms: settings.forms,
            descriptions: settings.descriptions,
            set_descriptions: settings.set_descriptions,
        })
    }

    /// The base URL: its characters may stand in an XML document.
    pub fn base(&self) -> &str
        ensures base { result.now ≡ self.now.base }
        ensures valid { IsConfig self.now }
    {
        self.base.as_str()
    }

    /// The repositoryName: 1 to 512 bytes.
    pub fn repository_name(&self) -> &str
        ensures name { result.now ≡ self.now.repository_name }
        ensures valid { IsConfig self.now }
    {
        self.repository_name.as_str()
    }

    /// The addresses of the administrators: 1 to 16, of 1 to 512 bytes each.
    pub fn addresses(&self) -> &[Text]
        ensures addresses { result.now ≡ self.now.addresses }
        ensures valid { IsConfig self.now }
    {
        self.addresses.as_slice()
    }

    /// The earliestDatestamp, in seconds from 1970 on, in the years 0001 to 9998, and a midnight if the granularity is
    /// days.
    #[tactic(auto, unfolding(crate::specs::Config::is_date))]
    pub fn earliest(&self) -> i64
        ensures earliest { result ≡ self.now.earliest }
        ensures in_range { IsWritable self.now.earliest }
        ensures valid { IsConfig self.now }
    {
        self.earliest
    }

    /// The policy on deleted records.
    pub fn deleted(&self) -> DeletedRecord
        ensures { result ≡ self.now.deleted }
    {
        self.deleted
    }

    /// The granularity of the datestamps.
    pub fn granularity(&self) -> Granularity
        ensures { result ≡ self.now.granularity }
    {
        self.granularity
    }

    /// Records in a part of a list: 1 to 1,000.
    pub fn chunk(&self) -> u64
        ensures chunk { result ≡ self.now.chunk }
        ensures valid { IsConfig self.now }
    {
        self.limits.chunk
    }

    /// Seconds that a list stays open after each of its parts: 1 to 31,536,000.
    pub fn lifetime(&self) -> u64
        ensures lifetime { result ≡ self.now.lifetime }
        ensures valid { IsConfig self.now }
    {
        self.limits.lifetime
    }

    /// Lists that are open at once: 1 to 10,000.
    pub fn lists(&self) -> u64
        ensures lists { result ≡ self.now.lists }
        ensures valid { IsConfig self.now }
    {
        self.limits.lists
    }

    /// Items, including deleted ones: 1 to 1,000,000.
    pub fn items(&self) -> u64
        ensures items { result ≡ self.now.items }
        ensures valid { IsConfig self.now }
    {
        self.limits.items
    }

    /// Which forms records may have.
    pub fn forms(&self) -> Forms
        ensures { result ≡ self.now.forms }
    {
        self.forms
    }

    /// The canonical texts of the elements that describe the repository.
    pub fn descriptions(&self) -> &[Text]
        ensures descriptions { result.now ≡ self.now.descriptions }
        ensures valid { IsConfig self.now }
    {
        self.descriptions.as_slice()
    }

    /// The canonical texts of the elements that describe sets, each list under a setSpec.
    pub fn set_descriptions(&self) -> &NamedElements
        ensures descriptions { result.now ≡ self.now.set_descriptions }
        ensures valid { IsConfig self.now }
    {
        &self.set_descriptions
    }

    /// The metadata formats, oai_dc first.
    pub fn formats(&self) -> &Formats
        ensures { result.now ≡ self.now.formats }
    {
        &self.formats
    }
}
