ghost use Rattle.std.specs.Prelude.{◌≡◌, length};
ghost use Rattle.oai_config.specs.Configs.{AreNamed, IsHostConfig, repository_names};
ghost use Rattle.oai_config.specs.Reading.{IsRead};
ghost use Rattle.oai_config.specs.ReadingWork.{IsMade};

use crate::causes::{check_together, each_named};
use crate::faults::ReadFault;
use crate::host_settings::{HostSettings, told_in};
use oai_item::Forms;
use oai_names::{Sequence, Text};
use oai_settings::RepoConfig;
use std::alloc::Global;
use std::marker::Model;

/// The configuration of one of the repositories of a host.
#[derive(Debug, Drop)]
pub struct NamedConfig {
    /// The repository's name in its base URL, and in the paths of requests and deposits.
    pub name: Text,
    /// Its configuration.
    pub config: RepoConfig,
}

impl Model for NamedConfig {
    ghost use Rattle.oai_config.specs.Configs.{NamedConfig};

    ghost Value = { NamedConfig };

    ghost view = { λ h. record { name = h.name; config = h.config } };
}

/// The configuration of a host: the capacity of its cache, 1 to 65,536 pages, and 1 to 1,000 repositories with distinct
/// names.
#[derive(Debug, Drop)]
pub struct Config {
    cache: u64,
    repositories: Sequence<NamedConfig>,
}

impl Model for Config {
    ghost use Rattle.oai_config.specs.Configs.{HostConfig, IsHostConfig};

    ghost Value = { HostConfig };

    ghost use Rattle.oai_config.specs.ConfigInside.{host_config_in};

    ghost view = { host_config_in };

    ghost invariant = { λ c. IsHostConfig (host_config_in c) };
}

impl Config {
    /// Parses the configuration, a JSON object (RFC 8259) with exactly its members, of repositories whose records have
    /// these forms: with `Elements` a format may have no member `fields`. The error is the lowest of the
    /// faults 1 to 8 that apply anywhere in the text; or it is `NoMemory`, which may come in place of any other, but
    /// not for a text that is empty or not in UTF-8. Of two members with one name the last counts.
    #[tactic(auto, unfolding(crate::specs::Shapes::told_in))]
    pub fn read(alloc: Global, forms: Forms, text: &[u8]) -> Result<Config, ReadFault>
        ensures { IsRead forms text.now result }
    {
        let told = told_in(alloc, forms, text)?;
        Config::of(alloc, told)
    }

    /// The configuration of these settings.
    fn of(alloc: Global, told: HostSettings) -> Result<Config, ReadFault>
        ensures { IsMade told result }
    {
        let HostSettings {
            cache,
            repositories,
        } = told;
        let cache = check_together(alloc, cache, repositories.as_slice())?;
        let repositories = each_named(alloc, cache.err(), repositories)?;
        Ok(Config {
            cache: cache?,
            repositories,
        })
    }

    /// How many repositories there are: 1 to 1,000.
    pub fn len(&self) -> usize
        ensures number { result ≡ length self.now.repositories }
        ensures valid { IsHostConfig self.now }
    {
        self.repositories.as_slice().len()
    }

    /// The capacity of the cache in pages: 1 to 65,536.
    pub fn cache(&self) -> u64
        ensures number { result ≡ self.now.cache }
        ensures valid { IsHostConfig self.now }
    {
        self.cache
    }

    /// The repositories, in the order of the text.
    pub fn repositories(&self) -> &[NamedConfig]
        ensures { result.now ≡ self.now.repositories }
    {
        self.repositories.as_slice()
    }

    /// The repositories, in the order of the text. Allocates nothing.
    pub fn into_repositories(self) -> Sequence<NamedConfig>
        ensures repositories { result ≡ self.repositories }
        ensures named { AreNamed (repository_names self.repositories) }
        ensures valid { IsHostConfig self }
    {
        let Config { repositories, .. } = self;
        repositories
    }
}
