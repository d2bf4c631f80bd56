ghost use Rattle.std.specs.Prelude.{◌≡◌, Bool, None, if◌then◌else◌, IfOk};
ghost use Rattle.oai_item.specs.Rules.{has_repeat};
ghost use Rattle.oai_settings.specs.Settings.{passes_number};
ghost use Rattle.oai_config.specs.declared.faults.ReadFault.{ReadFault};
ghost use Rattle.oai_config.specs.Configs as rule;
ghost use Rattle.oai_config.specs.Causes as spec;
ghost use Rattle.oai_config.specs.ReadingWork.{AreMade, HasSettingsOr, IsLowestOf, IsWhole, lower};

use crate::config::NamedConfig;
use crate::faults::ReadFault;
use oai_names::Sequence;
use oai_settings::{RepoConfig, Settings};
use std::alloc::{AllocError, Global};
use std::collections::BTreeSet;

/// The maximum number of pages in the cache.
const MAX_CACHE: u64 = 65_536;

/// The maximum number of repositories.
const MAX_REPOSITORIES: usize = 1_000;

/// The pages of the cache, if there is no fault in the whole; otherwise the lowest fault that is in the whole and in no
/// repository alone.
#[tactic(auto, unfolding(crate::specs::ReadingWork::first_together))]
pub(crate) fn check_together(
    alloc: Global,
    cache: Option<u64>,
    repositories: &[Settings],
) -> Result<Result<u64, ReadFault>, AllocError>
    ensures { IfOk result (IsWhole cache repositories.now) }
{
    if repositories.is_empty() {
        return Ok(Err(ReadFault::BadShape));
    }
    if has_repeat(alloc, repositories)? {
        return Ok(Err(ReadFault::DuplicateName));
    }
    let Some(pages) = pages_of(cache) else {
        return Ok(Err(ReadFault::BadNumber));
    };
    if MAX_REPOSITORIES < repositories.len() {
        return Ok(Err(ReadFault::TooMany));
    }
    Ok(Ok(pages))
}

/// Whether a name occurs twice. The error is out of memory.
fn has_repeat(alloc: Global, repositories: &[Settings]) -> Result<bool, AllocError>
    ensures { IfOk result (λ repeat. repeat ≡ has_repeat (spec.names_told repositories.now)) }
{
    let mut seen = BTreeSet::new(alloc);
    for settings in repositories {
        if !seen.insert(settings.name.as_str())? {
            return Ok(true);
        }
    }
    Ok(false)
}

/// The number of pages, if the cache may have that many.
fn pages_of(cache: Option<u64>) -> Option<u64>
    ensures { result ≡ (if passes_number rule.is_cache cache then cache else None) }
{
    match cache {
        Some(pages) if 1 <= pages && pages <= MAX_CACHE => Some(pages),
        _ => None,
    }
}

/// The repositories, in order; or the lowest of the fault that was found and of those in any repository.
pub(crate) fn each_named(
    alloc: Global,
    found: Option<ReadFault>,
    repositories: Sequence<Settings>,
) -> Result<Sequence<NamedConfig>, ReadFault>
    ensures { (causes : ReadFault → Bool) → IsLowestOf causes found
        → AreMade causes repositories result }
{
    let mut lowest = found;
    let mut entries = Vec::new(alloc);
    for settings in repositories.into_vec() {
        match named_of(alloc, settings) {
            Ok(one) => entries.push(one)?,
            Err(fault) if fault == ReadFault::NoMemory => return Err(fault),
            Err(fault) => lowest = Some(lower(lowest, fault)),
        }
    }
    match lowest {
        None => Ok(Sequence::new(entries)),
        Some(fault) => Err(fault),
    }
}

/// The one with the lower number.
fn lower(lowest: Option<ReadFault>, fault: ReadFault) -> ReadFault
    ensures { result ≡ lower lowest fault }
{
    match lowest {
        Some(lowest) if lowest.number() <= fault.number() => lowest,
        _ => fault,
    }
}

/// The repository of these settings, or their lowest fault.
fn named_of(alloc: Global, settings: Settings) -> Result<NamedConfig, ReadFault>
    ensures { HasSettingsOr settings result }
{
    let name = settings.name.copy(alloc)?;
    let config = RepoConfig::new(alloc, settings)?;
    Ok(NamedConfig { name, config })
}
