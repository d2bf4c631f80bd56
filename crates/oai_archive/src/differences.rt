//! What two configurations of one archive must have in common.
use crate::stop::{Aspect, Difference, ServerStop};
use oai_config::{Config, NamedConfig};
use oai_settings::RepoConfig;
use std::alloc::Global;

/// Whether an archive with the one configuration may continue with the other, as far as the two show it: the other has a
/// repository with the name of each of the first, with its granularity, earliestDatestamp and deletedRecord. The error
/// is the first difference in the order of the first's repositories; or out of memory.
pub fn check_differences(alloc: Global, old: &Config, new: &Config) -> Result<(), ServerStop> {
    for repository in old.repositories() {
        if let Some(aspect) = difference(repository, new.repositories()) {
            return Err(ServerStop::OtherConfig(Difference {
                repository: String::from_str(alloc, repository.name.as_str())?,
                aspect,
            }));
        }
    }
    Ok(())
}

/// The first aspect in which the repository has no match among the others.
fn difference(repository: &NamedConfig, others: &[NamedConfig]) -> Option<Aspect> {
    let name = repository.name.as_str();
    match others.iter().find(|other| other.name.as_str() == name) {
        Some(other) => difference_of(&repository.config, &other.config),
        None => Some(Aspect::Name),
    }
}

/// The first aspect in which they differ, of those that may not change.
fn difference_of(one: &RepoConfig, other: &RepoConfig) -> Option<Aspect> {
    if one.granularity() != other.granularity() {
        return Some(Aspect::Granularity);
    }
    if one.earliest() != other.earliest() {
        return Some(Aspect::Earliest);
    }
    if one.deleted() != other.deleted() {
        return Some(Aspect::Deleted);
    }
    None
}
