ghost use Rattle.serde_json.specs.View.{view};
ghost use Rattle.oai_config.specs.Shapes as shape;
ghost use Rattle.oai_config.specs.ReadingWork.{GivesRead, GivesView, IsJsonText};
ghost use Rattle.oai_config.specs.Written.{ConfigShapeLaw};

use crate::faults::ReadFault;
use crate::members::read_number;
use crate::repositories::repositories_at;
use oai_item::{Forms, is_short_text};
use oai_json::{has_members, read_json, text_at};
use oai_names::Sequence;
use oai_settings::Settings;
use serde_json::Value;
use std::alloc::Global;

/// The settings of a host, not yet validated.
#[derive(Drop)]
pub(crate) struct HostSettings {
    /// The capacity of the cache in pages: 1 to 65,536. None if the given number does not fit 64 bits, is not whole, or
    /// is negative.
    pub cache: Option<u64>,
    /// The settings of each repository, in the order of the text: 1 to 1,000 of them.
    pub repositories: Sequence<Settings>,
}

/// The law of the shape: the settings of a host, with records of each of the forms, are parsed from exactly the JSON
/// objects that are written for them, on some base. A theorem, proved by an empty function.
pub fn shape_law()
    ensures { ConfigShapeLaw }
{}

/// The settings in the text. The errors: `BadJson` if it is no JSON text, `BadShape` if that does not have the shape of
/// a configuration.
pub(crate) fn told_in(alloc: Global, forms: Forms, text: &[u8]) -> Result<HostSettings, ReadFault>
    ensures { IsJsonText forms text.now result }
{
    match read_json(alloc, text)? {
        Some(value) => told_of(alloc, forms, &value),
        None => Err(ReadFault::BadJson),
    }
}

/// The settings of an object with exactly the members of a configuration; `BadShape` for any other value.
#[tactic(auto, unfolding(crate::specs::Shapes::told_of))]
fn told_of(alloc: Global, forms: Forms, value: &Value) -> Result<HostSettings, ReadFault>
    ensures { GivesRead result (shape.told_of forms (view value.now)) }
{
    if !has_members(value, &["base", "cache", "repositories"]) {
        return Err(ReadFault::BadShape);
    }
    let base = base_at(value)?;
    Ok(HostSettings {
        cache: read_number(value, "cache")?,
        repositories: repositories_at(alloc, forms, base, value)?,
    })
}

/// The base, from the member `base`: it is tested before it is copied for each repository.
#[tactic(auto, unfolding(crate::specs::Shapes::base_at))]
fn base_at(value: &Value) -> Result<&str, ReadFault>
    ensures { GivesView (λ base. base.now) result (shape.base_at (view value.now)) }
{
    match text_at(value, "base") {
        Some(base) if is_short_text(base) => Ok(base),
        _ => Err(ReadFault::BadShape),
    }
}
