ghost use Rattle.std.specs.Prelude.{◌≡◌, map, string_bytes};
ghost use Rattle.oai_json.specs.Json.{has_members_and};
ghost use Rattle.serde_json.specs.View.{view};
ghost use Rattle.oai_names.specs.Optional.{each_of};
ghost use Rattle.oai_config.specs.Shapes as shape;
ghost use Rattle.oai_config.specs.ReadingWork.{GivesView, GivesRead, described_from, rules_from, texts_from};

use crate::faults::ReadFault;
use crate::formats::each_format;
use crate::members::{elements_in, elements_of, read_elements, read_number, read_text, read_texts};
use oai_item::{DeletedRecord, Forms};
use oai_json::{elements_at, has_members_and, text_at};
use oai_names::{Sequence, Text};
use oai_settings::{FormatSettings, Settings};
use oai_time::Granularity;
use oai_xml::{ElementTexts, NamedElements};
use serde_json::Value;
use std::alloc::Global;
use std::collections::BTreeMap;

/// The settings of the repositories below the base, from the member `repositories`.
#[tactic(auto, unfolding(crate::specs::Shapes::repositories_at))]
pub(crate) fn repositories_at(
    alloc: Global,
    forms: Forms,
    base: &str,
    value: &Value,
) -> Result<Sequence<Settings>, ReadFault>
    ensures { GivesRead result (shape.repositories_at forms base.now (view value.now)) }
{
    match elements_at(value, "repositories") {
        Some(values) => each_repository(alloc, forms, base, values),
        None => Err(ReadFault::BadShape),
    }
}

/// The settings of a repository below the base in each value, in order; `BadShape` at the first that has none.
#[tactic(auto, using(oai_json::proofs::ReadingLemmas::starts))]
fn each_repository(
    alloc: Global,
    forms: Forms,
    base: &str,
    values: &[Value],
) -> Result<Sequence<Settings>, ReadFault>
    ensures { GivesRead result (each_of (shape.settings_of forms base.now) (map view values.now)) }
{
    let mut repositories = Vec::new(alloc);
    for value in values {
        repositories.push(settings_of(alloc, forms, base, value)?)?;
    }
    Ok(Sequence::new(repositories))
}

/// The settings of an object with exactly the members of a repository; `BadShape` for any other value.
#[tactic(auto, unfolding(crate::specs::Shapes::settings_of))]
fn settings_of(
    alloc: Global,
    forms: Forms,
    base: &str,
    value: &Value,
) -> Result<Settings, ReadFault>
    ensures { GivesRead result (shape.settings_of forms base.now (view value.now)) }
{
    if !is_repository(forms, value) {
        return Err(ReadFault::BadShape);
    }
    let rules = rules_of(value)?;
    let texts = texts_of(alloc, value)?;
    let formats = formats_at(alloc, forms, value)?;
    let described = described_of(alloc, forms, value)?;
    Ok(Settings {
        base: Text::new(alloc, base)?,
        name: texts.name,
        repository_name: texts.repository_name,
        addresses: texts.addresses,
        earliest: texts.earliest,
        deleted: rules.deleted,
        granularity: rules.granularity,
        chunk: rules.chunk,
        lifetime: rules.lifetime,
        lists: rules.lists,
        items: rules.items,
        formats,
        forms,
        descriptions: described.descriptions,
        set_descriptions: described.set_descriptions,
    })
}

/// The texts of a repository's settings.
#[derive(Drop)]
struct Texts {
    name: Text,
    repository_name: Text,
    addresses: Sequence<Text>,
    earliest: Text,
}

/// The texts of the members of a repository; `BadShape` if one of them is of another kind.
#[tactic(auto, unfolding(crate::specs::ReadingWork::texts_from))]
fn texts_of(alloc: Global, value: &Value) -> Result<Texts, ReadFault>
    ensures { GivesRead result (texts_from (view value.now)) }
{
    Ok(Texts {
        name: read_text(alloc, value, "name")?,
        repository_name: read_text(alloc, value, "repositoryName")?,
        addresses: read_texts(alloc, value, "adminEmail")?,
        earliest: read_text(alloc, value, "earliestDatestamp")?,
    })
}

/// The policy on deleted records, the granularity and the limits in a repository's settings.
#[derive(Clone, Copy)]
struct Rules {
    deleted: DeletedRecord,
    granularity: Granularity,
    chunk: Option<u64>,
    lifetime: Option<u64>,
    lists: Option<u64>,
    items: Option<u64>,
}

/// These, from the members of a repository; `BadShape` if one of them is of another kind.
#[tactic(auto, unfolding(crate::specs::ReadingWork::rules_from))]
fn rules_of(value: &Value) -> Result<Rules, ReadFault>
    ensures { GivesView (λ rules. rules) result (rules_from (view value.now)) }
{
    Ok(Rules {
        deleted: deleted_at(value)?,
        granularity: granularity_at(value)?,
        chunk: read_number(value, "chunk")?,
        lifetime: read_number(value, "lifetime")?,
        lists: read_number(value, "lists")?,
        items: read_number(value, "items")?,
    })
}

/// Whether the value is an object with exactly the members of a repository.
fn is_repository(forms: Forms, value: &Value) -> bool
    ensures { result ≡ shape.is_repository forms (view value.now) }
{
    match forms {
        Forms::Fields => has_members_of(value, &[]),
        Forms::Elements => has_members_of(value, &["description", "sets"]),
    }
}

/// Whether the value is an object with exactly the members that each repository has, and those of the others that it
/// has.
fn has_members_of(value: &Value, others: &[&str]) -> bool
    ensures { result ≡ has_members_and shape.repository_members (map (λ name. name.now) others.now)
        (view value.now) }
{
    has_members_and(
        value,
        &[
            "name",
            "repositoryName",
            "adminEmail",
            "earliestDatestamp",
            "deletedRecord",
            "granularity",
            "chunk",
            "lifetime",
            "lists",
            "items",
            "formats",
        ],
        others,
    )
}

/// The policy on deleted records, from the member `deletedRecord`.
#[tactic(auto, unfolding(crate::specs::Shapes::deleted_at))]
fn deleted_at(value: &Value) -> Result<DeletedRecord, ReadFault>
    ensures { GivesView (λ deleted. deleted) result (shape.deleted_at (view value.now)) }
{
    match text_at(value, "deletedRecord") {
        Some(text) => deleted_of(text),
        None => Err(ReadFault::BadShape),
    }
}

#[tactic(auto, unfolding(crate::specs::Shapes::deleted_of))]
fn deleted_of(text: &str) -> Result<DeletedRecord, ReadFault>
    ensures { GivesView (λ deleted. deleted) result (shape.deleted_of text.now) }
{
    match text {
        "no" => Ok(DeletedRecord::No),
        "transient" => Ok(DeletedRecord::Transient),
        "persistent" => Ok(DeletedRecord::Persistent),
        _ => Err(ReadFault::BadShape),
    }
}

/// The granularity of the datestamps, from the member `granularity`.
#[tactic(auto, unfolding(crate::specs::Shapes::granularity_at))]
fn granularity_at(value: &Value) -> Result<Granularity, ReadFault>
    ensures { GivesView (λ granularity. granularity) result (shape.granularity_at (view value.now)) }
{
    match text_at(value, "granularity") {
        Some(text) => granularity_of(text),
        None => Err(ReadFault::BadShape),
    }
}

#[tactic(auto, unfolding(crate::specs::Shapes::granularity_of))]
fn granularity_of(text: &str) -> Result<Granularity, ReadFault>
    ensures { GivesView (λ granularity. granularity) result (shape.granularity_of text.now) }
{
    match text {
        "days" => Ok(Granularity::Day),
        "seconds" => Ok(Granularity::Second),
        _ => Err(ReadFault::BadShape),
    }
}

/// The formats, from the member `formats`.
#[tactic(auto, unfolding(crate::specs::Shapes::formats_at))]
fn formats_at(
    alloc: Global,
    forms: Forms,
    value: &Value,
) -> Result<Sequence<FormatSettings>, ReadFault>
    ensures { GivesRead result (shape.formats_at forms (view value.now)) }
{
    match elements_at(value, "formats") {
        Some(values) => each_format(alloc, forms, values),
        None => Err(ReadFault::BadShape),
    }
}

/// The elements that describe a repository and its sets.
#[derive(Drop)]
struct Described {
    descriptions: ElementTexts,
    set_descriptions: NamedElements,
}

/// These, from the members that may be missing; `BadShape` if one of them is of another kind, or a text is no element.
#[tactic(auto, unfolding(crate::specs::ReadingWork::described_from))]
fn described_of(alloc: Global, forms: Forms, value: &Value) -> Result<Described, ReadFault>
    ensures { GivesRead result (described_from forms (view value.now)) }
{
    Ok(Described {
        descriptions: descriptions_at(alloc, forms, value)?,
        set_descriptions: set_descriptions_at(alloc, forms, value)?,
    })
}

/// The elements that describe the repository, from the member `description`, if that may be there and is.
#[tactic(auto, unfolding(crate::specs::Shapes::descriptions_at))]
fn descriptions_at(alloc: Global, forms: Forms, value: &Value) -> Result<ElementTexts, ReadFault>
    ensures { GivesRead result (shape.descriptions_at forms (view value.now)) }
{
    match forms {
        Forms::Elements if value.get("description").is_some() => {
            read_elements(alloc, value, "description")
        }
        _ => elements_of(alloc, &[]),
    }
}

/// The elements that describe sets, from the member `sets`, if that may be there and is.
#[tactic(auto, unfolding(crate::specs::Shapes::set_descriptions_at))]
fn set_descriptions_at(
    alloc: Global,
    forms: Forms,
    value: &Value,
) -> Result<NamedElements, ReadFault>
    ensures { GivesRead result (shape.set_descriptions_at forms (view value.now)) }
{
    match value.get("sets") {
        Some(sets) if forms == Forms::Elements => set_descriptions_of(alloc, sets),
        _ => Ok(NamedElements::new(alloc)),
    }
}

/// The elements of the members of an object, each a list under a setSpec; `BadShape` for any other value.
#[tactic(auto, unfolding(crate::specs::Shapes::set_descriptions_of))]
fn set_descriptions_of(alloc: Global, value: &Value) -> Result<NamedElements, ReadFault>
    ensures { GivesRead result (shape.set_descriptions_of (view value.now)) }
{
    match value {
        Value::Object(members) => set_descriptions_in(alloc, members),
        _ => Err(ReadFault::BadShape),
    }
}

/// The elements of each member, in order; `BadShape` at the first that has none.
#[tactic(auto, using(oai_json::proofs::ReadingLemmas::starts), unfolding(crate::specs::Shapes::set_description_of))]
fn set_descriptions_in(
    alloc: Global,
    members: &BTreeMap<String, Value>,
) -> Result<NamedElements, ReadFault>
    ensures { GivesRead result (each_of shape.set_description_of
        (map (λ m. (string_bytes m.0, view m.1)) members.now.entries)) }
{
    let mut lists = NamedElements::new(alloc);
    for (spec, elements) in members.iter() {
        let elements = elements_in(alloc, elements)?;
        lists.push(Text::new(alloc, spec.as_str())?, elements)?;
    }
    Ok(lists)
}
