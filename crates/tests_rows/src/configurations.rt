//! What texts are configurations of a host, and what a configuration is warned of.
ghost use Rattle.std.specs.Prelude.{◌≡◌, ◌⊎◌, codes, IfOk};
ghost use Rattle.oai_config.specs.Causes.{applies};
ghost use Rattle.oai_config.specs.Reading.{IsLowest, read_fault_text};
ghost use Rattle.oai_config.specs.declared.faults.ReadFault.{ReadFault};

use crate::answers::Answer;
use crate::rows::Row;
use oai_config::{Config, ReadFault, write_warnings};
use oai_item::Forms;
use oai_names::Text;
use oai_settings::RepoConfig;
use std::alloc::{AllocError, Global};
use tests_fixtures::worked_configuration;

/// Adds what the row is answered: of a text, or of the worked configuration with changes.
pub(crate) fn answer(alloc: Global, row: &Row<'_>, answer: &mut Answer) {
    match row.call {
        "Config::read" => read(alloc, Forms::Fields, row.bytes(0), answer),
        "ReadFault" => show_fault(row.text(0), answer),
        _ => match worked_with(alloc, row) {
            Ok(Some(text)) => changed_answer(alloc, row.call, text.as_bytes(), answer),
            Ok(None) => answer.word("nothing to change"),
            Err(_) => answer.out_of_memory(),
        },
    }
}

/// The worked configuration, with each change made: the text behind ` -> ` in each place of that before it; none where that stands
/// nowhere. The error is out of memory.
fn worked_with(alloc: Global, row: &Row<'_>) -> Result<Option<String>, AllocError> {
    let mut text = String::from_str(alloc, worked_configuration())?;
    for at in 0..row.len() {
        let change = row.text(at);
        if !change.is_empty() {
            let (old, new) = change.split_once(" -> ").unwrap_or(("", ""));
            if old.is_empty() || !text.contains(old) {
                return Ok(None);
            }
            text = text.replace(alloc, old, new)?;
        }
    }
    Ok(Some(text))
}

fn changed_answer(alloc: Global, call: &str, text: &[u8], answer: &mut Answer) {
    match call {
        "changed" => read(alloc, Forms::Fields, text, answer),
        "with-elements" => read(alloc, Forms::Elements, text, answer),
        "Config::len" => counts(alloc, text, answer),
        "Config::repositories" => repositories(alloc, text, answer),
        "RepoConfig" => first_repository(alloc, text, answer),
        "descriptions" => descriptions(alloc, text, answer),
        "set-descriptions" => set_descriptions(alloc, text, answer),
        "write_warnings" => warnings(alloc, text, answer),
        _ => answer.word("no such call"),
    }
}

/// `ok`, or the number and the name of the lowest fault of the text, of records of these forms. The error is out of memory.
fn answer_to(alloc: Global, forms: Forms, text: &[u8]) -> Result<&'static str, AllocError>
    ensures { IfOk result (λ answer. (answer.now ≡ codes "ok") ⊎ ((fault : ReadFault)
        × IsLowest (λ cause. applies forms cause text.now) fault × (answer.now ≡ read_fault_text fault))) }
{
    match Config::read(alloc, forms, text) {
        Ok(_) => Ok("ok"),
        Err(ReadFault::NoMemory) => Err(AllocError),
        Err(fault) => Ok(fault.answer()),
    }
}

fn read(alloc: Global, forms: Forms, text: &[u8], answer: &mut Answer) {
    match answer_to(alloc, forms, text) {
        Ok(word) => answer.word(word),
        Err(_) => answer.out_of_memory(),
    }
}

/// The number, the answer and the text of the fault of that name.
fn show_fault(name: &str, answer: &mut Answer) {
    let fault = fault_named(name);
    answer.value(fault.number());
    answer.word(fault.answer());
    answer.value(fault);
}

fn fault_named(name: &str) -> ReadFault {
    match name {
        "BadJson" => ReadFault::BadJson,
        "BadShape" => ReadFault::BadShape,
        "BadName" => ReadFault::BadName,
        "DuplicateName" => ReadFault::DuplicateName,
        "BadFormat" => ReadFault::BadFormat,
        "BadDate" => ReadFault::BadDate,
        "BadNumber" => ReadFault::BadNumber,
        "TooMany" => ReadFault::TooMany,
        _ => ReadFault::NoMemory,
    }
}

/// How many repositories there are, and how many pages the cache holds.
fn counts(alloc: Global, text: &[u8], answer: &mut Answer) {
    match Config::read(alloc, Forms::Fields, text) {
        Ok(config) => {
            answer.value(config.len());
            answer.value(config.cache());
        }
        Err(fault) => answer.fault(fault),
    }
}

/// The name and the base URL of each repository.
fn repositories(alloc: Global, text: &[u8], answer: &mut Answer) {
    match Config::read(alloc, Forms::Fields, text) {
        Ok(config) => {
            for named in config.into_repositories().as_slice() {
                answer.text(named.name.as_str());
                answer.text(named.config.base());
            }
        }
        Err(fault) => answer.fault(fault),
    }
}

/// The settings of the first repository.
fn first_repository(alloc: Global, text: &[u8], answer: &mut Answer) {
    match Config::read(alloc, Forms::Fields, text) {
        Ok(config) => {
            if let Some(first) = config.repositories().first() {
                show_settings(&first.config, answer);
            }
        }
        Err(fault) => answer.fault(fault),
    }
}

fn show_settings(config: &RepoConfig, answer: &mut Answer) {
    answer.text(config.repository_name());
    answer.value(config.earliest());
    answer.value(config.chunk());
    answer.value(config.lifetime());
    answer.value(config.lists());
    answer.value(config.items());
    answer.value(config.formats().len());
}

/// The elements that describe the first repository, or `none`.
fn descriptions(alloc: Global, text: &[u8], answer: &mut Answer) {
    match Config::read(alloc, Forms::Elements, text) {
        Ok(config) => {
            if let Some(first) = config.repositories().first() {
                show_elements(first.config.descriptions(), answer);
            }
        }
        Err(fault) => answer.fault(fault),
    }
}

/// The elements that describe the set x of the first repository, or `none`.
fn set_descriptions(alloc: Global, text: &[u8], answer: &mut Answer) {
    match Config::read(alloc, Forms::Elements, text) {
        Ok(config) => {
            if let Some(first) = config.repositories().first() {
                show_elements(first.config.set_descriptions().find("x"), answer);
            }
        }
        Err(fault) => answer.fault(fault),
    }
}

fn show_elements(elements: &[Text], answer: &mut Answer) {
    if elements.is_empty() {
        answer.word("none");
    }
    for element in elements {
        answer.text(element.as_str());
    }
}

/// What the configuration is warned of, each behind a line end.
fn warnings(alloc: Global, text: &[u8], answer: &mut Answer) {
    match Config::read(alloc, Forms::Fields, text) {
        Ok(config) => {
            let mut warnings = String::new(alloc);
            match write_warnings(&config, &mut warnings) {
                Ok(()) => answer.text(warnings.as_str()),
                Err(_) => answer.out_of_memory(),
            }
        }
        Err(fault) => answer.fault(fault),
    }
}
