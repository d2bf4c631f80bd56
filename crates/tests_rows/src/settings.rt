//! What settings make the configuration of a repository, and why others make none.
use crate::answers::Answer;
use crate::rows::Row;
use oai_item::{DeletedRecord, Format};
use oai_settings::{ConfigFault, RepoConfig};
use oai_time::Granularity;
use std::alloc::Global;
use tests_fixtures::{Told, archive_a, archive_b, settings_of};

/// Adds what the row is answered: of the settings of Archive B, or of Archive A, with changes.
pub(crate) fn answer(alloc: Global, row: &Row<'_>, answer: &mut Answer) {
    match row.call {
        "RepoConfig::new" => made(alloc, changed(archive_b(), row), answer),
        "archive-a" => show_made(alloc, changed(archive_a(), row), answer),
        "RepoConfig::base" => show_base(alloc, changed(archive_b(), row), answer),
        "ConfigFault" => show_fault(row.text(0), answer),
        _ => answer.word("no such call"),
    }
}

/// The settings with each change made: the name of one and, behind a `=`, its value.
fn changed<'a>(told: Told<'a>, row: &'a Row<'_>) -> Told<'a> {
    let mut told = told;
    for at in 0..row.len() {
        let (name, value) = row.text(at).split_once('=').unwrap_or(("", ""));
        told = changed_text(told, name, value);
        told = changed_number(told, name, value);
    }
    told
}

fn changed_text<'a>(told: Told<'a>, name: &str, value: &'a str) -> Told<'a> {
    let mut told = told;
    match name {
        "base" => told.base = value,
        "name" => told.name = value,
        "repositoryName" => told.repository_name = value,
        "adminEmail" => told.address = value,
        "earliestDatestamp" => told.earliest = value,
        "prefixes" => told.prefixes = Some(value),
        _ => {}
    }
    told
}

fn changed_number<'a>(told: Told<'a>, name: &str, value: &str) -> Told<'a> {
    let mut told = told;
    let number = value.parse::<u64>().ok();
    match name {
        "adminEmails" => told.addresses = value.parse::<usize>().unwrap_or(0),
        "granularity" => told.granularity = Granularity::Second,
        "chunk" => told.chunk = number,
        "lifetime" => told.lifetime = number,
        "lists" => told.lists = number,
        "items" => told.items = number,
        _ => {}
    }
    told
}

/// The configuration of these settings, or why they make none.
fn config_of(alloc: Global, told: Told<'_>) -> Result<RepoConfig, ConfigFault> {
    match settings_of(alloc, told) {
        Ok(settings) => RepoConfig::new(alloc, settings),
        Err(_) => Err(ConfigFault::NoMemory),
    }
}

/// `ok`, or the fault.
fn made(alloc: Global, told: Told<'_>, answer: &mut Answer) {
    match config_of(alloc, told) {
        Ok(_) => answer.word("ok"),
        Err(fault) => answer.value(fault),
    }
}

/// The base URL.
fn show_base(alloc: Global, told: Told<'_>, answer: &mut Answer) {
    match config_of(alloc, told) {
        Ok(config) => answer.text(config.base()),
        Err(fault) => answer.value(fault),
    }
}

/// All parts of the configuration.
fn show_made(alloc: Global, told: Told<'_>, answer: &mut Answer) {
    match config_of(alloc, told) {
        Ok(config) => {
            show_texts(&config, answer);
            show_numbers(&config, answer);
            if let Some(format) = config.formats().get(1) {
                show_format(format, answer);
            }
        }
        Err(fault) => answer.value(fault),
    }
}

fn show_texts(config: &RepoConfig, answer: &mut Answer) {
    answer.text(config.base());
    answer.text(config.repository_name());
    for address in config.addresses() {
        answer.text(address.as_str());
    }
    answer.word(match config.deleted() {
        DeletedRecord::No => "no",
        DeletedRecord::Transient => "transient",
        DeletedRecord::Persistent => "persistent",
    });
    answer.word(match config.granularity() {
        Granularity::Day => "days",
        Granularity::Second => "seconds",
    });
}

fn show_numbers(config: &RepoConfig, answer: &mut Answer) {
    answer.value(config.earliest());
    answer.value(config.chunk());
    answer.value(config.lifetime());
    answer.value(config.lists());
    answer.value(config.items());
    answer.value(config.formats().len());
}

/// The parts of a format.
pub(crate) fn show_format(format: &Format, answer: &mut Answer) {
    answer.text(format.prefix.as_str());
    answer.text(format.schema.as_str());
    answer.text(format.namespace.as_str());
    answer.text(format.root.as_str());
    for field in format.fields.as_slice() {
        answer.text(field.as_str());
    }
}

/// The answer and the text of the fault of that name.
fn show_fault(name: &str, answer: &mut Answer) {
    let fault = match name {
        "BadShape" => ConfigFault::BadShape,
        "BadName" => ConfigFault::BadName,
        "BadFormat" => ConfigFault::BadFormat,
        "BadDate" => ConfigFault::BadDate,
        "BadNumber" => ConfigFault::BadNumber,
        _ => ConfigFault::NoMemory,
    };
    answer.word(fault.answer());
    answer.value(fault);
}
