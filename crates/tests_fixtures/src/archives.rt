//! The repositories that tests speak of, each by its settings.
use oai_item::{DeletedRecord, Forms};
use oai_names::{Sequence, Text};
use oai_settings::{FormatSettings, Settings};
use oai_time::Granularity;
use oai_xml::{ElementTexts, NamedElements};
use std::alloc::{AllocError, Global};

/// The settings of a repository.
#[derive(Clone, Copy)]
pub struct Told<'a> {
    /// What the base URL begins with.
    pub base: &'a str,
    /// The name in the base URL.
    pub name: &'a str,
    /// The name for people.
    pub repository_name: &'a str,
    /// An address of those who keep it.
    pub address: &'a str,
    /// How often that address is given.
    pub addresses: usize,
    /// The earliest datestamp, as a text.
    pub earliest: &'a str,
    /// What is kept of deleted records.
    pub deleted: DeletedRecord,
    /// Days or seconds.
    pub granularity: Granularity,
    /// The most records of a part of a list; none where what is given is no whole number of 64 bits.
    pub chunk: Option<u64>,
    /// For how many seconds a list is open; none where what is given is no whole number of 64 bits.
    pub lifetime: Option<u64>,
    /// How many lists may be open; none where what is given is no whole number of 64 bits.
    pub lists: Option<u64>,
    /// How many items there may be; none where what is given is no whole number of 64 bits.
    pub items: Option<u64>,
    /// The prefixes of its formats of journals, with commas between; none where it has no such format.
    pub prefixes: Option<&'a str>,
}

/// Archive A: seconds, everything kept of deleted records, the format of journals.
pub fn archive_a() -> Told<'static> {
    Told {
        name: "a",
        repository_name: "Archive A",
        address: "a@host.example",
        earliest: "2024-01-01T00:00:00Z",
        deleted: DeletedRecord::Persistent,
        granularity: Granularity::Second,
        prefixes: Some("jnl"),
        ..archive_b()
    }
}

/// Archive B: days, nothing kept of deleted records, oai_dc alone.
pub fn archive_b() -> Told<'static> {
    Told {
        base: "http://host.example",
        name: "b",
        repository_name: "Archive B",
        address: "b@host.example",
        addresses: 1,
        earliest: "2024-01-01",
        deleted: DeletedRecord::No,
        granularity: Granularity::Day,
        chunk: Some(2),
        lifetime: Some(60),
        lists: Some(1),
        items: Some(1_000),
        prefixes: None,
    }
}

/// Archive C: seconds, deleted records until they are purged, oai_dc alone, and at most two items.
pub fn archive_c() -> Told<'static> {
    Told {
        name: "c",
        repository_name: "Archive C",
        address: "c@host.example",
        earliest: "2024-01-01T00:00:00Z",
        deleted: DeletedRecord::Transient,
        granularity: Granularity::Second,
        items: Some(2),
        ..archive_b()
    }
}

/// The described settings, as a value of `oai_settings`, of records that are lists of fields.
pub fn settings_of(alloc: Global, told: Told<'_>) -> Result<Settings, AllocError> {
    Ok(Settings {
        base: Text::new(alloc, told.base)?,
        name: Text::new(alloc, told.name)?,
        repository_name: Text::new(alloc, told.repository_name)?,
        addresses: repeated(alloc, told.address, told.addresses)?,
        earliest: Text::new(alloc, told.earliest)?,
        deleted: told.deleted,
        granularity: told.granularity,
        chunk: told.chunk,
        lifetime: told.lifetime,
        lists: told.lists,
        items: told.items,
        forms: Forms::Fields,
        descriptions: no_elements(alloc)?,
        set_descriptions: NamedElements::new(alloc),
        formats: journals(alloc, told.prefixes)?,
    })
}

/// No elements.
fn no_elements(alloc: Global) -> Result<ElementTexts, AllocError> {
    match ElementTexts::read(alloc, &[]) {
        Ok(elements) => Ok(elements),
        Err(_) => Err(AllocError),
    }
}

/// The text, so often.
fn repeated(alloc: Global, text: &str, times: usize) -> Result<Sequence<Text>, AllocError> {
    let mut texts = Vec::new(alloc);
    for _ in 0..times {
        texts.push(Text::new(alloc, text)?)?;
    }
    Ok(Sequence::new(texts))
}

/// The formats of journals under these prefixes.
fn journals(alloc: Global, prefixes: Option<&str>) -> Result<Sequence<FormatSettings>, AllocError> {
    let mut formats = Vec::new(alloc);
    if let Some(prefixes) = prefixes {
        for prefix in prefixes.split(',') {
            formats.push(journal(alloc, prefix)?)?;
        }
    }
    Ok(Sequence::new(formats))
}

/// The format of journals, under this prefix.
fn journal(alloc: Global, prefix: &str) -> Result<FormatSettings, AllocError> {
    Ok(FormatSettings {
        prefix: Text::new(alloc, prefix)?,
        schema: Text::new(alloc, "http://host.example/jnl.xsd")?,
        namespace: Text::new(alloc, "http://host.example/jnl/")?,
        root: Text::new(alloc, "article")?,
        fields: journal_fields(alloc)?,
    })
}

fn journal_fields(alloc: Global) -> Result<Sequence<Text>, AllocError> {
    let mut fields = Vec::new(alloc);
    fields.push(Text::new(alloc, "volume")?)?;
    fields.push(Text::new(alloc, "pages")?)?;
    Ok(Sequence::new(fields))
}
