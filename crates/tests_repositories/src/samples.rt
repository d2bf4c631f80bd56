//! What is asked of a repository in these tests.
use oai_deposit::{Change, read_line};
use oai_item::Forms;
use std::alloc::Global;
use std::panic::Expect;
use std::process::Abort;

/// A moment, and a deposit line or the query of a request.
pub(crate) type Asked = (i64, &'static str);

/// The first second of 2024, at which the repositories begin.
pub(crate) const BEGIN: i64 = 1_704_067_200;

/// A second of the next day.
pub(crate) const NEXT_DAY: i64 = 1_704_153_607;

/// The deposit line of the item of that number.
pub(crate) fn deposit(number: u8) -> &'static str {
    match number {
        1 => r#"{"deposit":"oai:x:1","sets":[],"records":{"oai_dc":[["title","One"]]}}"#,
        2 => r#"{"deposit":"oai:x:2","sets":[],"records":{"oai_dc":[["title","Two"]]}}"#,
        _ => r#"{"deposit":"oai:x:3","sets":[],"records":{"oai_dc":[["title","Three"]]}}"#,
    }
}

/// The deposit line that deletes it.
pub(crate) fn deletion(number: u8) -> &'static str {
    match number {
        1 => r#"{"delete":"oai:x:1"}"#,
        2 => r#"{"delete":"oai:x:2"}"#,
        _ => r#"{"delete":"oai:x:3"}"#,
    }
}

/// What asks for its record.
pub(crate) fn record(number: u8) -> &'static str {
    match number {
        1 => "verb=GetRecord&identifier=oai:x:1&metadataPrefix=oai_dc",
        2 => "verb=GetRecord&identifier=oai:x:2&metadataPrefix=oai_dc",
        _ => "verb=GetRecord&identifier=oai:x:3&metadataPrefix=oai_dc",
    }
}

/// What asks for the formats of the first item.
pub(crate) fn formats() -> &'static str {
    "verb=ListMetadataFormats&identifier=oai:x:1"
}

/// What asks for all headers.
pub(crate) fn headers() -> &'static str {
    "verb=ListIdentifiers&metadataPrefix=oai_dc"
}

/// What asks for all records.
pub(crate) fn records() -> &'static str {
    "verb=ListRecords&metadataPrefix=oai_dc"
}

/// What asks for those that come after the first two.
pub(crate) fn next_records() -> &'static str {
    "verb=ListRecords&resumptionToken=1.2"
}

/// The change that the text asks for, where it is a deposit line.
pub(crate) fn change_in(rt: &impl Abort, alloc: Global, text: &str) -> Option<Change> {
    if text.starts_with('{') {
        Some(read_line(alloc, Forms::Fields, text.as_bytes()).expect(rt, "read_line"))
    } else {
        None
    }
}
