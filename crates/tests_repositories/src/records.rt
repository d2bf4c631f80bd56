//! What a harvester reads of the records in a document: of each its identifier, its datestamp, and
//! whether it is deleted.
use crate::copy_samples::{Told, deleted, live};
use std::panic::Expect;
use std::process::Abort;

/// What stands between the first start and the end behind it.
fn text_in<'a>(rt: &impl Abort, document: &'a str, start: &str, end: &str) -> &'a str {
    let Some((_, rest)) = document.split_once(start) else {
        panic!(rt; "no {start}");
    };
    let Some((text, _)) = rest.split_once(end) else {
        panic!(rt; "no {end}");
    };
    text
}

/// The second of the datestamp, which is of the first minute of 2024.
fn second_in(rt: &impl Abort, record: &str) -> u8 {
    text_in(rt, record, "<datestamp>2024-01-01T00:00:", "Z</datestamp>")
        .parse::<u8>()
        .expect(rt, "a second")
}

/// What is read of the record that stands in front.
fn record_in<'a>(rt: &impl Abort, record: &'a str) -> Told<'a> {
    let identifier = text_in(rt, record, "<identifier>", "</identifier>");
    let second = second_in(rt, record);
    if record.starts_with("<header status=\"deleted\">") {
        deleted(identifier, second)
    } else {
        live(identifier, second)
    }
}

/// Pushes what is read of the records of the document, in their order.
pub(crate) fn push_records<'a>(rt: &impl Abort, document: &'a str, records: &mut Vec<Told<'a>>) {
    for (place, piece) in document.split("<record>").enumerate() {
        if place > 0 {
            records.push(record_in(rt, piece)).expect(rt, "memory");
        }
    }
}
