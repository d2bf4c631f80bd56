//! Items that are made of their parts: copies, what is left of a deleted one, the length when stored, and their order. An item is
//! shown as its identifier, its datestamp, whether it is live, its sets, and each record with its fields.
use crate::answers::Answer;
use crate::rows::Row;
use oai_item::{Fault, Fields, Item, ItemRecords, TooLarge, is_in};
use oai_names::SetSpec;
use std::alloc::{AllocError, Global};
use std::cmp::Ordering;
use tests_samples::{STAMP, title_field};

/// Adds what the row is answered, of the item `oai:a:1` in the sets and with the title of the row.
pub(crate) fn answer(alloc: Global, row: &Row<'_>, answer: &mut Answer) {
    match row.call {
        "Field::copy" => copy_field(alloc, row.text(0), answer),
        "Fault" => answer.fault(fault_named(row.text(0))),
        "TooLarge" => answer.fault(TooLarge),
        _ => match item_in(alloc, row) {
            Some(item) => item_answer(alloc, row, &item, answer),
            None => answer.word("no item"),
        },
    }
}

/// The item in the sets of the first argument, which have spaces between, with the title of the second; none where one is no
/// setSpec, or memory is refused.
pub(crate) fn item_in(alloc: Global, row: &Row<'_>) -> Option<Item> {
    let mut specs = Vec::new(alloc);
    for spec in row.text(0).split(' ') {
        if !spec.is_empty() {
            specs.push(spec).ok()?;
        }
    }
    tests_samples::item(alloc, "oai:a:1", 0, specs.as_slice(), row.text(1))
}

fn item_answer(alloc: Global, row: &Row<'_>, item: &Item, answer: &mut Answer) {
    match row.call {
        "Item::live" => show_item(item, answer),
        "Item::copy" => show_result(item.copy(alloc), answer),
        "Item::tombstone" => show_result(item.tombstone(alloc, STAMP + 1), answer),
        "Item::fields_in" => find_record(item, row.text(2), answer),
        "fields-of-tombstone" => find_left(alloc, item, row.text(2), answer),
        "Item::encoded_len" => length(item, answer),
        "Item::order" => order(alloc, item, answer),
        "Item::order_to" => answer.word(word_of(item.order_to(STAMP, row.text(2)))),
        "is_in" => find_set(alloc, item, row.text(2), answer),
        _ => answer.word("no such call"),
    }
}

/// The item that was made.
pub(crate) fn show_result(made: Result<Item, AllocError>, answer: &mut Answer) {
    match made {
        Ok(item) => show_item(&item, answer),
        Err(_) => answer.out_of_memory(),
    }
}

/// The item: its identifier, its datestamp, whether it is live, each set, each record, and its length when stored.
pub(crate) fn show_item(item: &Item, answer: &mut Answer) {
    answer.text(item.identifier().as_str());
    answer.value(item.stamp());
    answer.word(if item.is_live() { "live" } else { "deleted" });
    for set in item.sets() {
        answer.word("in");
        answer.text(set.as_str());
    }
    show_records(item.formats(), answer);
    length(item, answer);
}

fn show_records(mut records: ItemRecords<'_>, answer: &mut Answer) {
    for _ in 0..records.len() {
        if let Some(record) = records.next() {
            answer.word("record");
            answer.text(record.prefix);
            show_fields(record.fields, answer);
        }
    }
    if !records.is_empty() {
        answer.word("more records");
    }
}

/// The name and the text of each field.
fn show_fields(mut fields: Fields<'_>, answer: &mut Answer) {
    for _ in 0..fields.len() {
        if let Some(field) = fields.next() {
            answer.text(field.name);
            answer.text(field.text);
        }
    }
    if !fields.is_empty() {
        answer.word("more fields");
    }
}

/// Whether the item has a record of that prefix, how many fields it has, and these.
pub(crate) fn find_record(item: &Item, prefix: &str, answer: &mut Answer) {
    answer.is(item.has_record(prefix));
    match item.fields_in(prefix) {
        Some(fields) => {
            answer.value(fields.len());
            show_fields(fields, answer);
        }
        None => answer.word("-"),
    }
}

/// The record of that prefix of what is left of the item a second later.
fn find_left(alloc: Global, item: &Item, prefix: &str, answer: &mut Answer) {
    match item.tombstone(alloc, STAMP + 1) {
        Ok(left) => find_record(&left, prefix, answer),
        Err(_) => answer.out_of_memory(),
    }
}

/// How many bytes the item is when stored.
fn length(item: &Item, answer: &mut Answer) {
    match item.encoded_len() {
        Ok(length) => {
            answer.word("bytes");
            answer.value(length);
        }
        Err(fault) => answer.fault(fault),
    }
}

/// How the item stands to what is left of it a second later.
fn order(alloc: Global, item: &Item, answer: &mut Answer) {
    match item.tombstone(alloc, STAMP + 1) {
        Ok(later) => answer.word(word_of(item.order(&later))),
        Err(_) => answer.out_of_memory(),
    }
}

/// What the order is called.
pub(crate) fn word_of(order: Ordering) -> &'static str {
    match order {
        Ordering::Less => "less",
        Ordering::Equal => "equal",
        Ordering::Greater => "greater",
    }
}

/// Whether the item is in the set.
fn find_set(alloc: Global, item: &Item, set: &str, answer: &mut Answer) {
    match SetSpec::read(alloc, set) {
        Ok(set) => answer.is(is_in(&set, item.sets())),
        Err(fault) => answer.fault(fault),
    }
}

/// A copy of the field `title` of that text.
fn copy_field(alloc: Global, text: &str, answer: &mut Answer) {
    let Some(field) = title_field(alloc, text) else {
        return answer.out_of_memory();
    };
    match field.copy(alloc) {
        Ok(copy) => {
            answer.text(copy.name.as_str());
            answer.text(copy.text.as_str());
        }
        Err(_) => answer.out_of_memory(),
    }
}

fn fault_named(name: &str) -> Fault {
    match name {
        "Device" => Fault::Device,
        "Damaged" => Fault::Damaged,
        "TooManyPages" => Fault::TooManyPages,
        _ => Fault::NoMemory,
    }
}
