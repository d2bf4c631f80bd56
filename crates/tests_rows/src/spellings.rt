//! Items that are read in place: what the bytes of a spelling answer, and bytes that spell none.
use crate::answers::Answer;
use crate::items::word_of;
use crate::rows::Row;
use oai_item::{
    DecodeFault, Item, SpelledFields, SpelledRecords, SpelledSets, Spelling, is_spelling,
};
use oai_names::SetSpec;
use std::alloc::Global;

/// Adds what the row is answered.
pub(crate) fn answer(alloc: Global, row: &Row<'_>, answer: &mut Answer) {
    match row.call {
        "is_spelling" => known(alloc, row.bytes(0), answer),
        "damaged" => damaged(alloc, row.bytes(0), answer),
        "counted" => counted(alloc, row.bytes(0), answer),
        "each-byte-changed" => each_byte_changed(alloc, row.bytes(0), answer),
        "each-front" => each_front(alloc, row.bytes(0), answer),
        _ => match Spelling::read(alloc, row.bytes(0)) {
            Ok(item) => item_answer(alloc, row, &item, answer),
            Err(fault) => answer.fault(fault),
        },
    }
}

fn item_answer(alloc: Global, row: &Row<'_>, item: &Spelling<'_>, answer: &mut Answer) {
    match row.call {
        "Spelling::read" => show_spelling(item, answer),
        "Spelling::bytes" => answer.bytes(item.bytes()),
        "Spelling::has_record" => answer.is(item.has_record(row.text(1))),
        "Spelling::is_in" => find_set(alloc, item, row.text(1), answer),
        "Spelling::passes" => passes(alloc, row, item, answer),
        "Spelling::order" => order(alloc, item, row.bytes(1), answer),
        "Spelling::order_to" => {
            let stamp = row.number(1).unwrap_or(0);
            answer.word(word_of(item.order_to(stamp, row.text(2))));
        }
        "copies" => show_copies(item, answer),
        _ => answer.word("no such call"),
    }
}

/// The item: its identifier, its datestamp, whether it is live, each set, and each record with its fields.
fn show_spelling(item: &Spelling<'_>, answer: &mut Answer) {
    answer.text(item.identifier());
    answer.value(item.stamp());
    answer.word(if item.is_live() { "live" } else { "deleted" });
    show_sets(item.sets(), answer);
    show_records(item.records(), answer);
}

fn show_sets(mut sets: SpelledSets<'_>, answer: &mut Answer) {
    answer.value(sets.len());
    for _ in 0..sets.len() {
        answer.text_or_none(sets.next());
    }
    answer.is(sets.next().is_some());
}

fn show_records(mut records: SpelledRecords<'_>, answer: &mut Answer) {
    answer.value(records.len());
    for _ in 0..records.len() {
        if let Some(record) = records.next() {
            answer.word("record");
            answer.text(record.prefix);
            show_fields(record.fields, answer);
        }
    }
    answer.is(!records.is_empty() || records.next().is_some());
}

fn show_fields(mut fields: SpelledFields<'_>, answer: &mut Answer) {
    answer.value(fields.len());
    for _ in 0..fields.len() {
        if let Some(field) = fields.next() {
            answer.text(field.name);
            answer.text(field.text);
        }
    }
    answer.is(!fields.is_empty());
}

/// Behind the first set and the first record, copies of what is left of the sets and of the records, and then these.
fn show_copies(item: &Spelling<'_>, answer: &mut Answer) {
    let mut sets = item.sets();
    answer.text_or_none(sets.next());
    show_sets(sets.copy(), answer);
    show_sets(sets, answer);
    let mut records = item.records();
    let _first = records.next();
    show_records(records.copy(), answer);
    answer.value(records.len());
}

fn find_set(alloc: Global, item: &Spelling<'_>, set: &str, answer: &mut Answer) {
    match SetSpec::read(alloc, set) {
        Ok(set) => answer.is(item.is_in(&set)),
        Err(fault) => answer.fault(fault),
    }
}

/// Whether the item passes for the prefix, the bounds and the set of the row; no set where there is none.
fn passes(alloc: Global, row: &Row<'_>, item: &Spelling<'_>, answer: &mut Answer) {
    let lower = row.number(2).unwrap_or(0);
    let upper = row.number(3).unwrap_or(0);
    let set = SetSpec::read(alloc, row.text(4)).ok();
    answer.is(item.passes(row.text(1), lower, upper, &set));
}

fn order(alloc: Global, item: &Spelling<'_>, bytes: &[u8], answer: &mut Answer) {
    match Spelling::read(alloc, bytes) {
        Ok(other) => answer.word(word_of(item.order(&other))),
        Err(fault) => answer.fault(fault),
    }
}

/// The identifier of the item that the bytes are known to spell.
fn known(alloc: Global, bytes: &[u8], answer: &mut Answer) {
    match is_spelling(alloc, bytes) {
        Ok(true) => answer.text(Spelling::new(bytes).identifier()),
        Ok(false) => answer.word("-"),
        Err(_) => answer.out_of_memory(),
    }
}

/// Whether the bytes spell an item, and why they are neither read in place nor decoded.
fn damaged(alloc: Global, bytes: &[u8], answer: &mut Answer) {
    known(alloc, bytes, answer);
    match Spelling::read(alloc, bytes) {
        Ok(_) => answer.word("read"),
        Err(fault) => answer.fault(fault),
    }
    match Item::decode(alloc, bytes) {
        Ok(_) => answer.word("decoded"),
        Err(fault) => answer.fault(fault),
    }
}

/// Of an item in many sets in how many it is read in place; and decoded, with its identifier, its datestamp and whether it is live.
fn counted(alloc: Global, bytes: &[u8], answer: &mut Answer) {
    match Spelling::read(alloc, bytes) {
        Ok(item) => answer.value(item.sets().len()),
        Err(fault) => answer.fault(fault),
    }
    match Item::decode(alloc, bytes) {
        Ok(item) => {
            answer.value(item.sets().len());
            answer.text(item.identifier().as_str());
            answer.value(item.stamp());
            answer.is(item.is_live());
        }
        Err(fault) => answer.fault(fault),
    }
}

/// Of how many texts with one byte changed it is true that they are read in place just where they are decoded.
fn each_byte_changed(alloc: Global, bytes: &[u8], answer: &mut Answer) {
    let mut right = 0u32;
    for at in 0..bytes.len() {
        for value in 0..=255u8 {
            if is_right(alloc, bytes, at, value) {
                right = right.wrapping_add(1);
            }
        }
    }
    answer.value(right);
}

fn is_right(alloc: Global, bytes: &[u8], at: usize, value: u8) -> bool {
    let Ok(mut changed) = Vec::from_slice(alloc, bytes) else {
        return false;
    };
    if let Some(byte) = changed.get_mut(at) {
        *byte = value;
    }
    let decoded = Item::decode(alloc, changed.as_slice()).is_ok();
    is_spelling(alloc, changed.as_slice()) == Ok(decoded)
}

/// How many fronts of the bytes, without their whole, neither spell an item nor are decoded.
fn each_front(alloc: Global, bytes: &[u8], answer: &mut Answer) {
    let mut damaged = 0u32;
    for length in 0..bytes.len() {
        if is_damaged(alloc, &bytes[..length]) {
            damaged = damaged.wrapping_add(1);
        }
    }
    answer.value(damaged);
}

fn is_damaged(alloc: Global, bytes: &[u8]) -> bool {
    let damaged = Some(DecodeFault::Damaged);
    is_spelling(alloc, bytes) == Ok(false)
        && Spelling::read(alloc, bytes).err() == damaged
        && Item::decode(alloc, bytes).err() == damaged
}
