//! Items as bytes: the spelling of an item, and bytes that are none. The bytes are typed from the description of the spelling, and
//! two bytes `AA` stand behind what is written.
use crate::answers::Answer;
use crate::items::{find_record, item_in, show_item, show_result};
use crate::rows::Row;
use oai_item::{DecodeFault, Item, Spelling};
use std::alloc::{AllocError, Global};
use tests_samples::{STAMP, item};

/// Adds what the row is answered: of an item that is made, or of one that is decoded.
pub(crate) fn answer(alloc: Global, row: &Row<'_>, answer: &mut Answer) {
    match row.call {
        "DecodeFault::NoMemory" => answer.fault(DecodeFault::NoMemory),
        "each-byte-changed" => each_byte_changed(alloc, row.bytes(0), answer),
        "each-front" => each_front(alloc, row.bytes(0), answer),
        "Item::live" => made_answer(alloc, item_in(alloc, row), answer),
        "Item::spelled" => spelled(alloc, row.bytes(0), answer),
        _ => match Item::decode(alloc, row.bytes(0)) {
            Ok(item) => decoded_answer(alloc, row, &item, answer),
            Err(fault) => answer.fault(fault),
        },
    }
}

/// The bytes of the item, and those of a copy.
fn made_answer(alloc: Global, item: Option<Item>, answer: &mut Answer) {
    match item {
        Some(item) => {
            encode(alloc, &item, answer);
            encode_result(alloc, item.copy(alloc), answer);
        }
        None => answer.word("no item"),
    }
}

/// The bytes of the item that is read in place and copied into memory.
fn spelled(alloc: Global, bytes: &[u8], answer: &mut Answer) {
    match Spelling::read(alloc, bytes) {
        Ok(spelling) => encode_result(alloc, Item::spelled(alloc, &spelling), answer),
        Err(fault) => answer.fault(fault),
    }
}

fn decoded_answer(alloc: Global, row: &Row<'_>, item: &Item, answer: &mut Answer) {
    match row.call {
        "Item::decode" => show_item(item, answer),
        "Item::encode_into" => encode(alloc, item, answer),
        "Item::copy" => encode_result(alloc, item.copy(alloc), answer),
        "Item::tombstone" => encode_result(alloc, item.tombstone(alloc, STAMP + 1), answer),
        "Item::fields_in" => find_record(item, row.text(1), answer),
        "Item::has_each_format" => compare_formats(alloc, item, answer),
        _ => answer.word("no such call"),
    }
}

fn encode_result(alloc: Global, item: Result<Item, AllocError>, answer: &mut Answer) {
    match item {
        Ok(item) => encode(alloc, &item, answer),
        Err(_) => answer.out_of_memory(),
    }
}

/// The bytes of the item, and two behind it.
fn encode(alloc: Global, item: &Item, answer: &mut Answer) {
    match encoded(alloc, item) {
        Ok(bytes) => answer.bytes(bytes.as_slice()),
        Err(_) => answer.out_of_memory(),
    }
}

/// The bytes of the item, and two behind it; none of an item that is too large. The error is out of memory.
fn encoded(alloc: Global, item: &Item) -> Result<Vec<u8>, AllocError> {
    match item.encoded_len() {
        Ok(length) => {
            let mut bytes = vec![in alloc; 0xAA; length.saturating_add(2)]?;
            let _ = item.encode_into(bytes.as_mut_slice());
            Ok(bytes)
        }
        Err(_) => Ok(Vec::new(alloc)),
    }
}

/// Whether the item has each format of one in oai_dc alone, and of itself; whether the other has each of the item, and of itself.
fn compare_formats(alloc: Global, both: &Item, answer: &mut Answer) {
    match item(alloc, "oai:a:1", 0, &[], "T") {
        Some(one) => {
            answer.is(both.has_each_format(&one));
            answer.is(both.has_each_format(both));
            answer.is(one.has_each_format(both));
            answer.is(one.has_each_format(&one));
        }
        None => answer.word("no item"),
    }
}

/// Of how many texts with one byte changed the answer is right: an item that is spelled so, or Damaged.
fn each_byte_changed(alloc: Global, bytes: &[u8], answer: &mut Answer) {
    let mut right = 0u32;
    for at in 0..bytes.len() {
        for value in 0..=255u8 {
            if is_right(alloc, bytes, at, value) {
                right = right.wrapping_add(1);
            }
        }
    }
    answer.value(right);
}

fn is_right(alloc: Global, bytes: &[u8], at: usize, value: u8) -> bool {
    let Ok(mut changed) = Vec::from_slice(alloc, bytes) else {
        return false;
    };
    if let Some(byte) = changed.get_mut(at) {
        *byte = value;
    }
    is_one_spelling(alloc, changed.as_slice())
}

/// Whether the bytes are decoded as an item that is spelled so, or Damaged.
fn is_one_spelling(alloc: Global, bytes: &[u8]) -> bool {
    match Item::decode(alloc, bytes) {
        Ok(item) => is_spelled(alloc, &item, bytes),
        Err(fault) => fault == DecodeFault::Damaged,
    }
}

/// Whether the item is spelled so.
fn is_spelled(alloc: Global, item: &Item, bytes: &[u8]) -> bool {
    match encoded(alloc, item) {
        Ok(encoded) => encoded.as_slice().strip_suffix(b"\xAA\xAA") == Some(bytes),
        Err(_) => false,
    }
}

/// How many fronts of the bytes, without their whole, are Damaged.
fn each_front(alloc: Global, bytes: &[u8], answer: &mut Answer) {
    let mut damaged = 0u32;
    for length in 0..bytes.len() {
        if Item::decode(alloc, &bytes[..length]).err() == Some(DecodeFault::Damaged) {
            damaged = damaged.wrapping_add(1);
        }
    }
    answer.value(damaged);
}
