//! The bytes of items, put together as the description of an item's spelling has it, and not by the program.
use crate::samples::Sample;
use oai_item::Item;
use std::alloc::{AllocError, Global};
use tests_samples::STAMP;

/// Adds a length in four bytes.
pub(crate) fn push_count(bytes: &mut Vec<u8>, count: usize) -> Result<(), AllocError> {
    let count = u32::try_from(count).unwrap_or(u32::MAX);
    bytes.extend_from_slice(&count.to_be_bytes())
}

/// Adds a text behind its length.
pub(crate) fn push_text(bytes: &mut Vec<u8>, text: &[u8]) -> Result<(), AllocError> {
    push_count(bytes, text.len())?;
    bytes.extend_from_slice(text)
}

/// The identifier of six digits behind `oai:a:`.
fn push_identifier(alloc: Global, bytes: &mut Vec<u8>, number: u32) -> Result<(), AllocError> {
    let digits = number.saturating_add(100_000);
    let text = format!(in alloc; "oai:a:{digits}")?;
    push_text(bytes, text.as_bytes())
}

/// The sets, behind the eighty others, where the item is wide.
fn push_sets(alloc: Global, bytes: &mut Vec<u8>, sample: Sample) -> Result<(), AllocError> {
    let others = if sample.wide { 80u32 } else { 0 };
    let own = usize::from(sample.in_set) + usize::from(sample.in_other);
    push_count(bytes, own + others as usize)?;
    push_other_sets(alloc, bytes, others)?;
    push_text_if(bytes, sample.in_set, b"x:y")?;
    push_text_if(bytes, sample.in_other, b"x:z")
}

fn push_other_sets(alloc: Global, bytes: &mut Vec<u8>, others: u32) -> Result<(), AllocError> {
    for other in 0..others {
        let set = format!(in alloc; "s:{}", other.saturating_add(100))?;
        push_text(bytes, set.as_bytes())?;
    }
    Ok(())
}

fn push_text_if(bytes: &mut Vec<u8>, is_there: bool, text: &[u8]) -> Result<(), AllocError> {
    if is_there {
        push_text(bytes, text)
    } else {
        Ok(())
    }
}

/// A record in `abc`, with a title of 700 letters.
fn push_long_record(bytes: &mut Vec<u8>) -> Result<(), AllocError> {
    push_text(bytes, b"abc")?;
    push_count(bytes, 1)?;
    push_text(bytes, b"title")?;
    let size = bytes.len().saturating_add(704);
    push_letters(bytes, b'l', size)
}

/// A record in `jnl`, without a field.
fn push_journal(bytes: &mut Vec<u8>) -> Result<(), AllocError> {
    push_text(bytes, b"jnl")?;
    push_count(bytes, 0)
}

/// The prefixes, and the records in front of the title's text.
fn push_records(bytes: &mut Vec<u8>, sample: Sample) -> Result<(), AllocError> {
    let more = usize::from(sample.in_jnl) + usize::from(sample.wide);
    push_count(bytes, more + 1)?;
    if sample.wide {
        push_long_record(bytes)?;
    }
    if sample.in_jnl {
        push_journal(bytes)?;
    }
    push_text(bytes, b"oai_dc")?;
    push_count(bytes, 1)?;
    push_text(bytes, b"title")
}

/// A text of that letter alone, as long as the bytes are then so many.
fn push_letters(bytes: &mut Vec<u8>, letter: u8, size: usize) -> Result<(), AllocError> {
    let count = size.saturating_sub(bytes.len()).saturating_sub(4);
    push_count(bytes, count)?;
    bytes.resize(bytes.len().saturating_add(count), letter)
}

/// The spelling of the item.
pub(crate) fn spelling_of(alloc: Global, sample: Sample) -> Result<Vec<u8>, AllocError> {
    let mut bytes = Vec::new(alloc);
    push_spelling(alloc, &mut bytes, sample)?;
    Ok(bytes)
}

fn push_spelling(alloc: Global, bytes: &mut Vec<u8>, sample: Sample) -> Result<(), AllocError> {
    bytes.push(1)?;
    bytes.extend_from_slice(&stamp_of(sample).to_be_bytes())?;
    push_identifier(alloc, bytes, sample.number)?;
    push_sets(alloc, bytes, sample)?;
    push_records(bytes, sample)?;
    push_letters(bytes, sample.letter, sample.bytes)
}

/// Its datestamp, in seconds from 1970 on.
fn stamp_of(sample: Sample) -> i64 {
    STAMP + i64::from(sample.later)
}

/// The item; None where its spelling is none, or memory runs out.
pub(crate) fn item_of(alloc: Global, sample: Sample) -> Option<Item> {
    let bytes = spelling_of(alloc, sample).ok()?;
    Item::decode(alloc, bytes.as_slice()).ok()
}

/// The spelling of the item, as the program has it.
pub(crate) fn spelled(alloc: Global, item: &Item) -> Option<Vec<u8>> {
    let len = item.encoded_len().ok()?;
    let mut bytes = vec![in alloc; 0; len].ok()?;
    match item.encode_into(bytes.as_mut_slice()) {
        Ok(_) => Some(bytes),
        Err(_) => None,
    }
}
