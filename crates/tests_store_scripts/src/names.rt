//! Items as scripts describe them.
use crate::samples::{Sample, push_sample, sized};
use crate::spellings::{spelled, spelling_of};
use oai_item::Item;
use oai_names::SetSpec;
use std::alloc::{AllocError, Global};
use std::io::{self, Write};
use tests_samples::STAMP;

/// Adds how the item is described, or that it is another item than any that can be.
pub(crate) fn write_name(alloc: Global, item: &Item, out: &mut Vec<u8>) -> io::Result<()> {
    match described(alloc, item) {
        Some(sample) => write_sample(alloc, sample, out),
        None => out.write_all(b"another item"),
    }
}

fn write_sample(alloc: Global, sample: Sample, out: &mut Vec<u8>) -> io::Result<()> {
    let name = name_of(alloc, sample)?;
    out.write_all(name.as_bytes())
}

/// How the item is described. The error is out of memory.
pub(crate) fn name_of(alloc: Global, sample: Sample) -> Result<String, AllocError> {
    let mut name = String::new(alloc);
    push_sample(sample, &mut name)?;
    Ok(name)
}

/// The description of the item, whose bytes are the item's, each of them.
fn described(alloc: Global, item: &Item) -> Option<Sample> {
    let bytes = spelled(alloc, item)?;
    let sample = with_size(alloc, smallest(item, bytes.as_slice()), bytes.len())?;
    let wanted = spelling_of(alloc, sample).ok()?;
    if bytes == wanted { Some(sample) } else { None }
}

/// The same of so many bytes, where it has more than the smallest.
fn with_size(alloc: Global, sample: Sample, bytes: usize) -> Option<Sample> {
    let smallest = spelling_of(alloc, sample).ok()?;
    if bytes > smallest.len() {
        Some(Sample { bytes, ..sample })
    } else {
        Some(sample)
    }
}

/// The smallest item of that key, which is in these sets and has these records; its letter is that of the last of the bytes.
fn smallest(item: &Item, bytes: &[u8]) -> Sample {
    let number = number_in(item.identifier().as_str());
    let later = u32::try_from(item.stamp().saturating_sub(STAMP)).unwrap_or(0);
    Sample {
        letter: letter_of(bytes),
        in_set: is_among(item.sets(), "x:y"),
        in_other: is_among(item.sets(), "x:z"),
        in_jnl: item.has_record("jnl"),
        wide: item.has_record("abc"),
        ..sized(number, later, 0)
    }
}

/// The last byte, where it is another letter than the first.
fn letter_of(bytes: &[u8]) -> u8 {
    match bytes.last() {
        Some(b'b') => b'b',
        Some(b'c') => b'c',
        _ => b'a',
    }
}

/// The number in the identifier.
fn number_in(identifier: &str) -> u32 {
    let digits = identifier.rsplit_once(':').unwrap_or(("", "")).1;
    digits.parse::<u32>().unwrap_or(0).saturating_sub(100_000)
}

fn is_among(sets: &[SetSpec], text: &str) -> bool {
    for set in sets {
        if set.as_str() == text {
            return true;
        }
    }
    false
}
