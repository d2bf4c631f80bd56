//! The bytes of entries, and their contents.
ghost use Rattle.std.specs.Prelude.{◌≡◌, ◌==◌, ◌+◌, ◌-◌, ◌*◌, ◌^◌, ◌<◌, ◌≤◌, ℕ, List, [], true, ◌++◌, ◌∷◌, length, take, drop, replicate, filter, map, All, IfOk, IsErrOf, OnOk};
ghost use Rattle.std.specs.List.{list_all};
ghost use Rattle.oai_device.specs.declared.devices.TheConstants.{PAGE_BYTES};
ghost use Rattle.oai_item.specs.Encoding.{Spells, encoded};
ghost use Rattle.oai_item.specs.Item.{ItemState, has_record};
ghost use Rattle.oai_item.specs.declared.sizes.TheConstants.{MAX_ITEM_BYTES};
ghost use Rattle.oai_pool.specs.Kinds.{leading_number, spells_item, spells_items};
ghost use Rattle.oai_places.specs.Entries.{HasEntries, HasEntry, IsEntryReading};
ghost use Rattle.oai_places.specs.Pages.{AreStorable, entries_of, entry_of, filled, first_number};
ghost use Rattle.oai_places.specs.declared.sizes.TheConstants.{NUMBER_BYTES};

use crate::sizes::NUMBER_BYTES;
use oai_device::{HeldBytes, PAGE_BYTES};
use oai_item::{DecodeFault, Item, Spelling, is_spelling};
use oai_names::Prefix;
use oai_pool::Page;
use std::alloc::{AllocError, Global};

/// The prefixes of an item's records. The error is out of memory.
pub(crate) fn prefixes_of(alloc: Global, item: &Spelling<'_>) -> Result<Vec<Prefix>, AllocError>
    ensures { IfOk result
        (λ prefixes. prefixes.items ≡ map (λ format. format.0) item.now.formats) }
{
    let mut records = item.records();
    let mut prefixes = Vec::with_capacity(alloc, records.len())?;
    while let Some(format) = records.next() {
        prefixes.push(Prefix::new(alloc, format.prefix)?)?;
    }
    Ok(prefixes)
}

/// Whether the item has a record with each of the prefixes.
pub(crate) fn has_each(item: &Spelling<'_>, prefixes: &[Prefix]) -> bool
    ensures { result ≡ list_all (λ prefix. has_record prefix item.now.formats) prefixes.now }
{
    prefixes
        .iter()
        .all(|prefix| item.has_record(prefix.as_str()))
}

/// Those of the prefixes with which the item has a record.
pub(crate) fn common(prefixes: Vec<Prefix>, item: &Spelling<'_>) -> Vec<Prefix>
    ensures { result.items
        ≡ filter (λ prefix. has_record prefix item.now.formats) prefixes.items }
{
    let mut kept = prefixes;
    kept.retain(|prefix| item.has_record(prefix.as_str()));
    kept
}

/// Writes the two into the page, one after the other, and zeros after them.
pub(crate) fn fill_with(page: &mut Page, front: &[u8], back: &[u8])
    requires { length front.now + length back.now ≤ PAGE_BYTES }
    ensures { page.new ≡ filled (front.now ++ back.now) }
{
    put_at(page, 0, front);
    put_at(page, front.len(), back);
    clear(&mut page[front.len() + back.len()..]);
}

/// Zeroes the bytes.
fn clear(bytes: &mut [u8])
    ensures { bytes.new ≡ replicate (length bytes.old) 0 }
{
    bytes.fill(0);
}

/// Writes the bytes into the page, from that offset on.
fn put_at(page: &mut Page, at: usize, bytes: &[u8])
    requires { at + length bytes.now ≤ PAGE_BYTES }
    ensures { page.new
        ≡ take at page.old ++ (bytes.now ++ drop (at + length bytes.now) page.old) }
{
    page[at..at + bytes.len()].copy_from_slice(bytes);
}

/// The number at the start of the bytes.
pub(crate) fn first_number(bytes: &[u8]) -> usize
    requires { 4 ≤ length bytes.now }
    ensures { result ≡ first_number bytes.now }
{
    let mut number = [0; NUMBER_BYTES];
    number.copy_from_slice(&bytes[..NUMBER_BYTES]);
    u32::from_be_bytes(number) as usize
}

/// The length of the entry at the start of the bytes. The errors: `Damaged` if there is none; `NoMemory`, which an item
/// in many sets may need.
fn entry_len(alloc: Global, bytes: &[u8]) -> Result<usize, DecodeFault>
    ensures { IsEntryReading bytes.now result }
{
    if bytes.len() < NUMBER_BYTES {
        return Err(DecodeFault::Damaged);
    }
    let len = first_number(bytes);
    let rest = &bytes[NUMBER_BYTES..];
    if rest.len() < len {
        return Err(DecodeFault::Damaged);
    }
    if !is_spelling(alloc, &rest[..len])? {
        return Err(DecodeFault::Damaged);
    }
    Ok(NUMBER_BYTES + len)
}

/// The offset behind each of that many entries at the start of the bytes, and that of the last. The errors: `Damaged`
/// if there are not so many; `NoMemory`.
pub(crate) fn read_ends(
    alloc: Global,
    bytes: &[u8],
    count: usize,
) -> Result<(Vec<usize>, usize), DecodeFault>
    ensures read { IfOk result (λ read. HasEntries bytes.now read.0.items count read.1) }
    ensures damaged { IsErrOf result DecodeFault.Damaged
        → (items : List ItemState) (behind : List ℕ) → AreStorable items → length items ≡ count
        → ¬ (bytes.now ≡ entries_of items ++ behind) }
{
    let mut ends = Vec::new(alloc);
    let mut end = 0;
    for _ in 0..count {
        let len = entry_len(alloc, &bytes[end..])?;
        end += len;
        push_end(&mut ends, end)?;
    }
    Ok((ends, end))
}

/// The offset behind each of that many entries at the start of the bytes, each of which is known to encode an item, and
/// that of the last, behind which only zeros are known to stand. The error is out of memory.
pub(crate) fn ends_of(
    alloc: Global,
    bytes: &[u8],
    count: usize,
) -> Result<(Vec<usize>, usize), AllocError>
    requires { spells_items count bytes.now ≡ true }
    ensures ends { IfOk result (λ read. HasEntries bytes.now read.0.items count read.1) }
    ensures zeros { IfOk result (λ read. list_all (λ byte. byte == 0) (drop read.1 bytes.now) ≡ true) }
{
    let mut ends = Vec::with_capacity(alloc, count)?;
    let mut end = 0;
    for _ in 0..count {
        end += spelled_len(&bytes[end..]);
        push_end(&mut ends, end)?;
    }
    Ok((ends, end))
}

/// The length of the entry at the start of the bytes, which is known to encode an item.
fn spelled_len(bytes: &[u8]) -> usize
    requires { spells_item bytes.now ≡ true }
    ensures entry { HasEntry bytes.now result }
    ensures within { result ≤ length bytes.now }
    ensures behind { result ≡ 4 + leading_number bytes.now }
{
    NUMBER_BYTES + first_number(bytes)
}

/// Adds the end.
fn push_end(ends: &mut Vec<usize>, end: usize) -> Result<(), AllocError>
    ensures { OnOk result (ends.new.items ≡ ends.old.items ++ end ∷ []) }
{
    ends.push(end)?;
    Ok(())
}

/// A copy of the numbers, with room for that many in all.
pub(crate) fn copied_ends(
    alloc: Global,
    ends: &[usize],
    room: usize,
) -> Result<Vec<usize>, AllocError>
    ensures { IfOk result (λ copy. copy.items ≡ ends.now) }
{
    let mut copy = Vec::with_capacity(alloc, room)?;
    copy.extend_from_slice(ends)?;
    Ok(copy)
}

/// A copy of the bytes, one part after the other.
pub(crate) fn joined(
    alloc: Global,
    front: &[u8],
    middle: &[u8],
    back: &[u8],
) -> Result<HeldBytes, AllocError>
    ensures { IfOk result (λ copy. copy ≡ front.now ++ (middle.now ++ back.now)) }
{
    let len = front
        .len()
        .wrapping_add(middle.len())
        .wrapping_add(back.len());
    let mut copy = Vec::with_capacity(alloc, len)?;
    copy.extend_from_slice(front)?;
    copy.extend_from_slice(middle)?;
    copy.extend_from_slice(back)?;
    Ok(HeldBytes::own(copy))
}

/// The entry of the item.
pub(crate) fn entry_of(alloc: Global, item: &Item) -> Result<Vec<u8>, AllocError>
    requires { length (encoded item.now) ≤ MAX_ITEM_BYTES }
    ensures entry { IfOk result (λ bytes. bytes.items ≡ entry_of item.now) }
    ensures spells { OnOk result (Spells (encoded item.now) item.now) }
{
    match item.encoded_len() {
        Ok(len) => {
            let mut entry = vec![in alloc; 0; NUMBER_BYTES + len]?;
            write_entry(&mut entry, len, item);
            Ok(entry)
        }
        Err(_) => unreachable!(),
    }
}

/// Writes the entry of the item: the length of the encoded item, and behind it the encoded item itself.
fn write_entry(out: &mut [u8], len: usize, item: &Item)
    requires few { length (encoded item.now) ≤ MAX_ITEM_BYTES }
    requires len { len ≡ length (encoded item.now) }
    requires room { length out.old ≡ NUMBER_BYTES + len }
    ensures entry { out.new ≡ entry_of item.now }
    ensures spells { Spells (encoded item.now) item.now }
{
    let (number, spelling) = out.split_at_mut(NUMBER_BYTES);
    number.copy_from_slice(&(len as u32).to_be_bytes());
    item.encode_measured(spelling);
}

/// Appends the ends, of entries that began at the one offset and now begin at the other.
pub(crate) fn push_moved(
    ends: &mut Vec<usize>,
    more: &[usize],
    from: usize,
    to: usize,
) -> Result<(), AllocError>
    requires above { All (λ end. from ≤ end) more.now }
    requires fits { All (λ end. end + to < from + 2 ^ 64) more.now }
    ensures { OnOk result
        (ends.new.items ≡ ends.old.items ++ map (λ end. end - from + to) more.now) }
{
    for end in more {
        ends.push(*end - from + to)?;
    }
    Ok(())
}
