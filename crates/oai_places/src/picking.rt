//! Picks items from a page most of which are in other sets: reads the bytes within which those of the set are, and
//! skips by its length what is in other sets among them, without validating it.

ghost use Rattle.std.specs.Prelude.{◌≡◌, ◌++◌, ◌+◌, ◌-◌, ◌<◌, ◌≤◌, ◌∷◌, ◌^◌, ℕ, Bool, List, [], Option, Some, false, true, length, IfOk, IfSome, IsTrue};
ghost use Rattle.oai_device.specs.Device.{range_of};
ghost use Rattle.oai_device.specs.declared.devices.TheConstants.{PAGE_BYTES};
ghost use Rattle.oai_item.specs.Encoding.{Spells, encoded_list, encoded_text};
ghost use Rattle.oai_item.specs.Item.{ItemState};
ghost use Rattle.oai_item.specs.Membership.{is_in};
ghost use Rattle.oai_item.specs.Selection.{is_in_given};
ghost use Rattle.oai_places.specs.Calls.{ReadsPages};
ghost use Rattle.oai_places.specs.Pages.{AreStorable, entries_of};
ghost use Rattle.oai_places.specs.Parts.{IsPartTaken};
ghost use Rattle.oai_places.specs.Picking.{AreSetsFound, IsFoundWanted, IsPickable, IsPicked, IsPicking};
ghost use Rattle.oai_places.specs.Places.{IsSoundPlace, is_wanted, items_at, span_at};
ghost use Rattle.oai_places.specs.declared.sizes.TheConstants.{NUMBER_BYTES};
ghost use Rattle.oai_pool.specs.Counts.{count_of};
ghost use Rattle.oai_pool.specs.Names.{times};

use crate::entry_bytes::first_number;
use crate::faults::{decoding_fault_of, fault_of};
use crate::finding::{first_entry, first_text};
use crate::places::SharedPlace;
use crate::reading::forget_damaged;
use crate::sizes::{NUMBER_BYTES, STAMP_BYTES};
use crate::wanted::{Portion, Wanted, is_item_wanted};
use oai_catalogue::Filter;
use oai_device::PAGE_BYTES;
use oai_item::{DecodeFault, Fault, Item, Spelling};
use oai_pool::{PageNo, PagePool};
use oai_sums::{SetItems, Span};
use std::alloc::{AllocError, Global};

/// The bytes are entries. Appends the wanted ones of their items to the part, except the first ones that are to be
/// skipped, until it has `portion.most` items; returns how many remain to be skipped. The errors: `Damaged` only if the
/// bytes are not entries; `NoMemory`.
pub(crate) fn pick_entries(
    alloc: Global,
    entries: &[u8],
    portion: Portion<'_>,
    part: &mut Vec<Item>,
) -> Result<usize, DecodeFault>
    ensures { (items : List ItemState) → AreStorable items → entries.now ≡ entries_of items
        → IsPicking (is_wanted portion.entry.wanted.filter.now portion.entry.wanted.key.stamp portion.entry.wanted.key.identifier.now) portion.entry.most
        part.old.items part.new.items portion.entry.skip items result }
{
    let mut left = portion.skip;
    let mut rest = entries;
    'entries: while !rest.is_empty() && part.len() < portion.most {
        let Some((spelling, behind)) = first_entry(rest) else {
            return Err(DecodeFault::Damaged);
        };
        match pick_next(alloc, spelling, portion.wanted, left, part) {
            Ok(still) => left = still,
            Err(fault) => return Err(fault),
        }
        rest = behind;
    }
    Ok(left)
}

/// Appends the item that the bytes encode to the part, if it is wanted and none is to be skipped; returns how many
/// remain to be skipped. The errors: `Damaged` only if they encode none; `NoMemory`.
fn pick_next(
    alloc: Global,
    spelling: &[u8],
    wanted: Wanted<'_>,
    skip: usize,
    part: &mut Vec<Item>,
) -> Result<usize, DecodeFault>
    ensures { (item : ItemState) (most : ℕ) → Spells spelling.now item → length part.old.items < most
        → IsPicking (is_wanted wanted.entry.filter.now wanted.entry.key.stamp wanted.entry.key.identifier.now) most
        part.old.items part.new.items skip (item ∷ []) result }
{
    match pick(alloc, spelling, wanted) {
        Ok(Some(item)) => Ok(add(item, skip, part)?),
        Ok(None) => Ok(skip),
        Err(fault) => Err(fault),
    }
}

/// Adds the item to the part, where none is to be skipped; returns how many are still to be skipped. The error is out
/// of memory.
fn add(item: Item, skip: usize, part: &mut Vec<Item>) -> Result<usize, AllocError>
    ensures { IfOk result (λ left. (passes : ItemState → Bool) (most : ℕ) → passes item ≡ true → length part.old.items < most
        → IsPartTaken passes most part.old.items part.new.items skip left (item ∷ [])) }
{
    if skip > 0 {
        return Ok(skip - 1);
    }
    part.push(item)?;
    Ok(skip)
}

/// The item that the bytes encode, if it is wanted. The errors: `Damaged` only if they encode none; `NoMemory`.
fn pick(alloc: Global, spelling: &[u8], wanted: Wanted<'_>) -> Result<Option<Item>, DecodeFault>
    ensures { (item : ItemState) → Spells spelling.now item
        → IsPicked (is_wanted wanted.entry.filter.now wanted.entry.key.stamp wanted.entry.key.identifier.now) item result }
{
    if !may_be_in(spelling, wanted.filter) {
        return Ok(None);
    }
    match Spelling::read(alloc, spelling) {
        Ok(item) => Ok(copy_wanted(alloc, &item, wanted)?),
        Err(fault) => Err(fault),
    }
}

/// The decoded item, if it is wanted. The error is out of memory.
fn copy_wanted(
    alloc: Global,
    item: &Spelling<'_>,
    wanted: Wanted<'_>,
) -> Result<Option<Item>, AllocError>
    ensures { IfOk result (λ found. IsFoundWanted
        (is_wanted wanted.entry.filter.now wanted.entry.key.stamp wanted.entry.key.identifier.now) item.now found) }
{
    if !is_item_wanted(item, wanted) {
        return Ok(None);
    }
    Ok(Some(Item::spelled(alloc, item)?))
}

/// Whether the item that the bytes encode may be in the set, if one is given: if it is in it, the result is true.
fn may_be_in(spelling: &[u8], filter: &Filter) -> bool
    ensures { (item : ItemState) → Spells spelling.now item → result ≡ false → is_in_given filter.now.set item.sets ≡ false }
{
    let Some(set) = &filter.set else {
        return true;
    };
    match sets_in(spelling) {
        Some(sets) => may_have(sets, set.as_str()),
        None => true,
    }
}

/// The bytes of the encoded item from the list of its setSpecs on. If they encode none, nothing is promised of the
/// result; if they encode one, it is not None.
fn sets_in(spelling: &[u8]) -> Option<&[u8]>
    ensures { (item : ItemState) → Spells spelling.now item → AreSetsFound item result }
{
    if spelling.len() < STAMP_BYTES {
        return None;
    }
    match first_text(&spelling[STAMP_BYTES..]) {
        Some((_, sets)) => Some(sets),
        None => None,
    }
}

/// Whether a setSpec of the list at the start of the bytes may be the set's or a descendant of it: if one is, the
/// result is true.
fn may_have(bytes: &[u8], set: &str) -> bool
    ensures { (sets : List (List ℕ)) (behind : List ℕ) → length bytes.now < 2 ^ 32
        → bytes.now ≡ encoded_list encoded_text sets ++ behind → result ≡ false → is_in set.now sets ≡ false }
{
    if bytes.len() < NUMBER_BYTES {
        return true;
    }
    let front = set.as_bytes();
    let mut rest = &bytes[NUMBER_BYTES..];
    'sets: for _ in 0..first_number(bytes) {
        let Some((text, behind)) = first_text(rest) else {
            return true;
        };
        if text.starts_with(front) {
            return true;
        }
        rest = behind;
    }
    false
}

/// The span of these items of the leaf, which are those in a set, if it has one page, and at most half of its items are
/// in the set.
pub(crate) fn sparse_span(place: &SharedPlace, items: SetItems) -> Option<Span>
    ensures { IfSome result (λ span. (set : Option (List ℕ)) → span_at place.now set ≡ items.span
        → IsPickable place.now set span) }
{
    if place.is_long() {
        return None;
    }
    if items.count > place.len() / 2 {
        return None;
    }
    let span = items.span?;
    if span.from > span.to || usize::from(span.to) > PAGE_BYTES - NUMBER_BYTES {
        return None;
    }
    Some(span)
}

/// Appends the items of the portion in the leaf, those of the set being within the span, to the part; returns how many
/// remain to be skipped. It reads only the bytes of the span, and validates what may be in the set. Any fault but
/// `TooManyPages`. If it is `Damaged`, the page is dropped from memory.
pub(crate) fn pick_at<P: PagePool>(
    alloc: Global,
    pages: &mut P,
    place: &SharedPlace,
    span: Span,
    portion: Portion<'_>,
    part: &mut Vec<Item>,
) -> Result<usize, Fault>
    requires pickable { IsPickable place.now portion.wanted.filter.now.set span }
    requires named { (n : ℕ) → 0 < times n place.now.pages → 0 < count_of (P.counts pages.old) n }
    requires sound { IsSoundPlace (P.pages pages.old) place.now }
    ensures taken { IfOk result (λ left. IsTrue (P.honest pages.old)
        → IsPartTaken (is_wanted portion.entry.wanted.filter.now portion.entry.wanted.key.stamp portion.entry.wanted.key.identifier.now) portion.entry.most
        part.old.items part.new.items portion.entry.skip left (items_at (P.pages pages.old) place.now)) }
    ensures pages { ReadsPages P.PagePool result pages.old pages.new }
{
    match pick_in(alloc, pages, place, span, portion, part) {
        Ok(left) => Ok(left),
        Err(fault) => {
            forget_damaged(pages, place, fault);
            Err(fault)
        }
    }
}

/// Appends the items of the portion in the leaf, those of the set being within the span, to the part; returns how many
/// remain to be skipped. Any fault but `TooManyPages`.
fn pick_in<P: PagePool>(
    alloc: Global,
    pages: &mut P,
    place: &SharedPlace,
    span: Span,
    portion: Portion<'_>,
    part: &mut Vec<Item>,
) -> Result<usize, Fault>
    requires pickable { IsPickable place.now portion.wanted.filter.now.set span }
    requires named { (n : ℕ) → 0 < times n place.now.pages → 0 < count_of (P.counts pages.old) n }
    requires sound { IsSoundPlace (P.pages pages.old) place.now }
    ensures taken { IfOk result (λ left. IsTrue (P.honest pages.old)
        → IsPartTaken (is_wanted portion.entry.wanted.filter.now portion.entry.wanted.key.stamp portion.entry.wanted.key.identifier.now) portion.entry.most
        part.old.items part.new.items portion.entry.skip left (items_at (P.pages pages.old) place.now)) }
    ensures pages { ReadsPages P.PagePool result pages.old pages.new }
{
    let bytes = read_span(alloc, pages, place.pages()[0], span)?;
    match pick_entries(alloc, &bytes, portion, part) {
        Ok(left) => Ok(left),
        Err(fault) => Err(decoding_fault_of(fault)),
    }
}

/// The bytes of the entries of the span, on the page with that number, which is referenced. Any fault but `Damaged` and
/// `TooManyPages`.
fn read_span<P: PagePool>(
    alloc: Global,
    pages: &mut P,
    no: PageNo,
    span: Span,
) -> Result<Vec<u8>, Fault>
    requires named { 0 < count_of (P.counts pages.old) no }
    requires order { span.from ≤ span.to }
    requires within { NUMBER_BYTES + span.to ≤ PAGE_BYTES }
    ensures bytes { IfOk result (λ bytes. IsTrue (P.honest pages.old)
        → range_of (NUMBER_BYTES + span.from) (span.to - span.from) (P.pages pages.old no) ≡ Some bytes.items) }
    ensures pages { ReadsPages P.PagePool result pages.old pages.new }
{
    let len = usize::from(span.to - span.from);
    let mut bytes = vec![in alloc; 0; len]?;
    match pages.read_range(no, NUMBER_BYTES + usize::from(span.from), &mut bytes) {
        Ok(()) => Ok(bytes),
        Err(fault) => Err(fault_of(fault)),
    }
}
