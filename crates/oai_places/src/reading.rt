//! What is read of the places of a directory: their entries, and an item that is looked for.
ghost use Rattle.std.specs.Prelude.{◌≡◌, ◌==◌, ◌&&◌, ◌+◌, ◌*◌, ◌<◌, ◌≤◌, ◌++◌, ℕ, List, true, false, length, take, drop, HoldsAt, IfOk, IsTrue, OnOk};
ghost use Rattle.std.specs.List.{flat_map, list_all};
ghost use Rattle.std.specs.Ordering.{is_eq};
ghost use Rattle.oai_item.specs.Item.{ItemState};
ghost use Rattle.oai_item.specs.Items.{item_at};
ghost use Rattle.oai_item.specs.Order.{are_in_order};
ghost use Rattle.oai_pool.specs.Counts.{count_of};
ghost use Rattle.oai_pool.specs.Kinds as kinds;
ghost use Rattle.oai_pool.specs.Names.{times};
ghost use Rattle.oai_places.specs.Calls.{Evicts, ReadsPages};
ghost use Rattle.oai_places.specs.Directory.{StandsIn};
ghost use Rattle.oai_places.specs.Finding.{IsFinding};
ghost use Rattle.oai_places.specs.Pages.{FitPage, IsPage, begins_at, fit_one, items_in, size_of};
ghost use Rattle.oai_places.specs.Places.{FitPages, IsSoundPlace, are_below, bytes_on, first_cmp, items_at, items_on, page_at};
ghost use Rattle.oai_places.specs.Searches.{MayBeAt, are_of};

use crate::entries::Entries;
use crate::faults::{decoding_fault_of, fault_of};
use crate::finding::{begins_on_page, find_on_page, has_items};
use crate::leaves::LeafList;
use crate::names::forget_all;
use crate::places::SharedPlace;
use crate::searches::leaf_of;
use crate::sizes::FRONT_BYTES;
use crate::untested::{find_untested, may_begin};
use oai_device::PAGE_BYTES;
use oai_item::{DecodeFault, Fault, Item, ItemKey};
use oai_pool::{PageKind, PageNo, PagePool, are_zeros};
use std::alloc::Global;
use std::cmp::Ordering;

/// The entries of the page with that number, which is referenced, and a page of items. Any fault but `TooManyPages`.
fn read_page<P: PagePool>(alloc: Global, pages: &mut P, no: PageNo) -> Result<Entries, Fault>
    requires named { 0 < count_of (P.counts pages.old) no }
    requires page { IsPage (page_at (P.pages pages.old) no) (items_in (page_at (P.pages pages.old) no)) }
    requires one { fit_one (items_in (page_at (P.pages pages.old) no)) ≡ true }
    ensures items { IfOk result (λ entries. IsTrue (P.honest pages.old) → entries ≡ items_in (page_at (P.pages pages.old) no)) }
    ensures page { IfOk result (λ entries. FitPage entries) }
    ensures fits { IfOk result (λ entries. fit_one entries ≡ true) }
    ensures pages { ReadsPages P.PagePool result pages.old pages.new }
{
    match pages.read(no, PageKind::Items) {
        Ok(page) => match Entries::of_page(alloc, &page) {
            Ok(entries) => {
                if !entries.fit_one() {
                    return Err(Fault::Damaged);
                }
                Ok(entries)
            }
            Err(DecodeFault::Damaged) => Err(Fault::Damaged),
            Err(DecodeFault::NoMemory) => Err(Fault::NoMemory),
        },
        Err(fault) => Err(fault_of(fault)),
    }
}

/// The entry that continues on overflow pages; these are its numbers, first that of the page of the entry. All are
/// referenced. Any fault but `TooManyPages`.
fn read_long<P: PagePool>(
    alloc: Global,
    pages: &mut P,
    numbers: &[PageNo],
) -> Result<Entries, Fault>
    requires long { 1 < length numbers.now }
    requires named { (n : ℕ) → 0 < times n numbers.now → 0 < count_of (P.counts pages.old) n }
    requires page { IsPage (bytes_on (P.pages pages.old) numbers.now) (items_in (bytes_on (P.pages pages.old) numbers.now)) }
    requires many { FitPages (P.pages pages.old) numbers.now (items_in (bytes_on (P.pages pages.old) numbers.now)) }
    ensures items { IfOk result (λ entries. IsTrue (P.honest pages.old) → entries ≡ items_in (bytes_on (P.pages pages.old) numbers.now)) }
    ensures page { IfOk result (λ entries. FitPage entries) }
    ensures pages { ReadsPages P.PagePool result pages.old pages.new }
{
    let first = match pages.read(numbers[0], PageKind::Bytes) {
        Ok(page) => page,
        Err(fault) => return Err(fault_of(fault)),
    };
    if !are_zeros(&first[FRONT_BYTES..]) {
        return Err(Fault::Damaged);
    }
    let mut bytes = Vec::with_capacity(alloc, FRONT_BYTES + (numbers.len() - 1) * PAGE_BYTES)?;
    bytes.extend_from_slice(&first[..FRONT_BYTES])?;
    read_overflow(pages, &numbers[1..], &mut bytes)?;
    match Entries::read(alloc, bytes.as_slice()) {
        Ok(entries) => Ok(entries),
        Err(DecodeFault::Damaged) => Err(Fault::Damaged),
        Err(DecodeFault::NoMemory) => Err(Fault::NoMemory),
    }
}

/// Appends the bytes of the pages with these numbers, which are referenced. Any fault but `Damaged` and `TooManyPages`.
fn read_overflow<P: PagePool>(
    pages: &mut P,
    numbers: &[PageNo],
    bytes: &mut Vec<u8>,
) -> Result<(), Fault>
    requires { (n : ℕ) → 0 < times n numbers.now → 0 < count_of (P.counts pages.old) n }
    ensures bytes { OnOk result (IsTrue (P.honest pages.old)
        → bytes.new.items ≡ bytes.old.items ++ flat_map (page_at (P.pages pages.old)) numbers.now) }
    ensures more { OnOk result (length bytes.old.items ≤ length bytes.new.items) }
    ensures pages { ReadsPages P.PagePool result pages.old pages.new }
{
    for at in 0..numbers.len() {
        read_more(pages, numbers[at], bytes)?;
    }
    Ok(())
}

/// Appends the bytes of the page with that number, which is referenced. Any fault but `Damaged` and `TooManyPages`.
fn read_more<P: PagePool>(pages: &mut P, no: PageNo, bytes: &mut Vec<u8>) -> Result<(), Fault>
    requires { 0 < count_of (P.counts pages.old) no }
    ensures bytes { OnOk result (IsTrue (P.honest pages.old) → bytes.new.items ≡ bytes.old.items ++ page_at (P.pages pages.old) no) }
    ensures more { OnOk result (length bytes.old.items ≤ length bytes.new.items) }
    ensures pages { ReadsPages P.PagePool result pages.old pages.new }
{
    match pages.read(no, PageKind::Bytes) {
        Ok(page) => match bytes.extend_from_slice(&page[..]) {
            Ok(()) => Ok(()),
            Err(_) => Err(Fault::NoMemory),
        },
        Err(fault) => Err(fault_of(fault)),
    }
}

/// The entries on the pages with these numbers, which are referenced: those of a page, or the one that continues on
/// overflow pages. Any fault but `TooManyPages`.
fn read_entries<P: PagePool>(
    alloc: Global,
    pages: &mut P,
    numbers: &[PageNo],
) -> Result<Entries, Fault>
    requires named { (n : ℕ) → 0 < times n numbers.now → 0 < count_of (P.counts pages.old) n }
    requires page { IsPage (bytes_on (P.pages pages.old) numbers.now) (items_in (bytes_on (P.pages pages.old) numbers.now)) }
    requires many { FitPages (P.pages pages.old) numbers.now (items_in (bytes_on (P.pages pages.old) numbers.now)) }
    ensures items { IfOk result (λ entries. IsTrue (P.honest pages.old) → entries ≡ items_in (bytes_on (P.pages pages.old) numbers.now)) }
    ensures page { IfOk result (λ entries. FitPage entries) }
    ensures fits { IfOk result (λ entries. length numbers.now ≤ 1 → fit_one entries ≡ true) }
    ensures pages { ReadsPages P.PagePool result pages.old pages.new }
{
    if numbers.len() > 1 {
        return read_long(alloc, pages, numbers);
    }
    read_page(alloc, pages, numbers[0])
}

/// The entries of a leaf. Any fault but `TooManyPages`. If it is `Damaged`, the pages of the leaf are dropped from
/// memory.
pub fn read_place<P: PagePool>(
    alloc: Global,
    pages: &mut P,
    places: &[SharedPlace],
    at: usize,
) -> Result<Entries, Fault>
    requires within { at < length places.now }
    requires stands { StandsIn P.PagePool pages.old places.now }
    ensures items { IfOk result (λ entries. IsTrue (P.honest pages.old)
        → HoldsAt (λ place. entries ≡ items_at (P.pages pages.old) place) places.now at) }
    ensures fits { IfOk result (λ entries. MayBeAt places.now at entries) }
    ensures pages { ReadsPages P.PagePool result pages.old pages.new }
{
    match read_at(alloc, pages, places, at) {
        Ok(entries) => Ok(entries),
        Err(fault) => {
            forget_damaged(pages, &places[at], fault);
            Err(fault)
        }
    }
}

/// The entries of a leaf. Any fault but `TooManyPages`.
fn read_at<P: PagePool>(
    alloc: Global,
    pages: &mut P,
    places: &[SharedPlace],
    at: usize,
) -> Result<Entries, Fault>
    requires within { at < length places.now }
    requires stands { StandsIn P.PagePool pages.old places.now }
    ensures items { IfOk result (λ entries. IsTrue (P.honest pages.old)
        → HoldsAt (λ place. entries ≡ items_at (P.pages pages.old) place) places.now at) }
    ensures fits { IfOk result (λ entries. MayBeAt places.now at entries) }
    ensures pages { ReadsPages P.PagePool result pages.old pages.new }
{
    let place = &places[at];
    let entries = read_entries(alloc, pages, place.pages())?;
    if !are_of(&entries, place, &places[at + 1..]) {
        return Err(Fault::Damaged);
    }
    Ok(entries)
}

/// Whether the items, which are in their order, may be those of the place: they are as many, and of as many bytes, the
/// first is the one that the place names, and all stand before those of the next place.
fn are_of(entries: &Entries, place: &SharedPlace, next: &[SharedPlace]) -> bool
    requires { are_in_order entries.now ≡ true }
    ensures { result ≡ are_of place.now next.now entries.now }
{
    if !are_all(entries, place) {
        return false;
    }
    if !entries.begins_at(place.key()) {
        return false;
    }
    are_below(entries, next)
}

/// Whether the items are as many, and of as many bytes, as those of the leaf.
fn are_all(entries: &Entries, place: &SharedPlace) -> bool
    ensures { result ≡ (length entries.now == place.now.len && size_of entries.now == place.now.size) }
{
    entries.len() == place.len() && entries.size() == place.size()
}

/// Whether the items, which are in their order, precede those of the next leaf, if there is one.
fn are_below(entries: &Entries, places: &[SharedPlace]) -> bool
    requires { are_in_order entries.now ≡ true }
    ensures { result ≡ are_below entries.now places.now }
{
    match places {
        [] => true,
        [next, ..] => entries.are_before(next.key()),
    }
}

impl LeafList<'_> {
    /// The item with that key, or None. It reads one page, and the overflow pages of an item that it returns, and
    /// decodes no other item. Any fault but `TooManyPages`.
    pub fn find<P: PagePool>(
        self,
        alloc: Global,
        pages: &mut P,
        key: ItemKey<'_>,
    ) -> Result<Option<Item>, Fault>
        requires { StandsIn P.PagePool pages.old self.places.now }
        ensures found { IfOk result (λ item. IsTrue (P.honest pages.old)
            → item ≡ item_at key.entry.stamp key.entry.identifier.now (items_on (P.pages pages.old) self.entry.places.now)) }
        ensures pages { ReadsPages P.PagePool result pages.old pages.new }
    {
        let places = self.places;
        if places.is_empty() {
            return Ok(None);
        }
        let at = leaf_of(places, key);
        if is_other(&places[at], key) {
            return Ok(None);
        }
        if !places[at].is_long() {
            return find_at(alloc, pages, &places[at], key);
        }
        let entries = read_place(alloc, pages, places, at)?;
        match entries.position_of(key) {
            Ok(at) => Ok(Some(entries.item(alloc, at)?)),
            Err(_) => Ok(None),
        }
    }
}

/// The item with that key in the leaf, which has one page, or None. Any fault but `TooManyPages`. If it is `Damaged`,
/// the page is dropped from memory.
fn find_at<P: PagePool>(
    alloc: Global,
    pages: &mut P,
    place: &SharedPlace,
    key: ItemKey<'_>,
) -> Result<Option<Item>, Fault>
    requires one { length place.now.pages ≤ 1 }
    requires named { (n : ℕ) → 0 < times n place.now.pages → 0 < count_of (P.counts pages.old) n }
    requires sound { IsSoundPlace (P.pages pages.old) place.now }
    ensures found { IfOk result (λ item. IsTrue (P.honest pages.old)
        → item ≡ item_at key.entry.stamp key.entry.identifier.now (items_at (P.pages pages.old) place.now)) }
    ensures pages { ReadsPages P.PagePool result pages.old pages.new }
{
    match find_in(alloc, pages, place, key) {
        Ok(found) => Ok(found),
        Err(fault) => {
            forget_damaged(pages, place, fault);
            Err(fault)
        }
    }
}

/// If the fault is `Damaged`, drops the pages of the leaf from memory, so that each is read from the device again.
pub(crate) fn forget_damaged<P: PagePool>(pages: &mut P, place: &SharedPlace, fault: Fault)
    ensures { Evicts P.PagePool pages.old pages.new }
{
    if fault == Fault::Damaged {
        forget_all(pages, place.pages());
    }
}

/// The item with that key in the leaf, which has one page, or None. Any fault but `TooManyPages`.
fn find_in<P: PagePool>(
    alloc: Global,
    pages: &mut P,
    place: &SharedPlace,
    key: ItemKey<'_>,
) -> Result<Option<Item>, Fault>
    requires one { length place.now.pages ≤ 1 }
    requires named { (n : ℕ) → 0 < times n place.now.pages → 0 < count_of (P.counts pages.old) n }
    requires sound { IsSoundPlace (P.pages pages.old) place.now }
    ensures found { IfOk result (λ item. IsTrue (P.honest pages.old)
        → item ≡ item_at key.entry.stamp key.entry.identifier.now (items_at (P.pages pages.old) place.now)) }
    ensures pages { ReadsPages P.PagePool result pages.old pages.new }
{
    match pages.read_any(place.pages()[0]) {
        Ok((page, kind)) => match find_on(alloc, &page[..], kind, place, key) {
            Ok(found) => Ok(found),
            Err(fault) => Err(decoding_fault_of(fault)),
        },
        Err(fault) => Err(fault_of(fault)),
    }
}

/// The item with that key of those of the page, which is known to be of that kind, or None. `Damaged` only where the
/// bytes are not the page of as many items as those of the place, of which the first is the one that the place names;
/// `NoMemory`.
fn find_on(
    alloc: Global,
    page: &[u8],
    kind: PageKind,
    place: &SharedPlace,
    key: ItemKey<'_>,
) -> Result<Option<Item>, DecodeFault>
    requires long { 4 ≤ length page.now }
    requires tested { kinds.is_of kind page.now ≡ true }
    ensures { (items : List ItemState) → IsPage page.now items → length items ≡ place.now.len
        → begins_at place.now.stamp place.now.identifier items ≡ true → IsFinding key.entry.stamp key.entry.identifier.now items result }
{
    if !has_items(page, place.len()) {
        return Err(DecodeFault::Damaged);
    }
    match kind {
        PageKind::Items => find_tested(alloc, page, place, key),
        PageKind::Bytes => find_untested_of(alloc, page, place, key),
    }
}

/// The same of a page whose entries were not validated. Where nothing is found, the first item has to be.
fn find_untested_of(
    alloc: Global,
    page: &[u8],
    place: &SharedPlace,
    key: ItemKey<'_>,
) -> Result<Option<Item>, DecodeFault>
    requires { 4 ≤ length page.now }
    ensures { (items : List ItemState) → IsPage page.now items
        → begins_at place.now.stamp place.now.identifier items ≡ true → IsFinding key.entry.stamp key.entry.identifier.now items result }
{
    if !may_begin(page, place.key().identifier) {
        return Err(DecodeFault::Damaged);
    }
    match find_untested(alloc, page, key) {
        Ok(None) => {}
        found => return found,
    }
    match find_untested(alloc, page, place.key()) {
        Ok(Some(_)) => Ok(None),
        Ok(None) => Err(DecodeFault::Damaged),
        Err(fault) => Err(fault),
    }
}

/// The same of a page each entry of which is known to encode an item.
fn find_tested(
    alloc: Global,
    page: &[u8],
    place: &SharedPlace,
    key: ItemKey<'_>,
) -> Result<Option<Item>, DecodeFault>
    requires long { 4 ≤ length page.now }
    requires tested { kinds.has_items page.now ≡ true }
    ensures { (items : List ItemState) → IsPage page.now items
        → begins_at place.now.stamp place.now.identifier items ≡ true → IsFinding key.entry.stamp key.entry.identifier.now items result }
{
    if !begins_on_page(page, place.key()) {
        return Err(DecodeFault::Damaged);
    }
    Ok(find_on_page(alloc, page, key)?)
}

/// Whether the leaf has one item alone, which continues on overflow pages, and does not have this key.
fn is_other(place: &SharedPlace, key: ItemKey<'_>) -> bool
    ensures { IsTrue result → (1 < length place.now.pages) × (is_eq (first_cmp place.now key.entry.stamp key.entry.identifier.now) ≡ false) }
{
    if place.is_long() {
        return place.order_to(key) != Ordering::Equal;
    }
    false
}
