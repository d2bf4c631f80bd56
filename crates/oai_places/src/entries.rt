ghost use Rattle.std.specs.Prelude.{◌≡◌, ◌==◌, ◌+◌, ◌-◌, ◌*◌, ◌<◌, ◌≤◌, nat_lt, List, [], true, ◌++◌, ◌∷◌, length, take, drop, filter, HoldsAt, IfOk, IfSome, IsTrue};
ghost use Rattle.std.specs.List.{list_all};
ghost use Rattle.std.specs.Ordering.{is_lt};
ghost use Rattle.oai_device.specs.declared.devices.TheConstants.{PAGE_BYTES};
ghost use Rattle.oai_item.specs.Encoding.{Spells, encoded};
ghost use Rattle.oai_item.specs.Item.{ItemState};
ghost use Rattle.oai_item.specs.Items.{with_item};
ghost use Rattle.oai_item.specs.Order.{IsPlace, are_in_order, place_cmp};
ghost use Rattle.oai_item.specs.declared.sizes.TheConstants.{MAX_ITEM_BYTES};
ghost use Rattle.oai_pool.specs.Kinds.{has_items};
ghost use Rattle.oai_places.specs.Entries.{HasEntries, IsPlaceFrom, IsSpanOfOne};
ghost use Rattle.oai_places.specs.Pages.{AreCuts, AreStorable, FitAlone, IsPageReading, IsRemoval, are_short, begins_at, between, entries_of, entry_of, first_number, fit_one, overflow_of, pages_of, size_of};
ghost use Rattle.oai_places.specs.Places.{AreSetCounts, have_records};
ghost use Rattle.oai_places.specs.declared.sizes.TheConstants.{MAX_ENTRY_BYTES, MAX_WHOLE_BYTES};

use crate::entry_bytes::{
    common, copied_ends, ends_of, entry_of, fill_with, first_number, has_each, joined, prefixes_of,
    push_moved, read_ends,
};
use crate::sizes::{FRONT_BYTES, FULL_BYTES, MAX_ENTRY_BYTES, MAX_WHOLE_BYTES, NUMBER_BYTES};
use oai_device::{HeldBytes, PAGE_BYTES};
use oai_item::{DecodeFault, Item, ItemKey, Spelling};
use oai_names::{Identifier, Prefix, Sequence};
use oai_pool::{Page, are_zeros};
use oai_sums::{PackedCounts, SetCounts, SetNames, Span};
use std::alloc::{AllocError, Global};
use std::cmp::Ordering;
use std::marker::Model;
use std::rc::Rc;

/// Items as the entries of a leaf page: each encoded, after its length. Contracts see them as the list of the items.
/// None of them is decoded until it is requested; those of one page are read where the cache holds it.
#[derive(Drop)]
pub struct Entries {
    bytes: HeldBytes,
    ends: Vec<usize>,
}

impl Model for Entries {
    ghost use Rattle.std.specs.Prelude.{List};
    ghost use Rattle.oai_item.specs.Item.{ItemState};
    ghost use Rattle.oai_places.specs.Entries.{AreEntries, items_with};

    ghost Value = { List ItemState };

    ghost view = { λ e. items_with e.bytes e.ends.items };

    ghost invariant = { λ e. AreEntries e.bytes e.ends.items };
}

/// Where entries are split, to be put on at most three pages.
#[derive(Clone, Copy)]
pub struct Cuts {
    /// How many are on the first page.
    pub first: usize,
    /// How many are on the first two pages.
    pub second: usize,
}

impl Entries {
    /// No entries. Allocates nothing.
    pub fn new(alloc: Global) -> Entries
        ensures { result ≡ [] }
    {
        Entries {
            bytes: HeldBytes::own(Vec::new(alloc)),
            ends: Vec::new(alloc),
        }
    }

    /// The entries of a page, which with its overflow pages may be longer than one. The errors: `Damaged` if the bytes
    /// are not a page of items; `NoMemory`.
    pub(crate) fn read(alloc: Global, page: &[u8]) -> Result<Entries, DecodeFault>
        requires { 4 ≤ length page.now }
        ensures { IsPageReading page.now result }
    {
        let count = first_number(page);
        let (ends, size) = read_ends(alloc, &page[NUMBER_BYTES..], count)?;
        let (entries, behind) = page[NUMBER_BYTES..].split_at(size);
        if !are_zeros(behind) {
            return Err(DecodeFault::Damaged);
        }
        let bytes = HeldBytes::copied(alloc, entries)?;
        Entries::ending(page, bytes, ends, size)
    }

    /// The entries of a page, each of which is known to encode an item, and is not validated, as are the zeros after
    /// them. They are not copied: the
    /// page stays in memory with them. The errors: `Damaged` if the bytes are not a page of items; `NoMemory`.
    pub(crate) fn of_page(alloc: Global, page: &Rc<Page>) -> Result<Entries, DecodeFault>
        requires { has_items page.now.value ≡ true }
        ensures { IsPageReading page.now.value result }
    {
        let all = &page[..];
        let count = first_number(all);
        let (ends, size) = ends_of(alloc, &all[NUMBER_BYTES..], count)?;
        let bytes = HeldBytes::on_page(page.clone()?, NUMBER_BYTES, size);
        Entries::ending(all, bytes, ends, size)
    }

    /// The entries of a page, which are these bytes, of that many, and each of which ends at one of the numbers; zeros
    /// follow them. `Damaged` if the bytes are not a page of items.
    fn ending(
        page: &[u8],
        bytes: HeldBytes,
        ends: Vec<usize>,
        size: usize,
    ) -> Result<Entries, DecodeFault>
        requires long { 4 ≤ length page.now }
        requires entries { HasEntries (drop 4 page.now) ends.items (first_number page.now) size }
        requires bytes { bytes ≡ take size (drop 4 page.now) }
        requires zeros { list_all (λ byte. byte == 0) (drop size (drop 4 page.now)) ≡ true }
        ensures { IsPageReading page.now result }
    {
        let count = first_number(page);
        if count == 0 {
            return Err(DecodeFault::Damaged);
        }
        let entries = Entries { bytes, ends };
        if !entries.are_rising() {
            return Err(DecodeFault::Damaged);
        }
        Ok(entries)
    }

    /// How many there are.
    pub fn len(&self) -> usize
        ensures len { result ≡ length self.now }
        ensures storable { AreStorable self.now }
    {
        self.ends.len()
    }

    /// How many bytes they have.
    pub fn size(&self) -> usize
        ensures { result ≡ size_of self.now }
    {
        self.bytes.len()
    }

    /// Compares the item at that position with the key.
    pub(crate) fn order_to(&self, at: usize, key: ItemKey<'_>) -> Ordering
        requires { at < length self.now }
        ensures { HoldsAt (λ item. result ≡ place_cmp item key.entry.stamp key.entry.identifier.now) self.now at }
    {
        self.spelled(at).order_to(key.stamp, key.identifier)
    }

    /// Binary search for the key among the items: the position of the item that has it, or where it would be inserted.
    pub(crate) fn position_of(&self, key: ItemKey<'_>) -> Result<usize, usize>
        requires { are_in_order self.now ≡ true }
        ensures { IsPlace self.now key.entry.stamp key.entry.identifier.now result }
    {
        let mut low = 0;
        let mut high = self.len();
        while low < high {
            let middle = low + (high - low) / 2;
            match self.order_to(middle, key) {
                Ordering::Less => low = middle + 1,
                Ordering::Equal => return Ok(middle),
                Ordering::Greater => high = middle,
            }
        }
        Err(low)
    }

    /// Whether the first item has this key.
    pub(crate) fn begins_at(&self, key: ItemKey<'_>) -> bool
        ensures { result ≡ begins_at key.entry.stamp key.entry.identifier.now self.now }
    {
        self.len() > 0 && self.order_to(0, key) == Ordering::Equal
    }

    /// Whether all items, which are in their order, precede the key.
    pub fn are_before(&self, key: ItemKey<'_>) -> bool
        requires { are_in_order self.now ≡ true }
        ensures { result ≡ list_all (λ item. is_lt (place_cmp item key.entry.stamp key.entry.identifier.now)) self.now }
    {
        let len = self.len();
        len == 0 || self.order_to(len - 1, key) == Ordering::Less
    }

    /// The decoded item at that position. If the entries are those of a page, its records are not copied, and the page
    /// stays in memory with it. The error is out of memory.
    pub(crate) fn item(&self, alloc: Global, at: usize) -> Result<Item, AllocError>
        requires { at < length self.now }
        ensures { IfOk result (λ item. HoldsAt (λ own. item ≡ own) self.now at) }
    {
        let to = self.end(at);
        let from = self.start(at) + NUMBER_BYTES;
        Item::held(alloc, &self.bytes, from, to)
    }

    /// The items, which fit on one page, with that one, whose encoding has at most `MAX_ITEM_BYTES` of oai_item, in
    /// place of the one with its datestamp and identifier if there is one; and where the entries are split: around the
    /// item, if it needs overflow pages, or else as `cuts` says for the same `fills`. The error is out of memory.
    pub fn put(
        &self,
        alloc: Global,
        item: &Item,
        fills: bool,
    ) -> Result<(Entries, Cuts), AllocError>
        requires rising { are_in_order self.now ≡ true }
        requires one_page { fit_one self.now ≡ true }
        requires fits { length (encoded item.now) ≤ MAX_ITEM_BYTES }
        ensures with { IfOk result (λ put. put.0 ≡ with_item item.now self.now) }
        ensures cuts { IfOk result (λ put. AreCuts put.0 put.1.first put.1.second) }
    {
        match self.position_of(item.key()) {
            Ok(at) => self.put_at(alloc, at, 1, item, fills),
            Err(at) => self.put_at(alloc, at, 0, item, fills),
        }
    }

    /// The items without the one with this key, or None if no item has it. The error is out of memory.
    pub fn remove(&self, alloc: Global, key: ItemKey<'_>) -> Result<Option<Entries>, AllocError>
        requires { are_in_order self.now ≡ true }
        ensures removal { IfOk result (λ entries. IsRemoval key.entry.stamp key.entry.identifier.now self.now entries) }
        ensures one_page { IfOk result
            (λ entries. IfSome entries (λ left. IsTrue (fit_one self.now) → IsTrue (fit_one left))) }
    {
        match self.position_of(key) {
            Ok(at) => Ok(Some(self.without(alloc, at)?)),
            Err(_) => Ok(None),
        }
    }

    /// Where the entries are split, to be put on pages: nowhere, if they fit on one; else in halves or, if `fills` says
    /// so, after a page that is filled to nine tenths; and again, if the rest does not fit on one page.
    pub fn cuts(&self, fills: bool) -> Cuts
        requires size { size_of self.now ≤ 2 * MAX_ENTRY_BYTES }
        requires short { are_short self.now ≡ true }
        ensures { AreCuts self.now result.first result.second }
    {
        let half = self.size() / 2;
        let goal = if fills { half.max(FULL_BYTES) } else { half };
        let first = self.front(0, goal);
        let second = self.front(first, goal);
        Cuts { first, second }
    }

    /// Whether all of them fit on one page, without overflow pages.
    pub(crate) fn fit_one(&self) -> bool
        ensures { result ≡ fit_one self.now }
    {
        self.size() <= MAX_ENTRY_BYTES && self.are_short()
    }

    /// How many overflow pages the entries in the range need, which fit on one page, or are one.
    pub fn overflow(&self, from: usize, to: usize) -> usize
        requires some { from < to }
        requires within { to ≤ length self.now }
        requires alone { FitAlone (between from to self.now) }
        ensures { result ≡ overflow_of (between from to self.now) }
    {
        let _all = self.len();
        if !self.is_long(from) {
            return 0;
        }
        let size = self.entries(from, to).len();
        (size + NUMBER_BYTES - FRONT_BYTES + (PAGE_BYTES - 1)) / PAGE_BYTES
    }

    /// Writes one of the pages of the entries in the range, which fit on one page, or are one: at index 0 the page of
    /// the entries, then the overflow pages. All bytes of the page are overwritten.
    pub fn fill_page(&self, from: usize, to: usize, at: usize, page: &mut Page)
        requires some { from < to }
        requires within { to ≤ length self.now }
        requires alone { FitAlone (between from to self.now) }
        requires there { at < length (pages_of (between from to self.now)) }
        ensures { HoldsAt (λ own. page.new ≡ own) (pages_of (between from to self.now)) at }
    {
        let _all = self.len();
        let entries = self.entries(from, to);
        let number = ((to - from) as u32).to_be_bytes();
        if !self.is_long(from) {
            return fill_with(page, &number, entries);
        }
        if at == 0 {
            return fill_with(page, &number, &entries[..FRONT_BYTES - NUMBER_BYTES]);
        }
        let start = FRONT_BYTES - NUMBER_BYTES + (at - 1) * PAGE_BYTES;
        let end = entries.len().min(start + PAGE_BYTES);
        fill_with(page, &[], &entries[start..end])
    }

    /// The datestamp of the item at that position, in seconds from 1970 on.
    pub fn stamp(&self, at: usize) -> i64
        requires { at < length self.now }
        ensures { HoldsAt (λ item. result ≡ item.stamp) self.now at }
    {
        self.spelled(at).stamp()
    }

    /// The identifier of the item at that position. The error is out of memory.
    pub fn identifier(&self, alloc: Global, at: usize) -> Result<Identifier, AllocError>
        requires { at < length self.now }
        ensures { IfOk result (λ identifier. HoldsAt (λ item. identifier ≡ item.identifier) self.now at) }
    {
        let identifier = Identifier::new(alloc, self.spelled(at).identifier())?;
        Ok(identifier)
    }

    /// The prefixes with which each item in the range has a record. The error is out of memory.
    pub fn prefixes(
        &self,
        alloc: Global,
        from: usize,
        to: usize,
    ) -> Result<Sequence<Prefix>, AllocError>
        requires some { from < to }
        requires within { to ≤ length self.now }
        ensures { IfOk result (λ prefixes. have_records prefixes (between from to self.now) ≡ true) }
    {
        let mut prefixes = prefixes_of(alloc, &self.spelled(from))?;
        for at in from + 1..to {
            prefixes = common(prefixes, &self.spelled(at));
        }
        Ok(Sequence::new(prefixes))
    }

    /// Whether each item in the range has a record with each of the prefixes.
    pub fn have_records(&self, from: usize, to: usize, prefixes: &[Prefix]) -> bool
        requires order { from ≤ to }
        requires within { to ≤ length self.now }
        ensures { result ≡ have_records prefixes.now (between from to self.now) }
    {
        let mut all = true;
        for at in from..to {
            all = all && has_each(&self.spelled(at), prefixes);
        }
        all
    }

    /// How many of the items in the range are in each set, and where these are, with setSpecs of those names. Nothing
    /// is promised of where they are if their entries have more than `MAX_ENTRY_BYTES` bytes together. None if there
    /// are too many sets, or memory runs out.
    pub fn set_counts(
        &self,
        alloc: Global,
        names: &mut SetNames,
        from: usize,
        to: usize,
    ) -> Option<PackedCounts>
        requires order { from ≤ to }
        requires within { to ≤ length self.now }
        ensures { AreSetCounts result (between from to self.now) }
    {
        let mut counts = SetCounts::new(alloc);
        for at in from..to {
            counts.add(names, self.spelled(at).sets(), self.span_of(from, at))?;
        }
        counts.packed(alloc)
    }

    /// The span of the entry of the item at that position among those from `from` on. If those up to its end have more
    /// than `MAX_ENTRY_BYTES` bytes, nothing is promised of the result.
    fn span_of(&self, from: usize, at: usize) -> Span
        requires order { from ≤ at }
        requires within { at < length self.now }
        ensures { size_of (between from (at + 1) self.now) ≤ MAX_ENTRY_BYTES → IsSpanOfOne from at self.now result }
    {
        let _all = self.len();
        Span {
            from: self.size_between(from, at).min(MAX_ENTRY_BYTES) as u16,
            to: self.size_between(from, at + 1).min(MAX_ENTRY_BYTES) as u16,
        }
    }

    /// How many bytes the entries in the range have.
    pub fn size_between(&self, from: usize, to: usize) -> usize
        requires order { from ≤ to }
        requires within { to ≤ length self.now }
        ensures { result ≡ size_of (between from to self.now) }
    {
        self.entries(from, to).len()
    }

    /// These entries and the others after them. The error is out of memory.
    fn and(&self, alloc: Global, others: &Entries) -> Result<Entries, AllocError>
        ensures { IfOk result (λ all. all ≡ self.now ++ others.now) }
    {
        let start = self.size();
        let bytes = joined(alloc, self.bytes.as_slice(), &[], others.bytes.as_slice())?;
        let mut ends = copied_ends(alloc, &self.ends, self.len().wrapping_add(others.len()))?;
        push_moved(&mut ends, &others.ends, 0, start)?;
        Ok(Entries { bytes, ends })
    }

    /// These entries and the others after them, if all fit on one page, in their order; None otherwise, and if memory
    /// runs out.
    pub fn joined(&self, alloc: Global, others: &Entries) -> Option<Entries>
        ensures all { IfSome result (λ all. all ≡ self.now ++ others.now) }
        ensures one_page { IfSome result (λ all. fit_one all ≡ true) }
        ensures rising { IfSome result (λ all. are_in_order all ≡ true) }
    {
        let Ok(all) = self.and(alloc, others) else {
            return None;
        };
        if !all.fit_one() {
            return None;
        }
        if !all.are_rising() {
            return None;
        }
        Some(all)
    }

    /// How many records the item at that position has.
    pub fn records(&self, at: usize) -> usize
        requires { at < length self.now }
        ensures { HoldsAt (λ item. result ≡ length item.formats) self.now at }
    {
        self.spelled(at).records().len()
    }
}

impl Entries {
    /// The offset of the entry at that position.
    fn start(&self, at: usize) -> usize
        requires { at ≤ length self.now }
        ensures { result ≡ size_of (take at self.now) }
    {
        if at == 0 {
            return 0;
        }
        self.end(at - 1)
    }

    /// The offset behind the entry at that position.
    fn end(&self, at: usize) -> usize
        requires { at < length self.now }
        ensures { result ≡ size_of (take (at + 1) self.now) }
    {
        self.ends[at]
    }

    /// The bytes of the entries in the range.
    fn entries(&self, from: usize, to: usize) -> &[u8]
        requires order { from ≤ to }
        requires within { to ≤ length self.now }
        ensures { result.now ≡ entries_of (between from to self.now) }
    {
        let start = self.start(from);
        let end = self.start(to);
        &self.bytes.as_slice()[start..end]
    }

    /// The encoded item at that position.
    fn spelling(&self, at: usize) -> &[u8]
        requires { at < length self.now }
        ensures { HoldsAt (λ item. Spells result.now item) self.now at }
    {
        let start = self.start(at);
        let end = self.end(at);
        let entry = &self.bytes.as_slice()[start..end];
        &entry[NUMBER_BYTES..]
    }

    /// The item at that position, read in place.
    pub(crate) fn spelled(&self, at: usize) -> Spelling<'_>
        requires { at < length self.now }
        ensures { HoldsAt (λ item. result ≡ item) self.now at }
    {
        Spelling::new(self.spelling(at))
    }

    /// Whether each item precedes the next.
    fn are_rising(&self) -> bool
        ensures { result ≡ are_in_order self.now }
    {
        let len = self.len();
        if len == 0 {
            return true;
        }
        let mut before = self.spelled(0);
        for at in 1..len {
            let item = self.spelled(at);
            if before.order(&item) != Ordering::Less {
                return false;
            }
            before = item;
        }
        true
    }

    /// Up to which position the entries from `from` on go on a page: to the end, if they fit; else as many as have at
    /// most `goal` bytes, but at least one.
    fn front(&self, from: usize, goal: usize) -> usize
        requires within { from ≤ length self.now }
        requires goal { goal ≤ MAX_ENTRY_BYTES }
        requires short { are_short self.now ≡ true }
        ensures place { IsPlaceFrom from result (length self.now) }
        ensures some { from < length self.now → from < result }
        ensures fits { size_of (between from result self.now) ≤ MAX_ENTRY_BYTES }
        ensures most { result < length self.now
            → goal < size_of (between from (result + 1) self.now) }
        ensures whole { size_of (between from (length self.now) self.now) ≤ MAX_ENTRY_BYTES → result ≡ length self.now }
    {
        let len = self.len();
        let start = self.start(from);
        if self.size() - start <= MAX_ENTRY_BYTES {
            return len;
        }
        let mut to = from + 1;
        while to < len && self.end(to) - start <= goal {
            to += 1;
        }
        to
    }

    /// The items, which fit on one page, with that one in place of `gone` from the position on, and where they are
    /// split.
    fn put_at(
        &self,
        alloc: Global,
        at: usize,
        count: usize,
        item: &Item,
        fills: bool,
    ) -> Result<(Entries, Cuts), AllocError>
        requires within { at + count ≤ length self.now }
        requires one_page { fit_one self.now ≡ true }
        requires fits { length (encoded item.now) ≤ MAX_ITEM_BYTES }
        ensures with { IfOk result
            (λ put. put.0 ≡ take at self.now ++ (item.now ∷ drop (at + count) self.now)) }
        ensures cuts { IfOk result (λ put. AreCuts put.0 put.1.first put.1.second) }
    {
        let entries = self.with(alloc, at, count, item)?;
        let _all = entries.len();
        if entries.is_long(at) {
            let around = Cuts {
                first: at,
                second: at + 1,
            };
            return Ok((entries, around));
        }
        let cuts = entries.cuts(fills);
        Ok((entries, cuts))
    }

    /// Whether the encoded item at that position is too long to fit in its entry without overflow pages.
    fn is_long(&self, at: usize) -> bool
        requires { at < length self.now }
        ensures { HoldsAt (λ item. result ≡ nat_lt MAX_WHOLE_BYTES (length (encoded item))) self.now at }
    {
        self.spelling(at).len() > MAX_WHOLE_BYTES
    }

    /// Whether each encoded item is short enough to fit in its entry.
    fn are_short(&self) -> bool
        ensures { result ≡ are_short self.now }
    {
        for at in 0..self.len() {
            if self.is_long(at) {
                return false;
            }
        }
        true
    }

    /// The items with that one in place of several from the position on.
    fn with(
        &self,
        alloc: Global,
        at: usize,
        count: usize,
        item: &Item,
    ) -> Result<Entries, AllocError>
        requires within { at + count ≤ length self.now }
        requires fits { length (encoded item.now) ≤ MAX_ITEM_BYTES }
        ensures { IfOk result
            (λ entries. entries ≡ take at self.now ++ (item.now ∷ drop (at + count) self.now)) }
    {
        let entry = entry_of(alloc, item)?;
        let len = self.len();
        let behind = at + count;
        let back = self.entries(behind, len);
        let bytes = joined(alloc, self.entries(0, at), entry.as_slice(), back)?;
        let end = bytes.len() - back.len();
        let mut ends = copied_ends(alloc, &self.ends[..at], len.wrapping_add(1))?;
        ends.push(end)?;
        push_moved(&mut ends, &self.ends[behind..], self.start(behind), end)?;
        Ok(Entries { bytes, ends })
    }

    /// The items without the one at that position.
    fn without(&self, alloc: Global, at: usize) -> Result<Entries, AllocError>
        requires { at < length self.now }
        ensures { IfOk result
            (λ entries. entries ≡ take at self.now ++ drop (at + 1) self.now) }
    {
        let len = self.len();
        let back = self.entries(at + 1, len);
        let bytes = joined(alloc, self.entries(0, at), &[], back)?;
        let start = bytes.len() - back.len();
        let mut ends = copied_ends(alloc, &self.ends[..at], len)?;
        push_moved(&mut ends, &self.ends[at + 1..], self.end(at), start)?;
        Ok(Entries { bytes, ends })
    }
}
