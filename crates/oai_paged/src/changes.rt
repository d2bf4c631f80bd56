//! Changes a directory in place, copy-on-write: adds leaf pages of new entries, then swaps their leaves in for old
//! ones, by steps that cannot fail.
ghost use Rattle.std.specs.Prelude.{◌≡◌, ◌+◌, ◌*◌, ◌<◌, ◌≤◌, ◌++◌, ◌∷◌, ℕ, List, [], true, length, take, drop, HoldsAt, vec_capacity, vec_len, IfOk, OnErr, OnOk};
ghost use Rattle.oai_catalogue.specs.Store.{Spares, Spends};
ghost use Rattle.oai_item.specs.Item.{ItemState};
ghost use Rattle.oai_item.specs.Order.{are_in_order};
ghost use Rattle.oai_pool.specs.Calls.{IsAdded, SparesNumbers, SpendsNumbers};
ghost use Rattle.oai_pool.specs.Counts.{KeepsNamed, count_of};
ghost use Rattle.oai_places.specs.Calls.{Renames};
ghost use Rattle.oai_paged.specs.Changes.{Adds, AddsPages, HasPages, HasWayBack, IsRange, PutsRun};
ghost use Rattle.oai_places.specs.Directory.{IsRunWithin, MayStand, StandsIn};
ghost use Rattle.oai_places.specs.Pages.{AreCuts, FitAlone, between, kind_for, overflow_of, pages_of};
ghost use Rattle.oai_places.specs.Places.{have_records, named_in};
ghost use Rattle.oai_places.specs.Recounts.{AddsNumbers, Recounts};
ghost use Rattle.oai_places.specs.Sums.{AreGroups};

use crate::directories::DirectoryLeaves;
use crate::exchanges::{exchange, reserve};
use oai_device::PAGE_BYTES;
use oai_item::Fault;
use oai_names::{Prefix, Sequence};
use oai_places::{
    Cuts, Entries, MAX_REPLACED, SharedPlace, Statistics, drop_all, drop_numbers, fault_of,
};
use oai_pool::{Page, PageKind, PageNo, PagePool, PoolFault};
use oai_sums::SetNames;
use std::alloc::{AllocError, Global};
use std::rc::Rc;

/// The most pages to which the entries of one are split when an item is inserted.
const MAX_PARTS: usize = 3;

/// A change of a directory: `len` leaves from `at` on are new, and replace those in `gone`, whose pages are still
/// referenced.
#[derive(Drop)]
pub(crate) struct Changed {
    /// The position of the first new leaf.
    pub(crate) at: usize,
    /// The number of new leaves.
    pub(crate) len: usize,
    /// The replaced leaves.
    pub(crate) gone: Vec<SharedPlace>,
}

/// Consecutive leaves of a directory: `len` from `at` on.
#[derive(Clone, Copy)]
pub(crate) struct LeafRun {
    pub(crate) at: usize,
    pub(crate) len: usize,
}

/// Entries, and where they are split, to be put on pages.
#[derive(Clone, Copy)]
pub(crate) struct CutEntries<'a> {
    pub(crate) entries: &'a Entries,
    pub(crate) cuts: Cuts,
}

/// Entries from one position up to another one.
#[derive(Clone, Copy)]
struct EntryRange<'a> {
    entries: &'a Entries,
    from: usize,
    to: usize,
}

impl DirectoryLeaves {
    /// Adds pages of the new entries, and swaps their leaves in for those of the run, at most three: at most three
    /// pages and the overflow pages of one item, and at most one if the entries fit on one. Any fault but `Damaged` may
    /// come; directory and pages are then unchanged.
    pub(crate) fn change<P: PagePool>(
        &mut self,
        alloc: Global,
        pages: &mut P,
        names: &mut SetNames,
        run: LeafRun,
        cut: CutEntries<'_>,
    ) -> Result<Changed, Fault>
        requires within { IsRunWithin run.at run.len (vec_len self.old.places) }
        requires stands { StandsIn P.PagePool pages.old self.old.places.items }
        requires cuts { AreCuts cut.entries.now cut.cuts.first cut.cuts.second }
        requires may_stand { MayStand (P.pages pages.old) self.old.places.items run.at run.len cut.entries.now }
        ensures { PutsRun P.PagePool cut.entry.entries.now run.at run.len result self.old.places self.new.places self.old.groups self.new.groups pages.old pages.new }
    {
        let LeafRun { at, len } = run;
        let mut others = add_all(alloc, pages, names, cut, self.places.get(at))?;
        match reserve(&mut self.places, &mut others) {
            Ok(()) => {
                let count = others.len();
                exchange(&mut self.places, at, len, &mut others);
                self.groups.exchange(at, len, count);
                Ok(Changed {
                    at,
                    len: count,
                    gone: others,
                })
            }
            Err(_) => {
                drop_all(pages, others);
                Err(Fault::NoMemory)
            }
        }
    }

    /// Undoes a change: the replaced leaves are back, the new ones are gone, and the references of their pages are
    /// dropped. It allocates nothing and cannot fail.
    pub(crate) fn undo<P: PagePool>(&mut self, pages: &mut P, changed: Changed)
        requires back { HasWayBack changed.at changed.len
            (vec_len self.old.places) (vec_capacity self.old.places) (vec_len changed.gone) (vec_capacity changed.gone) }
        requires named { (n : ℕ) → named_in (take changed.len (drop changed.at self.old.places.items)) n ≤ count_of (P.counts pages.old) n }
        ensures places { self.new.places.items ≡ take changed.at self.old.places.items
            ++ (changed.gone.items ++ drop (changed.at + changed.len) self.old.places.items) }
        ensures names { Renames P.PagePool (take changed.len (drop changed.at self.old.places.items)) [] pages.old pages.new }
        ensures pool { Spares P.room P.failures P.honest pages.old pages.new }
        ensures groups { AreGroups self.old.places.items self.old.groups → AreGroups self.new.places.items self.new.groups }
    {
        let mut others = changed.gone;
        let count = others.len();
        exchange(&mut self.places, changed.at, changed.len, &mut others);
        self.groups.exchange(changed.at, changed.len, count);
        drop_all(pages, others);
    }
}

/// Adds the pages of the entries, split as they are cut, and returns their leaves, with space for those that they
/// replace. Any fault but `Damaged` may come; the pages are then unchanged.
fn add_all<P: PagePool>(
    alloc: Global,
    pages: &mut P,
    names: &mut SetNames,
    cut: CutEntries<'_>,
    near: Option<&SharedPlace>,
) -> Result<Vec<SharedPlace>, Fault>
    requires cuts { AreCuts cut.entries.now cut.cuts.first cut.cuts.second }
    requires rising { are_in_order cut.entries.now ≡ true }
    ensures added { IfOk result (λ added. Adds P.PagePool cut.entry.entries.now added.items pages.old pages.new) }
    ensures undone { OnErr result (Renames P.PagePool [] [] pages.old pages.new) }
    ensures pool { AddsPages P.PagePool cut.entry.entries.now result pages.old pages.new }
{
    let mut added = Vec::with_capacity(alloc, MAX_PARTS + MAX_REPLACED)?;
    match add_parts(alloc, pages, names, cut, near, &mut added) {
        Ok(()) => Ok(added),
        Err(fault) => {
            drop_all(pages, added);
            Err(fault)
        }
    }
}

/// Adds the pages of the entries, split as they are cut, and appends their leaves to the others. Any fault but
/// `Damaged` may come; some of the pages are then added.
fn add_parts<P: PagePool>(
    alloc: Global,
    pages: &mut P,
    names: &mut SetNames,
    cut: CutEntries<'_>,
    near: Option<&SharedPlace>,
    added: &mut Vec<SharedPlace>,
) -> Result<(), Fault>
    requires none { added.old.items ≡ [] }
    requires room { vec_len added.old + 3 ≤ vec_capacity added.old }
    requires cuts { AreCuts cut.entries.now cut.cuts.first cut.cuts.second }
    requires rising { are_in_order cut.entries.now ≡ true }
    ensures ok { OnOk result (Adds P.PagePool cut.entry.entries.now added.new.items pages.old pages.new) }
    ensures some { OnErr result ((items : List ItemState) × Adds P.PagePool items added.new.items pages.old pages.new) }
    ensures pool { AddsPages P.PagePool cut.entry.entries.now result pages.old pages.new }
{
    let CutEntries { entries, cuts } = cut;
    let len = entries.len();
    let first = EntryRange {
        entries,
        from: 0,
        to: cuts.first,
    };
    add_part(alloc, pages, names, first, near, added)?;
    let second = EntryRange {
        entries,
        from: cuts.first,
        to: cuts.second,
    };
    add_part(alloc, pages, names, second, near, added)?;
    let third = EntryRange {
        entries,
        from: cuts.second,
        to: len,
    };
    add_part(alloc, pages, names, third, near, added)
}

/// Adds the pages of the entries in the range, if there are any, and appends their leaf to the others. Any fault but
/// `Damaged` may come.
fn add_part<P: PagePool>(
    alloc: Global,
    pages: &mut P,
    names: &mut SetNames,
    range: EntryRange<'_>,
    near: Option<&SharedPlace>,
    added: &mut Vec<SharedPlace>,
) -> Result<(), Fault>
    requires range { IsRange range.from range.to range.entries.now }
    requires room { vec_len added.old < vec_capacity added.old }
    ensures ok { (items : List ItemState) (first : P) → Adds P.PagePool items added.old.items first pages.old
        → OnOk result (Adds P.PagePool (items ++ between range.entry.from range.entry.to range.entry.entries.now) added.new.items first pages.new) }
    ensures err { (items : List ItemState) (first : P) → Adds P.PagePool items added.old.items first pages.old
        → OnErr result (Adds P.PagePool items added.new.items first pages.new) }
    ensures left { vec_capacity added.old + vec_len added.new ≤ vec_capacity added.new + vec_len added.old + 1 }
    ensures none { range.entry.from ≡ range.entry.to → Spends P.room P.failures P.honest 0 result pages.old pages.new }
    ensures pool { Spends P.room P.failures P.honest (1 + overflow_of (between range.entry.from range.entry.to range.entry.entries.now)) result pages.old pages.new }
{
    let EntryRange { entries, from, to } = range;
    if from == to {
        return Ok(());
    }
    let place = add_page(alloc, pages, names, range, near)?;
    added.push(place).unwrap();
    Ok(())
}

/// Adds the pages of the entries in the range, and returns their leaf. Any fault but `Damaged` may come; the pages are
/// then unchanged.
fn add_page<P: PagePool>(
    alloc: Global,
    pages: &mut P,
    names: &mut SetNames,
    range: EntryRange<'_>,
    near: Option<&SharedPlace>,
) -> Result<SharedPlace, Fault>
    requires order { range.from < range.to }
    requires within { range.to ≤ length range.entries.now }
    requires alone { FitAlone (between range.from range.to range.entries.now) }
    requires rising { are_in_order range.entries.now ≡ true }
    ensures added { IfOk result (λ place. Adds P.PagePool (between range.entry.from range.entry.to range.entry.entries.now) (place ∷ []) pages.old pages.new) }
    ensures undone { OnErr result (Renames P.PagePool [] [] pages.old pages.new) }
    ensures pool { Spends P.room P.failures P.honest (1 + overflow_of (between range.entry.from range.entry.to range.entry.entries.now)) result pages.old pages.new }
{
    let EntryRange { entries, from, to } = range;
    // (the proof needs what `len` says of the entries: each of them encodes an item)
    let _all = entries.len();
    let stamp = entries.stamp(from);
    let identifier = entries.identifier(alloc, from)?;
    let prefixes = prefixes_near(alloc, range, near)?;
    let sets = entries.set_counts(alloc, names, from, to);
    let size = entries.size_between(from, to);
    let numbers = add_numbers(alloc, pages, range)?;
    let statistics = Statistics {
        stamp,
        identifier,
        len: to - from,
        size,
        prefixes,
        sets,
    };
    match SharedPlace::new(alloc, numbers.as_slice(), statistics) {
        Ok(place) => Ok(place),
        Err(_) => {
            drop_numbers(pages, numbers.as_slice());
            Err(Fault::NoMemory)
        }
    }
}

/// Prefixes with which each item in the range has a record. If each has those of the leaf `near`, and the first has no
/// other, they are that leaf's list, shared without allocation. The error is out of memory.
fn prefixes_near(
    alloc: Global,
    range: EntryRange<'_>,
    near: Option<&SharedPlace>,
) -> Result<Rc<Sequence<Prefix>>, AllocError>
    requires some { range.from < range.to }
    requires within { range.to ≤ length range.entries.now }
    ensures { IfOk result (λ prefixes. have_records prefixes.value (between range.entry.from range.entry.to range.entry.entries.now) ≡ true) }
{
    let EntryRange { entries, from, to } = range;
    if let Some(place) = near {
        let known = place.prefixes();
        if entries.records(from) <= known.as_slice().len()
            && entries.have_records(from, to, known.as_slice())
        {
            return known.clone();
        }
    }
    Ok(Rc::new(alloc, entries.prefixes(alloc, from, to)?)?)
}

/// Adds the pages of the entries in the range, and returns their numbers. Any fault but `Damaged` may come; the pages
/// are then unchanged.
fn add_numbers<P: PagePool>(
    alloc: Global,
    pages: &mut P,
    range: EntryRange<'_>,
) -> Result<Vec<PageNo>, Fault>
    requires range { HasPages range.from range.to range.entries.now }
    ensures added { IfOk result (λ numbers. AddsNumbers P.PagePool (pages_of (between range.entry.from range.entry.to range.entry.entries.now)) numbers.items pages.old pages.new) }
    ensures undone { OnErr result (Recounts P.PagePool [] [] pages.old pages.new) }
    ensures pool { Spends P.room P.failures P.honest (1 + overflow_of (between range.entry.from range.entry.to range.entry.entries.now)) result pages.old pages.new }
{
    let EntryRange { entries, from, to } = range;
    // (the proof needs what `len` says of the entries: each of them encodes an item)
    let _all = entries.len();
    let overflow = entries.overflow(from, to);
    let kind = kind_for(overflow);
    let mut numbers = Vec::with_capacity(alloc, 1 + overflow)?;
    for at in 0..1 + overflow {
        match add_filled(alloc, pages, range, at, kind) {
            Ok(number) => numbers.push(number).unwrap(),
            Err(fault) => {
                drop_numbers(pages, numbers.as_slice());
                return Err(fault_of(fault));
            }
        }
    }
    Ok(numbers)
}

/// Adds the page of the entries in the range at that index, of that kind, and returns its number.
fn add_filled<P: PagePool>(
    alloc: Global,
    pages: &mut P,
    range: EntryRange<'_>,
    at: usize,
    kind: PageKind,
) -> Result<PageNo, PoolFault>
    requires range { HasPages range.from range.to range.entries.now }
    requires there { at < length (pages_of (between range.from range.to range.entries.now)) }
    requires kind { kind ≡ kind_for (overflow_of (between range.from range.to range.entries.now)) }
    ensures added { IfOk result (λ no. HoldsAt (λ own. IsAdded P.counts P.pages own no pages.old pages.new) (pages_of (between range.entry.from range.entry.to range.entry.entries.now)) at) }
    ensures err { OnErr result (P.counts pages.new ≡ P.counts pages.old) }
    ensures kept { KeepsNamed (P.counts pages.old) (P.pages pages.old) (P.pages pages.new) }
    ensures pool { SpendsNumbers P.room P.failures P.cache_size P.honest 1 result pages.old pages.new }
{
    // (the proof needs what `len` says of the entries: each of them encodes an item)
    let _all = range.entries.len();
    let page = filled_page(alloc, pages, range, at)?;
    pages.add(page, kind)
}

/// The page of the entries in the range at that index, in one from the pool. The error is out of memory.
fn filled_page<P: PagePool>(
    alloc: Global,
    pages: &mut P,
    range: EntryRange<'_>,
    at: usize,
) -> Result<Rc<Page>, AllocError>
    requires range { HasPages range.from range.to range.entries.now }
    requires there { at < length (pages_of (between range.from range.to range.entries.now)) }
    ensures value { IfOk result (λ page. HoldsAt (λ own. page.value ≡ own) (pages_of (between range.entry.from range.entry.to range.entry.entries.now)) at) }
    ensures counts { P.counts pages.new ≡ P.counts pages.old }
    ensures same { P.pages pages.new ≡ P.pages pages.old }
    ensures pool { SparesNumbers P.room P.failures P.cache_size P.honest pages.old pages.new }
{
    let EntryRange { entries, from, to } = range;
    let mut page = pages.page_to_fill()?;
    match Rc::get_mut(&mut page) {
        Some(bytes) => {
            entries.fill_page(from, to, at, bytes);
            Ok(page)
        }
        None => filled_anew(alloc, range, at),
    }
}

/// The page of the entries in the range at that index, in a new one. The error is out of memory.
fn filled_anew(alloc: Global, range: EntryRange<'_>, at: usize) -> Result<Rc<Page>, AllocError>
    requires range { HasPages range.from range.to range.entries.now }
    requires there { at < length (pages_of (between range.from range.to range.entries.now)) }
    ensures { IfOk result (λ page. HoldsAt (λ own. page.value ≡ own) (pages_of (between range.entry.from range.entry.to range.entry.entries.now)) at) }
{
    let EntryRange { entries, from, to } = range;
    let mut bytes = [0; PAGE_BYTES];
    entries.fill_page(from, to, at, &mut bytes);
    Ok(Rc::new(alloc, bytes)?)
}

/// The kind of leaf pages with that many overflow pages.
fn kind_for(overflow: usize) -> PageKind
    ensures { result ≡ kind_for overflow }
{
    if overflow == 0 {
        PageKind::Items
    } else {
        PageKind::Bytes
    }
}
