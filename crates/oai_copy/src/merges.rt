ghost use Rattle.std.specs.Prelude.{◌≡◌, ◌+◌, ◌<◌, ◌≤◌, [], length, reverse, true, vec_capacity, vec_len, IfOk, IsNone, OnErr, OnOk};
ghost use Rattle.std.specs.Option.{option_copied, option_to_list};
ghost use Rattle.std.specs.Ordering.{nat_cmp};
ghost use Rattle.std.specs.Cmp.Lexicographic.{slice_cmp};
ghost use Rattle.oai_copy.specs.Copies.{are_listed, caught_up};
ghost use Rattle.oai_copy.specs.Merges.{IsArranged, IsLastPopped, goes_first, is_same_named, never_fall, with_first};

use oai_item::Item;
use std::alloc::{AllocError, Global};
use std::cmp::Ordering;

/// Replaces or adds the items of a harvest, each in turn, in a list in the order of its identifiers. The error is out
/// of memory, and the list is unchanged.
pub(crate) fn catch_up(items: &mut Vec<Item>, harvest: &[Item]) -> Result<(), AllocError>
    requires { are_listed items.old.items ≡ true }
    ensures ok { OnOk result (items.new.items ≡ caught_up items.old.items harvest.now) }
    ensures err { OnErr result (items.new.items ≡ items.old.items) }
    ensures listed { are_listed items.new.items ≡ true }
{
    let alloc = *items.allocator();
    let mut newer = arranged(alloc, harvest)?;
    let mut merged = Vec::with_capacity(alloc, items.len() + newer.len())?;
    merge(items, &mut newer, &mut merged);
    *items = merged;
    Ok(())
}

/// Copies of the items sorted by identifier, stably. The error is out of memory.
fn arranged(alloc: Global, items: &[Item]) -> Result<Vec<Item>, AllocError>
    ensures { IfOk result (λ arranged. IsArranged items.now arranged.items) }
{
    let mut arranged = copies(alloc, items)?;
    arranged.sort_by(|a, b| order(a, b))?;
    Ok(arranged)
}

/// Copies of the items. The error is out of memory.
fn copies(alloc: Global, items: &[Item]) -> Result<Vec<Item>, AllocError>
    ensures { IfOk result (λ copies. copies.items ≡ items.now) }
{
    let mut copies = Vec::with_capacity(alloc, items.len())?;
    for item in items {
        copies.push(item.copy(alloc)?)?;
    }
    Ok(copies)
}

/// Compares the identifiers of two items, byte by byte.
fn order(a: &Item, b: &Item) -> Ordering
    ensures { result ≡ slice_cmp nat_cmp a.now.identifier b.now.identifier }
{
    a.identifier().as_str().cmp(b.identifier().as_str())
}

/// Merges two lists, both in the order of their identifiers, into a third one in that order: for each identifier the
/// last item of the newer list, or else that of the older one. Allocates nothing: the third list is empty and has
/// capacity for all.
fn merge(older: &mut Vec<Item>, newer: &mut Vec<Item>, merged: &mut Vec<Item>)
    requires listed { are_listed older.old.items ≡ true }
    requires ordered { never_fall newer.old.items ≡ true }
    requires empty { merged.old.items ≡ [] }
    requires unused { vec_len merged.old ≡ 0 }
    requires room { vec_len older.old + vec_len newer.old ≤ vec_capacity merged.old }
    ensures { merged.new.items ≡ caught_up older.old.items newer.old.items }
{
    while let Some(item) = take_last(older, newer) {
        push_first(merged, item);
    }
    merged.reverse();
}

/// Removes the item with the greatest identifier from two lists, each in the order of its identifiers; of equal ones,
/// that of the newer list.
fn take_last(older: &mut Vec<Item>, newer: &mut Vec<Item>) -> Option<Item>
    ensures taken { IsLastPopped older.old.items newer.old.items result older.new.items newer.new.items }
    ensures none { IsNone result → (older.old.items ≡ []) × (newer.old.items ≡ []) }
    ensures fewer { vec_len older.new + vec_len newer.new + length (option_to_list result)
        ≡ vec_len older.old + vec_len newer.old }
{
    if goes_first(older.last(), newer.last()) {
        newer.pop()
    } else {
        older.pop()
    }
}

/// Whether the last item of the newer list is taken before that of the older one: its identifier is not the lower one.
fn goes_first(older: Option<&Item>, newer: Option<&Item>) -> bool
    ensures { result ≡ goes_first (option_copied older.entry) (option_copied newer.entry) }
{
    match (older, newer) {
        (None, _) => true,
        (Some(_), None) => false,
        (Some(older), Some(newer)) => !order(newer, older).is_lt(),
    }
}

/// Pushes the item, unless the last one has its identifier. Capacity is reserved.
#[tactic(auto, using(crate::proofs::MergeLemmas::push_kept, crate::proofs::MergeLemmas::push_added))]
fn push_first(items: &mut Vec<Item>, item: Item)
    requires room { vec_len items.old < vec_capacity items.old }
    ensures pushed { reverse items.new.items ≡ with_first item (reverse items.old.items) }
    ensures longer { vec_len items.new ≤ vec_len items.old + 1 }
    ensures capacity { vec_capacity items.old ≤ vec_capacity items.new }
{
    if is_same_named(items.last(), &item) {
        return;
    }
    items.push(item).unwrap();
}

/// Whether the first item exists and has the identifier of the second.
fn is_same_named(first: Option<&Item>, item: &Item) -> bool
    ensures { result ≡ is_same_named (option_copied first.entry) item.now }
{
    match first {
        Some(first) => first.identifier().as_str() == item.identifier().as_str(),
        None => false,
    }
}
