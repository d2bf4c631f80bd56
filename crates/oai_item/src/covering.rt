//! Whether none of the setSpecs in an encoded item covers another.

ghost use Rattle.std.specs.Prelude.{◌≡◌, ℕ, List, IfOk};
ghost use Rattle.std.specs.List.{list_all, list_any};
ghost use Rattle.oai_item.specs.Membership.{is_above, neither_covers, none_covers};
ghost use Rattle.oai_item.specs.Reductions.{are_fresh, holds};

use crate::reductions::add_above;
use crate::walks::SpelledSets;
use oai_names::covers;
use std::alloc::{AllocError, Global};
use std::collections::BTreeSet;

/// The most setSpecs that are compared pairwise.
const FEW_SETS: usize = 16;

/// Whether no setSpec covers one at a different position. Up to `FEW_SETS` are compared pairwise, without allocation.
/// More are looked up in a sorted set, which takes O(p log p) for p parts of setSpecs; the error is out of memory.
pub(crate) fn none_covers(alloc: Global, sets: &SpelledSets<'_>) -> Result<bool, AllocError>
    ensures { IfOk result (λ apart. apart ≡ none_covers sets.now) }
{
    if sets.len() <= FEW_SETS {
        return Ok(no_pair_covers(sets));
    }
    let names = names_above(alloc, sets)?;
    are_new(names, sets)
}

/// Whether no setSpec covers another, by comparing each pair.
fn no_pair_covers(sets: &SpelledSets<'_>) -> bool
    ensures { result ≡ none_covers sets.now }
{
    let mut rest = sets.copy();
    while let Some(set) = rest.next() {
        if !covers_none(set, &rest) {
            return false;
        }
    }
    true
}

/// Whether neither that setSpec nor any of these covers the other.
fn covers_none(set: &str, others: &SpelledSets<'_>) -> bool
    ensures { result ≡ list_all (neither_covers set.now) others.now }
{
    let mut rest = others.copy();
    while let Some(other) = rest.next() {
        if covers(set, other) || covers(other, set) {
            return false;
        }
    }
    true
}

/// The names of the ancestors of these sets: the parent of each, its parent, and so on.
fn names_above<'a>(alloc: Global, sets: &SpelledSets<'a>) -> Result<BTreeSet<&'a str>, AllocError>
    ensures { IfOk result (λ names. (q : List ℕ) → holds names q ≡ list_any (is_above q) sets.now) }
{
    let mut names = BTreeSet::new(alloc);
    let mut rest = sets.copy();
    while let Some(set) = rest.next() {
        add_above(&mut names, set)?;
    }
    Ok(names)
}

/// Whether none of the setSpecs is among the names, and none occurs twice.
fn are_new<'a>(mut names: BTreeSet<&'a str>, sets: &SpelledSets<'a>) -> Result<bool, AllocError>
    ensures { IfOk result (λ new. new ≡ are_fresh (holds names.entry) sets.now) }
{
    let mut rest = sets.copy();
    while let Some(set) = rest.next() {
        if !names.insert(set)? {
            return Ok(false);
        }
    }
    Ok(true)
}
