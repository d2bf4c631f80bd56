ghost use Rattle.std.specs.Prelude.{◌≡◌, ◌<◌, ◌≤◌, ◌++◌, ◌∷◌, [], HoldsAt, IsTrue, OnSome, length, take, true};
ghost use Rattle.oai_sums.specs.Sums.{IsCounted, counted_in, is_unsaid, lacks, span_in, totals_from};

use crate::set_names::SharedSetSpec;
use crate::spans::{SetItems, Span};
use std::marker::Model;

/// A set with several items: its position among the sets, and how many.
#[derive(Clone, Copy)]
pub(crate) struct PackedCount {
    at: u16,
    count: u32,
}

/// Appends an item; None if memory runs out.
pub(crate) fn push<T: Drop>(items: &mut Vec<T>, item: T) -> Option<()>
    ensures { OnSome result (items.new.items ≡ items.old.items ++ item ∷ []) }
{
    match items.push(item) {
        Ok(()) => Some(()),
        Err(_) => None,
    }
}

/// Stores how many items the set at that position has, of which nothing was stored; for a set with one item nothing is.
/// None if the position is above 65,535, or memory runs out.
pub(crate) fn say_count(several: &mut Vec<PackedCount>, at: usize, count: u32) -> Option<()>
    requires { is_unsaid several.old.items at ≡ true }
    ensures { OnSome result (IsCounted at count several.old.items several.new.items) }
{
    if count == 1 {
        return Some(());
    }
    match u16::try_from(at) {
        Ok(at) => push(several, PackedCount { at, count }),
        Err(_) => None,
    }
}

/// How many items are in each set, and within which span of bytes their entries are, packed from `SetCounts`. A set
/// with one item takes 12 bytes, any other 20, without its setSpec, which counts share. Contracts see the sets with the
/// counts and spans; a set that is not there has no items.
#[derive(Drop)]
pub struct PackedCounts {
    sets: Vec<SharedSetSpec>,
    spans: Vec<Span>,
    /// The sets that do not have exactly one item.
    several: Vec<PackedCount>,
}

impl Model for PackedCounts {
    ghost use Rattle.std.specs.Prelude.{◌≡◌, List, length};
    ghost use Rattle.oai_sums.specs.Sums.{SetTotal, totals_from};

    ghost Value = { List SetTotal };

    ghost invariant = { λ c. length c.spans.items ≡ length c.sets.items };

    ghost view = { λ c. totals_from 0 c.sets.items c.spans.items c.several.items };
}

impl PackedCounts {
    /// The counts of these sets, with as many spans, in the same order. A set has one item if no entry of `several` has
    /// its position.
    pub(crate) fn new(
        sets: Vec<SharedSetSpec>,
        spans: Vec<Span>,
        several: Vec<PackedCount>,
    ) -> PackedCounts
        requires { length spans.items ≡ length sets.items }
        ensures { result ≡ totals_from 0 sets.items spans.items several.items }
    {
        PackedCounts {
            sets,
            spans,
            several,
        }
    }

    /// How many items are in the set.
    pub fn count(&self, set: &str) -> usize
        ensures { result ≡ counted_in set.now self.now }
    {
        self.items_of(set).count
    }

    /// How many items are in the set, and where. After `SetCounts::add_all` nothing is promised of where.
    pub fn items_of(&self, set: &str) -> SetItems
        ensures count { result.count ≡ counted_in set.now self.now }
        ensures span { result.span ≡ span_in set.now self.now }
    {
        for at in 0..self.len() {
            if set == self.set(at).as_str() {
                return SetItems {
                    count: self.count_at(at) as usize,
                    span: Some(self.span_at(at)),
                };
            }
        }
        SetItems {
            count: 0,
            span: None,
        }
    }

    /// How many sets have items.
    pub(crate) fn len(&self) -> usize
        ensures { result ≡ length self.now }
    {
        self.sets.len()
    }

    /// The set at that position.
    pub(crate) fn set(&self, at: usize) -> &SharedSetSpec
        requires { at < length self.now }
        ensures { HoldsAt (λ total. result.now ≡ total.set) self.now at }
    {
        &self.sets[at]
    }

    /// How many items are in the set at that position.
    pub(crate) fn count_at(&self, at: usize) -> u32
        requires { at < length self.now }
        ensures { HoldsAt (λ total. result ≡ total.count) self.now at }
    {
        for index in 0..self.several.len() {
            let own = self.several[index];
            if own.at as usize == at {
                return own.count;
            }
        }
        1
    }

    /// The span of the set at that position.
    fn span_at(&self, at: usize) -> Span
        requires { at < length self.now }
        ensures { HoldsAt (λ total. result ≡ total.span) self.now at }
    {
        self.spans[at]
    }

    /// Whether the set is none of the first `most`.
    pub(crate) fn lacks(&self, most: usize, set: &str) -> bool
        requires { most ≤ length self.now }
        ensures { IsTrue result → lacks set.now (take most self.now) ≡ true }
    {
        for at in 0..most {
            if set == self.set(at).as_str() {
                return false;
            }
        }
        true
    }
}
