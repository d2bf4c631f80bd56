ghost use Rattle.std.specs.Prelude.{◌≡◌, ◌+◌, ◌&&◌, ◌++◌, ◌∷◌, if◌then◌else◌, ℕ, List, [], length, not, true, IfSome, MatchOption, OnSome};
ghost use Rattle.std.specs.Str.{bytes_eq};
ghost use Rattle.oai_item.specs.Membership.{is_in};
ghost use Rattle.oai_names.specs.Sets.{covers};
ghost use Rattle.oai_sums.specs.Sums.{CountsMore, IsFirstAt, SpansMore, counted_in, lacks, totals_from, widened};

use crate::packed_counts::{PackedCount, PackedCounts, push, say_count};
use crate::set_names::{SetNames, SharedSetSpec};
use crate::spans::Span;
use oai_item::SpelledSets;
use oai_names::{covers, parent_of};
use std::alloc::Global;
use std::marker::Model;

/// The maximum number of sets that are counted.
pub const MAX_COUNTED_SETS: usize = 64;

/// The span that is stored if it is not known where the items are.
const UNKNOWN: Span = Span { from: 0, to: 0 };

/// A set, how many items are in it, and within which span of bytes their entries are.
#[derive(Drop)]
struct SetCount {
    set: SharedSetSpec,
    count: u32,
    span: Span,
}

impl Model for SetCount {
    ghost use Rattle.oai_sums.specs.Sums.{SetTotal};

    ghost Value = { SetTotal };

    ghost view = { λ c. record { set = c.set; count = c.count; span = c.span } };
}

impl SetCount {
    /// A set with that many items, in that span.
    fn of(set: SharedSetSpec, count: u32, span: Span) -> SetCount
        ensures { result ≡ record { set = set; count = count; span = span } }
    {
        SetCount { set, count, span }
    }

    /// The setSpec.
    fn set(&self) -> &str
        ensures { result.now ≡ self.now.set }
    {
        self.set.as_str()
    }

    /// Counts one more item, whose entry follows the others; None on overflow of the count.
    fn add_one(&mut self, span: Span) -> Option<()>
        ensures { OnSome result (self.new ≡ record { set = self.old.set; count = self.old.count + 1; span = widened (Some self.old.span) span }) }
    {
        self.add(1)?;
        self.span.to = span.to;
        Some(())
    }

    /// Counts that many items more; None on overflow of the count.
    fn add(&mut self, more: u32) -> Option<()>
        ensures { OnSome result (self.new ≡ record { set = self.old.set; count = self.old.count + more; span = self.old.span }) }
    {
        match self.count.checked_add(more) {
            Some(count) => {
                self.count = count;
                Some(())
            }
            None => None,
        }
    }
}

/// How many items are in each set, and within which span of bytes their entries are, while they are counted: in the
/// sets of their setSpecs, and in the ancestors of these. An item counts once in each. Contracts see the sets with the
/// counts and spans; a set that is not there has no items.
#[derive(Drop)]
pub struct SetCounts {
    counts: Vec<SetCount>,
}

impl Model for SetCounts {
    ghost use Rattle.std.specs.Prelude.{List};
    ghost use Rattle.oai_sums.specs.Sums.{SetTotal};

    ghost Value = { List SetTotal };

    ghost view = { λ c. c.counts.items };
}

impl SetCounts {
    /// The counts of no items. Allocates nothing.
    pub fn new(alloc: Global) -> SetCounts
        ensures { result ≡ [] }
    {
        SetCounts {
            counts: Vec::new(alloc),
        }
    }

    /// Counts an item with these setSpecs, whose entry has that span and follows the others. None if there would be
    /// more than `MAX_COUNTED_SETS` sets, if a count overflows, or if memory runs out; the counts are then unspecified.
    pub fn add(&mut self, names: &mut SetNames, sets: SpelledSets<'_>, span: Span) -> Option<()>
        ensures counts { OnSome result (CountsMore (λ set. is_in set sets.entry) self.old self.new) }
        ensures spans { OnSome result (SpansMore (λ set. is_in set sets.entry) span self.old self.new) }
    {
        if sets.len() > MAX_COUNTED_SETS {
            return None;
        }
        let mut rest = sets;
        while let Some(set) = rest.next() {
            self.add_path(names, set, &rest, span)?;
        }
        Some(())
    }

    /// Adds other counts. None if there would be more than `MAX_COUNTED_SETS` sets, if a count overflows, or if memory
    /// runs out; the counts are then unspecified. In any case the spans are unknown afterwards.
    pub fn add_all(&mut self, others: &PackedCounts) -> Option<()>
        ensures { OnSome result ((set : List ℕ) → counted_in set self.new ≡ counted_in set self.old + counted_in set others.now) }
    {
        for at in 0..others.len() {
            let set = others.set(at);
            if !others.lacks(at, set.as_str()) {
                return None;
            }
            self.add_count(set, others.count_at(at))?;
        }
        Some(())
    }

    /// Counts that many items more in the set. None if there would be more than `MAX_COUNTED_SETS` sets, if the count
    /// overflows, or if memory runs out. Nothing is promised of its span.
    fn add_count(&mut self, set: &SharedSetSpec, more: u32) -> Option<()>
        ensures { OnSome result ((q : List ℕ) → counted_in q self.new
            ≡ counted_in q self.old + (if bytes_eq q set.now then more else 0)) }
    {
        match self.position_of(set.as_str()) {
            Some(at) => self.counts[at].add(more),
            None => {
                if self.counts.len() >= MAX_COUNTED_SETS {
                    return None;
                }
                self.push(set.copy()?, more, UNKNOWN)
            }
        }
    }

    /// The position of the set; None if it is not there.
    fn position_of(&self, set: &str) -> Option<usize>
        ensures { MatchOption result (lacks set.now self.now ≡ true) (IsFirstAt set.now self.now) }
    {
        for at in 0..self.counts.len() {
            if set == self.counts[at].set() {
                return Some(at);
            }
        }
        None
    }

    /// Appends a set with that many items, in that span. None if memory runs out.
    fn push(&mut self, set: SharedSetSpec, count: u32, span: Span) -> Option<()>
        ensures { OnSome result (self.new ≡ self.old ++ record { set = set; count = count; span = span } ∷ []) }
    {
        push(&mut self.counts, SetCount::of(set, count, span))
    }

    /// The same counts, packed: without spare capacity, as far as possible. None if memory runs out.
    pub fn packed(&self, alloc: Global) -> Option<PackedCounts>
        ensures { IfSome result (λ packed. packed ≡ self.now) }
    {
        let len = self.counts.len();
        let Ok(mut sets) = Vec::with_capacity(alloc, len) else {
            return None;
        };
        let Ok(mut spans) = Vec::with_capacity(alloc, len) else {
            return None;
        };
        let mut several = Vec::new(alloc);
        self.pack(&mut sets, &mut spans, &mut several)?;
        several.shrink_to_fit();
        Some(PackedCounts::new(sets, spans, several))
    }

    /// Appends to these the sets and their spans, in the same order, and the counts of the sets that do not have
    /// exactly one item. None if memory runs out.
    fn pack(
        &self,
        sets: &mut Vec<SharedSetSpec>,
        spans: &mut Vec<Span>,
        several: &mut Vec<PackedCount>,
    ) -> Option<()>
        requires sets { sets.old.items ≡ [] }
        requires spans { spans.old.items ≡ [] }
        requires several { several.old.items ≡ [] }
        ensures many { OnSome result (length spans.new.items ≡ length sets.new.items) }
        ensures totals { OnSome result (totals_from 0 sets.new.items spans.new.items several.new.items ≡ self.now) }
    {
        let len = self.counts.len();
        for at in 0..len {
            let count = &self.counts[at];
            push(sets, count.set.copy()?)?;
            push(spans, count.span)?;
            say_count(several, at, count.count)?;
        }
        Some(())
    }

    /// Counts an item with that span in the set and in its ancestors, except in those that another of the setSpecs
    /// implies.
    fn add_path(
        &mut self,
        names: &mut SetNames,
        set: &str,
        others: &SpelledSets<'_>,
        span: Span,
    ) -> Option<()>
        ensures counts { OnSome result (CountsMore (λ q. covers q set.now && not (is_in q others.now)) self.old self.new) }
        ensures spans { OnSome result (SpansMore (λ q. covers q set.now && not (is_in q others.now)) span self.old self.new) }
    {
        let mut path = set;
        self.add_unless(names, path, others, span)?;
        while let Some(parent) = parent_of(path) {
            self.add_unless(names, parent, others, span)?;
            path = parent;
        }
        Some(())
    }

    /// Counts an item with that span in the set, unless another of the setSpecs implies it.
    fn add_unless(
        &mut self,
        names: &mut SetNames,
        set: &str,
        others: &SpelledSets<'_>,
        span: Span,
    ) -> Option<()>
        ensures counts { OnSome result (CountsMore (λ q. bytes_eq q set.now && not (is_in q others.now)) self.old self.new) }
        ensures spans { OnSome result (SpansMore (λ q. bytes_eq q set.now && not (is_in q others.now)) span self.old self.new) }
    {
        if is_in(others.copy(), set) {
            return Some(());
        }
        self.add_one(names, set, span)
    }

    /// Counts an item with that span in the set.
    fn add_one(&mut self, names: &mut SetNames, set: &str, span: Span) -> Option<()>
        ensures counts { OnSome result (CountsMore (λ q. bytes_eq q set.now) self.old self.new) }
        ensures spans { OnSome result (SpansMore (λ q. bytes_eq q set.now) span self.old self.new) }
    {
        match self.position_of(set) {
            Some(at) => self.counts[at].add_one(span),
            None => {
                if self.counts.len() >= MAX_COUNTED_SETS {
                    return None;
                }
                self.push(names.name(set)?, 1, span)
            }
        }
    }
}

/// Whether an item with these setSpecs is in the set.
#[tactic(auto, unfolding(oai_item::specs::Membership::is_in))]
fn is_in(mut sets: SpelledSets<'_>, set: &str) -> bool
    ensures { result ≡ is_in set.now sets.entry }
{
    while let Some(other) = sets.next() {
        if covers(set, other) {
            return true;
        }
    }
    false
}
