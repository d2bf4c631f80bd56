//! Statistics of the items of consecutive leaves, without a look at each of the leaves.
ghost use Rattle.std.specs.Prelude.{◌≡◌, ◌+◌, ℕ, List, int_le, is_some, sum_by, true, IfOk, IfSome, OnSome};
ghost use Rattle.std.specs.List.{list_all};
ghost use Rattle.oai_names.specs.Names.{is_among};
ghost use Rattle.oai_places.specs.Places.{PlaceState};
ghost use Rattle.oai_places.specs.Sums.{AreTotals, IsSum, counted_at, have_prefixes, known_in_sum};
ghost use Rattle.oai_sums.specs.Sums.{counted_in};

use crate::places::{SharedPlace, is_among};
use oai_names::{Prefix, Sequence, SetSpec};
use oai_sums::{PackedCounts, SetCounts};
use std::alloc::{AllocError, Global};
use std::marker::Model;
use std::rc::Rc;

/// The statistics of the items of several leaves (zone maps).
#[derive(Drop)]
struct Sum {
    items: usize,
    /// No leaf begins before this datestamp.
    least: i64,
    /// No leaf begins after this datestamp.
    greatest: i64,
    prefixes: Sequence<Prefix>,
    /// None if there were too many sets, or memory ran out.
    sets: Option<PackedCounts>,
}

impl Model for Sum {
    ghost use Rattle.oai_places.specs.Sums.{SumState};

    ghost Value = { SumState };

    ghost view = { λ s. record {
      items = s.items;
      least = s.least;
      greatest = s.greatest;
      prefixes = s.prefixes;
      sets = s.sets;
    } };
}

/// A sum that the directories of several versions may share: a copy of it allocates nothing.
#[derive(Drop)]
pub(crate) struct SharedSum {
    sum: Rc<Sum>,
}

impl Model for SharedSum {
    ghost use Rattle.oai_places.specs.Sums.{SumState};

    ghost Value = { SumState };

    ghost view = { λ s. s.sum.value };
}

impl SharedSum {
    /// The sum of the leaves. None if the number of their items overflows, if they are not in order, or if memory runs
    /// out.
    pub(crate) fn of(alloc: Global, places: &[SharedPlace]) -> Option<SharedSum>
        ensures { IfSome result (λ sum. IsSum sum places.now) }
    {
        let (Some(first), Some(last)) = (places.first(), places.last()) else {
            return None;
        };
        let (least, greatest) = (first.stamp(), last.stamp());
        if !begin_from(places, least) {
            return None;
        }
        if !begin_by(places, greatest) {
            return None;
        }
        let items = items_of(places)?;
        let Ok(prefixes) = prefixes_of(alloc, first, places) else {
            return None;
        };
        let sum = Sum {
            items,
            least,
            greatest,
            prefixes,
            sets: sets_of(alloc, places),
        };
        match Rc::new(alloc, sum) {
            Ok(sum) => Some(SharedSum { sum }),
            Err(_) => None,
        }
    }

    /// A reference-counted copy of the sum. The error is out of memory, if the count would overflow.
    pub(crate) fn copy(&self) -> Result<SharedSum, AllocError>
        ensures { IfOk result (λ copy. copy ≡ self.now) }
    {
        Ok(SharedSum {
            sum: self.sum.clone()?,
        })
    }

    /// How many items are in the set, if one is given, or else how many there are; None if it is not known.
    pub(crate) fn items_in(&self, set: &Option<SetSpec>) -> Option<usize>
        ensures { result ≡ known_in_sum self.now set.now }
    {
        match set {
            Some(set) => match &self.sum.sets {
                Some(counts) => Some(counts.count(set.as_str())),
                None => None,
            },
            None => Some(self.sum.items),
        }
    }

    /// Whether the prefix is one of those with which each item is known to have a record.
    pub(crate) fn has_prefix(&self, prefix: &str) -> bool
        ensures { result ≡ is_among self.now.prefixes prefix.now }
    {
        is_among(self.sum.prefixes.as_slice(), prefix)
    }

    /// The datestamp before which no leaf begins, in seconds from 1970 on.
    pub(crate) fn least(&self) -> i64
        ensures { result ≡ self.now.least }
    {
        self.sum.least
    }

    /// The datestamp after which no leaf begins, in seconds from 1970 on.
    pub(crate) fn greatest(&self) -> i64
        ensures { result ≡ self.now.greatest }
    {
        self.sum.greatest
    }
}

/// Whether no leaf begins before the datestamp, in seconds from 1970 on.
fn begin_from(places: &[SharedPlace], stamp: i64) -> bool
    ensures { result ≡ list_all (λ (place : PlaceState). int_le stamp place.stamp) places.now }
{
    places.iter().all(|place| stamp <= place.stamp())
}

/// Whether no leaf begins after the datestamp, in seconds from 1970 on.
fn begin_by(places: &[SharedPlace], stamp: i64) -> bool
    ensures { result ≡ list_all (λ (place : PlaceState). int_le place.stamp stamp) places.now }
{
    places.iter().all(|place| place.stamp() <= stamp)
}

/// How many items the leaves have together; None on overflow.
fn items_of(places: &[SharedPlace]) -> Option<usize>
    ensures { IfSome result (λ items. sum_by (λ (place : PlaceState). place.len) places.now ≡ items) }
{
    let mut items = 0usize;
    'places: for at in 0..places.len() {
        items = items.checked_add(places[at].len())?;
    }
    Some(items)
}

/// Those of the prefixes of a leaf that each of the leaves has. The error is out of memory.
fn prefixes_of(
    alloc: Global,
    first: &SharedPlace,
    places: &[SharedPlace],
) -> Result<Sequence<Prefix>, AllocError>
    ensures { IfOk result (λ prefixes. have_prefixes prefixes places.now ≡ true) }
{
    let own = first.prefixes().as_slice();
    let mut prefixes = Vec::new(alloc);
    'prefixes: for at in 0..own.len() {
        let prefix = &own[at];
        if each_has(places, prefix.as_str()) {
            prefixes.push(Prefix::new(alloc, prefix.as_str())?)?;
        }
    }
    Ok(Sequence::new(prefixes))
}

/// Whether each of the leaves has the prefix.
fn each_has(places: &[SharedPlace], prefix: &str) -> bool
    ensures { result ≡ list_all (λ (place : PlaceState). is_among place.prefixes prefix.now) places.now }
{
    places.iter().all(|place| place.has_prefix(prefix))
}

/// How many items of the leaves are in each set. None if it is not known of each leaf, if there are too many sets, or
/// if memory runs out.
fn sets_of(alloc: Global, places: &[SharedPlace]) -> Option<PackedCounts>
    ensures { IfSome result (λ totals. AreTotals totals places.now) }
{
    let mut totals = SetCounts::new(alloc);
    'places: for at in 0..places.len() {
        add_sets(&mut totals, &places[at])?;
    }
    totals.packed(alloc)
}

/// Counts the items of the place too. None where it is not known how many are in each set, where there would be too many sets, or memory is refused.
fn add_sets(totals: &mut SetCounts, place: &SharedPlace) -> Option<()>
    ensures known { OnSome result (is_some place.now.sets ≡ true) }
    ensures counts { OnSome result ((set : List ℕ) → counted_in set totals.new ≡ counted_in set totals.old + counted_at set place.now.sets) }
{
    match place.sets() {
        Some(counts) => totals.add_all(counts),
        None => None,
    }
}
