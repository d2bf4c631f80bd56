//! Statistics of the items of a directory, without reading them.
ghost use Rattle.std.specs.Prelude.{◌<◌, length, HoldsAt, IfSome, IsTrue};
ghost use Rattle.oai_places.specs.Parts.{EndsBy, IsInside, IsKnown, IsOutside};
ghost use Rattle.oai_places.specs.Picking.{IsPickable};
ghost use Rattle.oai_places.specs.Searches.{StartsAt};

use crate::picking::sparse_span;
use crate::places::SharedPlace;
use crate::searches::leaf_of;
use crate::wanted::Wanted;
use oai_item::ItemKey;
use oai_sums::Span;
use oai_time::LAST_SECOND;
use std::cmp::Ordering;

/// The first leaf that may have wanted items.
pub(crate) fn start_of(places: &[SharedPlace], wanted: Wanted<'_>) -> usize
    ensures { StartsAt places.now wanted.entry.filter.now wanted.entry.key.stamp wanted.entry.key.identifier.now result }
{
    let filter = wanted.filter;
    if filter.lower > wanted.key.stamp {
        let lower = ItemKey {
            stamp: filter.lower,
            identifier: "",
        };
        leaf_of(places, lower)
    } else {
        leaf_of(places, wanted.key)
    }
}

/// What is known of the wanted items of a leaf without reading its pages.
#[derive(Clone, Copy)]
pub(crate) struct KnownItems {
    /// How many there are, if it is known.
    pub(crate) count: Option<usize>,
    /// The span of the leaf's items that are in the requested set, if it has one page, and at most half of its items
    /// are in the set.
    pub(crate) span: Option<Span>,
}

/// What is known of the wanted items of the leaf without reading its pages.
pub(crate) fn known_at(places: &[SharedPlace], at: usize, wanted: Wanted<'_>) -> KnownItems
    requires { at < length places.now }
    ensures count { IfSome result.count (λ n. IsKnown places.now at wanted.entry.filter.now wanted.entry.key.stamp wanted.entry.key.identifier.now n) }
    ensures span { IfSome result.span (λ span. HoldsAt (λ place. IsPickable place wanted.entry.filter.now.set span) places.now at) }
{
    if is_outside(places, at, wanted) {
        return KnownItems {
            count: Some(0),
            span: None,
        };
    }
    let place = &places[at];
    let filter = wanted.filter;
    let Some(items) = place.items_of(&filter.set) else {
        return KnownItems {
            count: None,
            span: None,
        };
    };
    let span = sparse_span(place, items);
    if items.count == 0 {
        return KnownItems {
            count: Some(0),
            span,
        };
    }
    if is_inside(places, at, wanted) {
        return KnownItems {
            count: Some(items.count),
            span,
        };
    }
    KnownItems { count: None, span }
}

/// Whether it is known without reading its page that all items of the leaf are wanted that are in the set, if one is
/// requested.
fn is_inside(places: &[SharedPlace], at: usize, wanted: Wanted<'_>) -> bool
    requires { at < length places.now }
    ensures { IsTrue result → IsInside places.now at wanted.entry.filter.now wanted.entry.key.stamp wanted.entry.key.identifier.now }
{
    let place = &places[at];
    let filter = wanted.filter;
    if filter.lower > place.stamp() {
        return false;
    }
    if place.order_to(wanted.key) != Ordering::Greater {
        return false;
    }
    if !place.has_prefix(filter.prefix.as_str()) {
        return false;
    }
    ends_by(&places[at + 1..], filter.upper)
}

/// Whether it is known without reading its pages that no item of the leaf is wanted: it has one alone, which continues
/// on overflow pages, and precedes the lower bound, or does not come after the key.
fn is_outside(places: &[SharedPlace], at: usize, wanted: Wanted<'_>) -> bool
    requires { at < length places.now }
    ensures { IsTrue result → IsOutside places.now at wanted.entry.filter.now wanted.entry.key.stamp wanted.entry.key.identifier.now }
{
    let place = &places[at];
    let filter = wanted.filter;
    if !place.is_long() {
        return false;
    }
    if filter.lower > place.stamp() {
        return true;
    }
    place.order_to(wanted.key) != Ordering::Greater
}

/// Whether all items before these leaves have a datestamp of at most `upper`, in seconds from 1970 on.
pub(crate) fn ends_by(places: &[SharedPlace], upper: i64) -> bool
    ensures { IsTrue result → EndsBy places.now upper }
{
    match places {
        [] => upper >= LAST_SECOND,
        [next, ..] => next.stamp() <= upper,
    }
}
