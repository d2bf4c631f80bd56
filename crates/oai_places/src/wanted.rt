//! Which items are wanted.
ghost use Rattle.std.specs.Prelude.{◌≡◌, ◌<◌, length, true, HoldsAt};
ghost use Rattle.std.specs.Ordering.{is_gt};
ghost use Rattle.oai_item.specs.Item.{IsStamp, ItemState};
ghost use Rattle.oai_item.specs.Order.{place_cmp};
ghost use Rattle.oai_item.specs.Selection.{is_in_given, passes};
ghost use Rattle.oai_places.specs.Places.{is_wanted};

use crate::entries::Entries;
use oai_catalogue::Filter;
use oai_item::{ItemKey, Spelling};
use std::cmp::Ordering;

/// What is requested of a directory: the items that pass the filter, of those that come after a key.
#[derive(Clone, Copy)]
pub(crate) struct Wanted<'a> {
    /// What the items pass.
    pub(crate) filter: &'a Filter,
    /// What they come after.
    pub(crate) key: ItemKey<'a>,
}

/// Some of the wanted items, in their order: those after the first `skip`, at most `most` of them.
#[derive(Clone, Copy)]
pub(crate) struct Portion<'a> {
    pub(crate) wanted: Wanted<'a>,
    pub(crate) skip: usize,
    pub(crate) most: usize,
}

impl<'a> Wanted<'a> {
    /// All items that pass the filter.
    pub(crate) fn all(filter: &'a Filter) -> Wanted<'a>
        ensures { (item : ItemState) → IsStamp item.stamp
            → is_wanted result.filter.now result.key.stamp result.key.identifier.now item ≡ passes filter.now item }
    {
        let key = ItemKey {
            stamp: i64::MIN,
            identifier: "",
        };
        Wanted { filter, key }
    }
}

/// Whether the item at that position is wanted.
pub(crate) fn is_wanted(entries: &Entries, at: usize, wanted: Wanted<'_>) -> bool
    requires { at < length entries.now }
    ensures { HoldsAt (λ item. result ≡ is_wanted wanted.entry.filter.now wanted.entry.key.stamp wanted.entry.key.identifier.now item) entries.now at }
{
    is_item_wanted(&entries.spelled(at), wanted)
}

/// Whether the item is wanted. Its setSpecs are tested first, since most items are not in a requested set.
pub(crate) fn is_item_wanted(item: &Spelling<'_>, wanted: Wanted<'_>) -> bool
    ensures { result ≡ is_wanted wanted.entry.filter.now wanted.entry.key.stamp wanted.entry.key.identifier.now item.now }
{
    if !is_in_given(item, wanted.filter) {
        return false;
    }
    is_behind(item, wanted) && passes(item, wanted.filter)
}

/// Whether the item is in the set, if one is given.
fn is_in_given(item: &Spelling<'_>, filter: &Filter) -> bool
    ensures { result ≡ is_in_given filter.now.set item.now.sets }
{
    match &filter.set {
        Some(set) => item.is_in(set),
        None => true,
    }
}

/// Whether the item comes after the key.
fn is_behind(item: &Spelling<'_>, wanted: Wanted<'_>) -> bool
    ensures { result ≡ is_gt (place_cmp item.now wanted.entry.key.stamp wanted.entry.key.identifier.now) }
{
    item.order_to(wanted.key.stamp, wanted.key.identifier) == Ordering::Greater
}

/// Whether the item, which is in the filter's set, if it has one, passes the filter.
fn passes(item: &Spelling<'_>, filter: &Filter) -> bool
    requires given { is_in_given filter.now.set item.now.sets ≡ true }
    ensures { result ≡ passes filter.now item.now }
{
    let any_set = None;
    item.passes(filter.prefix.as_str(), filter.lower, filter.upper, &any_set)
}
