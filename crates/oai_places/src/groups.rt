//! Groups of consecutive leaves of a directory (zone maps): the statistics of a group save a look at each of its
//! leaves.
ghost use Rattle.std.specs.Prelude.{◌≡◌, ◌+◌, ◌<◌, ◌≤◌, List, [], None, length, drop, IfOk, IfSome, IsTrue};
ghost use Rattle.oai_places.specs.Places.{PlaceState};
ghost use Rattle.oai_places.specs.Sums.{AreReplaced, AreGroups, IsStretch, IsSoundGroup, IsSumInside};

use crate::known::ends_by;
use crate::places::SharedPlace;
use crate::sums::SharedSum;
use crate::wanted::Wanted;
use std::alloc::{AllocError, Global};
use std::marker::Model;

/// How many leaves a new group has.
const GROUP_PLACES: usize = 256;

/// If groups have fewer leaves on average, all are rebuilt.
const MIN_GROUP_PLACES: usize = 64;

/// The maximum number of leaves of a group, above which all groups are rebuilt.
const MAX_GROUP_PLACES: usize = 1_024;

/// Consecutive leaves.
#[derive(Drop)]
struct Group {
    first: usize,
    len: usize,
    /// None if one of the leaves was changed, or memory ran out.
    sum: Option<SharedSum>,
}

impl Model for Group {
    ghost use Rattle.oai_places.specs.Sums.{GroupState};

    ghost Value = { GroupState };

    ghost view = { λ g. record { first = g.first; len = g.len; sum = g.sum } };
}

/// Groups of consecutive leaves of a directory, in their order: for each, if it is known, how many items it has, with
/// which datestamps and prefixes, and how many are in each set. A leaf may be in none.
#[derive(Drop)]
pub struct Groups {
    groups: Vec<Group>,
}

impl Model for Groups {
    ghost use Rattle.std.specs.Prelude.{List};
    ghost use Rattle.oai_places.specs.Sums.{GroupState};

    ghost Value = { List GroupState };

    ghost view = { λ g. g.groups.items };
}

/// Leaves that are skipped, and how many of their items are wanted.
#[derive(Clone, Copy)]
pub(crate) struct Stretch {
    pub(crate) places: usize,
    pub(crate) items: usize,
}

impl Groups {
    /// No groups. Allocates nothing.
    pub fn new(alloc: Global) -> Groups
        ensures { result ≡ [] }
    {
        Groups {
            groups: Vec::new(alloc),
        }
    }

    /// A copy of the groups, which takes a few numbers for each, or no groups if memory runs out.
    pub fn copy(&self, alloc: Global) -> Groups
        ensures { (places : List PlaceState) → AreGroups places self.now → AreGroups places result }
    {
        match self.try_copy(alloc) {
            Ok(copy) => copy,
            Err(_) => Groups::new(alloc),
        }
    }

    /// A copy of the groups. The error is out of memory.
    fn try_copy(&self, alloc: Global) -> Result<Groups, AllocError>
        ensures { IfOk result (λ copy. copy ≡ self.now) }
    {
        let mut groups = Vec::with_capacity(alloc, self.groups.len())?;
        'groups: for at in 0..self.groups.len() {
            groups.push(self.groups[at].copy()?)?;
        }
        Ok(Groups { groups })
    }

    /// Invalidates the statistics of the groups that contain one of the `len` leaves from `at` on, which were replaced
    /// by `count` others. The groups behind are moved.
    pub fn exchange(&mut self, at: usize, len: usize, count: usize)
        ensures { (before after : List PlaceState) → AreReplaced at len count before after
            → AreGroups before self.old → AreGroups after self.new }
    {
        'groups: for near in 0..self.groups.len() {
            self.groups[near].exchange(at, len, count);
        }
    }

    /// Rebuilds the missing statistics of the groups, and makes groups of the leaves after the last one, as far as
    /// memory is available. If there are too many groups, or one has too many leaves, all are rebuilt.
    pub fn tend(&mut self, alloc: Global, places: &[SharedPlace])
        ensures { AreGroups places.now self.old → AreGroups places.now self.new }
    {
        if self.are_uneven(places.len()) {
            self.groups.clear();
        }
        self.sum_up(alloc, places);
        self.extend(alloc, places);
    }

    /// Whether there are too many groups for that many leaves, or one has too many leaves.
    fn are_uneven(&self, places: usize) -> bool {
        if self.groups.len() > 2 + places / MIN_GROUP_PLACES {
            return true;
        }
        self.groups.iter().any(|group| group.len > MAX_GROUP_PLACES)
    }

    /// Rebuilds the missing statistics of the groups, as far as memory is available.
    fn sum_up(&mut self, alloc: Global, places: &[SharedPlace])
        ensures { AreGroups places.now self.old → AreGroups places.now self.new }
    {
        'groups: for at in 0..self.groups.len() {
            self.groups[at].sum_up(alloc, places);
        }
    }

    /// Makes groups of the leaves after the last one, as far as memory is available. Fewer than make a group are left.
    fn extend(&mut self, alloc: Global, places: &[SharedPlace])
        ensures { AreGroups places.now self.old → AreGroups places.now self.new }
    {
        let end = self.end();
        if end > places.len() {
            return;
        }
        'groups: for at in 0..(places.len() - end) / GROUP_PLACES {
            let first = end + at * GROUP_PLACES;
            if self.push(Group::new(alloc, places, first)).is_err() {
                return;
            }
        }
    }

    /// Appends the group to the others. The error is out of memory.
    fn push(&mut self, group: Group) -> Result<(), AllocError>
        ensures { (places : List PlaceState) → IsSoundGroup places group → AreGroups places self.old → AreGroups places self.new }
    {
        self.groups.push(group)?;
        Ok(())
    }

    /// The position after the last leaf of the last group.
    fn end(&self) -> usize {
        match self.groups.last() {
            Some(group) => group.first.saturating_add(group.len),
            None => 0,
        }
    }

    /// The leaves from `at` on of the group that begins there, if it is known how many of their items are wanted.
    pub(crate) fn stretch_at(
        &self,
        places: &[SharedPlace],
        at: usize,
        wanted: Wanted<'_>,
    ) -> Option<Stretch>
        requires within { at < length places.now }
        requires groups { AreGroups places.now self.now }
        ensures { IfSome result (λ stretch. IsStretch places.now wanted.entry.filter.now wanted.entry.key.stamp wanted.entry.key.identifier.now
            at stretch.places stretch.items) }
    {
        let near = self.group_of(at);
        if near >= self.groups.len() {
            return None;
        }
        self.groups[near].stretch_at(places, at, wanted)
    }

    /// The position of the last group that begins at that leaf or before it, or 0.
    fn group_of(&self, at: usize) -> usize {
        let behind = self.groups.partition_point(|group| group.first <= at);
        behind.saturating_sub(1)
    }
}

impl Group {
    /// The group of some leaves from `first` on.
    fn new(alloc: Global, places: &[SharedPlace], first: usize) -> Group
        ensures { IsSoundGroup places.now result }
    {
        let mut group = Group {
            first,
            len: GROUP_PLACES,
            sum: None,
        };
        group.sum_up(alloc, places);
        group
    }

    /// A copy of the group. The error is out of memory.
    fn copy(&self) -> Result<Group, AllocError>
        ensures { IfOk result (λ copy. copy ≡ self.now) }
    {
        let sum = match &self.sum {
            Some(sum) => Some(sum.copy()?),
            None => None,
        };
        Ok(Group {
            first: self.first,
            len: self.len,
            sum,
        })
    }

    /// Invalidates the statistics of the group if `len` leaves from `at` on were changed, some of them its own, and
    /// replaced by `count` others: these belong to the group of the first of the old ones.
    fn exchange(&mut self, at: usize, len: usize, count: usize)
        ensures { (before after : List PlaceState) → AreReplaced at len count before after
            → IsSoundGroup before self.old → IsSoundGroup after self.new }
    {
        if self.ends_by(at) {
            return;
        }
        if let Some(first) = place_after(self.first, at, len, count) {
            self.first = first;
            return;
        }
        self.sum = None;
        let end = self.first.saturating_add(self.len);
        let behind = end.saturating_sub(at.saturating_add(len));
        if at < self.first {
            self.first = at.saturating_add(count);
            self.len = behind;
        } else {
            self.len = (at - self.first)
                .saturating_add(count)
                .saturating_add(behind);
        }
    }

    /// Whether the leaf at `at` is behind those of the group.
    fn ends_by(&self, at: usize) -> bool
        ensures { IsTrue result → self.now.first + self.now.len ≤ at }
    {
        self.first <= at && self.len <= at - self.first
    }

    /// Rebuilds the statistics of the leaves of the group, as far as memory is available.
    fn sum_up(&mut self, alloc: Global, places: &[SharedPlace])
        ensures { IsSoundGroup places.now self.old → IsSoundGroup places.now self.new }
    {
        if self.sum.is_some() {
            return;
        }
        if self.first > places.len() {
            return;
        }
        let rest = &places[self.first..];
        if self.len > rest.len() {
            return;
        }
        self.sum = SharedSum::of(alloc, &rest[..self.len]);
    }

    /// The leaves of the group, if it begins at `at` and it is known how many of their items are wanted.
    fn stretch_at(&self, places: &[SharedPlace], at: usize, wanted: Wanted<'_>) -> Option<Stretch>
        requires within { at < length places.now }
        requires group { IsSoundGroup places.now self.now }
        ensures { IfSome result (λ stretch. IsStretch places.now wanted.entry.filter.now wanted.entry.key.stamp wanted.entry.key.identifier.now
            at stretch.places stretch.items) }
    {
        let Some(sum) = &self.sum else {
            return None;
        };
        let len = self.len;
        if self.first != at {
            return None;
        }
        if len == 0 {
            return None;
        }
        if len > places.len() - at {
            return None;
        }
        let filter = wanted.filter;
        let items = sum.items_in(&filter.set)?;
        if items > 0 {
            if !is_inside(sum, &places[at + len..], wanted) {
                return None;
            }
        }
        Some(Stretch { places: len, items })
    }
}

/// The position of the leaf at `first` after a change of `len` leaves from `at` on, which were replaced by `count`
/// others; None if it is one of those that were changed, or precedes them.
fn place_after(first: usize, at: usize, len: usize, count: usize) -> Option<usize>
    ensures { IfSome result (λ new. (at + len ≤ first) × (new + len ≡ first + count)) }
{
    if len > first {
        return None;
    }
    if at > first - len {
        return None;
    }
    (first - len).checked_add(count)
}

/// Whether it is known that all items of the leaves of the sum are wanted that are in the set, if one is requested. The
/// next leaves are these.
fn is_inside(sum: &SharedSum, next: &[SharedPlace], wanted: Wanted<'_>) -> bool
    ensures { IsTrue result → IsSumInside sum.now next.now wanted.entry.filter.now wanted.entry.key.stamp wanted.entry.key.identifier.now }
{
    let filter = wanted.filter;
    let least = sum.least();
    if filter.lower > least {
        return false;
    }
    if wanted.key.stamp >= least {
        return false;
    }
    if !sum.has_prefix(filter.prefix.as_str()) {
        return false;
    }
    if sum.greatest() > filter.upper {
        return false;
    }
    ends_by(next, filter.upper)
}
