//! Parts of the items of a directory that are wanted.
ghost use Rattle.std.specs.Prelude.{◌≡◌, ◌+◌, ◌<◌, ◌≤◌, length, take, drop, filter, true, HoldsAt, IfOk, IsTrue};
ghost use Rattle.std.specs.List.{list_all};
ghost use Rattle.oai_item.specs.Items.{items_after};
ghost use Rattle.oai_item.specs.Selection.{selected};
ghost use Rattle.oai_places.specs.Calls.{ReadsPages};
ghost use Rattle.oai_places.specs.Directory.{StandsIn};
ghost use Rattle.oai_places.specs.Parts.{IsKnown, IsPartTaken};
ghost use Rattle.oai_places.specs.Places.{is_wanted, items_at, items_on};
ghost use Rattle.oai_places.specs.Sums.{AreGroups};

use crate::entries::Entries;
use crate::known::{known_at, start_of};
use crate::leaves::LeafList;
use crate::picking::pick_at;
use crate::reading::read_place;
use crate::wanted::{Portion, Wanted, is_item_wanted};
use oai_catalogue::Filter;
use oai_item::{Fault, Item, ItemKey};
use oai_names::Sequence;
use oai_pool::PagePool;
use std::alloc::{AllocError, Global};

/// Leaves of which the wanted items were taken, and how many more are to be skipped.
#[derive(Clone, Copy)]
struct PartStep {
    places: usize,
    left: usize,
}

impl LeafList<'_> {
    /// The items that pass the filter, in their order, after the first `skip`, at most `most` of them. It skips leaves
    /// by the number of their items, and reads the pages of the items that it returns. Any fault but `TooManyPages`.
    pub fn part<P: PagePool>(
        self,
        alloc: Global,
        pages: &mut P,
        filter: &Filter,
        skip: usize,
        most: usize,
    ) -> Result<Sequence<Item>, Fault>
        requires stands { StandsIn P.PagePool pages.old self.places.now }
        requires groups { AreGroups self.places.now self.groups.now }
        ensures part { IfOk result (λ part. IsTrue (P.honest pages.old)
            → part ≡ take most (drop skip (selected filter.now (items_on (P.pages pages.old) self.entry.places.now)))) }
        ensures pages { ReadsPages P.PagePool result pages.old pages.new }
    {
        let wanted = Wanted::all(filter);
        self.part_wanted(alloc, pages, Portion { wanted, skip, most })
    }

    /// The items that pass the filter, in their order, that come after the key, at most `most` of them. It begins with
    /// a binary search, and reads the pages of the items that it returns. Any fault but `TooManyPages`.
    pub fn part_after<P: PagePool>(
        self,
        alloc: Global,
        pages: &mut P,
        filter: &Filter,
        key: ItemKey<'_>,
        most: usize,
    ) -> Result<Sequence<Item>, Fault>
        requires stands { StandsIn P.PagePool pages.old self.places.now }
        requires groups { AreGroups self.places.now self.groups.now }
        ensures part { IfOk result (λ part. IsTrue (P.honest pages.old)
            → part ≡ take most (selected filter.now
            (items_after key.entry.stamp key.entry.identifier.now (items_on (P.pages pages.old) self.entry.places.now)))) }
        ensures pages { ReadsPages P.PagePool result pages.old pages.new }
    {
        let wanted = Wanted { filter, key };
        self.part_wanted(
            alloc,
            pages,
            Portion {
                wanted,
                skip: 0,
                most,
            },
        )
    }

    /// The items of the portion, in their order.
    fn part_wanted<P: PagePool>(
        self,
        alloc: Global,
        pages: &mut P,
        portion: Portion<'_>,
    ) -> Result<Sequence<Item>, Fault>
        requires stands { StandsIn P.PagePool pages.old self.places.now }
        requires groups { AreGroups self.places.now self.groups.now }
        ensures part { IfOk result (λ part. IsTrue (P.honest pages.old)
            → part ≡ take portion.entry.most (drop portion.entry.skip (filter (is_wanted portion.entry.wanted.filter.now portion.entry.wanted.key.stamp portion.entry.wanted.key.identifier.now)
            (items_on (P.pages pages.old) self.entry.places.now)))) }
        ensures pages { ReadsPages P.PagePool result pages.old pages.new }
    {
        let places = self.places;
        let Portion { wanted, skip, most } = portion;
        let filter = wanted.filter;
        let mut part = Vec::new(alloc);
        let mut left = skip;
        let mut at = start_of(places, wanted);
        'places: while at < places.len() {
            if part.len() >= most {
                break;
            }
            if places[at].stamp() > filter.upper {
                break;
            }
            let rest = Portion {
                wanted,
                skip: left,
                most,
            };
            let taken = self.take_from(alloc, pages, at, rest, &mut part)?;
            left = taken.left;
            at += taken.places;
        }
        Ok(Sequence::new(part))
    }

    /// Appends those of the portion of some leaves from `at` on to the part, which has at most `portion.most` items;
    /// returns how many remain to be skipped: those of a group that is skipped, or else one leaf.
    fn take_from<P: PagePool>(
        self,
        alloc: Global,
        pages: &mut P,
        at: usize,
        portion: Portion<'_>,
        part: &mut Vec<Item>,
    ) -> Result<PartStep, Fault>
        requires within { at < length self.places.now }
        requires stands { StandsIn P.PagePool pages.old self.places.now }
        requires groups { AreGroups self.places.now self.groups.now }
        ensures taken { IfOk result (λ taken. IsTrue (P.honest pages.old)
            → IsPartTaken (is_wanted portion.entry.wanted.filter.now portion.entry.wanted.key.stamp portion.entry.wanted.key.identifier.now) portion.entry.most
            part.old.items part.new.items portion.entry.skip taken.left (items_on (P.pages pages.old) (take taken.places (drop at self.entry.places.now)))) }
        ensures some { IfOk result (λ taken. 0 < taken.places) }
        ensures end { IfOk result (λ taken. at + taken.places ≤ length self.entry.places.now) }
        ensures pages { ReadsPages P.PagePool result pages.old pages.new }
    {
        if let Some(stretch) = self.groups.stretch_at(self.places, at, portion.wanted) {
            if portion.skip >= stretch.items {
                let left = portion.skip - stretch.items;
                return Ok(PartStep {
                    places: stretch.places,
                    left,
                });
            }
        }
        let left = self.take_at(alloc, pages, at, portion, part)?;
        Ok(PartStep { places: 1, left })
    }

    /// Appends the items of the portion in the leaf to the part; returns how many remain to be skipped.
    fn take_at<P: PagePool>(
        self,
        alloc: Global,
        pages: &mut P,
        at: usize,
        portion: Portion<'_>,
        part: &mut Vec<Item>,
    ) -> Result<usize, Fault>
        requires within { at < length self.places.now }
        requires stands { StandsIn P.PagePool pages.old self.places.now }
        ensures taken { IfOk result (λ left. IsTrue (P.honest pages.old)
            → HoldsAt (λ place. IsPartTaken (is_wanted portion.entry.wanted.filter.now portion.entry.wanted.key.stamp portion.entry.wanted.key.identifier.now) portion.entry.most
            part.old.items part.new.items portion.entry.skip left (items_at (P.pages pages.old) place)) self.entry.places.now at) }
        ensures pages { ReadsPages P.PagePool result pages.old pages.new }
    {
        let places = self.places;
        let known = known_at(places, at, portion.wanted);
        if let Some(count) = known.count {
            if portion.skip >= count {
                return Ok(portion.skip - count);
            }
            if count == places[at].len() {
                return self.take_whole(alloc, pages, at, portion, part);
            }
        }
        let place = &places[at];
        if let Some(span) = known.span {
            return pick_at(alloc, pages, place, span, portion, part);
        }
        self.take_read(alloc, pages, at, portion, part)
    }

    /// As `take_at` does, of a leaf whose items are all known to be wanted, more than are to be skipped: none is tested.
    fn take_whole<P: PagePool>(
        self,
        alloc: Global,
        pages: &mut P,
        at: usize,
        portion: Portion<'_>,
        part: &mut Vec<Item>,
    ) -> Result<usize, Fault>
        requires within { at < length self.places.now }
        requires stands { StandsIn P.PagePool pages.old self.places.now }
        requires known { HoldsAt (λ place. IsKnown self.places.now at portion.wanted.filter.now portion.wanted.key.stamp portion.wanted.key.identifier.now place.len) self.places.now at }
        requires more { HoldsAt (λ place. portion.skip < place.len) self.places.now at }
        ensures taken { IfOk result (λ left. IsTrue (P.honest pages.old)
            → HoldsAt (λ place. IsPartTaken (is_wanted portion.entry.wanted.filter.now portion.entry.wanted.key.stamp portion.entry.wanted.key.identifier.now) portion.entry.most
            part.old.items part.new.items portion.entry.skip left (items_at (P.pages pages.old) place)) self.entry.places.now at) }
        ensures pages { ReadsPages P.PagePool result pages.old pages.new }
    {
        let entries = read_place(alloc, pages, self.places, at)?;
        Ok(take_all(alloc, &entries, portion, part)?)
    }

    /// As `take_at` does, with all entries of the place read.
    fn take_read<P: PagePool>(
        self,
        alloc: Global,
        pages: &mut P,
        at: usize,
        portion: Portion<'_>,
        part: &mut Vec<Item>,
    ) -> Result<usize, Fault>
        requires within { at < length self.places.now }
        requires stands { StandsIn P.PagePool pages.old self.places.now }
        ensures taken { IfOk result (λ left. IsTrue (P.honest pages.old)
            → HoldsAt (λ place. IsPartTaken (is_wanted portion.entry.wanted.filter.now portion.entry.wanted.key.stamp portion.entry.wanted.key.identifier.now) portion.entry.most
            part.old.items part.new.items portion.entry.skip left (items_at (P.pages pages.old) place)) self.entry.places.now at) }
        ensures pages { ReadsPages P.PagePool result pages.old pages.new }
    {
        let entries = read_place(alloc, pages, self.places, at)?;
        Ok(take_in(alloc, &entries, portion, part)?)
    }
}

/// Appends to the part those of the entries that are wanted, after the first ones that are to be skipped, until it has
/// `portion.most` items; returns how many remain to be skipped. The error is out of memory.
fn take_in(
    alloc: Global,
    entries: &Entries,
    portion: Portion<'_>,
    part: &mut Vec<Item>,
) -> Result<usize, AllocError>
    ensures { IfOk result (λ left. IsPartTaken (is_wanted portion.entry.wanted.filter.now portion.entry.wanted.key.stamp portion.entry.wanted.key.identifier.now) portion.entry.most
        part.old.items part.new.items portion.entry.skip left entries.now) }
{
    let mut left = portion.skip;
    'entries: for at in 0..entries.len() {
        if part.len() >= portion.most {
            break;
        }
        if is_item_wanted(&entries.spelled(at), portion.wanted) {
            if left == 0 {
                part.push(entries.item(alloc, at)?)?;
            } else {
                left -= 1;
            }
        }
    }
    Ok(left)
}

/// As `take_in` does, of entries that are all wanted, more than are to be skipped.
fn take_all(
    alloc: Global,
    entries: &Entries,
    portion: Portion<'_>,
    part: &mut Vec<Item>,
) -> Result<usize, AllocError>
    requires { portion.skip < length entries.now }
    ensures { IfOk result (λ left. list_all (is_wanted portion.entry.wanted.filter.now portion.entry.wanted.key.stamp portion.entry.wanted.key.identifier.now) entries.now ≡ true
        → IsPartTaken (is_wanted portion.entry.wanted.filter.now portion.entry.wanted.key.stamp portion.entry.wanted.key.identifier.now) portion.entry.most
        part.old.items part.new.items portion.entry.skip left entries.now) }
{
    'entries: for at in portion.skip..entries.len() {
        if part.len() >= portion.most {
            break;
        }
        part.push(entries.item(alloc, at)?)?;
    }
    Ok(0)
}
