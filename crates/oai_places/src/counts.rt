//! How many items of a directory are wanted.
ghost use Rattle.std.specs.Prelude.{◌≡◌, ◌+◌, ◌*◌, ◌^◌, ◌<◌, ◌≤◌, length, take, drop, filter, HoldsAt, IfOk, IsTrue};
ghost use Rattle.oai_item.specs.Selection.{selected};
ghost use Rattle.oai_pool.specs.declared.pools.TheConstants.{MAX_PAGES};
ghost use Rattle.oai_places.specs.Calls.{ReadsPages};
ghost use Rattle.oai_places.specs.Directory.{StandsIn};
ghost use Rattle.oai_places.specs.Places.{is_wanted, items_at, items_on};
ghost use Rattle.oai_places.specs.Sums.{AreGroups};

use crate::entries::Entries;
use crate::groups::Stretch;
use crate::known::{known_at, start_of};
use crate::leaves::LeafList;
use crate::reading::read_place;
use crate::wanted::{Wanted, is_wanted};
use oai_catalogue::Filter;
use oai_item::Fault;
use oai_pool::PagePool;
use std::alloc::Global;

impl LeafList<'_> {
    /// How many items pass the filter. It reads only the pages of leaves that are partly within the bounds, or of which
    /// it is not known whether all items have the prefix, or how many are in the requested set. Any fault but
    /// `TooManyPages`.
    pub fn count<P: PagePool>(
        self,
        alloc: Global,
        pages: &mut P,
        filter: &Filter,
    ) -> Result<usize, Fault>
        requires stands { StandsIn P.PagePool pages.old self.places.now }
        requires few { length self.places.now ≤ MAX_PAGES }
        requires groups { AreGroups self.places.now self.groups.now }
        ensures number { IfOk result (λ n. IsTrue (P.honest pages.old)
            → n ≡ length (selected filter.now (items_on (P.pages pages.old) self.entry.places.now))) }
        ensures pages { ReadsPages P.PagePool result pages.old pages.new }
    {
        self.count_wanted(alloc, pages, Wanted::all(filter))
    }

    /// How many items are wanted.
    fn count_wanted<P: PagePool>(
        self,
        alloc: Global,
        pages: &mut P,
        wanted: Wanted<'_>,
    ) -> Result<usize, Fault>
        requires stands { StandsIn P.PagePool pages.old self.places.now }
        requires few { length self.places.now ≤ MAX_PAGES }
        requires groups { AreGroups self.places.now self.groups.now }
        ensures number { IfOk result (λ n. IsTrue (P.honest pages.old)
            → n ≡ length (filter (is_wanted wanted.entry.filter.now wanted.entry.key.stamp wanted.entry.key.identifier.now)
            (items_on (P.pages pages.old) self.entry.places.now))) }
        ensures pages { ReadsPages P.PagePool result pages.old pages.new }
    {
        let places = self.places;
        let mut total = 0;
        let filter = wanted.filter;
        let mut at = start_of(places, wanted);
        'places: while at < places.len() {
            if places[at].stamp() > filter.upper {
                break;
            }
            let stretch = self.count_from(alloc, pages, at, wanted)?;
            total += stretch.items;
            at += stretch.places;
        }
        Ok(total)
    }

    /// How many items are wanted of some leaves from `at` on: those of a group, if it is known of it, or else one leaf.
    fn count_from<P: PagePool>(
        self,
        alloc: Global,
        pages: &mut P,
        at: usize,
        wanted: Wanted<'_>,
    ) -> Result<Stretch, Fault>
        requires within { at < length self.places.now }
        requires stands { StandsIn P.PagePool pages.old self.places.now }
        requires groups { AreGroups self.places.now self.groups.now }
        ensures number { IfOk result (λ stretch. IsTrue (P.honest pages.old)
            → stretch.items ≡ length (filter (is_wanted wanted.entry.filter.now wanted.entry.key.stamp wanted.entry.key.identifier.now)
            (items_on (P.pages pages.old) (take stretch.places (drop at self.entry.places.now))))) }
        ensures some { IfOk result (λ stretch. 0 < stretch.places) }
        ensures end { IfOk result (λ stretch. at + stretch.places ≤ length self.entry.places.now) }
        ensures few { IfOk result (λ stretch. stretch.items ≤ 4_294_967_295 * stretch.places) }
        ensures pages { ReadsPages P.PagePool result pages.old pages.new }
    {
        if let Some(stretch) = self.groups.stretch_at(self.places, at, wanted) {
            return Ok(stretch);
        }
        let items = self.count_at(alloc, pages, at, wanted)?;
        Ok(Stretch { places: 1, items })
    }

    /// How many items of the leaf are wanted.
    fn count_at<P: PagePool>(
        self,
        alloc: Global,
        pages: &mut P,
        at: usize,
        wanted: Wanted<'_>,
    ) -> Result<usize, Fault>
        requires within { at < length self.places.now }
        requires stands { StandsIn P.PagePool pages.old self.places.now }
        ensures number { IfOk result (λ n. IsTrue (P.honest pages.old)
            → HoldsAt (λ place. n ≡ length (filter (is_wanted wanted.entry.filter.now wanted.entry.key.stamp wanted.entry.key.identifier.now)
            (items_at (P.pages pages.old) place))) self.entry.places.now at) }
        ensures few { IfOk result (λ n. n < 2 ^ 32) }
        ensures pages { ReadsPages P.PagePool result pages.old pages.new }
    {
        if let Some(count) = known_at(self.places, at, wanted).count {
            return Ok(count);
        }
        let entries = read_place(alloc, pages, self.places, at)?;
        Ok(count_in(&entries, wanted))
    }
}

/// How many of the items are wanted.
fn count_in(entries: &Entries, wanted: Wanted<'_>) -> usize
    ensures number { result ≡ length (filter (is_wanted wanted.entry.filter.now wanted.entry.key.stamp wanted.entry.key.identifier.now) entries.now) }
    ensures few { result ≤ length entries.now }
{
    let mut count = 0;
    'entries: for at in 0..entries.len() {
        if is_wanted(entries, at, wanted) {
            count += 1;
        }
    }
    count
}
