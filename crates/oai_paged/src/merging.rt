//! Merges what is left of a page with the items of its neighbours, if all fit on one page.
ghost use Rattle.std.specs.Prelude.{◌≡◌, ◌+◌, ◌<◌, ◌≤◌, length, IsTrue};
ghost use Rattle.oai_places.specs.Calls.{ReadsPages, returned};
ghost use Rattle.oai_places.specs.Directory.{MayReplace, StandsIn, items_with_run};

use oai_places::{Entries, FULL_BYTES, SharedPlace, read_place};
use oai_pool::PagePool;
use std::alloc::Global;

/// The entries of one page, and the leaves of a directory that it replaces: `len` from `at` on.
#[derive(Drop)]
pub(crate) struct Merged {
    pub(crate) at: usize,
    pub(crate) len: usize,
    pub(crate) entries: Entries,
}

/// Which neighbours of a leaf are merged with it.
#[derive(Clone, Copy)]
struct Neighbours {
    before: bool,
    behind: bool,
}

/// The entries, which replace the leaf at `at`, with those of its neighbours, if together they fill at most nine tenths
/// of a page. Their pages are read only then; a neighbour whose page cannot be read, or for which memory runs out, is
/// not merged.
pub(crate) fn merge<P: PagePool>(
    alloc: Global,
    pages: &mut P,
    places: &[SharedPlace],
    at: usize,
    entries: Entries,
) -> Merged
    requires stands { StandsIn P.PagePool pages.old places.now }
    requires may { MayReplace (P.pages pages.old) places.now at 1 entries }
    ensures may { MayReplace (P.pages pages.new) places.now result.at result.len result.entries }
    ensures items { IsTrue (P.honest pages.old) → items_with_run (P.pages pages.new) places.now result.at result.len result.entries
        ≡ items_with_run (P.pages pages.old) places.now at 1 entries }
    ensures pages { ReadsPages P.PagePool (returned result) pages.old pages.new }
{
    let neighbours = neighbours_of(places, at, entries.size());
    let alone = Merged {
        at,
        len: 1,
        entries,
    };
    let two = with_before(alloc, pages, places, alone, neighbours.before);
    with_behind(alloc, pages, places, two, neighbours.behind)
}

/// Which neighbours of the leaf at `at` fit with `size` bytes on a page that is filled to nine tenths at most: both, or
/// else the one before it, or else the one after it. For 0 bytes both or none.
fn neighbours_of(places: &[SharedPlace], at: usize, size: usize) -> Neighbours
    requires { at < length places.now }
{
    let before = if at == 0 {
        usize::MAX
    } else {
        bytes_of(places.get(at - 1))
    };
    let behind = bytes_of(places.get(at + 1));
    if size.saturating_add(before).saturating_add(behind) <= FULL_BYTES {
        return Neighbours {
            before: true,
            behind: true,
        };
    }
    if size.saturating_add(before) <= FULL_BYTES {
        return Neighbours {
            before: size > 0,
            behind: false,
        };
    }
    Neighbours {
        before: false,
        behind: size > 0 && size.saturating_add(behind) <= FULL_BYTES,
    }
}

/// The bytes of the leaf's entries: more than any page has, if there is no leaf, or it has overflow pages.
fn bytes_of(place: Option<&SharedPlace>) -> usize {
    match place {
        Some(place) => {
            if place.is_long() {
                usize::MAX
            } else {
                place.size()
            }
        }
        None => usize::MAX,
    }
}

/// The same with the items of the leaf before, if that is wanted, and as far as it can be read and memory is available.
fn with_before<P: PagePool>(
    alloc: Global,
    pages: &mut P,
    places: &[SharedPlace],
    merged: Merged,
    wanted: bool,
) -> Merged
    requires stands { StandsIn P.PagePool pages.old places.now }
    requires may { MayReplace (P.pages pages.old) places.now merged.at merged.len merged.entries }
    requires few { merged.len ≤ 1 }
    ensures may { MayReplace (P.pages pages.new) places.now result.at result.len result.entries }
    ensures few { result.len ≤ 2 }
    ensures items { IsTrue (P.honest pages.old) → items_with_run (P.pages pages.new) places.now result.at result.len result.entries
        ≡ items_with_run (P.pages pages.old) places.now merged.at merged.len merged.entries }
    ensures pages { ReadsPages P.PagePool (returned result) pages.old pages.new }
{
    if !wanted {
        return merged;
    }
    if merged.at == 0 {
        return merged;
    }
    let at = merged.at - 1;
    match read_place(alloc, pages, places, at) {
        Ok(front) => match front.joined(alloc, &merged.entries) {
            Some(entries) => Merged {
                at,
                len: merged.len + 1,
                entries,
            },
            None => merged,
        },
        Err(_) => merged,
    }
}

/// The same with the items of the leaf after, if that is wanted, and as far as it can be read and memory is available.
fn with_behind<P: PagePool>(
    alloc: Global,
    pages: &mut P,
    places: &[SharedPlace],
    merged: Merged,
    wanted: bool,
) -> Merged
    requires stands { StandsIn P.PagePool pages.old places.now }
    requires may { MayReplace (P.pages pages.old) places.now merged.at merged.len merged.entries }
    requires few { merged.len ≤ 2 }
    ensures may { MayReplace (P.pages pages.new) places.now result.at result.len result.entries }
    ensures items { IsTrue (P.honest pages.old) → items_with_run (P.pages pages.new) places.now result.at result.len result.entries
        ≡ items_with_run (P.pages pages.old) places.now merged.at merged.len merged.entries }
    ensures pages { ReadsPages P.PagePool (returned result) pages.old pages.new }
{
    if !wanted {
        return merged;
    }
    let at = merged.at + merged.len;
    if at >= places.len() {
        return merged;
    }
    match read_place(alloc, pages, places, at) {
        Ok(back) => match merged.entries.joined(alloc, &back) {
            Some(entries) => Merged {
                at: merged.at,
                len: merged.len + 1,
                entries,
            },
            None => merged,
        },
        Err(_) => merged,
    }
}
