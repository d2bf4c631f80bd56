ghost use Rattle.std.specs.Prelude.{◌≡◌, ◌<◌, ◌≤◌, ℕ, [], OnErr, OnOk, IfErr, IfOk};
ghost use Rattle.oai_catalogue.specs.Store.{Spares};
ghost use Rattle.oai_pool.specs.Counts.{count_of};
ghost use Rattle.oai_places.specs.Calls.{IsShareFault, Renames};
ghost use Rattle.oai_places.specs.Places.{named_in, page_numbers};
ghost use Rattle.oai_paged.specs.Props.{group_props};
ghost use Rattle.oai_places.specs.Recounts.{HasFull};
ghost use Rattle.oai_places.specs.Sums.{AreGroups};

use oai_item::Fault;
use oai_places::{Groups, LeafList, SharedPlace, share_all};
use oai_pool::PagePool;
use std::alloc::Global;
use std::marker::Model;

/// The leaves of a directory, in the order of their items, and the statistics of consecutive ones.
#[derive(Drop)]
pub(crate) struct DirectoryLeaves {
    pub(crate) places: Vec<SharedPlace>,
    pub(crate) groups: Groups,
}

/// A page directory: the leaves of the items of the versions that refer to it, in the order of the items. A leaf is a
/// page of items, and what is known of them without reading it.
#[derive(Drop)]
pub(crate) struct Directory {
    pub(crate) leaves: DirectoryLeaves,
    /// How many versions refer to it.
    pub(crate) versions: usize,
    ghost sound: { AreGroups leaves.places.items leaves.groups } by { Prim.hlevel group_props },
}

impl Model for Directory {
    ghost use Rattle.oai_paged.specs.Versions.{DirectoryState};

    ghost Value = { DirectoryState };

    ghost view = { λ d. record { places = d.leaves.places.items; versions = d.versions } };
}

impl Directory {
    /// The directory of no items, to which one version refers. Allocates nothing.
    pub(crate) fn new(alloc: Global) -> Directory
        ensures { result ≡ record { places = []; versions = 1 } }
    {
        Directory {
            leaves: DirectoryLeaves {
                places: Vec::new(alloc),
                groups: Groups::new(alloc),
            },
            versions: 1,
        }
    }

    /// A copy, to which one version refers. Increments the reference count of each page of its leaves; these are
    /// referenced, and no two leaves share one. The errors: `NoMemory`; `TooManyPages` if a count is 4,294,967,295.
    /// After an error each count is unchanged.
    pub(crate) fn copy<P: PagePool>(&self, alloc: Global, pages: &mut P) -> Result<Directory, Fault>
        requires named { (n : ℕ) → named_in self.now.places n ≤ count_of (P.counts pages.old) n }
        requires once { (n : ℕ) → named_in self.now.places n ≤ 1 }
        ensures copy { IfOk result (λ copy. copy ≡ record { places = self.now.places; versions = 1 }) }
        ensures names { OnOk result (Renames P.PagePool [] self.now.places pages.old pages.new) }
        ensures undone { OnErr result (Renames P.PagePool [] [] pages.old pages.new) }
        ensures fault { IfErr result (λ cause. IsShareFault (HasFull P.PagePool (page_numbers self.now.places) pages.old) cause) }
        ensures pool { Spares P.room P.failures P.honest pages.old pages.new }
    {
        let groups = self.leaves.groups.copy(alloc);
        match share_all(alloc, pages, self.leaves.places.as_slice()) {
            Ok(places) => Ok(Directory {
                leaves: DirectoryLeaves { places, groups },
                versions: 1,
            }),
            Err(fault) => Err(fault),
        }
    }

    /// The leaves and their groups, to be read.
    pub(crate) fn as_list(&self) -> LeafList<'_>
        ensures places { result.places.now ≡ self.now.places }
        ensures groups { AreGroups self.now.places result.groups.now }
    {
        LeafList {
            places: self.leaves.places.as_slice(),
            groups: &self.leaves.groups,
        }
    }

    /// Rebuilds the missing statistics of the groups of its leaves, as far as memory is available.
    pub(crate) fn tend(&mut self, alloc: Global)
        ensures { self.new ≡ self.old }
    {
        self.leaves
            .groups
            .tend(alloc, self.leaves.places.as_slice());
    }
}
