ghost use Rattle.std.specs.Prelude.{◌≡◌, ◌≢◌, ◌+◌, ◌*◌, ◌/◌, ◌≤◌, ◌<◌, ℕ, List, [], None, Some, IsSome, IsTrue, IfErr, IfOk, OnErr, OnOk, option_copied, length};
ghost use Rattle.std.specs.List.{Contains};
ghost use Rattle.oai_catalogue.specs.Store.{Spares, list_at, no_lists};
ghost use Rattle.oai_item.specs.Item.{ItemState};
ghost use Rattle.oai_pool.specs.Counts.{used_of};
ghost use Rattle.oai_pool.specs.declared.pools.TheConstants.{MAX_PAGES};
ghost use Rattle.oai_places.specs.Calls.{IsShareFault, Renames};
ghost use Rattle.oai_places.specs.Places.{page_numbers};
ghost use Rattle.oai_paged.specs.Props.{shelved_props};
ghost use Rattle.oai_places.specs.Recounts.{HasFull};
ghost use Rattle.oai_paged.specs.Shelves.{AreShelved, StandsOnPages, calls_left, directory_at, items_below, lists_on};
ghost use Rattle.oai_paged.specs.Versions.{AreShared, places_in, places_of, shelf_at};

use crate::directories::Directory;
use oai_catalogue::{Filter, Versions};
use oai_device::PageDevice;
use oai_figures::{Exposition, Figures};
use oai_item::{Fault, Item, ItemKey};
use oai_names::{Identifier, Sequence};
use oai_places::drop_all;
use oai_pool::{PagePool, Pool};
use oai_sums::SetNames;
use slab::Slab;
use std::alloc::Global;

/// A store of versions over a pool of pages on a device.
pub type PagedVersions<D> = VersionsOver<Pool<D>>;

/// A store of versions over the pages of a pool. A version refers to a directory of the pages that hold its items; a
/// snapshot refers to that of the version that it was made of. A change of a version whose directory is shared is made
/// in a copy, which references the same pages. A change never writes a page again (copy-on-write): it adds new pages,
/// and frees the old ones if no other directory references them.
#[derive(Drop)]
pub struct VersionsOver<P: PagePool + Drop> {
    alloc: Global,
    pool: P,
    /// The setSpecs of the sets in the statistics of the leaves.
    names: SetNames,
    directories: Slab<Directory>,
    /// The number of the directory of each version.
    versions: Slab<usize>,
    ghost shelved: { AreShelved (P.counts pool) (P.pages pool) (places_of directories.slots) } by { Prim.hlevel shelved_props },
    ghost shared: { AreShared versions.slots directories.slots } by { Prim.hlevel shelved_props },
}

impl<P: PagePool + Drop> Versions for VersionsOver<P> {
    ghost use Rattle.oai_paged.specs.Store.{directories_of, pool_of};
    ghost use Rattle.oai_paged.specs.Shelves.{calls_left, lists_on};
    ghost use Rattle.oai_paged.specs.InOrder.{named_in_order};

    ghost lists = { λ s. lists_on (P.pages (pool_of s)) (directories_of s) };

    ghost failures = { λ s. P.failures (pool_of s) };

    ghost honest = { λ s. P.honest (pool_of s) };

    ghost room = { λ s. calls_left (P.room (pool_of s)) (P.counts (pool_of s)) };

    fn fresh(&mut self) -> Result<u64, Fault> {
        self.versions.reserve(1)?;
        self.directories.reserve(1)?;
        let number = self.directories.insert_reserved(Directory::new(self.alloc));
        Ok(self.versions.insert_reserved(number) as u64)
    }

    fn freeze(&mut self, v: u64) -> Result<u64, Fault> {
        let number = self.number_of(v);
        self.versions.reserve(1)?;
        let Some(directory) = self.directories.get_mut(number) else {
            unreachable!()
        };
        // At most as many versions refer to a directory as the slab has capacity for, so the count fits.
        prove!(directory.versions < self.versions.capacity());
        directory.versions += 1;
        Ok(self.versions.insert_reserved(number) as u64)
    }

    fn put(&mut self, v: u64, item: &Item) -> Result<(), Fault> {
        let number = self.own(v)?;
        let Some(directory) = self.directories.get_mut(number) else {
            unreachable!()
        };
        directory
            .leaves
            .put(self.alloc, &mut self.pool, &mut self.names, item)
    }

    fn remove(&mut self, v: u64, stamp: i64, identifier: &Identifier) -> Result<bool, Fault> {
        let number = self.own(v)?;
        let Some(directory) = self.directories.get_mut(number) else {
            unreachable!()
        };
        let identifier = identifier.as_str();
        let key = ItemKey { stamp, identifier };
        directory
            .leaves
            .remove(self.alloc, &mut self.pool, &mut self.names, key)
    }

    fn replace(
        &mut self,
        v: u64,
        stamp: i64,
        identifier: &Identifier,
        item: &Item,
    ) -> Result<bool, Fault> {
        let number = self.own(v)?;
        let Some(directory) = self.directories.get_mut(number) else {
            unreachable!()
        };
        let identifier = identifier.as_str();
        let key = ItemKey { stamp, identifier };
        directory
            .leaves
            .replace(self.alloc, &mut self.pool, &mut self.names, key, item)
    }

    fn find(&mut self, v: u64, stamp: i64, identifier: &str) -> Result<Option<Item>, Fault> {
        let number = self.number_of(v);
        let Some(directory) = self.directories.get(number) else {
            unreachable!()
        };
        let key = ItemKey { stamp, identifier };
        directory.as_list().find(self.alloc, &mut self.pool, key)
    }

    fn count(&mut self, v: u64, filter: &Filter) -> Result<usize, Fault> {
        let number = self.number_of(v);
        let Some(directory) = self.directories.get_mut(number) else {
            unreachable!()
        };
        directory.tend(self.alloc);
        directory
            .as_list()
            .count(self.alloc, &mut self.pool, filter)
    }

    fn part(
        &mut self,
        v: u64,
        filter: &Filter,
        skip: usize,
        most: usize,
    ) -> Result<Sequence<Item>, Fault> {
        let number = self.number_of(v);
        let Some(directory) = self.directories.get_mut(number) else {
            unreachable!()
        };
        directory.tend(self.alloc);
        directory
            .as_list()
            .part(self.alloc, &mut self.pool, filter, skip, most)
    }

    fn part_after(
        &mut self,
        v: u64,
        filter: &Filter,
        stamp: i64,
        identifier: &Identifier,
        most: usize,
    ) -> Result<Sequence<Item>, Fault> {
        let number = self.number_of(v);
        let Some(directory) = self.directories.get(number) else {
            unreachable!()
        };
        let identifier = identifier.as_str();
        let key = ItemKey { stamp, identifier };
        directory
            .as_list()
            .part_after(self.alloc, &mut self.pool, filter, key, most)
    }

    fn release(&mut self, v: u64) {
        let number = self.number_of(v);
        self.versions.remove(v as usize);
        let Some(directory) = self.directories.get_mut(number) else {
            unreachable!()
        };
        directory.versions -= 1;
        if directory.versions > 0 {
            return;
        }
        let directory = self.directories.remove(number);
        drop_all(&mut self.pool, directory.leaves.places);
    }

    ghost rising = { λ s. named_in_order (P.counts s.pool) (P.pages s.pool) s.directories.slots s.shelved s.versions.slots };
}

impl<P: PagePool + Drop> VersionsOver<P> {
    ghost use Rattle.oai_paged.specs.Store.{IsUnshared, directories_of, named_by, named_times, places_at, pool_of};

    /// A store without versions, over a pool in which no page is referenced. Allocates nothing. It has room for one
    /// call for each 68 pages that the pool has room for.
    pub fn new(alloc: Global, pool: P) -> VersionsOver<P>
        requires { used_of (P.counts pool) ≡ 0 }
        ensures lists { ⟦<VersionsOver<P> as Versions>⟧.lists result ≡ no_lists }
        ensures failures { ⟦<VersionsOver<P> as Versions>⟧.failures result ≡ P.failures pool }
        ensures honest { ⟦<VersionsOver<P> as Versions>⟧.honest result ≡ P.honest pool }
        ensures room { MAX_PAGES ≤ P.room pool
            → 63_161_283 ≤ ⟦<VersionsOver<P> as Versions>⟧.room result }
        ensures pool { pool_of result ≡ pool }
    {
        VersionsOver {
            alloc,
            pool,
            names: SetNames::new(alloc),
            directories: Slab::new(alloc),
            versions: Slab::new(alloc),
        }
    }

    /// The pool. At most 65 times as many of its pages are referenced as the versions together hold items. Each item is
    /// encoded on a referenced page, or on one and its overflow pages, which are referenced too. The store has room for
    /// one call for each 68 pages that the pool has room for; or, if the page with the most references can have only
    /// fewer more, for that many calls.
    pub fn pool(&self) -> &P
        ensures pool { result.now ≡ pool_of self.now }
        ensures room { ⟦<VersionsOver<P> as Versions>⟧.room self.now ≡ calls_left (P.room result.now) (P.counts result.now) }
        ensures used { (limit : ℕ) → ((v : ℕ) → limit ≤ v → ⟦<VersionsOver<P> as Versions>⟧.lists self.now v ≡ None)
            → used_of (P.counts result.now) ≤ 65 * items_below limit (⟦<VersionsOver<P> as Versions>⟧.lists self.now) }
        ensures stands { (v : ℕ) (item : ItemState) → Contains (list_at (⟦<VersionsOver<P> as Versions>⟧.lists self.now) v) item
            → StandsOnPages (P.counts result.now) (P.pages result.now) item }
    {
        &self.pool
    }

    /// The number of the directory of the version.
    fn number_of(&self, v: u64) -> usize
        requires { IsSome (lists_on (P.pages (pool_of self.now)) (directories_of self.now) v) }
        ensures named { named_by self.now v ≡ Some result }
        ensures stands { IsSome (shelf_at self.now.directories.slots result) }
        ensures places { directory_at (directories_of self.now) v ≡ places_in (shelf_at self.now.directories.slots result) }
    {
        let Some(number) = self.versions.get(v as usize) else {
            unreachable!()
        };
        *number
    }

    /// The number of the directory of the version. If it is shared, a copy of it is made, which the version then has
    /// alone. Any fault of `Directory::copy`; each version then keeps its directory.
    fn own(&mut self, v: u64) -> Result<usize, Fault>
        requires { IsSome (lists_on (P.pages (pool_of self.old)) (directories_of self.old) v) }
        ensures own { IfOk result (λ number. IsUnshared v number self.old self.new) }
        ensures lists { lists_on (P.pages (pool_of self.new)) (directories_of self.new) ≡ lists_on (P.pages (pool_of self.old)) (directories_of self.old) }
        ensures undone { OnErr result (Renames P.PagePool [] [] (pool_of self.old) (pool_of self.new)) }
        ensures fault { IfErr result (λ cause. IsShareFault (HasFull P.PagePool (page_numbers (places_at self.old v)) (pool_of self.old)) cause) }
        ensures pool { Spares P.room P.failures P.honest (pool_of self.old) (pool_of self.new) }
    {
        let number = self.number_of(v);
        let Some(directory) = self.directories.get(number) else {
            unreachable!()
        };
        if directory.versions == 1 {
            return Ok(number);
        }
        self.move_to_copy(v, number)
    }

    /// Gives the version a copy of the directory with that number, which it shares now. Any fault of `Directory::copy`;
    /// each version then keeps its directory.
    fn move_to_copy(&mut self, v: u64, number: usize) -> Result<usize, Fault>
        requires named { named_by self.old v ≡ Some number }
        requires shared { 1 < named_times self.old number }
        ensures own { IfOk result (λ number. IsUnshared v number self.old self.new) }
        ensures lists { lists_on (P.pages (pool_of self.new)) (directories_of self.new) ≡ lists_on (P.pages (pool_of self.old)) (directories_of self.old) }
        ensures undone { OnErr result (Renames P.PagePool [] [] (pool_of self.old) (pool_of self.new)) }
        ensures fault { IfErr result (λ cause. IsShareFault (HasFull P.PagePool (page_numbers (places_at self.old v)) (pool_of self.old)) cause) }
        ensures pool { Spares P.room P.failures P.honest (pool_of self.old) (pool_of self.new) }
    {
        self.directories.reserve(1)?;
        let Some(directory) = self.directories.get_mut(number) else {
            unreachable!()
        };
        let copy = directory.copy(self.alloc, &mut self.pool)?;
        directory.versions -= 1;
        let own = self.directories.insert_reserved(copy);
        if let Some(named) = self.versions.get_mut(v as usize) {
            *named = own;
        }
        Ok(own)
    }
}

impl<P: PagePool + Figures + Drop> Figures for VersionsOver<P> {
    fn report(&self, page: &mut Exposition) {
        self.pool.report(page);
    }
}
