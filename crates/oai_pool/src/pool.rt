ghost use Rattle.std.specs.Prelude.{◌≡◌, ◌<◌, ◌≤◌, ℕ, List, [], None, Some, length, IfErr, IfOk, IsSome, IsTrue, OnErr, OnOk};
ghost use Rattle.oai_pool.specs.Counts.{count_of, room_of};
ghost use Rattle.oai_pool.specs.Held.{held};

use crate::cache::PageCache;
use crate::kinds::PageKind;
use crate::names::Names;
use crate::pools::{MAX_PAGES, PageNo, PagePool, PoolFault};
use crate::spares::SparePages;
use crate::testing::is_of;
use crate::transfers::{load, load_range, room_for_a_page, store};
use oai_device::{Page, PageDevice};
use oai_figures::{Exposition, Figures};
use std::alloc::{AllocError, Global};
use std::num::NonZeroUsize;
use std::rc::Rc;

/// A pool of pages on a device, with a cache. Besides the cached pages it holds at most two spare pages in memory, into
/// which the next ones are read.
#[derive(Drop)]
pub struct Pool<D: PageDevice> {
    alloc: Global,
    device: D,
    names: Names,
    cache: PageCache,
    spares: SparePages,
    ghost written: { (n : ℕ) → 0 < count_of names.counts.items n → IsSome (D.pages device n) },
    ghost cached_are_named: { (n : ℕ) (bytes : List ℕ)
        → held cache n ≡ Some bytes → 0 < count_of names.counts.items n },
    ghost agrees: { IsTrue (D.honest device) → (n : ℕ) (bytes : List ℕ)
        → held cache n ≡ Some bytes → D.pages device n ≡ Some bytes },
}

impl<D: PageDevice> PagePool for Pool<D> {
    ghost use Rattle.oai_pool.specs.Pool.{device_of};

    ghost counts = { λ p. p.names.counts.items };

    ghost pages = { λ p. D.pages (device_of p) };

    ghost failures = { λ p. D.failures (device_of p) };

    ghost honest = { λ p. D.honest (device_of p) };

    ghost room = { λ p. room_of p.names.counts.items };

    ghost cached_pages = { λ p. length p.cache.pages.entries };

    ghost cache_size = { λ p. p.cache.pages.cap };

    fn page_to_fill(&mut self) -> Result<Rc<Page>, AllocError> {
        room_for_a_page(self.alloc, self.spares.take())
    }

    fn add(&mut self, page: Rc<Page>, kind: PageKind) -> Result<PageNo, PoolFault> {
        let no = self.names.next()?;
        store(&mut self.device, no, &page)?;
        self.names.name();
        self.keep(no, page, kind);
        Ok(no)
    }

    fn share(&mut self, no: PageNo) -> Result<(), PoolFault> {
        self.names.share(no)
    }

    fn drop_ref(&mut self, no: PageNo) {
        if self.names.drop_name(no) {
            self.spares.put(self.cache.forget(no));
        }
    }

    fn read(&mut self, no: PageNo, kind: PageKind) -> Result<Rc<Page>, PoolFault> {
        if let Some(page) = self.cache.find(no, kind) {
            return Ok(page);
        }
        let page = load(self.alloc, &mut self.device, no, self.spares.take())?;
        if !is_of(self.alloc, kind, &page[..])? {
            return Err(PoolFault::Damaged);
        }
        self.keep_clone(no, &page, kind);
        Ok(page)
    }

    fn read_any(&mut self, no: PageNo) -> Result<(Rc<Page>, PageKind), PoolFault> {
        if let Some(known) = self.cache.find_any(no) {
            return Ok(known);
        }
        let loaded = load(self.alloc, &mut self.device, no, self.spares.take())?;
        self.keep_clone(no, &loaded, PageKind::Bytes);
        Ok((loaded, PageKind::Bytes))
    }

    fn read_range(&mut self, no: PageNo, from: usize, into: &mut [u8]) -> Result<(), PoolFault> {
        if let Some(page) = self.cache.find(no, PageKind::Bytes) {
            into.copy_from_slice(&page[from..from + into.len()]);
            return Ok(());
        }
        load_range(&mut self.device, no, from, into)
    }

    fn forget(&mut self, no: PageNo) {
        self.spares.put(self.cache.forget(no));
    }

    fn used(&self) -> usize {
        self.names.used()
    }

    fn cached(&self) -> usize {
        self.cache.len()
    }

    ghost use Rattle.oai_pool.specs.Limits.{count_of-past};

    ghost stored = { λ p. p.written };

    ghost limited = { λ p n above. count_of-past p.names.counts.items _ _ n p.names.counts.ok.0 p.names.few above };
}

impl<D: PageDevice> Pool<D> {
    ghost use Rattle.std.specs.Prelude.{◌≡◌, ◌<◌, Some, true, IfOk, IsTrue};
    ghost use Rattle.oai_pool.specs.Counts.{count_of};
    ghost use Rattle.oai_pool.specs.Kinds.{is_of};
    ghost use Rattle.oai_pool.specs.Pool.{device_of};

    /// An empty pool on that device, with a cache of at most `cache_pages` pages. The error is NoMemory.
    pub fn new(alloc: Global, device: D, cache_pages: usize) -> Result<Pool<D>, PoolFault>
        requires { 0 < cache_pages }
        ensures counts { IfOk result (λ pool. ⟦<Pool<D> as PagePool>⟧.counts pool ≡ []) }
        ensures room { IfOk result (λ pool. ⟦<Pool<D> as PagePool>⟧.room pool ≡ MAX_PAGES) }
        ensures cache { IfOk result (λ pool. ⟦<Pool<D> as PagePool>⟧.cache_size pool ≡ cache_pages) }
        ensures device { IfOk result (λ pool. device_of pool ≡ device) }
        ensures fault { IfErr result (λ cause. cause ≡ PoolFault.NoMemory) }
    {
        let size = NonZeroUsize::new(cache_pages).unwrap();
        let cache = PageCache::new(alloc, size)?;
        Ok(Pool {
            alloc,
            device,
            names: Names::new(alloc),
            cache,
            spares: SparePages::new(),
        })
    }

    /// Stores the page, which is of that kind, in the cache, if there is memory for its place there.
    fn keep(&mut self, no: PageNo, page: Rc<Page>, kind: PageKind)
        requires kind { is_of kind page.value ≡ true }
        requires named { 0 < count_of self.old.names.counts.items no }
        requires own { IsTrue (D.honest (device_of self.old)) → D.pages (device_of self.old) no ≡ Some page.value }
        ensures names { self.new.names ≡ self.old.names }
        ensures device { device_of self.new ≡ device_of self.old }
        ensures size { self.new.cache.pages.cap ≡ self.old.cache.pages.cap }
    {
        self.spares.put(self.cache.keep(no, page, kind));
    }

    /// As `keep`, if the page's reference count can be raised.
    fn keep_clone(&mut self, no: PageNo, page: &Rc<Page>, kind: PageKind)
        requires kind { is_of kind page.now.value ≡ true }
        requires named { 0 < count_of self.old.names.counts.items no }
        requires own { IsTrue (D.honest (device_of self.old)) → D.pages (device_of self.old) no ≡ Some page.now.value }
        ensures names { self.new.names ≡ self.old.names }
        ensures device { device_of self.new ≡ device_of self.old }
        ensures size { self.new.cache.pages.cap ≡ self.old.cache.pages.cap }
    {
        if let Ok(kept) = page.clone() {
            self.keep(no, kept, kind);
        }
    }

    /// The device that stores the pages.
    pub fn device(&self) -> &D
        ensures { result.now ≡ device_of self.now }
    {
        &self.device
    }
}

impl<D: PageDevice> Figures for Pool<D> {
    fn report(&self, page: &mut Exposition) {
        let pages = self.names.used() as u64;
        page.add("pages", "Pages of the page file that are in use.", pages);
        page.add(
            "page_cache_hits_total",
            "Reads of a page that the cache answered.",
            self.cache.hits(),
        );
        page.add(
            "page_cache_misses_total",
            "Reads of a page that the cache did not answer.",
            self.cache.misses(),
        );
    }
}
