ghost use Rattle.std.specs.Prelude.{◌≡◌, ◌≢◌, ◌⊎◌, ◌<◌, ◌≤◌, ℕ, List, true, None, Some, IfOk, IfSome, length};
ghost use Rattle.std.specs.NonZero.{non_zero_usize_get};

use crate::kept::KeptPage;
use crate::kinds::PageKind;
use lru::LruCache;
use oai_device::Page;
use std::alloc::{AllocError, AllocFailed, Global};
use std::num::NonZeroUsize;
use std::rc::Rc;

/// The most recently used pages, at most `size`; and how often a page was found in it, and was not.
#[derive(Drop)]
pub struct PageCache {
    pages: LruCache<u32, KeptPage>,
    hits: u64,
    misses: u64,
}

#[tactic(auto, unfolding(crate::specs::Held::held))]
impl PageCache {
    ghost use Rattle.oai_pool.specs.Held.{held};
    ghost use Rattle.oai_pool.specs.Kinds.{is_of};

    /// An empty cache of at most `size` pages. The error is out of memory.
    pub fn new(alloc: Global, size: NonZeroUsize) -> Result<PageCache, AllocError>
        ensures size { IfOk result (λ cache. cache.pages.cap ≡ non_zero_usize_get size) }
        ensures empty { IfOk result (λ cache. (n : ℕ) → held cache n ≡ None) }
    {
        let pages = LruCache::new(alloc, size)?;
        Ok(PageCache {
            pages,
            hits: 0,
            misses: 0,
        })
    }

    /// The page with that number, if it is cached, it is known to be of that kind, and its `Rc` can be cloned once
    /// more.
    pub fn find(&mut self, no: u32, kind: PageKind) -> Option<Rc<Page>>
        ensures found { IfSome result (λ page. held self.old no ≡ Some page.value) }
        ensures tested { IfSome result (λ page. is_of kind page.value ≡ true) }
        ensures kept { (n : ℕ) → held self.new n ≡ held self.old n }
        ensures size { self.new.pages.cap ≡ self.old.pages.cap }
    {
        let found = self.look_up(no, kind);
        self.count(found.is_some());
        found
    }

    /// As [`PageCache::find`], which counts.
    fn look_up(&mut self, no: u32, kind: PageKind) -> Option<Rc<Page>>
        ensures found { IfSome result (λ page. held self.old no ≡ Some page.value) }
        ensures tested { IfSome result (λ page. is_of kind page.value ≡ true) }
        ensures kept { (n : ℕ) → held self.new n ≡ held self.old n }
        ensures size { self.new.pages.cap ≡ self.old.pages.cap }
    {
        match self.pages.get(&no) {
            Some(kept) => kept.of(kind),
            None => None,
        }
    }

    /// The page with that number, if it is cached and its `Rc` can be cloned once more, and the kind of which it is known
    /// to be.
    pub fn find_any(&mut self, no: u32) -> Option<(Rc<Page>, PageKind)>
        ensures found { IfSome result (λ known. held self.old no ≡ Some known.0.value) }
        ensures tested { IfSome result (λ known. is_of known.1 known.0.value ≡ true) }
        ensures kept { (n : ℕ) → held self.new n ≡ held self.old n }
        ensures size { self.new.pages.cap ≡ self.old.pages.cap }
    {
        let found = self.look_up_any(no);
        self.count(found.is_some());
        found
    }

    /// As [`PageCache::find_any`], which counts.
    fn look_up_any(&mut self, no: u32) -> Option<(Rc<Page>, PageKind)>
        ensures found { IfSome result (λ known. held self.old no ≡ Some known.0.value) }
        ensures tested { IfSome result (λ known. is_of known.1 known.0.value ≡ true) }
        ensures kept { (n : ℕ) → held self.new n ≡ held self.old n }
        ensures size { self.new.pages.cap ≡ self.old.pages.cap }
    {
        match self.pages.get(&no) {
            Some(kept) => kept.known(),
            None => None,
        }
    }

    /// Counts a page that was found, or was not.
    fn count(&mut self, is_found: bool)
        ensures { self.new.pages ≡ self.old.pages }
    {
        if is_found {
            self.hits = self.hits.wrapping_add(1);
        } else {
            self.misses = self.misses.wrapping_add(1);
        }
    }

    /// How often a page was found.
    pub fn hits(&self) -> u64 {
        self.hits
    }

    /// How often a page was not found.
    pub fn misses(&self) -> u64 {
        self.misses
    }

    /// Caches the page, which is known to be of that kind, under that number. If the cache is full, the least recently
    /// used page is evicted; out of memory, this one is not cached. Returns the page that is not in the cache.
    pub fn keep(&mut self, no: u32, page: Rc<Page>, kind: PageKind) -> Option<Rc<Page>>
        requires { is_of kind page.value ≡ true }
        ensures this { (bytes : List ℕ) → held self.new no ≡ Some bytes
            → (held self.old no ≡ Some bytes) ⊎ (page.value ≡ bytes) }
        ensures others { (n : ℕ) (bytes : List ℕ) → n ≢ no
            → held self.new n ≡ Some bytes → held self.old n ≡ Some bytes }
        ensures size { self.new.pages.cap ≡ self.old.pages.cap }
    {
        let kept = KeptPage::new(page, kind);
        left_over(self.pages.push(no, kept))
    }

    /// Removes the page with that number from the cache, and returns it.
    pub fn forget(&mut self, no: u32) -> Option<Rc<Page>>
        ensures this { held self.new no ≡ None }
        ensures others { (n : ℕ) (bytes : List ℕ)
            → held self.new n ≡ Some bytes → held self.old n ≡ Some bytes }
        ensures size { self.new.pages.cap ≡ self.old.pages.cap }
    {
        let _pages = self.pages.len();
        match self.pages.pop(&no) {
            Some(kept) => Some(kept.into_page()),
            None => None,
        }
    }

    /// How many pages are cached.
    pub fn len(&self) -> usize
        ensures pages { result ≡ length self.now.pages.entries }
        ensures within { result ≤ self.now.pages.cap }
    {
        self.pages.len()
    }
}

/// The page that an insertion into a cache did not keep.
fn left_over(
    pushed: Result<Option<(u32, KeptPage)>, AllocFailed<(u32, KeptPage)>>,
) -> Option<Rc<Page>> {
    match pushed {
        Ok(Some((_, kept))) => Some(kept.into_page()),
        Ok(None) => None,
        Err(refused) => {
            let (_, kept) = refused.value;
            Some(kept.into_page())
        }
    }
}
