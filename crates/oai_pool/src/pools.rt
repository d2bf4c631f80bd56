ghost use Rattle.std.specs.Prelude.{◌≡◌, ◌+◌, ◌<◌, ◌≤◌, ℕ, Bool, true, List, Option, Some, max, length, IfErr, IfOk, IsSome, IsTrue, OnErr, OnOk};
ghost use Rattle.oai_device.specs.Device.{range_of};
ghost use Rattle.oai_device.specs.declared.devices.TheConstants.{PAGE_BYTES};
ghost use Rattle.oai_pool.specs.Counts.{AddsName, KeepsNamed, StaysNamed, count_of, used_of};
ghost use Rattle.oai_pool.specs.Calls.{IsAdded, SparesNumbers, SpendsNumbers};
ghost use Rattle.oai_pool.specs.Kinds.{is_of};
ghost use Rattle.oai_pool.specs.declared.pools.PoolFault.TheVariants as fault;
ghost use Rattle.oai_pool.specs.declared.pools.TheConstants.{MAX_PAGES};

use crate::kinds::PageKind;
use oai_device::Page;
use std::alloc::{AllocError, AllocFailed};
use std::rc::Rc;
use thiserror::Error;

/// The maximum number of pages of a pool, and of references to one of them.
pub const MAX_PAGES: u32 = 4_294_967_295;

/// The number of a page, from 0 to 4,294,967,294.
pub type PageNo = u32;

/// Why a call on a pool failed.
#[derive(Clone, Copy, Debug, PartialEq, Eq, Error)]
pub enum PoolFault {
    /// The device failed, and counted the failure.
    #[error("the device failed")]
    Device,
    /// The page that the device returned is not of the kind with which it was added.
    #[error("a page is damaged")]
    Damaged,
    /// Out of memory.
    #[error("out of memory")]
    NoMemory,
    /// The pool has 4,294,967,295 pages, or the page has that many references.
    #[error("there are too many pages")]
    TooManyPages,
}

impl From<AllocError> for PoolFault {
    ghost from_gives = { λ _ e. e ≡ fault.NoMemory };

    fn from(_refused: AllocError) -> PoolFault {
        PoolFault::NoMemory
    }
}

impl<T: Drop> From<AllocFailed<T>> for PoolFault {
    ghost from_gives = { λ _ e. e ≡ fault.NoMemory };

    fn from(_refused: AllocFailed<T>) -> PoolFault {
        PoolFault::NoMemory
    }
}

/// Reference-counted pages under numbers. A page is on its device when `add` returns, and is not written again while it
/// is referenced. A call that fails leaves every reference count and every referenced page unchanged.
pub trait PagePool {
    /// The reference count of each number.
    ghost counts: { Self → List ℕ };

    /// The page that was added under each referenced number, over any device.
    ghost pages: { Self → ℕ → Option (List ℕ) };

    /// How often the device has failed; the count saturates.
    ghost failures: { Self → ℕ };

    /// Whether the device returns what was written to it.
    ghost honest: { Self → Bool };

    /// How many calls of `add` are sure to find a number.
    ghost room: { Self → ℕ };

    /// How many pages are cached.
    ghost cached_pages: { Self → ℕ };

    /// The capacity of the cache in pages.
    ghost cache_size: { Self → ℕ };

    /// A page for the caller to fill and to add, which nobody else references: one that was dropped from the cache, or a
    /// new one. Its bytes are any. The error is out of memory.
    fn page_to_fill(&mut self) -> Result<Rc<Page>, AllocError>
        ensures counts { counts self.new ≡ counts self.old }
        ensures same { pages self.new ≡ pages self.old }
        ensures pool { SparesNumbers room failures cache_size honest self.old self.new };

    /// Adds a page of that kind under an unreferenced number, and sets its reference count to 1. Freed numbers are
    /// reused first. The page itself is cached, and not copied. The errors: Device, NoMemory or TooManyPages.
    fn add(&mut self, page: Rc<Page>, kind: PageKind) -> Result<PageNo, PoolFault>
        requires { is_of kind page.value ≡ true }
        ensures added { IfOk result (λ no. IsAdded counts pages page.value no self.old self.new) }
        ensures dense { OnOk result (length (counts self.new)
            ≡ max (length (counts self.old)) (used_of (counts self.old) + 1)) }
        ensures err { OnErr result (counts self.new ≡ counts self.old) }

        ensures kept { KeepsNamed (counts self.old) (pages self.old) (pages self.new) }
        ensures named { StaysNamed (counts self.old) (counts self.new) }
        ensures pool { SpendsNumbers room failures cache_size honest 1 result self.old self.new };

    /// Increments the reference count of a referenced page. The error is TooManyPages, if it is 4,294,967,295. It
    /// allocates nothing, and calls no device.
    fn share(&mut self, no: PageNo) -> Result<(), PoolFault>
        requires { 0 < count_of (counts self.old) no }
        ensures counts { OnOk result (AddsName no (counts self.old) (counts self.new)) }
        ensures err { OnErr result (counts self.new ≡ counts self.old) }
        ensures fault { IfErr result (λ cause. cause ≡ fault.TooManyPages) }
        ensures full { OnErr result (MAX_PAGES ≤ count_of (counts self.old) no) }

        ensures same { pages self.new ≡ pages self.old }
        ensures named { StaysNamed (counts self.old) (counts self.new) }
        ensures pool { SparesNumbers room failures cache_size honest self.old self.new };

    /// Decrements the reference count of a referenced page. At 0 its number becomes free, and it is dropped from the
    /// cache. It allocates nothing, calls no device, and cannot fail.
    fn drop_ref(&mut self, no: PageNo)
        requires { 0 < count_of (counts self.old) no }
        ensures counts { AddsName no (counts self.new) (counts self.old) }

        ensures kept { KeepsNamed (counts self.new) (pages self.old) (pages self.new) }
        ensures pool { SparesNumbers room failures cache_size honest self.old self.new };

    /// The page with a referenced number, which had that kind when it was added: over an honest device that page, and
    /// over any a page of that kind. It is validated when it is read from the device; one that is invalid is not
    /// cached, so that the next call reads it again. The errors: Device, NoMemory or Damaged.
    fn read(&mut self, no: PageNo, kind: PageKind) -> Result<Rc<Page>, PoolFault>
        requires named { 0 < count_of (counts self.old) no }
        requires kind { (bytes : List ℕ) → pages self.old no ≡ Some bytes → is_of kind bytes ≡ true }
        ensures tested { IfOk result (λ page. is_of kind page.value ≡ true) }
        ensures value { IfOk result
            (λ page. IsTrue (honest self.old) → pages self.old no ≡ Some page.value) }
        ensures counts { counts self.new ≡ counts self.old }
        ensures same { pages self.new ≡ pages self.old }
        ensures pool { SpendsNumbers room failures cache_size honest 0 result self.old self.new };

    /// The page with a referenced number, and the kind of which it is known to be: over an honest device that page. It is
    /// not validated; what is known of a cached page stays so. The errors: Device or NoMemory.
    fn read_any(&mut self, no: PageNo) -> Result<(Rc<Page>, PageKind), PoolFault>
        requires { 0 < count_of (counts self.old) no }
        ensures tested { IfOk result (λ known. is_of known.1 known.0.value ≡ true) }
        ensures value { IfOk result
            (λ known. IsTrue (honest self.old) → pages self.old no ≡ Some known.0.value) }
        ensures counts { counts self.new ≡ counts self.old }
        ensures same { pages self.new ≡ pages self.old }
        ensures pool { SpendsNumbers room failures cache_size honest 0 result self.old self.new };

    /// Reads `into.len()` bytes of the page with a referenced number, from byte `from` on, counted from 0: over an
    /// honest device those of the page that was added. They are not validated, and the page is not cached. The errors:
    /// Device or NoMemory; `into` then holds any bytes.
    fn read_range(&mut self, no: PageNo, from: usize, into: &mut [u8]) -> Result<(), PoolFault>
        requires named { 0 < count_of (counts self.old) no }
        requires within { from + length into.old ≤ PAGE_BYTES }
        ensures value { OnOk result (IsTrue (honest self.old)
            → range_of from (length into.new) (pages self.old no) ≡ Some into.new) }
        ensures counts { counts self.new ≡ counts self.old }
        ensures same { pages self.new ≡ pages self.old }
        ensures pool { SpendsNumbers room failures cache_size honest 0 result self.old self.new };

    /// Drops the page with that number from memory, so that the next call reads it again. It allocates nothing, calls
    /// no device, and cannot fail.
    fn forget(&mut self, no: PageNo)
        ensures counts { counts self.new ≡ counts self.old }
        ensures same { pages self.new ≡ pages self.old }
        ensures pool { SparesNumbers room failures cache_size honest self.old self.new };

    /// How many pages are referenced.
    fn used(&self) -> usize
        ensures { result ≡ used_of (counts self.now) };

    /// How many pages are cached, at most the capacity of the cache.
    fn cached(&self) -> usize
        ensures pages { result ≡ cached_pages self.now }
        ensures within { result ≤ cache_size self.now };

    /// A referenced page was added.
    ghost stored: { (p : Self) (n : ℕ) → 0 < count_of (counts p) n → IsSome (pages p n) };

    /// No number at the limit or above it is referenced.
    ghost limited: { (p : Self) (n : ℕ) → MAX_PAGES ≤ n → count_of (counts p) n ≡ 0 };
}
