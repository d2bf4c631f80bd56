//! What a store counts: its pages, and the calls of its device.
use oai_catalogue::{PlainVersions, Versions};
use oai_device::PageDevice;
use oai_paged::PagedVersions;
use oai_pool::PagePool;
use tests_devices::CountingDevice;
use tests_stores::{Hook, HookedVersions};

/// How many pages are used, how many reads and writes were asked of the device, and how many calls of it failed.
#[derive(Clone, Copy)]
pub(crate) struct Counts {
    /// The pages.
    pub(crate) used: usize,
    /// The reads.
    pub(crate) reads: u64,
    /// The writes.
    pub(crate) writes: u64,
    /// The calls that failed.
    pub(crate) faults: u64,
}

/// A store that may have pages.
pub(crate) trait Counted {
    /// What it counts.
    fn counts(&self) -> Counts;
}

/// A store without pages.
fn nothing() -> Counts {
    Counts {
        used: 0,
        reads: 0,
        writes: 0,
        faults: 0,
    }
}

impl Counted for PlainVersions {
    fn counts(&self) -> Counts {
        nothing()
    }
}

impl<V: Versions + Drop, H: Hook + Drop> Counted for HookedVersions<V, H> {
    fn counts(&self) -> Counts {
        nothing()
    }
}

impl<D: PageDevice> Counted for PagedVersions<CountingDevice<D>> {
    fn counts(&self) -> Counts {
        let device = self.pool().device();
        Counts {
            used: self.pool().used(),
            reads: device.reads(),
            writes: device.writes(),
            faults: device.faults(),
        }
    }
}
