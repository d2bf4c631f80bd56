//! A pool of pages on a device: pages are reference-counted, an unreferenced page's number is reused, and one cache of
//! bounded size saves reads of the device.
#![tactic(auto)]

mod cache;
mod kept;
mod kinds;
mod names;
mod pool;
mod pools;
mod spares;
mod testing;
mod transfers;

pub use kinds::PageKind;
pub use oai_device::Page;
pub use pool::Pool;
pub use pools::{MAX_PAGES, PageNo, PagePool, PoolFault};
pub use testing::are_zeros;
