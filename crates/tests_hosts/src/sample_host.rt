//! The host of the worked configuration.
use oai_catalogue::Versions;
use oai_device::PageDevice;
use oai_host::{Config, Host};
use oai_item::Forms;
use oai_paged::{PagedVersions, VersionsOver};
use oai_pool::Pool;
use std::alloc::Global;
use std::panic::Expect;
use std::process::Abort;
use tests_fixtures::worked_configuration;

/// The worked configuration.
pub(crate) fn config(rt: &impl Abort, alloc: Global) -> Config {
    Config::read(alloc, Forms::Fields, worked_configuration().as_bytes()).expect(rt, "Config::read")
}

/// A new host of it over the store.
pub(crate) fn host<V: Versions + Drop>(rt: &impl Abort, alloc: Global, store: V) -> Host<V> {
    Host::new(alloc, config(rt, alloc), store).expect(rt, "Host::new")
}

/// An empty store over pages of the device, with the cache of the worked configuration.
pub(crate) fn paged<D: PageDevice>(rt: &impl Abort, alloc: Global, device: D) -> PagedVersions<D> {
    let cache = config(rt, alloc).cache() as usize;
    let pool = Pool::new(alloc, device, cache).expect(rt, "Pool::new");
    VersionsOver::new(alloc, pool)
}
