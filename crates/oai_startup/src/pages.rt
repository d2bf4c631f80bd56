//! The device of the pages on which the program's host stores its items, and the host over it.
ghost use Rattle.std.specs.Prelude.{◌≡◌, IfErr, IfOk};
ghost use Rattle.oai_catalogue.specs.Store.{no_lists};
ghost use Rattle.oai_paged.specs.Store.{pool_of};
ghost use Rattle.oai_pool.specs.Pool.{device_of};
ghost use Rattle.oai_startup.specs.Begun.{IsBegunOn, all_calls};
ghost use Rattle.oai_startup.specs.declared.stop.Stop.TheVariants.{NoMemory};

use crate::configurations::host_over;
use crate::stop::Stop;
use oai_catalogue::Versions;
use oai_device::PageDevice;
use oai_host::{Config, Host};
use oai_paged::{PagedVersions, VersionsOver};
use oai_pool::{PagePool, Pool};
use std::alloc::{AllocError, Global};
use std::fs::{File, OpenOptions};
use std::io::ErrorKind;
use std::rt::Files;

/// The file at that path, empty, opened for reading and writing. It is created, or truncated if it exists. The errors
/// are `DeviceFault`, if it cannot be opened so, and `NoMemory`.
pub fn empty_file<R: Files<File = File>>(rt: &R, path: &str) -> Result<File, Stop> {
    let opened = OpenOptions::new()
        .read(true)
        .write(true)
        .create(true)
        .truncate(true)
        .open(rt, path);
    match opened {
        Ok(file) => Ok(file),
        Err(error) if error.kind() == ErrorKind::OutOfMemory => Err(Stop::NoMemory),
        Err(_) => Err(Stop::DeviceFault),
    }
}

/// The host of the configuration over the pages of that device. Its repositories have no items and no sets. The
/// store is made by `store_on`, whose contract says how many pages the cache has. The error is `NoMemory`.
pub fn host_on<D: PageDevice>(
    alloc: Global,
    config: Config,
    device: D,
) -> Result<Host<PagedVersions<D>>, Stop>
    ensures begun { IfOk result (IsBegunOn config (D.honest device) (D.failures device)) }
    ensures err { IfErr result (λ stop. stop ≡ NoMemory) }
{
    match store_on(alloc, &config, device) {
        Ok(store) => host_over(alloc, config, store),
        Err(_) => Err(Stop::NoMemory),
    }
}

/// A store without versions over the pages of that device, with a cache of as many pages as the configuration says. It
/// is as honest as the device, and has failed as often. The error is out of memory.
fn store_on<D: PageDevice>(
    alloc: Global,
    config: &Config,
    device: D,
) -> Result<PagedVersions<D>, AllocError>
    ensures cache { IfOk result (λ store. ⟦<Pool<D> as PagePool>⟧.cache_size (pool_of store) ≡ config.now.cache) }
    ensures device { IfOk result (λ store. device_of (pool_of store) ≡ device) }
    ensures lists { IfOk result (λ store. ⟦<VersionsOver<Pool<D>> as Versions>⟧.lists store ≡ no_lists) }
    ensures honesty { IfOk result (λ store. ⟦<VersionsOver<Pool<D>> as Versions>⟧.honest store ≡ D.honest device) }
    ensures count { IfOk result (λ store. ⟦<VersionsOver<Pool<D>> as Versions>⟧.failures store ≡ D.failures device) }
    ensures room { IfOk result (λ store. ⟦<VersionsOver<Pool<D>> as Versions>⟧.room store ≡ all_calls) }
{
    match Pool::new(alloc, device, config.cache() as usize) {
        Ok(pool) => Ok(VersionsOver::new(alloc, pool)),
        Err(_) => Err(AllocError),
    }
}
