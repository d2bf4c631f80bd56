//! The stores over which scripts are performed, and what they are answered.
use crate::counts::Counted;
use crate::devices::{over_file, over_flipping, over_inverting, over_overwritten};
use crate::failing::each_failure;
use crate::runs::{StoreWay, perform_beside, perform_on};
use oai_catalogue::{PlainVersions, Versions};
use oai_device::{MemoryDevice, PageDevice};
use oai_paged::PagedVersions;
use oai_pool::Pool;
use std::alloc::Global;
use std::io::{self, Write};
use tests_devices::CountingDevice;
use tests_stores::{Want, cramped, failing};

/// Adds what the lines are answered over the store of that name, behind which stands, after a `:`, of lists the number of the call that
/// fails or finds no room, of pages how many the cache has, 1 where there is no number, and what is wrong with a device.
pub(crate) fn answers_over(
    alloc: Global,
    way: StoreWay,
    lines: &str,
    store: &str,
    out: &mut Vec<u8>,
) -> io::Result<()> {
    let (store, rest) = store.split_once(':').unwrap_or((store, "1"));
    let count = rest.parse::<u64>().unwrap_or(1);
    match store {
        "lists" => over(alloc, PlainVersions::new(alloc), way, lines, out),
        "failing" => over_failing(alloc, count, way, lines, out),
        "without-memory" => over_cramped(alloc, count, Want::Memory, way, lines, out),
        "without-pages" => over_cramped(alloc, count, Want::Pages, way, lines, out),
        "pages" => over_pages(alloc, count, way, lines, out),
        "file" => over_file(alloc, way, lines, out),
        "inverting" => over_inverting(alloc, rest, way, lines, out),
        "flipping" => over_flipping(alloc, count, way, lines, out),
        "overwritten" => over_overwritten(alloc, rest, way, lines, out),
        _ => out.write_all(b"no such store\n"),
    }
}

/// The same over lists of which that call fails.
fn over_failing(
    alloc: Global,
    call: u64,
    way: StoreWay,
    lines: &str,
    out: &mut Vec<u8>,
) -> io::Result<()> {
    let store = failing(PlainVersions::new(alloc), call);
    over(alloc, store, way, lines, out)
}

/// The same over lists of which that call, of those that ask for room, finds none.
fn over_cramped(
    alloc: Global,
    call: u64,
    want: Want,
    way: StoreWay,
    lines: &str,
    out: &mut Vec<u8>,
) -> io::Result<()> {
    let store = cramped(PlainVersions::new(alloc), call, want);
    over(alloc, store, way, lines, out)
}

/// The same over pages in memory, with a cache of so many.
fn over_pages(
    alloc: Global,
    cache: u64,
    way: StoreWay,
    lines: &str,
    out: &mut Vec<u8>,
) -> io::Result<()> {
    let cache = usize::try_from(cache).unwrap_or(1);
    over_device(alloc, MemoryDevice::new(alloc), cache, way, lines, out)
}

/// The same over pages of that device.
pub(crate) fn over_device<D: PageDevice>(
    alloc: Global,
    device: D,
    cache: usize,
    way: StoreWay,
    lines: &str,
    out: &mut Vec<u8>,
) -> io::Result<()> {
    match paged_store(alloc, device, cache) {
        Some(store) => over(alloc, store, way, lines, out),
        None => out.write_all(b"no pool\n"),
    }
}

/// A paged store over a device whose calls are counted, with a cache of so many pages, if there are any.
pub(crate) fn paged_store<D: PageDevice>(
    alloc: Global,
    device: D,
    cache: usize,
) -> Option<PagedVersions<CountingDevice<D>>> {
    if cache == 0 {
        return None;
    }
    match Pool::new(alloc, CountingDevice::new(device), cache) {
        Ok(pool) => Some(PagedVersions::new(alloc, pool)),
        Err(_) => None,
    }
}

/// The same over any store.
fn over<V: Versions + Drop + Counted>(
    alloc: Global,
    store: V,
    way: StoreWay,
    lines: &str,
    out: &mut Vec<u8>,
) -> io::Result<()> {
    match way {
        StoreWay::Answer => perform_on(alloc, store, lines, out),
        StoreWay::Beside => perform_beside(alloc, store, lines, out),
        StoreWay::EachFailure => each_failure(alloc, lines, out),
    }
}
