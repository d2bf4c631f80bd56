//! The pool: its counts, its numbers and its cache.
ghost use Rattle.std.specs.Prelude.{◌≢◌, ◌+◌, ◌<◌, ◌≤◌};
ghost use Rattle.oai_device.specs.declared.devices.TheConstants.{PAGE_BYTES};
ghost use Rattle.oai_pool.specs.Counts.{StaysNamed, count_of};

use crate::assertions::{assert_same, assert_shown};
use crate::devices::filled::{assert_filled, fill};
use crate::devices::numbered_pages::assert_page;
use crate::devices::saturated::WornDevice;
use crate::devices::steps::{add, assert_both, assert_named, drop_name, filled, share_and_drop};
use oai_device::{FaultyDevice, FlippingDevice, MemoryDevice, PageDevice};
use oai_pool::{PageKind, PageNo, PagePool, Pool, PoolFault};
use std::panic::Expect;
use std::process::Abort;
use tests_devices::CountingDevice;

/// A page is there as often as it is named, and its number is given again.
#[test]
fn named_pages(rt: HostRuntime) {
    let mut pool = Pool::new(rt.alloc(), MemoryDevice::new(rt.alloc()), 1).expect(&rt, "Pool::new");
    let first = add(&rt, &mut pool, 1);
    let second = add(&rt, &mut pool, 2);
    assert!(rt; first != second);
    assert_same(&rt, pool.used(), 2);
    assert_both(&rt, &mut pool, (first, 1), (second, 2));
    assert!(rt; pool.cached() <= 1);
    share_and_drop(&rt, &mut pool, first);
    assert_both(&rt, &mut pool, (first, 1), (second, 2));
    assert_same(&rt, pool.used(), 2);
    assert_given_again(&rt, &mut pool, first, second);
}

/// The number of the page that goes is given to a third one, of two pages of which the other stays.
fn assert_given_again<P: PagePool>(rt: &impl Abort, pool: &mut P, goes: PageNo, stays: PageNo)
    requires apart { stays ≢ goes }
    requires goes { 0 < count_of (P.counts pool.old) goes }
    requires stays { 0 < count_of (P.counts pool.old) stays }
{
    drop_name(pool, goes);
    assert_same(rt, pool.used(), 1);
    let third = add(rt, pool, 3);
    assert_same(rt, (third, pool.used()), (goes, 2));
    assert_both(rt, pool, (third, 3), (stays, 2));
}

/// A page that is added is not there where the device fails.
#[test]
fn pool_over_a_device_that_fails(rt: HostRuntime) {
    let device = FaultyDevice::new(MemoryDevice::new(rt.alloc()), 1);
    let mut pool = Pool::new(rt.alloc(), device, 8).expect(&rt, "Pool::new");
    let page = filled(&rt, &mut pool, 1);
    assert_same(&rt, pool.add(page, PageKind::Bytes), Err(PoolFault::Device));
    assert_same(&rt, (pool.used(), pool.cached()), (0, 0));
    let no = add(&rt, &mut pool, 1);
    assert_same(&rt, (no, pool.used()), (0, 1));
    assert_named(&rt, &mut pool, no, 1);
}

/// The same over a device whose count of failures stands at its last value.
#[test]
fn pool_over_a_worn_device(rt: HostRuntime) {
    let inner = WornDevice {
        inner: MemoryDevice::new(rt.alloc()),
    };
    let mut pool = Pool::new(rt.alloc(), FaultyDevice::new(inner, 1), 8).expect(&rt, "Pool::new");
    let page = filled(&rt, &mut pool, 1);
    assert_same(&rt, pool.add(page, PageKind::Bytes), Err(PoolFault::Device));
    assert_same(&rt, pool.used(), 0);
    let no = add(&rt, &mut pool, 1);
    assert_named(&rt, &mut pool, no, 1);
}

/// Pages that the cache holds are not read from the device.
#[test]
fn cached_pages(rt: HostRuntime) {
    let device = CountingDevice::new(MemoryDevice::new(rt.alloc()));
    let mut pool = Pool::new(rt.alloc(), device, 2).expect(&rt, "Pool::new");
    let first = add(&rt, &mut pool, 1);
    let second = add(&rt, &mut pool, 2);
    assert_both(&rt, &mut pool, (first, 1), (second, 2));
    assert_both(&rt, &mut pool, (first, 1), (second, 2));
    assert_both(&rt, &mut pool, (first, 1), (second, 2));
    assert!(rt; pool.device().reads() <= 2);
    assert_same(&rt, (pool.cached(), pool.device().writes()), (2, 2));
}

/// The pool gives these bytes of the page, from that one on.
fn assert_range<P: PagePool>(
    rt: &impl Abort,
    pool: &mut P,
    no: PageNo,
    from: usize,
    wanted: [u8; 3],
)
    requires named { 0 < count_of (P.counts pool.old) no }
    requires within { from + 3 ≤ PAGE_BYTES }
    ensures { StaysNamed (P.counts pool.old) (P.counts pool.new) }
{
    let mut range = [0; 3];
    pool.read_range(no, from, &mut range)
        .expect(rt, "read_range");
    assert_same(rt, range, wanted);
}

/// The pool gives the first three bytes of the page, and the last three.
fn assert_ranges<P: PagePool>(
    rt: &impl Abort,
    pool: &mut P,
    no: PageNo,
    front: [u8; 3],
    back: [u8; 3],
)
    requires { 0 < count_of (P.counts pool.old) no }
    ensures { StaysNamed (P.counts pool.old) (P.counts pool.new) }
{
    assert_range(rt, pool, no, 0, front);
    assert_range(rt, pool, no, 16_381, back);
}

/// A range of a page that the cache holds is not read from the device, and one of another page is, which does
/// not go into the cache.
#[test]
fn ranges_of_pages(rt: HostRuntime) {
    let device = CountingDevice::new(MemoryDevice::new(rt.alloc()));
    let mut pool = Pool::new(rt.alloc(), device, 1).expect(&rt, "Pool::new");
    let first = add(&rt, &mut pool, 0x0102);
    let second = add(&rt, &mut pool, 0x0304);
    assert_ranges(&rt, &mut pool, second, [3, 4, 4], [4, 4, 4]);
    assert_same(&rt, (pool.cached(), pool.device().reads()), (1, 0));
    assert_ranges(&rt, &mut pool, first, [1, 2, 2], [2, 2, 2]);
    assert_ranges(&rt, &mut pool, second, [3, 4, 4], [4, 4, 4]);
    assert_same(&rt, (pool.cached(), pool.device().reads()), (1, 2));
}

/// What the device gives is what is read, and not a copy beside it.
#[test]
fn pool_over_a_device_that_lies(rt: HostRuntime) {
    let device = FlippingDevice::new(MemoryDevice::new(rt.alloc()), 1);
    let mut pool = Pool::new(rt.alloc(), device, 1).expect(&rt, "Pool::new");
    let first = add(&rt, &mut pool, 1);
    let second = add(&rt, &mut pool, 2);
    assert_both(&rt, &mut pool, (first, 0xff01), (second, 2));
    assert_both(&rt, &mut pool, (first, 1), (second, 2));
}

/// A page that somebody still reads stays as it is, whatever becomes of its number and of the cache.
#[test]
fn page_that_is_still_read(rt: HostRuntime) {
    let mut pool = Pool::new(rt.alloc(), MemoryDevice::new(rt.alloc()), 1).expect(&rt, "Pool::new");
    let first = add(&rt, &mut pool, 1);
    let read = pool.read(first, PageKind::Bytes).expect(&rt, "read");
    drop_name(&mut pool, first);
    let second = add(&rt, &mut pool, 2);
    let third = add(&rt, &mut pool, 3);
    assert_both(&rt, &mut pool, (second, 2), (third, 3));
    assert_page(&rt, &read, 1);
}

/// 1,100 pages over a cache of 1,024 pages, of which the pages that were used last stay.
#[test]
fn more_pages_than_the_cache_holds(rt: HostRuntime) {
    let device = CountingDevice::new(MemoryDevice::new(rt.alloc()));
    let mut pool = Pool::new(rt.alloc(), device, 1_024).expect(&rt, "Pool::new");
    fill(&rt, &mut pool, 1_100);
    assert_filled(&rt, &mut pool, 1_100);
    assert_same(&rt, (pool.used(), pool.cached()), (1_100, 1_024));
    assert_same(
        &rt,
        (pool.device().reads(), pool.device().writes()),
        (1_100, 1_100),
    );
}

#[test]
fn texts_of_faults(rt: HostRuntime) {
    let alloc = rt.alloc();
    assert_shown(&rt, alloc, PoolFault::Device, "the device failed");
    assert_shown(&rt, alloc, PoolFault::Damaged, "a page is damaged");
    assert_shown(&rt, alloc, PoolFault::NoMemory, "out of memory");
    assert_shown(
        &rt,
        alloc,
        PoolFault::TooManyPages,
        "there are too many pages",
    );
}
