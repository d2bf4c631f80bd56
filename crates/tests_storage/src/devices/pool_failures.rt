//! A pool over a device each of whose calls fails in turn.
ghost use Rattle.std.specs.Prelude.{◌<◌};
ghost use Rattle.oai_pool.specs.Counts.{StaysNamed, count_of};

use crate::assertions::assert_same;
use crate::devices::numbered_pages::assert_page;
use crate::devices::steps::{add, drop_name, filled, share_and_drop};
use oai_device::{FaultyDevice, MemoryDevice, PageDevice};
use oai_pool::{PageKind, PageNo, PagePool, Pool, PoolFault};
use std::alloc::Global;
use std::panic::Expect;
use std::process::Abort;

/// Adds the page of `number`. Where the device fails, as many pages are used as before, and the page is
/// added at the second time.
fn add_again<P: PagePool>(rt: &impl Abort, pool: &mut P, number: u16) -> PageNo
    ensures added { 0 < count_of (P.counts pool.new) result }
    ensures named { StaysNamed (P.counts pool.old) (P.counts pool.new) }
{
    let used = pool.used();
    let page = filled(rt, pool, number);
    match pool.add(page, PageKind::Bytes) {
        Ok(no) => no,
        Err(fault) => {
            assert_same(rt, fault, PoolFault::Device);
            assert_same(rt, pool.used(), used);
            add(rt, pool, number)
        }
    }
}

/// The pool gives the page of `number`. Where the device fails, it is read at the second time.
fn assert_again<P: PagePool>(rt: &impl Abort, pool: &mut P, no: PageNo, number: u16)
    requires { 0 < count_of (P.counts pool.old) no }
    ensures { StaysNamed (P.counts pool.old) (P.counts pool.new) }
{
    match pool.read(no, PageKind::Bytes) {
        Ok(page) => assert_page(rt, &page, number),
        Err(fault) => {
            assert_same(rt, fault, PoolFault::Device);
            let page = pool.read(no, PageKind::Bytes).expect(rt, "read");
            assert_page(rt, &page, number);
        }
    }
}

/// The same of two pages, each under a number with the `number` that it is of.
fn assert_both_again<P: PagePool>(
    rt: &impl Abort,
    pool: &mut P,
    first: (PageNo, u16),
    second: (PageNo, u16),
)
    requires first { 0 < count_of (P.counts pool.old) first.0 }
    requires second { 0 < count_of (P.counts pool.old) second.0 }
    ensures first { 0 < count_of (P.counts pool.new) first.0 }
    ensures second { 0 < count_of (P.counts pool.new) second.0 }
    ensures named { StaysNamed (P.counts pool.old) (P.counts pool.new) }
{
    assert_again(rt, pool, first.0, first.1);
    assert_again(rt, pool, second.0, second.1);
}

/// Adds, shares, drops and reads pages over a device whose k-th call fails; how often it failed.
fn failures_at(rt: &impl Abort, alloc: Global, k: u64) -> u64 {
    let device = FaultyDevice::new(MemoryDevice::new(alloc), k);
    let mut pool = Pool::new(alloc, device, 1).expect(rt, "Pool::new");
    let first = add_again(rt, &mut pool, 1);
    let second = add_again(rt, &mut pool, 2);
    assert!(rt; first != second);
    assert_both_again(rt, &mut pool, (first, 1), (second, 2));
    drop_name(&mut pool, second);
    share_and_drop(rt, &mut pool, first);
    let third = add_again(rt, &mut pool, 3);
    assert_both_again(rt, &mut pool, (first, 1), (third, 3));
    let fourth = add_again(rt, &mut pool, 4);
    assert_both_again(rt, &mut pool, (first, 1), (third, 3));
    assert_again(rt, &mut pool, fourth, 4);
    assert_same(rt, pool.used(), 3);
    pool.device().faults()
}

/// Up to the first k at which no call fails: four pages are added, and seven are read that the cache does
/// not hold.
#[test]
fn each_call_fails_in_turn(rt: HostRuntime) {
    for k in 1..12 {
        assert_same(&rt, failures_at(&rt, rt.alloc(), k), 1);
    }
    assert_same(&rt, failures_at(&rt, rt.alloc(), 12), 0);
}
