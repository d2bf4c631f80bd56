//! A device over a file in memory, which is honest by its contract.
use crate::assertions::assert_same;
use crate::devices::numbered_pages::{assert_page, page_of};
use crate::devices::steps::{add, assert_both};
use oai_device::PageDevice;
use oai_pool::{PagePool, Pool};
use std::panic::Expect;
use tests_devices::{device_in_memory, read_back};

/// A page is read as it was written, at the first number and at the last one.
#[test]
fn page_read_back(rt: HostRuntime) {
    for no in [0, 4_294_967_294] {
        let found = read_back(rt.alloc(), no, &page_of(7)).expect(&rt, "read_back");
        assert_page(&rt, &found, 7);
    }
}

/// Pages that are not in the cache of a pool come from such a file.
#[test]
fn pool_over_a_file_in_memory(rt: HostRuntime) {
    let mut pool = Pool::new(rt.alloc(), device_in_memory(rt.alloc()), 1).expect(&rt, "Pool::new");
    let first = add(&rt, &mut pool, 1);
    let second = add(&rt, &mut pool, 2);
    assert_both(&rt, &mut pool, (first, 1), (second, 2));
    assert_same(&rt, (pool.used(), pool.device().faults()), (2, 0));
}
