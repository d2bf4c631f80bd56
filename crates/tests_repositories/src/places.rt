//! The places of items among items in order.
ghost use Rattle.std.specs.Prelude.{◌≡◌, true};
ghost use Rattle.oai_item.specs.Order.{are_in_order};

use crate::assertions::assert_same;
use oai_item::{Item, place_of};
use std::alloc::Global;
use std::cmp::Ordering;
use std::panic::Expect;
use std::process::Abort;
use tests_samples::{STAMP, item};

/// The item `oai:a:1`, in the set `x:y`.
fn first(rt: &impl Abort, alloc: Global) -> Item {
    item(alloc, "oai:a:1", 0, &["x:y"], "T").expect(rt, "item")
}

/// The places of items among the item and its tombstone, a second later.
fn assert_places(rt: &impl Abort, items: &[Item])
    requires { are_in_order items.now ≡ true }
{
    assert_same(rt, place_of(items, STAMP + 1, "oai:a:1"), Ok(1));
    assert_same(rt, place_of(items, STAMP + 1, "oai:a:0"), Err(1));
    assert_same(rt, place_of(items, STAMP + 2, "oai:a:1"), Err(2));
}

#[test]
fn items_in_order(rt: HostRuntime) {
    let alloc = rt.alloc();
    let item = first(&rt, alloc);
    let later = item.tombstone(alloc, STAMP + 1).expect(&rt, "tombstone");
    assert!(rt; item.order(&later) == Ordering::Less);
    assert_places(&rt, &[item, later]);
}
