//! A copy that catches up with harvests.
use crate::assertions::assert_same;
use crate::copy_samples::{Told, deleted, items, live, stamp_at};
use oai_copy::{Copy, copy_law};
use oai_item::Item;
use std::alloc::Global;
use std::panic::Expect;
use std::process::Abort;

/// The copy catches up with the items that these describe.
fn catch_up(rt: &impl Abort, alloc: Global, copy: &mut Copy, told: &[Told<'_>]) {
    let harvest = items(rt, alloc, told);
    copy.catch_up(harvest.as_slice())
        .expect(rt, "Copy::catch_up");
}

/// The item is the one that this describes.
fn assert_item(rt: &impl Abort, item: &Item, told: &Told<'_>) {
    assert_same(rt, item.identifier().as_str(), told.identifier);
    assert_same(
        rt,
        (item.stamp(), item.is_live()),
        (stamp_at(told.second), told.live),
    );
}

/// The copy holds the items that these describe, in that order.
pub(crate) fn assert_holds(rt: &impl Abort, copy: &Copy, told: &[Told<'_>]) {
    assert_same(rt, copy.items().len(), told.len());
    for (item, told) in copy.items().iter().zip(told) {
        assert_item(rt, item, told);
    }
}

/// A new copy that catches up with two harvests holds these.
fn assert_holds_after(
    rt: &impl Abort,
    alloc: Global,
    harvests: (&[Told<'_>], &[Told<'_>]),
    told: &[Told<'_>],
) {
    let mut copy = Copy::new(alloc);
    catch_up(rt, alloc, &mut copy, harvests.0);
    catch_up(rt, alloc, &mut copy, harvests.1);
    assert_holds(rt, &copy, told);
}

#[test]
fn new_copy_is_empty(rt: HostRuntime) {
    let copy = Copy::new(rt.alloc());
    assert_holds(&rt, &copy, &[]);
}

#[test]
fn newer_item_replaces_an_older_one_of_its_harvest(rt: HostRuntime) {
    let alloc = rt.alloc();
    let harvest = [live("oai:a:2", 0), live("oai:a:1", 0), live("oai:a:2", 5)];
    let wanted = [live("oai:a:1", 0), live("oai:a:2", 5)];
    assert_holds_after(&rt, alloc, (&harvest, &[]), &wanted);
}

#[test]
fn deleted_item_stays_and_others_are_added_in_order(rt: HostRuntime) {
    let alloc = rt.alloc();
    let first = [live("oai:a:1", 0), live("oai:a:2", 0)];
    let second = [deleted("oai:a:2", 5), live("oai:a:3", 6)];
    let wanted = [
        live("oai:a:1", 0),
        deleted("oai:a:2", 5),
        live("oai:a:3", 6),
    ];
    assert_holds_after(&rt, alloc, (&first, &second), &wanted);
}

#[test]
fn items_come_before_between_and_behind(rt: HostRuntime) {
    let alloc = rt.alloc();
    let first = [live("oai:a:4", 0), live("oai:a:2", 0)];
    let second = [
        live("oai:a:5", 1),
        live("oai:a:3", 1),
        live("oai:a:1", 1),
        live("oai:a:4", 1),
        live("oai:a:4", 2),
    ];
    let wanted = [
        live("oai:a:1", 1),
        live("oai:a:2", 0),
        live("oai:a:3", 1),
        live("oai:a:4", 2),
        live("oai:a:5", 1),
    ];
    assert_holds_after(&rt, alloc, (&first, &second), &wanted);
}

#[test]
fn identifiers_are_in_the_order_of_their_bytes(rt: HostRuntime) {
    let alloc = rt.alloc();
    let first = [live("oai:a:b", 0), live("oai:a:10", 0), live("oai:a:9", 0)];
    let second = [live("oai:a:B", 1), live("oai:a:", 1)];
    let wanted = [
        live("oai:a:", 1),
        live("oai:a:10", 0),
        live("oai:a:9", 0),
        live("oai:a:B", 1),
        live("oai:a:b", 0),
    ];
    assert_holds_after(&rt, alloc, (&first, &second), &wanted);
}

/// Thirty items, each harvested three times, the last time with the greatest second.
fn catch_up_with_thirty(rt: &impl Abort, alloc: Global, copy: &mut Copy) {
    let names = [
        "oai:a:9", "oai:a:3", "oai:a:7", "oai:a:1", "oai:a:5", "oai:a:0", "oai:a:8", "oai:a:2",
        "oai:a:6", "oai:a:4",
    ];
    let mut told = Vec::new(alloc);
    for second in 1..4 {
        for name in names {
            told.push(live(name, second)).expect(rt, "memory");
        }
    }
    catch_up(rt, alloc, copy, told.as_slice());
}

#[test]
fn many_items_are_sorted(rt: HostRuntime) {
    let alloc = rt.alloc();
    let mut copy = Copy::new(alloc);
    catch_up_with_thirty(&rt, alloc, &mut copy);
    let wanted = [
        live("oai:a:0", 3),
        live("oai:a:1", 3),
        live("oai:a:2", 3),
        live("oai:a:3", 3),
        live("oai:a:4", 3),
        live("oai:a:5", 3),
        live("oai:a:6", 3),
        live("oai:a:7", 3),
        live("oai:a:8", 3),
        live("oai:a:9", 3),
    ];
    assert_holds(&rt, &copy, &wanted);
}

#[test]
fn law_of_copies() {
    copy_law();
}
