//! Items that tests speak of, each described in short.
use oai_item::Item;
use oai_names::{Identifier, Prefix, Sequence};
use std::alloc::Global;
use std::panic::Expect;
use std::process::Abort;

/// 2024-01-01T00:00:00Z.
const STAMP: i64 = 1_704_067_200;

/// An item in short: its identifier, the second of its datestamp, and whether it is live.
#[derive(Clone, Copy)]
pub(crate) struct Told<'a> {
    pub(crate) identifier: &'a str,
    pub(crate) second: u8,
    pub(crate) live: bool,
}

/// A live item.
pub(crate) fn live(identifier: &str, second: u8) -> Told<'_> {
    Told {
        identifier,
        second,
        live: true,
    }
}

/// A deleted item.
pub(crate) fn deleted(identifier: &str, second: u8) -> Told<'_> {
    Told {
        identifier,
        second,
        live: false,
    }
}

/// The datestamp of an item of that second.
pub(crate) fn stamp_at(second: u8) -> i64 {
    STAMP + i64::from(second)
}

/// The item of that identifier and second, with an empty record in oai_dc.
fn empty_item(rt: &impl Abort, alloc: Global, identifier: &str, second: u8) -> Item {
    let stamp = STAMP + i64::from(second);
    let identifier = Identifier::read(alloc, identifier).expect(rt, "Identifier::read");
    let prefix = Prefix::read(alloc, "oai_dc").expect(rt, "Prefix::read");
    let mut formats = Vec::new(alloc);
    formats
        .push((prefix, Sequence::new(Vec::new(alloc))))
        .expect(rt, "memory");
    let sets = Sequence::new(Vec::new(alloc));
    let formats = Sequence::new(formats);
    Item::live(alloc, identifier, stamp, sets, formats).expect(rt, "Item::live")
}

/// The item that this describes.
fn item(rt: &impl Abort, alloc: Global, told: Told<'_>) -> Item {
    let item = empty_item(rt, alloc, told.identifier, told.second);
    if told.live {
        item
    } else {
        let stamp = STAMP + i64::from(told.second);
        item.tombstone(alloc, stamp).expect(rt, "Item::tombstone")
    }
}

/// The items that these describe.
pub(crate) fn items(rt: &impl Abort, alloc: Global, told: &[Told<'_>]) -> Vec<Item> {
    let mut items = Vec::new(alloc);
    for one in told {
        items.push(item(rt, alloc, *one)).expect(rt, "memory");
    }
    items
}
