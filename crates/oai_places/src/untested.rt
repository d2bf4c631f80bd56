//! Looks for an item on a page whose entries were not validated: if it is found, it alone is.

ghost use Rattle.std.specs.Prelude.{◌≡◌, ◌≤◌, ℤ, List, false, true, length, IfOk};
ghost use Rattle.oai_item.specs.Encoding.{Spells};
ghost use Rattle.oai_item.specs.Item.{ItemState};
ghost use Rattle.oai_item.specs.Items.{is_at, is_named};
ghost use Rattle.oai_places.specs.Finding.{IsFinding};
ghost use Rattle.oai_places.specs.Pages.{IsPage, begins_at};
ghost use Rattle.oai_places.specs.Picking.{IsFoundWanted, IsPicked};

use crate::entry_bytes::first_number;
use crate::finding::{first_entry, first_text};
use crate::sizes::{NUMBER_BYTES, STAMP_BYTES};
use oai_item::{DecodeFault, Item, ItemKey, Spelling};
use std::alloc::{AllocError, Global};

/// The item with that key on the page, or None. It alone is validated; but if it is not found, each entry is, so that an
/// item whose identifier was overwritten is damaged, and not missing. The errors: `Damaged` only if the bytes are not a
/// page of items; `NoMemory`.
pub(crate) fn find_untested(
    alloc: Global,
    page: &[u8],
    key: ItemKey<'_>,
) -> Result<Option<Item>, DecodeFault>
    requires { 4 ≤ length page.now }
    ensures { (items : List ItemState) → IsPage page.now items → IsFinding key.entry.stamp key.entry.identifier.now items result }
{
    match find_among(alloc, page, key, false) {
        Ok(None) => find_among(alloc, page, key, true),
        found => found,
    }
}

/// The same: each entry before that of the item is skipped by its length, or, if `all`, validated too.
fn find_among(
    alloc: Global,
    page: &[u8],
    key: ItemKey<'_>,
    all: bool,
) -> Result<Option<Item>, DecodeFault>
    requires { 4 ≤ length page.now }
    ensures { (items : List ItemState) → IsPage page.now items → IsFinding key.entry.stamp key.entry.identifier.now items result }
{
    let mut rest = &page[NUMBER_BYTES..];
    'entries: for _ in 0..first_number(page) {
        let Some((spelling, behind)) = first_entry(rest) else {
            return Err(DecodeFault::Damaged);
        };
        match read_at_key(alloc, spelling, key, all) {
            Ok(Some(item)) => return Ok(Some(item)),
            Ok(None) => {}
            Err(fault) => return Err(fault),
        }
        rest = behind;
    }
    Ok(None)
}

/// Whether the first item of the page may have this identifier: if it has, the result is true.
pub(crate) fn may_begin(page: &[u8], identifier: &str) -> bool
    requires { 4 ≤ length page.now }
    ensures { (items : List ItemState) (stamp : ℤ) → IsPage page.now items
        → begins_at stamp identifier.now items ≡ true → result ≡ true }
{
    match first_entry(&page[NUMBER_BYTES..]) {
        Some((spelling, _)) => may_be_named(spelling, identifier),
        None => false,
    }
}

/// The item that the bytes encode, if it has this key; those of another identifier are validated only if `all`. The
/// errors: `Damaged` only if the bytes encode no item; `NoMemory`.
fn read_at_key(
    alloc: Global,
    spelling: &[u8],
    key: ItemKey<'_>,
    all: bool,
) -> Result<Option<Item>, DecodeFault>
    ensures { (item : ItemState) → Spells spelling.now item
        → IsPicked (is_at key.entry.stamp key.entry.identifier.now) item result }
{
    if !all && !may_be_named(spelling, key.identifier) {
        return Ok(None);
    }
    match Spelling::read(alloc, spelling) {
        Ok(item) => Ok(copy_at_key(alloc, &item, key)?),
        Err(fault) => Err(fault),
    }
}

/// A copy of the item, if it has this key. The error is out of memory.
fn copy_at_key(
    alloc: Global,
    item: &Spelling<'_>,
    key: ItemKey<'_>,
) -> Result<Option<Item>, AllocError>
    ensures { IfOk result
        (λ found. IsFoundWanted (is_at key.entry.stamp key.entry.identifier.now) item.now found) }
{
    if !item.is_at(key) {
        return Ok(None);
    }
    Ok(Some(Item::spelled(alloc, item)?))
}

/// Whether the item that the bytes encode may have this identifier: if it has, the result is true.
fn may_be_named(spelling: &[u8], identifier: &str) -> bool
    ensures { (item : ItemState) → Spells spelling.now item → result ≡ false → is_named identifier.now item ≡ false }
{
    if spelling.len() < STAMP_BYTES {
        return true;
    }
    match first_text(&spelling[STAMP_BYTES..]) {
        Some((name, _)) => name == identifier.as_bytes(),
        None => true,
    }
}
