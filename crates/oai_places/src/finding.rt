//! Looks for an item on a page, without decoding any other item.

ghost use Rattle.std.specs.Prelude.{◌<◌, ◌≤◌, ◌≡◌, ◌==◌, ◌+◌, ◌++◌, ◌^◌, ℕ, List, Some, length, take, drop, true, IfOk, IfSome};
ghost use Rattle.oai_item.specs.Decoding.{item_in};
ghost use Rattle.oai_item.specs.Encoding.{Spells, encoded, encoded_text};
ghost use Rattle.oai_item.specs.Item.{ItemState};
ghost use Rattle.oai_item.specs.Items.{item_at};
ghost use Rattle.oai_places.specs.Finding.{IsTextParted};
ghost use Rattle.oai_places.specs.Pages.{IsPage, begins_at, entry_of, first_number};
ghost use Rattle.oai_pool.specs.Kinds as kinds;
ghost use Rattle.oai_pool.specs.Kinds.{spells_item};

use crate::entry_bytes::first_number;
use crate::sizes::NUMBER_BYTES;
use oai_item::{Item, ItemKey, Spelling};
use std::alloc::{AllocError, Global};

/// The item with that key on the page, each entry of which is known to encode an item, or None. The entries before it
/// are skipped by their lengths, and it alone is copied. The error is out of memory.
pub(crate) fn find_on_page(
    alloc: Global,
    page: &[u8],
    key: ItemKey<'_>,
) -> Result<Option<Item>, AllocError>
    requires long { 4 ≤ length page.now }
    requires tested { kinds.has_items page.now ≡ true }
    ensures { (items : List ItemState) → IsPage page.now items
        → IfOk result (λ found. found ≡ item_at key.entry.stamp key.entry.identifier.now items) }
{
    let mut rest = &page[NUMBER_BYTES..];
    'entries: for _ in 0..first_number(page) {
        let (item, behind) = spelled_entry(rest);
        if item.is_at(key) {
            return found(alloc, &item);
        }
        rest = behind;
    }
    Ok(None)
}

/// Whether the page has that many items.
pub(crate) fn has_items(page: &[u8], len: usize) -> bool
    requires { 4 ≤ length page.now }
    ensures { (items : List ItemState) → IsPage page.now items → result ≡ (length items == len) }
{
    first_number(page) == len
}

/// Whether the first item of the page, each entry of which is known to encode an item, has this key.
pub(crate) fn begins_on_page(page: &[u8], key: ItemKey<'_>) -> bool
    requires long { 4 ≤ length page.now }
    requires tested { kinds.has_items page.now ≡ true }
    ensures { (items : List ItemState) → IsPage page.now items → result ≡ begins_at key.entry.stamp key.entry.identifier.now items }
{
    if first_number(page) == 0 {
        return false;
    }
    let (item, _) = spelled_entry(&page[NUMBER_BYTES..]);
    item.is_at(key)
}

/// The item of the entry at the start of the bytes, which is known to encode one, and the remaining bytes.
fn spelled_entry(bytes: &[u8]) -> (Spelling<'_>, &[u8])
    requires { spells_item bytes.now ≡ true }
    ensures item { item_in (take (first_number bytes.now) (drop 4 bytes.now)) ≡ Some result.0 }
    ensures behind { result.1.now ≡ drop (4 + first_number bytes.now) bytes.now }
{
    let (spelling, behind) = bytes[NUMBER_BYTES..].split_at(first_number(bytes));
    (Spelling::new(spelling), behind)
}

/// The encoded item in the entry at the start of the bytes, and the remaining bytes, or None if there is no such entry.
/// The encoding is not validated.
pub(crate) fn first_entry(bytes: &[u8]) -> Option<(&[u8], &[u8])>
    ensures fewer { IfSome result (λ parts. length parts.1.now < length bytes.now) }
    ensures parts { (item : ItemState) (behind : List ℕ) → Spells (encoded item) item
        → bytes.now ≡ entry_of item ++ behind → IsTextParted (encoded item) behind result }
{
    first_text(bytes)
}

/// The text at the start of the bytes, which follows its length, and the remaining bytes, or None if there is none. Any
/// bytes are a text here.
pub(crate) fn first_text(bytes: &[u8]) -> Option<(&[u8], &[u8])>
    ensures fewer { IfSome result (λ parts. length parts.1.now < length bytes.now) }
    ensures parts { (text behind : List ℕ) → length text < 2 ^ 32
        → bytes.now ≡ encoded_text text ++ behind → IsTextParted text behind result }
{
    if bytes.len() < NUMBER_BYTES {
        return None;
    }
    let len = first_number(bytes);
    let rest = &bytes[NUMBER_BYTES..];
    if rest.len() < len {
        return None;
    }
    Some(rest.split_at(len))
}

/// A copy of the item that was found. The error is out of memory.
fn found(alloc: Global, item: &Spelling<'_>) -> Result<Option<Item>, AllocError>
    ensures { IfOk result (λ found. found ≡ Some item.now) }
{
    Ok(Some(Item::spelled(alloc, item)?))
}
