//! Reads, in batches, the items of a version that another version lacks.
ghost use Rattle.std.specs.Prelude.{◌≡◌, ◌<◌, ◌≤◌, true, length, option_map, take, IfOk, IfSome, IsTrue};
ghost use Rattle.std.specs.Option.{option_copied};
ghost use Rattle.oai_item.specs.Order.{are_in_order};
ghost use Rattle.oai_catalogue.specs.Calls.{OnlyReads};
ghost use Rattle.oai_catalogue.specs.Store.{list_at};
ghost use Rattle.oai_holdings.specs.Missing as spec;
ghost use Rattle.oai_holdings.specs.Missing.{IsReadableVersion};
ghost use Rattle.oai_holdings.specs.MissingParts as parts;

use crate::changes::{are_same_records, are_same_sets};
use crate::saves::asked_until;
use oai_catalogue::Versions;
use oai_item::{Fault, Item};
use oai_names::{Identifier, Sequence};
use oai_time::LAST_SECOND;
use std::alloc::{AllocError, Global};
use std::cmp::Ordering;

/// An owned key: a position in the order of items, whether or not an item is there.
#[derive(Debug, Drop)]
pub struct OwnedKey {
    /// The datestamp, in seconds from 1970 on.
    pub stamp: i64,
    /// The identifier.
    pub identifier: Identifier,
}

/// A batch of the items of one version that another lacks.
#[derive(Drop)]
pub struct MissingItems {
    /// The items, in their order.
    pub items: Sequence<Item>,
    /// The key after which the next batch begins, or None if this is the last one.
    pub next: Option<OwnedKey>,
}

/// The items of `version` that `other` lacks, since it has no equal item: those after the key `behind`, or from the
/// first on, up to the key `next` that is returned, or to the end if that is None. At most `most` items of each
/// version are read. Each batch but the last goes past `most` items of one of them. Any fault but `TooManyPages` may
/// come.
pub fn read_missing<V: Versions>(
    alloc: Global,
    store: &mut V,
    version: u64,
    other: u64,
    behind: Option<&OwnedKey>,
    most: usize,
) -> Result<MissingItems, Fault>
    requires version { IsReadableVersion V.Versions store.old version }
    requires other { IsReadableVersion V.Versions store.old other }
    requires some { 0 < most }
    ensures batch { IfOk result (λ batch. IsTrue (V.honest store.old)
        → spec.IsBatch (list_at (V.lists store.old) version) (list_at (V.lists store.old) other)
        (option_copied behind.entry) batch) }
    ensures further { IfOk result (λ batch. IfSome batch.next
        (λ next. spec.is_after next (option_copied behind.entry) ≡ true)) }
    ensures past { IfOk result (λ batch. IsTrue (V.honest store.old)
        → spec.GoesPast most (list_at (V.lists store.old) version) (list_at (V.lists store.old) other)
        (option_copied behind.entry) batch) }
    ensures few { IfOk result (λ batch. length batch.items ≤ most) }
    ensures reads { OnlyReads V.Versions result store.old store.new }
{
    let items = read_batch(alloc, store, version, behind, most)?;
    let others = read_batch(alloc, store, other, behind, most)?;
    let last = earlier(
        last_in_batch(items.as_slice(), most),
        last_in_batch(others.as_slice(), most),
    );
    if !is_further(last, behind) {
        return Err(Fault::Damaged);
    }
    let next = sort_key_of(alloc, last)?;
    let decided = up_to(items, &next);
    let items = missing_in(alloc, decided, others.as_slice())?;
    Ok(MissingItems { items, next })
}

/// The items after the key, or from the first on, at most `most` of them. Any fault but `TooManyPages` may come, and
/// `Damaged` if the store returns more.
fn read_batch<V: Versions>(
    alloc: Global,
    store: &mut V,
    version: u64,
    behind: Option<&OwnedKey>,
    most: usize,
) -> Result<Sequence<Item>, Fault>
    requires { IsReadableVersion V.Versions store.old version }
    ensures batch { IfOk result (λ batch. IsTrue (V.honest store.old) → batch
        ≡ take most (spec.items_past (option_copied behind.entry) (list_at (V.lists store.old) version))) }
    ensures few { IfOk result (λ batch. length batch ≤ most) }
    ensures reads { OnlyReads V.Versions result store.old store.new }
{
    let items = read_from(alloc, store, version, behind, most)?;
    if most < items.len() {
        return Err(Fault::Damaged);
    }
    Ok(items)
}

/// The items after the key, or from the first on, at most `most` of them. Any fault but `TooManyPages` may come.
fn read_from<V: Versions>(
    alloc: Global,
    store: &mut V,
    version: u64,
    behind: Option<&OwnedKey>,
    most: usize,
) -> Result<Sequence<Item>, Fault>
    requires { IsReadableVersion V.Versions store.old version }
    ensures batch { IfOk result (λ batch. IsTrue (V.honest store.old) → batch
        ≡ take most (spec.items_past (option_copied behind.entry) (list_at (V.lists store.old) version))) }
    ensures reads { OnlyReads V.Versions result store.old store.new }
{
    let asked = asked_until(alloc, LAST_SECOND)?;
    match behind {
        Some(key) => store.part_after(version, &asked, key.stamp, &key.identifier, most),
        None => store.part(version, &asked, 0, most),
    }
}

/// The last of the items, of which `most` were asked for, or None if there are fewer, since none follow these.
fn last_in_batch(items: &[Item], most: usize) -> Option<&Item>
    ensures { option_copied result ≡ parts.last_in_batch most items.now }
{
    if items.len() < most {
        None
    } else {
        items.last()
    }
}

/// The earlier of two items, in their order, or the only one.
fn earlier<'a>(item: Option<&'a Item>, other: Option<&'a Item>) -> Option<&'a Item>
    ensures { option_copied result ≡ parts.earlier_of (option_copied item.entry) (option_copied other.entry) }
{
    let Some(item) = item else {
        return other;
    };
    let Some(other) = other else {
        return Some(item);
    };
    match item.order(other) {
        Ordering::Less => Some(item),
        _ => Some(other),
    }
}

/// The key of the item, if there is one. The error is out of memory.
pub(crate) fn sort_key_of(
    alloc: Global,
    item: Option<&Item>,
) -> Result<Option<OwnedKey>, AllocError>
    ensures { IfOk result (λ key. key ≡ option_map spec.sort_key_of (option_copied item.entry)) }
{
    match item {
        Some(item) => Ok(Some(OwnedKey {
            stamp: item.stamp(),
            identifier: item.identifier().copy(alloc)?,
        })),
        None => Ok(None),
    }
}

/// Whether the item, if there is one, comes after the key. Each does if there is no key.
fn is_further(item: Option<&Item>, behind: Option<&OwnedKey>) -> bool
    ensures { result ≡ parts.is_further (option_copied item.entry) (option_copied behind.entry) }
{
    let Some(item) = item else {
        return true;
    };
    match behind {
        Some(key) => item.order_to(key.stamp, key.identifier.as_str()) == Ordering::Greater,
        None => true,
    }
}

/// The items up to the key, or all.
fn up_to(items: Sequence<Item>, next: &Option<OwnedKey>) -> Vec<Item>
    ensures { result.items ≡ spec.items_up_to next.now items }
{
    let mut items = items.into_vec();
    items.retain(|item| is_up_to(item, next));
    items
}

/// Whether the item is at the key or before it. Each is if there is no key.
fn is_up_to(item: &Item, next: &Option<OwnedKey>) -> bool
    ensures { result ≡ spec.is_up_to next.now item.now }
{
    match next {
        Some(key) => item.order_to(key.stamp, key.identifier.as_str()) != Ordering::Greater,
        None => true,
    }
}

/// The items that are none of the others, by one pass over both, which are in their order. The error is out of memory.
fn missing_in(
    alloc: Global,
    items: Vec<Item>,
    others: &[Item],
) -> Result<Sequence<Item>, AllocError>
    ensures missing { IfOk result (λ missing. are_in_order items.items ≡ true
        → are_in_order others.now ≡ true → missing ≡ spec.missing_in others.now items.items) }
    ensures few { IfOk result (λ missing. length missing ≤ length items.items) }
{
    let mut missing = Vec::new(alloc);
    let mut left = others;
    for item in items {
        left = from(left, &item);
        if !is_first(&item, left) {
            missing.push(item)?;
        }
    }
    Ok(Sequence::new(missing))
}

/// The others from the first on that does not precede the item.
fn from<'a>(others: &'a [Item], item: &Item) -> &'a [Item]
    ensures { parts.AreFrom item.now others.now result.now }
{
    let mut left = others;
    while let Some((other, rest)) = left.split_first() {
        match other.order(item) {
            Ordering::Less => left = rest,
            _ => return left,
        }
    }
    left
}

/// Whether the first of the others is equal to the item.
fn is_first(item: &Item, others: &[Item]) -> bool
    ensures { result ≡ parts.is_first item.now others.now }
{
    match others.first() {
        Some(other) => is_same_item(item, other),
        None => false,
    }
}

/// Whether the items are equal.
fn is_same_item(item: &Item, other: &Item) -> bool
    ensures { result ≡ spec.is_same_item item.now other.now }
{
    item.stamp() == other.stamp()
        && item.identifier().as_str() == other.identifier().as_str()
        && item.is_live() == other.is_live()
        && are_same_sets(item.sets(), other.sets())
        && are_same_records(item.formats(), other.formats())
}
