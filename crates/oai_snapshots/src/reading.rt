//! Reads the differences between two versions, batch by batch.
ghost use Rattle.std.specs.Prelude.{◌≡◌, ◌++◌, ◌<◌, [], None, take, true, IfErr, IfOk, IfSome, IsTrue, option_map};
ghost use Rattle.std.specs.Option.{option_copied};
ghost use Rattle.oai_item.specs.declared.faults.Fault.TheVariants as fault;
ghost use Rattle.oai_catalogue.specs.Calls.{OnlyReads};
ghost use Rattle.oai_catalogue.specs.Store.{list_at};
ghost use Rattle.oai_holdings.specs.Missing.{IsReadableVersion, is_after, items_past, sort_key_of};
ghost use Rattle.oai_holdings.specs.MissingParts.{last_in_batch};
ghost use Rattle.oai_holdings.specs.Purges.{until};
ghost use Rattle.oai_names.specs.Names.{may_be_prefix};
ghost use Rattle.oai_snapshots.specs.Batches.{all_come};
ghost use Rattle.oai_snapshots.specs.Reading as spec;
ghost use Rattle.oai_snapshots.specs.Reading.{place_in_differences};
ghost use Rattle.oai_snapshots.specs.Snapshots.{arriving, differences_left, items_before, left_to_come};

use crate::places::{DifferencePlace, Differences};
use oai_catalogue::{Filter, Versions};
use oai_holdings::{MissingItems, OwnedKey, read_missing};
use oai_item::{Fault, Item};
use oai_names::{NameFault, Prefix, Sequence};
use oai_time::{FIRST_SECOND, LAST_SECOND};
use std::alloc::{AllocError, Global};

/// The next of the differences from the version before, if there is one, to the version, at that place; at most `most`
/// items of each are read. Any fault but `TooManyPages` may come.
pub(crate) fn read_differences<V: Versions>(
    alloc: Global,
    store: &mut V,
    before: Option<u64>,
    version: u64,
    place: &DifferencePlace,
    most: usize,
) -> Result<Differences, Fault>
    requires before { IfSome before (λ v. IsReadableVersion V.Versions store.old v) }
    requires version { IsReadableVersion V.Versions store.old version }
    requires some { 0 < most }
    ensures read { IfOk result (λ differences. IsTrue (V.honest store.old)
        → spec.AreNextDifferences (place_in_differences place.now) (items_before (V.lists store.old) before)
        (list_at (V.lists store.old) version) differences) }
    ensures reads { OnlyReads V.Versions result store.old store.new }
{
    match before {
        Some(v) => read_between(alloc, store, v, version, place, most),
        None => {
            let batch = read_first(alloc, store, version, key_of_place(place), most)?;
            Ok(come(batch))
        }
    }
}

/// The next of the differences from one version to another, at that place.
fn read_between<V: Versions>(
    alloc: Global,
    store: &mut V,
    before: u64,
    version: u64,
    place: &DifferencePlace,
    most: usize,
) -> Result<Differences, Fault>
    requires before { IsReadableVersion V.Versions store.old before }
    requires version { IsReadableVersion V.Versions store.old version }
    requires some { 0 < most }
    ensures read { IfOk result (λ differences. IsTrue (V.honest store.old)
        → spec.AreNextDifferences (place_in_differences place.now) (list_at (V.lists store.old) before)
        (list_at (V.lists store.old) version) differences) }
    ensures reads { OnlyReads V.Versions result store.old store.new }
{
    match place {
        DifferencePlace::Going(behind) => {
            let batch = read_missing(alloc, store, before, version, behind.as_ref(), most)?;
            Ok(go(batch))
        }
        DifferencePlace::Arriving(behind) => {
            let batch = read_missing(alloc, store, version, before, behind.as_ref(), most)?;
            Ok(come(batch))
        }
    }
}

/// The key after which items come, if they do.
fn key_of_place(place: &DifferencePlace) -> Option<&OwnedKey>
    ensures { option_copied result ≡ spec.key_of_place (place_in_differences place.now) }
{
    match place {
        DifferencePlace::Going(_) => None,
        DifferencePlace::Arriving(behind) => behind.as_ref(),
    }
}

/// The items of the batch go.
fn go(batch: MissingItems) -> Differences
    ensures { result ≡ spec.going_of batch }
{
    let MissingItems { items, next } = batch;
    match next {
        Some(next) => Differences::Go(items, DifferencePlace::Going(Some(next))),
        None => Differences::Go(items, DifferencePlace::Arriving(None)),
    }
}

/// The items of the batch come.
fn come(batch: MissingItems) -> Differences
    ensures { result ≡ spec.coming_of batch }
{
    let MissingItems { items, next } = batch;
    match next {
        Some(next) => Differences::Come(items, Some(DifferencePlace::Arriving(Some(next)))),
        None => Differences::Come(items, None),
    }
}

/// The items of the version after the key, or from the first on, at most `most` of them, and the key after which the
/// next ones begin, or None if these are the last ones. Any fault but `TooManyPages` may come.
fn read_first<V: Versions>(
    alloc: Global,
    store: &mut V,
    version: u64,
    behind: Option<&OwnedKey>,
    most: usize,
) -> Result<MissingItems, Fault>
    requires version { IsReadableVersion V.Versions store.old version }
    requires some { 0 < most }
    ensures read { IfOk result (λ batch. IsTrue (V.honest store.old)
        → differences_left (arriving (option_copied behind.entry)) [] (list_at (V.lists store.old) version)
        ≡ all_come batch.items ++ left_to_come batch.next [] (list_at (V.lists store.old) version)) }
    ensures further { IfOk result (λ batch. IsTrue (V.honest store.old)
        → IfSome batch.next (λ next. is_after next (option_copied behind.entry) ≡ true)) }
    ensures reads { OnlyReads V.Versions result store.old store.new }
{
    let items = read_from(alloc, store, version, behind, most)?;
    let next = next_key(alloc, items.as_slice(), most)?;
    Ok(MissingItems { items, next })
}

/// The items after the key, or from the first on, at most `most` of them. Any fault but `TooManyPages` may come.
fn read_from<V: Versions>(
    alloc: Global,
    store: &mut V,
    version: u64,
    behind: Option<&OwnedKey>,
    most: usize,
) -> Result<Sequence<Item>, Fault>
    requires { IsReadableVersion V.Versions store.old version }
    ensures items { IfOk result (λ items. IsTrue (V.honest store.old) → items
        ≡ take most (items_past (option_copied behind.entry) (list_at (V.lists store.old) version))) }
    ensures reads { OnlyReads V.Versions result store.old store.new }
{
    let asked = all_items(alloc)?;
    match behind {
        Some(key) => store.part_after(version, &asked, key.stamp, &key.identifier, most),
        None => store.part(version, &asked, 0, most),
    }
}

/// The filter for all items, live and deleted. The error is out of memory.
fn all_items(alloc: Global) -> Result<Filter, Fault>
    ensures ok { IfOk result (λ asked. asked ≡ until LAST_SECOND) }
    ensures err { IfErr result (λ f. f ≡ fault.NoMemory) }
{
    let prefix = prefix_of(alloc, "oai_dc")?;
    Ok(Filter::new(prefix, FIRST_SECOND, LAST_SECOND, None))
}

/// The text as a prefix, which it is. The error is out of memory.
fn prefix_of(alloc: Global, text: &str) -> Result<Prefix, Fault>
    requires { may_be_prefix text.now ≡ true }
    ensures ok { IfOk result (λ prefix. prefix ≡ text.now) }
    ensures err { IfErr result (λ f. f ≡ fault.NoMemory) }
{
    match Prefix::read(alloc, text) {
        Ok(prefix) => Ok(prefix),
        Err(NameFault::NoMemory) => Err(Fault::NoMemory),
        Err(_) => unreachable!(),
    }
}

/// The key of the last of the items, of which `most` were asked for, or None if there are fewer, since none follow
/// these. The error is out of memory.
fn next_key(alloc: Global, items: &[Item], most: usize) -> Result<Option<OwnedKey>, AllocError>
    ensures { IfOk result (λ key. key ≡ option_map sort_key_of (last_in_batch most items.now)) }
{
    if items.len() < most {
        return Ok(None);
    }
    match items.last() {
        Some(item) => Ok(Some(OwnedKey {
            stamp: item.stamp(),
            identifier: item.identifier().copy(alloc)?,
        })),
        None => Ok(None),
    }
}
