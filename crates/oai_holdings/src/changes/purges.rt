//! Purges: removes tombstones.
ghost use Rattle.std.specs.Prelude.{◌≡◌, ◌+◌, ◌++◌, ◌≤◌, if◌then◌else◌, nat_lt, None, true, filter, length, take, IfErr, IfOk, IfSome, IsSome, IsTrue, OnOk};
ghost use Rattle.std.specs.List.{list_all};
ghost use Rattle.std.specs.Option.{option_copied};
ghost use Rattle.oai_time.specs.Bound.{IsWritableBound};
ghost use Rattle.oai_time.specs.Stamp.{IsWritable};
ghost use Rattle.oai_item.specs.declared.faults.Fault.TheVariants as fault;
ghost use Rattle.oai_item.specs.Selection.{selected};
ghost use Rattle.oai_catalogue.specs.Calls.{OnlyReads};
ghost use Rattle.oai_catalogue.specs.Store.{Spends, list_at};
ghost use Rattle.oai_holdings.specs.Calls.{fault_in};
ghost use Rattle.oai_holdings.specs.Changes as spec;
ghost use Rattle.oai_holdings.specs.Index.{has_writable_stamp, stored_items};
ghost use Rattle.oai_holdings.specs.Entries.{Forgets};
ghost use Rattle.oai_holdings.specs.Missing.{items_past};
ghost use Rattle.oai_holdings.specs.Purges.{below, is_deleted, is_in_core};
ghost use Rattle.oai_holdings.specs.Indexing.{IsDoneOn, Moves, StandsOn};

use crate::changes::ChangeContext;
use crate::differences::{OwnedKey, sort_key_of};
use crate::item_index::ItemIndex;
use crate::saves::asked_until;
use oai_catalogue::{Filter, Versions};
use oai_item::{ChangeRefusal, DeletedRecord, Fault, Item, Refusal};
use oai_names::Sequence;
use oai_time::{Bound, Granularity, is_no_finer_than, lower, read_bound};
use std::alloc::{AllocError, Global};

/// How many items are read at once.
const PART: usize = 1_000;

/// Removes the deleted items with datestamps below the bound's first second, if the policy allows it (OAI-PMH 2.0,
/// section 2.5.1), or refuses it by the first cause.
#[tactic(auto, unfolding(crate::specs::Changes::purge_refusal))]
pub(crate) fn purge<V: Versions>(
    context: &ChangeContext<'_>,
    store: &mut V,
    index: &mut ItemIndex,
    before: &str,
) -> Result<(), Refusal>
    requires stands { StandsOn V.Versions index.old store.old }
    requires core { IsTrue (V.honest store.old)
        → list_all is_in_core (stored_items index.old (V.lists store.old)) ≡ true }
    requires dated { IsTrue (V.honest store.old)
        → list_all has_writable_stamp (stored_items index.old (V.lists store.old)) ≡ true }
    ensures done { let items = stored_items index.old (V.lists store.old) in
        IsDoneOn V.Versions (spec.purge_refusal context.now.config.now before.now) None
        (spec.after_purge (spec.limit_of context.now.config.now.granularity before.now) items)
        result index.old store.old index.new store.new }
    ensures forgotten { OnOk result (Forgets index.old.entries index.new.entries) }
    ensures moves { Moves V.Versions result index.old store.old index.new store.new }
    ensures store { Spends V.room V.failures V.honest (length index.old.entries + 1) (fault_in result) store.old store.new }
{
    if !is_transient(context.config.deleted()) {
        return Err(Refusal::Refused(ChangeRefusal::NotTransient));
    }
    let Some(limit) = limit_of(context.config.granularity(), before) else {
        return Err(Refusal::Refused(ChangeRefusal::BadDate));
    };
    Ok(index.purge(context.alloc, store, limit)?)
}

/// Whether the policy allows to remove deleted items.
fn is_transient(deleted: DeletedRecord) -> bool
    ensures { result ≡ spec.is_transient deleted }
{
    match deleted {
        DeletedRecord::Transient => true,
        DeletedRecord::No => false,
        DeletedRecord::Persistent => false,
    }
}

/// The first second of the bound in the text, if it is one and no finer than the granularity.
fn limit_of(granularity: Granularity, text: &str) -> Option<i64>
    ensures limit { result ≡ spec.limit_of granularity text.now }
    ensures writable { IfSome result IsWritable }
{
    match read_bound(text) {
        Ok(bound) => limit_in(granularity, bound),
        Err(_) => None,
    }
}

/// The first second of the bound, if it is no finer than the granularity.
fn limit_in(granularity: Granularity, bound: Bound) -> Option<i64>
    requires { IsWritableBound bound }
    ensures limit { result ≡ spec.limit_in granularity bound }
    ensures writable { IfSome result IsWritable }
{
    if is_no_finer_than(bound, granularity) {
        Some(lower(bound))
    } else {
        None
    }
}

/// The deleted ones among the first `most` items with datestamps below the limit, in seconds from 1970 on. Any fault
/// but `TooManyPages` may come.
pub(crate) fn deleted_below<V: Versions>(
    alloc: Global,
    store: &mut V,
    v: u64,
    limit: i64,
    most: usize,
) -> Result<Vec<Item>, Fault>
    requires stands { IsSome (V.lists store.old v) }
    requires limit { IsWritable limit }
    ensures deleted { IfOk result (λ gone. IsTrue (V.honest store.old) → gone.items
        ≡ filter is_deleted (take most (selected (below limit) (list_at (V.lists store.old) v)))) }
    ensures few { IfOk result (λ gone. length gone.items ≤ most) }
    ensures reads { OnlyReads V.Versions result store.old store.new }
{
    let asked = asked_below(alloc, limit)?;
    let mut gone = Vec::new(alloc);
    let mut behind = None;
    let mut start = 0;
    while start < most {
        let some = PART.min(most - start);
        let part = read_some(store, v, &asked, behind.as_ref(), some)?;
        let last = sort_key_of(alloc, part.as_slice().last())?;
        let next = after_part(start, some, part.as_slice(), most);
        add_deleted(&mut gone, part)?;
        behind = last;
        start = next;
    }
    Ok(gone)
}

/// The items that the filter selects, in their order, after the key, or from the first on, at most `most` of them. Any
/// fault but `TooManyPages` may come, and `Damaged` if the store returns more.
fn read_some<V: Versions>(
    store: &mut V,
    v: u64,
    asked: &Filter,
    behind: Option<&OwnedKey>,
    most: usize,
) -> Result<Sequence<Item>, Fault>
    requires { IsSome (V.lists store.old v) }
    ensures part { IfOk result (λ items. IsTrue (V.honest store.old) → items
        ≡ take most (items_past (option_copied behind.entry)
        (selected asked.now (list_at (V.lists store.old) v)))) }
    ensures few { IfOk result (λ items. length items ≤ most) }
    ensures reads { OnlyReads V.Versions result store.old store.new }
{
    let items = read_part(store, v, asked, behind, most)?;
    if most < items.len() {
        return Err(Fault::Damaged);
    }
    Ok(items)
}

/// The same, if the store returns no more.
fn read_part<V: Versions>(
    store: &mut V,
    v: u64,
    asked: &Filter,
    behind: Option<&OwnedKey>,
    most: usize,
) -> Result<Sequence<Item>, Fault>
    requires { IsSome (V.lists store.old v) }
    ensures part { IfOk result (λ items. IsTrue (V.honest store.old) → items
        ≡ take most (items_past (option_copied behind.entry)
        (selected asked.now (list_at (V.lists store.old) v)))) }
    ensures reads { OnlyReads V.Versions result store.old store.new }
{
    match behind {
        Some(key) => store.part_after(v, asked, key.stamp, &key.identifier, most),
        None => store.part(v, asked, 0, most),
    }
}

/// How many of `most` items are read after a request for `some` of them after the first `start` returned this part:
/// all, if it is shorter, since none follows.
fn after_part(start: usize, some: usize, part: &[Item], most: usize) -> usize
    requires { start + some ≤ most }
    ensures read { result ≡ (if nat_lt (length part.now) some then most else start + some) }
    ensures further { start + some ≤ result }
    ensures within { result ≤ most }
{
    if part.len() < some {
        most
    } else {
        start + some
    }
}

/// The filter for the items with datestamps below the limit, live and deleted.
fn asked_below(alloc: Global, limit: i64) -> Result<Filter, Fault>
    requires { IsWritable limit }
    ensures ok { IfOk result (λ asked. asked ≡ below limit) }
    ensures err { IfErr result (λ f. f ≡ fault.NoMemory) }
{
    asked_until(alloc, limit - 1)
}

/// Appends the deleted ones of the items to the others. The error is out of memory.
fn add_deleted(gone: &mut Vec<Item>, part: Sequence<Item>) -> Result<(), AllocError>
    ensures { OnOk result (gone.new.items ≡ gone.old.items ++ filter is_deleted part) }
{
    let mut deleted = deleted_of(part);
    gone.append(&mut deleted)
}

/// The deleted ones of the items.
fn deleted_of(part: Sequence<Item>) -> Vec<Item>
    ensures { result.items ≡ filter is_deleted part }
{
    let mut items = part.into_vec();
    items.retain(|item| !item.is_live());
    items
}
