//! Deletions: the change of a repository's items, or why it is refused.
ghost use Rattle.std.specs.Prelude.{◌≡◌, ◌≤◌, true, length, not, None, Some, IsTrue, OnOk};
ghost use Rattle.std.specs.List.{list_all};
ghost use Rattle.oai_item.specs.Item.{IsStamp, tombstone_of};
ghost use Rattle.oai_item.specs.Items.{item_named};
ghost use Rattle.oai_catalogue.specs.Store.{Spends};
ghost use Rattle.oai_holdings.specs.Accepted.{stamp_after_deletion};
ghost use Rattle.oai_holdings.specs.Calls.{fault_in};
ghost use Rattle.oai_holdings.specs.Changes.{after_deletion, dead_refusal, missing_refusal, with_new};
ghost use Rattle.oai_holdings.specs.Entries.{Restamps, SetsStamp, count_with, stamp_in};
ghost use Rattle.oai_holdings.specs.Index.{stored_items};
ghost use Rattle.oai_holdings.specs.Indexing.{HoldsKnown, IsDoneOn, IsMadeOn, Moves, StandsOn};
ghost use Rattle.oai_holdings.specs.Kept.{is_too_large};

use crate::changes::ChangeContext;
use crate::item_index::ItemIndex;
use oai_catalogue::Versions;
use oai_item::{ChangeRefusal, DeletedRecord, Fault, Item, Refusal};
use oai_names::Identifier;
use std::alloc::Global;

/// Deletes the item with that identifier: it is removed if the policy is to keep no deleted records, and otherwise
/// replaced by a tombstone with that datestamp (OAI-PMH 2.0, section 2.5.1). Or refuses it by the first cause.
pub(crate) fn delete<V: Versions>(
    context: &ChangeContext<'_>,
    store: &mut V,
    index: &mut ItemIndex,
    identifier: &Identifier,
) -> Result<(), Refusal>
    requires stamped { IsStamp context.now.stamp }
    requires stands { StandsOn V.Versions index.old store.old }
    requires small { IsTrue (V.honest store.old) → list_all
        (λ item. not (is_too_large item)) (stored_items index.old (V.lists store.old)) ≡ true }
    ensures done { let items = stored_items index.old (V.lists store.old) in
        let found = item_named identifier.now items in
        IsDoneOn V.Versions (missing_refusal found) (dead_refusal found)
        (after_deletion context.now.config.now.deleted context.now.stamp identifier.now items)
        result index.old store.old index.new store.new }
    ensures entries { OnOk result (Restamps identifier.now
        (stamp_after_deletion context.now.config.now.deleted context.now.stamp)
        index.old.entries index.new.entries) }
    ensures moves { Moves V.Versions result index.old store.old index.new store.new }
    ensures store { Spends V.room V.failures V.honest 1 (fault_in result) store.old store.new }
{
    let text = identifier.as_str();
    let known = index.stamp_of(text);
    let Some(item) = index.find_known(store, text, known)? else {
        return Err(Refusal::Refused(ChangeRefusal::NoSuchItem));
    };
    delete_item(context, store, index, &item, known)
}

/// Deletes the item, which is one of the repository's, or refuses it if it is already deleted; `known` is the datestamp
/// of its entry.
fn delete_item<V: Versions>(
    context: &ChangeContext<'_>,
    store: &mut V,
    index: &mut ItemIndex,
    item: &Item,
    known: Option<i64>,
) -> Result<(), Refusal>
    requires stamped { IsStamp context.now.stamp }
    requires stands { StandsOn V.Versions index.old store.old }
    requires held { HoldsKnown V.Versions index.old item.now known store.old }
    ensures done { let items = stored_items index.old (V.lists store.old) in
        IsDoneOn V.Versions None (dead_refusal (Some item.now))
        (after_deletion context.now.config.now.deleted context.now.stamp item.now.identifier items)
        result index.old store.old index.new store.new }
    ensures stamped { OnOk result (SetsStamp item.now.identifier (stamp_after_deletion context.now.config.now.deleted context.now.stamp)
        index.old.entries index.new.entries) }
    ensures fewer { OnOk result (length index.new.entries ≤ length index.old.entries) }
    ensures moves { Moves V.Versions result index.old store.old index.new store.new }
    ensures store { Spends V.room V.failures V.honest 1 (fault_in result) store.old store.new }
{
    if !item.is_live() {
        return Err(Refusal::Refused(ChangeRefusal::AlreadyDeleted));
    }
    Ok(take_out(context, store, index, item, known)?)
}

/// Removes the item if the policy is to keep no deleted records, and replaces it by its tombstone otherwise; `known` is
/// the datestamp of its entry.
fn take_out<V: Versions>(
    context: &ChangeContext<'_>,
    store: &mut V,
    index: &mut ItemIndex,
    item: &Item,
    known: Option<i64>,
) -> Result<(), Fault>
    requires stamped { IsStamp context.now.stamp }
    requires stands { StandsOn V.Versions index.old store.old }
    requires held { HoldsKnown V.Versions index.old item.now known store.old }
    ensures made { OnOk result (IsMadeOn V.Versions
        (after_deletion context.now.config.now.deleted context.now.stamp item.now.identifier) index.old store.old index.new store.new) }
    ensures stamped { OnOk result (SetsStamp item.now.identifier (stamp_after_deletion context.now.config.now.deleted context.now.stamp)
        index.old.entries index.new.entries) }
    ensures fewer { OnOk result (length index.new.entries ≤ length index.old.entries) }
    ensures moves { Moves V.Versions result index.old store.old index.new store.new }
    ensures store { Spends V.room V.failures V.honest 1 result store.old store.new }
{
    match context.config.deleted() {
        DeletedRecord::No => index.remove(store, item),
        DeletedRecord::Transient => replace_with_tombstone(context, store, index, item, known),
        DeletedRecord::Persistent => replace_with_tombstone(context, store, index, item, known),
    }
}

/// Replaces the item by its tombstone; `known` is the datestamp of its entry.
fn replace_with_tombstone<V: Versions>(
    context: &ChangeContext<'_>,
    store: &mut V,
    index: &mut ItemIndex,
    item: &Item,
    known: Option<i64>,
) -> Result<(), Fault>
    requires stamped { IsStamp context.now.stamp }
    requires stands { StandsOn V.Versions index.old store.old }
    requires held { HoldsKnown V.Versions index.old item.now known store.old }
    ensures made { OnOk result (IsMadeOn V.Versions
        (with_new (tombstone_of context.now.stamp item.now)) index.old store.old index.new store.new) }
    ensures stamped { OnOk result (SetsStamp item.now.identifier (Some context.now.stamp) index.old.entries
        index.new.entries) }
    ensures fewer { OnOk result (length index.new.entries ≤ length index.old.entries) }
    ensures moves { Moves V.Versions result index.old store.old index.new store.new }
    ensures store { Spends V.room V.failures V.honest 1 result store.old store.new }
{
    let left = item.tombstone(context.alloc, context.stamp)?;
    put_left(context.alloc, store, index, &left, known)
}

/// Replaces an item by its tombstone; `known` is the datestamp of the entry of its identifier, if there is one. A fault
/// leaves everything unchanged, and is `Damaged` if the tombstone is too large to be stored.
fn put_left<V: Versions>(
    alloc: Global,
    store: &mut V,
    index: &mut ItemIndex,
    left: &Item,
    known: Option<i64>,
) -> Result<(), Fault>
    requires stands { StandsOn V.Versions index.old store.old }
    requires small { IsTrue (V.honest store.old) → not (is_too_large left.now) ≡ true }
    requires known { known ≡ stamp_in left.now.identifier index.old.entries }
    ensures made { OnOk result
        (IsMadeOn V.Versions (with_new left.now) index.old store.old index.new store.new) }
    ensures stamped { OnOk result (SetsStamp left.now.identifier (Some left.now.stamp)
        index.old.entries index.new.entries) }
    ensures many { OnOk result (length index.new.entries
        ≡ count_with (stamp_in left.now.identifier index.old.entries) (length index.old.entries)) }
    ensures moves { Moves V.Versions result index.old store.old index.new store.new }
    ensures store { Spends V.room V.failures V.honest 1 result store.old store.new }
{
    if left.encoded_len().is_err() {
        return Err(Fault::Damaged);
    }
    index.put_known(alloc, store, left, known)
}
