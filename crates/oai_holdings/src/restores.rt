//! Restores a part of what was saved: a set or an item is added.
ghost use Rattle.std.specs.Prelude.{◌≡◌, ◌≤◌, ◌&&◌, ◌==◌, ◌++◌, ◌∷◌, [], if◌then◌else◌, not, false, true, Some, Ok, Err, length, is_some, IfErr, IfOk, IsTrue, OnErr, OnOk};
ghost use Rattle.std.specs.List.{before_first, list_all, list_any};
ghost use Rattle.std.specs.Option.{option_copied};
ghost use Rattle.oai_item.specs.Encoding.{encoded};
ghost use Rattle.oai_item.specs.Item.{IsStamp};
ghost use Rattle.oai_item.specs.Elements.{content_in, element_in, is_about, is_nameless};
ghost use Rattle.oai_item.specs.Known.{are_fields_of, are_listed_in, has_format, has_known_fields, is_content_of};
ghost use Rattle.oai_item.specs.declared.faults.Fault.TheVariants as fault;
ghost use Rattle.oai_item.specs.declared.sizes.TheConstants.{MAX_ITEM_BYTES};
ghost use Rattle.oai_catalogue.specs.Store.{Spends};
ghost use Rattle.oai_holdings.specs.Changes.{with_new};
ghost use Rattle.oai_holdings.specs.Index.{IsIndexed, stored_items};
ghost use Rattle.oai_holdings.specs.Indexing.{HoldsItems, Moves};
ghost use Rattle.oai_holdings.specs.Kept as spec;
ghost use Rattle.oai_holdings.specs.Saved.{IsDamagedOrShort, fault_of_store, has_element, keep_elements, keeps_element, may_have_item, may_have_set};

use crate::changes::{add_set, have_sets, is_listed_in};
use crate::item_index::ItemIndex;
use oai_catalogue::Versions;
use oai_item::{
    Fault, FieldTexts, Fields, Format, Formats, Item, ItemRecords, Refusal, is_element_of,
};
use oai_names::{SetSpec, SetTree};
use oai_settings::RepoConfig;
use oai_xml::is_canonical;
use std::alloc::{AllocError, Global};

/// Adds the set as the last one. The error is `Damaged` if a change that adds it would be refused, otherwise out of
/// memory. After an error the sets are unchanged.
pub fn restore_set(sets: &mut SetTree, set: &SetSpec, name: &str) -> Result<(), Fault>
    ensures added { OnOk result (sets.new ≡ sets.old ++ (set.now, name.now) ∷ []) }
    ensures damaged { may_have_set sets.old set.now ≡ false → result ≡ Err fault.Damaged }
    ensures memory { IfErr (fault_of_store (may_have_set sets.old set.now) result)
        (λ f. f ≡ fault.NoMemory) }
    ensures err { OnErr result (sets.new ≡ sets.old) }
{
    match add_set(sets, set, name) {
        Ok(()) => Ok(()),
        Err(Refusal::Refused(_)) => Err(Fault::Damaged),
        Err(Refusal::Fault(fault)) => Err(fault),
    }
}

/// Adds the item, in place of the one with its identifier, if there is one. `Damaged` if it violates the repository's
/// invariants, or there are as many items as there may be; of an item with elements, out of memory may come in its place.
/// Otherwise any fault may come. After an error everything is unchanged.
pub fn restore_item<V: Versions>(
    alloc: Global,
    config: &RepoConfig,
    sets: &SetTree,
    store: &mut V,
    index: &mut ItemIndex,
    item: &Item,
) -> Result<(), Fault>
    requires held { HoldsItems V.Versions config.now index.old sets.now store.old }
    ensures made { OnOk result (IsTrue (V.honest store.old)
        → stored_items index.new (V.lists store.new)
        ≡ with_new item.now (stored_items index.old (V.lists store.old))) }
    ensures indexed { IsTrue (V.honest store.old)
        → IsIndexed config.now index.new sets.now (V.lists store.new) }
    ensures few { length index.old.entries ≤ config.now.items
        → length index.new.entries ≤ config.now.items }
    ensures damaged { may_have_item config.now sets.now (length index.old.entries) item.now ≡ false
        → IsDamagedOrShort (has_element item.now) result }
    ensures moves { Moves V.Versions result index.old store.old index.new store.new }
    ensures store { Spends V.room V.failures V.honest 1
        (fault_of_store (may_have_item config.now sets.now (length index.old.entries) item.now)
        result) store.old store.new }
{
    if !may_have_item(alloc, config, sets, index.len(), item)? {
        return Err(Fault::Damaged);
    }
    index.put(alloc, store, item)
}

/// Whether the item satisfies the repository's invariants, and the repository, which has `count` items, may have one
/// more. The error is out of memory, as elements are read.
fn may_have_item(
    alloc: Global,
    config: &RepoConfig,
    sets: &SetTree,
    count: u64,
    item: &Item,
) -> Result<bool, AllocError>
    ensures may { IfOk result (λ may. may ≡ may_have_item config.now sets.now count item.now) }
    ensures short { OnErr result (has_element item.now ≡ true) }
    ensures stamped { IsStamp item.now.stamp }
{
    let kept = is_well_kept(alloc, config, sets, item)?;
    Ok(kept && count < config.items())
}

/// Whether the item satisfies the repository's invariants: it has a record in oai_dc, each of its records is in a
/// format of the repository and has no other fields than that format's, or keeps an element of it, and has behind that
/// only elements about the record, its sets exist, and it is not too large. The error is out of memory, as elements are
/// read.
fn is_well_kept(
    alloc: Global,
    config: &RepoConfig,
    sets: &SetTree,
    item: &Item,
) -> Result<bool, AllocError>
    ensures kept { IfOk result (λ is. is ≡ spec.is_well_kept config.now sets.now item.now) }
    ensures short { OnErr result (has_element item.now ≡ true) }
    ensures stamped { IsStamp item.now.stamp }
{
    let known = are_in_formats(alloc, config.formats(), item.formats())?;
    Ok(known && item.has_record("oai_dc") && have_sets(sets, item.sets()) && is_storable(item))
}

/// Whether the item can be stored.
fn is_storable(item: &Item) -> bool
    ensures fits { result ≡ true → length (encoded item.now) ≤ MAX_ITEM_BYTES }
    ensures small { result ≡ not (spec.is_too_large item.now) }
{
    item.encoded_len().is_ok()
}

/// Whether each record is in a format of the repository, and may be kept in it. The error is out of memory, as elements
/// are read.
fn are_in_formats(
    alloc: Global,
    formats: &Formats,
    mut records: ItemRecords<'_>,
) -> Result<bool, AllocError>
    ensures known { IfOk result (λ known. known ≡ (list_all (has_format formats.now) records.entry
        && list_all (has_known_fields formats.now) records.entry)) }
    ensures short { OnErr result (list_any keeps_element records.entry ≡ true) }
{
    while let Some(made) = records.next() {
        if !are_known(alloc, formats.find_named(made.prefix), made.fields)? {
            return Ok(false);
        }
    }
    Ok(true)
}

/// Whether there is a format, and the fields may be kept in it. The error is out of memory, as elements are read.
fn are_known(alloc: Global, format: Option<&Format>, fields: Fields<'_>) -> Result<bool, AllocError>
    ensures known { IfOk result (λ known. known ≡ (is_some (option_copied format.entry)
        && are_fields_of (option_copied format.entry) fields.entry)) }
    ensures short { OnErr result (keep_elements fields.entry ≡ true) }
{
    match format {
        Some(format) => are_fields_of(alloc, format, fields),
        None => Ok(false),
    }
}

/// Whether the fields are a record of the format, and behind it elements about it. The error is out of memory, as
/// elements are read.
fn are_fields_of(alloc: Global, format: &Format, fields: Fields<'_>) -> Result<bool, AllocError>
    ensures known { IfOk result (λ are. are ≡ are_fields_of (Some format.now) fields.entry) }
    ensures short { OnErr result (keep_elements fields.entry ≡ true) }
{
    let about = fields.about();
    if !are_content_of(alloc, format, fields)? {
        return Ok(false);
    }
    are_about(alloc, about)
}

/// Whether the record itself is of the format: each of its fields is one of the format's, or they keep an element of it.
/// The error is out of memory, as the element is read.
fn are_content_of(alloc: Global, format: &Format, fields: Fields<'_>) -> Result<bool, AllocError>
    ensures content { IfOk result (λ are. are ≡ is_content_of format.now fields.entry) }
    ensures short { OnErr result (is_some (element_in fields.entry) ≡ true) }
{
    match fields.element() {
        Some(element) => is_element_of(alloc, format, element),
        None => Ok(is_list_of(format, fields)),
    }
}

/// Whether each field of the record itself is one of the format's.
fn is_list_of(format: &Format, mut fields: Fields<'_>) -> bool
    ensures { result ≡ are_listed_in format.now (content_in fields.entry) }
{
    match fields.next() {
        Some(field) => is_listed_in(format, field.name) && are_listed_in(format, fields),
        None => true,
    }
}

/// Whether each field up to the first without a name is one of the format's.
fn are_listed_in(format: &Format, mut fields: Fields<'_>) -> bool
    ensures { result ≡ are_listed_in format.now (before_first is_nameless fields.entry) }
{
    while let Some(field) = fields.next_named() {
        if !is_listed_in(format, field.name) {
            return false;
        }
    }
    true
}

/// Whether each field is an element about a record. The error is out of memory, as the elements are read.
fn are_about(alloc: Global, mut fields: Fields<'_>) -> Result<bool, AllocError>
    ensures about { IfOk result (λ are. are ≡ list_all is_about fields.entry) }
    ensures short { OnErr result (not (length fields.entry == 0) ≡ true) }
{
    while let Some(field) = fields.next() {
        if !is_about(alloc, &field)? {
            return Ok(false);
        }
    }
    Ok(true)
}

/// Whether the field has no name, and its text is an element in canonical text. The error is out of memory.
fn is_about(alloc: Global, field: &FieldTexts<'_>) -> Result<bool, AllocError>
    ensures { IfOk result (λ is. is ≡ is_about (record { name = field.now.name.now; text = field.now.text.now })) }
{
    if !field.name.is_empty() {
        return Ok(false);
    }
    is_canonical(alloc, field.text)
}
