//! Deposits: why one is refused, and the item that it makes.
ghost use Rattle.std.specs.Prelude.{◌≡◌, ◌≤◌, ◌⊎◌, ◌&&◌, ◌==◌, not, None, Some, false, true, is_some, length, map, IfOk, IsTrue, OnErr, OnOk};
ghost use Rattle.std.specs.List.{list_all};
ghost use Rattle.std.specs.Option.{option_copied};
ghost use Rattle.oai_names.specs.Names.{is_among};
ghost use Rattle.oai_names.specs.Sets.{has_set};
ghost use Rattle.oai_item.specs.Encoding.{encoded};
ghost use Rattle.oai_item.specs.Items.{item_named};
ghost use Rattle.oai_item.specs.declared.sizes.TheConstants.{MAX_ITEM_BYTES};
ghost use Rattle.oai_catalogue.specs.Calls.{OnlyReads};
ghost use Rattle.oai_catalogue.specs.Store.{Spends};
ghost use Rattle.oai_item.specs.Item.{IsStamp, has_record, live_item, record_named};
ghost use Rattle.oai_item.specs.Givens.{IsNotedContent, field_texts, kept as as_kept, noted_given};
ghost use Rattle.oai_item.specs.Elements.{is_about};
ghost use Rattle.oai_item.specs.Formats.{format_named};
ghost use Rattle.oai_item.specs.Known.{are_given_in, are_listed_in, has_format, has_listed_fields, is_given_in, is_of_format, may_have_about};
ghost use Rattle.oai_item.specs.Membership.{reduced};
ghost use Rattle.oai_holdings.specs.Accepted.{IsStampOfPut};
ghost use Rattle.oai_holdings.specs.Calls.{fault_in, unstamped};
ghost use Rattle.oai_holdings.specs.Changes as spec;
ghost use Rattle.oai_holdings.specs.Entries.{SetsStamp, count_with, stamp_in};
ghost use Rattle.oai_holdings.specs.Index.{stored_items};
ghost use Rattle.oai_holdings.specs.Indexing.{IsDeposited, IsDoneOn, Moves, StandsOn};

use crate::changes::ChangeContext;
use crate::changes::sameness::is_held_so;
use crate::item_index::ItemIndex;
use oai_catalogue::Versions;
use oai_item::{
    ChangeRefusal, Fault, Field, Format, Formats, GivenRecord, GivenRecords, Item, Records,
    Refusal, is_root_of,
};
use oai_names::{Identifier, Sequence, SetSpec, SetTree, Text};
use oai_settings::RepoConfig;
use std::alloc::AllocError;

/// A record of a deposit: the text that names its format, and its fields.
type Record = (Text, Sequence<Field>);

/// A deposit: the identifier, the setSpecs as they were given, and the records.
#[derive(Clone, Copy)]
pub(crate) struct Deposit<'a> {
    pub(crate) identifier: &'a Identifier,
    pub(crate) sets: &'a [SetSpec],
    pub(crate) records: &'a Records,
}

/// Adds the item of the deposit, or refuses it by the first cause.
pub(crate) fn put_deposit<V: Versions>(
    context: &ChangeContext<'_>,
    sets: &SetTree,
    store: &mut V,
    index: &mut ItemIndex,
    deposit: &Deposit<'_>,
) -> Result<(), Refusal>
    requires stamped { IsStamp context.now.stamp }
    requires stands { StandsOn V.Versions index.old store.old }
    ensures done { let items = stored_items index.old (V.lists store.old) in
        let item = live_item deposit.now.identifier.now context.now.stamp
        (reduced deposit.now.sets.now) (map as_kept deposit.now.records.now) in
        IsDoneOn V.Versions (spec.deposit_refusal context.now.config.now sets.now
        deposit.now.sets.now deposit.now.records.now)
        (spec.item_refusal context.now.config.now (item_named item.identifier items)
        (length items) item)
        (spec.with_new item items) result index.old store.old index.new store.new }
    ensures stamped { OnOk result (SetsStamp deposit.now.identifier.now (Some context.now.stamp) index.old.entries
        index.new.entries) }
    ensures few { OnOk result (length index.old.entries ≤ context.now.config.now.items
        → length index.new.entries ≤ context.now.config.now.items) }
    ensures moves { Moves V.Versions result index.old store.old index.new store.new }
    ensures store { Spends V.room V.failures V.honest 1 (fault_in result) store.old store.new }
{
    match deposited(context, sets, deposit)? {
        Ok(item) => put_item(context, store, index, &item),
        Err(cause) => Err(Refusal::Refused(cause)),
    }
}

/// Adds the item of the deposit, unless the item with its identifier is live, in the same sets and with the same records;
/// or refuses it by the first cause. Returns the datestamp that the item then has.
pub(crate) fn put_if_new<V: Versions>(
    context: &ChangeContext<'_>,
    sets: &SetTree,
    store: &mut V,
    index: &mut ItemIndex,
    deposit: &Deposit<'_>,
) -> Result<i64, Refusal>
    requires stamped { IsStamp context.now.stamp }
    requires stands { StandsOn V.Versions index.old store.old }
    ensures done { let items = stored_items index.old (V.lists store.old) in
        let item = live_item deposit.now.identifier.now context.now.stamp
        (reduced deposit.now.sets.now) (map as_kept deposit.now.records.now) in
        IsDoneOn V.Versions (spec.deposit_refusal context.now.config.now sets.now
        deposit.now.sets.now deposit.now.records.now)
        (spec.item_refusal context.now.config.now (item_named item.identifier items)
        (length items) item)
        (spec.with_put item items) (unstamped result) index.old store.old index.new store.new }
    ensures stamped { OnOk (unstamped result) ((index.new.entries ≡ index.old.entries)
        ⊎ SetsStamp deposit.now.identifier.now (Some context.now.stamp) index.old.entries
        index.new.entries) }
    ensures told { IfOk result (IsStampOfPut context.now.stamp deposit.now.identifier.now index.new.entries) }
    ensures few { OnOk (unstamped result) (length index.old.entries ≤ context.now.config.now.items
        → length index.new.entries ≤ context.now.config.now.items) }
    ensures moves { Moves V.Versions (unstamped result) index.old store.old index.new store.new }
    ensures store { Spends V.room V.failures V.honest 1 (fault_in (unstamped result)) store.old store.new }
{
    match deposited(context, sets, deposit)? {
        Ok(item) => put_item_if_new(context, store, index, &item),
        Err(cause) => Err(Refusal::Refused(cause)),
    }
}

/// The item of the deposit, or why it is refused by itself: the first cause. The outer error is out of memory.
fn deposited(
    context: &ChangeContext<'_>,
    sets: &SetTree,
    deposit: &Deposit<'_>,
) -> Result<Result<Item, ChangeRefusal>, AllocError>
    requires stamped { IsStamp context.now.stamp }
    ensures made { IfOk result (IsDeposited context.now.config.now context.now.stamp sets.now
        deposit.now.identifier.now deposit.now.sets.now deposit.now.records.now) }
    ensures err { OnErr result (spec.deposit_refusal context.now.config.now sets.now
        deposit.now.sets.now deposit.now.records.now ≡ None) }
{
    match deposit_refusal(context.config, sets, deposit.sets, deposit.records) {
        Some(cause) => return Ok(Err(cause)),
        None => {}
    }
    let item = Item::deposited(
        context.alloc,
        context.config.formats(),
        deposit.identifier,
        context.stamp,
        deposit.sets,
        deposit.records,
    )?;
    Ok(Ok(item))
}

/// Adds the item, or refuses it by the first cause.
fn put_item<V: Versions>(
    context: &ChangeContext<'_>,
    store: &mut V,
    index: &mut ItemIndex,
    item: &Item,
) -> Result<(), Refusal>
    requires stands { StandsOn V.Versions index.old store.old }
    ensures done { let items = stored_items index.old (V.lists store.old) in
        IsDoneOn V.Versions None (spec.item_refusal context.now.config.now
        (item_named item.now.identifier items) (length items) item.now)
        (spec.with_new item.now items) result index.old store.old index.new store.new }
    ensures stamped { OnOk result (SetsStamp item.now.identifier (Some item.now.stamp) index.old.entries
        index.new.entries) }
    ensures few { OnOk result (length index.old.entries ≤ context.now.config.now.items
        → length index.new.entries ≤ context.now.config.now.items) }
    ensures moves { Moves V.Versions result index.old store.old index.new store.new }
    ensures store { Spends V.room V.failures V.honest 1 (fault_in result) store.old store.new }
{
    let known = index.stamp_of(item.identifier().as_str());
    match refusal_among(context.config, store, index, item, known)? {
        Some(cause) => Err(Refusal::Refused(cause)),
        None => Ok(index.put_known(context.alloc, store, item, known)?),
    }
}

/// Adds the item, unless the one with its identifier is live, in the same sets and with the same records; or refuses it by
/// the first cause. Returns the datestamp that it then has.
fn put_item_if_new<V: Versions>(
    context: &ChangeContext<'_>,
    store: &mut V,
    index: &mut ItemIndex,
    item: &Item,
) -> Result<i64, Refusal>
    requires stands { StandsOn V.Versions index.old store.old }
    ensures done { let items = stored_items index.old (V.lists store.old) in
        IsDoneOn V.Versions None (spec.item_refusal context.now.config.now
        (item_named item.now.identifier items) (length items) item.now)
        (spec.with_put item.now items) (unstamped result) index.old store.old index.new store.new }
    ensures stamped { OnOk (unstamped result) ((index.new.entries ≡ index.old.entries)
        ⊎ SetsStamp item.now.identifier (Some item.now.stamp) index.old.entries index.new.entries) }
    ensures told { IfOk result (IsStampOfPut item.now.stamp item.now.identifier index.new.entries) }
    ensures few { OnOk (unstamped result) (length index.old.entries ≤ context.now.config.now.items
        → length index.new.entries ≤ context.now.config.now.items) }
    ensures moves { Moves V.Versions (unstamped result) index.old store.old index.new store.new }
    ensures store { Spends V.room V.failures V.honest 1 (fault_in (unstamped result)) store.old store.new }
{
    let identifier = item.identifier().as_str();
    let known = index.stamp_of(identifier);
    let found = index.find_known(store, identifier, known)?;
    match item_refusal(context.config, found.as_ref(), index.len(), item) {
        Some(cause) => return Err(Refusal::Refused(cause)),
        None => {}
    }
    if is_held_so(item, found.as_ref()) {
        return Ok(known.unwrap_or(item.stamp()));
    }
    index.put_known(context.alloc, store, item, known)?;
    Ok(item.stamp())
}

/// Why the item may not be added to the others: the first cause; `known` is the datestamp of its identifier's entry,
/// if there is one. Any fault but `TooManyPages` may come.
fn refusal_among<V: Versions>(
    config: &RepoConfig,
    store: &mut V,
    index: &ItemIndex,
    item: &Item,
    known: Option<i64>,
) -> Result<Option<ChangeRefusal>, Fault>
    requires stands { StandsOn V.Versions index.now store.old }
    requires known { known ≡ stamp_in item.now.identifier index.now.entries }
    ensures cause { let items = stored_items index.now (V.lists store.old) in
        IfOk result (λ cause. IsTrue (V.honest store.old) → cause ≡ spec.item_refusal config.now
        (item_named item.now.identifier items) (length items) item.now) }
    ensures fits { IfOk result (λ cause. cause ≡ None
        → length (encoded item.now) ≤ MAX_ITEM_BYTES) }
    ensures few { IfOk result (λ cause. cause ≡ None
        → length index.now.entries ≤ config.now.items
        → count_with (stamp_in item.now.identifier index.now.entries) (length index.now.entries)
        ≤ config.now.items) }
    ensures reads { OnlyReads V.Versions result store.old store.new }
{
    let replaced = index.find_known(store, item.identifier().as_str(), known)?;
    Ok(item_refusal(config, replaced.as_ref(), index.len(), item))
}

/// Why the deposit is refused by itself: the first cause.
#[tactic(auto, unfolding(crate::specs::Changes::deposit_refusal))]
fn deposit_refusal(
    config: &RepoConfig,
    sets: &SetTree,
    specs: &[SetSpec],
    records: &Records,
) -> Option<ChangeRefusal>
    ensures { result ≡ spec.deposit_refusal config.now sets.now specs.now records.now }
{
    if !have_sets(sets, specs) {
        return Some(ChangeRefusal::UnknownSet);
    }
    let checks = check_records(config.formats(), records.walk());
    if !checks.known {
        return Some(ChangeRefusal::UnknownFormat);
    }
    if !has_record(records.as_slice(), "oai_dc") {
        return Some(ChangeRefusal::NoDc);
    }
    if !checks.listed {
        return Some(ChangeRefusal::UnknownField);
    }
    if !checks.of_format {
        return Some(ChangeRefusal::NotOfFormat);
    }
    None
}

/// Why the item may not replace that one, if there is one, among `count` items: the first cause.
#[tactic(auto, unfolding(crate::specs::Changes::item_refusal))]
fn item_refusal(
    config: &RepoConfig,
    replaced: Option<&Item>,
    count: u64,
    item: &Item,
) -> Option<ChangeRefusal>
    ensures cause { result ≡ spec.item_refusal config.now (option_copied replaced.entry) count
        item.now }
    ensures fits { result ≡ None → length (encoded item.now) ≤ MAX_ITEM_BYTES }
    ensures room { result ≡ None
        → spec.is_one_too_many config.now (option_copied replaced.entry) count ≡ false }
{
    if drops_format(replaced, item) {
        return Some(ChangeRefusal::DropsFormat);
    }
    if item.encoded_len().is_err() {
        return Some(ChangeRefusal::TooLarge);
    }
    if is_one_too_many(config, replaced, count) {
        return Some(ChangeRefusal::TooManyItems);
    }
    None
}

/// Whether each setSpec is that of a set.
pub(crate) fn have_sets(tree: &SetTree, specs: &[SetSpec]) -> bool
    ensures { result ≡ list_all (has_set tree.now) specs.now }
{
    specs.iter().all(|spec| tree.has(spec))
}

/// Whether there is a record with that prefix.
fn has_record(records: &[Record], prefix: &str) -> bool
    ensures { result ≡ has_record prefix.now records.now }
{
    record_named(records, prefix).is_some()
}

/// The record with that prefix.
#[tactic(auto, unfolding(oai_item::specs::Item::record_named))]
fn record_named<'a>(records: &'a [Record], prefix: &str) -> Option<&'a Record>
    ensures { option_copied result ≡ record_named prefix.now records.now }
{
    records.iter().find(|record| record.0.as_str() == prefix)
}

/// What holds of a record of a deposit, or of each.
#[derive(Clone, Copy)]
struct FormatChecks {
    /// The repository has its format.
    known: bool,
    /// Each of its fields is one of its format's, if it is a list.
    listed: bool,
    /// It has the root of its format, or its format has fields, if it is a list; and something is given as the record if
    /// something is given about it.
    of_format: bool,
}

/// What holds of each record. The format of each is looked up once.
fn check_records(formats: &Formats, mut records: GivenRecords<'_>) -> FormatChecks
    ensures known { result.known ≡ list_all (has_format formats.now) (map as_kept records.entry) }
    ensures listed { result.listed ≡ list_all (has_listed_fields formats.now) records.entry }
    ensures of_format { result.of_format ≡ list_all (is_of_format formats.now) records.entry }
{
    let mut checks = FormatChecks {
        known: true,
        listed: true,
        of_format: true,
    };
    while let Some(record) = records.next() {
        checks = both(checks, check_record(formats, &record));
    }
    checks
}

/// What both of these say holds.
fn both(one: FormatChecks, other: FormatChecks) -> FormatChecks
    ensures known { result.known ≡ (one.known && other.known) }
    ensures listed { result.listed ≡ (one.listed && other.listed) }
    ensures of_format { result.of_format ≡ (one.of_format && other.of_format) }
{
    FormatChecks {
        known: one.known && other.known,
        listed: one.listed && other.listed,
        of_format: one.of_format && other.of_format,
    }
}

/// What holds of the record.
fn check_record(formats: &Formats, given: &GivenRecord<'_>) -> FormatChecks
    requires content { IsNotedContent given.now.fields.now (option_copied given.now.root) }
    requires about { list_all is_about given.now.about.now ≡ true }
    ensures known { result.known ≡ is_some (format_named given.now.prefix.now formats.now) }
    ensures listed { result.listed ≡ has_listed_fields formats.now
        (given.now.prefix.now, noted_given given.now.fields.now (option_copied given.now.root), field_texts given.now.about.now) }
    ensures of_format { result.of_format ≡ is_of_format formats.now
        (given.now.prefix.now, noted_given given.now.fields.now (option_copied given.now.root), field_texts given.now.about.now) }
{
    match formats.find_named(given.prefix) {
        Some(format) => FormatChecks {
            known: true,
            listed: has_listed_fields(format, given),
            of_format: is_of_format(format, given),
        },
        None => FormatChecks {
            known: false,
            listed: true,
            of_format: may_have_about(given),
        },
    }
}

/// Whether each field of the record is one of the format's, if it is a list.
fn has_listed_fields(format: &Format, given: &GivenRecord<'_>) -> bool
    requires { IsNotedContent given.now.fields.now (option_copied given.now.root) }
    ensures { result ≡ are_given_in (Some format.now)
        (noted_given given.now.fields.now (option_copied given.now.root)) }
{
    given.root.is_some() || are_listed_in(format, given.fields)
}

/// Whether each field is one of the format's.
fn are_listed_in(format: &Format, fields: &[Field]) -> bool
    ensures { result ≡ are_listed_in format.now fields.now }
{
    fields
        .iter()
        .all(|field| is_listed_in(format, field.name.as_str()))
}

/// Whether a field of that name has a name, and is one of the format's.
pub(crate) fn is_listed_in(format: &Format, name: &str) -> bool
    ensures { result ≡ (not (length name.now == 0) && is_among format.now.fields name.now) }
{
    !name.is_empty() && is_among(format.fields.as_slice(), name)
}

/// Whether the record has the root of the format, or the format has fields, if it is a list; and something is given as
/// the record if something is given about it.
fn is_of_format(format: &Format, given: &GivenRecord<'_>) -> bool
    requires content { IsNotedContent given.now.fields.now (option_copied given.now.root) }
    requires about { list_all is_about given.now.about.now ≡ true }
    ensures { result ≡ (is_given_in (Some format.now)
        (noted_given given.now.fields.now (option_copied given.now.root))
        && may_have_about
        (noted_given given.now.fields.now (option_copied given.now.root)) (field_texts given.now.about.now)) }
{
    is_given_in(format, given) && may_have_about(given)
}

/// Whether the record has the root of the format, or the format has fields, if it is a list.
fn is_given_in(format: &Format, given: &GivenRecord<'_>) -> bool
    requires { IsNotedContent given.now.fields.now (option_copied given.now.root) }
    ensures { result ≡ is_given_in (Some format.now)
        (noted_given given.now.fields.now (option_copied given.now.root)) }
{
    match given.root {
        Some(root) => is_root_of(format, root),
        None => !format.fields.is_empty(),
    }
}

/// Whether nothing is given about the record, or something is given as the record.
fn may_have_about(given: &GivenRecord<'_>) -> bool
    requires content { IsNotedContent given.now.fields.now (option_copied given.now.root) }
    requires about { list_all is_about given.now.about.now ≡ true }
    ensures { result ≡ may_have_about
        (noted_given given.now.fields.now (option_copied given.now.root)) (field_texts given.now.about.now) }
{
    !given.fields.is_empty() || given.about.is_empty()
}

/// Whether the name is one of these.
fn is_among(names: &[Text], name: &str) -> bool
    ensures { result ≡ is_among names.now name.now }
{
    names.iter().any(|other| other.as_str() == name)
}

/// Whether the replaced item has a format in which the new one has no record.
fn drops_format(replaced: Option<&Item>, item: &Item) -> bool
    ensures { result ≡ spec.drops_format (option_copied replaced.entry) item.now.formats }
{
    match replaced {
        Some(replaced) => !item.has_each_format(replaced),
        None => false,
    }
}

/// Whether no item is replaced, and the repository may have no more items than the `count` that it has.
#[tactic(auto, unfolding(crate::specs::Changes::is_one_too_many))]
fn is_one_too_many(config: &RepoConfig, replaced: Option<&Item>, count: u64) -> bool
    ensures { result ≡ spec.is_one_too_many config.now (option_copied replaced.entry) count }
{
    replaced.is_none() && config.items() <= count
}
