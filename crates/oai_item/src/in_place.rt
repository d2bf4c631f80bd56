//! Items that are read in place: the encoded bytes stand for the item.

ghost use Rattle.std.specs.Prelude.{◌≡◌, ◌≤◌, ◌&&◌, ℕ, List, Some, IfOk, IsSome, OnErr, is_some, length};
ghost use Rattle.oai_item.specs.Decoding.{IsReadInPlace, item_in};
ghost use Rattle.oai_item.specs.Encoding.{Spells, encoded, encoded_list, encoded_record};
ghost use Rattle.oai_item.specs.Held.{AreWhole, records_in};
ghost use Rattle.oai_item.specs.Item.{IsItem, ItemState, are_rising, has_record, have_no_fields, may_be_records};
ghost use Rattle.oai_item.specs.Items as items;
ghost use Rattle.oai_item.specs.Membership.{is_in, none_covers};
ghost use Rattle.oai_item.specs.Order.{item_cmp, place_cmp};
ghost use Rattle.oai_item.specs.Selection.{is_in_given, passes};
ghost use Rattle.oai_item.specs.SpellingParts.{ReadsParts};
ghost use Rattle.oai_item.specs.declared.sizes.TheConstants.{MAX_ITEM_BYTES};

use crate::covering::none_covers;
use crate::decodings::{
    DecodeFault, read_identifier, read_live, read_records, read_sets, read_stamp,
};
use crate::fronts::{first_records, first_sets, first_text, sets_alone};
use crate::keys::ItemKey;
use crate::sizes::MAX_ITEM_BYTES;
use crate::walks::{SpelledRecords, SpelledSets};
use oai_names::{SetSpec, covers};
use std::alloc::{AllocError, Global};
use std::cmp::Ordering;
use std::marker::Model;

/// An item in encoded form, borrowed. Its methods return what those of the item decoded from these bytes
/// (`Item::decode`) return. It allocates nothing.
#[derive(Drop)]
pub struct Spelling<'a> {
    bytes: &'a [u8],
    live: bool,
    stamp: i64,
    identifier: &'a str,
    rest: &'a [u8],
}

impl<'a> Model for Spelling<'a> {
    ghost use Rattle.oai_item.specs.Item.{ItemState};
    ghost use Rattle.oai_item.specs.InPlace.{IsSpelling, spelled_item};

    ghost Value = { ItemState };

    ghost view = { spelled_item };

    ghost invariant = { IsSpelling };
}

impl<'a> Spelling<'a> {
    /// The item that the bytes, all of them, encode. All bytes are read. The errors: `Damaged` exactly where
    /// `Item::decode` returns it, if they encode none; `NoMemory`, which needs more than 16 setSpecs: then their names
    /// and those of their ancestors are held in memory until it is known that none covers another.
    pub fn read(alloc: Global, bytes: &'a [u8]) -> Result<Spelling<'a>, DecodeFault>
        ensures { IsReadInPlace bytes.now result }
    {
        if is_spelling(alloc, bytes)? {
            Ok(Spelling::new(bytes))
        } else {
            Err(DecodeFault::Damaged)
        }
    }

    /// The item that the bytes encode, for which `is_spelling` returned true. It reads only the first bytes, up to the
    /// identifier.
    pub fn new(bytes: &'a [u8]) -> Spelling<'a>
        requires { IsSome (item_in bytes.now) }
        ensures { item_in bytes.now ≡ Some result }
    {
        let (live, rest) = read_live(bytes).unwrap();
        let (stamp, rest) = read_stamp(rest).unwrap();
        let (identifier, rest) = first_text(rest);
        Spelling {
            bytes,
            live,
            stamp,
            identifier,
            rest,
        }
    }

    /// The encoded bytes: 1 to 1,048,576.
    pub fn bytes(&self) -> &'a [u8]
        ensures spells { Spells result.now self.now }
        ensures read { item_in result.now ≡ Some self.now }
    {
        self.bytes
    }

    /// The unique identifier.
    pub fn identifier(&self) -> &'a str
        ensures identifier { result.now ≡ self.now.identifier }
        ensures valid { IsItem self.now }
    {
        self.identifier
    }

    /// The datestamp, in seconds from 1970 on, in the years 0000 to 9999.
    pub fn stamp(&self) -> i64
        ensures { result ≡ self.now.stamp }
    {
        self.stamp
    }

    /// Whether the item is live; otherwise it is deleted.
    pub fn is_live(&self) -> bool
        ensures { result ≡ self.now.live }
    {
        self.live
    }

    /// Iterates over the setSpecs that decide which sets the item is in.
    pub fn sets(&self) -> SpelledSets<'a>
        ensures { result ≡ self.now.sets }
    {
        sets_alone(self.rest)
    }

    /// Iterates over the record in each format, in the order of the prefixes.
    pub fn records(&self) -> SpelledRecords<'a>
        ensures { result ≡ self.now.formats }
    {
        let (_, rest) = first_sets(self.rest);
        first_records(rest)
    }

    /// The encoded list of its records, the end of the bytes.
    pub(crate) fn records_bytes(&self) -> &'a [u8]
        ensures spelled { AreWhole result.now }
        ensures records { records_in result.now ≡ self.now.formats }
        ensures end { result.now ≡ encoded_list encoded_record self.now.formats }
    {
        let (_, rest) = first_sets(self.rest);
        rest
    }

    /// Compares the item with another in the order of items.
    pub fn order(&self, other: &Spelling<'_>) -> Ordering
        ensures { result ≡ item_cmp self.now other.now }
    {
        self.order_to(other.stamp(), other.identifier())
    }

    /// Compares the item in that order with this datestamp, in seconds from 1970 on, and identifier.
    pub fn order_to(&self, stamp: i64, identifier: &str) -> Ordering
        ensures { result ≡ place_cmp self.now stamp identifier.now }
    {
        match self.stamp().cmp(&stamp) {
            Ordering::Equal => self.identifier().cmp(identifier),
            unequal => unequal,
        }
    }

    /// Whether the item has this key.
    pub fn is_at(&self, key: ItemKey<'_>) -> bool
        ensures { result ≡ items.is_at key.entry.stamp key.entry.identifier.now self.now }
    {
        self.stamp() == key.stamp && self.identifier() == key.identifier
    }

    /// Whether the item has a record with that prefix.
    pub fn has_record(&self, prefix: &str) -> bool
        ensures { result ≡ has_record prefix.now self.now.formats }
    {
        has_record(self.records(), prefix)
    }

    /// Whether the item is in the set: one of its setSpecs is the set's or a descendant of it.
    pub fn is_in(&self, set: &SetSpec) -> bool
        ensures { result ≡ is_in set.now self.now.sets }
    {
        is_in(self.sets(), set.as_str())
    }

    /// Whether a list request selects the item, live or deleted: it has a record with the prefix, a datestamp from
    /// `lower` to `upper`, in seconds from 1970 on and both included, and is in the set if one is given.
    pub fn passes(&self, prefix: &str, lower: i64, upper: i64, set: &Option<SetSpec>) -> bool
        ensures { result
            ≡ passes (record { prefix = prefix.now; lower = lower; upper = upper; set = set.now })
            self.now }
    {
        self.has_record(prefix)
            && lower <= self.stamp()
            && self.stamp() <= upper
            && self.is_in_given(set)
    }

    /// Whether the item is in the set, if one is given.
    fn is_in_given(&self, set: &Option<SetSpec>) -> bool
        ensures { result ≡ is_in_given set.now self.now.sets }
    {
        match set {
            Some(set) => self.is_in(set),
            None => true,
        }
    }
}

/// Whether the bytes, all of them, encode an item: exactly where `Item::decode` does not return `Damaged`. The error is
/// out of memory. It allocates nothing for up to 16 setSpecs, which it compares pairwise, nor if another part of the
/// item is invalid; for more it holds their names and those of their ancestors in a sorted set until it returns.
pub fn is_spelling(alloc: Global, bytes: &[u8]) -> Result<bool, AllocError>
    ensures spells { IfOk result (λ spells. spells ≡ is_some (item_in bytes.now)) }
    ensures few { OnErr result (length bytes.now ≤ MAX_ITEM_BYTES) }
{
    match read_parts(bytes) {
        Some(parts) => parts_agree(alloc, &parts),
        None => Ok(false),
    }
}

/// The parts of an encoded item.
#[derive(Drop)]
struct Parts<'a> {
    live: bool,
    stamp: i64,
    identifier: &'a str,
    sets: SpelledSets<'a>,
    records: SpelledRecords<'a>,
}

/// The parts of the item that the bytes, all of them, encode, if each part is valid by itself.
fn read_parts(bytes: &[u8]) -> Option<Parts<'_>>
    ensures { ReadsParts bytes.now result }
{
    if bytes.len() > MAX_ITEM_BYTES {
        return None;
    }
    let (live, rest) = read_live(bytes)?;
    let (stamp, rest) = read_stamp(rest)?;
    let (identifier, rest) = read_identifier(rest)?;
    let (sets, rest) = read_sets(rest)?;
    let (records, rest) = read_records(rest)?;
    if !rest.is_empty() {
        return None;
    }
    Some(Parts {
        live,
        stamp,
        identifier,
        sets,
        records,
    })
}

/// Whether the parts are valid together. The error is out of memory.
fn parts_agree(alloc: Global, parts: &Parts<'_>) -> Result<bool, AllocError>
    ensures { IfOk result (λ agree. agree
        ≡ (none_covers parts.now.sets && may_be_records parts.now.live parts.now.records)) }
{
    if !may_be_records(parts.live, &parts.records) {
        return Ok(false);
    }
    none_covers(alloc, &parts.sets)
}

/// Whether a live, or a deleted, item may have these records: at least one, in the order of their prefixes, and without
/// fields if it is deleted.
fn may_be_records(live: bool, records: &SpelledRecords<'_>) -> bool
    ensures { result ≡ may_be_records live records.now }
{
    !records.is_empty() && are_rising(records) && (live || have_no_fields(records))
}

/// Whether each prefix precedes the next, byte by byte.
fn are_rising(records: &SpelledRecords<'_>) -> bool
    ensures { result ≡ are_rising records.now }
{
    let mut rest = records.copy();
    let Some(mut before) = rest.next() else {
        return true;
    };
    while let Some(format) = rest.next() {
        if before.prefix >= format.prefix {
            return false;
        }
        before = format;
    }
    true
}

/// Whether no record has a field.
#[tactic(auto, unfolding(crate::specs::Item::have_no_fields))]
fn have_no_fields(records: &SpelledRecords<'_>) -> bool
    ensures { result ≡ have_no_fields records.now }
{
    let mut rest = records.copy();
    while let Some(format) = rest.next() {
        if !format.fields.is_empty() {
            return false;
        }
    }
    true
}

/// Whether one of the records has that prefix.
#[tactic(auto, unfolding(crate::specs::Item::record_named))]
fn has_record(mut records: SpelledRecords<'_>, prefix: &str) -> bool
    ensures { result ≡ has_record prefix.now records.entry }
{
    while let Some(format) = records.next() {
        if format.prefix == prefix {
            return true;
        }
    }
    false
}

/// Whether an item with these setSpecs is in the set.
#[tactic(auto, unfolding(crate::specs::Membership::is_in))]
fn is_in(mut sets: SpelledSets<'_>, set: &str) -> bool
    ensures { result ≡ is_in set.now sets.entry }
{
    while let Some(other) = sets.next() {
        if covers(set, other) {
            return true;
        }
    }
    false
}

/// `item_in`, the decoder as a function, returns the item that the bytes encode, if they encode one. A theorem, proved
/// by an empty function.
pub fn spelling_law()
    ensures spelled { (bytes : List ℕ) (item : ItemState)
        → Spells bytes item → item_in bytes ≡ Some item }
    ensures only { (bytes : List ℕ) (item : ItemState)
        → item_in bytes ≡ Some item → Spells bytes item }
    ensures some { (item : ItemState) → 1 ≤ length (encoded item) }
{}
