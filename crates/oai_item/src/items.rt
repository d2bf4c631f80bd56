ghost use Rattle.std.specs.Prelude.{◌≡◌, ◌≢◌, ◌≤◌, ◌-◌, ℕ, List, [], Some, true, length, take, drop, Result, IfOk, IsSome};
ghost use Rattle.std.specs.List.{list_all};
ghost use Rattle.std.specs.Option.{option_map};
ghost use Rattle.oai_item.specs.Decoding.{item_in};
ghost use Rattle.oai_item.specs.Encoding.{GivesBack, IsDecoding, IsEncoding, IsMeasure, Spells, encoded};
ghost use Rattle.oai_item.specs.declared.decodings.DecodeFault.{DecodeFault};
ghost use Rattle.oai_item.specs.declared.sizes.TheConstants.{MAX_ITEM_BYTES};
ghost use Rattle.oai_item.specs.Item.{IsItem, IsStamp, ItemState, are_prefixed, are_rising, has_record, live_item, record_named, tombstone_of};
ghost use Rattle.oai_item.specs.Membership.{NoneCovers, is_in, reduced};

use crate::copies::{copy_sets, emptied, sets_in_memory};
use crate::decodings::DecodeFault;
use crate::encodings::put_parts;
use crate::fields::Field;
use crate::held_records::HeldRecords;
use crate::in_place::Spelling;
use crate::item_records::{Fields, ItemRecords};
use crate::reductions::reduced;
use crate::sizes::{TooLarge, with_sets, with_text};
use oai_device::HeldBytes;
use oai_names::{Identifier, Prefix, Sequence, SetSpec};
use std::alloc::{AllocError, Global};
use std::marker::Model;

/// The length of the first two parts of an encoded item: whether it is live, and its datestamp.
const FIRST_BYTES: usize = 9;

/// An item of a repository (OAI-PMH 2.0, section 2.3): its identifier, its datestamp, whether it is live or deleted,
/// its sets, and its record in each of its formats. The records of a deleted item have no fields (section 2.5.1).
#[derive(Debug, Drop)]
pub struct Item {
    identifier: Identifier,
    stamp: i64,
    live: bool,
    sets: Sequence<SetSpec>,
    formats: HeldRecords,
}

impl Model for Item {
    ghost use Rattle.oai_item.specs.Item.{ItemState, IsItem};

    ghost Value = { ItemState };

    ghost use Rattle.oai_item.specs.Inside.{item_of_inside};

    ghost view = { item_of_inside };

    ghost invariant = { λ item. IsItem (item_of_inside item) };
}

impl Item {
    /// A live item with these parts. The datestamp is in seconds from 1970 on, in the years 0000 to 9999; there is at
    /// least one record, and the records are in the order of their distinct prefixes. Of the setSpecs the item keeps
    /// those that decide its membership: of equal ones the first, and none that covers another, since the item is in
    /// that set anyway (OAI-PMH 2.0, section 2.6). The error is out of memory.
    pub fn live(
        alloc: Global,
        identifier: Identifier,
        stamp: i64,
        sets: Sequence<SetSpec>,
        formats: Sequence<(Prefix, Sequence<Field>)>,
    ) -> Result<Item, AllocError>
        requires stamped { IsStamp stamp }
        requires rising { are_rising formats ≡ true }
        requires carries { formats ≢ [] }
        ensures { IfOk result (λ item. item ≡ live_item identifier stamp (reduced sets) formats) }
    {
        see_prefixes(formats.as_slice());
        Item::with_prefixed(alloc, identifier, stamp, sets, HeldRecords::typed(formats))
    }

    /// A live item with records whose prefixes are known to be valid.
    pub(crate) fn with_prefixed(
        alloc: Global,
        identifier: Identifier,
        stamp: i64,
        sets: Sequence<SetSpec>,
        formats: HeldRecords,
    ) -> Result<Item, AllocError>
        requires stamped { IsStamp stamp }
        requires prefixed { are_prefixed formats ≡ true }
        requires rising { are_rising formats ≡ true }
        requires carries { formats ≢ [] }
        ensures { IfOk result (λ item. item ≡ live_item identifier stamp (reduced sets) formats) }
    {
        Ok(Item {
            identifier,
            stamp,
            live: true,
            sets: reduced(alloc, sets)?,
            formats,
        })
    }

    /// A copy of the item. The error is out of memory.
    pub fn copy(&self, alloc: Global) -> Result<Item, AllocError>
        ensures { IfOk result (λ copy. copy ≡ self.now) }
    {
        Ok(Item {
            identifier: self.identifier.copy(alloc)?,
            stamp: self.stamp,
            live: self.live,
            sets: copy_sets(alloc, self.sets.as_slice())?,
            formats: self.formats.copy(alloc)?,
        })
    }

    /// The tombstone of this item: the same identifier, sets and prefixes, no fields, and that datestamp, in seconds
    /// from 1970 on, in the years 0000 to 9999. The error is out of memory.
    pub fn tombstone(&self, alloc: Global, stamp: i64) -> Result<Item, AllocError>
        requires { IsStamp stamp }
        ensures { IfOk result (λ tombstone. tombstone ≡ tombstone_of stamp self.now) }
    {
        Ok(Item {
            identifier: self.identifier.copy(alloc)?,
            stamp,
            live: false,
            sets: copy_sets(alloc, self.sets.as_slice())?,
            formats: HeldRecords::typed(emptied(alloc, self.formats.walk())?),
        })
    }

    /// The unique identifier.
    pub fn identifier(&self) -> &Identifier
        ensures { result.now ≡ self.now.identifier }
    {
        &self.identifier
    }

    /// The datestamp, in seconds from 1970 on, in the years 0000 to 9999.
    pub fn stamp(&self) -> i64
        ensures stamp { result ≡ self.now.stamp }
        ensures in_range { IsStamp self.now.stamp }
    {
        self.stamp
    }

    /// Whether the item is live; otherwise it is deleted.
    pub fn is_live(&self) -> bool
        ensures { result ≡ self.now.live }
    {
        self.live
    }

    /// The setSpecs that decide which sets the item is in: these, and the sets that cover them. They are distinct, and
    /// none of them covers another.
    pub fn sets(&self) -> &[SetSpec]
        ensures sets { result.now ≡ self.now.sets }
        ensures apart { NoneCovers self.now.sets }
    {
        self.sets.as_slice()
    }

    /// Iterates over the record in each format, in the order of the prefixes; at least one.
    pub fn formats(&self) -> ItemRecords<'_>
        ensures formats { result ≡ self.now.formats }
        ensures valid { IsItem self.now }
    {
        self.formats.walk()
    }

    /// Whether the item has a record with that prefix. Allocates nothing.
    pub fn has_record(&self, prefix: &str) -> bool
        ensures { result ≡ has_record prefix.now self.now.formats }
    {
        has_record(self.formats(), prefix)
    }

    /// Whether the item has a record in each format of the other one. Allocates nothing.
    pub fn has_each_format(&self, other: &Item) -> bool
        ensures { result ≡ list_all (λ format. has_record format.0 self.now.formats)
            other.now.formats }
    {
        let mut formats = other.formats();
        while let Some(format) = formats.next() {
            if !self.has_record(format.prefix) {
                return false;
            }
        }
        true
    }

    /// The fields of the record with that prefix, or None if the item has no such record. Allocates nothing.
    pub fn fields_in(&self, prefix: &str) -> Option<Fields<'_>>
        ensures { result ≡ option_map (λ r. r.1) (record_named prefix.now self.now.formats) }
    {
        fields_named(self.formats(), prefix)
    }

    /// The length of the encoded item in bytes. The error: it is above 1,048,576. Allocates nothing.
    pub fn encoded_len(&self) -> Result<usize, TooLarge>
        ensures { IsMeasure (length (encoded self.now)) result }
    {
        let front = with_text(FIRST_BYTES, self.identifier.as_str())?;
        let middle = with_sets(front, self.sets.as_slice())?;
        self.formats.measured(middle)
    }

    /// Writes the encoded item at the start of `out`, and leaves the bytes behind it unchanged. Returns its length, as
    /// `encoded_len` does; `out` must have at least that many bytes. The error: the length is above 1,048,576, and
    /// nothing is written. Allocates nothing.
    pub fn encode_into(&self, out: &mut [u8]) -> Result<usize, TooLarge>
        requires { length (encoded self.now) ≤ MAX_ITEM_BYTES
            → length (encoded self.now) ≤ length out.old }
        ensures { IsEncoding self.now out.old result out.new }
    {
        self.encoded_len()?;
        Ok(self.encode_measured(out))
    }

    /// Writes the encoded item as `encode_into` does, where its length is known to be at most 1,048,576. Returns its
    /// length. Allocates nothing.
    pub fn encode_measured(&self, out: &mut [u8]) -> usize
        requires few { length (encoded self.now) ≤ MAX_ITEM_BYTES }
        requires room { length (encoded self.now) ≤ length out.old }
        ensures { IsEncoding self.now out.old (Ok result) out.new }
    {
        let identifier = self.identifier.as_str();
        let sets = self.sets.as_slice();
        let records = &self.formats;
        put_parts(out, self.live, self.stamp, identifier, sets, records)
    }

    /// The item that the bytes, all of them, encode, as `encode_into` writes it; each item has exactly one encoding.
    /// The errors: `Damaged` if they encode none, as with trailing bytes, or are more than 1,048,576; `NoMemory`. The
    /// item is allocated once the bytes are known to encode one; the test allocates what `is_spelling` says.
    pub fn decode(alloc: Global, bytes: &[u8]) -> Result<Item, DecodeFault>
        ensures { IsDecoding bytes.now result }
    {
        let spelling = Spelling::read(alloc, bytes)?;
        Ok(Item::spelled(alloc, &spelling)?)
    }

    /// A copy of the item that was read in place. The error is out of memory.
    pub fn spelled(alloc: Global, spelling: &Spelling<'_>) -> Result<Item, AllocError>
        ensures { IfOk result (λ item. item ≡ spelling.now) }
    {
        let records = HeldRecords::spelled(alloc, spelling.records_bytes())?;
        Item::with_records(alloc, spelling, records)
    }

    /// The item that the bytes from byte `from` to byte `to` encode, as `is_spelling` says of them. Its records are not
    /// copied if the bytes are those of a page, which then stays in memory with the item. The error is out of memory.
    pub fn held(
        alloc: Global,
        bytes: &HeldBytes,
        from: usize,
        to: usize,
    ) -> Result<Item, AllocError>
        requires order { from ≤ to }
        requires within { to ≤ length bytes.now }
        requires item { IsSome (item_in (take (to - from) (drop from bytes.now))) }
        ensures { IfOk result (λ item. item_in (take (to - from) (drop from bytes.now)) ≡ Some item) }
    {
        let spelling = Spelling::new(&bytes.as_slice()[from..to]);
        let size = spelling.records_bytes().len();
        let records = HeldRecords::held(bytes.part(alloc, to - size, size)?);
        Item::with_records(alloc, &spelling, records)
    }

    /// The item that was read in place, with these records, which are its own. The error is out of memory.
    fn with_records(
        alloc: Global,
        spelling: &Spelling<'_>,
        formats: HeldRecords,
    ) -> Result<Item, AllocError>
        requires { formats ≡ spelling.now.formats }
        ensures { IfOk result (λ item. item ≡ spelling.now) }
    {
        Ok(Item {
            identifier: Identifier::new(alloc, spelling.identifier())?,
            stamp: spelling.stamp(),
            live: spelling.is_live(),
            sets: sets_in_memory(alloc, spelling.sets())?,
            formats,
        })
    }
}

/// Whether one of the records has that prefix.
#[tactic(auto, unfolding(crate::specs::Item::record_named))]
fn has_record(mut records: ItemRecords<'_>, prefix: &str) -> bool
    ensures { result ≡ has_record prefix.now records.entry }
{
    while let Some(format) = records.next() {
        if format.prefix == prefix {
            return true;
        }
    }
    false
}

/// The fields of the record with that prefix.
#[tactic(auto, unfolding(crate::specs::Item::record_named))]
fn fields_named<'a>(mut records: ItemRecords<'a>, prefix: &str) -> Option<Fields<'a>>
    ensures { result ≡ option_map (λ r. r.1) (record_named prefix.now records.entry) }
{
    while let Some(format) = records.next() {
        if format.prefix == prefix {
            return Some(format.fields);
        }
    }
    None
}

/// Reads each prefix, so that the invariants of its type, grammar and length, are known of all of them. It changes
/// nothing.
#[tactic(auto, unfolding(crate::specs::Item::are_prefixed))]
fn see_prefixes(formats: &[(Prefix, Sequence<Field>)])
    ensures { are_prefixed formats.now ≡ true }
{
    for (prefix, _) in formats {
        prefix.as_str();
    }
}

/// Whether an item with these setSpecs is in the set. Allocates nothing.
#[tactic(auto, unfolding(crate::specs::Membership::is_in))]
pub fn is_in(set: &SetSpec, sets: &[SetSpec]) -> bool
    ensures { result ≡ is_in set.now sets.now }
{
    sets.iter().any(|other| set.covers(other))
}

/// Reducing an item's setSpecs leaves the item in the same sets (OAI-PMH 2.0, section 2.6), and of two setSpecs that
/// stay, at different positions, neither covers the other. A theorem, proved by an empty function.
#[tactic(auto, using(crate::proofs::Kept::reduced_apart, crate::proofs::SetLaws::same_sets))]
pub fn set_law()
    ensures membership { (s : List ℕ) (sets : List (List ℕ))
        → is_in s (reduced sets) ≡ is_in s sets }
    ensures apart { (sets : List (List ℕ)) → NoneCovers (reduced sets) }
{}

/// Bytes encode at most one item, and decoding an encoded item returns that item, unless memory runs out. A theorem,
/// proved by an empty function.
#[tactic(auto, using(crate::proofs::Spelled::same_spelled, crate::proofs::Spelled::round_trip))]
pub fn encoding_law()
    ensures one { (bytes : List ℕ) (item other : ItemState)
        → Spells bytes item → Spells bytes other → other ≡ item }
    ensures round_trip { (item : ItemState) (old new : List ℕ) (n : ℕ)
        (answer : Result ItemState DecodeFault)
        → IsEncoding item old (Ok n) new → IsDecoding (take n new) answer
        → GivesBack item answer }
{}
