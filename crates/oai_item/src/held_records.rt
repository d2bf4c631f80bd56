//! The records of an item: each allocated, or all of them encoded.

ghost use Rattle.std.specs.Prelude.{◌≡◌, ◌<◌, ◌≤◌, ◌+◌, true, length, IfOk, MatchOption};
ghost use Rattle.std.specs.List.{list_all};
ghost use Rattle.oai_item.specs.Encoding.{IsMeasure, encoded_list, encoded_record, is_text_record};
ghost use Rattle.oai_item.specs.Held.{AreWhole, records_in};
ghost use Rattle.oai_item.specs.Item.{are_prefixed};
ghost use Rattle.oai_item.specs.SpellingParts.{Writes};

use crate::copies::copy_records;
use crate::encodings::{put_bytes, put_records};
use crate::fields::Field;
use crate::fronts::first_records;
use crate::item_records::ItemRecords;
use crate::sizes::{MAX_ITEM_BYTES, TooLarge, plus, with_records};
use oai_device::HeldBytes;
use oai_names::{Prefix, Sequence, Text};
use std::alloc::{AllocError, Global};
use std::marker::Model;

/// How records are stored in memory.
#[derive(Debug, Drop)]
enum Held {
    /// Each allocated: those of an item that was made from its parts, those of a tombstone, and those of a deposit that
    /// have too many bytes to be encoded.
    Typed(Sequence<(Prefix, Sequence<Field>)>),
    /// Encoded: those of a deposit, and those of an item that was read from a store.
    Spelled(HeldBytes),
}

/// The records of an item.
#[derive(Debug, Drop)]
pub(crate) struct HeldRecords {
    held: Held,
}

impl Model for HeldRecords {
    ghost use Rattle.std.specs.Prelude.{List};
    ghost use Rattle.oai_item.specs.Item.{Metadata};

    ghost Value = { List Metadata };

    ghost use Rattle.oai_item.specs.Held.{AreHeld, records_held};

    ghost view = { λ records. records_held records.held };

    ghost invariant = { λ records. AreHeld records.held };
}

impl HeldRecords {
    /// These records, as they are allocated.
    pub(crate) fn typed(records: Sequence<(Prefix, Sequence<Field>)>) -> HeldRecords
        ensures { result ≡ records }
    {
        HeldRecords {
            held: Held::Typed(records),
        }
    }

    /// The records that the bytes, all of them, encode; the bytes are copied. The error is out of memory.
    pub(crate) fn spelled(alloc: Global, bytes: &[u8]) -> Result<HeldRecords, AllocError>
        requires { AreWhole bytes.now }
        ensures { IfOk result (λ records. records ≡ records_in bytes.now) }
    {
        Ok(HeldRecords {
            held: Held::Spelled(HeldBytes::copied(alloc, bytes)?),
        })
    }

    /// The records that the bytes, all of them, encode. Allocates nothing.
    pub(crate) fn held(bytes: HeldBytes) -> HeldRecords
        requires { AreWhole bytes }
        ensures { result ≡ records_in bytes }
    {
        HeldRecords {
            held: Held::Spelled(bytes),
        }
    }

    /// These records of a deposit, each under a prefix, encoded in one buffer; None if they have more bytes than an
    /// item may have. The error is out of memory.
    pub(crate) fn deposited(
        alloc: Global,
        records: &[(Text, Sequence<Field>)],
    ) -> Result<Option<HeldRecords>, AllocError>
        requires { are_prefixed records.now ≡ true }
        ensures { IfOk result (λ held. MatchOption held
            (MAX_ITEM_BYTES < length (encoded_list encoded_record records.now))
            (λ held. held ≡ records.now)) }
    {
        let Ok(size) = with_records(0, records) else {
            return Ok(None);
        };
        let mut bytes = Vec::from_elem(alloc, 0u8, size)?;
        put_records(&mut bytes[..], records);
        Ok(Some(HeldRecords {
            held: Held::Spelled(HeldBytes::own(bytes)),
        }))
    }

    /// A copy of the records. The error is out of memory.
    pub(crate) fn copy(&self, alloc: Global) -> Result<HeldRecords, AllocError>
        ensures { IfOk result (λ copy. copy ≡ self.now) }
    {
        match &self.held {
            Held::Typed(records) => {
                let copies = copy_records(alloc, records.as_slice())?;
                Ok(HeldRecords::typed(copies))
            }
            Held::Spelled(bytes) => HeldRecords::spelled(alloc, bytes.as_slice()),
        }
    }

    /// Iterates over the records.
    pub(crate) fn walk(&self) -> ItemRecords<'_>
        ensures { result ≡ self.now }
    {
        match &self.held {
            Held::Typed(records) => ItemRecords::typed(records.as_slice()),
            Held::Spelled(bytes) => ItemRecords::spelled(first_records(bytes.as_slice())),
        }
    }

    /// That many bytes and those of the encoded list of the records.
    pub(crate) fn measured(&self, size: usize) -> Result<usize, TooLarge>
        ensures { IsMeasure (size + length (encoded_list encoded_record self.now)) result }
    {
        match &self.held {
            Held::Typed(records) => with_records(size, records.as_slice()),
            Held::Spelled(bytes) => plus(size, bytes.len()),
        }
    }

    /// Writes the list of the records at the start of `out`, and returns its length in bytes.
    pub(crate) fn put(&self, out: &mut [u8]) -> usize
        requires { length (encoded_list encoded_record self.now) ≤ length out.old }
        ensures written { Writes (encoded_list encoded_record self.now) out.old result out.new }
        ensures texts { list_all is_text_record self.now ≡ true }
    {
        match &self.held {
            Held::Typed(records) => put_records(out, records.as_slice()),
            Held::Spelled(bytes) => put_bytes(out, bytes.as_slice()),
        }
    }
}
