ghost use Rattle.std.specs.Prelude.{◌≡◌, ◌≢◌, [], true, map, IfOk};
ghost use Rattle.std.specs.List.{list_all};
ghost use Rattle.oai_item.specs.Givens.{kept};
ghost use Rattle.oai_item.specs.Item.{IsStamp, are_prefixed, live_item};
ghost use Rattle.oai_item.specs.Known.{has_format};
ghost use Rattle.oai_item.specs.Membership.{reduced};

use crate::copies::{copy_fields, copy_sets};
use crate::fields::Field;
use crate::formats::Formats;
use crate::held_records::HeldRecords;
use crate::items::Item;
use crate::records::Records;
use oai_names::{Identifier, Prefix, Sequence, SetSpec, Text};
use std::alloc::{AllocError, Global};

impl Item {
    /// A live item with copies of these parts. The datestamp is in seconds from 1970 on, in the years 0000 to 9999;
    /// there is at least one record, and each is in one of the formats. The item keeps the sets that decide its
    /// membership, as in `live`, and an element as the text of a field without a name. The error is out of memory.
    pub fn deposited(
        alloc: Global,
        formats: &Formats,
        identifier: &Identifier,
        stamp: i64,
        sets: &[SetSpec],
        records: &Records,
    ) -> Result<Item, AllocError>
        requires stamped { IsStamp stamp }
        requires carries { records.now ≢ [] }
        requires known { list_all (has_format formats.now) (map kept records.now) ≡ true }
        ensures { IfOk result
            (λ item. item ≡ live_item identifier.now stamp (reduced sets.now) (map kept records.now)) }
    {
        Item::with_prefixed(
            alloc,
            identifier.copy(alloc)?,
            stamp,
            copy_sets(alloc, sets)?,
            held_records(alloc, formats, records.as_slice())?,
        )
    }
}

/// The records under the prefixes of their formats, in one buffer unless they have too many bytes.
#[tactic(auto, using(crate::proofs::FormatLemmas::prefixed_in))]
fn held_records(
    alloc: Global,
    formats: &Formats,
    records: &[(Text, Sequence<Field>)],
) -> Result<HeldRecords, AllocError>
    requires { list_all (has_format formats.now) records.now ≡ true }
    ensures held { IfOk result (λ held. held ≡ records.now) }
    ensures prefixed { are_prefixed records.now ≡ true }
{
    formats.prefix_law();
    match HeldRecords::deposited(alloc, records)? {
        Some(held) => Ok(held),
        None => Ok(HeldRecords::typed(typed_records(alloc, formats, records)?)),
    }
}

/// The prefix of the record's format.
fn prefix_of<'a>(formats: &'a Formats, deposited: &(Text, Sequence<Field>)) -> &'a Prefix
    requires { has_format formats.now deposited.now ≡ true }
    ensures { result.now ≡ deposited.now.0 }
{
    let Some(format) = formats.find_named(deposited.0.as_str()) else {
        unreachable!()
    };
    &format.prefix
}

/// The records under the prefixes of their formats, each allocated.
fn typed_records(
    alloc: Global,
    formats: &Formats,
    records: &[(Text, Sequence<Field>)],
) -> Result<Sequence<(Prefix, Sequence<Field>)>, AllocError>
    requires { list_all (has_format formats.now) records.now ≡ true }
    ensures { IfOk result (λ typed. typed ≡ records.now) }
{
    let mut typed = Vec::with_capacity(alloc, records.len())?;
    for deposited in records {
        typed.push(typed_record(alloc, formats, deposited)?)?;
    }
    Ok(Sequence::new(typed))
}

/// The record under the prefix of its format.
fn typed_record(
    alloc: Global,
    formats: &Formats,
    deposited: &(Text, Sequence<Field>),
) -> Result<(Prefix, Sequence<Field>), AllocError>
    requires { has_format formats.now deposited.now ≡ true }
    ensures { IfOk result (λ typed. typed ≡ deposited.now) }
{
    Ok((
        prefix_of(formats, deposited).copy(alloc)?,
        copy_fields(alloc, deposited.1.as_slice())?,
    ))
}
