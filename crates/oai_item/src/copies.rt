ghost use Rattle.std.specs.Prelude.{◌≡◌, IfOk, map};
ghost use Rattle.oai_item.specs.Item.{emptied};

use crate::fields::Field;
use crate::item_records::ItemRecords;
use crate::walks::SpelledSets;
use oai_names::{Prefix, Sequence, SetSpec};
use std::alloc::{AllocError, Global};

/// Copies of the setSpecs.
pub(crate) fn copy_sets(alloc: Global, sets: &[SetSpec]) -> Result<Sequence<SetSpec>, AllocError>
    ensures { IfOk result (λ copies. copies ≡ sets.now) }
{
    let mut copies = Vec::with_capacity(alloc, sets.len())?;
    for set in sets {
        copies.push(set.copy(alloc)?)?;
    }
    Ok(Sequence::new(copies))
}

/// Copies of the records.
pub(crate) fn copy_records(
    alloc: Global,
    records: &[(Prefix, Sequence<Field>)],
) -> Result<Sequence<(Prefix, Sequence<Field>)>, AllocError>
    ensures { IfOk result (λ copies. copies ≡ records.now) }
{
    let mut copies = Vec::with_capacity(alloc, records.len())?;
    for (prefix, fields) in records {
        copies.push((prefix.copy(alloc)?, copy_fields(alloc, fields.as_slice())?))?;
    }
    Ok(Sequence::new(copies))
}

/// Copies of the fields.
pub(crate) fn copy_fields(alloc: Global, fields: &[Field]) -> Result<Sequence<Field>, AllocError>
    ensures { IfOk result (λ copies. copies ≡ fields.now) }
{
    let mut copies = Vec::with_capacity(alloc, fields.len())?;
    for field in fields {
        copies.push(field.copy(alloc)?)?;
    }
    Ok(Sequence::new(copies))
}

/// The records without their fields, copied.
pub(crate) fn emptied(
    alloc: Global,
    mut records: ItemRecords<'_>,
) -> Result<Sequence<(Prefix, Sequence<Field>)>, AllocError>
    ensures { IfOk result (λ left. left ≡ map emptied records.entry) }
{
    let mut left = Vec::with_capacity(alloc, records.len())?;
    while let Some(format) = records.next() {
        let prefix = Prefix::new(alloc, format.prefix)?;
        left.push((prefix, Sequence::new(Vec::new(alloc))))?;
    }
    Ok(Sequence::new(left))
}

/// The setSpecs of an encoding, copied.
pub(crate) fn sets_in_memory(
    alloc: Global,
    mut sets: SpelledSets<'_>,
) -> Result<Sequence<SetSpec>, AllocError>
    ensures { IfOk result (λ copies. copies ≡ sets.entry) }
{
    let mut copies = Vec::with_capacity(alloc, sets.len())?;
    while let Some(set) = sets.next() {
        copies.push(SetSpec::new(alloc, set)?)?;
    }
    Ok(Sequence::new(copies))
}
