ghost use Rattle.std.specs.Prelude.{◌≡◌, ◌+◌, length};
ghost use Rattle.oai_item.specs.Encoding.{IsMeasure, encoded_field, encoded_list, encoded_record, encoded_text};

use crate::fields::Field;
use crate::memory_records::MemoryRecord;
use crate::short_texts::MAX_SHORT_TEXT_BYTES;
use oai_names::SetSpec;
use thiserror::Error;

/// The maximum length of an encoded item in bytes.
pub const MAX_ITEM_BYTES: usize = 1_048_576;

/// The length of an encoded count in bytes.
const COUNT_BYTES: usize = 4;

/// The encoded item has more than 1,048,576 bytes.
#[derive(Clone, Copy, Debug, PartialEq, Eq, Error)]
#[error("the encoded item has more than 1,048,576 bytes")]
pub struct TooLarge;

/// The limits in numbers, since definitions read them by their names. A theorem, proved by an
/// empty function.
pub fn limit_law()
    ensures item { MAX_ITEM_BYTES ≡ 1_048_576 }
    ensures short_text { MAX_SHORT_TEXT_BYTES ≡ 512 }
{}

/// The sum, if it is at most `MAX_ITEM_BYTES`.
pub(crate) fn plus(size: usize, more: usize) -> Result<usize, TooLarge>
    ensures { IsMeasure (size + more) result }
{
    match size.checked_add(more) {
        Some(sum) if sum <= MAX_ITEM_BYTES => Ok(sum),
        _ => Err(TooLarge),
    }
}

/// That many bytes and those of the text.
pub(crate) fn with_text(size: usize, text: &str) -> Result<usize, TooLarge>
    ensures { IsMeasure (size + length (encoded_text text.now)) result }
{
    let front = plus(size, COUNT_BYTES)?;
    plus(front, text.len())
}

/// That many bytes and those of the list of sets.
pub(crate) fn with_sets(size: usize, sets: &[SetSpec]) -> Result<usize, TooLarge>
    ensures { IsMeasure (size + length (encoded_list encoded_text sets.now)) result }
{
    let mut sum = plus(size, COUNT_BYTES)?;
    for set in sets {
        sum = with_text(sum, set.as_str())?;
    }
    Ok(sum)
}

/// That many bytes and those of the list of records.
pub(crate) fn with_records<R: MemoryRecord>(size: usize, records: &[R]) -> Result<usize, TooLarge>
    ensures { IsMeasure (size + length (encoded_list (λ r. encoded_record (R.record_of r)) records.now)) result }
{
    let mut sum = plus(size, COUNT_BYTES)?;
    for format in records {
        sum = with_record(sum, format)?;
    }
    Ok(sum)
}

/// That many bytes and those of a record.
fn with_record<R: MemoryRecord>(size: usize, format: &R) -> Result<usize, TooLarge>
    ensures { IsMeasure (size + length (encoded_record (R.record_of format.now))) result }
{
    let front = with_text(size, format.prefix())?;
    with_fields(front, format.fields())
}

/// That many bytes and those of the list of fields.
fn with_fields(size: usize, fields: &[Field]) -> Result<usize, TooLarge>
    ensures { IsMeasure (size + length (encoded_list encoded_field fields.now)) result }
{
    let mut sum = plus(size, COUNT_BYTES)?;
    for field in fields {
        sum = with_field(sum, field)?;
    }
    Ok(sum)
}

/// That many bytes and those of a field.
fn with_field(size: usize, field: &Field) -> Result<usize, TooLarge>
    ensures { IsMeasure (size + length (encoded_field field.now)) result }
{
    let front = with_text(size, field.name.as_str())?;
    with_text(front, field.text.as_str())
}
