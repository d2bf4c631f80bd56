//! Whether an item is held already, whatever its datestamp.
ghost use Rattle.std.specs.Prelude.{◌≡◌};
ghost use Rattle.std.specs.Cmp.Lexicographic.{pointwise};
ghost use Rattle.std.specs.Option.{option_copied};
ghost use Rattle.std.specs.Str.{bytes_eq};
ghost use Rattle.oai_holdings.specs.Changes as spec;

use oai_item::{Fields, Item, ItemRecords};
use oai_names::SetSpec;

/// Whether there is a held item that is live, in the sets of the first one and with its records. Allocates nothing.
pub(crate) fn is_held_so(item: &Item, held: Option<&Item>) -> bool
    ensures { result ≡ spec.is_held_so item.now (option_copied held.entry) }
{
    match held {
        Some(held) => {
            held.is_live()
                && are_same_sets(item.sets(), held.sets())
                && are_same_records(item.formats(), held.formats())
        }
        None => false,
    }
}

/// Whether these are the same setSpecs, in the same order.
pub(crate) fn are_same_sets(sets: &[SetSpec], others: &[SetSpec]) -> bool
    ensures { result ≡ pointwise bytes_eq sets.now others.now }
{
    let mut left = sets;
    let mut others_left = others;
    while let Some((set, rest)) = left.split_first() {
        let Some((other, others_rest)) = others_left.split_first() else {
            return false;
        };
        if set.as_str() != other.as_str() {
            return false;
        }
        left = rest;
        others_left = others_rest;
    }
    others_left.is_empty()
}

/// Whether these are records of the same prefixes and with the same fields, in the same order.
pub(crate) fn are_same_records(mut records: ItemRecords<'_>, mut others: ItemRecords<'_>) -> bool
    ensures { result ≡ pointwise spec.is_same_record records.entry others.entry }
{
    while let Some(record) = records.next() {
        let Some(other) = others.next() else {
            return false;
        };
        if record.prefix != other.prefix || !are_same_fields(record.fields, other.fields) {
            return false;
        }
    }
    others.next().is_none()
}

/// Whether these are fields of the same names and texts, in the same order.
fn are_same_fields(mut fields: Fields<'_>, mut others: Fields<'_>) -> bool
    ensures { result ≡ pointwise spec.is_same_field fields.entry others.entry }
{
    while let Some(field) = fields.next() {
        let Some(other) = others.next() else {
            return false;
        };
        if field.name != other.name || field.text != other.text {
            return false;
        }
    }
    others.next().is_none()
}
