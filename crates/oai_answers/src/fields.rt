ghost use Rattle.std.specs.Prelude.{◌≡◌};
ghost use Rattle.oai_item.specs.Item.{fields_in};

use oai_item::{Fields, Item};

/// The fields of the item's record with that metadataPrefix, in order; none if it has no such record. It scans the
/// item's records.
pub(crate) fn fields_in<'a>(prefix: &str, item: &'a Item) -> Fields<'a>
    ensures { result ≡ fields_in prefix.now item.now.formats }
{
    match item.fields_in(prefix) {
        Some(fields) => fields,
        None => Fields::none(),
    }
}
