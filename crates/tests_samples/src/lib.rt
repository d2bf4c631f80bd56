//! What tests of several crates share: items, each described in short, and the notation of rows and scripts. It holds no tests.
#![tactic(auto)]

mod notation;

pub use notation::{with_bytes, with_repeats};
use oai_item::{Field, Item};
use oai_names::{Identifier, Prefix, Sequence, SetSpec, Text};
use std::alloc::Global;

/// 2024-01-01T00:00:00Z, the datestamp of an item that is not deposited later.
pub const STAMP: i64 = 1_704_067_200;

/// The field `title` of that text; None where memory runs out.
pub fn title_field(alloc: Global, text: &str) -> Option<Field> {
    Some(Field {
        name: Text::new(alloc, "title").ok()?,
        text: Text::new(alloc, text).ok()?,
    })
}

/// The item of that identifier, and of a datestamp so many seconds later, in these sets, with one
/// title in oai_dc; None where one of the texts is no name of its kind, or memory runs out.
pub fn item(
    alloc: Global,
    identifier: &str,
    later: u8,
    specs: &[&str],
    title: &str,
) -> Option<Item> {
    let stamp = STAMP + i64::from(later);
    let identifier = Identifier::read(alloc, identifier).ok()?;
    let sets = set_specs(alloc, specs)?;
    let prefix = Prefix::read(alloc, "oai_dc").ok()?;
    let mut formats = Vec::new(alloc);
    formats.push((prefix, titles(alloc, title)?)).ok()?;
    Item::live(alloc, identifier, stamp, sets, Sequence::new(formats)).ok()
}

/// The setSpecs of these texts.
fn set_specs(alloc: Global, specs: &[&str]) -> Option<Sequence<SetSpec>> {
    let mut sets = Vec::new(alloc);
    for spec in specs {
        sets.push(SetSpec::read(alloc, spec).ok()?).ok()?;
    }
    Some(Sequence::new(sets))
}

/// A field `title` of that text, alone.
fn titles(alloc: Global, text: &str) -> Option<Sequence<Field>> {
    let mut fields = Vec::new(alloc);
    fields.push(title_field(alloc, text)?).ok()?;
    Some(Sequence::new(fields))
}
