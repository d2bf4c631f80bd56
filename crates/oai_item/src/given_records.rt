//! An iterator over the records of a deposit, as they are given.

ghost use Rattle.std.specs.Prelude.{◌≡◌, [], ◌∷◌, true, IfSome, MatchOption};
ghost use Rattle.std.specs.List.{list_all};
ghost use Rattle.std.specs.Option.{option_copied};
ghost use Rattle.oai_item.specs.Elements.{is_about};
ghost use Rattle.oai_item.specs.Givens.{AreNoted, IsNoted, IsNotedContent, all_given, field_texts, first_noted, noted_about, noted_content, noted_given};

use crate::fields::Field;
use crate::notes::Note;
use oai_names::{Sequence, Text};
use oai_xml::Root;
use std::marker::Model;

/// A record of a deposit.
#[derive(Drop)]
pub struct GivenRecord<'a> {
    /// The metadataPrefix of its format.
    pub prefix: &'a str,
    /// Its fields, or the one that keeps its element.
    pub fields: &'a [Field],
    /// The root of its element, if it is one.
    pub root: Option<&'a Root>,
    /// The elements about it, each as the text of a field without a name.
    pub about: &'a [Field],
}

/// The remaining records of a deposit, in the order of their prefixes.
#[derive(Drop)]
pub struct GivenRecords<'a> {
    records: &'a [(Text, Sequence<Field>)],
    notes: &'a [Note],
}

impl<'a> Model for GivenRecords<'a> {
    ghost use Rattle.std.specs.Prelude.{List};
    ghost use Rattle.oai_item.specs.Givens.{AreNoted, GivenRecord, all_given};

    ghost Value = { List GivenRecord };

    ghost view = { λ r. all_given r.records.now r.notes.now };

    ghost invariant = { λ r. AreNoted r.records.now r.notes.now };
}

impl<'a> GivenRecords<'a> {
    /// Records as an item keeps them, and what is noted of each of the first ones.
    pub(crate) fn new(records: &'a [(Text, Sequence<Field>)], notes: &'a [Note]) -> GivenRecords<'a>
        requires { AreNoted records.now notes.now }
        ensures { result ≡ all_given records.now notes.now }
    {
        GivenRecords { records, notes }
    }

    /// Takes the next record, if there is one.
    pub fn next(&mut self) -> Option<GivenRecord<'a>>
        ensures next { MatchOption result (self.old ≡ [])
            (λ r. self.old ≡ (r.prefix.now, noted_given r.fields.now (option_copied r.root), field_texts r.about.now) ∷ self.new) }
        ensures content { IfSome result (λ r. IsNotedContent r.fields.now (option_copied r.root)) }
        ensures about { IfSome result (λ r. list_all is_about r.about.now ≡ true) }
    {
        let (record, records) = self.records.split_first()?;
        let (root, about, notes) = first_noted(self.notes);
        self.records = records;
        self.notes = notes;
        let fields = record.1.as_slice();
        let (fields, about) = fields.split_at(fields.len() - about);
        Some(GivenRecord {
            prefix: record.0.as_str(),
            fields,
            root,
            about,
        })
    }
}

/// The root that is noted of the first record, if it is an element, how many of its last fields are about it, and what is
/// noted of the others.
fn first_noted(notes: &[Note]) -> (Option<&Root>, usize, &[Note])
    ensures root { option_copied result.0 ≡ (first_noted notes.now).0.root }
    ensures about { result.1 ≡ (first_noted notes.now).0.about }
    ensures others { result.2.now ≡ (first_noted notes.now).1 }
{
    match notes.split_first() {
        Some((note, rest)) => (note.root.as_ref(), note.about, rest),
        None => (None, 0, notes),
    }
}
