//! Iterators over the records of an item and their fields, in memory or encoded.

ghost use Rattle.std.specs.Prelude.{◌≡◌, ◌==◌, true, [], ◌∷◌, length, IfSome, MatchOption};
ghost use Rattle.std.specs.Option.{option_copied};
ghost use Rattle.oai_names.specs.Names.{may_be_prefix};
ghost use Rattle.oai_item.specs.Elements.{behind_content, element_in, from_nameless, nameless_text};
ghost use Rattle.oai_item.specs.Walks.{IsAfterNamed, IsUpToNameless};

use crate::fields::Field;
use crate::walks::{FieldTexts, SpelledFields, SpelledRecords};
use oai_names::{Prefix, Sequence};
use std::marker::Model;

/// Where the remaining fields are.
#[derive(Drop)]
enum FieldsLeft<'a> {
    Typed(&'a [Field]),
    Spelled(SpelledFields<'a>),
}

/// The remaining fields of a record of an item, in order.
#[derive(Drop)]
pub struct Fields<'a> {
    left: FieldsLeft<'a>,
}

impl<'a> Model for Fields<'a> {
    ghost use Rattle.std.specs.Prelude.{List};
    ghost use Rattle.oai_item.specs.declared.fields.Field.{Field};

    ghost Value = { List Field };

    ghost use Rattle.oai_item.specs.Held.{fields_to_come};

    ghost view = { λ fields. fields_to_come fields.left };
}

impl<'a> Fields<'a> {
    /// No fields.
    pub fn none() -> Fields<'a>
        ensures { result ≡ [] }
    {
        Fields::typed(&[])
    }

    /// Fields in memory.
    pub(crate) fn typed(fields: &'a [Field]) -> Fields<'a>
        ensures { result ≡ fields.now }
    {
        Fields {
            left: FieldsLeft::Typed(fields),
        }
    }

    /// Encoded fields.
    pub(crate) fn spelled(fields: SpelledFields<'a>) -> Fields<'a>
        ensures { result ≡ fields.entry }
    {
        Fields {
            left: FieldsLeft::Spelled(fields),
        }
    }

    /// The number of remaining fields.
    pub fn len(&self) -> usize
        ensures { result ≡ length self.now }
    {
        match &self.left {
            FieldsLeft::Typed(fields) => fields.len(),
            FieldsLeft::Spelled(fields) => fields.len(),
        }
    }

    /// Whether no field remains.
    pub fn is_empty(&self) -> bool
        ensures { result ≡ (length self.now == 0) }
    {
        self.len() == 0
    }

    /// A copy of the iterator at its current position.
    pub fn copy(&self) -> Fields<'a>
        ensures { result ≡ self.now }
    {
        match &self.left {
            FieldsLeft::Typed(fields) => Fields::typed(fields),
            FieldsLeft::Spelled(fields) => Fields::spelled(fields.copy()),
        }
    }

    /// The element that the fields keep as the record itself, if they keep one: the text of the first field, if that has no
    /// name and is the last one, or is followed by another without a name.
    pub fn element(&self) -> Option<&'a str>
        ensures { option_copied result ≡ element_in self.now }
    {
        let mut fields = self.copy();
        let text = nameless_text(fields.next()?)?;
        match fields.next_named() {
            Some(_) => None,
            None => Some(text),
        }
    }

    /// The elements about the record, each as the text of a field without a name.
    pub fn about(&self) -> Fields<'a>
        ensures { result ≡ behind_content self.now }
    {
        let mut fields = self.copy();
        match fields.next() {
            Some(_) => from_nameless(fields),
            None => Fields::none(),
        }
    }

    /// Takes the next field, if there is one that has a name.
    pub fn next_named(&mut self) -> Option<FieldTexts<'a>>
        ensures { MatchOption result (IsUpToNameless self.old self.new)
            (λ field. IsAfterNamed self.old (record { name = field.name.now; text = field.text.now }) self.new) }
    {
        let mut ahead = self.copy();
        let field = ahead.next()?;
        if field.name.len() == 0 {
            return None;
        }
        *self = ahead;
        Some(field)
    }

    /// Takes the next field, if there is one.
    pub fn next(&mut self) -> Option<FieldTexts<'a>>
        ensures { MatchOption result (self.old ≡ [])
            (λ field. self.old
            ≡ record { name = field.name.now; text = field.text.now } ∷ self.new) }
    {
        match &mut self.left {
            FieldsLeft::Typed(fields) => {
                let (field, rest) = fields.split_first()?;
                *fields = rest;
                Some(FieldTexts {
                    name: field.name.as_str(),
                    text: field.text.as_str(),
                })
            }
            FieldsLeft::Spelled(fields) => fields.next(),
        }
    }
}

/// The fields from the first without a name on.
#[tactic(auto, using(crate::proofs::Contents::skipped))]
fn from_nameless<'a>(fields: Fields<'a>) -> Fields<'a>
    ensures { result ≡ from_nameless fields.entry }
{
    let mut rest = fields;
    while let Some(_) = rest.next_named() {}
    rest
}

/// The text of the field, if it has no name.
fn nameless_text<'a>(field: FieldTexts<'a>) -> Option<&'a str>
    ensures { option_copied result ≡ nameless_text (record { name = field.entry.name.now; text = field.entry.text.now }) }
{
    if field.name.is_empty() {
        Some(field.text)
    } else {
        None
    }
}

/// A record of an item.
#[derive(Drop)]
pub struct ItemRecord<'a> {
    /// The metadataPrefix of its format.
    pub prefix: &'a str,
    /// Its fields, or the one that keeps its element; then the elements about it, each as the text of a field without a
    /// name.
    pub fields: Fields<'a>,
}

/// Where the remaining records are.
#[derive(Drop)]
enum RecordsLeft<'a> {
    Typed(&'a [(Prefix, Sequence<Field>)]),
    Spelled(SpelledRecords<'a>),
}

/// The remaining records of an item, in the order of their prefixes.
#[derive(Drop)]
pub struct ItemRecords<'a> {
    left: RecordsLeft<'a>,
}

impl<'a> Model for ItemRecords<'a> {
    ghost use Rattle.std.specs.Prelude.{List};
    ghost use Rattle.oai_item.specs.Item.{Metadata};

    ghost Value = { List Metadata };

    ghost use Rattle.oai_item.specs.Held.{records_to_come};

    ghost view = { λ records. records_to_come records.left };
}

impl<'a> ItemRecords<'a> {
    /// Records in memory.
    pub(crate) fn typed(records: &'a [(Prefix, Sequence<Field>)]) -> ItemRecords<'a>
        ensures { result ≡ records.now }
    {
        ItemRecords {
            left: RecordsLeft::Typed(records),
        }
    }

    /// Encoded records.
    pub(crate) fn spelled(records: SpelledRecords<'a>) -> ItemRecords<'a>
        ensures { result ≡ records.entry }
    {
        ItemRecords {
            left: RecordsLeft::Spelled(records),
        }
    }

    /// The number of remaining records.
    pub fn len(&self) -> usize
        ensures { result ≡ length self.now }
    {
        match &self.left {
            RecordsLeft::Typed(records) => records.len(),
            RecordsLeft::Spelled(records) => records.len(),
        }
    }

    /// Whether no record remains.
    pub fn is_empty(&self) -> bool
        ensures { result ≡ (length self.now == 0) }
    {
        self.len() == 0
    }

    /// Takes the next record, if there is one.
    pub fn next(&mut self) -> Option<ItemRecord<'a>>
        ensures next { MatchOption result (self.old ≡ [])
            (λ format. self.old ≡ (format.prefix.now, format.fields) ∷ self.new) }
        ensures name { IfSome result (λ format. may_be_prefix format.prefix.now ≡ true) }
    {
        match &mut self.left {
            RecordsLeft::Typed(records) => {
                let ((prefix, fields), rest) = records.split_first()?;
                *records = rest;
                Some(ItemRecord {
                    prefix: prefix.as_str(),
                    fields: Fields::typed(fields.as_slice()),
                })
            }
            RecordsLeft::Spelled(records) => {
                let format = records.next()?;
                Some(ItemRecord {
                    prefix: format.prefix,
                    fields: Fields::spelled(format.fields),
                })
            }
        }
    }
}
