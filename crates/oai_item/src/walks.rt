//! Iterators over the lists of an encoded item, element by element, in place.

ghost use Rattle.std.specs.Prelude.{◌≡◌, ◌==◌, true, [], ◌∷◌, length, IfSome, MatchOption};
ghost use Rattle.oai_names.specs.Names.{may_be_prefix};
ghost use Rattle.oai_names.specs.Sets.{may_be_set_spec};
ghost use Rattle.oai_item.specs.Walks.{AreFields, AreRecords, AreSets, fields_left, records_left, sets_left};

use crate::fronts::{first_field, first_record, first_set, last_record};
use std::marker::Model;

/// The remaining setSpecs of an encoded item.
#[derive(Drop)]
pub struct SpelledSets<'a> {
    left: usize,
    rest: &'a [u8],
}

impl<'a> Model for SpelledSets<'a> {
    ghost use Rattle.std.specs.Prelude.{ℕ, List};
    ghost use Rattle.oai_item.specs.Walks.{AreSets, sets_left};

    ghost Value = { List (List ℕ) };

    ghost view = { λ s. sets_left s.left s.rest.now };

    ghost invariant = { λ s. AreSets s.left s.rest.now };
}

impl<'a> SpelledSets<'a> {
    /// That many setSpecs, with which the bytes begin.
    pub(crate) fn new(left: usize, rest: &'a [u8]) -> SpelledSets<'a>
        requires { AreSets left rest.now }
        ensures { result ≡ sets_left left rest.now }
    {
        SpelledSets { left, rest }
    }

    /// The number of remaining setSpecs.
    pub fn len(&self) -> usize
        ensures { result ≡ length self.now }
    {
        self.left
    }

    /// A copy of the iterator at its current position.
    pub fn copy(&self) -> SpelledSets<'a>
        ensures { result ≡ self.now }
    {
        SpelledSets {
            left: self.left,
            rest: self.rest,
        }
    }

    /// Takes the next setSpec, if there is one.
    pub fn next(&mut self) -> Option<&'a str>
        ensures next { MatchOption result (self.old ≡ []) (λ set. self.old ≡ set.now ∷ self.new) }
        ensures name { IfSome result (λ set. may_be_set_spec set.now ≡ true) }
    {
        if self.left == 0 {
            return None;
        }
        let (set, rest) = first_set(self.rest);
        self.left -= 1;
        self.rest = rest;
        Some(set)
    }
}

/// The name and the text of a field, in memory or encoded.
#[derive(Drop)]
pub struct FieldTexts<'a> {
    /// Its name.
    pub name: &'a str,
    /// Its text.
    pub text: &'a str,
}

/// The remaining fields of a record of an encoded item.
#[derive(Drop)]
pub struct SpelledFields<'a> {
    left: usize,
    rest: &'a [u8],
}

impl<'a> Model for SpelledFields<'a> {
    ghost use Rattle.std.specs.Prelude.{List};
    ghost use Rattle.oai_item.specs.declared.fields.Field.{Field};
    ghost use Rattle.oai_item.specs.Walks.{AreFields, fields_left};

    ghost Value = { List Field };

    ghost view = { λ s. fields_left s.left s.rest.now };

    ghost invariant = { λ s. AreFields s.left s.rest.now };
}

impl<'a> SpelledFields<'a> {
    /// That many fields, with which the bytes begin.
    pub(crate) fn new(left: usize, rest: &'a [u8]) -> SpelledFields<'a>
        requires { AreFields left rest.now }
        ensures { result ≡ fields_left left rest.now }
    {
        SpelledFields { left, rest }
    }

    /// The number of remaining fields.
    pub fn len(&self) -> usize
        ensures { result ≡ length self.now }
    {
        self.left
    }

    /// A copy of the iterator at its current position.
    pub fn copy(&self) -> SpelledFields<'a>
        ensures { result ≡ self.now }
    {
        SpelledFields {
            left: self.left,
            rest: self.rest,
        }
    }

    /// Whether no field remains.
    pub fn is_empty(&self) -> bool
        ensures { result ≡ (length self.now == 0) }
    {
        self.len() == 0
    }

    /// Takes the next field, if there is one.
    pub fn next(&mut self) -> Option<FieldTexts<'a>>
        ensures { MatchOption result (self.old ≡ [])
            (λ field. self.old
            ≡ record { name = field.name.now; text = field.text.now } ∷ self.new) }
    {
        if self.left == 0 {
            return None;
        }
        let (field, rest) = first_field(self.rest);
        self.left -= 1;
        self.rest = rest;
        Some(field)
    }
}

/// A record of an encoded item.
#[derive(Drop)]
pub struct SpelledRecord<'a> {
    /// The metadataPrefix of its format.
    pub prefix: &'a str,
    /// Its fields.
    pub fields: SpelledFields<'a>,
}

/// The remaining records of an encoded item.
#[derive(Drop)]
pub struct SpelledRecords<'a> {
    left: usize,
    rest: &'a [u8],
}

impl<'a> Model for SpelledRecords<'a> {
    ghost use Rattle.std.specs.Prelude.{List};
    ghost use Rattle.oai_item.specs.Item.{Metadata};
    ghost use Rattle.oai_item.specs.Walks.{AreRecords, records_left};

    ghost Value = { List Metadata };

    ghost view = { λ s. records_left s.left s.rest.now };

    ghost invariant = { λ s. AreRecords s.left s.rest.now };
}

impl<'a> SpelledRecords<'a> {
    /// That many records, with which the bytes begin.
    pub(crate) fn new(left: usize, rest: &'a [u8]) -> SpelledRecords<'a>
        requires { AreRecords left rest.now }
        ensures { result ≡ records_left left rest.now }
    {
        SpelledRecords { left, rest }
    }

    /// The number of remaining records.
    pub fn len(&self) -> usize
        ensures { result ≡ length self.now }
    {
        self.left
    }

    /// Whether no record remains.
    pub fn is_empty(&self) -> bool
        ensures { result ≡ (length self.now == 0) }
    {
        self.len() == 0
    }

    /// A copy of the iterator at its current position.
    pub fn copy(&self) -> SpelledRecords<'a>
        ensures { result ≡ self.now }
    {
        SpelledRecords {
            left: self.left,
            rest: self.rest,
        }
    }

    /// Takes the next record, if there is one.
    pub fn next(&mut self) -> Option<SpelledRecord<'a>>
        ensures next { MatchOption result (self.old ≡ [])
            (λ format. self.old ≡ (format.prefix.now, format.fields) ∷ self.new) }
        ensures name { IfSome result (λ format. may_be_prefix format.prefix.now ≡ true) }
    {
        if self.left == 0 {
            return None;
        }
        if self.left == 1 {
            self.left = 0;
            return Some(last_record(self.rest));
        }
        let (format, rest) = first_record(self.rest);
        self.left -= 1;
        self.rest = rest;
        Some(format)
    }
}
