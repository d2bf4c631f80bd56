//! Deposits that are read from the tokens of their line, without making a JSON value: those with the member `deposit`
//! first, then `sets` and `records` in either order (a dump has `records` first), under rising prefixes, and no other.

ghost use Rattle.std.specs.Prelude.{◌≡◌, [], ◌∷◌, ◌++◌, map, true, IfSome};
ghost use Rattle.std.specs.List.{flat_map};
ghost use Rattle.std.specs.Str.{IsUtf8};
ghost use Rattle.json.specs.Token as token;
ghost use Rattle.oai_item.specs.Item.{are_rising};
ghost use Rattle.oai_item.specs.declared.givens.Given.TheVariants.{Whole};
ghost use Rattle.oai_deposit.specs.Lines.{are_records_of, is_of_forms};
ghost use Rattle.oai_deposit.specs.Tokens as tokens;

use crate::about_texts::AboutTexts;
use crate::deposit_texts::{DepositTexts, RecordTexts};
use crate::records::field_from;
use json::{Reader, Scratch, Token};
use oai_item::{Field, Forms, Given};
use oai_json::{
    take_begin_array, take_begin_object, take_end_object, take_key, take_text, take_texts,
};
use oai_names::{Sequence, Text};
use std::alloc::Global;

/// The initial capacity for the fields of a record, enough for most records.
const USUAL_FIELDS: usize = 8;

/// The texts of the deposit in the line, with records of these forms. `None` says nothing about the line: it may be a
/// deposit in another order or with `about`, any other line, or memory ran out.
pub(crate) fn read_deposit<'a>(
    alloc: Global,
    forms: Forms,
    line: &'a str,
    scratch: &'a mut Scratch,
) -> Option<DepositTexts<'a>>
    requires { IsUtf8 line.now }
    ensures line { IfSome result (λ texts. tokens.IsDepositLine forms line.now
        texts.identifier.now (map (λ set. set.now) texts.sets.items) texts.records) }
    ensures alone { IfSome result (λ texts. texts.abouts ≡ []) }
{
    let mut reader = Reader::new(line, scratch).ok()?;
    let texts = take_deposit(alloc, forms, &mut reader)?;
    if reader.next().is_some() {
        return None;
    }
    Some(texts)
}

/// Reads the next deposit.
fn take_deposit<'a>(
    alloc: Global,
    forms: Forms,
    reader: &mut Reader<'a>,
) -> Option<DepositTexts<'a>>
    ensures formed { IfSome result (λ texts. are_records_of forms texts.records ≡ true) }
    ensures taken { IfSome result (λ texts. tokens.IsDepositBefore texts.identifier.now
        (map (λ set. set.now) texts.sets.items) texts.records reader.new reader.old) }
    ensures alone { IfSome result (λ texts. texts.abouts ≡ []) }
{
    take_begin_object(reader)?;
    take_key(reader, "deposit")?;
    let identifier = take_text(reader)?;
    let (sets, records) = take_parts(alloc, forms, reader)?;
    take_end_object(reader)?;
    Some(DepositTexts {
        identifier,
        sets,
        records,
        abouts: AboutTexts::none(),
    })
}

/// Reads the next two members, `sets` and `records` in either order.
fn take_parts<'a>(
    alloc: Global,
    forms: Forms,
    reader: &mut Reader<'a>,
) -> Option<(Vec<&'a str>, RecordTexts)>
    ensures formed { IfSome result (λ parts. are_records_of forms parts.1 ≡ true) }
    ensures taken { IfSome result (λ parts. tokens.ArePartsBefore
        (map (λ set. set.now) parts.0.items) parts.1 reader.new reader.old) }
{
    match reader.next_key().ok()?? {
        "sets" => {
            let sets = take_texts(alloc, reader)?;
            take_key(reader, "records")?;
            Some((sets, take_records(alloc, forms, reader)?))
        }
        "records" => {
            let records = take_records(alloc, forms, reader)?;
            take_key(reader, "sets")?;
            Some((take_texts(alloc, reader)?, records))
        }
        _ => None,
    }
}

/// Reads the next object of records, whose prefixes rise.
fn take_records(alloc: Global, forms: Forms, reader: &mut Reader<'_>) -> Option<RecordTexts>
    ensures formed { IfSome result (λ records. are_records_of forms records ≡ true) }
    ensures taken { IfSome result (λ records. reader.old
        ≡ tokens.records_tokens records ++ reader.new) }
{
    take_begin_object(reader)?;
    let mut records = Vec::new(alloc);
    add_records(alloc, forms, reader, &mut records)?;
    Some(RecordTexts::new(Sequence::new(records)))
}

/// Reads the records, whose prefixes rise, and the brace after them, into an empty list.
fn add_records(
    alloc: Global,
    forms: Forms,
    reader: &mut Reader<'_>,
    records: &mut Vec<(Text, Given)>,
) -> Option<()>
    requires { records.old.items ≡ [] }
    ensures formed { IfSome result (λ _. are_records_of forms records.new.items ≡ true) }
    ensures taken { IfSome result (λ _. reader.old
        ≡ flat_map tokens.record_tokens records.new.items ++ token.Token.end_object ∷ reader.new) }
    ensures rising { IfSome result (λ _. are_rising records.new.items ≡ true) }
{
    while let Some(prefix) = reader.next_key().ok()? {
        if !may_follow(records.as_slice(), prefix) {
            return None;
        }
        let prefix = Text::new(alloc, prefix).ok()?;
        records
            .push((prefix, take_given(alloc, forms, reader)?))
            .ok()?;
    }
    Some(())
}

/// Whether the prefix follows the last one.
fn may_follow(records: &[(Text, Given)], prefix: &str) -> bool
    ensures { result ≡ tokens.may_follow records.now prefix.now }
{
    match records.last() {
        Some(last) => last.0.as_str() < prefix,
        None => true,
    }
}

/// Reads the next array of fields, or the next text, if a record may be an element.
fn take_given(alloc: Global, forms: Forms, reader: &mut Reader<'_>) -> Option<Given>
    ensures formed { IfSome result (λ given. is_of_forms forms given ≡ true) }
    ensures taken { IfSome result (λ given. reader.old ≡ tokens.given_tokens given ++ reader.new) }
{
    match reader.next()? {
        Token::BeginArray => Some(Given::Listed(take_fields(alloc, reader)?)),
        Token::String(text) => taken_element(alloc, forms, text),
        _ => None,
    }
}

/// The text as one that is to be an element, if a record may be one.
fn taken_element(alloc: Global, forms: Forms, text: &str) -> Option<Given>
    ensures formed { IfSome result (λ given. is_of_forms forms given ≡ true) }
    ensures whole { IfSome result (λ given. given ≡ Whole text.now) }
{
    match forms {
        Forms::Fields => None,
        Forms::Elements => Some(Given::Whole(Text::new(alloc, text).ok()?)),
    }
}

/// Reads the fields of an array and the bracket after them.
fn take_fields(alloc: Global, reader: &mut Reader<'_>) -> Option<Sequence<Field>>
    ensures { IfSome result (λ fields. reader.old
        ≡ flat_map tokens.field_tokens fields ++ token.Token.end_array ∷ reader.new) }
{
    let mut fields = Vec::with_capacity(alloc, USUAL_FIELDS).ok()?;
    while !reader.take_end_array() {
        fields.push(take_field(alloc, reader)?).ok()?;
    }
    Some(Sequence::new(fields))
}

/// Reads the next field, `[NAME,TEXT]`.
fn take_field(alloc: Global, reader: &mut Reader<'_>) -> Option<Field>
    ensures { IfSome result (λ field. reader.old ≡ tokens.field_tokens field ++ reader.new) }
{
    take_begin_array(reader)?;
    let name = take_text(reader)?;
    let text = take_text(reader)?;
    if !reader.take_end_array() {
        return None;
    }
    field_from(alloc, name, text).ok()
}
