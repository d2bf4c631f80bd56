//! The records of a deposit, of which the elements are read; the texts of their fields.

ghost use Rattle.std.specs.Prelude.{◌≡◌, true, ℕ, List, Ok, IfOk, map};
ghost use Rattle.std.specs.List.{list_all};
ghost use Rattle.oai_names.specs.Characters.{is_xml_text};
ghost use Rattle.oai_item.specs.Elements.{element_field, is_about};
ghost use Rattle.oai_item.specs.Givens.{GivenRecord, IsNoted, IsNotedContent, field_texts, kept, noted_given, noted_record};
ghost use Rattle.oai_deposit.specs.Calls.{Anywhere, has_xml_fields, have_xml_fields};
ghost use Rattle.oai_deposit.specs.Lines as lines;
ghost use Rattle.oai_deposit.specs.Lines.{LineAbout};
ghost use Rattle.oai_deposit.specs.Readings.{GivesBy, ReturnsReading};

use crate::about_texts::AboutTexts;
use crate::deposit_texts::RecordTexts;
use crate::faults::LineFault;
use oai_item::{Field, Given, LineRefusal, Note, Records};
use oai_names::{Sequence, Text, is_xml_text};
use oai_xml::{ElementText, Root, XmlFault};
use std::alloc::{AllocError, Global};

/// The records and what is about them, with the canonical text of each element. The error is `BadXml` at the first text
/// that is no element, of a record before those about it, or out of memory.
pub(crate) fn read_elements(
    alloc: Global,
    texts: RecordTexts,
    abouts: &AboutTexts<'_>,
) -> Result<Records, LineFault>
    ensures { ReturnsReading Anywhere result (lines.elements_read (lines.with_abouts texts abouts.now)) }
{
    let mut records = Vec::new(alloc);
    let mut notes = Vec::new(alloc);
    for (prefix, given) in texts.into_vec() {
        let about = abouts.texts(alloc, prefix.as_str())?;
        let (fields, note) = kept(alloc, given, about)?;
        records.push((prefix, fields))?;
        notes.push(note)?;
    }
    Ok(Records::new(Sequence::new(records), Sequence::new(notes)))
}

/// What is given as an item keeps it, with the elements about it behind it, and what is noted of it.
fn kept(alloc: Global, given: Given, about: Vec<&str>) -> Result<(Sequence<Field>, Note), LineFault>
    ensures given { (prefix : List ℕ) → GivesBy (λ kept. noted_record (prefix, kept.0) kept.1) Anywhere result
        (lines.record_read (prefix, given, map (λ text. text.now) about.entry.items)) }
    ensures noted { IfOk result (λ kept. IsNoted kept.0 kept.1) }
{
    let (mut fields, root) = own_fields(alloc, given)?;
    let mut elements = about_fields(alloc, about.as_slice())?;
    let count = elements.len();
    fields.append(&mut elements)?;
    let note = Note { root, about: count };
    Ok((Sequence::new(fields), note))
}

/// What is given as an item keeps it, and the root of an element.
fn own_fields(alloc: Global, given: Given) -> Result<(Vec<Field>, Option<Root>), LineFault>
    ensures given { GivesBy (λ own. noted_given own.0.items own.1) Anywhere result
        (lines.given_element given) }
    ensures noted { IfOk result (λ own. IsNotedContent own.0.items own.1) }
{
    match given {
        Given::Listed(fields) => Ok((fields.into_vec(), None)),
        Given::Whole(text) => element_fields(alloc, text),
    }
}

/// The element that the text is, as an item keeps it, and its root.
fn element_fields(alloc: Global, text: Text) -> Result<(Vec<Field>, Option<Root>), LineFault>
    ensures given { GivesBy (λ own. noted_given own.0.items own.1) Anywhere result
        (lines.as_given (lines.element_read text)) }
    ensures noted { IfOk result (λ own. IsNotedContent own.0.items own.1) }
{
    let element = element_of(alloc, text.as_str())?;
    let root = Root::of(alloc, element.as_str())?;
    let mut fields = Vec::with_capacity(alloc, 1)?;
    fields.push(field_of(alloc, element)?)?;
    Ok((fields, Some(root)))
}

/// The elements that the texts are, in order, each as an item keeps it. The error is `BadXml` at the first that is none,
/// or out of memory.
fn about_fields(alloc: Global, texts: &[&str]) -> Result<Vec<Field>, LineFault>
    ensures texts { GivesBy (λ fields. field_texts fields.items) Anywhere result
        (lines.about_read (map (λ text. text.now) texts.now)) }
    ensures about { IfOk result (λ fields. list_all is_about fields.items ≡ true) }
{
    let mut fields = Vec::new(alloc);
    for text in texts {
        let about = element_of(alloc, text)?;
        fields.push(field_of(alloc, about)?)?;
    }
    Ok(fields)
}

/// The element as an item keeps it. The error is out of memory.
fn field_of(alloc: Global, element: ElementText) -> Result<Field, AllocError>
    ensures { IfOk result (λ field. field ≡ element_field element) }
{
    Ok(Field {
        name: Text::new(alloc, "")?,
        text: element.into_text(),
    })
}

/// The element that the text is. The error is `BadXml` at the byte of its first fault, or out of memory.
fn element_of(alloc: Global, text: &str) -> Result<ElementText, LineFault>
    ensures { ReturnsReading Anywhere result (lines.element_read text.now) }
{
    match ElementText::read(alloc, text) {
        Ok(element) => Ok(element),
        Err(XmlFault::Refused { offset, .. }) => {
            Err(LineFault::Refused(LineRefusal::BadXml(offset)))
        }
        Err(XmlFault::NoMemory) => Err(LineFault::NoMemory),
    }
}

/// Whether each text of each field of a record that is a list may stand in an XML document. That of an element may: it is
/// read of XML's characters.
pub(crate) fn have_xml_texts(texts: &RecordTexts) -> bool
    ensures { (abouts : List LineAbout) (read : List GivenRecord)
        → lines.elements_read (lines.with_abouts texts.now abouts) ≡ Ok read
        → lines.have_xml_texts (map kept read) ≡ result }
{
    have_xml_fields(texts.as_slice())
}

/// Whether each text of each field of these may stand in an XML document.
fn have_xml_fields(records: &[(Text, Given)]) -> bool
    ensures { result ≡ have_xml_fields records.now }
{
    records.iter().all(|record| has_xml_fields(&record.1))
}

/// Whether the text of each field may stand in an XML document, if fields are given.
fn has_xml_fields(given: &Given) -> bool
    ensures { result ≡ has_xml_fields given.now }
{
    match given {
        Given::Listed(fields) => are_xml_texts(fields.as_slice()),
        Given::Whole(_) => true,
    }
}

/// Whether the text of each field may stand in an XML document.
fn are_xml_texts(fields: &[Field]) -> bool
    ensures { result ≡ list_all (λ field. is_xml_text field.text) fields.now }
{
    fields.iter().all(|field| is_xml_text(field.text.as_str()))
}
