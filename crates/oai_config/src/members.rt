ghost use Rattle.std.specs.Prelude.{map};
ghost use Rattle.serde_json.specs.Find.{as_str};
ghost use Rattle.serde_json.specs.View.{view};
ghost use Rattle.oai_names.specs.Optional.{each_of};
ghost use Rattle.oai_json.specs.Json as json;
ghost use Rattle.oai_xml.specs.Documents.{canonical_in};
ghost use Rattle.oai_config.specs.Shapes.{canonical_at, canonical_of};
ghost use Rattle.oai_config.specs.ReadingWork.{GivesRead, GivesView, two_texts};

use crate::faults::ReadFault;
use oai_json::{elements_at, number_at, text_at};
use oai_names::{Sequence, Text};
use oai_xml::{ElementTexts, XmlFault};
use serde_json::Value;
use std::alloc::Global;

/// A copy of the text of the member with that name; `BadShape` if there is no such string.
pub(crate) fn read_text(alloc: Global, value: &Value, name: &str) -> Result<Text, ReadFault>
    ensures { GivesRead result (json.text_at name.now (view value.now)) }
{
    match text_at(value, name) {
        Some(text) => Ok(Text::new(alloc, text)?),
        None => Err(ReadFault::BadShape),
    }
}

/// A copy of the texts of the members with two names; `BadShape` if one of them is not a string.
pub(crate) fn read_two(
    alloc: Global,
    value: &Value,
    first: &str,
    second: &str,
) -> Result<(Text, Text), ReadFault>
    ensures { GivesRead result (two_texts first.now second.now (view value.now)) }
{
    let first = read_text(alloc, value, first)?;
    let second = read_text(alloc, value, second)?;
    Ok((first, second))
}

/// The number of the member with that name, `None` if it is not whole, is negative, or does not fit 64 bits; `BadShape`
/// if there is no such number.
pub(crate) fn read_number(value: &Value, name: &str) -> Result<Option<u64>, ReadFault>
    ensures { GivesView (λ number. number) result (json.number_at name.now (view value.now)) }
{
    match number_at(value, name) {
        Some(number) => Ok(number),
        None => Err(ReadFault::BadShape),
    }
}

/// A copy of the texts of the member with that name; `BadShape` if there is no such list of strings.
#[tactic(auto, unfolding(oai_json::specs::Json::texts_at))]
pub(crate) fn read_texts(
    alloc: Global,
    value: &Value,
    name: &str,
) -> Result<Sequence<Text>, ReadFault>
    ensures { GivesRead result (json.texts_at name.now (view value.now)) }
{
    match elements_at(value, name) {
        Some(values) => texts_in(alloc, values),
        None => Err(ReadFault::BadShape),
    }
}

/// A copy of the text of each string; `BadShape` at the first value that is none.
#[tactic(auto, using(oai_json::proofs::ReadingLemmas::starts))]
fn texts_in(alloc: Global, values: &[Value]) -> Result<Sequence<Text>, ReadFault>
    ensures { GivesRead result (each_of as_str (map view values.now)) }
{
    let mut texts = Vec::new(alloc);
    for value in values {
        let Some(text) = value.as_str() else {
            return Err(ReadFault::BadShape);
        };
        texts.push(Text::new(alloc, text)?)?;
    }
    Ok(Sequence::new(texts))
}

/// The elements that the texts of the member with that name are; `BadShape` if there is no such list of strings, or one of
/// them is no element.
#[tactic(auto, unfolding(crate::specs::Shapes::canonical_at))]
pub(crate) fn read_elements(
    alloc: Global,
    value: &Value,
    name: &str,
) -> Result<ElementTexts, ReadFault>
    ensures { GivesRead result (canonical_at name.now (view value.now)) }
{
    let texts = read_texts(alloc, value, name)?;
    elements_of(alloc, texts.as_slice())
}

/// The elements that the texts are; `BadShape` if one of them is none.
pub(crate) fn elements_of(alloc: Global, texts: &[Text]) -> Result<ElementTexts, ReadFault>
    ensures { GivesRead result (each_of canonical_in texts.now) }
{
    match ElementTexts::read(alloc, texts) {
        Ok(elements) => Ok(elements),
        Err(XmlFault::Refused { .. }) => Err(ReadFault::BadShape),
        Err(XmlFault::NoMemory) => Err(ReadFault::NoMemory),
    }
}

/// The elements that the texts of a list are; `BadShape` for any other value, or if a text is none.
#[tactic(auto, unfolding(crate::specs::Shapes::canonical_of))]
pub(crate) fn elements_in(alloc: Global, value: &Value) -> Result<ElementTexts, ReadFault>
    ensures { GivesRead result (canonical_of (view value.now)) }
{
    let Some(values) = oai_json::elements_of(value) else {
        return Err(ReadFault::BadShape);
    };
    let texts = texts_in(alloc, values)?;
    elements_of(alloc, texts.as_slice())
}
