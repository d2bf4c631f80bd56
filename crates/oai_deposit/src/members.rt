ghost use Rattle.std.specs.Prelude.{◌≡◌, true, map, is_some};
ghost use Rattle.serde_json.specs.Find.{as_str};
ghost use Rattle.serde_json.specs.View.{view};
ghost use Rattle.oai_item.specs.declared.refusals.LineRefusal.TheVariants.{BadCommand};
ghost use Rattle.oai_names.specs.Optional.{each_of};
ghost use Rattle.oai_deposit.specs.Calls.{Anywhere};
ghost use Rattle.oai_json.specs.Json as json;
ghost use Rattle.oai_deposit.specs.Readings.{FindsBy};

use crate::faults::LineFault;
use oai_item::LineRefusal;
use oai_json::{elements_at, text_at};
use serde_json::Value;
use std::alloc::Global;

/// The text of the member with that name; `BadCommand` if there is no such string.
pub(crate) fn command_text<'v>(value: &'v Value, name: &str) -> Result<&'v str, LineFault>
    ensures { FindsBy BadCommand (λ text. text.now) ⊥ result (json.text_at name.now (view value.now)) }
{
    match text_at(value, name) {
        Some(text) => Ok(text),
        None => Err(LineFault::Refused(LineRefusal::BadCommand)),
    }
}

/// The texts of the member with that name; `BadCommand` if there is no such array of strings.
#[tactic(auto, unfolding(oai_json::specs::Json::texts_at))]
pub(crate) fn texts_at<'v>(
    alloc: Global,
    value: &'v Value,
    name: &str,
) -> Result<Vec<&'v str>, LineFault>
    ensures { FindsBy BadCommand (λ texts. map (λ text. text.now) texts.items)
        (is_some (json.elements_at name.now (view value.now)) ≡ true) result
        (json.texts_at name.now (view value.now)) }
{
    match elements_at(value, name) {
        Some(values) => texts_in(alloc, values),
        None => Err(LineFault::Refused(LineRefusal::BadCommand)),
    }
}

/// The text of each string; `BadCommand` at the first value that is none.
#[tactic(auto, using(oai_json::proofs::ReadingLemmas::starts))]
pub(crate) fn texts_in(alloc: Global, values: &[Value]) -> Result<Vec<&str>, LineFault>
    ensures { FindsBy BadCommand (λ texts. map (λ text. text.now) texts.items) Anywhere result
        (each_of as_str (map view values.now)) }
{
    let mut texts = Vec::new(alloc);
    for value in values {
        texts.push(text_of(value)?)?;
    }
    Ok(texts)
}

/// The text of a string; `BadCommand` for any other value.
pub(crate) fn text_of(value: &Value) -> Result<&str, LineFault>
    ensures { FindsBy BadCommand (λ text. text.now) ⊥ result (as_str (view value.now)) }
{
    match value.as_str() {
        Some(text) => Ok(text),
        None => Err(LineFault::Refused(LineRefusal::BadCommand)),
    }
}
