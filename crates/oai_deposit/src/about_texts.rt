ghost use Rattle.std.specs.Prelude.{◌≡◌, [], List, codes, is_some, map, option_map, string_bytes, Ok, Some};
ghost use Rattle.std.specs.List.{list_all};
ghost use Rattle.serde_json.specs.Find.{as_str, get};
ghost use Rattle.serde_json.specs.View.{view};
ghost use Rattle.oai_names.specs.Optional.{each_of, tested};
ghost use Rattle.oai_item.specs.declared.forms.Forms.{Forms};
ghost use Rattle.oai_item.specs.declared.refusals.LineRefusal.TheVariants.{BadCommand};
ghost use Rattle.oai_deposit.specs.Calls.{Anywhere, list_there, texts_if_there};
ghost use Rattle.oai_deposit.specs.Lines as lines;
ghost use Rattle.oai_deposit.specs.Lines.{LineAbout, LineRecord};
ghost use Rattle.oai_deposit.specs.Readings.{Finds, FindsBy, GivesBy};

use crate::faults::LineFault;
use crate::members::texts_in;
use oai_item::LineRefusal;
use oai_json::elements_of;
use serde_json::Value;
use std::alloc::Global;
use std::collections::BTreeMap;
use std::marker::Model;

/// What a line gives about records: texts that are to be elements, under the prefixes of the records. They are read in
/// place, in the line's JSON value.
#[derive(Drop)]
pub(crate) struct AboutTexts<'a> {
    member: Option<&'a Value>,
}

impl<'a> Model for AboutTexts<'a> {
    ghost use Rattle.std.specs.Prelude.{◌≡◌, true, List, is_some, option_map};
    ghost use Rattle.serde_json.specs.View as json;
    ghost use Rattle.oai_deposit.specs.Calls.{those_there};
    ghost use Rattle.oai_deposit.specs.Lines.{LineAbout, abouts_if_there};

    ghost Value = { List LineAbout };

    ghost view = { λ a. those_there (abouts_if_there (option_map (λ member. json.view member.now) a.member)) };

    ghost invariant = { λ a. is_some (abouts_if_there (option_map (λ member. json.view member.now) a.member)) ≡ true };
}

impl<'a> AboutTexts<'a> {
    /// Nothing about any record.
    pub(crate) fn none() -> AboutTexts<'a>
        ensures { result ≡ [] }
    {
        AboutTexts { member: None }
    }

    /// Those of the member `about` of an object, which may be missing; `None` if it is no object of lists of strings.
    fn of(value: &'a Value) -> Option<AboutTexts<'a>>
        ensures { lines.abouts_if_there (get (codes "about") (view value.now)) ≡ result }
    {
        match value.get("about") {
            Some(member) => AboutTexts::within(member),
            None => Some(AboutTexts::none()),
        }
    }

    /// Those of that member.
    #[tactic(auto, using(crate::proofs::AboutLemmas::those_are, crate::proofs::AboutLemmas::none_are))]
    fn within(member: &'a Value) -> Option<AboutTexts<'a>>
        ensures { lines.abouts_of (view member.now) ≡ result }
    {
        if are_abouts(member) {
            Some(AboutTexts {
                member: Some(member),
            })
        } else {
            None
        }
    }

    /// Whether each prefix is the name of a member of that object.
    fn are_under(&self, records: &Value) -> bool
        ensures { result ≡ list_all (λ about. is_some (get about.0 (view records.now))) self.now }
    {
        match self.member {
            Some(member) => are_names_under(member, records),
            None => true,
        }
    }

    /// The texts about the record with that prefix, in order. The error is out of memory.
    pub(crate) fn texts(&self, alloc: Global, prefix: &str) -> Result<Vec<&'a str>, LineFault>
        ensures { GivesBy (λ texts. map (λ text. text.now) texts.items) Anywhere result
            (Ok (lines.texts_about self.now prefix.now)) }
    {
        texts_under(alloc, self.member, prefix)
    }
}

/// What a value gives about its records; `BadCommand` if its member `about` is no object of lists of strings, or names a
/// prefix that no record has.
pub(crate) fn abouts_at(value: &Value) -> Result<AboutTexts<'_>, LineFault>
    ensures { (forms : Forms) (records : List LineRecord) → lines.records_at forms (view value.now) ≡ Some records
        → Finds ⊥ result (lines.abouts_at records (view value.now)) }
{
    match AboutTexts::of(value) {
        Some(abouts) => abouts_of_records(abouts, value),
        None => Err(LineFault::Refused(LineRefusal::BadCommand)),
    }
}

/// What is given about records, if it is about those of the value.
fn abouts_of_records<'a>(abouts: AboutTexts<'a>, value: &Value) -> Result<AboutTexts<'a>, LineFault>
    ensures { (forms : Forms) (records : List LineRecord) → lines.records_at forms (view value.now) ≡ Some records
        → Finds ⊥ result (tested (lines.are_about_records records) abouts.entry) }
{
    match value.get("records") {
        Some(records) => abouts_under(abouts, records),
        None => Err(LineFault::Refused(LineRefusal::BadCommand)),
    }
}

/// What is given about records, if each prefix is the name of a member of that object.
fn abouts_under<'a>(abouts: AboutTexts<'a>, records: &Value) -> Result<AboutTexts<'a>, LineFault>
    ensures { Finds ⊥ result (tested (list_all (λ about. is_some (get about.0 (view records.now)))) abouts.entry) }
{
    if abouts.are_under(records) {
        Ok(abouts)
    } else {
        Err(LineFault::Refused(LineRefusal::BadCommand))
    }
}

/// Whether the value is an object of lists of strings.
#[tactic(auto, unfolding(crate::specs::Lines::abouts_of))]
fn are_abouts(value: &Value) -> bool
    ensures { result ≡ is_some (lines.abouts_of (view value.now)) }
{
    match value {
        Value::Object(members) => are_text_lists(members),
        _ => false,
    }
}

/// Whether each member is a list of strings.
fn are_text_lists(members: &BTreeMap<String, Value>) -> bool
    ensures { result ≡ is_some (each_of lines.about_of (map (λ m. (string_bytes m.0, view m.1)) members.now.entries)) }
{
    for (_, texts) in members.iter() {
        if !is_text_list(texts) {
            return false;
        }
    }
    true
}

/// Whether the value is a list of strings.
#[tactic(auto, unfolding(crate::specs::Lines::text_list_of))]
fn is_text_list(value: &Value) -> bool
    ensures { result ≡ is_some (lines.text_list_of (view value.now)) }
{
    match elements_of(value) {
        Some(values) => are_texts(values),
        None => false,
    }
}

/// Whether each value is a string.
fn are_texts(values: &[Value]) -> bool
    ensures { result ≡ list_all (λ value. is_some (as_str (view value))) values.now }
{
    values.iter().all(|value| value.as_str().is_some())
}

/// Whether each prefix under which the value gives something is the name of a member of the object.
fn are_names_under(about: &Value, object: &Value) -> bool
    ensures { (abouts : List LineAbout) → lines.abouts_of (view about.now) ≡ Some abouts
        → result ≡ list_all (λ a. is_some (get a.0 (view object.now))) abouts }
{
    match about.as_object() {
        Some(members) => are_names_in(members, object),
        None => true,
    }
}

/// Whether each name is that of a member of the object.
fn are_names_in(members: &BTreeMap<String, Value>, object: &Value) -> bool
    ensures { result ≡ list_all (λ m. is_some (get (string_bytes m.0) (view object.now))) members.now.entries }
{
    for (name, _) in members.iter() {
        if object.get(name.as_str()).is_none() {
            return false;
        }
    }
    true
}

/// The texts of the list under that name, in order; none if there is no such list.
fn texts_under<'a>(
    alloc: Global,
    member: Option<&'a Value>,
    name: &str,
) -> Result<Vec<&'a str>, LineFault>
    ensures { FindsBy BadCommand (λ texts. map (λ text. text.now) texts.items) Anywhere result
        (texts_if_there (option_map (λ member. view member.now) member.entry) name.now) }
{
    match list_under(member, name) {
        Some(list) => text_list_of(alloc, list),
        None => Ok(Vec::new(alloc)),
    }
}

/// The member with that name of the object.
fn list_under<'a>(object: Option<&'a Value>, name: &str) -> Option<&'a Value>
    ensures { option_map (λ list. view list.now) result ≡ list_there (option_map (λ member. view member.now) object.entry) name.now }
{
    match object {
        Some(value) => value.get(name),
        None => None,
    }
}

/// The texts of a list of strings; `BadCommand` for any other value.
#[tactic(auto, unfolding(crate::specs::Lines::text_list_of))]
fn text_list_of(alloc: Global, value: &Value) -> Result<Vec<&str>, LineFault>
    ensures { FindsBy BadCommand (λ texts. map (λ text. text.now) texts.items) Anywhere result
        (lines.text_list_of (view value.now)) }
{
    match elements_of(value) {
        Some(values) => texts_in(alloc, values),
        None => Err(LineFault::Refused(LineRefusal::BadCommand)),
    }
}
