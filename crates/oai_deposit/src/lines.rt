ghost use Rattle.std.specs.Prelude.{◌≡◌, ℕ, List, Ok, true, map, is_some};
ghost use Rattle.std.specs.List.{list_all};
ghost use Rattle.std.specs.Str.{IsUtf8};
ghost use Rattle.serde_json.specs.View.{view};
ghost use Rattle.oai_names.specs.Names.{may_be_identifier};
ghost use Rattle.oai_names.specs.Optional.{each_of, tested};
ghost use Rattle.oai_names.specs.Sets.{may_be_set_spec};
ghost use Rattle.oai_item.specs.Givens.{GivenRecord};
ghost use Rattle.oai_item.specs.ShortTexts.{is_short_text};
ghost use Rattle.oai_deposit.specs.declared.changes.Change.TheVariants as change;
ghost use Rattle.oai_item.specs.declared.forms.Forms.TheVariants.{Fields};
ghost use Rattle.oai_item.specs.declared.refusals.LineRefusal.TheVariants.{BadIdentifier, BadSetSpec, BadText};
ghost use Rattle.oai_deposit.specs.Calls.{Anywhere, has_command_members};
ghost use Rattle.oai_json.specs.Json as json;
ghost use Rattle.oai_deposit.specs.Lines as lines;
ghost use Rattle.oai_deposit.specs.Readings.{FindsBy, ReturnsReading, passed};
ghost use Rattle.oai_deposit.specs.Shapes.{ShapeLaw};

use crate::about_texts::abouts_at;
use crate::changes::Change;
use crate::deposit_texts::DepositTexts;
use crate::faults::LineFault;
use crate::given_elements::{have_xml_texts, read_elements};
use crate::members::{command_text, texts_at};
use crate::records::records_at;
use crate::tokens::read_deposit;
use json::Scratch;
use oai_item::{Forms, LineRefusal, Records, is_short_text};
use oai_json::{has_members, has_members_and, read_json_text};
use oai_names::{Identifier, NameFault, Sequence, SetSpec, Text};
use serde_json::Value;
use std::alloc::Global;

/// Reads one line of a deposit, without its line end: a JSON object (RFC 8259) with exactly the members of a command.
/// A record is a list of fields or, if the forms say so, a text that is an XML element, and is then given by its canonical
/// text; so is what may be given about it. The errors, in this order: `BadJson`, `BadCommand`, `BadXml`, `BadIdentifier`, `BadSetSpec`, `BadText`, each for
/// the whole line before the next; and at any point `NoMemory`, but not for a line that is empty or not in UTF-8. Of two members
/// with one name the last counts. A deposit of `deposit`, and then `sets` and `records` in either order, and no
/// other, under rising prefixes, is read without making a JSON value of it; each text of a line is copied from the parser's result at most
/// once.
#[tactic(auto, using(crate::proofs::LineLemmas::no_text))]
pub fn read_line(alloc: Global, forms: Forms, line: &[u8]) -> Result<Change, LineFault>
    ensures { ReturnsReading (json.TakesMemory line.now) result (lines.line_of forms line.now) }
{
    match str::from_utf8(line) {
        Ok(text) => read_text(alloc, forms, text),
        Err(_) => Err(LineFault::Refused(LineRefusal::BadJson)),
    }
}

/// Reads a line in UTF-8.
fn read_text(alloc: Global, forms: Forms, line: &str) -> Result<Change, LineFault>
    requires { IsUtf8 line.now }
    ensures { ReturnsReading (json.TakesMemory line.now) result (lines.line_of forms line.now) }
{
    let mut scratch = Scratch::new(alloc);
    match read_deposit(alloc, forms, line, &mut scratch) {
        Some(texts) => deposit_from(alloc, texts),
        None => read_any(alloc, forms, line),
    }
}

/// Reads a line of any command, with its members in any order, by its JSON value.
#[tactic(auto, using(crate::proofs::LineLemmas::takes))]
fn read_any(alloc: Global, forms: Forms, line: &str) -> Result<Change, LineFault>
    requires { IsUtf8 line.now }
    ensures { ReturnsReading (json.TakesMemory line.now) result (lines.line_of forms line.now) }
{
    match read_json_text(alloc, line)? {
        Some(value) => read_value(alloc, forms, &value),
        None => Err(LineFault::Refused(LineRefusal::BadJson)),
    }
}

/// The law of the shapes: a value has the shape of a command exactly if it is the JSON object of the command, and is
/// refused as no command exactly if it is none of these objects, for records of each of the forms. A theorem, proved by an empty function.
pub fn shape_law()
    ensures { ShapeLaw }
{}

/// The law of the forms: with `Fields` no line deposits an element, or anything about a record, and none is a put. A theorem, proved by an empty
/// function.
pub fn forms_law()
    ensures lists { (line identifier : List ℕ) (specs : List (List ℕ)) (given : List GivenRecord)
        → lines.line_of Fields line ≡ Ok (change.Deposit identifier specs given)
        → lines.are_of_forms Fields given ≡ true }
    ensures no_put { (line identifier : List ℕ) (specs : List (List ℕ)) (given : List GivenRecord)
        → lines.line_of Fields line ≡ Ok (change.Put identifier specs given) → ⊥ }
{}

/// The change that the value requests, by the shape that its members have.
#[tactic(auto, unfolding(crate::specs::Lines::shape_of))]
fn read_value(alloc: Global, forms: Forms, value: &Value) -> Result<Change, LineFault>
    ensures { ReturnsReading (has_command_members forms (view value.now) ≡ true) result
        (lines.change_asked (lines.shape_of forms (view value.now))) }
{
    if has_deposit_members(forms, value) {
        deposit_of(alloc, forms, value)
    } else if has_members(value, &["delete"]) {
        deletion_of(alloc, value)
    } else if has_members(value, &["purge"]) {
        purge_of(alloc, value)
    } else if has_members(value, &["set", "name"]) {
        new_set_of(alloc, value)
    } else if has_put_members(forms, value) {
        put_of(alloc, forms, value)
    } else {
        Err(LineFault::Refused(LineRefusal::BadCommand))
    }
}

/// Whether the value is an object with exactly the members of a deposit, of which `about` may be missing, and is where no
/// record may be an element.
fn has_deposit_members(forms: Forms, value: &Value) -> bool
    ensures { result ≡ lines.has_deposit_members forms (view value.now) }
{
    let members = ["deposit", "sets", "records"];
    match forms {
        Forms::Fields => has_members_and(value, &members, &[]),
        Forms::Elements => has_members_and(value, &members, &["about"]),
    }
}

/// Whether the value is an object with exactly the members of a put, of which `about` may be missing, and a record may be
/// an element.
fn has_put_members(forms: Forms, value: &Value) -> bool
    ensures { result ≡ lines.has_put_members forms (view value.now) }
{
    match forms {
        Forms::Fields => false,
        Forms::Elements => has_members_and(value, &["put", "sets", "records"], &["about"]),
    }
}

/// The deposit of an object with its members. The whole shape is read before its texts are tested.
#[tactic(auto, unfolding(crate::specs::Lines::deposit_shape))]
fn deposit_of(alloc: Global, forms: Forms, value: &Value) -> Result<Change, LineFault>
    ensures { ReturnsReading Anywhere result (lines.change_asked (lines.deposit_shape forms (view value.now))) }
{
    let identifier = command_text(value, "deposit")?;
    let sets = texts_at(alloc, value, "sets")?;
    let records = records_at(alloc, forms, value)?;
    let abouts = abouts_at(value)?;
    let texts = DepositTexts {
        identifier,
        sets,
        records,
        abouts,
    };
    deposit_from(alloc, texts)
}

/// The put of an object with its members. The whole shape is read before its texts are tested.
#[tactic(auto, unfolding(crate::specs::Lines::put_shape))]
fn put_of(alloc: Global, forms: Forms, value: &Value) -> Result<Change, LineFault>
    ensures { ReturnsReading Anywhere result (lines.change_asked (lines.put_shape forms (view value.now))) }
{
    let identifier = command_text(value, "put")?;
    let sets = texts_at(alloc, value, "sets")?;
    let records = records_at(alloc, forms, value)?;
    let abouts = abouts_at(value)?;
    let texts = DepositTexts {
        identifier,
        sets,
        records,
        abouts,
    };
    put_from(alloc, texts)
}

/// The deposit of these texts.
#[tactic(auto, unfolding(crate::specs::Lines::asked_change))]
fn deposit_from(alloc: Global, texts: DepositTexts<'_>) -> Result<Change, LineFault>
    ensures { ReturnsReading Anywhere result (lines.asked_change (lines.deposits texts.entry.identifier.now
        (map (λ text. text.now) texts.entry.sets.items) texts.entry.records texts.entry.abouts)) }
{
    let (identifier, sets, records) = parts_from(alloc, texts)?;
    Ok(Change::Deposit {
        identifier,
        sets,
        records,
    })
}

/// The put of these texts.
#[tactic(auto, unfolding(crate::specs::Lines::asked_change))]
fn put_from(alloc: Global, texts: DepositTexts<'_>) -> Result<Change, LineFault>
    ensures { ReturnsReading Anywhere result (lines.asked_change (lines.puts texts.entry.identifier.now
        (map (λ text. text.now) texts.entry.sets.items) texts.entry.records texts.entry.abouts)) }
{
    let (identifier, sets, records) = parts_from(alloc, texts)?;
    Ok(Change::Put {
        identifier,
        sets,
        records,
    })
}

/// The identifier, the setSpecs and the records of a deposit of these texts.
fn parts_from(
    alloc: Global,
    texts: DepositTexts<'_>,
) -> Result<(Identifier, Sequence<SetSpec>, Records), LineFault>
    ensures { ReturnsReading Anywhere result (lines.asked_parts texts.entry.identifier.now
        (map (λ text. text.now) texts.entry.sets.items)
        (lines.elements_read (lines.with_abouts texts.entry.records texts.entry.abouts))) }
{
    let DepositTexts {
        identifier,
        sets,
        records,
        abouts,
    } = texts;
    let are_xml = have_xml_texts(&records);
    let records = read_elements(alloc, records, &abouts)?;
    let identifier = identifier_of(alloc, identifier)?;
    let sets = set_specs_of(alloc, sets.as_slice())?;
    if !are_xml {
        return Err(LineFault::Refused(LineRefusal::BadText));
    }
    Ok((identifier, sets, records))
}

/// The deletion of an object with its member.
#[tactic(auto, unfolding(crate::specs::Lines::deletion_shape))]
fn deletion_of(alloc: Global, value: &Value) -> Result<Change, LineFault>
    ensures { ReturnsReading (is_some (lines.deletion_shape (view value.now)) ≡ true) result
        (lines.change_asked (lines.deletion_shape (view value.now))) }
{
    let identifier = command_text(value, "delete")?;
    deletion_from(alloc, identifier)
}

/// The deletion of the item with this identifier.
#[tactic(auto, unfolding(crate::specs::Lines::asked_change))]
fn deletion_from(alloc: Global, identifier: &str) -> Result<Change, LineFault>
    ensures { ReturnsReading (may_be_identifier identifier.now ≡ true) result
        (lines.asked_change (lines.deletes identifier.now)) }
{
    Ok(Change::Delete {
        identifier: identifier_of(alloc, identifier)?,
    })
}

/// The purge of an object with its member.
#[tactic(auto, unfolding(crate::specs::Lines::purge_shape, crate::specs::Lines::asked_change))]
fn purge_of(alloc: Global, value: &Value) -> Result<Change, LineFault>
    ensures { ReturnsReading (is_some (lines.purge_shape (view value.now)) ≡ true) result
        (lines.change_asked (lines.purge_shape (view value.now))) }
{
    let before = command_text(value, "purge")?;
    Ok(Change::Purge {
        before: Text::new(alloc, before)?,
    })
}

/// The new set of an object with its members.
#[tactic(auto, unfolding(crate::specs::Lines::set_shape))]
fn new_set_of(alloc: Global, value: &Value) -> Result<Change, LineFault>
    ensures { ReturnsReading (is_some (lines.set_shape (view value.now)) ≡ true) result
        (lines.change_asked (lines.set_shape (view value.now))) }
{
    let spec = command_text(value, "set")?;
    let name = command_text(value, "name")?;
    new_set_from(alloc, spec, name)
}

/// The new set of these texts.
#[tactic(auto, unfolding(crate::specs::Lines::asked_change))]
fn new_set_from(alloc: Global, spec: &str, name: &str) -> Result<Change, LineFault>
    ensures { ReturnsReading (may_be_set_spec spec.now ≡ true) result
        (lines.asked_change (lines.adds_set spec.now name.now)) }
{
    Ok(Change::AddSet {
        spec: set_spec_of(alloc, spec)?,
        name: set_name_of(alloc, name)?,
    })
}

/// The text as an identifier. The error is `BadIdentifier` if it is none, or out of memory.
fn identifier_of(alloc: Global, text: &str) -> Result<Identifier, LineFault>
    ensures { ReturnsReading (may_be_identifier text.now ≡ true) result
        (passed (may_be_identifier text.now) BadIdentifier text.now) }
{
    match Identifier::read(alloc, text) {
        Ok(identifier) => Ok(identifier),
        Err(NameFault::NoMemory) => Err(LineFault::NoMemory),
        Err(NameFault::Syntax) => Err(LineFault::Refused(LineRefusal::BadIdentifier)),
        Err(NameFault::TooLong) => Err(LineFault::Refused(LineRefusal::BadIdentifier)),
    }
}

/// Each text as a setSpec, in order. The error is `BadSetSpec` if one is none, or out of memory.
fn set_specs_of(alloc: Global, texts: &[&str]) -> Result<Sequence<SetSpec>, LineFault>
    ensures { ReturnsReading Anywhere result (passed (list_all may_be_set_spec (map (λ text. text.now) texts.now))
        BadSetSpec (map (λ text. text.now) texts.now)) }
{
    each_set_spec(alloc, texts)
}

/// Each text as a setSpec, in order, up to the first that is none.
#[tactic(auto, using(oai_json::proofs::ReadingLemmas::starts))]
fn each_set_spec(alloc: Global, texts: &[&str]) -> Result<Sequence<SetSpec>, LineFault>
    ensures { FindsBy BadSetSpec (λ specs. specs) Anywhere result
        (each_of (tested may_be_set_spec) (map (λ text. text.now) texts.now)) }
{
    let mut specs = Vec::new(alloc);
    for text in texts {
        specs.push(set_spec_of(alloc, text)?)?;
    }
    Ok(Sequence::new(specs))
}

/// The text as a setSpec. The error is `BadSetSpec` if it is none, or out of memory.
fn set_spec_of(alloc: Global, text: &str) -> Result<SetSpec, LineFault>
    ensures { ReturnsReading (may_be_set_spec text.now ≡ true) result
        (passed (may_be_set_spec text.now) BadSetSpec text.now) }
{
    match SetSpec::read(alloc, text) {
        Ok(spec) => Ok(spec),
        Err(NameFault::NoMemory) => Err(LineFault::NoMemory),
        Err(NameFault::Syntax) => Err(LineFault::Refused(LineRefusal::BadSetSpec)),
        Err(NameFault::TooLong) => Err(LineFault::Refused(LineRefusal::BadSetSpec)),
    }
}

/// The text as a setName. The error is `BadText` if it is none, or out of memory.
fn set_name_of(alloc: Global, text: &str) -> Result<Text, LineFault>
    ensures { ReturnsReading (is_short_text text.now ≡ true) result
        (passed (is_short_text text.now) BadText text.now) }
{
    if !is_short_text(text) {
        return Err(LineFault::Refused(LineRefusal::BadText));
    }
    Ok(Text::new(alloc, text)?)
}
