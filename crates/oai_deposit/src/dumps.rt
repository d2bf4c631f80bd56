//! What a repository holds, as the deposit lines that rebuild it.
ghost use Rattle.std.specs.Prelude.{◌≡◌, ◌≤◌, ℕ, false, true, List, map, IfOk, Ok, Some, string_bytes};
ghost use Rattle.std.specs.List.{All};
ghost use Rattle.serde_json.specs.Data.{depth, object};
ghost use Rattle.serde_json.specs.Read.{max_depth};
ghost use Rattle.serde_json.specs.View.{members_view};
ghost use Rattle.serde_json.specs.Written.{compact_text, has_float};
ghost use Rattle.oai_json.specs.Json.{json_in};
ghost use Rattle.oai_deposit.specs.Calls.{with_about_put};
ghost use Rattle.oai_deposit.specs.Lines.{adds_set, are_of_forms, asked_change, deletes, deposits, line_of};
ghost use Rattle.oai_item.specs.Givens.{given_back};
ghost use Rattle.oai_item.specs.declared.forms.Forms.{Forms};
ghost use Rattle.oai_deposit.specs.Dumps.{IsDump, IsHeldItem, IsHeldSet, IsLineOf, deletion_value, deposit_value, dump_changes, line_abouts, line_record, set_value};
ghost use Rattle.oai_item.specs.Item.{ItemState};

use crate::dump_values::{abouts_members, records_value, text_value, texts_value};
use oai_item::Item;
use oai_names::{Identifier, SetSpec};
use serde_json::{Map, Value, put};
use std::alloc::{AllocError, Global};

/// The line, without its end, that deposits the item: its identifier, its sets and its records, an element as its text,
/// and what is about them, if something is. Parsed as a deposit line, of forms that its records have, it requests exactly that. The error is out of memory.
pub fn deposit_line(alloc: Global, item: &Item) -> Result<String, AllocError>
    ensures line { IfOk result (λ line. IsLineOf (deposit_value item.now.identifier item.now.sets (map given_back item.now.formats))
        (string_bytes line)) }
    ensures asks { IfOk result (λ line. (forms : Forms) → are_of_forms forms (map given_back item.now.formats) ≡ true
        → line_of forms (string_bytes line)
        ≡ asked_change (deposits item.now.identifier item.now.sets (map line_record (map given_back item.now.formats))
        (line_abouts (map given_back item.now.formats)))) }
{
    let mut members = Map::new(alloc);
    put(
        &mut members,
        alloc,
        "deposit",
        text_value(alloc, item.identifier().as_str())?,
    )?;
    put(
        &mut members,
        alloc,
        "sets",
        texts_value(alloc, item.sets())?,
    )?;
    put(
        &mut members,
        alloc,
        "records",
        records_value(alloc, item.formats())?,
    )?;
    put_abouts(alloc, abouts_members(alloc, item.formats())?, &mut members)?;
    line_of_members(alloc, members)
}

/// Puts the member `about`, an object of these members, among the others, if there are any. The error is out of memory.
#[tactic(auto, using(crate::proofs::WrittenLemmas::about_not_put, crate::proofs::WrittenLemmas::about_put))]
fn put_abouts(
    alloc: Global,
    abouts: Map<String, Value>,
    members: &mut Map<String, Value>,
) -> Result<(), AllocError>
    ensures { IfOk result (λ _. members_view members.new.entries
        ≡ with_about_put (members_view abouts.entries) (members_view members.old.entries)) }
{
    if abouts.len() == 0 {
        return Ok(());
    }
    put(members, alloc, "about", Value::Object(abouts))
}

/// The line, without its end, that deletes the item with that identifier. The error is out of memory.
pub fn deletion_line(alloc: Global, identifier: &Identifier) -> Result<String, AllocError>
    ensures line { IfOk result (λ line. IsLineOf (deletion_value identifier.now) (string_bytes line)) }
    ensures asks { IfOk result (λ line. (forms : Forms) → line_of forms (string_bytes line) ≡ asked_change (deletes identifier.now)) }
{
    let mut members = Map::new(alloc);
    put(
        &mut members,
        alloc,
        "delete",
        text_value(alloc, identifier.as_str())?,
    )?;
    line_of_members(alloc, members)
}

/// The line, without its end, that adds the set. The error is out of memory.
pub fn set_line(alloc: Global, spec: &SetSpec, name: &str) -> Result<String, AllocError>
    ensures line { IfOk result (λ line. IsLineOf (set_value spec.now name.now) (string_bytes line)) }
    ensures asks { IfOk result (λ line. (forms : Forms) → line_of forms (string_bytes line) ≡ asked_change (adds_set spec.now name.now)) }
{
    let mut members = Map::new(alloc);
    put(
        &mut members,
        alloc,
        "set",
        text_value(alloc, spec.as_str())?,
    )?;
    put(&mut members, alloc, "name", text_value(alloc, name)?)?;
    line_of_members(alloc, members)
}

/// The line, without its end, of an object with these members. The error is out of memory.
fn line_of_members(alloc: Global, members: Map<String, Value>) -> Result<String, AllocError>
    ensures text { IfOk result (λ line. has_float (object (members_view members.entries)) ≡ false
        → string_bytes line ≡ compact_text (object (members_view members.entries))) }
    ensures value { IfOk result (λ line. depth (object (members_view members.entries)) ≤ max_depth
        → json_in (string_bytes line) ≡ Some (object (members_view members.entries))) }
{
    Value::Object(members).to_string(alloc)
}

/// The lines that are printed of a repository's sets and items request, parsed as deposit lines, exactly what it holds:
/// each set, and each item with its sets and records, and then the deletion of one that is deleted; none is refused. Items
/// with elements need forms with elements. A theorem, proved by an empty function.
pub fn dump_law()
    ensures { (forms : Forms) (sets : List (List ℕ × List ℕ)) (items : List ItemState) (lines : List (List ℕ))
        → All IsHeldSet sets → All (IsHeldItem forms) items → IsDump sets items lines
        → map (line_of forms) lines ≡ map (λ change. Ok change) (dump_changes sets items) }
{}
