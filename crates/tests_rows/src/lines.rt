//! What deposit lines are read as, and which are refused.
use crate::answers::Answer;
use crate::rows::Row;
use oai_deposit::{Change, LineFault, read_line};
use oai_item::{Field, Forms, Records};
use oai_names::{Identifier, Sequence, SetSpec, Text};
use std::alloc::Global;

/// Adds what the row is answered.
pub(crate) fn answer(alloc: Global, row: &Row<'_>, answer: &mut Answer) {
    match row.call {
        "read_line" => line(alloc, row.bytes(0), answer),
        "Change" => change(alloc, row.bytes(0), answer),
        "LineFault::NoMemory" => answer.fault(LineFault::NoMemory),
        _ => answer.word("no such call"),
    }
}

/// Whether the line is read, or what it is answered.
fn line(alloc: Global, line: &[u8], answer: &mut Answer) {
    match read_line(alloc, Forms::Fields, line) {
        Ok(_) => answer.word("read"),
        Err(LineFault::Refused(refusal)) => answer.word(refusal.answer()),
        Err(LineFault::NoMemory) => answer.out_of_memory(),
    }
}

/// What the line asks for, or why it is refused.
fn change(alloc: Global, line: &[u8], answer: &mut Answer) {
    match read_line(alloc, Forms::Fields, line) {
        Ok(change) => show_change(&change, answer),
        Err(fault) => answer.fault(fault),
    }
}

fn show_change(change: &Change, answer: &mut Answer) {
    match change {
        Change::Deposit {
            identifier,
            sets,
            records,
        } => show_deposit("deposit", identifier, sets.as_slice(), records, answer),
        Change::Put {
            identifier,
            sets,
            records,
        } => show_deposit("put", identifier, sets.as_slice(), records, answer),
        Change::Delete { identifier } => {
            answer.word("delete");
            answer.text(identifier.as_str());
        }
        Change::Purge { before } => {
            answer.word("purge");
            answer.text(before.as_str());
        }
        Change::AddSet { spec, name } => {
            answer.word("set");
            answer.text(spec.as_str());
            answer.text(name.as_str());
        }
    }
}

fn show_deposit(
    word: &str,
    identifier: &Identifier,
    sets: &[SetSpec],
    records: &Records,
    answer: &mut Answer,
) {
    answer.word(word);
    answer.text(identifier.as_str());
    show_sets(sets, answer);
    show_records(records.as_slice(), answer);
}

fn show_sets(sets: &[SetSpec], answer: &mut Answer) {
    for set in sets {
        answer.word("in");
        answer.text(set.as_str());
    }
}

fn show_records(records: &[(Text, Sequence<Field>)], answer: &mut Answer) {
    for (prefix, fields) in records {
        answer.word("record");
        answer.text(prefix.as_str());
        show_fields(fields.as_slice(), answer);
    }
}

fn show_fields(fields: &[Field], answer: &mut Answer) {
    for field in fields {
        answer.text(field.name.as_str());
        answer.text(field.text.as_str());
    }
}
