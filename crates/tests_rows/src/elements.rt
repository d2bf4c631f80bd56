//! Records that are whole elements: the lines that deposit them, when a text is an element of a format, and items that keep one.
use crate::answers::Answer;
use crate::rows::Row;
use oai_deposit::{Change, LineFault, deposit_line, read_line};
use oai_item::{Field, Format, Forms, GivenRecords, Item, LineRefusal, is_element_of};
use oai_names::{Prefix, Sequence, Text};
use std::alloc::{AllocError, Global};

/// Adds what the row is answered.
pub(crate) fn answer(alloc: Global, row: &Row<'_>, answer: &mut Answer) {
    match row.call {
        "read_line" => change(alloc, Forms::Elements, row.bytes(0), answer),
        "with-fields" => change(alloc, Forms::Fields, row.bytes(0), answer),
        "is_element_of" => find_element(alloc, row, answer),
        "Fields::element" => kept_element(alloc, row, answer),
        "deposit_line" => dumped(alloc, row.bytes(0), answer),
        _ => answer.word("no such call"),
    }
}

/// The records that the line deposits, or what it is answered.
fn change(alloc: Global, forms: Forms, line: &[u8], answer: &mut Answer) {
    match read_line(alloc, forms, line) {
        Ok(Change::Deposit { records, .. }) => show_records(records.walk(), answer),
        Ok(Change::Put { records, .. }) => {
            answer.word("put");
            show_records(records.walk(), answer);
        }
        Ok(_) => answer.word("no deposit"),
        Err(LineFault::Refused(refusal)) => show_refusal(alloc, refusal, answer),
        Err(LineFault::NoMemory) => answer.out_of_memory(),
    }
}

/// The line that a refused line is answered.
fn show_refusal(alloc: Global, refusal: LineRefusal, answer: &mut Answer) {
    let front = refusal.answer();
    match refusal.byte() {
        Some(byte) => match format!(in alloc; "{front}{byte}") {
            Ok(line) => answer.word(line.as_str()),
            Err(_) => answer.out_of_memory(),
        },
        None => answer.word(front),
    }
}

/// Of each record its prefix and, of an element, the namespace and the local part of its root; its fields; and what is
/// about it.
fn show_records(mut records: GivenRecords<'_>, answer: &mut Answer) {
    for _ in 0..64u32 {
        let Some(record) = records.next() else {
            return;
        };
        answer.word("record");
        answer.text(record.prefix);
        if let Some(root) = record.root {
            answer.word("element");
            answer.bytes(root.namespace());
            answer.bytes(root.local());
        }
        show_fields(record.fields, answer);
        show_about(record.about, answer);
    }
}

/// The text of each element about a record.
fn show_about(about: &[Field], answer: &mut Answer) {
    for field in about {
        answer.word("about");
        answer.text(field.text.as_str());
    }
}

/// The name and the text of each field.
fn show_fields(fields: &[Field], answer: &mut Answer) {
    for field in fields {
        answer.text(field.name.as_str());
        answer.text(field.text.as_str());
    }
}

/// Whether the text behind a namespace and a root is an element of the format that has them.
fn find_element(alloc: Global, row: &Row<'_>, answer: &mut Answer) {
    match format_of(alloc, row.text(0), row.text(1)) {
        Ok(Some(format)) => match is_element_of(alloc, &format, row.text(2)) {
            Ok(is) => answer.is(is),
            Err(_) => answer.out_of_memory(),
        },
        Ok(None) => answer.word("no format"),
        Err(_) => answer.out_of_memory(),
    }
}

/// The format without fields of that namespace and that root. The error is out of memory.
fn format_of(alloc: Global, namespace: &str, root: &str) -> Result<Option<Format>, AllocError> {
    let schema = Text::new(alloc, "http://host.example/x.xsd")?;
    let namespace = Text::new(alloc, namespace)?;
    let root = Text::new(alloc, root)?;
    let fields = Sequence::new(Vec::new(alloc));
    match Prefix::read(alloc, "x") {
        Ok(prefix) => Ok(Some(Format {
            prefix,
            schema,
            namespace,
            root,
            fields,
        })),
        Err(_) => Ok(None),
    }
}

/// The element that the record of that prefix keeps, in the item of these bytes.
fn kept_element(alloc: Global, row: &Row<'_>, answer: &mut Answer) {
    match Item::decode(alloc, row.bytes(0)) {
        Ok(item) => match item.fields_in(row.text(1)) {
            Some(fields) => answer.text_or_none(fields.element()),
            None => answer.word("no record"),
        },
        Err(fault) => answer.fault(fault),
    }
}

/// The line that deposits the item of these bytes.
fn dumped(alloc: Global, bytes: &[u8], answer: &mut Answer) {
    match Item::decode(alloc, bytes) {
        Ok(item) => match deposit_line(alloc, &item) {
            Ok(line) => answer.text(line.as_str()),
            Err(_) => answer.out_of_memory(),
        },
        Err(fault) => answer.fault(fault),
    }
}
