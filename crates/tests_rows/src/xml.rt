//! Texts that are read as XML elements: the canonical text, and what that is read as, or why and where a text is
//! refused; and the namespace and the local part that name a root.
use crate::answers::Answer;
use crate::rows::Row;
use oai_xml::{ElementText, Root};
use std::alloc::Global;

/// Adds what the row is answered.
pub(crate) fn answer(alloc: Global, row: &Row<'_>, answer: &mut Answer) {
    match ElementText::read(alloc, row.text(0)) {
        Ok(element) => show_element(alloc, row, element.as_str(), answer),
        Err(fault) => answer.fault(fault),
    }
}

/// Adds what is asked of the element of that canonical text.
fn show_element(alloc: Global, row: &Row<'_>, canonical: &str, answer: &mut Answer) {
    match row.call {
        "ElementText::read" => show_canonical(alloc, canonical, answer),
        "is-read-as-it-is" => answer.is(canonical == row.text(0)),
        "Root::of" => show_root(alloc, canonical, answer),
        _ => answer.word("no such call"),
    }
}

/// Adds the canonical text, and what it is read as.
fn show_canonical(alloc: Global, canonical: &str, answer: &mut Answer) {
    answer.text(canonical);
    match ElementText::read(alloc, canonical) {
        Ok(again) if again.as_str() == canonical => answer.word("read as itself"),
        Ok(again) => answer.text(again.as_str()),
        Err(fault) => answer.fault(fault),
    }
}

/// Adds the namespace and the local part of the root.
fn show_root(alloc: Global, canonical: &str, answer: &mut Answer) {
    match Root::of(alloc, canonical) {
        Ok(root) => {
            answer.text(str::from_utf8(root.namespace()).unwrap_or("no text"));
            answer.text(str::from_utf8(root.local()).unwrap_or("no text"));
        }
        Err(_) => answer.out_of_memory(),
    }
}
