//! The XML element in a file, or where and why the file has none.
use crate::places::{column_at, line_at, utf8_length};
use oai_xml::{ElementText, XmlFault};
use std::alloc::{AllocError, Global};
use std::fmt::Display;

/// What was found in the bytes of a file that is to have one XML element.
#[derive(Drop)]
pub enum FoundElement {
    /// The element.
    Element(ElementText),
    /// Where and why the file has none: `<line>:<column>: <cause>`, both counted from 1, the column in bytes.
    Report(String),
}

impl FoundElement {
    /// Reads the bytes: an XML document without a document type, in UTF-8. The error is out of memory.
    pub fn read(alloc: Global, bytes: &[u8]) -> Result<FoundElement, AllocError> {
        let Ok(text) = str::from_utf8(bytes) else {
            let place = utf8_length(bytes);
            return reported(alloc, bytes, place, "here the text is not in UTF-8");
        };
        match ElementText::read(alloc, text) {
            Ok(element) => Ok(FoundElement::Element(element)),
            Err(XmlFault::Refused { offset, cause }) => reported(alloc, bytes, offset, cause),
            Err(XmlFault::NoMemory) => Err(AllocError),
        }
    }
}

/// The report of a cause at that byte.
fn reported(
    alloc: Global,
    bytes: &[u8],
    place: usize,
    cause: impl Display + Drop,
) -> Result<FoundElement, AllocError> {
    let (line, column) = (line_at(bytes, place), column_at(bytes, place));
    Ok(FoundElement::Report(format!(in alloc; "{line}:{column}: {cause}")?))
}
