ghost use Rattle.std.specs.Prelude.{◌≡◌, ◌++◌, ◌-◌, ℕ, List, [], true, IfOk};
ghost use Rattle.oai_xml.specs.Documents as spec;
ghost use Rattle.oai_xml.specs.Reads.{IsAtSamePlace, IsCanonicalResult, IsFaultOf, IsFrontRead, IsTakenAsElement};

use crate::documents::document;
use crate::faults::{ParseStop, XmlCause, XmlFault};
use crate::lines::{normalized, origin};
use crate::places::legal_len;
use oai_names::{Text, is_xml_text};
use std::alloc::{AllocError, Global};
use std::marker::Model;

/// The canonical text of an XML element. Contracts see its bytes, in UTF-8, which determine the element's tree.
#[derive(Debug, Drop)]
pub struct ElementText {
    text: String,
}

impl Model for ElementText {
    ghost use Rattle.std.specs.Prelude.{ℕ, List};
    ghost use Rattle.std.specs.String.{string_bytes};

    ghost Value = { List ℕ };

    ghost view = { λ e. string_bytes e.text };
}

impl ElementText {
    /// Reads the element that a text is: a document without a document type, within the limits. The error is the place of
    /// its first fault, or out of memory.
    pub fn read(alloc: Global, text: &str) -> Result<ElementText, XmlFault>
        ensures { IsCanonicalResult text.now result }
    {
        let legal = legal_len(text);
        let (front, _) = text.as_bytes().split_at(legal);
        let mut out = Vec::new(alloc);
        match read_front(alloc, front, &mut out) {
            Ok(()) => taken(legal, text.len(), out),
            Err(fault) => Err(at_character(fault, legal, text.len())),
        }
    }

    /// The canonical text.
    pub fn as_str(&self) -> &str
        ensures { result.now ≡ self.now }
    {
        self.text.as_str()
    }

    /// The canonical text, owned. Allocates nothing.
    pub fn into_text(self) -> Text
        ensures { result ≡ self }
    {
        let ElementText { text } = self;
        Text::from_string(text)
    }

    /// An equal element. The error is out of memory.
    pub fn copy(&self, alloc: Global) -> Result<ElementText, AllocError>
        ensures { IfOk result (λ copy. copy ≡ self.now) }
    {
        Ok(ElementText {
            text: String::from_str(alloc, self.as_str())?,
        })
    }
}

/// Whether the text is an element: its own canonical text. It is read and compared. The error is out of memory.
#[tactic(auto, unfolding(crate::specs::Documents::is_canonical))]
pub fn is_canonical(alloc: Global, text: &str) -> Result<bool, AllocError>
    ensures { IfOk result (λ is. is ≡ spec.is_canonical text.now) }
{
    match ElementText::read(alloc, text) {
        Ok(element) => Ok(element.as_str() == text),
        Err(XmlFault::Refused { .. }) => Ok(false),
        Err(XmlFault::NoMemory) => Err(AllocError),
    }
}

/// The fault, where so many bytes of a text stand before the first character that XML does not allow: at that place, it is
/// this character that is at fault.
fn at_character(fault: XmlFault, legal: usize, len: usize) -> XmlFault
    ensures { IsAtSamePlace fault result }
{
    match fault {
        XmlFault::Refused { offset, cause } => {
            if offset == legal && legal < len {
                return XmlFault::Refused {
                    offset,
                    cause: XmlCause::Character,
                };
            }
            XmlFault::Refused { offset, cause }
        }
        XmlFault::NoMemory => XmlFault::NoMemory,
    }
}

/// The element, if it is a text of XML's characters, and if all of the text was read.
fn taken(legal: usize, len: usize, out: Vec<u8>) -> Result<ElementText, XmlFault>
    ensures { IsTakenAsElement legal len out.items result }
{
    let Ok(text) = String::from_utf8(out) else {
        return Err(XmlFault::Refused {
            offset: legal,
            cause: XmlCause::Character,
        });
    };
    if legal == len && is_xml_text(text.as_str()) {
        Ok(ElementText { text })
    } else {
        Err(XmlFault::Refused {
            offset: legal,
            cause: XmlCause::Character,
        })
    }
}

/// Reads a document whose characters are all XML's, and appends its element as it is spelled.
fn read_front(alloc: Global, text: &[u8], out: &mut Vec<u8>) -> Result<(), XmlFault>
    requires { out.old.items ≡ [] }
    ensures { IsFrontRead text.now out.new.items result }
{
    if !text.contains(&b'\r') {
        return match document(alloc, text, out) {
            Ok(()) => Ok(()),
            Err(stop) => Err(fault_of(text, text.len(), stop)),
        };
    }
    let Ok(lines) = normalized(alloc, text) else {
        return Err(XmlFault::NoMemory);
    };
    match document(alloc, lines.as_slice(), out) {
        Ok(()) => Ok(()),
        Err(stop) => Err(fault_of(text, lines.as_slice().len(), stop)),
    }
}

/// The fault of a text, of which so many bytes are left when its line ends are LF.
fn fault_of(text: &[u8], len: usize, stop: ParseStop) -> XmlFault
    ensures { IsFaultOf text.now len stop result }
{
    match stop {
        ParseStop::At(fault) => XmlFault::Refused {
            offset: origin(text, len.saturating_sub(fault.left)),
            cause: fault.cause,
        },
        ParseStop::NoMemory => XmlFault::NoMemory,
    }
}
