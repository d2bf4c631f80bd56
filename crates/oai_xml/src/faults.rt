use std::alloc::{AllocError, AllocFailed};
use thiserror::Error;

/// Why a text is no element, as is found at the place of its first fault.
#[derive(Clone, Copy, Debug, PartialEq, Eq, Error)]
pub enum XmlCause {
    /// The text ends before its root does.
    #[error("the text ends within an element, or before one")]
    Ends,
    /// XML does not allow the character that stands here (production [2]).
    #[error("XML does not allow this character")]
    Character,
    /// What stands here is of no production that may stand here.
    #[error("this cannot stand here")]
    Syntax,
    /// A name begins here that is none (productions [5] and [NS 7]).
    #[error("this is no name")]
    Name,
    /// What stands behind `&` is none of the five entities, and no number of a character.
    #[error("this is no reference that can be resolved without a document type")]
    Reference,
    /// `<` stands in the value of an attribute.
    #[error("'<' cannot stand in the value of an attribute")]
    Value,
    /// `]]>` stands in a text that is no CDATA section.
    #[error("']]>' cannot stand in a text")]
    Section,
    /// The end tag has another name than the start tag.
    #[error("the end tag has not the name of its start tag")]
    EndTag,
    /// There are too many levels of elements.
    #[error("there are more than 128 levels of elements")]
    Depth,
    /// The start tag has names or namespaces that may not stand together, or too many of them.
    #[error("this tag has a prefix that is not declared, an attribute twice, an illegal declaration, or too many of them")]
    Tag,
}

/// Why a text was not read as an element.
#[derive(Clone, Copy, Debug, PartialEq, Eq, Error)]
pub enum XmlFault {
    /// The text is none, as is found at the byte `offset` of it, from 0 on.
    #[error("{cause}, at byte {offset}")]
    Refused {
        /// How many bytes stand before the fault.
        offset: usize,
        /// What is at fault there.
        cause: XmlCause,
    },
    /// The element could not be stored.
    #[error("out of memory")]
    NoMemory,
}

/// A fault of bytes that are read: how many of them are left from it on, and what it is.
#[derive(Clone, Copy)]
pub(crate) struct ParseFault {
    pub(crate) left: usize,
    pub(crate) cause: XmlCause,
}

/// Why a reading that needs memory stopped.
#[derive(Clone, Copy)]
pub(crate) enum ParseStop {
    At(ParseFault),
    NoMemory,
}

impl<T: Drop> From<AllocFailed<T>> for XmlFault {
    ghost use Rattle.std.specs.Prelude.{◌≡◌};
    ghost use Rattle.oai_xml.specs.declared.faults.XmlFault.TheVariants.{NoMemory};

    ghost from_gives = { λ _ fault. fault ≡ NoMemory };

    fn from(_: AllocFailed<T>) -> XmlFault {
        XmlFault::NoMemory
    }
}

impl From<ParseFault> for ParseStop {
    ghost use Rattle.std.specs.Prelude.{◌≡◌};
    ghost use Rattle.oai_xml.specs.declared.faults.ParseStop.TheVariants.{At};

    ghost from_gives = { λ fault stop. stop ≡ At fault };

    fn from(fault: ParseFault) -> ParseStop {
        ParseStop::At(fault)
    }
}

impl From<AllocError> for ParseStop {
    ghost use Rattle.std.specs.Prelude.{◌≡◌};
    ghost use Rattle.oai_xml.specs.declared.faults.ParseStop.TheVariants.{NoMemory};

    ghost from_gives = { λ _ stop. stop ≡ NoMemory };

    fn from(_: AllocError) -> ParseStop {
        ParseStop::NoMemory
    }
}

impl<T: Drop> From<AllocFailed<T>> for ParseStop {
    ghost use Rattle.std.specs.Prelude.{◌≡◌};
    ghost use Rattle.oai_xml.specs.declared.faults.ParseStop.TheVariants.{NoMemory};

    ghost from_gives = { λ _ stop. stop ≡ NoMemory };

    fn from(_: AllocFailed<T>) -> ParseStop {
        ParseStop::NoMemory
    }
}
