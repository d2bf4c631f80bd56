use thiserror::Error;

/// Why a text was not read as a name, in the order in which the causes are tested.
#[derive(Clone, Copy, Debug, PartialEq, Eq, Error)]
pub enum NameFault {
    /// The text does not match the name's grammar.
    #[error("the name is of illegal syntax")]
    Syntax,
    /// The text matches the grammar, and is longer than the name may be.
    #[error("the name is too long")]
    TooLong,
    /// Out of memory.
    #[error("out of memory")]
    NoMemory,
}
