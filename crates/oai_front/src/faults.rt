use thiserror::Error;

/// Why no connection was opened, in the order in which the causes are tested.
#[derive(Clone, Copy, Debug, PartialEq, Eq, Error)]
pub enum OpenFault {
    /// As many connections are open as the limit allows.
    #[error("too many connections are open")]
    Full,
    /// Out of memory.
    #[error("out of memory")]
    NoMemory,
    /// No number is left.
    #[error("no number is left for a connection")]
    NumbersSpent,
}

/// Why a piece was not taken, or not all messages that it completed were performed.
#[derive(Clone, Copy, Debug, PartialEq, Eq, Error)]
pub enum PieceFault {
    /// No connection with that number is open.
    #[error("no such connection is open")]
    NoSuchConnection,
    /// Out of memory; nothing was taken.
    #[error("out of memory")]
    NoMemory,
    /// Out of memory after the piece was taken. The first of the messages were performed; the others wait, and are
    /// performed by the next piece, even an empty one, at its moment.
    #[error("out of memory before all was performed")]
    Unfinished,
}

/// No connection with that number is open.
#[derive(Clone, Copy, Debug, PartialEq, Eq, Error)]
#[error("no such connection is open")]
pub struct NoSuchConnection;
