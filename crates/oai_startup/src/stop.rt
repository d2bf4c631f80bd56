//! Why the program stops, its message, and its exit status.
ghost use Rattle.std.specs.Prelude.{◌≡◌};
ghost use Rattle.oai_startup.specs.Stops as spec;

use oai_host::ReadFault;
use std::error::Error;
use std::fmt;

/// Why the program stopped before the end of its work.
#[derive(Clone, Copy, Debug, PartialEq, Eq)]
pub enum Stop {
    /// The arguments are invalid.
    Usage,
    /// The configuration could not be read, or did not end.
    CannotRead,
    /// The configuration has this fault, which is not out of memory.
    BadConfig(ReadFault),
    /// The line with that number, counted from 1 over all lines, is no exchange.
    BadExchange(u64),
    /// The line with that number, counted from 1 over all lines, is no piece and no end.
    BadPiece(u64),
    /// No connection can be opened for the label of the line with that number, counted from 1 over all lines.
    TooManyConnections(u64),
    /// The input could not be read, or did not end.
    InputFault,
    /// The output could not be written.
    OutputFault,
    /// The file of the pages could not be created or truncated.
    DeviceFault,
    /// The program could not listen, or could not accept a connection.
    SocketFault,
    /// Out of memory.
    NoMemory,
}

impl Stop {
    /// The program's exit status: 2 if the arguments are invalid, or the configuration cannot be read or has a fault,
    /// and 1 for each other cause, also if memory runs out before the work, for a file of pages that cannot be created
    /// or truncated, and for a port that it cannot listen on.
    pub fn status(self) -> u8
        ensures { result ≡ spec.status_of self }
    {
        match self {
            Stop::Usage => 2,
            Stop::CannotRead => 2,
            Stop::BadConfig(_) => 2,
            Stop::BadExchange(_) => 1,
            Stop::BadPiece(_) => 1,
            Stop::TooManyConnections(_) => 1,
            Stop::InputFault => 1,
            Stop::OutputFault => 1,
            Stop::DeviceFault => 1,
            Stop::SocketFault => 1,
            Stop::NoMemory => 1,
        }
    }
}

/// The program's message on standard error.
impl fmt::Display for Stop {
    ghost use Rattle.std.specs.Prelude.{Some};
    ghost use Rattle.oai_startup.specs.Stops.{stop_text};

    ghost output = { λ stop. Some (stop_text stop) };

    fn fmt<W: fmt::Write>(&self, f: &mut fmt::Formatter<W>) -> fmt::Result {
        match self {
            Stop::Usage => write!(
                f,
                "usage: oaihost check CONFIG | ask CONFIG | trace CONFIG | serve CONFIG PORT SPILL CONNECTIONS"
            ),
            Stop::CannotRead => write!(f, "config: cannot read"),
            Stop::BadConfig(fault) => write!(f, "config: {fault}"),
            Stop::BadExchange(number) => write!(f, "line {number}: bad exchange"),
            Stop::BadPiece(number) => write!(f, "line {number}: bad piece"),
            Stop::TooManyConnections(number) => write!(f, "line {number}: too many connections"),
            Stop::InputFault => write!(f, "input fault"),
            Stop::OutputFault => write!(f, "output fault"),
            Stop::DeviceFault => write!(f, "device fault"),
            Stop::SocketFault => write!(f, "socket fault"),
            Stop::NoMemory => write!(f, "out of memory"),
        }
    }
}

impl Error for Stop {}
