//! The events of a trace, one in each line.
ghost use Rattle.std.specs.Prelude.{◌≡◌};
ghost use Rattle.oai_cli.specs.EventLines as spec;

use crate::input::spaces::spaces;
use hex::FromHexError;
use oai_bytes::{read_moment, read_number, split_at_space};
use oai_names::Sequence;
use oai_startup::Stop;
use std::alloc::Global;

/// A parsed line of a trace: at a moment a piece comes on a connection, or the connection's end.
#[derive(Drop)]
pub(crate) struct Event {
    /// The moment, in seconds from 1970 on.
    pub(crate) moment: i64,
    /// The label of the connection.
    pub(crate) label: u64,
    /// The bytes of the piece; None for the end.
    pub(crate) piece: Option<Sequence<u8>>,
}

/// Parses the line with that number: three parts between single spaces, a moment in seconds from 1970 on, a label, and
/// bytes as hexadecimal digits or the word `end`. The errors are `BadPiece` and `NoMemory`.
#[tactic(auto, unfolding(crate::specs::EventLines::parse_event))]
pub(crate) fn parse_event(alloc: Global, line: &[u8], number: u64) -> Result<Event, Stop>
    ensures { spec.IsParsedEvent line.now number result }
{
    if spaces(line) != 2 {
        return Err(Stop::BadPiece(number));
    }
    let (moment, rest) = split_at_space(line);
    let (label, piece) = split_at_space(rest);
    match (read_moment(moment), read_number(label)) {
        (Some(moment), Some(label)) => match read_piece(alloc, piece) {
            Ok(piece) => Ok(Event {
                moment,
                label,
                piece,
            }),
            Err(error) => Err(stop_at(number, error)),
        },
        _ => Err(Stop::BadPiece(number)),
    }
}

/// Parses the third part: bytes as hexadecimal digits, or the word `end`.
#[tactic(auto, unfolding(crate::specs::EventLines::coming))]
fn read_piece(alloc: Global, text: &[u8]) -> Result<Option<Sequence<u8>>, FromHexError>
    ensures { spec.IsComing text.now result }
{
    if text == b"end".as_slice() {
        return Ok(None);
    }
    match hex::decode(alloc, text) {
        Ok(bytes) => Ok(Some(Sequence::new(bytes))),
        Err(error) => Err(error),
    }
}

/// Why the line with that number could not be parsed.
fn stop_at(number: u64, error: FromHexError) -> Stop
    ensures { result ≡ spec.stop_at number error }
{
    match error {
        FromHexError::OutOfMemory => Stop::NoMemory,
        FromHexError::OddLength => Stop::BadPiece(number),
        FromHexError::InvalidStringLength => Stop::BadPiece(number),
        FromHexError::InvalidHexCharacter { .. } => Stop::BadPiece(number),
    }
}
