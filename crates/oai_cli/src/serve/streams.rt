//! Connections over streams.
ghost use Rattle.std.specs.Prelude.{◌≡◌, ◌⊎◌, ◌+◌, ◌++◌, false, length, true, Err, Ok, IfErr, IfOk, OnOk};
ghost use Rattle.std.specs.Io.KnownBytes.{Appends, IsAtEnd};
ghost use Rattle.oai_front.specs.declared.faults.PieceFault.{PieceFault};
ghost use Rattle.oai_cli.specs.Outputs.{IsPieceAnswered, StaysApart, IsForgotten, IsConnectionServed, AnswersPieces, IsUsed, OthersStay, is_taking, IsOpenedFault, IsReadOnFault};
ghost use Rattle.oai_cli.specs.declared.serve.streams.StreamFault.TheVariants as fault;
ghost use Rattle.oai_startup.specs.declared.limits.TheConstants.{READ_BYTES};

use crate::connections::{forget_connection, take_in};
use crate::serve::buffers::{OutputBuffer, flush_output};
use oai_front::{ConnId, Front, OpenFault, PieceFault};
use oai_http::Handler;
use oai_startup::{MAX_READS, READ_BYTES};
use std::alloc::Global;
use std::io::{Read, Write};
use std::rt::Clock;
use thiserror::Error;

/// Why a connection ended before its stream did, and before it was closed.
#[derive(Clone, Copy, Debug, PartialEq, Eq, Error)]
pub enum StreamFault {
    /// No connection could be opened.
    #[error("no connection could be opened: {0}")]
    NotOpened(OpenFault),
    /// Out of memory; what was answered before was written.
    #[error("out of memory")]
    NoMemory,
    /// The stream could not be read.
    #[error("the stream could not be read")]
    ReadFault,
    /// The stream could not be written.
    #[error("the stream could not be written")]
    WriteFault,
    /// The clock could not be read.
    #[error("the clock could not be read")]
    ClockFault,
    /// The stream did not end within 1,000,000 reads.
    #[error("the stream has not ended")]
    Endless,
}

/// Serves the stream as one connection of the front: passes the input to it at the clock's moment, and writes its
/// output, until it is closing and all was written, or the stream ends. A read is of at most 65,536 bytes. The
/// connection is then dropped, also at each fault; no other connection changes.
pub fn serve_stream<H: Handler, S: Read + Write, C: Clock>(
    alloc: Global,
    front: &mut Front<H>,
    stream: &mut S,
    clock: &C,
) -> Result<(), StreamFault>
    ensures forgotten { IsForgotten front.old result front.new }
    ensures others { OthersStay (front.old.last + 1) front.old front.new }
    ensures limit { front.new.limit ≡ front.old.limit }
    ensures used { IsUsed H.step front.old front.new }
    ensures served { OnOk result (IsConnectionServed H.step front.old front.new
        (IsAtEnd (S.Read.remaining stream.new))) }
{
    match front.open() {
        Ok(conn) => {
            let served = serve_connection(alloc, front, conn, stream, clock);
            forget_connection(front, conn);
            served
        }
        Err(fault) => Err(StreamFault::NotOpened(fault)),
    }
}

/// Serves the stream as that connection, to its end.
fn serve_connection<H: Handler, S: Read + Write, C: Clock>(
    alloc: Global,
    front: &mut Front<H>,
    conn: ConnId,
    stream: &mut S,
    clock: &C,
) -> Result<(), StreamFault>
    ensures over { OnOk result ((is_taking conn.number front.new ≡ false)
        ⊎ IsAtEnd (S.Read.remaining stream.new)) }
    ensures pieces { OnOk result (AnswersPieces H.step conn.number front.old front.new) }
    ensures apart { StaysApart conn.number front.old front.new }
    ensures used { IsUsed H.step front.old front.new }
    ensures err { IfErr result IsOpenedFault }
{
    let Ok(mut buffer) = vec![in alloc; 0u8; READ_BYTES] else {
        return Err(StreamFault::NoMemory);
    };
    let Ok(mut gathered) = OutputBuffer::new(alloc) else {
        return Err(StreamFault::NoMemory);
    };
    for _ in 0..MAX_READS {
        if !read_on(front, conn, &mut buffer, &mut gathered, stream, clock)? {
            return Ok(());
        }
    }
    Err(StreamFault::Endless)
}

/// Reads once, and answers the input; returns whether to read on.
fn read_on<H: Handler, S: Read + Write, C: Clock>(
    front: &mut Front<H>,
    conn: ConnId,
    buffer: &mut [u8],
    gathered: &mut OutputBuffer,
    stream: &mut S,
    clock: &C,
) -> Result<bool, StreamFault>
    requires { length buffer.old ≡ READ_BYTES }
    ensures buffer { length buffer.new ≡ length buffer.old }
    ensures more { result ≡ Ok true → is_taking conn.number front.new ≡ true }
    ensures over { result ≡ Ok false → (is_taking conn.number front.new ≡ false)
        ⊎ IsAtEnd (S.Read.remaining stream.new) }
    ensures apart { StaysApart conn.number front.old front.new }
    ensures used { IsUsed H.step front.old front.new }
    ensures pieces { OnOk result (AnswersPieces H.step conn.number front.old front.new) }
    ensures err { IfErr result IsReadOnFault }
{
    let Ok(count) = stream.read(buffer) else {
        return Err(StreamFault::ReadFault);
    };
    if count == 0 {
        return Ok(false);
    }
    let moment = moment_of(clock)?;
    answer(front, conn, moment, &buffer[..count], gathered, stream)
}

/// Passes the piece to the connection, and writes its output; returns whether to read on.
fn answer<H: Handler, S: Write>(
    front: &mut Front<H>,
    conn: ConnId,
    moment: i64,
    piece: &[u8],
    gathered: &mut OutputBuffer,
    stream: &mut S,
) -> Result<bool, StreamFault>
    ensures answered { OnOk result (IsPieceAnswered H.step conn.number moment piece.now front.old
        (Ok tt) front.new (λ bytes. Appends (S.Write.contents stream.old)
        (S.Write.contents stream.new) (gathered.old.bytes.items ++ bytes))) }
    ensures unfinished { result ≡ Err fault.NoMemory → (cause : PieceFault)
        × IsPieceAnswered H.step conn.number moment piece.now front.old (Err cause) front.new
        (λ bytes. Appends (S.Write.contents stream.old) (S.Write.contents stream.new)
        (gathered.old.bytes.items ++ bytes)) }
    ensures more { IfOk result (λ more. more ≡ is_taking conn.number front.new) }
    ensures apart { StaysApart conn.number front.old front.new }
    ensures used { IsUsed H.step front.old front.new }
    ensures err { IfErr result (λ cause. (cause ≡ fault.WriteFault) ⊎ (cause ≡ fault.NoMemory)) }
{
    let taken = take_in(front, conn, moment, piece);
    let written = flush_output(front, conn, gathered, stream);
    match (taken, written) {
        (_, Err(_)) => Err(StreamFault::WriteFault),
        (Err(_), Ok(())) => Err(StreamFault::NoMemory),
        (Ok(()), Ok(())) => Ok(front.closing(conn) == Some(false)),
    }
}

/// The clock's moment, in seconds from 1970 on.
fn moment_of<C: Clock>(clock: &C) -> Result<i64, StreamFault>
    ensures { IfErr result (λ cause. cause ≡ fault.ClockFault) }
{
    match clock.since_1970() {
        Ok(time) => Ok(i64::try_from(time.as_secs()).unwrap_or(i64::MAX)),
        Err(_) => Err(StreamFault::ClockFault),
    }
}
