//! Connections whose bytes are in the lines of an input.
ghost use Rattle.std.specs.Prelude.{◌≡◌, None, Some, IfErr, IfSome, OnOk, is_ok};
ghost use Rattle.std.specs.BTreeMap.{get};
ghost use Rattle.std.specs.Io.KnownBytes.{Appends};
ghost use Rattle.std.specs.Ordering.{nat_cmp};
ghost use Rattle.oai_cli.specs.Outputs.{StaysApart, IsUsed};
ghost use Rattle.oai_cli.specs.NumberedLines.{lines_of};
ghost use Rattle.oai_cli.specs.Stops.{StopsTracing};
ghost use Rattle.oai_cli.specs.Traces as spec;
ghost use Rattle.oai_cli.specs.Traces.{IsBroken, IsLine, tracing};
ghost use Rattle.oai_startup.specs.declared.stop.Stop.TheVariants.{NoMemory, OutputFault};

pub(crate) mod events;
pub(crate) mod labels;
pub(crate) mod outputs;

use crate::connections::take_in;
use crate::input::lines::Lines;
use crate::trace::events::{Event, parse_event};
use crate::trace::labels::{Labels, connection_of, report};
use oai_front::{ConnId, Front};
use oai_http::Handler;
use oai_startup::Stop;
use std::alloc::Global;
use std::collections::BTreeMap;
use std::io::{Read, Write};

/// The maximum number of open connections of a trace.
pub const MAX_CONNECTIONS: usize = 1_024;

/// Performs the lines of the input in order: each is a piece that comes on a connection, or a connection's end. Writes
/// what each connection would send. A line is `<moment> <label> <hex>` or `<moment> <label> end`; an empty line is
/// skipped. The moment is in seconds from 1970 on, and a new label, a number below 2^64, opens a connection. After each
/// line the new output is written as `<label> <hex>`, and `<label> close` if the connection is closing; it is then
/// dropped, and later lines of its label have no effect.
///
/// It stops at the first line that is none of these, at a label for which no connection can be opened, at a fault of
/// the input or the output, at an input that does not end within 1,000,000 reads, and if memory runs out. What was
/// written before stays written.
pub fn trace_lines<H: Handler, R: Read, W: Write>(
    alloc: Global,
    front: &mut Front<H>,
    reader: &mut R,
    writer: &mut W,
) -> Result<(), Stop>
    ensures traced { IfSome (R.Read.remaining reader.old) (λ input. spec.AreTraced H.step
        (lines_of input) front.old result front.new
        (Appends (W.Write.contents writer.old) (W.Write.contents writer.new))) }
    ensures stops { IfErr result StopsTracing }
    ensures used { IsUsed H.step front.old front.new }
{
    let traced = trace_all(alloc, front, reader, writer);
    if writer.flush().is_err() {
        return Err(Stop::OutputFault);
    }
    traced
}

/// Reads the input to its end, and performs each line.
fn trace_all<H: Handler, R: Read, W: Write>(
    alloc: Global,
    front: &mut Front<H>,
    reader: &mut R,
    writer: &mut W,
) -> Result<(), Stop>
    ensures traced { IfSome (R.Read.remaining reader.old) (λ input. spec.AreTraced H.step
        (lines_of input) front.old result front.new
        (Appends (W.Write.contents writer.old) (W.Write.contents writer.new))) }
    ensures stops { IfErr result StopsTracing }
    ensures used { IsUsed H.step front.old front.new }
{
    let mut lines = Lines::new(alloc)?;
    let mut labels = BTreeMap::new(alloc);
    for _ in 0..u64::MAX {
        if !lines.next(reader)? {
            return Ok(());
        }
        trace_line(
            alloc,
            front,
            &mut labels,
            lines.line(),
            lines.number(),
            writer,
        )?;
    }
    Err(Stop::InputFault)
}

/// Performs the line with that number, unless it is empty.
fn trace_line<H: Handler, W: Write>(
    alloc: Global,
    front: &mut Front<H>,
    labels: &mut Labels,
    line: &[u8],
    number: u64,
    writer: &mut W,
) -> Result<(), Stop>
    ensures line { IsLine H.step line.now number (tracing front.old labels.old) result
        (tracing front.new labels.new)
        (Appends (W.Write.contents writer.old) (W.Write.contents writer.new)) }
    ensures used { IsUsed H.step front.old front.new }
{
    if line.is_empty() {
        return Ok(());
    }
    let event = parse_event(alloc, line, number)?;
    match connection_of(front, labels, event.label, number)? {
        Some(conn) => trace_event(alloc, front, labels, conn, &event, writer),
        None => Ok(()),
    }
}

/// Performs the event on that connection, and writes what the connection would send.
fn trace_event<H: Handler, W: Write>(
    alloc: Global,
    front: &mut Front<H>,
    labels: &mut Labels,
    conn: ConnId,
    event: &Event,
    writer: &mut W,
) -> Result<(), Stop>
    requires { get nat_cmp labels.old event.now.label ≡ Some (Some conn) }
    ensures traced { OnOk result (spec.IsTraced H.step event.now conn
        (tracing front.old labels.old) (tracing front.new labels.new)
        (Appends (W.Write.contents writer.old) (W.Write.contents writer.new))) }
    ensures err { IfErr result IsBroken }
    ensures apart { StaysApart conn.number front.old front.new }
    ensures used { IsUsed H.step front.old front.new }
{
    deliver(front, conn, event)?;
    report(alloc, front, labels, event.label, conn, writer)
}

/// Passes the piece, or the end, to the connection.
fn deliver<H: Handler>(front: &mut Front<H>, conn: ConnId, event: &Event) -> Result<(), Stop>
    ensures came { spec.ComesOn H.step conn.number event.now.moment event.now.piece front.old
        (is_ok result) front.new }
    ensures err { IfErr result (λ stop. stop ≡ NoMemory) }
    ensures apart { StaysApart conn.number front.old front.new }
    ensures used { IsUsed H.step front.old front.new }
{
    match &event.piece {
        Some(bytes) => match take_in(front, conn, event.moment, bytes.as_slice()) {
            Ok(()) => Ok(()),
            Err(_) => Err(Stop::NoMemory),
        },
        None => {
            end(front, conn);
            Ok(())
        }
    }
}

/// Notes the end of the connection.
fn end<H: Handler>(front: &mut Front<H>, conn: ConnId)
    ensures ended { spec.EndsOn conn.number front.old front.new }
    ensures apart { StaysApart conn.number front.old front.new }
    ensures used { IsUsed H.step front.old front.new }
{
    let _ = front.end(conn);
}
