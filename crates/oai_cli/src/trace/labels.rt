//! The labels of a trace, and their connections.
ghost use Rattle.std.specs.Prelude.{◌≡◌, ◌≢◌, ℕ, None, Some, true, IfErr, IfOk, OnOk};
ghost use Rattle.std.specs.BTreeMap.{get};
ghost use Rattle.std.specs.Io.KnownBytes.{Appends};
ghost use Rattle.std.specs.Ordering.{nat_cmp};
ghost use Rattle.oai_front.specs.Fronts.{connection_numbered};
ghost use Rattle.oai_cli.specs.EventLines.{shown_close, shown_output};
ghost use Rattle.oai_cli.specs.Outputs.{StaysApart, IsEmptied, IsUsed, output_of};
ghost use Rattle.oai_cli.specs.Traces as spec;
ghost use Rattle.oai_cli.specs.Traces.{IsBroken, IsUnopened, tracing};
ghost use Rattle.oai_startup.specs.declared.stop.Stop.TheVariants.{NoMemory, OutputFault};

use crate::connections::forget_connection;
use crate::trace::outputs::take_output;
use oai_front::{ConnId, Front, OpenFault};
use oai_http::Handler;
use oai_startup::Stop;
use std::alloc::Global;
use std::collections::BTreeMap;
use std::io::Write;

/// The connections of a trace by their labels; None if it was dropped.
pub(crate) type Labels = BTreeMap<u64, Option<ConnId>>;

/// Writes the output of the connection and, if it is closing, that it is closed; then it is dropped.
pub(crate) fn report<H: Handler, W: Write>(
    alloc: Global,
    front: &mut Front<H>,
    labels: &mut Labels,
    label: u64,
    conn: ConnId,
    writer: &mut W,
) -> Result<(), Stop>
    requires { get nat_cmp labels.old label ≡ Some (Some conn) }
    ensures written { OnOk result (Appends (W.Write.contents writer.old) (W.Write.contents writer.new)
        (spec.shown_on label (connection_numbered conn.number front.old.connections))) }
    ensures left { OnOk result (connection_numbered conn.number front.new.connections
        ≡ spec.left_on (connection_numbered conn.number front.old.connections)) }
    ensures named { OnOk result (spec.IsLabelled label
        (spec.name_on conn (connection_numbered conn.number front.old.connections))
        (get nat_cmp labels.old) (get nat_cmp labels.new)) }
    ensures err { IfErr result IsBroken }
    ensures apart { StaysApart conn.number front.old front.new }
    ensures handler { front.new.handler ≡ front.old.handler }
    ensures used { IsUsed H.step front.old front.new }
{
    write_output(alloc, front, conn, label, writer)?;
    if reads_nothing(front, conn) {
        write_close(label, writer)?;
        return forget(front, labels, label, conn);
    }
    Ok(())
}

/// Whether the connection is open and reads no more input.
fn reads_nothing<H>(front: &Front<H>, conn: ConnId) -> bool
    ensures { result ≡ spec.reads_no_more (connection_numbered conn.number front.now.connections) }
{
    front.closing(conn).unwrap_or(false)
}

/// The connection of the label, which is opened if the label is new; None if it was dropped.
pub(crate) fn connection_of<H: Handler>(
    front: &mut Front<H>,
    labels: &mut Labels,
    label: u64,
    number: u64,
) -> Result<Option<ConnId>, Stop>
    ensures of { IfOk result (λ conn. spec.IsConnectionOf label (tracing front.old labels.old) conn
        (tracing front.new labels.new)) }
    ensures named { IfOk result (λ conn. get nat_cmp labels.new label ≡ Some conn) }
    ensures refused { IfErr result
        (IsUnopened number label (tracing front.old labels.old) front.new) }
    ensures used { IsUsed H.step front.old front.new }
{
    if let Some(known) = labels.get(&label) {
        return Ok(*known);
    }
    let conn = match front.open() {
        Ok(conn) => conn,
        Err(OpenFault::NoMemory) => return Err(Stop::NoMemory),
        Err(_) => return Err(Stop::TooManyConnections(number)),
    };
    match labels.insert(label, Some(conn)) {
        Ok(_) => Ok(Some(conn)),
        Err(_) => Err(Stop::NoMemory),
    }
}

/// Writes the whole output of the connection, if there is any, as a line `<label> <hex>`.
fn write_output<H: Handler, W: Write>(
    alloc: Global,
    front: &mut Front<H>,
    conn: ConnId,
    label: u64,
    writer: &mut W,
) -> Result<(), Stop>
    ensures written { OnOk result (Appends (W.Write.contents writer.old) (W.Write.contents writer.new)
        (shown_output label (output_of conn.number front.old.connections))) }
    ensures emptied { OnOk result (IsEmptied conn.number front.old front.new) }
    ensures err { IfErr result IsBroken }
    ensures apart { StaysApart conn.number front.old front.new }
    ensures handler { front.new.handler ≡ front.old.handler }
    ensures used { IsUsed H.step front.old front.new }
{
    let bytes = take_output(alloc, front, conn)?;
    if bytes.is_empty() {
        return Ok(());
    }
    let Ok(text) = hex::encode(alloc, bytes.as_slice()) else {
        return Err(Stop::NoMemory);
    };
    match writeln!(writer, "{label} {text}") {
        Ok(()) => Ok(()),
        Err(_) => Err(Stop::OutputFault),
    }
}

/// Writes that the connection of the label is closed.
fn write_close<W: Write>(label: u64, writer: &mut W) -> Result<(), Stop>
    ensures written { OnOk result (Appends (W.Write.contents writer.old)
        (W.Write.contents writer.new) (shown_close label true)) }
    ensures err { IfErr result (λ stop. stop ≡ OutputFault) }
{
    match writeln!(writer, "{label} close") {
        Ok(()) => Ok(()),
        Err(_) => Err(Stop::OutputFault),
    }
}

/// Drops the connection of the label, so that later lines of the label have no effect.
fn forget<H: Handler>(
    front: &mut Front<H>,
    labels: &mut Labels,
    label: u64,
    conn: ConnId,
) -> Result<(), Stop>
    ensures none { connection_numbered conn.number front.new.connections ≡ None }
    ensures named { OnOk result (get nat_cmp labels.new label ≡ Some None) }
    ensures err { IfErr result (λ stop. stop ≡ NoMemory) }
    ensures others { (other : ℕ) → other ≢ label
        → get nat_cmp labels.new other ≡ get nat_cmp labels.old other }
    ensures apart { StaysApart conn.number front.old front.new }
    ensures handler { front.new.handler ≡ front.old.handler }
    ensures used { IsUsed H.step front.old front.new }
{
    forget_connection(front, conn);
    match labels.insert(label, None) {
        Ok(_) => Ok(()),
        Err(_) => Err(Stop::NoMemory),
    }
}
