//! Exchanges in the lines of an input.
ghost use Rattle.std.specs.Prelude.{◌≡◌, [], ℕ, List, Option, is_none, true, false, Ok, Err, IfErr, IfSome, OnOk};
ghost use Rattle.std.specs.Io.KnownBytes.{Appends};
ghost use Rattle.oai_host.specs.Hosts.{HostState};
ghost use Rattle.oai_cli.specs.Asked as asked;
ghost use Rattle.oai_cli.specs.Inputs.{numbered};
ghost use Rattle.oai_cli.specs.ExchangeLines as spec;
ghost use Rattle.oai_cli.specs.NumberedLines.{lines_of};
ghost use Rattle.oai_cli.specs.Stops.{StopsAsking};
ghost use Rattle.oai_cli.specs.Asked.{AreDoneAndCounted, IsLineOutcome};
ghost use Rattle.oai_startup.specs.declared.stop.Stop.TheVariants.{BadExchange, OutputFault};

pub(crate) mod answers;
pub(crate) mod exchanges;

use crate::ask::answers::write_answer;
use crate::ask::exchanges::parse_exchange;
use crate::input::lines::Lines;
use oai_catalogue::Versions;
use oai_host::Host;
use oai_startup::Stop;
use std::alloc::Global;
use std::io::{Read, Write};

/// Performs the exchanges in the lines of the input, in order, and writes their answers. A line is `<moment> <METHOD>
/// <target>`, and then for a body one space and the body to the end of the line; an empty line is skipped. The moment
/// is in seconds from 1970 on. An answer is its status, the seconds to wait and the lines done if it has them, a line
/// end, and its body.
///
/// It stops at the first line that is no exchange, at a fault of the input or the output, at an input that does not end
/// within 1,000,000 reads, and if memory for a line runs out. What was answered before stays written.
pub fn ask_lines<V: Versions + Drop, R: Read, W: Write>(
    alloc: Global,
    host: &mut Host<V>,
    reader: &mut R,
    writer: &mut W,
) -> Result<(), Stop>
    ensures asked { IfSome (R.Read.remaining reader.old) (λ input. asked.AreAsked (lines_of input)
        host.old result host.new
        (Appends (W.Write.contents writer.old) (W.Write.contents writer.new))) }
    ensures stops { IfErr result StopsAsking }
{
    let asked = ask_all(alloc, host, reader, writer);
    if writer.flush().is_err() {
        return Err(Stop::OutputFault);
    }
    asked
}

/// Reads the input to its end, and performs each line.
fn ask_all<V: Versions + Drop, R: Read, W: Write>(
    alloc: Global,
    host: &mut Host<V>,
    reader: &mut R,
    writer: &mut W,
) -> Result<(), Stop>
    ensures asked { IfSome (R.Read.remaining reader.old) (λ input. asked.AreAsked (lines_of input)
        host.old result host.new
        (Appends (W.Write.contents writer.old) (W.Write.contents writer.new))) }
    ensures stops { IfErr result StopsAsking }
{
    let mut lines = Lines::new(alloc)?;
    for _ in 0..u64::MAX {
        if !lines.next(reader)? {
            return Ok(());
        }
        ask_line(host, lines.line(), lines.number(), writer)?;
    }
    Err(Stop::InputFault)
}

/// Performs the line with that number, unless it is empty.
fn ask_line<V: Versions + Drop, W: Write>(
    host: &mut Host<V>,
    line: &[u8],
    number: u64,
    writer: &mut W,
) -> Result<(), Stop>
    ensures bad { spec.is_bad line.now ≡ true → result ≡ Err (BadExchange number) }
    ensures good { spec.is_bad line.now ≡ false → IfErr result (λ stop. stop ≡ OutputFault) }
    ensures empty { line.now ≡ [] → result ≡ Ok tt }
    ensures done { (first : HostState) (from : Option (List ℕ)) (front : List (List ℕ)) (count : ℕ)
        → number ≡ numbered true count
        → AreDoneAndCounted first host.old count (Appends from (W.Write.contents writer.old)) front
        → IsLineOutcome front line.now first result host.new number
        (Appends from (W.Write.contents writer.new)) }
{
    if line.is_empty() {
        return Ok(());
    }
    perform_line(host, line, number, writer)
}

/// Performs a line with that number, and writes its answer.
fn perform_line<V: Versions + Drop, W: Write>(
    host: &mut Host<V>,
    line: &[u8],
    number: u64,
    writer: &mut W,
) -> Result<(), Stop>
    ensures bad { is_none (spec.parse_exchange line.now) ≡ true → result ≡ Err (BadExchange number) }
    ensures bad_host { is_none (spec.parse_exchange line.now) ≡ true → host.new ≡ host.old }
    ensures bad_written { is_none (spec.parse_exchange line.now) ≡ true
        → W.Write.contents writer.new ≡ W.Write.contents writer.old }
    ensures good { is_none (spec.parse_exchange line.now) ≡ false → IfErr result (λ stop. stop
        ≡ OutputFault) }
    ensures done { OnOk result (spec.IsLineDone line.now host.old host.new
        (Appends (W.Write.contents writer.old) (W.Write.contents writer.new))) }
    ensures performed { is_none (spec.parse_exchange line.now) ≡ false
        → spec.IsLineDone line.now host.old host.new spec.IsUnspecified }
    ensures honesty { host.new.honest ≡ host.old.honest }
{
    let Some((moment, exchange)) = parse_exchange(line) else {
        return Err(Stop::BadExchange(number));
    };
    let answer = host.exchange(moment, &exchange);
    if write_answer(&answer, writer).is_err() {
        return Err(Stop::OutputFault);
    }
    Ok(())
}
