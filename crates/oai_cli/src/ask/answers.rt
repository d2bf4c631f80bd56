//! Writes an answer of `ask`.
ghost use Rattle.std.specs.Prelude.{◌≡◌, ◌++◌, decimal, OnOk};
ghost use Rattle.std.specs.Fmt.{signed_decimal};
ghost use Rattle.std.specs.Io.KnownBytes.{Appends};
ghost use Rattle.oai_cli.specs.ExchangeLines as spec;

use oai_http::Answer;
use std::io::{self, Write};

/// Writes an answer: its status, the seconds to wait and the lines done if it has them, a line end, and its body.
#[tactic(auto, unfolding(crate::specs::ExchangeLines::shown))]
pub fn write_answer<W: Write>(answer: &Answer, writer: &mut W) -> io::Result<()>
    ensures { OnOk result (Appends (W.Write.contents writer.old) (W.Write.contents writer.new)
        (spec.shown answer.now)) }
{
    write_status(answer.status.number(), writer)?;
    write_seconds(answer.seconds, writer)?;
    write_done(answer.done, writer)?;
    writer.write_all(b"\n")?;
    writer.write_all(answer.body.as_slice())
}

/// Writes the number of a status.
fn write_status<W: Write>(number: u16, writer: &mut W) -> io::Result<()>
    ensures { OnOk result (Appends (W.Write.contents writer.old) (W.Write.contents writer.new)
        (decimal number)) }
{
    write!(writer, "{number}")
}

/// Writes a space and the seconds to wait, if there are any.
fn write_seconds<W: Write>(seconds: Option<i64>, writer: &mut W) -> io::Result<()>
    ensures { OnOk result (Appends (W.Write.contents writer.old) (W.Write.contents writer.new)
        (spec.shown_seconds seconds)) }
{
    match seconds {
        Some(seconds) => write!(writer, " {seconds}"),
        None => Ok(()),
    }
}

/// Writes a space and the number of lines that were done, if there is one.
fn write_done<W: Write>(done: Option<u64>, writer: &mut W) -> io::Result<()>
    ensures { OnOk result (Appends (W.Write.contents writer.old) (W.Write.contents writer.new)
        (spec.shown_done done)) }
{
    match done {
        Some(done) => write!(writer, " {done}"),
        None => Ok(()),
    }
}
