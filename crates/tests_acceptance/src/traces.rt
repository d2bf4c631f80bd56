//! Connections with a host, whose pieces stand in lines: as `trace` reads and writes them, or each piece by its text behind ` | `, in
//! which `↵` stands for the line end of a head, and `¶` for that of a body.
use oai_cli::{MAX_CONNECTIONS, trace_lines};
use oai_front::Front;
use oai_http::Handler;
use std::alloc::{AllocError, Global};
use std::io::{self, Write};
use tests_samples::with_bytes;

/// Performs the lines as those of `trace`.
pub(crate) fn trace<H: Handler + Drop>(
    alloc: Global,
    handler: H,
    lines: &str,
    out: &mut Vec<u8>,
) -> io::Result<()> {
    let lines = with_bytes(alloc, lines)?;
    let mut reader = lines.as_slice();
    let mut front = Front::new(alloc, handler, MAX_CONNECTIONS);
    match trace_lines(alloc, &mut front, &mut reader, out) {
        Ok(()) => Ok(()),
        Err(stop) => writeln!(out, "stopped: {stop}"),
    }
}

/// The same of lines with texts, and writes the texts that are sent.
pub(crate) fn connect<H: Handler + Drop>(
    alloc: Global,
    handler: H,
    lines: &str,
    out: &mut Vec<u8>,
) -> io::Result<()> {
    let lines = in_digits(alloc, lines)?;
    let mut sent = Vec::new(alloc);
    trace(alloc, handler, lines.as_str(), &mut sent)?;
    for line in str::from_utf8(&sent).unwrap_or("no text").lines() {
        write_text(alloc, line, out)?;
    }
    Ok(())
}

/// The lines, each text by its digits.
fn in_digits(alloc: Global, lines: &str) -> Result<String, AllocError> {
    let mut all = String::new(alloc);
    for line in lines.lines() {
        match line.split_once(" | ") {
            Some((front, text)) => push_digits(alloc, front, text, &mut all)?,
            None => all.push_str(line)?,
        }
        all.push('\n')?;
    }
    Ok(all)
}

/// Adds the digits of the text behind its front.
fn push_digits(alloc: Global, front: &str, text: &str, all: &mut String) -> Result<(), AllocError> {
    let text = text.replace(alloc, "↵", "\r\n")?;
    let text = text.replace(alloc, "¶", "\n")?;
    let bytes = with_bytes(alloc, text.as_str())?;
    let digits = hex::encode(alloc, bytes.as_slice())?;
    write!(all, "{front} {digits}")
}

/// Writes the line, and in place of digits their text.
fn write_text(alloc: Global, line: &str, out: &mut Vec<u8>) -> io::Result<()> {
    let (label, digits) = line.split_once(' ').unwrap_or(("", line));
    match hex::decode(alloc, digits) {
        Ok(bytes) => {
            let text = str::from_utf8(&bytes).unwrap_or("no text");
            let text = text.replace(alloc, "\r\n", "↵")?;
            let text = text.replace(alloc, "\n", "¶")?;
            writeln!(out, "{label} | {text}")
        }
        Err(_) => writeln!(out, "{line}"),
    }
}
