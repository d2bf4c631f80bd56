//! The answers of a script as they are written: each line behind its name. A line and a byte that stand more than 1,000
//! times in a row are written as scripts write repeats.
use std::io::{self, Write};
use std::slice;

/// How often a line or a byte is written out.
const MOST: u64 = 1_000;

/// Writes each line of the answers behind the name.
pub(crate) fn write_lines<W: Write>(name: &str, answers: &[u8], out: &mut W) -> io::Result<()> {
    let answers = answers.strip_suffix(b"\n").unwrap_or(answers);
    let mut last: &[u8] = b"";
    let mut count: u64 = 0;
    for line in answers.split(|byte| *byte == b'\n') {
        if line != last {
            write_times(name, last, count, out)?;
            count = 0;
        }
        last = line;
        count = count.saturating_add(1);
    }
    write_times(name, last, count, out)
}

/// Writes the line so many times.
fn write_times<W: Write>(name: &str, line: &[u8], count: u64, out: &mut W) -> io::Result<()> {
    if count > MOST {
        write!(out, "{name}: «")?;
        write_line(line, out)?;
        return writeln!(out, "*{count}»");
    }
    for _ in 0..count {
        write!(out, "{name}: ")?;
        write_line(line, out)?;
        out.write_all(b"\n")?;
    }
    Ok(())
}

/// Writes the line.
fn write_line<W: Write>(line: &[u8], out: &mut W) -> io::Result<()> {
    let mut last: u8 = 0;
    let mut count: u64 = 0;
    for byte in line {
        if *byte != last {
            write_bytes(last, count, out)?;
            count = 0;
        }
        last = *byte;
        count = count.saturating_add(1);
    }
    write_bytes(last, count, out)
}

/// Writes the byte so many times.
fn write_bytes<W: Write>(byte: u8, count: u64, out: &mut W) -> io::Result<()> {
    if count > MOST {
        out.write_all("«".as_bytes())?;
        out.write_all(slice::from_ref(&byte))?;
        return write!(out, "*{count}»");
    }
    for _ in 0..count {
        out.write_all(slice::from_ref(&byte))?;
    }
    Ok(())
}
