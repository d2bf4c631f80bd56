//! `tests_rows`: calls of pure functions, each a row of a file in `data`, and what each answers. `stdout` has the answers that
//! are wanted, typed from the standards and the descriptions: it is compared with what the program prints, and each answer
//! begins with the name of its file and of its row.
#![tactic(auto)]

mod answers;
mod configurations;
mod elements;
mod encodings;
mod formats;
mod items;
mod keys;
mod lines;
mod names;
mod requests;
mod rows;
mod settings;
mod spellings;
mod times;
mod xml;

use answers::Answer;
use rows::Row;
use std::alloc::Global;
use std::fs;
use std::io::{self, BufWriter, Write};
use std::rt::Files;

fn main(rt: HostRuntime) -> io::Result<()> {
    for subject in subjects() {
        write_answers(&rt, subject)?;
    }
    Ok(())
}

/// The files of rows, without their ending.
fn subjects() -> [&'static str; 13] {
    [
        "names",
        "times",
        "requests",
        "lines",
        "items",
        "encodings",
        "spellings",
        "formats",
        "settings",
        "configurations",
        "keys",
        "elements",
        "xml",
    ]
}

/// Writes what each row of the file is answered, a line each.
fn write_answers(rt: &(impl Files + Print + AllocGlobal), subject: &str) -> io::Result<()> {
    let alloc = rt.alloc();
    let path = format!(in alloc; "{subject}.txt")?;
    let text = fs::read_to_string(rt, path.as_str())?;
    let mut out = BufWriter::new(alloc, io::writer(rt))?;
    for line in text.lines() {
        if !line.is_empty() && !line.starts_with('#') {
            write_answer(alloc, subject, line, &mut out)?;
        }
    }
    out.flush()
}

/// Writes what the row is answered. It stops where memory is refused.
fn write_answer<W: Write>(alloc: Global, subject: &str, line: &str, out: &mut W) -> io::Result<()> {
    let row = Row::read(alloc, line)?;
    let mut answer = Answer::new(alloc, subject, row.name);
    add_answer(alloc, subject, &row, &mut answer);
    out.write_all(answer.line()?.as_bytes())?;
    out.write_all(b"\n")
}

/// Adds what the row of that file is answered.
fn add_answer(alloc: Global, subject: &str, row: &Row<'_>, answer: &mut Answer) {
    match subject {
        "names" => names::answer(alloc, row, answer),
        "times" => times::answer(row, answer),
        "requests" => requests::answer(alloc, row, answer),
        "lines" => lines::answer(alloc, row, answer),
        "items" => items::answer(alloc, row, answer),
        "keys" => keys::answer(alloc, row, answer),
        "elements" => elements::answer(alloc, row, answer),
        "encodings" => encodings::answer(alloc, row, answer),
        "spellings" => spellings::answer(alloc, row, answer),
        "formats" => formats::answer(alloc, row, answer),
        "xml" => xml::answer(alloc, row, answer),
        "settings" => settings::answer(alloc, row, answer),
        _ => configurations::answer(alloc, row, answer),
    }
}
