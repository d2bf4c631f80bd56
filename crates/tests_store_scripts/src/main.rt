//! `tests_store_scripts`: calls of stores of versions, plain and paged, over devices that fail or return wrong bytes, and of the table
//! of open lists, as scripts in `data`. `stdout` has the answers that are wanted, typed from the descriptions: it is compared with
//! what the program prints, and each line begins with the name of its script.
#![tactic(auto)]

mod beside;
mod calls;
mod counts;
mod devices;
mod failing;
mod families;
mod filters;
mod lines;
mod lists;
mod names;
mod orders;
mod random;
mod runs;
mod samples;
mod spellings;
mod stores;
mod tables;
mod written;

use runs::{Script, Way};
use std::alloc::{AllocError, Global};
use std::fs;
use std::io::{self, BufWriter, Write};
use std::rt::Files;
use stores::answers_over;
use tables::table_answers;
use tests_samples::with_repeats;

fn main(rt: HostRuntime) -> io::Result<()> {
    for path in [
        "versions.txt",
        "replacements.txt",
        "parts_after.txt",
        "open_lists.txt",
        "pages.txt",
        "filters.txt",
        "costs.txt",
        "long_items.txt",
        "random.txt",
        "damage.txt",
    ] {
        perform_file(&rt, path)?;
    }
    Ok(())
}

/// Performs the scripts of the file, each behind `== `, and writes what they are answered.
fn perform_file(rt: &(impl Files + Print + AllocGlobal), path: &str) -> io::Result<()> {
    let alloc = rt.alloc();
    let text = fs::read_to_string(rt, path)?;
    let text = without_comments(alloc, text.as_str())?;
    let text = with_repeats(alloc, text.as_str())?;
    let mut out = BufWriter::new(alloc, io::writer(rt))?;
    for block in text.split("\n== ").skip(1) {
        perform_script(alloc, Script::read(block), &mut out)?;
    }
    out.flush()
}

/// The lines that do not begin with a `#`, each behind a line end.
fn without_comments(alloc: Global, text: &str) -> Result<String, AllocError> {
    let mut rest = String::new(alloc);
    for line in text.lines() {
        if !line.starts_with('#') {
            rest.push('\n')?;
            rest.push_str(line)?;
        }
    }
    Ok(rest)
}

/// Performs the script over each of its stores, and writes what it is answered over the first, and over each other one that this
/// is the same, or what else it is.
fn perform_script<W: Write>(alloc: Global, script: Script<'_>, out: &mut W) -> io::Result<()> {
    let mut first = Vec::new(alloc);
    for (place, store) in script.stores.split(' ').enumerate() {
        let mut answers = Vec::new(alloc);
        perform(alloc, script, store, &mut answers)?;
        if place == 0 {
            write_lines(script.name, answers.as_slice(), out)?;
            first = answers;
        } else if answers == first {
            writeln!(out, "{} {store}: the same", script.name)?;
        } else {
            writeln!(out, "{} {store}: other answers", script.name)?;
            write_lines(script.name, answers.as_slice(), out)?;
        }
    }
    Ok(())
}

/// Adds what the script is answered over the store.
fn perform(alloc: Global, script: Script<'_>, store: &str, out: &mut Vec<u8>) -> io::Result<()> {
    match script.way {
        Way::Table => table_answers(alloc, script.lines, out),
        Way::Store(way) => answers_over(alloc, way, script.lines, store, out),
    }
}

/// Writes each line of the answers behind the name.
fn write_lines<W: Write>(name: &str, answers: &[u8], out: &mut W) -> io::Result<()> {
    let answers = answers.strip_suffix(b"\n").unwrap_or(answers);
    for line in answers.split(|byte| *byte == b'\n') {
        write!(out, "{name}: ")?;
        out.write_all(line)?;
        out.write_all(b"\n")?;
    }
    Ok(())
}
