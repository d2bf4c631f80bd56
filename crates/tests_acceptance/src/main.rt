//! `tests_acceptance`: exchanges and connections with the host of the worked configuration, and with one whose records may be elements,
//! and calls of repositories without a host, as scripts in `data`, over lists, over pages, and over stores of which a call fails.
//! `stdout` has the answers that are wanted, typed from the standards and the descriptions: it is compared with what the program
//! prints, and each line of an answer begins with the name of its script.
#![tactic(auto)]

mod answers;
mod counted;
mod hosts;
mod parts;
mod repositories;
mod restored;
mod runs;
mod scripts;
mod traces;

use answers::write_lines;
use counted::counts_over;
use hosts::answers_over;
use repositories::answers_of;
use scripts::{Script, Way};
use std::alloc::{AllocError, Global};
use std::fs;
use std::io::{self, BufWriter, Write};
use std::rt::Files;
use tests_fixtures::unasked;
use tests_samples::with_repeats;
use traces::connect;

fn main(rt: HostRuntime) -> io::Result<()> {
    for path in [
        "exchanges.txt",
        "harvests.txt",
        "tokens.txt",
        "repositories.txt",
        "neighbours.txt",
        "deposits.txt",
        "refusals.txt",
        "failures.txt",
        "elements.txt",
        "traces.txt",
        "archives.txt",
        "many.txt",
        "pages.txt",
        "runs.txt",
        "saved.txt",
        "restored.txt",
        "connections.txt",
        "lines.txt",
    ] {
        perform_file(&rt, path)?;
    }
    Ok(())
}

/// Performs the scripts of the file, each behind `== `, and writes what they are answered.
fn perform_file(rt: &(impl Files + Print + AllocGlobal), path: &str) -> io::Result<()> {
    let alloc = rt.alloc();
    let text = fs::read_to_string(rt, path)?;
    let text = without_comments(alloc, text.as_str())?;
    let text = with_repeats(alloc, text.as_str())?;
    let mut out = BufWriter::new(alloc, io::writer(rt))?;
    for block in text.split("\n== ").skip(1) {
        perform_script(alloc, Script::read(block), &mut out)?;
    }
    out.flush()
}

/// The lines that do not begin with a `#`, each behind a line end.
fn without_comments(alloc: Global, text: &str) -> Result<String, AllocError> {
    let mut rest = String::new(alloc);
    for line in text.lines() {
        if !line.starts_with('#') {
            rest.push('\n')?;
            rest.push_str(line)?;
        }
    }
    Ok(rest)
}

/// Performs the script over each of its stores, and writes what it is answered over the first, and over each other one that this
/// is the same, or what else it is.
fn perform_script<W: Write>(alloc: Global, script: Script<'_>, out: &mut W) -> io::Result<()> {
    let mut first = Vec::new(alloc);
    for (place, store) in script.stores.split(' ').enumerate() {
        let mut answers = Vec::new(alloc);
        perform(alloc, script, store, &mut answers)?;
        if place == 0 {
            write_lines(script.name, answers.as_slice(), out)?;
            first = answers;
        } else if answers == first {
            writeln!(out, "{} {store}: the same", script.name)?;
        } else {
            writeln!(out, "{} {store}: other answers", script.name)?;
            write_lines(script.name, answers.as_slice(), out)?;
        }
    }
    Ok(())
}

/// Adds what the script is answered over the store.
fn perform(alloc: Global, script: Script<'_>, store: &str, out: &mut Vec<u8>) -> io::Result<()> {
    match script.way {
        Way::Host(way) => answers_over(alloc, way, script.lines, store, out),
        Way::Tell => connect(alloc, unasked(alloc), script.lines, out),
        Way::Counted => counts_over(alloc, script.lines, store, out),
        Way::Repository(way) => answers_of(alloc, way, script.lines, store, out),
    }
}
