//! `tests_disks`: journals and their files (`oai_journal`), by scripts in `data`. `stdout` has the outcomes that are
//! wanted, typed from the descriptions: it is compared with what the program prints, and each line begins with the
//! names of its file and of its script.
#![tactic(auto)]

mod journals;
mod outcomes;
mod readings;
mod scripts;

use outcomes::Outcomes;
use scripts::Script;
use std::alloc::{AllocError, Global};
use std::fs::{self, File};
use std::io::{self, BufWriter, Write};
use std::rt::Files;
use tests_samples::with_repeats;

fn main(rt: HostRuntime) -> io::Result<()> {
    for subject in ["journals", "readings"] {
        perform_file(&rt, subject)?;
    }
    Ok(())
}

/// Performs the scripts of the file, each behind `== `, and writes what their lines come to.
fn perform_file(
    rt: &(impl Files<File = File> + Print + AllocGlobal),
    subject: &str,
) -> io::Result<()> {
    let alloc = rt.alloc();
    let path = format!(in alloc; "{subject}.txt")?;
    let text = fs::read_to_string(rt, path.as_str())?;
    let text = without_comments(alloc, text.as_str())?;
    let text = with_repeats(alloc, text.as_str())?;
    let mut out = BufWriter::new(alloc, io::writer(rt))?;
    for block in text.split("\n== ").skip(1) {
        perform_script(rt, subject, Script::read(block), &mut out)?;
    }
    out.flush()
}

/// The lines that are not empty and do not begin with a `#`, each behind a line end.
fn without_comments(alloc: Global, text: &str) -> Result<String, AllocError> {
    let mut rest = String::new(alloc);
    for line in text.lines() {
        if !line.is_empty() && !line.starts_with('#') {
            rest.push('\n')?;
            rest.push_str(line)?;
        }
    }
    Ok(rest)
}

/// Performs the script at each of its places, and writes what its lines come to at the first, and of each other one
/// that this is the same, or what else it is.
fn perform_script<W: Write>(
    rt: &(impl Files<File = File> + AllocGlobal),
    subject: &str,
    script: Script<'_>,
    out: &mut W,
) -> io::Result<()> {
    let mut first = Outcomes::new(rt.alloc());
    for (number, place) in script.places.split(' ').enumerate() {
        let mut outcomes = Outcomes::new(rt.alloc());
        perform(rt, subject, place, script.lines, &mut outcomes);
        let text = outcomes.text()?;
        if number == 0 {
            write_lines(subject, script.name, text, out)?;
            first = outcomes;
        } else if text == first.text()? {
            writeln!(out, "{subject}.{}: {place}: the same", script.name)?;
        } else {
            writeln!(out, "{subject}.{}: {place}: other outcomes", script.name)?;
            write_lines(subject, script.name, text, out)?;
        }
    }
    Ok(())
}

/// Performs the lines at that place.
fn perform(
    rt: &(impl Files<File = File> + AllocGlobal),
    subject: &str,
    place: &str,
    lines: &str,
    out: &mut Outcomes,
) {
    match subject {
        "journals" => journals::perform_at(rt.alloc(), place, lines, out),
        _ => readings::perform_all(rt.alloc(), lines, out),
    }
}

/// Writes each line of the outcomes behind the names.
fn write_lines<W: Write>(subject: &str, name: &str, text: &str, out: &mut W) -> io::Result<()> {
    for line in text.lines() {
        writeln!(out, "{subject}.{name}: {line}")?;
    }
    Ok(())
}
