//! The lines of scripts: the choices in braces, and words.
use std::alloc::{AllocError, Global};

/// How many braces a line may have.
const BRACES: u32 = 4;

/// The line once for each choice in its braces; those in the first one change last. What stands between `; ` is a line each. The error
/// is out of memory.
pub(crate) fn each_line(alloc: Global, line: &str) -> Result<Vec<String>, AllocError> {
    let mut lines = Vec::new(alloc);
    push_line(alloc, "", line, "", &mut lines)?;
    for _ in 0..BRACES {
        lines = with_choices(alloc, lines.as_slice())?;
    }
    cut_all(alloc, lines.as_slice())
}

/// What stands between `; ` in the lines.
fn cut_all(alloc: Global, lines: &[String]) -> Result<Vec<String>, AllocError> {
    let mut all = Vec::new(alloc);
    for line in lines {
        push_parts(alloc, line.as_str(), &mut all)?;
    }
    Ok(all)
}

fn push_parts(alloc: Global, line: &str, all: &mut Vec<String>) -> Result<(), AllocError> {
    for part in line.split("; ") {
        push_line(alloc, "", part, "", all)?;
    }
    Ok(())
}

/// Each line once for each choice in the first of its braces.
fn with_choices(alloc: Global, lines: &[String]) -> Result<Vec<String>, AllocError> {
    let mut all = Vec::new(alloc);
    for line in lines {
        push_choices(alloc, line.as_str(), &mut all)?;
    }
    Ok(all)
}

fn push_choices(alloc: Global, line: &str, all: &mut Vec<String>) -> Result<(), AllocError> {
    match cut(line) {
        Some(line) => push_each(alloc, line, all),
        None => push_line(alloc, "", line, "", all),
    }
}

/// A line with a choice: what is before it, the choice, and what is behind it.
type Choice<'a> = (&'a str, &'a str, &'a str);

fn cut(line: &str) -> Option<Choice<'_>> {
    let (front, rest) = line.split_once('{')?;
    let (choices, back) = rest.split_once('}')?;
    Some((front, choices, back))
}

fn push_each(alloc: Global, line: Choice<'_>, all: &mut Vec<String>) -> Result<(), AllocError> {
    let (front, choices, back) = line;
    if choices.contains('|') {
        return push_texts(alloc, line, all);
    }
    for choice in choices.split(',') {
        push_numbers(alloc, (front, choice, back), all)?;
    }
    Ok(())
}

/// The line for each text between `|`.
fn push_texts(alloc: Global, line: Choice<'_>, all: &mut Vec<String>) -> Result<(), AllocError> {
    let (front, choices, back) = line;
    for choice in choices.split('|') {
        push_line(alloc, front, choice, back, all)?;
    }
    Ok(())
}

/// The line for the choice, or for each number of a range.
fn push_numbers(alloc: Global, line: Choice<'_>, all: &mut Vec<String>) -> Result<(), AllocError> {
    let (front, choice, back) = line;
    match choice.split_once("..") {
        Some((first, last)) => {
            push_range(alloc, (front, back), number(first), number(last), all)
        }
        None => push_line(alloc, front, choice, back, all),
    }
}

/// The line for each number of the range.
fn push_range(
    alloc: Global,
    line: (&str, &str),
    first: u32,
    last: u32,
    all: &mut Vec<String>,
) -> Result<(), AllocError> {
    for number in first..=last {
        let line = format!(in alloc; "{}{number}{}", line.0, line.1)?;
        all.push(line)?;
    }
    Ok(())
}

fn push_line(
    alloc: Global,
    front: &str,
    choice: &str,
    back: &str,
    all: &mut Vec<String>,
) -> Result<(), AllocError> {
    let line = format!(in alloc; "{front}{choice}{back}")?;
    all.push(line)?;
    Ok(())
}

/// The word at that place, counted from 0; no text where there is none.
pub(crate) fn word(text: &str, at: usize) -> &str {
    text.split(' ').nth(at).unwrap_or("")
}

/// What stands behind the first word.
pub(crate) fn behind_word(text: &str) -> &str {
    match text.split_once(' ') {
        Some((_, rest)) => rest,
        None => "",
    }
}

/// The number; 0 where it is none.
pub(crate) fn number(text: &str) -> u32 {
    text.parse::<u32>().unwrap_or(0)
}
