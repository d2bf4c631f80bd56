//! A row: its name, what it calls, and its arguments with ` | ` between, in the notation of `tests_samples`.
use std::alloc::{AllocError, Global};
use tests_samples::{with_bytes, with_repeats};

/// A row.
#[derive(Drop)]
pub(crate) struct Row<'a> {
    /// Its name.
    pub(crate) name: &'a str,
    /// What it calls.
    pub(crate) call: &'a str,
    arguments: Vec<Vec<u8>>,
}

impl<'a> Row<'a> {
    /// The row in the line. The error is out of memory.
    pub(crate) fn read(alloc: Global, line: &'a str) -> Result<Row<'a>, AllocError> {
        let (name, rest) = line.split_once(' ').unwrap_or((line, ""));
        let (call, rest) = rest.split_once(' ').unwrap_or((rest, ""));
        Ok(Row {
            name,
            call,
            arguments: arguments_in(alloc, rest)?,
        })
    }

    /// How many arguments it has.
    pub(crate) fn len(&self) -> usize {
        self.arguments.len()
    }

    /// The argument at that place as bytes; no bytes where there is none.
    pub(crate) fn bytes(&self, at: usize) -> &[u8] {
        match self.arguments.get(at) {
            Some(argument) => argument.as_slice(),
            None => &[],
        }
    }

    /// The argument at that place as text; no text where there is none, or it is not UTF-8.
    pub(crate) fn text(&self, at: usize) -> &str {
        str::from_utf8(self.bytes(at)).unwrap_or("")
    }

    /// The argument at that place as a number; none where it is no number.
    pub(crate) fn number(&self, at: usize) -> Option<i64> {
        self.text(at).parse::<i64>().ok()
    }
}

/// The arguments in the text.
fn arguments_in(alloc: Global, text: &str) -> Result<Vec<Vec<u8>>, AllocError> {
    let text = with_repeats(alloc, text)?;
    let mut arguments = Vec::new(alloc);
    for argument in text.split(" | ") {
        arguments.push(with_bytes(alloc, argument)?)?;
    }
    Ok(arguments)
}
