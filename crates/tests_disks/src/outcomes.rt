//! What the lines of a script come to: each line, an arrow, and what it came to, with ` | ` between its parts. In bytes
//! `‹0A›` stands for one that is no printable character of ASCII, and `‹›` for none.
use std::alloc::{AllocError, Global};
use std::fmt::Display;

/// The outcomes of the lines that were performed.
#[derive(Drop)]
pub(crate) struct Outcomes {
    text: String,
    parts: u32,
    refused: bool,
}

impl Outcomes {
    /// No outcome.
    pub(crate) fn new(alloc: Global) -> Outcomes {
        Outcomes {
            text: String::new(alloc),
            parts: 0,
            refused: false,
        }
    }

    /// The outcomes, a line each. The error is that memory was refused to them.
    pub(crate) fn text(&self) -> Result<&str, AllocError> {
        if self.refused {
            Err(AllocError)
        } else {
            Ok(self.text.as_str())
        }
    }

    /// Begins the outcome of the line.
    pub(crate) fn begin(&mut self, line: &str) {
        if !self.text.is_empty() {
            self.push("\n");
        }
        self.push(line);
        self.push(" →");
        self.parts = 0;
    }

    /// Adds a part, as it is.
    pub(crate) fn word(&mut self, word: &str) {
        self.begin_part();
        self.push(word);
    }

    /// Adds `yes` or `no`.
    pub(crate) fn is(&mut self, holds: bool) {
        self.word(if holds { "yes" } else { "no" });
    }

    /// Adds the value as it is written.
    pub(crate) fn value<T: Display + Drop>(&mut self, value: T) {
        self.begin_part();
        let written = write!(self.text, "{value}");
        self.note(written);
    }

    /// Adds `done`, or why it failed.
    pub(crate) fn done<T: Display + Drop>(&mut self, ended: Result<(), T>) {
        match ended {
            Ok(()) => self.word("done"),
            Err(fault) => self.value(fault),
        }
    }

    /// Adds bytes, of which those that are printable characters of ASCII are written so.
    pub(crate) fn bytes(&mut self, bytes: &[u8]) {
        self.begin_part();
        if bytes.is_empty() {
            self.push("‹›");
        }
        for byte in bytes {
            if *byte == b' ' || byte.is_ascii_graphic() {
                self.push_character(char::from(*byte));
            } else {
                let written = write!(self.text, "‹{byte:02X}›");
                self.note(written);
            }
        }
    }

    /// Adds numbers, with spaces between; `‹›` where there are none.
    pub(crate) fn numbers<T: Display>(&mut self, numbers: &[T]) {
        self.begin_part();
        if numbers.is_empty() {
            self.push("‹›");
        }
        for (place, number) in numbers.iter().enumerate() {
            if place > 0 {
                self.push(" ");
            }
            let written = write!(self.text, "{number}");
            self.note(written);
        }
    }

    fn begin_part(&mut self) {
        self.push(if self.parts == 0 { " " } else { " | " });
        self.parts = self.parts.saturating_add(1);
    }

    fn push_character(&mut self, character: char) {
        let written = self.text.push(character);
        self.note(written.map_err(AllocError::from));
    }

    fn push(&mut self, text: &str) {
        let written = self.text.push_str(text);
        self.note(written);
    }

    fn note(&mut self, written: Result<(), AllocError>) {
        if written.is_err() {
            self.refused = true;
        }
    }
}
