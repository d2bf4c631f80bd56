//! What a row is answered: a line that begins with the names of its file and its row, and has ` | ` between the parts of the
//! answer. In texts `‹0A›` stands for a byte that cannot be shown, `‹›` for no text, and `«a*64»` for a character that stands
//! there 16 times or more.
use std::alloc::{AllocError, Global};
use std::fmt::Display;

/// How often a character stands in a row where it is written once, with the number.
const LONG_RUN: u32 = 16;

/// An answer, as far as it is there.
#[derive(Drop)]
pub(crate) struct Answer {
    line: String,
    parts: u32,
    refused: bool,
}

impl Answer {
    /// The answer to that row, without a part.
    pub(crate) fn new(alloc: Global, subject: &str, name: &str) -> Answer {
        let mut answer = Answer {
            line: String::new(alloc),
            parts: 0,
            refused: false,
        };
        answer.push(subject);
        answer.push(".");
        answer.push(name);
        answer
    }

    /// The line. The error is that memory was refused, to what was called or to the answer.
    pub(crate) fn line(&self) -> Result<&str, AllocError> {
        if self.refused {
            Err(AllocError)
        } else {
            Ok(self.line.as_str())
        }
    }

    /// Adds a line of its own, for the byte behind that name.
    pub(crate) fn begin_line(&mut self, subject: &str, name: &str, byte: u8) {
        if self.parts > 0 {
            self.push("\n");
            self.push(subject);
            self.push(".");
            self.push(name);
        }
        let written = write!(self.line, ".{byte:02X}");
        self.note(written);
        self.parts = 0;
    }

    /// Adds a part, as it is.
    pub(crate) fn word(&mut self, word: &str) {
        self.begin_part();
        self.push(word);
    }

    /// Adds `yes` or `no`.
    pub(crate) fn is(&mut self, holds: bool) {
        self.word(if holds { "yes" } else { "no" });
    }

    /// Adds the value as it is written.
    pub(crate) fn value<T: Display + Drop>(&mut self, value: T) {
        self.begin_part();
        let written = write!(self.line, "{value}");
        self.note(written);
    }

    /// Adds why something was refused.
    pub(crate) fn fault<T: Display + Drop>(&mut self, fault: T) {
        self.begin_part();
        let written = write!(self.line, "refused: {fault}");
        self.note(written);
    }

    /// Adds a text.
    pub(crate) fn text(&mut self, text: &str) {
        self.begin_part();
        if text.is_empty() {
            self.push("‹›");
        }
        let mut last = '\0';
        let mut times = 0u32;
        for character in text.chars() {
            if times > 0 && character != last {
                self.push_run(last, times);
                times = 0;
            }
            last = character;
            times = times.saturating_add(1);
        }
        self.push_run(last, times);
    }

    /// Adds a text, where there is one.
    pub(crate) fn text_or_none(&mut self, text: Option<&str>) {
        match text {
            Some(text) => self.text(text),
            None => self.word("-"),
        }
    }

    /// Adds bytes, of which those that are printable characters of ASCII are written so.
    pub(crate) fn bytes(&mut self, bytes: &[u8]) {
        self.begin_part();
        let mut named = false;
        for byte in bytes {
            let shown = *byte == b' ' || byte.is_ascii_graphic();
            if named && shown {
                self.push("›");
            }
            if shown {
                self.push_character(char::from(*byte));
            } else {
                self.push(if named { " " } else { "‹" });
                self.push_byte(*byte);
            }
            named = !shown;
        }
        if named {
            self.push("›");
        }
    }

    /// Adds that memory was refused.
    pub(crate) fn out_of_memory(&mut self) {
        self.refused = true;
    }

    fn begin_part(&mut self) {
        self.push(if self.parts == 0 { " " } else { " | " });
        self.parts = self.parts.saturating_add(1);
    }

    fn push_run(&mut self, character: char, times: u32) {
        if times < LONG_RUN {
            for _ in 0..times {
                self.push_shown(character);
            }
        } else {
            self.push("«");
            self.push_shown(character);
            let written = write!(self.line, "*{times}»");
            self.note(written);
        }
    }

    fn push_shown(&mut self, character: char) {
        if character < ' ' || character == '\u{7F}' {
            self.push("‹");
            let written = write!(self.line, "{:02X}", u32::from(character));
            self.note(written);
            self.push("›");
        } else {
            self.push_character(character);
        }
    }

    fn push_byte(&mut self, byte: u8) {
        let written = write!(self.line, "{byte:02X}");
        self.note(written);
    }

    fn push_character(&mut self, character: char) {
        let written = self.line.push(character);
        self.note(written.map_err(AllocError::from));
    }

    fn push(&mut self, text: &str) {
        let written = self.line.push_str(text);
        self.note(written);
    }

    fn note(&mut self, written: Result<(), AllocError>) {
        if written.is_err() {
            self.refused = true;
        }
    }
}
