//! A script: behind `== ` its name and the places at which its lines are performed; and then the lines.

/// A script.
#[derive(Clone, Copy)]
pub(crate) struct Script<'a> {
    /// Its name.
    pub(crate) name: &'a str,
    /// The places, with spaces between.
    pub(crate) places: &'a str,
    /// Its lines.
    pub(crate) lines: &'a str,
}

impl<'a> Script<'a> {
    /// The script in the text: its first line, and the others.
    pub(crate) fn read(text: &'a str) -> Script<'a> {
        let (head, lines) = text.split_once('\n').unwrap_or((text, ""));
        let (name, places) = head.split_once(' ').unwrap_or((head, ""));
        Script {
            name,
            places,
            lines,
        }
    }
}

/// A line of a script, or a place: what it names, and its arguments with spaces between.
#[derive(Clone, Copy)]
pub(crate) struct Line<'a> {
    /// What is called.
    pub(crate) call: &'a str,
    /// All of its arguments.
    pub(crate) rest: &'a str,
}

impl<'a> Line<'a> {
    /// The line in the text, with that character behind what it calls.
    pub(crate) fn read(text: &'a str, behind: char) -> Line<'a> {
        let (call, rest) = text.split_once(behind).unwrap_or((text, ""));
        Line { call, rest }
    }

    /// The argument at that place; no text where there is none.
    pub(crate) fn word(self, at: usize) -> &'a str {
        self.rest.split(' ').nth(at).unwrap_or("")
    }

    /// The argument at that place as a number; 0 where it is none.
    pub(crate) fn number(self, at: usize) -> u64 {
        self.word(at).parse::<u64>().unwrap_or(0)
    }

    /// The same as the number of a page.
    pub(crate) fn page(self, at: usize) -> u32 {
        self.word(at).parse::<u32>().unwrap_or(0)
    }

    /// The same as a short number.
    pub(crate) fn short(self, at: usize) -> u16 {
        self.word(at).parse::<u16>().unwrap_or(0)
    }

    /// The same as a byte.
    pub(crate) fn byte(self, at: usize) -> u8 {
        self.word(at).parse::<u8>().unwrap_or(0)
    }

    /// The same as a moment.
    pub(crate) fn moment(self, at: usize) -> i64 {
        self.word(at).parse::<i64>().unwrap_or(0)
    }

    /// The same as a size.
    pub(crate) fn size(self, at: usize) -> usize {
        self.word(at).parse::<usize>().unwrap_or(0)
    }
}

/// The lines before the first line `--`, and those behind it.
pub(crate) fn parts_of(lines: &str) -> (&str, &str) {
    lines.split_once("--\n").unwrap_or((lines, ""))
}
