//! Why a line is refused: the first cause that is found, and its place in the line.
use crate::places::{column_at, element_place, member_place, start_from};
use std::alloc::Global;

/// The cause of a refusal. Nothing is known of it at first, and what is added after the first cause is left out.
#[derive(Drop)]
pub(crate) struct Diagnostic<'a> {
    alloc: Global,
    line: &'a str,
    column: usize,
    why: String,
}

impl<'a> Diagnostic<'a> {
    /// No cause, of a line.
    pub(crate) fn new(alloc: Global, line: &'a str) -> Diagnostic<'a> {
        Diagnostic {
            alloc,
            line,
            column: 0,
            why: String::new(alloc),
        }
    }

    /// The allocator of what is reported.
    pub(crate) fn alloc(&self) -> Global {
        self.alloc
    }

    /// Its column, counted in bytes from 1; 0 if it is not known.
    pub(crate) fn column(&self) -> usize {
        self.column
    }

    /// The cause in words; empty if it is not known.
    pub(crate) fn why(&self) -> &str {
        self.why.as_str()
    }

    /// The cause that the pieces say, at that byte.
    pub(crate) fn add(&mut self, place: Option<usize>, why: &[&str]) {
        if !self.why.is_empty() {
            return;
        }
        if let Some(place) = place {
            self.column = column_at(self.line.as_bytes(), place);
        }
        for piece in why {
            let _ = self.why.push_str(piece);
        }
    }

    /// Where the line's value begins.
    pub(crate) fn start(&self) -> Option<usize> {
        Some(start_from(self.line, 0))
    }

    /// Where the member with that name begins, of an object that begins at that byte.
    pub(crate) fn member(&self, object: Option<usize>, name: &str) -> Option<usize> {
        member_place(self.alloc, self.line, object?, name)
    }

    /// Where the element with that number begins, of a list that begins at that byte.
    pub(crate) fn element(&self, list: Option<usize>, number: usize) -> Option<usize> {
        element_place(self.alloc, self.line, list?, number)
    }
}
