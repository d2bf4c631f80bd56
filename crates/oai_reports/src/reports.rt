//! The report on a configuration: a line for each fault of its number, which says where it stands and why it is one.
use crate::places::{element_place, line_at, member_place, start_from};
use std::alloc::Global;

/// How many faults are reported.
const MAX_REPORTED: usize = 20;

/// An object of a configuration: the whole, a repository with its name, or one of its formats.
#[derive(Clone, Copy)]
pub(crate) struct Object<'a> {
    repository: Option<usize>,
    name: &'a str,
    format: Option<usize>,
}

impl<'a> Object<'a> {
    /// The whole configuration.
    pub(crate) fn whole() -> Object<'a> {
        Object {
            repository: None,
            name: "",
            format: None,
        }
    }

    /// The repository with that number, counted from 0, and that name, which is empty if it has none.
    pub(crate) fn repository(number: usize, name: &'a str) -> Object<'a> {
        Object {
            repository: Some(number),
            name,
            format: None,
        }
    }

    /// The repository's format with that number, counted from 0.
    pub(crate) fn format(self, number: usize) -> Object<'a> {
        Object {
            repository: self.repository,
            name: self.name,
            format: Some(number),
        }
    }
}

/// The faults of a configuration that have a number, as lines. One that memory has no space for is left out.
#[derive(Drop)]
pub(crate) struct Report<'a> {
    alloc: Global,
    text: &'a str,
    /// The number and the name of the fault.
    fault: &'static str,
    count: usize,
    lines: String,
}

impl<'a> Report<'a> {
    /// No faults of the configuration in the text.
    pub(crate) fn new(alloc: Global, text: &'a str, fault: &'static str) -> Report<'a> {
        Report {
            alloc,
            text,
            fault,
            count: 0,
            lines: String::new(alloc),
        }
    }

    /// The memory of the report.
    pub(crate) fn alloc(&self) -> Global {
        self.alloc
    }

    /// The lines.
    pub(crate) fn into_lines(self) -> String {
        self.lines
    }

    /// Adds that the object is wrong, for the reason that the pieces say.
    pub(crate) fn add(&mut self, object: Object<'_>, why: &[&str]) {
        let place = object_place(self.alloc, self.text, object);
        if self.begin(object, place) {
            self.put_all(why);
            self.put_all(&["\n"]);
        }
    }

    /// Adds that the object's member with that name is wrong.
    pub(crate) fn add_member(&mut self, object: Object<'_>, member: &str, why: &[&str]) {
        let place = place_of_member(self.alloc, self.text, object, member);
        if self.begin(object, place) {
            self.put_all(&["\"", member, "\" "]);
            self.put_all(why);
            self.put_all(&["\n"]);
        }
    }

    /// Adds that an element of the list in the object's member with that name is wrong, by its number from 0 on.
    pub(crate) fn add_element(
        &mut self,
        object: Object<'_>,
        member: &str,
        number: usize,
        why: &[&str],
    ) {
        let place = place_of_element(self.alloc, self.text, object, member, number);
        if self.begin(object, place) {
            self.put_all(&[member]);
            self.put_number("[", number, "] ");
            self.put_all(why);
            self.put_all(&["\n"]);
        }
    }

    /// Begins a line on a fault at that place in the object; not if as many as may be are reported.
    fn begin(&mut self, object: Object<'_>, place: Option<usize>) -> bool {
        self.count = self.count.saturating_add(1);
        if MAX_REPORTED < self.count {
            return false;
        }
        self.put_all(&["config: ", self.fault, ": "]);
        if let Some(place) = place {
            self.put_number("line ", line_at(self.text.as_bytes(), place), ": ");
        }
        self.put_object(object);
        true
    }

    /// Adds the path to the object.
    fn put_object(&mut self, object: Object<'_>) {
        if let Some(number) = object.repository {
            self.put_number("repositories[", number, "]");
            if !object.name.is_empty() {
                self.put_all(&[" (", object.name, ")"]);
            }
            self.put_all(&[": "]);
        }
        if let Some(number) = object.format {
            self.put_number("formats[", number, "]: ");
        }
    }

    /// Adds a number between two texts.
    fn put_number(&mut self, before: &str, number: usize, behind: &str) {
        let _ = write!(self.lines, "{before}{number}{behind}");
    }

    /// Adds the texts.
    fn put_all(&mut self, pieces: &[&str]) {
        for piece in pieces {
            let _ = self.lines.push_str(piece);
        }
    }
}

/// Where the object begins.
fn object_place(alloc: Global, text: &str, object: Object<'_>) -> Option<usize> {
    let whole = start_from(text, 0);
    let Some(number) = object.repository else {
        return Some(whole);
    };
    let list = member_place(alloc, text, whole, "repositories")?;
    let repository = element_place(alloc, text, list, number)?;
    match object.format {
        Some(number) => format_place(alloc, text, repository, number),
        None => Some(repository),
    }
}

/// Where the repository's format with that number begins.
fn format_place(alloc: Global, text: &str, repository: usize, number: usize) -> Option<usize> {
    let list = member_place(alloc, text, repository, "formats")?;
    element_place(alloc, text, list, number)
}

/// Where the member of the object begins.
fn place_of_member(alloc: Global, text: &str, object: Object<'_>, member: &str) -> Option<usize> {
    let place = object_place(alloc, text, object)?;
    member_place(alloc, text, place, member)
}

/// Where the element of the list in the object's member begins.
fn place_of_element(
    alloc: Global,
    text: &str,
    object: Object<'_>,
    member: &str,
    number: usize,
) -> Option<usize> {
    let list = place_of_member(alloc, text, object, member)?;
    element_place(alloc, text, list, number)
}
