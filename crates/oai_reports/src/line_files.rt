//! The lines of a file of deposit lines, each accepted or refused as in the first deposits to a repository.
use crate::causes::Diagnostic;
use crate::commands::{report_command, report_identifier, report_set_spec, report_text, set_place};
use crate::places::{bad_place, column_at, utf8_length, why_bad};
use crate::records::{
    has_field, report_elements, report_formats, report_other_records, report_unknown_fields,
};
use crate::values::{elements_at, text_of};
use oai_deposit::{Change, LineFault, read_line};
use oai_item::{
    ChangeRefusal, DeletedRecord, Field, Forms, GivenRecord, LineRefusal, Records, is_root_of,
};
use oai_names::{SetFault, SetSpec, SetTree};
use oai_settings::RepoConfig;
use oai_time::{is_no_finer_than, read_bound};
use serde_json::Value;
use std::alloc::{AllocError, Global};

/// The lines of a file for a repository, one after the other. A line is refused if it is so by itself, by the
/// repository's configuration, or by the sets of the lines before it: refusals 1 to 9, 15 to 19, 20 and 21.
#[derive(Drop)]
pub struct LineFile<'a> {
    alloc: Global,
    config: &'a RepoConfig,
    sets: SetTree,
    /// How many lines there were, blank ones too.
    number: u64,
    /// How many lines there were that are not blank.
    read: u64,
    /// How many of these are refused.
    refused: u64,
}

impl<'a> LineFile<'a> {
    /// No lines, for a repository without items and sets.
    pub fn new(alloc: Global, config: &'a RepoConfig) -> LineFile<'a> {
        LineFile {
            alloc,
            config,
            sets: SetTree::new(alloc),
            number: 0,
            read: 0,
            refused: 0,
        }
    }

    /// How many lines were read that are not blank.
    pub fn read(&self) -> u64 {
        self.read
    }

    /// How many lines were refused.
    pub fn refused(&self) -> u64 {
        self.refused
    }

    /// Reads the next line, without its line end: `None` if it is blank or accepted; if it is refused a line that says
    /// its number, the column, the refusal and why. The error is out of memory.
    pub fn check(&mut self, line: &[u8]) -> Result<Option<String>, AllocError> {
        self.number = self.number.saturating_add(1);
        if line.iter().all(|b| b" \t\r".contains(b)) {
            return Ok(None);
        }
        self.read = self.read.saturating_add(1);
        match read_line(self.alloc, Forms::Elements, line) {
            Ok(change) => self.check_change(line, &change),
            Err(LineFault::Refused(refusal)) => self.refuse(line, Refused::Line(refusal)),
            Err(LineFault::NoMemory) => Err(AllocError),
        }
    }

    /// The same of a line that asks for the change.
    fn check_change(&mut self, line: &[u8], change: &Change) -> Result<Option<String>, AllocError> {
        match self.refusal_of(change) {
            Some(refusal) => self.refuse(line, Refused::Change(refusal)),
            None => Ok(None),
        }
    }

    /// Why the change is refused, if it is. A set is added.
    fn refusal_of(&mut self, change: &Change) -> Option<ChangeRefusal> {
        match change {
            Change::Deposit { sets, records, .. } => {
                self.deposit_refusal(sets.as_slice(), records)
            }
            Change::Put { sets, records, .. } => self.deposit_refusal(sets.as_slice(), records),
            Change::Delete { .. } => None,
            Change::Purge { before } => self.purge_refusal(before.as_str()),
            Change::AddSet { spec, name } => set_refusal(self.sets.add(spec, name.as_str())),
        }
    }

    /// Why the deposit is refused, if it is.
    fn deposit_refusal(&self, sets: &[SetSpec], records: &Records) -> Option<ChangeRefusal> {
        let formats = self.config.formats();
        let prefixes = records.as_slice();
        if !sets.iter().all(|set| self.sets.has(set)) {
            return Some(ChangeRefusal::UnknownSet);
        }
        if !prefixes
            .iter()
            .all(|record| formats.find_named(record.0.as_str()).is_some())
        {
            return Some(ChangeRefusal::UnknownFormat);
        }
        if !prefixes.iter().any(|record| record.0.as_str() == "oai_dc") {
            return Some(ChangeRefusal::NoDc);
        }
        if !self.have_known_fields(records) {
            return Some(ChangeRefusal::UnknownField);
        }
        if !self.are_of_formats(records) {
            return Some(ChangeRefusal::NotOfFormat);
        }
        None
    }

    /// Whether the format of each record that is a list has all its fields.
    fn have_known_fields(&self, records: &Records) -> bool {
        let mut left = records.walk();
        while let Some(record) = left.next() {
            if record.root.is_none() && !self.has_fields(record.prefix, record.fields) {
                return false;
            }
        }
        true
    }

    /// Whether each record is one of its format.
    fn are_of_formats(&self, records: &Records) -> bool {
        let mut left = records.walk();
        while let Some(record) = left.next() {
            if !self.is_of_format(&record) {
                return false;
            }
        }
        true
    }

    /// Whether the record is an element of its format, or its format has fields, if it is a list, and nothing is about it
    /// if the list is empty.
    fn is_of_format(&self, record: &GivenRecord<'_>) -> bool {
        if record.fields.is_empty() && !record.about.is_empty() {
            return false;
        }
        match (self.config.formats().find_named(record.prefix), record.root) {
            (Some(format), Some(root)) => is_root_of(format, root),
            (Some(format), None) => !format.fields.is_empty(),
            (None, _) => true,
        }
    }

    /// Whether the format with that prefix has all the fields.
    fn has_fields(&self, prefix: &str, fields: &[Field]) -> bool {
        let formats = self.config.formats();
        fields
            .iter()
            .all(|field| has_field(formats, prefix, field.name.as_str()))
    }

    /// Why the purge is refused, if it is.
    fn purge_refusal(&self, before: &str) -> Option<ChangeRefusal> {
        if self.config.deleted() != DeletedRecord::Transient {
            return Some(ChangeRefusal::NotTransient);
        }
        match read_bound(before) {
            Ok(bound) if is_no_finer_than(bound, self.config.granularity()) => None,
            _ => Some(ChangeRefusal::BadDate),
        }
    }

    /// The line about a line that is refused.
    fn refuse(&mut self, line: &[u8], refused: Refused) -> Result<Option<String>, AllocError> {
        self.refused = self.refused.saturating_add(1);
        let number = self.number;
        let name = refused.name();
        let Ok(text) = str::from_utf8(line) else {
            let column = column_at(line, utf8_length(line));
            return Ok(Some(format!(in self.alloc;
                "lines:{number}:{column}: {name}: here the text is not in UTF-8"
            )?));
        };
        let mut cause = Diagnostic::new(self.alloc, text);
        self.explain(&mut cause, text, refused);
        let (column, why) = (cause.column(), cause.why());
        Ok(Some(format!(in self.alloc; "lines:{number}:{column}: {name}: {why}")?))
    }

    /// Reports why the line is refused.
    fn explain(&self, cause: &mut Diagnostic<'_>, line: &str, refused: Refused) {
        match Value::from_str(self.alloc, line) {
            Ok(value) => match refused {
                Refused::Line(refusal) => report_line(cause, &value, refusal),
                Refused::Change(refusal) => self.report_change(cause, &value, refusal),
            },
            Err(_) => {
                let place = bad_place(self.alloc, line);
                cause.add(place, &[why_bad(line, place)]);
            }
        }
    }

    /// Reports why the change in the line is refused.
    fn report_change(&self, cause: &mut Diagnostic<'_>, value: &Value, refusal: ChangeRefusal) {
        let formats = self.config.formats();
        match refusal {
            ChangeRefusal::UnknownSet => self.report_sets(cause, value),
            ChangeRefusal::UnknownFormat => report_formats(cause, value, formats),
            ChangeRefusal::UnknownField => report_unknown_fields(cause, value, formats),
            ChangeRefusal::NotOfFormat => report_other_records(cause, value, formats),
            ChangeRefusal::NoDc => report_at(cause, "records", "there is no record in \"oai_dc\""),
            ChangeRefusal::NotTransient => report_at(
                cause,
                "purge",
                "\"deletedRecord\" is not \"transient\"",
            ),
            ChangeRefusal::BadDate => report_at(
                cause,
                "purge",
                "it is no day or second, or finer than the datestamps",
            ),
            ChangeRefusal::SetExists => report_at(cause, "set", "a line before adds the same set"),
            ChangeRefusal::NoParent => report_at(
                cause,
                "set",
                "no line before adds the set above it",
            ),
            _ => report_at(cause, "set", "there are 10000 sets"),
        }
    }

    /// Reports the first set of the deposit that no line before adds.
    fn report_sets(&self, cause: &mut Diagnostic<'_>, value: &Value) {
        for (number, set) in elements_at(value, "sets").iter().enumerate() {
            if self.sets.find(text_of(set)).is_none() {
                let place = set_place(cause, number);
                cause.add(
                    place,
                    &["no line before adds the set \"", text_of(set), "\""],
                );
            }
        }
    }
}

/// Why a line is refused: by itself, or by the repository.
#[derive(Clone, Copy)]
enum Refused {
    Line(LineRefusal),
    Change(ChangeRefusal),
}

impl Refused {
    /// Its number and its name.
    fn name(self) -> &'static str {
        let answer = match self {
            Refused::Line(refusal) => refusal.answer(),
            Refused::Change(refusal) => refusal.answer(),
        };
        answer.strip_prefix("refused ").unwrap_or(answer).trim_end()
    }
}

/// The refusal of a set that was not added.
fn set_refusal(added: Result<(), SetFault>) -> Option<ChangeRefusal> {
    match added {
        Err(SetFault::Exists) => Some(ChangeRefusal::SetExists),
        Err(SetFault::NoParent) => Some(ChangeRefusal::NoParent),
        Err(SetFault::TooMany) => Some(ChangeRefusal::TooManySets),
        _ => None,
    }
}

/// Reports why a line is refused by itself.
fn report_line(cause: &mut Diagnostic<'_>, value: &Value, refusal: LineRefusal) {
    match refusal {
        LineRefusal::BadJson => {}
        LineRefusal::BadCommand => report_command(cause, value),
        LineRefusal::BadXml(_) => report_elements(cause, value),
        LineRefusal::BadIdentifier => report_identifier(cause, value),
        LineRefusal::BadSetSpec => report_set_spec(cause, value),
        LineRefusal::BadText => report_text(cause, value),
    }
}

/// Reports why the member with that name is refused.
fn report_at(cause: &mut Diagnostic<'_>, name: &str, why: &str) {
    let place = cause.member(cause.start(), name);
    cause.add(place, &[why]);
}
