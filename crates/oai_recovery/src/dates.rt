//! What a startup has to know of the records of a journal.
use oai_durable::Progress;
use oai_journal::{Kind, LogRecord};

/// What a startup has to know of the records of a journal that were read.
#[derive(Clone, Copy, Debug)]
pub(crate) struct Dates {
    /// Their latest moment, in seconds from 1970 on.
    pub(crate) last: Option<i64>,
    /// The latest moment of those up to the last that may have begun or continued a list, or has an open list.
    pub(crate) listed: Option<i64>,
    /// The length in bytes of the parts of a checkpoint.
    pub(crate) saved: usize,
    /// The position in bytes behind the last part; 0 if there is none.
    pub(crate) saved_to: usize,
    /// The position in bytes behind the last record.
    pub(crate) position: usize,
}

impl Dates {
    /// Of no record.
    pub(crate) fn new() -> Dates {
        Dates {
            last: None,
            listed: None,
            saved: 0,
            saved_to: 0,
            position: 0,
        }
    }

    /// Takes note of the moment of a record.
    fn see(&mut self, moment: i64) {
        self.last = match self.last {
            Some(before) => Some(before.max(moment)),
            None => Some(moment),
        };
    }

    /// Takes note of a part of a checkpoint with that many bytes.
    fn save(&mut self, bytes: usize) {
        self.saved = self.saved.saturating_add(bytes);
        self.saved_to = self.position;
    }
}

impl Progress for Dates {
    fn note(&mut self, entry: &LogRecord<'_>, _number: u64, position: usize, _len: usize) {
        self.position = position;
        match entry.kind {
            Kind::Journal => {}
            Kind::Oai => {
                self.see(entry.moment);
                self.listed = self.last;
            }
            Kind::Deposit => self.see(entry.moment),
            Kind::Tick => self.see(entry.moment),
            Kind::Begin => {
                self.see(entry.moment);
                self.save(entry.body.len());
            }
            Kind::Set => self.save(entry.body.len()),
            Kind::Item => self.save(entry.body.len()),
            Kind::List => {
                self.save(entry.body.len());
                self.see(entry.moment);
                self.listed = self.last;
            }
            Kind::Gone => self.save(entry.body.len()),
        }
    }
}
