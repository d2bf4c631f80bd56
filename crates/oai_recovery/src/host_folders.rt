//! The folder of the system, while a server serves.
use crate::begun_checkpoints::{begin_checkpoint, fault_of};
use crate::folder_files::{FolderFiles, Fresh};
use crate::moments::{second_of, time_of};
use oai_durable::{CheckpointFault, CheckpointNote, Folder, Replacement};
use oai_item::Forms;
use oai_journal::FileJournal;
use sqlite_std_file::FileFrom;
use std::time::Duration;

/// The folder of a `HostPlace`, in which checkpoints are written while its server serves: as `journal.new`, which is
/// renamed to `journal` once it is whole. They are reported to standard error.
#[derive(Drop)]
pub struct HostFolder<'a> {
    files: FolderFiles<'a>,
    /// The bytes of the configuration.
    text: Vec<u8>,
    /// Which forms the records of the journal may have.
    forms: Forms,
    is_quiet: bool,
    /// By how many bytes the journal may be longer than twice what it was after its last checkpoint.
    max_tail: usize,
    /// The second of a monotonic clock in which the last checkpoint began.
    begun: u64,
}

impl<'a> HostFolder<'a> {
    /// Over these files, whose journal has the configuration in the text, and records of these forms. Nothing is
    /// reported if it is quiet.
    pub(crate) fn new(
        files: FolderFiles<'a>,
        text: Vec<u8>,
        forms: Forms,
        is_quiet: bool,
        max_tail: usize,
    ) -> HostFolder<'a> {
        HostFolder {
            files,
            text,
            forms,
            is_quiet,
            max_tail,
            begun: 0,
        }
    }
}

impl Folder<FileJournal<FileFrom<Fresh>>> for HostFolder<'_> {
    fn max_tail(&self) -> Option<usize> {
        match self.forms {
            Forms::Elements => Some(self.max_tail),
            Forms::Fields => None,
        }
    }

    fn begin(&mut self, moment: i64) -> Result<FileJournal<FileFrom<Fresh>>, CheckpointFault> {
        self.begun = second_of(self.files.rt);
        match self.files.begin_journal() {
            Ok(disk) => begin_checkpoint(self.files.rt.alloc(), disk, moment, &self.text),
            Err(stop) => Err(fault_of(stop)),
        }
    }

    fn replace(&mut self) -> Replacement {
        if self.files.replace_journal().is_err() {
            return Replacement::Refused;
        }
        if self.files.sync_all().is_err() {
            return Replacement::Unsynced;
        }
        let _ = self.files.remove_beside();
        Replacement::Done
    }

    fn discard(&mut self) {
        let _ = self.files.remove_begun();
        let _ = self.files.remove_beside();
    }

    fn tell(&mut self, note: CheckpointNote) {
        if self.is_quiet {
            return;
        }
        match note {
            CheckpointNote::Written(records, bytes) => {
                let seconds = second_of(self.files.rt).saturating_sub(self.begun);
                let _ = eprintln!(self.files.rt;
                    "checkpoint: {records} records, {bytes} bytes, {seconds} s"
                );
            }
            CheckpointNote::GivenUp(fault) => {
                let _ = eprintln!(self.files.rt; "checkpoint: given up: {fault}");
            }
        }
    }

    fn clock(&self) -> Duration {
        time_of(self.files.rt)
    }
}
