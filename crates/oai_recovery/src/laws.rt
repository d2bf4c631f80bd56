//! What holds of a checkpoint: a theorem, by an empty function.
ghost use Rattle.oai_recovery.specs.Archives.{archive};
ghost use Rattle.oai_recovery.specs.Renewals.{IsRenewed, state_before};
ghost use Rattle.oai_durable.specs.Checkpoints.{IsCheckpoint};
ghost use Rattle.oai_journal.specs.Files.{IsJournalFile};
ghost use Rattle.oai_journal.specs.Kept.{disk_in};
ghost use Rattle.oai_journal.specs.Records.{Entry};
ghost use Rattle.oai_journal.specs.declared.file.FileJournal.{FileJournal as Filed};
ghost use Rattle.std.specs.Prelude.{ℕ, List};

use oai_journal::{FileJournal, Journal};
use sqlite_disk::Disk;

/// What `serve` and `checkpoint_folder` promise of a checkpoint that they wrote, of the file in which it is read back:
/// provided that this is one that the disk may leave on which it was written, its records are a checkpoint of the state
/// that all records of the old file leave. A theorem, proved by an empty function.
pub fn checkpoint_law<D: Disk + Drop>()
    ensures { (old : List ℕ) (raise : ℕ) (written : Filed D) (renewed : IsRenewed ⟦<FileJournal<D> as Journal>⟧ old raise written)
        (file : List ℕ) (first : Entry) (found : List Entry)
        → D.Disk.may_leave (disk_in written) file → IsJournalFile file first found
        → IsCheckpoint archive (state_before renewed) raise found }
{}
