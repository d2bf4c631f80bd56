//! What holds of every file: theorems, each an empty function.
ghost use Rattle.std.specs.Prelude.{◌≡◌, ℕ, List};
ghost use Rattle.oai_journal.specs.Files.{IsJournalFile};
ghost use Rattle.oai_journal.specs.Kept.{HoldsRecords};
ghost use Rattle.oai_journal.specs.Records.{Entry};
ghost use Rattle.oai_journal.specs.Recoveries.{IsDamagedAt};
ghost use Rattle.oai_journal.specs.declared.file.FileJournal.{FileJournal};

use sqlite_disk::Disk;

/// A file is at most one journal: recovery is idempotent. A theorem, proved by an empty function.
pub fn one_journal_law()
    ensures { (file : List ℕ) (first other : Entry) (entries found : List Entry) → IsJournalFile file first entries
        → IsJournalFile file other found → (first ≡ other) × (entries ≡ found) }
{}

/// A damaged file is no journal, and a crash leaves a journal: so no crash leaves damage. A theorem, proved by an empty
/// function.
pub fn damage_law()
    ensures { (file : List ℕ) (at : ℕ) (first : Entry) (entries : List Entry) → IsDamagedAt file at
        → IsJournalFile file first entries → ⊥ }
{}

/// Whatever a crash may leave of a journal's file, at any moment, is not damaged. So if recovery of it reports a byte,
/// an unset commit byte stands there, at the end of the journal, and after it bytes that continue the chain of digests:
/// a torn write would have to leave two frames with the right digests, and a set commit byte between them. A theorem,
/// proved by an empty function.
pub fn crash_law<D: Disk>()
    ensures { (journal : FileJournal D) (entries : List Entry) (durable : ℕ) (file : List ℕ) (at : ℕ)
        → HoldsRecords D.Disk.seen D.Disk.may_leave journal entries durable → D.Disk.may_leave journal.reader.disk file
        → IsDamagedAt file at → ⊥ }
{}
