//! What holds of every archive that this program serves, over all its lives (a life is one run of the server), and of
//! the file of its journal: theorems, by empty functions.
ghost use Rattle.oai_recovery.specs.Archives.{archive};
ghost use Rattle.oai_daemon.specs.Lives.{BeginsWithAll, HasLived};
ghost use Rattle.oai_daemon.specs.Served.{Logged};
ghost use Rattle.oai_recovery.specs.Renewals.{IsRenewed, state_before};
ghost use Rattle.oai_recovery.specs.ServedDisks.{file_of};
ghost use Rattle.oai_recovery.specs.declared.origins.Origin.{Origin as From};
ghost use Rattle.oai_durable.specs.Checkpoints.{AreStages, IsCheckpoint, IsHistory, JournalStage};
ghost use Rattle.oai_host.specs.Hosts.{HostState, Repository};
ghost use Rattle.oai_host.specs.Saved.{emptied_in};
ghost use Rattle.oai_journal.specs.Files.{IsJournalFile};
ghost use Rattle.oai_journal.specs.Kept.{disk_in};
ghost use Rattle.oai_journal.specs.Records.{Entry};
ghost use Rattle.oai_journal.specs.Recovered.{disk_of};
ghost use Rattle.oai_journal.specs.declared.file.FileJournal.{FileJournal as Filed};
ghost use Rattle.oai_keys.specs.declared.rings.Ring.{Ring as Held};
ghost use Rattle.oai_serving.specs.Accepted.{Known};
ghost use Rattle.oai_serving.specs.Rounds.{World};
ghost use Rattle.oai_serving.specs.declared.faults.ServeFault.{ServeFault as Fault};
ghost use Rattle.std.specs.Prelude.{◌≡◌, [], ℕ, IsTrue, List, Result, Some};

use oai_durable::EitherJournal;
use oai_journal::{FileJournal, Journal};
use oai_recovery::{Fresh, ServedDisk};
use oai_serving::Stream;
use sqlite_disk::Disk;
use sqlite_std_file::{FileFrom, Start};

/// `stages_law` of a host of repositories. Any number of lives, with checkpoints between them, is one history, which
/// leaves the states that the last journal leaves. Every answer that was sent has its place in it, in order over all
/// lives: an answer without a fault is what its repository alone would answer, after what precedes it, and its own
/// record follows. All else in it was performed, and its answer held back; or it is a checkpoint, at which all lists
/// ended and the number of each next list was raised. A theorem, proved by an empty function.
pub fn archive_law()
    ensures { (begun : List Repository) (stages : List JournalStage) (left : List Entry)
        → emptied_in begun ≡ begun
        → AreStages archive begun [] stages left
        → IsHistory archive begun stages left }
{}

/// What `serve` promises at a `HostPlace<S, T>`, of the file that `S` stands for if the journal was found, and `T` if it
/// was begun: provided that the file returned what was written to it as the journal was read, the life began with all log
/// records in it. A theorem, proved by an empty function.
pub fn whole_file_law<L: Stream, S: Start, T: Start>()
    ensures { (text : List ℕ) (rings : List Held) (origin : From) (later : Known L) (result : Result Unit Fault) (new : World L (Logged HostState _ _))
        (lived : HasLived ⟦<EitherJournal<FileJournal<ServedDisk<FileFrom<S>, FileFrom<T>>>, FileJournal<FileFrom<Fresh>>> as Journal>⟧
        ⟦<FileJournal<FileFrom<Fresh>> as Journal>⟧ ⟦<ServedDisk<FileFrom<S>, FileFrom<T>> as Disk>⟧.seen
        ⟦<ServedDisk<FileFrom<S>, FileFrom<T>> as Disk>⟧.is_clean L.contents L.remaining
        (file_of (Some S.Start.db) (Some T.Start.db) origin) text rings origin later result new)
        → IsTrue (⟦<ServedDisk<FileFrom<S>, FileFrom<T>> as Disk>⟧.is_clean (disk_of lived.recovery))
        → BeginsWithAll ⟦<EitherJournal<FileJournal<ServedDisk<FileFrom<S>, FileFrom<T>>>, FileJournal<FileFrom<Fresh>>> as Journal>⟧ (file_of S.Start.db T.Start.db origin)
        lived.forms text origin lived.config lived.old.handler }
{}
