//! What holds of every list of lives of a server: theorems, each an empty function. A life is one run of the server; an
//! era is what lies between two checkpoints; a turn is a message that came in a life, with what was done of it.
ghost use Rattle.std.specs.Prelude.{List, None, map};
ghost use Rattle.std.specs.List.{AllByRecursion};
ghost use Rattle.oai_config.specs.Configs.{HostConfig};
ghost use Rattle.oai_startup.specs.Rules.{HaveRules};
ghost use Rattle.oai_headline.specs.Visits.{Visit};
ghost use Rattle.oai_host.specs.Hosts.{HostState, Repository, begun};
ghost use Rattle.oai_laws.specs.Harvests.{Harvest};
ghost use Rattle.oai_durable.specs.Checkpointed.{Checkpointed as Beside};
ghost use Rattle.oai_durable.specs.Journaled.{Parts, promised};
ghost use Rattle.oai_durable.specs.Records.{redone_all};
ghost use Rattle.oai_durable.specs.declared.either.EitherJournal.{EitherJournal as Either};
ghost use Rattle.oai_durable.specs.declared.either.EitherJournal.TheVariants.{Second};
ghost use Rattle.oai_journal.specs.Kept.{MayLeaveRecords, disk_in};
ghost use Rattle.oai_journal.specs.Records.{Entry};
ghost use Rattle.oai_journal.specs.declared.file.FileJournal.{FileJournal};
ghost use Rattle.sqlite_disk.specs.Fuse.{inner_of};
ghost use Rattle.sqlite_disk.specs.declared.fuse.Fuse.{Fuse};
ghost use Rattle.oai_service.specs.Hosting.{AreNumbered, hosting, leaving, promised_saving, saving, store_beside, store_in};
ghost use Rattle.oai_service.specs.Checkpointing.{checkpointing};
ghost use Rattle.oai_service.specs.Keeping.{Keeping, journaling};
ghost use Rattle.oai_service.specs.Lives.{AreServerEras, ServerEra};
ghost use Rattle.oai_service.specs.Service.{IsServed};
ghost use Rattle.oai_service.specs.WorkedLives.{AreOverCheckpoint, AreWorkedLives, AreWorkedTurns};

use oai_catalogue::Versions;
use oai_device::PageDevice;
use oai_durable::EitherJournal;
use oai_host::Host;
use oai_journal::{FileJournal, Journal};
use oai_paged::PagedVersions;
use oai_replay::Replayed;
use oai_serving::Stream;
use sqlite_disk::{Disk, Fuse};

/// **The theorem.** A server lives any number of times, and each life is a service as `Server::serve` promises it:
/// rounds in which messages come over connections, are performed by a host whose exchanges are logged in a journal, and
/// are answered once the journal is durable. However each ends, whatever a crash then leaves of its journal, whatever
/// memory was refused and whichever device calls failed, the next one replays what is left; or a checkpoint of it. Then
/// all of them are one history:
///
/// - each client that a life accepted was sent a prefix of the answers to its messages, in order;
/// - each life performed only messages that its own keys admit; each that they do not admit was answered 401, has no
///   record, and left every repository as it was;
/// - each life begins with the records of every message that was answered since the last checkpoint, and a checkpoint
///   ends the open lists, may raise the number of the next, and changes nothing else;
/// - at each repository each answer without a fault is the machine's after what was performed before it and not lost, in
///   whichever life, and after the checkpoints;
/// - lists that are followed by their unexpired tokens, by requests without a fault, are what was selected at their
///   first request; a token that was printed before a checkpoint is refused after it, or fails, and no number of a list
///   is given twice;
/// - harvests miss nothing, where deleted records are kept, even if each of them was made in another life, after
///   another checkpoint.
///
/// The first three hold over any stores, but for what was done of a message and whose a record is (`recorded`): these
/// hold in a life whose store returns what was written to it, and the others if the store of each life does. The
/// configuration satisfies its rules, and the first life begins with no record. The lives between two checkpoints are an era; a checkpoint raises no number of a list beyond 64 bits. The
/// function is empty.
pub fn service_law<S: Stream, V: Versions + Drop, J: Journal>()
    ensures { (config : HostConfig) (eras : List (ServerEra S (Parts HostState J))) → HaveRules config
        → AreServerEras (journaling (promised ⟦<Host<V> as Replayed>⟧) J.Journal) (promised_saving ⟦<Host<V> as Replayed>⟧)
        S.contents S.remaining (map begun config.repositories) None eras
        → AllByRecursion (λ (era : ServerEra S (Parts HostState J)). AreNumbered (redone_all leaving (map begun config.repositories) era.found)) eras
        → IsServed (journaling (promised ⟦<Host<V> as Replayed>⟧) J.Journal) store_in config S.contents S.remaining eras }
{}

/// The same at the types that the program runs: the store is the one of pages over a device, and the journal a file.
/// The function is empty.
pub fn service_on_files_law<S: Stream, P: PageDevice, D: Disk + Drop>()
    ensures { (config : HostConfig) (eras : List (ServerEra S (Parts HostState _))) → HaveRules config
        → AreServerEras (journaling (promised ⟦<Host<PagedVersions<P>> as Replayed>⟧) ⟦<FileJournal<D> as Journal>⟧)
        (promised_saving ⟦<Host<PagedVersions<P>> as Replayed>⟧)
        S.contents S.remaining (map begun config.repositories) None eras
        → AllByRecursion (λ (era : ServerEra S (Parts HostState _)). AreNumbered (redone_all leaving (map begun config.repositories) era.found)) eras
        → IsServed (journaling (promised ⟦<Host<PagedVersions<P>> as Replayed>⟧) ⟦<FileJournal<D> as Journal>⟧) store_in config S.contents S.remaining eras }
{}

/// The same of a server beside whose exchanges checkpoints are written: behind each commit a step of one may be made, and
/// a whole one takes the place of the journal, which may then be of another kind. No list ends at it, so that lives with
/// any number of them are one era. Provided that what a step read, of the store and of the journal, is what their disks
/// have, in each step that wrote on at a checkpoint, or put one in the place of the journal (`IsSettlingSound`), all that
/// is stated of the records of a life holds of records for which those of its file stand: they leave the same state. A step
/// may fail in the store, so that the count of its faults may rise between two messages. A crash that comes while the
/// folder of the journals is not synced may leave either of them. The function is empty.
pub fn online_service_law<S: Stream, V: Versions + Drop, J: Journal, K: Journal>()
    ensures { (let keeping : Keeping (Beside HostState (Either J K) K) (List Repository) =
        checkpointing (promised ⟦<Host<V> as Replayed>⟧) ⟦<EitherJournal<J, K> as Journal>⟧ K.Journal ⟦<Host<V> as Replayed>⟧.emptied Second in
        (config : HostConfig) (eras : List (ServerEra S (Beside HostState (Either J K) K))) → HaveRules config
        → AreServerEras keeping (promised_saving ⟦<Host<V> as Replayed>⟧) S.contents S.remaining (map begun config.repositories) None eras
        → AllByRecursion (λ (era : ServerEra S (Beside HostState (Either J K) K)). AreNumbered (redone_all leaving (map begun config.repositories) era.found)) eras
        → IsServed keeping store_beside config S.contents S.remaining eras) }
{}

/// A kill within a call of the journal is an instance of the theorem. `Fuse` passes the first calls on to its disk, any
/// number of them, and fails all others without touching it: so a life whose journal is on a fuse does to that disk what
/// a life does that is killed between two of these calls, amid a commit too. A call of the disk that is itself cut off is
/// one that fails there, and may have written a part. All that a crash of the disk may then leave is what the next life
/// may find (`left`); and lives like that, each with a fuse of its own, are one history (`served`). The function is
/// empty.
pub fn killed_law<S: Stream, D: Disk + Drop>()
    ensures left { (journal : FileJournal (Fuse D)) (found : List Entry)
        → MayLeaveRecords D.may_leave (inner_of (disk_in journal)) found
        → ⟦<FileJournal<Fuse<D>> as Journal>⟧.may_leave journal found }
    ensures served { (config : HostConfig) (eras : List (ServerEra S (Parts HostState (FileJournal (Fuse D)))))
        → HaveRules config
        → AreServerEras (journaling (hosting (λ (host : HostState). host)) ⟦<FileJournal<Fuse<D>> as Journal>⟧) saving
        S.contents S.remaining (map begun config.repositories) None eras
        → AllByRecursion (λ (era : ServerEra S (Parts HostState _)). AreNumbered (redone_all leaving (map begun config.repositories) era.found)) eras
        → IsServed (journaling (hosting (λ (host : HostState). host)) ⟦<FileJournal<Fuse<D>> as Journal>⟧) store_in config S.contents S.remaining eras }
{}

/// The premises of the theorem can be met: three lives of a server of two repositories, two before a checkpoint and one
/// after it. What they serve is given. The first of them ends in the middle of a list and of a harvest; a deposit runs
/// out of memory after its first line, and is repeated; at the first repository a list is followed over three pages, at
/// the second three harvests are made, by the visits of both lives. At the checkpoint a list is open at each repository,
/// and the numbers of the next ones are raised by a million. After it a token that was printed before it comes before it
/// expires, and is refused; and a fourth harvest is made of the second repository. There are no keys. The messages that
/// are answered in a life come over one connection, as bytes that are given. In the first life it is open at the end,
/// and a part of their answers was sent over it; others, whose answers are held back, come over a second one, and a
/// crash leaves the records of the first of these. In the others the client was sent all answers, and left. It is
/// computed from the bytes of the records and messages; the function is empty.
pub fn worked_lives_law()
    ensures lived { AreWorkedLives }
    ensures turned { (first : Visit) × (second : Visit) × (last : Visit) × (one : Harvest) × (two : Harvest) × (three : Harvest)
        × AreWorkedTurns first second last one two three }
    ensures over { (one : Harvest) × (two : Harvest) × (three : Harvest) × (four : Harvest) × (before : Visit) × (after : Visit)
        × AreOverCheckpoint one two three four before after }
{}
