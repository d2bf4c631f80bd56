//! What the program serves is a life of the theorem: a theorem, by an empty function.
ghost use Rattle.std.specs.Prelude.{◌≡◌, [], IfSome, IsTrue, List, Option, Result, map, ℕ};
ghost use Rattle.oai_startup.specs.Rules.{HaveRules};
ghost use Rattle.oai_daemon.specs.Lives.{HasLived};
ghost use Rattle.oai_daemon.specs.Watches.{Watches};
ghost use Rattle.oai_recovery.specs.declared.origins.Origin.{Origin as From};
ghost use Rattle.oai_recovery.specs.declared.origins.Origin.TheVariants.{Begun};
ghost use Rattle.oai_keys.specs.Guards.{Guards};
ghost use Rattle.oai_keys.specs.declared.rings.Ring.{Ring};
ghost use Rattle.oai_durable.specs.Checkpointed.{Checkpointed};
ghost use Rattle.oai_durable.specs.declared.either.EitherJournal.{EitherJournal as Either};
ghost use Rattle.oai_durable.specs.declared.either.EitherJournal.TheVariants.{Second};
ghost use Rattle.oai_host.specs.Hosts.{HostState, Repository, begun};
ghost use Rattle.oai_journal.specs.Changes.{IsUndamaged};
ghost use Rattle.oai_journal.specs.Records.{Entry};
ghost use Rattle.oai_journal.specs.Recovered.{disk_of};
ghost use Rattle.oai_journal.specs.declared.file.FileJournal.{FileJournal as Filed};
ghost use Rattle.oai_service.specs.Checkpointing.{checkpointing};
ghost use Rattle.oai_service.specs.Hosting.{hosting, saving};
ghost use Rattle.oai_service.specs.Keeping.{AreSound, IsSoundEnd, Keeping};
ghost use Rattle.oai_service.specs.Lives.{IsServerLife, served_behind};
ghost use Rattle.oai_serving.specs.Accepted.{Known};
ghost use Rattle.oai_serving.specs.Rounds.{World};
ghost use Rattle.oai_serving.specs.declared.faults.ServeFault.{ServeFault};

use oai_durable::EitherJournal;
use oai_journal::{FileJournal, Journal};
use oai_serving::Stream;
use sqlite_disk::Disk;

/// What `serve` of oai_daemon, which `main` calls, returns is the end of a life of the theorem
/// ([`online_service_law`](crate::online_service_law)), under its keys, over any disks and stream. Its configuration
/// satisfies the rules. Provided that the disk returned what was written to it as the journal was read, the life began
/// with all records of the journal, none if that was begun; with all in the bytes of its file, if they are known: at a
/// `HostPlace<S, T>` they are those that `S` or `T` stands for. What was read for a checkpoint while it served has to be
/// what the disks have. It leaves whatever a crash may leave of the journal. The function is empty.
pub fn program_life_law<S: Stream, D: Disk + Drop, E: Disk + Drop>()
    ensures { (let keeping : Keeping (Checkpointed HostState (Either (Filed D) (Filed E)) (Filed E)) (List Repository) =
        checkpointing (hosting (λ host. host)) ⟦<EitherJournal<FileJournal<D>, FileJournal<E>> as Journal>⟧ ⟦<FileJournal<E> as Journal>⟧ saving.emptied Second in
        (held : Option (List ℕ)) (text : List ℕ) (rings : List Ring) (origin : From) (later : Known S) (result : Result Unit ServeFault)
        (new : World S (Checkpointed HostState (Either (Filed D) (Filed E)) (Filed E)))
        (lived : HasLived ⟦<EitherJournal<FileJournal<D>, FileJournal<E>> as Journal>⟧ ⟦<FileJournal<E> as Journal>⟧ D.Disk.seen D.Disk.is_clean
        S.contents S.remaining held text rings origin later result new)
        (left : List Entry)
        → IsTrue (D.Disk.is_clean (disk_of lived.recovery))
        → AreSound keeping (Watches (Guards rings keeping.step)) lived.serves.rounds lived.old.handler lived.serves.mid lived.serves.settles
        → IsSoundEnd keeping (Watches (Guards rings keeping.step)) lived.serves.mid result new.handler lived.serves.ends
        → keeping.may_leave new.handler left
        → HaveRules lived.config
        × (first : Entry) × (found : List Entry) × IfSome held (λ file. IsUndamaged file first found)
        × (origin ≡ Begun → found ≡ [])
        × IsServerLife keeping S.contents S.remaining (map begun lived.config.repositories) (record {
          found = found;
          rings = rings;
          known = lived.known;
          later = later;
          old = lived.old;
          rounds = lived.serves.rounds;
          behind = served_behind (Watches (Guards rings keeping.step)) keeping.settled lived.serves.mid result new.handler lived.serves.ends;
          result = result;
          new = new;
          left = left;
        })) }
{}
