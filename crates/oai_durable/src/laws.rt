//! What holds of every list of lives; a life is one run of a server. Theorems, each an empty function.
ghost use Rattle.oai_durable.specs.Checkpointed.{Checkpointed, IsExchangeBeside, IsHeldBeside, IsKeptBeside, IsSettledBeside, IsSettlingSound, MayLeaveBeside};
ghost use Rattle.oai_durable.specs.Checkpoints.{AreStages, IsHistory, JournalStage};
ghost use Rattle.oai_durable.specs.Lives.{AreAmong, AreLives, Life, answered_in};
ghost use Rattle.oai_durable.specs.Moves.{AreLikeLives, AreMovedLives, Move};
ghost use Rattle.oai_durable.specs.Journaled.{IsExchange, IsHeld, IsSettled, Parts, Replaying, promised};
ghost use Rattle.oai_durable.specs.OnlineCheckpoints.{IsWriting, LeavesSame, Writing};
ghost use Rattle.oai_durable.specs.Records.{redone_all};
ghost use Rattle.oai_durable.specs.Recovered.{TellsDamage};
ghost use Rattle.oai_durable.specs.Stood.{IsHeldBy, IsKeptBy, IsLeftLike, StandInFor};
ghost use Rattle.oai_durable.specs.Switches.{FolderLeaves, StandsForAll, SwitchPhase};
ghost use Rattle.oai_durable.specs.Served.{IsLived, IsRemembered, LivesAs};
ghost use Rattle.oai_durable.specs.declared.either.EitherJournal.{EitherJournal as Either};
ghost use Rattle.oai_durable.specs.declared.either.EitherJournal.TheVariants.{Second};
ghost use Rattle.oai_durable.specs.declared.recovery.RecoverFault.{RecoverFault};
ghost use Rattle.oai_durable.specs.declared.recovery.RecoverFault.TheVariants as cause;
ghost use Rattle.oai_front.specs.Runs.{Served};
ghost use Rattle.oai_journal.specs.Changes.{IsChangedAt};
ghost use Rattle.oai_journal.specs.Kept.{HoldsRecords, disk_in};
ghost use Rattle.oai_journal.specs.Records.{Entry};
ghost use Rattle.oai_journal.specs.declared.file.FileJournal.{FileJournal};
ghost use Rattle.oai_journal.specs.declared.recovery.RecoveryFault.TheVariants.{Damaged};
ghost use Rattle.oai_serving.specs.Accepted.{Known};
ghost use Rattle.oai_serving.specs.Rounds.{IsService, World, served_in};
ghost use Rattle.oai_serving.specs.declared.faults.ServeFault.{ServeFault as Fault};
ghost use Rattle.oai_http.specs.Exchanges.{Asked};
ghost use Rattle.oai_http.specs.declared.exchanges.Answer.{Answer};
ghost use Rattle.oai_http.specs.declared.handlers.SettleFault.{SettleFault};
ghost use Rattle.std.specs.Prelude.{◌≡◌, ◌≤◌, [], ◌++◌, ℕ, ℤ, IsTrue, List, Result, Ok, Err, length};

use crate::either::EitherJournal;
use oai_journal::Journal;
use oai_replay::Replayed;
use oai_serving::Stream;
use sqlite_disk::Disk;

/// What the last of any number of lives of a handler left is one list of log records, in which every answer that was
/// sent has its place, in order over all lives: an answer without a fault is what the records before it make of the
/// request, and its own record follows. All else in the list was performed, and its answer held back.
pub fn restart_law<H: Replayed>()
    ensures { (begun : H.Kept) (lives : List Life) (left : List Entry)
        → AreLives (record { redone = H.redone; restored = H.restored }) H.reply begun [] lives left
        → AreAmong (record { redone = H.redone; restored = H.restored }) H.reply begun [] (answered_in lives) left }
{}

/// A server's life is such a life: rounds in which messages were served and the handler settled, whose answers were
/// sent; and then messages whose answers were held back, since it ended. What a crash leaves of its journal, whenever
/// it comes, within a call of the journal too, is what that life leaves.
pub fn life_law<H: Replayed, J: Journal>()
    ensures { (begun : H.Kept) (found : List Entry) (first : Parts H J) (rounds : List (List Served)) (held : List Served)
        (left : List Entry)
        → IsLived (promised H.Replayed) J.Journal begun found first rounds held left
        → LivesAs (record { redone = H.redone; restored = H.restored }) H.reply begun found (served_in rounds) held left }
{}

/// A service, as `Server::serve` promises it, is such a life, for its clients too: each that was accepted, connected or
/// not, received a prefix of the answers to its own messages among those that were sent, and each of these has its
/// place among the records that a crash then leaves.
pub fn service_law<S: Stream, H: Replayed, J: Journal>()
    ensures { (begun : H.Kept) (found : List Entry) (known later : Known S) (old new : World S (Parts H J))
        (result : Result Unit Fault) (left : List Entry)
        → IsService (IsExchange (promised H.Replayed) J.Journal) (IsSettled J.Journal) S.contents S.remaining known later old
        result new
        → IsHeld (promised H.Replayed) J.Journal begun old.handler found (length found)
        → IsTrue (H.is_honest old.handler.handler)
        → J.may_leave new.handler.journal left
        → IsRemembered S.contents S.remaining (record { redone = H.redone; restored = H.restored }) H.reply begun found known later old new left }
{}

/// Lives, with checkpoints between them: all of them are one history, with the effect of the records that the last
/// stage left. Every answer that was sent has its place in it, in order over all lives: an answer without a fault is
/// what the history before it makes of the request, and its own record follows. All else in it was performed, and its
/// answer held back; or it is a checkpoint, at which all lists ended and the number of each next list was raised. So a
/// token is answered as before or refused, and no list number is given twice.
pub fn stages_law<H: Replayed>()
    ensures { (begun : H.Kept) (stages : List JournalStage) (left : List Entry)
        → H.emptied begun ≡ begun
        → AreStages (record {
          leaving = record { redone = H.redone; restored = H.restored };
          reply = H.reply;
          parts = H.parts;
          ended = H.ended;
          emptied = H.emptied;
        }) begun [] stages left
        → IsHistory (record {
          leaving = record { redone = H.redone; restored = H.restored };
          reply = H.reply;
          parts = H.parts;
          ended = H.ended;
          emptied = H.emptied;
        }) begun stages left }
{}

/// Lives in which any number of checkpoints took the place of the journal are lives: each is a list of moves, an
/// exchange, a commit, at which the answers leave that wait, or a switch to a file whose records leave the same state.
/// There is one list of log records, as of lives without a switch, in which every answer that was sent has its place,
/// in order over all lives; and the last file leaves the state that this list leaves. So at a switch no list ends, and
/// no number is raised.
pub fn moved_law<H: Replayed>()
    ensures { (begun : H.Kept) (lives : List (List Move)) (left : List Entry)
        → AreMovedLives (record { redone = H.redone; restored = H.restored }) H.reply begun [] lives left
        → AreLikeLives (record { redone = H.redone; restored = H.restored }) H.reply begun lives left }
{}

/// A handler whose journal has a checkpoint in place of the first records goes on as if it had them all: an exchange,
/// as [`Journaled`](crate::Journaled) promises it of the records of its file, is one over all records for which the
/// file stands; settling makes all of them durable, or fails and leaves them. What a crash leaves of the file stands
/// for what a crash would have left of them: all durable ones, and the first of the others.
pub fn stood_law<H: Replayed, J: Journal>()
    ensures exchange { (let h : Replaying H = promised H.Replayed in (begun : H.Kept) (entries : List Entry)
        (durable : ℕ) (before after : Parts H J) (moment : ℤ) (asked : Asked) (answer : Answer)
        → IsHeldBy h J.Journal begun before entries durable
        → IsExchange h J.Journal before moment asked answer after
        → IsKeptBy h J.Journal begun entries durable before moment asked answer after) }
    ensures settled { (let h : Replaying H = promised H.Replayed in (begun : H.Kept) (entries : List Entry)
        (durable : ℕ) (before after : Parts H J)
        → IsHeldBy h J.Journal begun before entries durable
        → IsSettled J.Journal before (Ok tt) after
        → IsHeldBy h J.Journal begun after entries (length entries)) }
    ensures unsettled { (let h : Replaying H = promised H.Replayed in (begun : H.Kept) (entries : List Entry)
        (durable : ℕ) (before after : Parts H J) (fault : SettleFault)
        → IsHeldBy h J.Journal begun before entries durable
        → IsSettled J.Journal before (Err fault) after
        → IsHeldBy h J.Journal begun after entries durable) }
    ensures crash { (let h : Replaying H = promised H.Replayed in (begun : H.Kept) (entries : List Entry)
        (durable : ℕ) (parts : Parts H J) (left : List Entry)
        → IsHeldBy h J.Journal begun parts entries durable
        → J.may_leave parts.journal left
        → IsLeftLike h.leaving begun entries durable left) }
{}

/// A checkpoint that is written while exchanges go on stays one of the records, of those too that exchanges log, and
/// settling makes durable. Once it is written, its journal may take the place of the other: it stands for all records.
pub fn online_checkpoint_law<H: Replayed, J: Journal, K: Journal>()
    ensures exchange { (let h : Replaying H = promised H.Replayed in (begun : H.Kept) (entries own : List Entry)
        (durable : ℕ) (before after : Parts H J) (moment : ℤ) (asked : Asked) (answer : Answer) (w : Writing K)
        → IsExchange h J.Journal before moment asked answer after
        → IsWriting h J.Journal K.Journal H.emptied begun before entries durable w
        → IsWriting h J.Journal K.Journal H.emptied begun after (entries ++ own) durable w) }
    ensures settled { (let h : Replaying H = promised H.Replayed in (begun : H.Kept) (entries : List Entry)
        (durable : ℕ) (before after : Parts H J) (w : Writing K)
        → IsHeld h J.Journal begun before entries durable
        → IsSettled J.Journal before (Ok tt) after
        → IsWriting h J.Journal K.Journal H.emptied begun before entries durable w
        → IsWriting h J.Journal K.Journal H.emptied begun after entries (length entries) w) }
    ensures stands { (let h : Replaying H = promised H.Replayed in (begun : H.Kept) (entries : List Entry)
        (durable : ℕ) (parts : Parts H J) (new : K)
        → IsHeld h J.Journal begun parts entries durable
        → LeavesSame K.Journal h.leaving begun entries new
        → IsHeldBy h K.Journal begun (record { handler = parts.handler; journal = new }) entries (length entries)) }
{}

/// A handler whose journal stays short keeps all records, though its file has a checkpoint in place of the first ones: an
/// exchange has its place behind them, and its own record follows; settling makes all of them durable, whatever becomes
/// of the checkpoint; and what a crash leaves, of the journal or of a new one that may be in its place, also where
/// settling failed, stands for what it would have left of them: all durable ones, and the first of the others. Provided
/// that what was read for a checkpoint was right: the store is honest, and each read returned what the disk has.
pub fn checkpointed_law<H: Replayed, J: Journal, K: Journal>()
    ensures exchange { (let h : Replaying H = promised H.Replayed in (begun : H.Kept) (entries : List Entry)
        (durable : ℕ) (before after : Checkpointed H (Either J K) K) (moment : ℤ) (asked : Asked) (answer : Answer)
        → IsHeldBeside h ⟦<EitherJournal<J, K> as Journal>⟧ K.Journal H.emptied begun before entries durable
        → IsExchangeBeside h ⟦<EitherJournal<J, K> as Journal>⟧ before moment asked answer after
        → IsKeptBeside h ⟦<EitherJournal<J, K> as Journal>⟧ K.Journal H.emptied begun entries durable before moment asked answer after) }
    ensures settled { (let h : Replaying H = promised H.Replayed in (begun : H.Kept) (entries : List Entry)
        (durable : ℕ) (before after : Checkpointed H (Either J K) K) → H.emptied begun ≡ begun
        → IsHeldBeside h ⟦<EitherJournal<J, K> as Journal>⟧ K.Journal H.emptied begun before entries durable
        → (settles : IsSettledBeside h ⟦<EitherJournal<J, K> as Journal>⟧ K.Journal H.emptied Second before (Ok tt) after)
        → IsSettlingSound h ⟦<EitherJournal<J, K> as Journal>⟧ K.Journal H.emptied Second before (Ok tt) after settles
        → IsHeldBeside h ⟦<EitherJournal<J, K> as Journal>⟧ K.Journal H.emptied begun after entries (length entries)) }
    ensures unsettled { (let h : Replaying H = promised H.Replayed in (begun : H.Kept) (entries : List Entry)
        (durable : ℕ) (before after : Checkpointed H (Either J K) K) (fault : SettleFault) (left : List Entry)
        → H.emptied begun ≡ begun → durable ≤ length entries
        → IsHeldBeside h ⟦<EitherJournal<J, K> as Journal>⟧ K.Journal H.emptied begun before entries durable
        → (settles : IsSettledBeside h ⟦<EitherJournal<J, K> as Journal>⟧ K.Journal H.emptied Second before (Err fault) after)
        → IsSettlingSound h ⟦<EitherJournal<J, K> as Journal>⟧ K.Journal H.emptied Second before (Err fault) after settles
        → MayLeaveBeside ⟦<EitherJournal<J, K> as Journal>⟧ K.Journal after left
        → IsLeftLike h.leaving begun entries durable left) }
    ensures crash { (let h : Replaying H = promised H.Replayed in (begun : H.Kept) (entries : List Entry)
        (durable : ℕ) (now : Checkpointed H (Either J K) K) (left : List Entry)
        → IsHeldBeside h ⟦<EitherJournal<J, K> as Journal>⟧ K.Journal H.emptied begun now entries durable
        → MayLeaveBeside ⟦<EitherJournal<J, K> as Journal>⟧ K.Journal now left
        → IsLeftLike h.leaving begun entries durable left) }
{}

/// At each moment of a switch, from one journal to another that leaves the same state, all records of both being
/// durable, what a crash leaves under the name of the journal is one journal, of one reading, that stands for all
/// records that were committed. Until the rename it is the old one, once the folder is synced the new one, and between
/// them either.
pub fn switch_law<H: Replayed, D: Disk, E: Disk>()
    ensures { (begun : H.Kept) (entries held saved : List Entry) (old : FileJournal D) (new : FileJournal E)
        (phase : SwitchPhase) (file : List ℕ)
        → HoldsRecords D.Disk.seen D.Disk.may_leave old held (length held)
        → StandInFor (record { redone = H.redone; restored = H.restored }) begun entries (length entries) held (length held)
        → HoldsRecords E.Disk.seen E.Disk.may_leave new saved (length saved)
        → redone_all (record { redone = H.redone; restored = H.restored }) begun saved
        ≡ redone_all (record { redone = H.redone; restored = H.restored }) begun held
        → FolderLeaves D.Disk.may_leave E.Disk.may_leave (disk_in old) (disk_in new) phase file
        → StandsForAll (record { redone = H.redone; restored = H.restored }) begun entries file }
{}

/// Recovery of what a crash left of a journal, at any moment, does not end by damage, but for a cause that is named: out
/// of memory, the disk, or a record that could not be performed. The premise is that no commit byte of the file was
/// changed: an unset one is not followed by frames with the right digests and a set commit byte between them. A torn
/// write may leave any bytes, so a crash could leave these by a collision of digests alone; see
/// [`crash_law`](oai_journal::crash_law).
pub fn recovery_law<D: Disk>()
    ensures { (journal : FileJournal D) (entries : List Entry) (durable : ℕ) (file : List ℕ) (fault : RecoverFault)
        → HoldsRecords D.Disk.seen D.Disk.may_leave journal entries durable → D.Disk.may_leave (disk_in journal) file
        → ((at : ℕ) → IsChangedAt file at → ⊥)
        → TellsDamage file fault
        → (at : ℕ) → fault ≡ cause.Journal (Damaged at) → ⊥ }
{}
