//! Crash recovery: reads a journal's file from its first byte on, a record at a time.
ghost use Rattle.std.specs.Prelude.{◌≡◌, ◌⊎◌, ◌<◌, ◌≤◌, ◌+◌, ◌++◌, [], ◌∷◌, ℕ, List, Some, true, false, length, drop, IsTrue, IfOk, IfErr, IfSome, OnOk};
ghost use Rattle.oai_journal.specs.Blocks.{IsBlock};
ghost use Rattle.oai_journal.specs.Changes.{IsChangedAt, IsUndamaged};
ghost use Rattle.oai_journal.specs.Kept.{HoldsRecords, Survives};
ghost use Rattle.oai_journal.specs.Records.{Entry, as_entry};
ghost use Rattle.oai_journal.specs.Recoveries.{IsDamagedAt, IsReadStep, Starts, StepsWithin, step_of};
ghost use Rattle.std.specs.Option.{option_map};
ghost use Rattle.oai_journal.specs.declared.recovery.RecoveryFault.TheVariants as fault;

use crate::blocks::BlockReader;
use crate::changes::goes_on;
use crate::file::FileJournal;
use crate::frames::{FRONT_ROOM, record_in};
use crate::groups::{OPEN_GATE, is_open};
use crate::journals::JournalFault;
use crate::readings::{FramePlace, read_frame, read_gate};
use crate::records::LogRecord;
use sqlite_disk::{Crash, Disk};
use std::alloc::Global;
use thiserror::Error;

/// Why a journal is not read on.
#[derive(Clone, Copy, Debug, PartialEq, Eq, Error)]
pub enum RecoveryFault {
    /// The file is no journal, because of what it has at that byte.
    #[error("damaged at byte {0}")]
    Damaged(usize),
    /// Out of memory, or the disk failed.
    #[error("{0}")]
    Stopped(JournalFault),
}

impl From<JournalFault> for RecoveryFault {
    ghost from_gives = { λ cause e. e ≡ fault.Stopped cause };

    fn from(cause: JournalFault) -> RecoveryFault {
        RecoveryFault::Stopped(cause)
    }
}

/// What a journal has at a position of a commit byte.
pub(crate) enum Step {
    /// An unset commit byte, which ends the journal.
    End,
    /// An unset commit byte that was set: the journal continues after it.
    Changed,
    /// A set commit byte and a frame, with that digest.
    Frame(u64),
    /// No commit byte, or a set one without a frame.
    Damage,
}

/// The recovery of a journal from its file: its first record, and then one after the other. It reads the file in blocks
/// of 1 MiB, copies each frame into one buffer, which grows to the longest of them, and writes nothing.
#[derive(Drop)]
pub struct Recovery<D: Disk> {
    alloc: Global,
    reader: BlockReader<D>,
    /// The length of the file in bytes.
    len: usize,
    /// The position of the commit byte that is read next.
    at: usize,
    /// The digest of the frame that was read last.
    digest: u64,
    /// Its bytes.
    frame: Vec<u8>,
    /// Whether the commit byte that is read next is the unset one that ends the journal.
    ended: bool,
}

impl<D: Disk + Drop> Recovery<D> {
    ghost use Rattle.oai_journal.specs.Recovered.{HasRecovered, current, disk_of};

    /// The recovery of the journal on that disk. Nothing is read yet.
    pub fn new(alloc: Global, disk: D) -> Recovery<D>
        ensures { disk_of result ≡ disk }
    {
        Recovery {
            alloc,
            reader: BlockReader::new(alloc, disk),
            len: 0,
            at: 0,
            digest: 0,
            frame: Vec::new(alloc),
            ended: false,
        }
    }

    /// Syncs the file, so that what is read of it is durable, and reads the first record. Damaged at byte 0 if the file
    /// does not begin with a set commit byte and the frame of a first record.
    pub fn begin(&mut self) -> Result<(), RecoveryFault>
        ensures begun { OnOk result (IsTrue (D.Disk.is_clean (disk_of self.new)) → (first : Entry)
            × HasRecovered D.Disk.seen D.Disk.may_leave self.new first [] × (current self.new ≡ Some first)) }
        ensures damaged { IfErr result (λ cause. (at : ℕ) → cause ≡ fault.Damaged at
            → IsTrue (D.Disk.is_clean (disk_of self.new)) → IsDamagedAt (D.Disk.seen (disk_of self.new)) at) }
        ensures seen { D.Disk.seen (disk_of self.new) ≡ D.Disk.seen (disk_of self.old) }
        ensures crash { (c : List ℕ) → D.Disk.may_leave (disk_of self.new) c → D.Disk.may_leave (disk_of self.old) c }
    {
        self.ended = false;
        self.len = self.reader.open_len()?;
        let found = read_first(self.alloc, &mut self.reader, self.len, &mut self.frame)?;
        let Some(digest) = found else {
            return Err(RecoveryFault::Damaged(0));
        };
        self.digest = digest;
        self.at = 1 + self.frame.len();
        Ok(())
    }

    /// Reads the next record; returns false if there is none, since the journal ends. Damaged at the position of the
    /// commit byte if there is none, if it is set and no frame follows, or if it is unset and the journal continues
    /// after it.
    pub fn advance(&mut self) -> Result<bool, RecoveryFault>
        ensures next { IfOk result (λ more. IsTrue (D.Disk.is_clean (disk_of self.new))
            → (first : Entry) (entries : List Entry)
            → HasRecovered D.Disk.seen D.Disk.may_leave self.old first entries → IsTrue more
            → (e : Entry) × HasRecovered D.Disk.seen D.Disk.may_leave self.new first (entries ++ e ∷ [])
            × (current self.new ≡ Some e)) }
        ensures end { IfOk result (λ more. IsTrue (D.Disk.is_clean (disk_of self.new))
            → (first : Entry) (entries : List Entry)
            → HasRecovered D.Disk.seen D.Disk.may_leave self.old first entries → more ≡ false
            → HasRecovered D.Disk.seen D.Disk.may_leave self.new first entries
            × IsUndamaged (D.Disk.seen (disk_of self.new)) first entries) }
        ensures damaged { IfErr result (λ cause. (at : ℕ) → cause ≡ fault.Damaged at
            → IsTrue (D.Disk.is_clean (disk_of self.new)) → (first : Entry) (entries : List Entry)
            → HasRecovered D.Disk.seen D.Disk.may_leave self.old first entries
            → IsDamagedAt (D.Disk.seen (disk_of self.new)) at ⊎ IsChangedAt (D.Disk.seen (disk_of self.new)) at) }
        ensures seen { D.Disk.seen (disk_of self.new) ≡ D.Disk.seen (disk_of self.old) }
        ensures crash { (c : List ℕ) → D.Disk.may_leave (disk_of self.new) c → D.Disk.may_leave (disk_of self.old) c }
        ensures clean { IsTrue (D.Disk.is_clean (disk_of self.new)) → IsTrue (D.Disk.is_clean (disk_of self.old)) }
    {
        if self.ended {
            return Ok(false);
        }
        match read_step(
            self.alloc,
            &mut self.reader,
            self.len,
            self.at,
            self.digest,
            &mut self.frame,
        )? {
            Step::End => {
                self.ended = true;
                Ok(false)
            }
            Step::Frame(digest) => {
                self.digest = digest;
                self.at += 1 + self.frame.len();
                Ok(true)
            }
            Step::Changed => Err(RecoveryFault::Damaged(self.at)),
            Step::Damage => Err(RecoveryFault::Damaged(self.at)),
        }
    }

    /// The record that was read last; None before the first.
    pub fn record(&self) -> Option<LogRecord<'_>>
        ensures { option_map as_entry result ≡ current self.now }
    {
        record_in(&self.frame)
    }

    /// The position of the commit byte that is read next, in bytes.
    pub fn position(&self) -> usize {
        self.at
    }

    /// The length of the file in bytes.
    pub fn file_len(&self) -> usize {
        self.len
    }

    /// The journal, once its end was read; None before that. All its records are durable.
    pub fn into_journal(self) -> Option<FileJournal<D>>
        ensures { IfSome result (λ journal. (first : Entry) (entries : List Entry)
            → HasRecovered D.Disk.seen D.Disk.may_leave self first entries
            → HoldsRecords D.Disk.seen D.Disk.may_leave journal entries (length entries)) }
    {
        if !self.ended {
            return None;
        }
        Some(FileJournal::at_end(self.alloc, self.reader.into_disk(), self.at, self.digest))
    }
}

/// Reads the first record of the journal; None if the file does not begin with a set commit byte and its frame.
fn read_first<D: Disk + Drop>(
    alloc: Global,
    reader: &mut BlockReader<D>,
    len: usize,
    frame: &mut Vec<u8>,
) -> Result<Option<u64>, JournalFault>
    ensures found { IfOk result (λ found. IsTrue (D.Disk.is_clean reader.new.disk) → IsBlock D.Disk.seen reader.old
        → len ≡ length (D.Disk.seen reader.old.disk)
        → Starts (D.Disk.seen reader.old.disk) frame.new.items found) }
    ensures within { IfOk result (λ found. IfSome found (λ digest. 1 + length frame.new.items ≤ len)) }
    ensures block { OnOk result (IsTrue (D.Disk.is_clean reader.new.disk) → IsBlock D.Disk.seen reader.old
        → IsBlock D.Disk.seen reader.new) }
    ensures seen { D.Disk.seen reader.new.disk ≡ D.Disk.seen reader.old.disk }
    ensures crash { (c : List ℕ) → D.Disk.may_leave reader.new.disk c → D.Disk.may_leave reader.old.disk c }
    ensures clean { IsTrue (D.Disk.is_clean reader.new.disk) → IsTrue (D.Disk.is_clean reader.old.disk) }
{
    match read_gate(reader, len, 0, frame)? {
        Some(gate) if gate == OPEN_GATE => {
            let mut out = Vec::with_capacity(alloc, FRONT_ROOM)?;
            let place = FramePlace {
                at: 1,
                first: true,
                before: 0,
            };
            read_frame(reader, len, place, frame, &mut out)
        }
        _ => Ok(None),
    }
}

impl<D: Crash + Drop> FileJournal<D> {
    ghost use Rattle.oai_journal.specs.Recovered.{disk_of};

    /// The machine crashes and comes back: the recovery of what is left on the disk. For tests, and for theorems that
    /// span a restart; a `FileJournal<Memory>` is a journal in memory that can crash.
    pub fn crash(self, alloc: Global) -> Recovery<D>
        ensures { (entries : List Entry) (durable : ℕ)
            → HoldsRecords D.Disk.seen D.Disk.may_leave self entries durable
            → (first : Entry) × Survives (D.Disk.seen (disk_of result)) first entries durable }
    {
        let mut disk = self.into_disk();
        disk.crash();
        Recovery::new(alloc, disk)
    }
}

/// The result for an unset commit byte, after which the journal continues or not.
fn closed_step(on: bool) -> Step
    ensures { result ≡ step_of on }
{
    if on { Step::Changed } else { Step::End }
}

/// Reads what the journal has at a position of a commit byte.
fn read_step<D: Disk + Drop>(
    alloc: Global,
    reader: &mut BlockReader<D>,
    len: usize,
    at: usize,
    digest: u64,
    frame: &mut Vec<u8>,
) -> Result<Step, JournalFault>
    ensures found { IfOk result (λ step. IsTrue (D.Disk.is_clean reader.new.disk) → IsBlock D.Disk.seen reader.old
        → len ≡ length (D.Disk.seen reader.old.disk)
        → IsReadStep (drop at (D.Disk.seen reader.old.disk)) digest frame.new.items step) }
    ensures within { IfOk result (λ step. StepsWithin at frame.new.items len step) }
    ensures block { OnOk result (IsTrue (D.Disk.is_clean reader.new.disk) → IsBlock D.Disk.seen reader.old
        → IsBlock D.Disk.seen reader.new) }
    ensures seen { D.Disk.seen reader.new.disk ≡ D.Disk.seen reader.old.disk }
    ensures crash { (c : List ℕ) → D.Disk.may_leave reader.new.disk c → D.Disk.may_leave reader.old.disk c }
    ensures clean { IsTrue (D.Disk.is_clean reader.new.disk) → IsTrue (D.Disk.is_clean reader.old.disk) }
{
    let Some(gate) = read_gate(reader, len, at, frame)? else {
        return Ok(Step::Damage);
    };
    let mut out = Vec::with_capacity(alloc, FRONT_ROOM)?;
    if !is_open(gate) {
        let on = goes_on(reader, len, at + 1, digest, frame, &mut out)?;
        return Ok(closed_step(on));
    }
    let place = FramePlace {
        at: at + 1,
        first: false,
        before: digest,
    };
    match read_frame(reader, len, place, frame, &mut out)? {
        Some(digest) => Ok(Step::Frame(digest)),
        None => Ok(Step::Damage),
    }
}
