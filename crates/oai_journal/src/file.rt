//! A journal in a file.
ghost use Rattle.std.specs.Prelude.{◌≡◌, ◌<◌, ◌≤◌, ◌+◌, ◌++◌, [], ◌∷◌, ℕ, List, true, false, length, IsTrue, IfOk, OnOk, OnErr};
ghost use Rattle.oai_journal.specs.Frames.{frame, next_digest};
ghost use Rattle.oai_journal.specs.Records.{Entry, as_entry, is_first_kind, is_fit};

use crate::blocks::BlockReader;
use crate::frames::{FRAME_ROOM, write_frame};
use crate::groups::{write_group, write_synced};
use crate::heads::put;
use crate::journals::{Journal, JournalFault};
use crate::readings::open_len;
use crate::records::LogRecord;
use crate::tails::Tail;
use sqlite_disk::Disk;
use std::alloc::{AllocError, Global};

/// A journal in a file: a write-ahead log of commit groups. A group is written and synced, then committed by its commit
/// byte. Records wait in memory until they are committed.
///
/// A commit byte precedes each frame, and one ends the journal; names call it a gate. It is *set* (open) if the frame
/// after it is committed: `+` begins a group, `&` continues it. It is *unset* (closed, `-`) at the end of the journal:
/// what follows is not committed.
#[derive(Drop)]
pub struct FileJournal<D: Disk> {
    /// The disk, and the block of it that a tail has read.
    reader: BlockReader<D>,
    /// The position of the unset commit byte that ends the journal.
    end: usize,
    /// The digest of the last frame on the disk.
    digest: u64,
    /// The frames that wait, each with the next commit byte after it.
    pending: Vec<u8>,
    /// The digest of the last of these.
    last: u64,
    /// Whether the disk has failed.
    stopped: bool,
}

impl<D: Disk + Drop> Journal for FileJournal<D> {
    ghost use Rattle.oai_journal.specs.Kept.{HasRoom, HoldsRecords, HasNotStopped, LeavesAllOrNone, MayLeaveRecords, disk_in};
    ghost use Rattle.oai_journal.specs.Tails.{StandsBehind};
    ghost use Rattle.oai_journal.specs.Kept.{journal_left, journal_stays, room_for_less};

    ghost holds = { λ journal entries durable. HoldsRecords D.Disk.seen D.Disk.may_leave journal entries durable };

    ghost may_leave = { λ journal found. MayLeaveRecords D.Disk.may_leave (disk_in journal) found };

    ghost stands = { λ journal tail read. StandsBehind D.Disk.seen D.Disk.is_clean journal tail read };

    ghost is_clean = { λ journal. D.Disk.is_clean (disk_in journal) };

    ghost has_room = { λ journal bytes. HasRoom journal.pending bytes };

    ghost less_room = { λ journal bytes less low room. room_for_less journal.pending bytes less low room };

    ghost stays = { λ journal entries durable held.
        journal_stays D.Disk.seen D.Disk.may_leave D.Disk.seen_may_stay journal entries durable held };

    ghost left = { λ journal entries durable found held left.
        journal_left D.Disk.seen D.Disk.may_leave journal entries durable found held left };

    fn reserve(&mut self, bytes: usize) -> Result<(), JournalFault> {
        let Some(bytes) = bytes.checked_add(FRAME_ROOM) else {
            return Err(JournalFault::NoRoom);
        };
        self.pending.try_reserve(bytes)?;
        Ok(())
    }

    fn append(&mut self, entry: &LogRecord<'_>) {
        let _moment = entry.moment;
        self.last = write_frame(self.last, entry, &mut self.pending);
        put(b"&", &mut self.pending);
    }

    fn commit(&mut self) -> Result<(), JournalFault>
        ensures ok { OnOk result ((entries : List Entry) (durable : ℕ)
            → HoldsRecords D.Disk.seen D.Disk.may_leave self.old entries durable
            → HoldsRecords D.Disk.seen D.Disk.may_leave self.new entries (length entries)) }
        ensures err { OnErr result ((entries : List Entry) (durable : ℕ)
            → HoldsRecords D.Disk.seen D.Disk.may_leave self.old entries durable
            → HoldsRecords D.Disk.seen D.Disk.may_leave self.new entries durable) }
        ensures group { HasNotStopped self.old → (entries : List Entry) (durable : ℕ)
            → HoldsRecords D.Disk.seen D.Disk.may_leave self.old entries durable
            → LeavesAllOrNone D.Disk.may_leave self.new entries durable }
        ensures tails { OnOk result ((entries : List Entry) (durable : ℕ)
            → HoldsRecords D.Disk.seen D.Disk.may_leave self.old entries durable
            → (tail : Tail) (read : List Entry) → StandsBehind D.Disk.seen D.Disk.is_clean self.old tail read
            → StandsBehind D.Disk.seen D.Disk.is_clean self.new tail read) }
    {
        if self.stopped {
            return Err(JournalFault::Failed);
        }
        if self.pending.is_empty() {
            return Ok(());
        }
        self.stopped = true;
        let Some(end) = self.end.checked_add(self.pending.len()) else {
            return Err(JournalFault::NoRoom);
        };
        close_group(&mut self.pending);
        write_group(&mut self.reader.disk, self.end, &self.pending)?;
        self.reader.forget();
        self.pending.clear();
        self.end = end;
        self.digest = self.last;
        self.stopped = false;
        Ok(())
    }

    fn tail(&mut self, alloc: Global) -> Result<Tail, JournalFault> {
        if self.stopped {
            return Err(JournalFault::Failed);
        }
        self.reader.forget();
        Ok(Tail::at(alloc, self.end, self.digest))
    }

    fn read_next(&mut self, tail: &mut Tail) -> Result<bool, JournalFault> {
        if self.stopped {
            return Err(JournalFault::Failed);
        }
        if tail.is_at_end(self.end) {
            return Ok(false);
        }
        let len = self.reader.file_len()?;
        match tail.advance(&mut self.reader, len) {
            Ok(()) => Ok(true),
            Err(fault) => {
                self.reader.forget();
                Err(fault)
            }
        }
    }
}

impl<D: Disk + Drop> FileJournal<D> {
    ghost use Rattle.oai_journal.specs.Kept.{HoldsFirst, IsAtEnd};

    /// Begins a journal with that record on an empty disk, and syncs it. The errors: NoRoom if out of memory; Failed if
    /// the disk fails or is not empty.
    pub fn create(
        alloc: Global,
        mut disk: D,
        first: &LogRecord<'_>,
    ) -> Result<FileJournal<D>, JournalFault>
        requires fit { IsTrue (is_fit (as_entry first.now)) }
        requires kind { is_first_kind first.now.kind ≡ true }
        ensures { IfOk result (λ journal. HoldsFirst D.Disk.seen D.Disk.may_leave journal (as_entry first.now)) }
    {
        let _moment = first.moment;
        if open_len(&mut disk)? != 0 {
            return Err(JournalFault::Failed);
        }
        let (bytes, digest) = first_frame(alloc, first)?;
        write_synced(&mut disk, 0, &bytes)?;
        Ok(FileJournal::at_end(alloc, disk, bytes.len() - 1, digest))
    }

    /// The journal's disk; records that wait are dropped.
    pub fn into_disk(self) -> D
        ensures { result ≡ self.reader.disk }
    {
        self.reader.into_disk()
    }

    /// The length in bytes of what counts of the file, once all records are durable.
    pub fn len(&self) -> usize {
        self.end.saturating_add(self.pending.len())
    }

    /// A journal on that disk that ends at `end`, whose last frame has that digest.
    pub(crate) fn at_end(alloc: Global, disk: D, end: usize, digest: u64) -> FileJournal<D>
        ensures { IsAtEnd result disk end digest }
    {
        FileJournal {
            reader: BlockReader::new(alloc, disk),
            end,
            digest,
            pending: Vec::new(alloc),
            last: digest,
            stopped: false,
        }
    }
}

/// The bytes of a journal of one record, and the digest of its frame.
fn first_frame(alloc: Global, first: &LogRecord<'_>) -> Result<(Vec<u8>, u64), JournalFault>
    requires { IsTrue (is_fit (as_entry first.now)) }
    ensures bytes { IfOk result (λ made. made.0.items ≡ 43 ∷ (frame 0 (as_entry first.now) ++ 45 ∷ [])) }
    ensures digest { IfOk result (λ made. made.1 ≡ next_digest 0 (as_entry first.now)) }
{
    let room = first
        .body
        .len()
        .checked_add(FRAME_ROOM + 1)
        .ok_or(AllocError)?;
    let mut bytes = Vec::with_capacity(alloc, room)?;
    put(b"+", &mut bytes);
    let digest = write_frame(0, first, &mut bytes);
    put(b"-", &mut bytes);
    Ok((bytes, digest))
}

/// Unsets the last commit byte.
fn close_group(pending: &mut Vec<u8>)
    requires { 0 < length pending.old.items }
    ensures len { length pending.new.items ≡ length pending.old.items }
    ensures gate { (inside : List ℕ) (gate : ℕ) → pending.old.items ≡ inside ++ gate ∷ []
        → pending.new.items ≡ inside ++ 45 ∷ [] }
{
    let last = pending.len() - 1;
    pending[last] = b'-';
}
