//! Reads a disk a block at a time: one call of the disk for the frames of many records.
ghost use Rattle.std.specs.Prelude.{◌≡◌, ◌+◌, ◌-◌, ◌<◌, ◌≤◌, [], ℕ, List, length, take, drop, IsTrue, OnOk, IfOk};
ghost use Rattle.sqlite_disk.specs.Disk.{Holds, Only};
ghost use Rattle.oai_journal.specs.Blocks.{IsBlock};

use crate::journals::JournalFault;
use crate::readings::open_len;
use sqlite_disk::Disk;
use std::alloc::Global;

/// The size of a block in bytes: 1 MiB.
const BLOCK_BYTES: usize = 1_048_576;

/// A disk, and the block that was read from it last.
#[derive(Drop)]
pub(crate) struct BlockReader<D: Disk> {
    pub(crate) disk: D,
    /// The position of the block.
    start: usize,
    /// Its bytes; none before the first is read.
    block: Vec<u8>,
}

impl<D: Disk + Drop> BlockReader<D> {
    /// That disk. Nothing is read yet.
    pub(crate) fn new(alloc: Global, disk: D) -> BlockReader<D>
        ensures { result.disk ≡ disk }
    {
        BlockReader {
            disk,
            start: 0,
            block: Vec::new(alloc),
        }
    }

    /// The disk.
    pub(crate) fn into_disk(self) -> D
        ensures { result ≡ self.disk }
    {
        self.disk
    }

    /// The length of the file in bytes; it is not synced. The error: Failed if the disk fails, or has failed.
    pub(crate) fn file_len(&mut self) -> Result<usize, JournalFault>
        ensures len { IfOk result (λ len. IsTrue (D.Disk.is_clean self.new.disk) → len ≡ length (D.Disk.seen self.old.disk)) }
        ensures block { IsBlock D.Disk.seen self.old → IsBlock D.Disk.seen self.new }
        ensures seen { D.Disk.seen self.new.disk ≡ D.Disk.seen self.old.disk }
        ensures crash { (c : List ℕ) → D.Disk.may_leave self.new.disk c → D.Disk.may_leave self.old.disk c }
        ensures clean { IsTrue (D.Disk.is_clean self.new.disk) → IsTrue (D.Disk.is_clean self.old.disk) }
    {
        if !self.disk.may_be_used() {
            return Err(JournalFault::Failed);
        }
        match self.disk.len() {
            Ok(len) => Ok(len),
            Err(_) => Err(JournalFault::Failed),
        }
    }

    /// Forgets the block, since the file was written.
    pub(crate) fn forget(&mut self)
        ensures block { IsBlock D.Disk.seen self.new }
        ensures disk { self.new.disk ≡ self.old.disk }
    {
        self.start = 0;
        self.block.clear();
    }

    /// Syncs the file; returns its length in bytes. What was read before is forgotten.
    pub(crate) fn open_len(&mut self) -> Result<usize, JournalFault>
        ensures len { IfOk result (λ len. IsTrue (D.Disk.is_clean self.new.disk) → len ≡ length (D.Disk.seen self.old.disk)) }
        ensures block { IsBlock D.Disk.seen self.new }
        ensures durable { OnOk result (Only (D.Disk.seen self.new.disk) (D.Disk.may_leave self.new.disk)) }
        ensures crash { (c : List ℕ) → D.Disk.may_leave self.new.disk c → D.Disk.may_leave self.old.disk c }
        ensures seen { D.Disk.seen self.new.disk ≡ D.Disk.seen self.old.disk }
    {
        self.forget();
        open_len(&mut self.disk)
    }

    /// Reads that many bytes at that position of a file of `len` bytes. The errors: Failed if the disk fails, or has
    /// failed; NoRoom if out of memory.
    pub(crate) fn read(
        &mut self,
        len: usize,
        at: usize,
        size: usize,
        bytes: &mut Vec<u8>,
    ) -> Result<(), JournalFault>
        requires { 0 < size }
        ensures read { OnOk result (IsTrue (D.Disk.is_clean self.new.disk) → IsBlock D.Disk.seen self.old
            → bytes.new.items ≡ take size (drop at (D.Disk.seen self.old.disk))) }
        ensures block { OnOk result (IsTrue (D.Disk.is_clean self.new.disk) → IsBlock D.Disk.seen self.old
            → IsBlock D.Disk.seen self.new) }
        ensures size { OnOk result (length bytes.new.items ≡ size) }
        ensures seen { D.Disk.seen self.new.disk ≡ D.Disk.seen self.old.disk }
        ensures crash { (c : List ℕ) → D.Disk.may_leave self.new.disk c → D.Disk.may_leave self.old.disk c }
        ensures clean { IsTrue (D.Disk.is_clean self.new.disk) → IsTrue (D.Disk.is_clean self.old.disk) }
    {
        self.bring(len, at, size)?;
        bytes.clear();
        bytes.extend_from_slice(self.part(at, size))?;
        Ok(())
    }

    /// That many bytes of the block, which has them, at that position.
    fn part(&self, at: usize, size: usize) -> &[u8]
        requires start { self.now.start ≤ at }
        requires size { at + size ≤ self.now.start + length self.now.block.items }
        ensures { result.now ≡ take size (drop (at - self.now.start) self.now.block.items) }
    {
        let from = at - self.start;
        &self.block[from..from + size]
    }

    /// Reads a block that has that many bytes at that position, unless the last one has them.
    fn bring(&mut self, len: usize, at: usize, size: usize) -> Result<(), JournalFault>
        requires { 0 < size }
        ensures start { OnOk result (self.new.start ≤ at) }
        ensures size { OnOk result (at + size ≤ self.new.start + length self.new.block.items) }
        ensures block { OnOk result (IsTrue (D.Disk.is_clean self.new.disk) → IsBlock D.Disk.seen self.old
            → IsBlock D.Disk.seen self.new) }
        ensures seen { D.Disk.seen self.new.disk ≡ D.Disk.seen self.old.disk }
        ensures crash { (c : List ℕ) → D.Disk.may_leave self.new.disk c → D.Disk.may_leave self.old.disk c }
        ensures clean { IsTrue (D.Disk.is_clean self.new.disk) → IsTrue (D.Disk.is_clean self.old.disk) }
    {
        if self.has(at, size) {
            Ok(())
        } else {
            self.fill(len, at, size)
        }
    }

    /// Whether the block has that many bytes at that position.
    fn has(&self, at: usize, size: usize) -> bool
        ensures { IsTrue result → (self.now.start ≤ at) × (at + size ≤ self.now.start + length self.now.block.items) }
    {
        let len = self.block.len();
        self.start <= at && size <= len && at - self.start <= len - size
    }

    /// Reads the block at that position, of that many bytes at least; only these if a whole block cannot be read.
    fn fill(&mut self, len: usize, at: usize, size: usize) -> Result<(), JournalFault>
        requires { 0 < size }
        ensures start { OnOk result (self.new.start ≡ at) }
        ensures size { OnOk result (size ≤ length self.new.block.items) }
        ensures block { OnOk result (IsTrue (D.Disk.is_clean self.new.disk) → IsBlock D.Disk.seen self.new) }
        ensures seen { D.Disk.seen self.new.disk ≡ D.Disk.seen self.old.disk }
        ensures crash { (c : List ℕ) → D.Disk.may_leave self.new.disk c → D.Disk.may_leave self.old.disk c }
        ensures clean { IsTrue (D.Disk.is_clean self.new.disk) → IsTrue (D.Disk.is_clean self.old.disk) }
    {
        let whole = size.max(BLOCK_BYTES.min(len.saturating_sub(at)));
        match self.load(at, whole) {
            Ok(()) => Ok(()),
            Err(_) => self.load(at, size),
        }
    }

    /// Reads a block of that many bytes at that position; there is none if it fails.
    fn load(&mut self, at: usize, size: usize) -> Result<(), JournalFault>
        requires { 0 < size }
        ensures start { OnOk result (self.new.start ≡ at) }
        ensures size { OnOk result (length self.new.block.items ≡ size) }
        ensures block { OnOk result (IsTrue (D.Disk.is_clean self.new.disk) → IsBlock D.Disk.seen self.new) }
        ensures seen { D.Disk.seen self.new.disk ≡ D.Disk.seen self.old.disk }
        ensures crash { (c : List ℕ) → D.Disk.may_leave self.new.disk c → D.Disk.may_leave self.old.disk c }
        ensures clean { IsTrue (D.Disk.is_clean self.new.disk) → IsTrue (D.Disk.is_clean self.old.disk) }
    {
        if !self.disk.may_be_used() {
            return Err(JournalFault::Failed);
        }
        self.start = at;
        self.block.resize(size, 0)?;
        match self.disk.read_at(at, &mut self.block) {
            Ok(()) => Ok(()),
            Err(_) => {
                self.block.clear();
                Err(JournalFault::Failed)
            }
        }
    }
}
