//! Reads again, record by record, what was appended to a journal that is being written.
ghost use Rattle.std.specs.Prelude.{◌≡◌, ◌↔◌, ◌<◌, ◌≤◌, ◌+◌, ◌^◌, ℕ, List, false, length, drop, IsTrue, OnErr, OnOk};
ghost use Rattle.std.specs.Option.{option_map};
ghost use Rattle.oai_journal.specs.Blocks.{IsBlock};
ghost use Rattle.oai_journal.specs.Records.{as_entry};
ghost use Rattle.oai_journal.specs.Recoveries.{HasFrame};
ghost use Rattle.oai_journal.specs.Tails.{tail_record};

use crate::blocks::BlockReader;
use crate::frames::{FRONT_ROOM, record_in};
use crate::journals::JournalFault;
use crate::readings::{FramePlace, read_frame};
use crate::records::LogRecord;
use sqlite_disk::Disk;
use std::alloc::Global;

/// A place in a journal that is being written, behind one of its records; and the record that was read last. What is
/// behind the place is read a record at a time, into one buffer, which grows to the longest of them.
#[derive(Drop)]
pub struct Tail {
    alloc: Global,
    /// The position of the commit byte that is read next.
    at: usize,
    /// The digest of the frame before it.
    digest: u64,
    /// The frame that was read last.
    frame: Vec<u8>,
}

impl Tail {
    /// The place at that position, behind a frame with that digest. Allocates nothing.
    pub(crate) fn at(alloc: Global, at: usize, digest: u64) -> Tail
        ensures place { result.at ≡ at }
        ensures last { result.digest ≡ digest }
    {
        Tail {
            alloc,
            at,
            digest,
            frame: Vec::new(alloc),
        }
    }

    /// The record that was read last; None before the first, and unspecified after an error.
    pub fn record(&self) -> Option<LogRecord<'_>>
        ensures { option_map as_entry result ≡ tail_record self.now }
    {
        record_in(&self.frame)
    }

    /// Whether that position is at or behind the place.
    pub(crate) fn is_at_end(&self, end: usize) -> bool
        ensures { IsTrue result ↔ (end ≤ self.now.at) }
    {
        end <= self.at
    }

    /// Reads the frame behind the commit byte at the place, of a file of `len` bytes, and moves behind it. The errors:
    /// Failed if the disk fails, or no frame is there; NoRoom if out of memory. Then the place is the same.
    pub(crate) fn advance<D: Disk + Drop>(
        &mut self,
        reader: &mut BlockReader<D>,
        len: usize,
    ) -> Result<(), JournalFault>
        requires { self.old.at + 1 < 2 ^ 64 }
        ensures found { OnOk result (IsTrue (D.Disk.is_clean reader.new.disk) → IsBlock D.Disk.seen reader.old
            → len ≡ length (D.Disk.seen reader.old.disk)
            → HasFrame false self.old.digest (drop (self.old.at + 1) (D.Disk.seen reader.old.disk))
            self.new.frame.items self.new.digest) }
        ensures moved { OnOk result (self.new.at ≡ self.old.at + 1 + length self.new.frame.items) }
        ensures err { OnErr result ((self.new.at ≡ self.old.at) × (self.new.digest ≡ self.old.digest)) }
        ensures block { OnOk result (IsTrue (D.Disk.is_clean reader.new.disk) → IsBlock D.Disk.seen reader.old
            → IsBlock D.Disk.seen reader.new) }
        ensures seen { D.Disk.seen reader.new.disk ≡ D.Disk.seen reader.old.disk }
        ensures crash { (c : List ℕ) → D.Disk.may_leave reader.new.disk c → D.Disk.may_leave reader.old.disk c }
        ensures clean { IsTrue (D.Disk.is_clean reader.new.disk) → IsTrue (D.Disk.is_clean reader.old.disk) }
    {
        let mut out = Vec::with_capacity(self.alloc, FRONT_ROOM)?;
        let place = FramePlace {
            at: self.at + 1,
            first: false,
            before: self.digest,
        };
        let Some(digest) = read_frame(reader, len, place, &mut self.frame, &mut out)? else {
            return Err(JournalFault::Failed);
        };
        self.digest = digest;
        self.at += 1 + self.frame.len();
        Ok(())
    }
}
