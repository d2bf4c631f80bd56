//! The disk of a journal that is served.
use sqlite_disk::{Disk, Tally};
use std::io;

/// The disk of a journal that is served: of the one that was found, or of one that was begun, whose clauses are about
/// two files.
#[derive(Drop)]
pub enum ServedDisk<F, B> {
    /// The journal was found.
    Found(F),
    /// It was begun.
    Begun(B),
}

impl<F: Disk + Drop, B: Disk + Drop> Disk for ServedDisk<F, B> {
    ghost use Rattle.oai_recovery.specs.ServedDisks.{of_either, clean_is_fair, seen_stays};

    ghost seen = { of_either F.Disk.seen B.Disk.seen };

    ghost may_leave = { of_either F.Disk.may_leave B.Disk.may_leave };

    ghost is_usable = { of_either F.Disk.is_usable B.Disk.is_usable };

    ghost faults = { of_either F.Disk.faults B.Disk.faults };

    ghost tally_of = { of_either F.Disk.tally_of B.Disk.tally_of };

    ghost is_clean = { of_either F.Disk.is_clean B.Disk.is_clean };

    ghost key_of = { of_either F.Disk.key_of B.Disk.key_of };

    ghost is_fair = { of_either F.Disk.is_fair B.Disk.is_fair };

    ghost seen_may_stay = { seen_stays F.Disk.seen B.Disk.seen F.Disk.may_leave B.Disk.may_leave F.Disk.seen_may_stay B.Disk.seen_may_stay };

    ghost fair_if_clean = { clean_is_fair F.Disk.is_clean B.Disk.is_clean F.Disk.is_fair B.Disk.is_fair F.Disk.fair_if_clean B.Disk.fair_if_clean };

    fn mixes(&self) -> bool {
        false
    }

    fn key(&self) -> u64 {
        match self {
            ServedDisk::Found(disk) => disk.key(),
            ServedDisk::Begun(disk) => disk.key(),
        }
    }

    fn tally(&self) -> Tally {
        match self {
            ServedDisk::Found(disk) => disk.tally(),
            ServedDisk::Begun(disk) => disk.tally(),
        }
    }

    fn may_be_used(&self) -> bool {
        match self {
            ServedDisk::Found(disk) => disk.may_be_used(),
            ServedDisk::Begun(disk) => disk.may_be_used(),
        }
    }

    fn len(&mut self) -> io::Result<usize> {
        match self {
            ServedDisk::Found(disk) => disk.len(),
            ServedDisk::Begun(disk) => disk.len(),
        }
    }

    fn read_at(&mut self, at: usize, buf: &mut [u8]) -> io::Result<()> {
        match self {
            ServedDisk::Found(disk) => disk.read_at(at, buf),
            ServedDisk::Begun(disk) => disk.read_at(at, buf),
        }
    }

    fn read_checked(&mut self, key: u64, want: u64, at: usize, buf: &mut [u8]) -> io::Result<()> {
        match self {
            ServedDisk::Found(disk) => disk.read_checked(key, want, at, buf),
            ServedDisk::Begun(disk) => disk.read_checked(key, want, at, buf),
        }
    }

    fn write_at(&mut self, at: usize, bytes: &[u8]) -> io::Result<()> {
        match self {
            ServedDisk::Found(disk) => disk.write_at(at, bytes),
            ServedDisk::Begun(disk) => disk.write_at(at, bytes),
        }
    }

    fn set_len(&mut self, len: usize) -> io::Result<()> {
        match self {
            ServedDisk::Found(disk) => disk.set_len(len),
            ServedDisk::Begun(disk) => disk.set_len(len),
        }
    }

    fn sync(&mut self) -> io::Result<()> {
        match self {
            ServedDisk::Found(disk) => disk.sync(),
            ServedDisk::Begun(disk) => disk.sync(),
        }
    }
}
