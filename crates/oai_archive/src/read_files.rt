//! A file that is read and never written.
use sqlite_disk::{Disk, Tally};
use std::fs::File;
use std::io::{self, ErrorKind};
use std::os::unix::fs::FileExt;

/// A file that is read, as a disk. It takes no lock, and no clause speaks of what it holds: another program may write
/// to it. A sync of it does nothing, and a write fails.
#[derive(Drop)]
pub struct ReadFile {
    file: File,
}

impl ReadFile {
    /// The file, which is open for reading.
    pub fn new(file: File) -> ReadFile {
        ReadFile { file }
    }
}

impl Disk for ReadFile {
    ghost use Rattle.std.specs.Prelude.{◌≡◌, [], true, false, refl};

    ghost seen = { λ _. [] };

    ghost may_leave = { λ _ c. c ≡ [] };

    ghost is_usable = { λ _. true };

    ghost faults = { λ _. 18446744073709551615 };

    ghost tally_of = { λ _. record { caught = 0; refused = 0 } };

    ghost is_clean = { λ _. false };

    ghost key_of = { λ _. 0 };

    ghost is_fair = { λ _ _. true };

    ghost seen_may_stay = { λ _. refl };

    ghost fair_if_clean = { λ _ _ _. refl };

    fn mixes(&self) -> bool {
        false
    }

    fn key(&self) -> u64 {
        0
    }

    fn tally(&self) -> Tally {
        Tally {
            caught: 0,
            refused: 0,
        }
    }

    fn may_be_used(&self) -> bool {
        true
    }

    fn len(&mut self) -> io::Result<usize> {
        Ok(self.file.metadata()?.len() as usize)
    }

    fn read_at(&mut self, at: usize, buf: &mut [u8]) -> io::Result<()> {
        self.file.read_exact_at(buf, at as u64)
    }

    fn read_checked(
        &mut self,
        _key: u64,
        _want: u64,
        _at: usize,
        _buf: &mut [u8],
    ) -> io::Result<()> {
        Err(io::Error::from(ErrorKind::Unsupported))
    }

    fn write_at(&mut self, _at: usize, _bytes: &[u8]) -> io::Result<()> {
        Err(io::Error::from(ErrorKind::Unsupported))
    }

    fn set_len(&mut self, _len: usize) -> io::Result<()> {
        Err(io::Error::from(ErrorKind::Unsupported))
    }

    fn sync(&mut self) -> io::Result<()> {
        Ok(())
    }
}
