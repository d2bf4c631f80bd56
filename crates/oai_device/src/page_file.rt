ghost use Rattle.std.specs.Prelude.{◌≡◌, ◌+◌, ◌*◌, ◌≤◌, ◌<◌, ◌^◌, ◌⊎◌, ℕ, Bool, None, false, length, take, IfOk, IsTrue, IfSome, Ok};
ghost use Rattle.oai_device.specs.PageFile.{Bytes, KeepsOtherBytes, Stand, WereRead};

use crate::devices::{PAGE_BYTES, Page};
use std::fs::File;
use std::io;
use std::io::ErrorKind;
use std::os::unix::fs::FileExt;

/// A file that is read and written at offsets. A call may be short: it transfers fewer bytes than it was asked for, and
/// returns how many; 0 at the end of the file.
pub trait PageFile: Drop {
    /// For an honest file, the byte that the last write left at each offset, whatever a failed one left there; None if
    /// nothing was written.
    ghost bytes: { Self → Bytes };

    /// Whether the file returns what was written to it.
    ghost honest: { Self → Bool };

    /// Reads bytes at that offset into the start of `into`, and returns how many. Any error may come.
    fn read_some(&mut self, offset: u64, into: &mut [u8]) -> io::Result<usize>
        ensures count { IfOk result (λ n. n ≤ length into.new) }
        ensures value { IfOk result (λ n. IsTrue (honest self.old)
            → WereRead (bytes self.old) offset (take n into.new)) }
        ensures same { bytes self.new ≡ bytes self.old }
        ensures honesty { honest self.new ≡ honest self.old };

    /// Writes bytes from the start of `from` at that offset, and returns how many. Any error may come.
    fn write_some(&mut self, offset: u64, from: &[u8]) -> io::Result<usize>
        ensures count { IfOk result (λ n. n ≤ length from.now) }
        ensures written { IfOk result (λ n. IsTrue (honest self.old)
            → Stand (bytes self.new) offset (take n from.now)) }
        ensures others { KeepsOtherBytes offset (length from.now) (bytes self.old) (bytes self.new) }
        ensures honesty { honest self.new ≡ honest self.old };
}

/// No clause can say what the system's file returns, so for clauses it is not honest.
impl PageFile for File {
    ghost bytes = { λ _ _. None };

    ghost honest = { λ _. false };

    fn read_some(&mut self, offset: u64, into: &mut [u8]) -> io::Result<usize> {
        self.read_at(into, offset)
    }

    fn write_some(&mut self, offset: u64, from: &[u8]) -> io::Result<usize> {
        self.write_at(from, offset)
    }
}

/// Reads the bytes at that offset of the file, in as many calls as needed; returns whether all were read.
pub(crate) fn read_all<F: PageFile>(file: &mut F, offset: u64, into: &mut [u8]) -> bool
    requires room { offset + length into.old < 2 ^ 64 }
    ensures value { IsTrue result → IsTrue (F.honest file.old) → WereRead (F.bytes file.old) offset into.new }
    ensures same { F.bytes file.new ≡ F.bytes file.old }
    ensures honesty { F.honest file.new ≡ F.honest file.old }
{
    let mut done = 0;
    for _ in 0..u64::MAX {
        if done == into.len() {
            return true;
        }
        let Some(count) = transferred(file.read_some(offset + done as u64, &mut into[done..]))
        else {
            return false;
        };
        done += count;
    }
    false
}

/// Writes the page at that offset of the file, in as many calls as needed; returns whether all of it was written.
pub(crate) fn write_page<F: PageFile>(file: &mut F, offset: u64, page: &Page) -> bool
    requires room { offset + PAGE_BYTES < 2 ^ 64 }
    ensures written { IsTrue result → IsTrue (F.honest file.old) → Stand (F.bytes file.new) offset page.now }
    ensures others { KeepsOtherBytes offset PAGE_BYTES (F.bytes file.old) (F.bytes file.new) }
    ensures honesty { F.honest file.new ≡ F.honest file.old }
{
    let mut done = 0;
    for _ in 0..u64::MAX {
        let Some(count) = transferred(file.write_some(offset + done as u64, &page[done..])) else {
            return false;
        };
        done += count;
        if done == PAGE_BYTES {
            return true;
        }
    }
    false
}

/// The number of bytes that a call read or wrote: 0 if it was interrupted; None if it failed, or the file ends.
fn transferred(answer: io::Result<usize>) -> Option<usize>
    ensures { IfSome result (λ n. (n ≡ 0) ⊎ (answer ≡ Ok n)) }
{
    match answer {
        Ok(0) => None,
        Ok(count) => Some(count),
        Err(cause) if cause.kind() == ErrorKind::Interrupted => Some(0),
        Err(_) => None,
    }
}
