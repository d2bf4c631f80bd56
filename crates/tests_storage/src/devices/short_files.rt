//! A file over another, of which each call comes short, and one call fails.
ghost use Rattle.std.specs.Prelude.{None, false};

use oai_device::PageFile;
use std::io;
use std::io::ErrorKind;

/// A file over another, of which each call reads or writes at most so many bytes, and one call fails.
#[derive(Drop)]
pub(crate) struct ShortFile<F: PageFile> {
    inner: F,
    most: usize,
    calls_left: u64,
    cause: ErrorKind,
}

impl<F: PageFile> PageFile for ShortFile<F> {
    ghost bytes = { λ _ _. None };

    ghost honest = { λ _. false };

    fn read_some(&mut self, offset: u64, into: &mut [u8]) -> io::Result<usize> {
        if self.fails() {
            return Err(self.cause.into());
        }
        let count = into.len().min(self.most);
        self.inner.read_some(offset, &mut into[..count])
    }

    fn write_some(&mut self, offset: u64, from: &[u8]) -> io::Result<usize> {
        if self.fails() {
            return Err(self.cause.into());
        }
        let count = from.len().min(self.most);
        self.inner.write_some(offset, &from[..count])
    }
}

impl<F: PageFile> ShortFile<F> {
    /// The file `inner`, of which a call reads or writes at most `most` bytes, and the k-th call from now on,
    /// counted from 1 over both, fails for that cause. With 0 no call fails.
    pub(crate) fn new(inner: F, most: usize, k: u64, cause: ErrorKind) -> ShortFile<F> {
        ShortFile {
            inner,
            most,
            calls_left: k,
            cause,
        }
    }

    /// One call more; whether it is the one that fails.
    fn fails(&mut self) -> bool {
        let fails = self.calls_left == 1;
        self.calls_left = self.calls_left.saturating_sub(1);
        fails
    }
}
