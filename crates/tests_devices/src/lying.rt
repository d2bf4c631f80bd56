//! A device that gives one byte otherwise than it was written, for tests of what stands on devices.
ghost use Rattle.std.specs.Prelude.{◌≡◌, false};

use oai_device::{DeviceFault, PAGE_BYTES, Page, PageDevice};

/// A device over another one: each read of one of its pages gives one of its bytes inverted. It is never honest.
#[derive(Drop)]
pub struct LyingDevice<D: PageDevice> {
    inner: D,
    no: u32,
    at: usize,
}

impl<D: PageDevice> PageDevice for LyingDevice<D> {
    ghost pages = { λ d. D.pages d.inner };

    ghost failures = { λ d. D.failures d.inner };

    ghost honest = { λ _. false };

    ghost reads_take_memory = { D.reads_take_memory };

    ghost writes_take_memory = { D.writes_take_memory };

    fn read(&mut self, no: u32, page: &mut Page) -> Result<(), DeviceFault> {
        self.inner.read(no, page)?;
        if no == self.no && self.at < PAGE_BYTES {
            page[self.at] = !page[self.at];
        }
        Ok(())
    }

    fn read_range(&mut self, no: u32, from: usize, into: &mut [u8]) -> Result<(), DeviceFault> {
        self.inner.read_range(no, from, into)?;
        if no == self.no && from <= self.at && self.at - from < into.len() {
            into[self.at - from] = !into[self.at - from];
        }
        Ok(())
    }

    fn write(&mut self, no: u32, page: &Page) -> Result<(), DeviceFault> {
        self.inner.write(no, page)
    }

    fn faults(&self) -> u64 {
        self.inner.faults()
    }
}

impl<D: PageDevice> LyingDevice<D> {
    /// The device `inner`, but that of the page `no` the byte at `at`, counted from 0, is inverted whenever it is read. A page has no
    /// byte at 16,384, so that nothing is inverted there.
    pub fn new(inner: D, no: u32, at: usize) -> LyingDevice<D>
        ensures pages { ⟦<LyingDevice<D> as PageDevice>⟧.pages result ≡ D.pages inner }
        ensures failures { ⟦<LyingDevice<D> as PageDevice>⟧.failures result ≡ D.failures inner }
        ensures honest { ⟦<LyingDevice<D> as PageDevice>⟧.honest result ≡ false }
    {
        LyingDevice { inner, no, at }
    }
}
