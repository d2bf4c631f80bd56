//! A device of which another program has overwritten a page, for tests of what stands on devices.
ghost use Rattle.std.specs.Prelude.{◌≡◌, false};

use oai_device::{DeviceFault, PAGE_BYTES, Page, PageDevice};

/// A device over another one: where a page was written, each read of it gives another page. It is never honest.
#[derive(Drop)]
pub struct OverwrittenDevice<D: PageDevice> {
    inner: D,
    written: Page,
    instead: Page,
}

impl<D: PageDevice> PageDevice for OverwrittenDevice<D> {
    ghost pages = { λ d. D.pages d.inner };

    ghost failures = { λ d. D.failures d.inner };

    ghost honest = { λ _. false };

    ghost reads_take_memory = { D.reads_take_memory };

    ghost writes_take_memory = { D.writes_take_memory };

    fn read(&mut self, no: u32, page: &mut Page) -> Result<(), DeviceFault> {
        self.inner.read(no, page)?;
        if *page == self.written {
            *page = self.instead;
        }
        Ok(())
    }

    fn read_range(&mut self, no: u32, from: usize, into: &mut [u8]) -> Result<(), DeviceFault> {
        let mut page = [0; PAGE_BYTES];
        self.read(no, &mut page)?;
        into.copy_from_slice(&page[from..from + into.len()]);
        Ok(())
    }

    fn write(&mut self, no: u32, page: &Page) -> Result<(), DeviceFault> {
        self.inner.write(no, page)
    }

    fn faults(&self) -> u64 {
        self.inner.faults()
    }
}

impl<D: PageDevice> OverwrittenDevice<D> {
    /// The device `inner`, but that the page `written`, under whatever number it was, is the page `instead` whenever it is read.
    pub fn new(inner: D, written: Page, instead: Page) -> OverwrittenDevice<D>
        ensures pages { ⟦<OverwrittenDevice<D> as PageDevice>⟧.pages result ≡ D.pages inner }
        ensures failures { ⟦<OverwrittenDevice<D> as PageDevice>⟧.failures result ≡ D.failures inner }
        ensures honest { ⟦<OverwrittenDevice<D> as PageDevice>⟧.honest result ≡ false }
    {
        OverwrittenDevice {
            inner,
            written,
            instead,
        }
    }
}
