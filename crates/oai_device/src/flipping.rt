ghost use Rattle.std.specs.Prelude.{◌≡◌, false};

use crate::devices::{DeviceFault, Page, PageDevice};

/// A device over another one that returns a wrong byte in one read, for tests of what is built on devices. It is never
/// honest.
#[derive(Drop)]
pub struct FlippingDevice<D: PageDevice> {
    inner: D,
    reads_left: u64,
}

impl<D: PageDevice> PageDevice for FlippingDevice<D> {
    ghost pages = { λ d. D.pages d.inner };

    ghost failures = { λ d. D.failures d.inner };

    ghost honest = { λ _. false };

    ghost reads_take_memory = { D.reads_take_memory };

    ghost writes_take_memory = { D.writes_take_memory };

    fn read(&mut self, no: u32, page: &mut Page) -> Result<(), DeviceFault> {
        self.inner.read(no, page)?;
        if self.reads_left == 1 {
            page[0] = !page[0];
        }
        self.reads_left = self.reads_left.saturating_sub(1);
        Ok(())
    }

    fn read_range(&mut self, no: u32, from: usize, into: &mut [u8]) -> Result<(), DeviceFault> {
        self.inner.read_range(no, from, into)?;
        if self.reads_left == 1 && !into.is_empty() {
            into[0] = !into[0];
        }
        self.reads_left = self.reads_left.saturating_sub(1);
        Ok(())
    }

    fn write(&mut self, no: u32, page: &Page) -> Result<(), DeviceFault> {
        self.inner.write(no, page)
    }

    fn faults(&self) -> u64 {
        self.inner.faults()
    }
}

impl<D: PageDevice> FlippingDevice<D> {
    /// The device `inner`, except that the k-th read from now on that succeeds, counted from 1, has its first byte
    /// inverted. With 0 no read has.
    pub fn new(inner: D, k: u64) -> FlippingDevice<D>
        ensures pages { ⟦<FlippingDevice<D> as PageDevice>⟧.pages result ≡ D.pages inner }
        ensures failures { ⟦<FlippingDevice<D> as PageDevice>⟧.failures result ≡ D.failures inner }
        ensures honest { ⟦<FlippingDevice<D> as PageDevice>⟧.honest result ≡ false }
    {
        FlippingDevice {
            inner,
            reads_left: k,
        }
    }
}
