//! A device that counts its calls, for tests of what stands on devices.
ghost use Rattle.std.specs.Prelude.{◌≡◌};

use oai_device::{DeviceFault, Page, PageDevice};

/// A device over another one, that counts the reads and the writes which reach it.
#[derive(Drop)]
pub struct CountingDevice<D: PageDevice> {
    inner: D,
    reads: u64,
    writes: u64,
}

impl<D: PageDevice> PageDevice for CountingDevice<D> {
    ghost pages = { λ d. D.pages d.inner };

    ghost failures = { λ d. D.failures d.inner };

    ghost honest = { λ d. D.honest d.inner };

    ghost reads_take_memory = { D.reads_take_memory };

    ghost writes_take_memory = { D.writes_take_memory };

    fn read(&mut self, no: u32, page: &mut Page) -> Result<(), DeviceFault> {
        self.reads = self.reads.saturating_add(1);
        self.inner.read(no, page)
    }

    fn read_range(&mut self, no: u32, from: usize, into: &mut [u8]) -> Result<(), DeviceFault> {
        self.reads = self.reads.saturating_add(1);
        self.inner.read_range(no, from, into)
    }

    fn write(&mut self, no: u32, page: &Page) -> Result<(), DeviceFault> {
        self.writes = self.writes.saturating_add(1);
        self.inner.write(no, page)
    }

    fn faults(&self) -> u64 {
        self.inner.faults()
    }
}

impl<D: PageDevice> CountingDevice<D> {
    /// The device `inner`, of which no call was counted yet.
    pub fn new(inner: D) -> CountingDevice<D>
        ensures pages { ⟦<CountingDevice<D> as PageDevice>⟧.pages result ≡ D.pages inner }
        ensures failures { ⟦<CountingDevice<D> as PageDevice>⟧.failures result ≡ D.failures inner }
        ensures honest { ⟦<CountingDevice<D> as PageDevice>⟧.honest result ≡ D.honest inner }
    {
        CountingDevice {
            inner,
            reads: 0,
            writes: 0,
        }
    }

    /// How many reads were asked for, failed ones too.
    pub fn reads(&self) -> u64 {
        self.reads
    }

    /// How many writes were asked for, failed ones too.
    pub fn writes(&self) -> u64 {
        self.writes
    }
}
