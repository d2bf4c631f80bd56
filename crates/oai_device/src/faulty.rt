ghost use Rattle.std.specs.Prelude.{◌≡◌, ◌+◌, if◌then◌else◌, min};

use crate::devices::{DeviceFault, MAX_FAILURES, Page, PageDevice};

/// A device over another one, in which one call fails, for tests of what is built on devices.
#[derive(Drop)]
pub struct FaultyDevice<D: PageDevice> {
    inner: D,
    calls_left: u64,
    failed: u64,
}

impl<D: PageDevice> PageDevice for FaultyDevice<D> {
    ghost use Rattle.oai_device.specs.declared.devices.TheConstants.{MAX_FAILURES};

    ghost pages = { λ d. D.pages d.inner };

    ghost failures = { λ d. min (D.failures d.inner + d.failed) MAX_FAILURES };

    ghost honest = { λ d. D.honest d.inner };

    ghost reads_take_memory = { D.reads_take_memory };

    ghost writes_take_memory = { D.writes_take_memory };

    fn read(&mut self, no: u32, page: &mut Page) -> Result<(), DeviceFault> {
        if self.fails() {
            return Err(DeviceFault::Failed);
        }
        self.inner.read(no, page)
    }

    fn read_range(&mut self, no: u32, from: usize, into: &mut [u8]) -> Result<(), DeviceFault> {
        if self.fails() {
            return Err(DeviceFault::Failed);
        }
        self.inner.read_range(no, from, into)
    }

    fn write(&mut self, no: u32, page: &Page) -> Result<(), DeviceFault> {
        if self.fails() {
            return Err(DeviceFault::Failed);
        }
        self.inner.write(no, page)
    }

    fn faults(&self) -> u64 {
        self.inner.faults().saturating_add(self.failed)
    }
}

impl<D: PageDevice> FaultyDevice<D> {
    /// The device `inner`, except that the k-th read or write from now on, counted from 1 over both, does not reach it
    /// and returns Failed, which is counted. With 0 no call fails so.
    pub fn new(inner: D, k: u64) -> FaultyDevice<D>
        ensures pages { ⟦<FaultyDevice<D> as PageDevice>⟧.pages result ≡ D.pages inner }
        ensures failures { ⟦<FaultyDevice<D> as PageDevice>⟧.failures result
            ≡ min (D.failures inner) MAX_FAILURES }
        ensures honest { ⟦<FaultyDevice<D> as PageDevice>⟧.honest result ≡ D.honest inner }
    {
        FaultyDevice {
            inner,
            calls_left: k,
            failed: 0,
        }
    }

    /// Counts one more call; returns whether it is the one that fails, which is then counted as a failure.
    fn fails(&mut self) -> bool
        ensures inner { self.new.inner ≡ self.old.inner }
        ensures failed { self.new.failed
            ≡ (if result then min (self.old.failed + 1) MAX_FAILURES else self.old.failed) }
    {
        let fails = self.calls_left == 1;
        self.calls_left = self.calls_left.saturating_sub(1);
        if fails {
            self.failed = self.failed.saturating_add(1);
        }
        fails
    }
}
