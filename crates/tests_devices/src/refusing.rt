//! A device that is refused memory, for tests of what stands on devices.
ghost use Rattle.std.specs.Prelude.{◌≡◌, true};

use oai_device::{DeviceFault, Page, PageDevice};

/// A device over another one, of whose calls one is refused memory.
#[derive(Drop)]
pub struct RefusingDevice<D: PageDevice> {
    inner: D,
    calls_left: u64,
}

impl<D: PageDevice> PageDevice for RefusingDevice<D> {
    ghost pages = { λ d. D.pages d.inner };

    ghost failures = { λ d. D.failures d.inner };

    ghost honest = { λ d. D.honest d.inner };

    ghost reads_take_memory = { true };

    ghost writes_take_memory = { true };

    fn read(&mut self, no: u32, page: &mut Page) -> Result<(), DeviceFault> {
        if self.is_refused() {
            return Err(DeviceFault::NoMemory);
        }
        self.inner.read(no, page)
    }

    fn read_range(&mut self, no: u32, from: usize, into: &mut [u8]) -> Result<(), DeviceFault> {
        if self.is_refused() {
            return Err(DeviceFault::NoMemory);
        }
        self.inner.read_range(no, from, into)
    }

    fn write(&mut self, no: u32, page: &Page) -> Result<(), DeviceFault> {
        if self.is_refused() {
            return Err(DeviceFault::NoMemory);
        }
        self.inner.write(no, page)
    }

    fn faults(&self) -> u64 {
        self.inner.faults()
    }
}

impl<D: PageDevice> RefusingDevice<D> {
    /// The device `inner`, but that the k-th read or write from now on, counted from 1 over both, does not
    /// reach it and is refused memory. With 0 no call is.
    pub fn new(inner: D, k: u64) -> RefusingDevice<D>
        ensures pages { ⟦<RefusingDevice<D> as PageDevice>⟧.pages result ≡ D.pages inner }
        ensures failures { ⟦<RefusingDevice<D> as PageDevice>⟧.failures result ≡ D.failures inner }
        ensures honest { ⟦<RefusingDevice<D> as PageDevice>⟧.honest result ≡ D.honest inner }
    {
        RefusingDevice {
            inner,
            calls_left: k,
        }
    }

    /// One call more; whether it is the one that is refused memory.
    fn is_refused(&mut self) -> bool
        ensures { self.new.inner ≡ self.old.inner }
    {
        let refused = self.calls_left == 1;
        self.calls_left = self.calls_left.saturating_sub(1);
        refused
    }
}
