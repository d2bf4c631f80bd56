//! A device that has failed as often as can be counted.

use oai_device::{DeviceFault, MAX_FAILURES, Page, PageDevice};

/// A device over another one whose count of failures stands at its last value.
#[derive(Drop)]
pub(crate) struct WornDevice<D: PageDevice> {
    pub(crate) inner: D,
}

impl<D: PageDevice> PageDevice for WornDevice<D> {
    ghost use Rattle.oai_device.specs.declared.devices.TheConstants.{MAX_FAILURES};

    ghost pages = { λ d. D.pages d.inner };

    ghost failures = { λ _. MAX_FAILURES };

    ghost honest = { λ d. D.honest d.inner };

    ghost reads_take_memory = { D.reads_take_memory };

    ghost writes_take_memory = { D.writes_take_memory };

    fn read(&mut self, no: u32, page: &mut Page) -> Result<(), DeviceFault> {
        self.inner.read(no, page)
    }

    fn read_range(&mut self, no: u32, from: usize, into: &mut [u8]) -> Result<(), DeviceFault> {
        self.inner.read_range(no, from, into)
    }

    fn write(&mut self, no: u32, page: &Page) -> Result<(), DeviceFault> {
        self.inner.write(no, page)
    }

    fn faults(&self) -> u64 {
        MAX_FAILURES
    }
}
