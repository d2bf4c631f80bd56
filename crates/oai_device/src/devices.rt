ghost use Rattle.std.specs.Prelude.{◌≡◌, ◌≢◌, ◌<◌, ◌≤◌, ◌+◌, ℕ, Bool, List, Option, Some, IsErrOf, IsSome, IsTrue, OnOk, length};
ghost use Rattle.oai_device.specs.Device.{CountsFailures, range_of};
ghost use Rattle.oai_device.specs.declared.devices.DeviceFault.TheVariants as fault;

use std::alloc::{AllocError, AllocFailed};
use thiserror::Error;

/// The size of a page in bytes.
pub const PAGE_BYTES: usize = 16_384;

/// The highest value of the counter of a device's failures, at which it saturates.
pub const MAX_FAILURES: u64 = 18_446_744_073_709_551_615;

/// The bytes of a page.
pub type Page = [u8; PAGE_BYTES];

/// Why a device did not read or write a page.
#[derive(Clone, Copy, Debug, PartialEq, Eq, Error)]
pub enum DeviceFault {
    /// The device failed, and counted the failure.
    #[error("the device failed")]
    Failed,
    /// Out of memory.
    #[error("out of memory")]
    NoMemory,
}

impl From<AllocError> for DeviceFault {
    ghost from_gives = { λ _ e. e ≡ fault.NoMemory };

    fn from(_refused: AllocError) -> DeviceFault {
        DeviceFault::NoMemory
    }
}

impl<T: Drop> From<AllocFailed<T>> for DeviceFault {
    ghost from_gives = { λ _ e. e ≡ fault.NoMemory };

    fn from(_refused: AllocFailed<T>) -> DeviceFault {
        DeviceFault::NoMemory
    }
}

/// A device that stores pages under numbers, and counts its failures. An honest device returns what was written to it.
/// One that is not may return any bytes from a read that succeeds; all other clauses still hold.
pub trait PageDevice: Drop {
    /// The page that the last write under each number left, whatever a failed one left there; None if nothing was
    /// written.
    ghost pages: { Self → ℕ → Option (List ℕ) };

    /// How often the device has failed; the count saturates.
    ghost failures: { Self → ℕ };

    /// Whether the device returns what was written to it.
    ghost honest: { Self → Bool };

    /// Whether a read may run out of memory.
    ghost reads_take_memory: { Bool };

    /// Whether a write may run out of memory.
    ghost writes_take_memory: { Bool };

    /// Reads the page with that number, under which one was written, into `page`. The errors: Failed; NoMemory, if the
    /// type's reads take memory. After an error `page` holds any bytes.
    fn read(&mut self, no: u32, page: &mut Page) -> Result<(), DeviceFault>
        requires { IsSome (pages self.old no) }
        ensures value { OnOk result (IsTrue (honest self.old) → pages self.old no ≡ Some page.new) }
        ensures same { pages self.new ≡ pages self.old }
        ensures device { CountsFailures fault.Failed result (failures self.old) (failures self.new) }
        ensures memory { IsErrOf result DeviceFault.NoMemory → IsTrue reads_take_memory }
        ensures honesty { honest self.new ≡ honest self.old };

    /// Reads `into.len()` bytes of the page with that number, under which one was written, from byte `from` on, counted
    /// from 0. The errors: Failed; NoMemory, if the type's reads take memory. After an error `into` holds any bytes.
    fn read_range(&mut self, no: u32, from: usize, into: &mut [u8]) -> Result<(), DeviceFault>
        requires written { IsSome (pages self.old no) }
        requires within { from + length into.old ≤ PAGE_BYTES }
        ensures value { OnOk result (IsTrue (honest self.old)
            → range_of from (length into.new) (pages self.old no) ≡ Some into.new) }
        ensures same { pages self.new ≡ pages self.old }
        ensures device { CountsFailures fault.Failed result (failures self.old) (failures self.new) }
        ensures memory { IsErrOf result DeviceFault.NoMemory → IsTrue reads_take_memory }
        ensures honesty { honest self.new ≡ honest self.old };

    /// Writes the page under that number. The errors: Failed; NoMemory, if the type's writes take memory. After an
    /// error the number has any bytes, or none. The pages of other numbers are unchanged.
    fn write(&mut self, no: u32, page: &Page) -> Result<(), DeviceFault>
        ensures written { OnOk result (pages self.new no ≡ Some page.now) }
        ensures others { (n : ℕ) → n ≢ no → pages self.new n ≡ pages self.old n }
        ensures device { CountsFailures fault.Failed result (failures self.old) (failures self.new) }
        ensures memory { IsErrOf result DeviceFault.NoMemory → IsTrue writes_take_memory }
        ensures honesty { honest self.new ≡ honest self.old };

    /// How often the device has failed; the count saturates at 2^64 - 1.
    fn faults(&self) -> u64
        ensures { result ≡ failures self.now };
}
