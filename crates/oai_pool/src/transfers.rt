//! Transfers pages between a device and memory.
ghost use Rattle.std.specs.Prelude.{◌≡◌, ◌≢◌, ◌≤◌, ◌+◌, length, ℕ, Some, IfErr, IfOk, IsSome, IsTrue, OnOk};
ghost use Rattle.oai_device.specs.Device.{CountsFailures, range_of};
ghost use Rattle.oai_device.specs.declared.devices.TheConstants.{PAGE_BYTES};
ghost use Rattle.oai_pool.specs.declared.pools.PoolFault.TheVariants as fault;

use crate::pools::PoolFault;
use oai_device::{DeviceFault, PAGE_BYTES, Page, PageDevice};
use std::alloc::{AllocError, Global};
use std::rc::Rc;

/// Writes the page on the device. The errors: Device or NoMemory.
pub(crate) fn store<D: PageDevice>(device: &mut D, no: u32, page: &Page) -> Result<(), PoolFault>
    ensures written { OnOk result (D.pages device.new no ≡ Some page.now) }
    ensures others { (n : ℕ) → n ≢ no → D.pages device.new n ≡ D.pages device.old n }
    ensures fault { IfErr result (λ cause. cause ≢ fault.TooManyPages) }
    ensures whole { IfErr result (λ cause. cause ≢ fault.Damaged) }
    ensures device { CountsFailures fault.Device result (D.failures device.old) (D.failures device.new) }
    ensures honesty { D.honest device.new ≡ D.honest device.old }
{
    match device.write(no, page) {
        Ok(()) => Ok(()),
        Err(DeviceFault::Failed) => Err(PoolFault::Device),
        Err(DeviceFault::NoMemory) => Err(PoolFault::NoMemory),
    }
}

/// The page with that number, read from the device into the page `spare` if nobody else references it, and otherwise
/// into a new one. The errors: Device or NoMemory; memory is allocated before the device is called.
pub(crate) fn load<D: PageDevice>(
    alloc: Global,
    device: &mut D,
    no: u32,
    spare: Option<Rc<Page>>,
) -> Result<Rc<Page>, PoolFault>
    requires { IsSome (D.pages device.old no) }
    ensures value { IfOk result
        (λ page. IsTrue (D.honest device.old) → D.pages device.old no ≡ Some page.value) }
    ensures same { D.pages device.new ≡ D.pages device.old }
    ensures fault { IfErr result (λ cause. cause ≢ fault.TooManyPages) }
    ensures whole { IfErr result (λ cause. cause ≢ fault.Damaged) }
    ensures device { CountsFailures fault.Device result (D.failures device.old) (D.failures device.new) }
    ensures honesty { D.honest device.new ≡ D.honest device.old }
{
    let mut page = room_for_a_page(alloc, spare)?;
    match Rc::get_mut(&mut page) {
        Some(bytes) => match fetch(device, no, bytes) {
            Ok(()) => Ok(page),
            Err(cause) => Err(cause),
        },
        None => load_anew(alloc, device, no),
    }
}

/// The page with that number, read from the device into a new page.
fn load_anew<D: PageDevice>(alloc: Global, device: &mut D, no: u32) -> Result<Rc<Page>, PoolFault>
    requires { IsSome (D.pages device.old no) }
    ensures value { IfOk result
        (λ page. IsTrue (D.honest device.old) → D.pages device.old no ≡ Some page.value) }
    ensures same { D.pages device.new ≡ D.pages device.old }
    ensures fault { IfErr result (λ cause. cause ≢ fault.TooManyPages) }
    ensures whole { IfErr result (λ cause. cause ≢ fault.Damaged) }
    ensures device { CountsFailures fault.Device result (D.failures device.old) (D.failures device.new) }
    ensures honesty { D.honest device.new ≡ D.honest device.old }
{
    let mut bytes = [0; PAGE_BYTES];
    match fetch(device, no, &mut bytes) {
        Ok(()) => Ok(Rc::new(alloc, bytes)?),
        Err(cause) => Err(cause),
    }
}

/// Reads the page from the device. The errors: Device or NoMemory.
fn fetch<D: PageDevice>(device: &mut D, no: u32, page: &mut Page) -> Result<(), PoolFault>
    requires { IsSome (D.pages device.old no) }
    ensures value { OnOk result (IsTrue (D.honest device.old) → D.pages device.old no ≡ Some page.new) }
    ensures same { D.pages device.new ≡ D.pages device.old }
    ensures fault { IfErr result (λ cause. cause ≢ fault.TooManyPages) }
    ensures whole { IfErr result (λ cause. cause ≢ fault.Damaged) }
    ensures device { CountsFailures fault.Device result (D.failures device.old) (D.failures device.new) }
    ensures honesty { D.honest device.new ≡ D.honest device.old }
{
    match device.read(no, page) {
        Ok(()) => Ok(()),
        Err(DeviceFault::Failed) => Err(PoolFault::Device),
        Err(DeviceFault::NoMemory) => Err(PoolFault::NoMemory),
    }
}

/// Reads `into.len()` bytes of the page with that number, from byte `from` on. The errors: Device or NoMemory.
pub(crate) fn load_range<D: PageDevice>(
    device: &mut D,
    no: u32,
    from: usize,
    into: &mut [u8],
) -> Result<(), PoolFault>
    requires written { IsSome (D.pages device.old no) }
    requires within { from + length into.old ≤ PAGE_BYTES }
    ensures value { OnOk result (IsTrue (D.honest device.old)
        → range_of from (length into.new) (D.pages device.old no) ≡ Some into.new) }
    ensures same { D.pages device.new ≡ D.pages device.old }
    ensures fault { IfErr result (λ cause. cause ≢ fault.TooManyPages) }
    ensures whole { IfErr result (λ cause. cause ≢ fault.Damaged) }
    ensures device { CountsFailures fault.Device result (D.failures device.old) (D.failures device.new) }
    ensures honesty { D.honest device.new ≡ D.honest device.old }
{
    match device.read_range(no, from, into) {
        Ok(()) => Ok(()),
        Err(DeviceFault::Failed) => Err(PoolFault::Device),
        Err(DeviceFault::NoMemory) => Err(PoolFault::NoMemory),
    }
}

/// The spare page if nobody else references it, and otherwise a new one of zeros, which is allocated in place and not
/// copied there.
pub(crate) fn room_for_a_page(
    alloc: Global,
    spare: Option<Rc<Page>>,
) -> Result<Rc<Page>, AllocError> {
    if let Some(page) = spare {
        if Rc::strong_count(&page) == 1 {
            return Ok(page);
        }
    }
    Ok(Rc::new(alloc, [0; PAGE_BYTES])?)
}
