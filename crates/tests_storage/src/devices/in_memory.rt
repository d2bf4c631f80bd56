//! Devices in memory, one that fails and one that returns false reads.
use crate::assertions::{assert_same, assert_shown};
use crate::devices::numbered_pages::page_of;
use crate::devices::saturated::WornDevice;
use crate::devices::steps::{assert_read_fails, assert_written, write};
use oai_device::{
    DeviceFault, FaultyDevice, FlippingDevice, MAX_FAILURES, MemoryDevice, PageDevice,
};

/// What was written is read, also where it was written over.
#[test]
fn memory_device(rt: HostRuntime) {
    let mut device = MemoryDevice::new(rt.alloc());
    write(&rt, &mut device, 0, 1);
    assert_written(&rt, &mut device, 0, 1);
    write(&rt, &mut device, 4_294_967_294, 2);
    write(&rt, &mut device, 0, 3);
    assert_written(&rt, &mut device, 0, 3);
    assert_written(&rt, &mut device, 4_294_967_294, 2);
    assert_same(&rt, device.faults(), 0);
}

/// The second call fails, and no other.
#[test]
fn faulty_device(rt: HostRuntime) {
    let mut device = FaultyDevice::new(MemoryDevice::new(rt.alloc()), 2);
    write(&rt, &mut device, 0, 1);
    assert_same(&rt, device.write(1, &page_of(2)), Err(DeviceFault::Failed));
    assert_same(&rt, device.faults(), 1);
    write(&rt, &mut device, 1, 2);
    assert_written(&rt, &mut device, 1, 2);
    assert_same(&rt, device.faults(), 1);
}

/// Reads are counted too, and with 0 no call fails.
#[test]
fn faulty_device_at_a_read(rt: HostRuntime) {
    let inner = FaultyDevice::new(MemoryDevice::new(rt.alloc()), 0);
    let mut device = FaultyDevice::new(inner, 2);
    write(&rt, &mut device, 0, 1);
    assert_read_fails(&rt, &mut device, 0);
    assert_written(&rt, &mut device, 0, 1);
    assert_same(&rt, device.faults(), 1);
}

/// A count of failures that stands at its last value stays there.
#[test]
fn last_count_of_failures(rt: HostRuntime) {
    let inner = WornDevice {
        inner: MemoryDevice::new(rt.alloc()),
    };
    let mut device = FaultyDevice::new(inner, 1);
    assert_same(&rt, device.write(0, &page_of(1)), Err(DeviceFault::Failed));
    assert_same(&rt, device.faults(), MAX_FAILURES);
    write(&rt, &mut device, 0, 1);
    assert_same(&rt, device.faults(), MAX_FAILURES);
}

/// The second read that succeeds has its first byte inverted, and no other.
#[test]
fn flipping_device(rt: HostRuntime) {
    let inner = FaultyDevice::new(MemoryDevice::new(rt.alloc()), 3);
    let mut device = FlippingDevice::new(inner, 2);
    write(&rt, &mut device, 0, 1);
    assert_written(&rt, &mut device, 0, 1);
    assert_read_fails(&rt, &mut device, 0);
    assert_same(&rt, device.faults(), 1);
    assert_written(&rt, &mut device, 0, 0xff01);
    assert_written(&rt, &mut device, 0, 1);
}

#[test]
fn texts_of_faults(rt: HostRuntime) {
    let alloc = rt.alloc();
    assert_shown(&rt, alloc, DeviceFault::Failed, "the device failed");
    assert_shown(&rt, alloc, DeviceFault::NoMemory, "out of memory");
}
