//! Ranges of pages, over each device.
ghost use Rattle.std.specs.Prelude.{◌+◌, ◌≤◌, ℕ, IsSome, length};
ghost use Rattle.oai_device.specs.declared.devices.TheConstants.{PAGE_BYTES};

use crate::assertions::assert_same;
use crate::devices::files::{cut, empty_file};
use crate::devices::steps::write;
use oai_device::{
    DeviceFault, FaultyDevice, FileDevice, FlippingDevice, MemoryDevice, PAGE_BYTES, Page,
    PageDevice,
};
use std::fs;
use std::panic::Expect;
use std::process::Abort;
use tests_devices::{
    ByteFile, CountingDevice, LyingDevice, OverwrittenDevice, RefusingDevice, device_in_memory,
};

/// A page of zeros but for two bytes at its front, two at byte 5,000 and two at its end.
fn page_with(front: [u8; 2], middle: [u8; 2], end: [u8; 2]) -> Page {
    let mut page = [0; PAGE_BYTES];
    page[0] = front[0];
    page[1] = front[1];
    page[5_000] = middle[0];
    page[5_001] = middle[1];
    page[16_382] = end[0];
    page[16_383] = end[1];
    page
}

/// Writes such a page under that number: 1 and 2 at its front, 3 and 4 at byte 5,000, 5 and 6 at its end.
fn put<D: PageDevice>(rt: &impl Abort, device: &mut D, no: u32)
    ensures written { IsSome (D.pages device.new no) }
    ensures others { (n : ℕ) → IsSome (D.pages device.old n) → IsSome (D.pages device.new n) }
{
    let page = page_with([1, 2], [3, 4], [5, 6]);
    device.write(no, &page).expect(rt, "write");
}

/// The device gives these bytes of the page, from that byte on.
fn assert_range<D: PageDevice>(rt: &impl Abort, device: &mut D, no: u32, from: usize, wanted: &[u8])
    requires written { IsSome (D.pages device.old no) }
    requires within { from + length wanted.now ≤ PAGE_BYTES }
    ensures { (n : ℕ) → IsSome (D.pages device.old n) → IsSome (D.pages device.new n) }
{
    let mut bytes = [7; PAGE_BYTES];
    let range = &mut bytes[..wanted.len()];
    device.read_range(no, from, range).expect(rt, "read_range");
    assert!(rt; *range == *wanted);
}

/// The device fails so to give four bytes of the page, from that byte on.
fn assert_range_fails<D: PageDevice>(
    rt: &impl Abort,
    device: &mut D,
    no: u32,
    from: usize,
    fault: DeviceFault,
)
    requires written { IsSome (D.pages device.old no) }
    requires within { from + 4 ≤ PAGE_BYTES }
    ensures { (n : ℕ) → IsSome (D.pages device.old n) → IsSome (D.pages device.new n) }
{
    let read = device.read_range(no, from, &mut [0; 4]);
    assert_same(rt, read, Err(fault));
}

/// Ranges of a page that was written twice are of the second: at its front, in its middle, at its very end, of no
/// byte, and of all bytes.
fn assert_ranges<D: PageDevice>(rt: &impl Abort, device: &mut D, no: u32) {
    write(rt, device, no, 0x0909);
    put(rt, device, no);
    assert_range(rt, device, no, 0, &[1, 2, 0]);
    assert_range(rt, device, no, 1, &[2]);
    assert_range(rt, device, no, 4_999, &[0, 3, 4, 0]);
    assert_range(rt, device, no, 5_001, &[4]);
    assert_range(rt, device, no, 16_381, &[0, 5, 6]);
    assert_range(rt, device, no, 16_383, &[6]);
    assert_range(rt, device, no, 0, &[]);
    assert_range(rt, device, no, 16_384, &[]);
    assert_range(rt, device, no, 0, &page_with([1, 2], [3, 4], [5, 6]));
}

/// Of the first page, of the one behind it and of the last.
#[test]
fn ranges_in_memory(rt: HostRuntime) {
    let mut device = MemoryDevice::new(rt.alloc());
    assert_ranges(&rt, &mut device, 0);
    assert_ranges(&rt, &mut device, 1);
    assert_ranges(&rt, &mut device, 4_294_967_294);
    assert_same(&rt, device.faults(), 0);
}

/// The same over a file that reads one byte a call.
#[test]
fn ranges_in_single_bytes(rt: HostRuntime) {
    let mut device = device_in_memory(rt.alloc());
    assert_ranges(&rt, &mut device, 0);
    assert_ranges(&rt, &mut device, 1);
    assert_ranges(&rt, &mut device, 4_294_967_294);
    assert_same(&rt, device.faults(), 0);
}

/// The same over a sparse file, also past its first 4 GiB; and a range past where it was cut fails.
#[test]
fn ranges_in_a_file(rt: HostRuntime) {
    let path = "ranges-in-a-file.pages";
    let mut device = FileDevice::new(empty_file(&rt, path));
    assert_ranges(&rt, &mut device, 0);
    assert_ranges(&rt, &mut device, 1);
    assert_ranges(&rt, &mut device, 262_145);
    assert_same(&rt, device.faults(), 0);
    put(&rt, &mut device, 0);
    cut(&rt, path, 5_002);
    assert_range(&rt, &mut device, 0, 4_999, &[0, 3, 4]);
    assert_range_fails(&rt, &mut device, 0, 4_999, DeviceFault::Failed);
    assert_range_fails(&rt, &mut device, 0, 16_380, DeviceFault::Failed);
    assert_same(&rt, device.faults(), 2);
    fs::remove_file(&rt, path).expect(&rt, "fs::remove_file");
}

/// A read that finds the end of the file within its range fails, which is counted; ranges before and behind are read.
#[test]
fn file_that_ends_within_a_range(rt: HostRuntime) {
    let mut device = FileDevice::new(ByteFile::new(rt.alloc(), Some(5_002)));
    put(&rt, &mut device, 0);
    assert_range_fails(&rt, &mut device, 0, 4_999, DeviceFault::Failed);
    assert_same(&rt, device.faults(), 1);
    assert_range(&rt, &mut device, 0, 4_999, &[0, 3, 4]);
    assert_range(&rt, &mut device, 0, 5_002, &[]);
    assert_range(&rt, &mut device, 0, 5_003, &[0, 0]);
    assert_same(&rt, device.faults(), 1);
}

/// The third call fails, and no other.
#[test]
fn faulty_device_at_a_range(rt: HostRuntime) {
    let mut device = FaultyDevice::new(MemoryDevice::new(rt.alloc()), 3);
    put(&rt, &mut device, 0);
    assert_range(&rt, &mut device, 0, 4_999, &[0, 3, 4, 0]);
    assert_range_fails(&rt, &mut device, 0, 4_999, DeviceFault::Failed);
    assert_same(&rt, device.faults(), 1);
    assert_range(&rt, &mut device, 0, 4_999, &[0, 3, 4, 0]);
    assert_same(&rt, device.faults(), 1);
}

/// The second read has the first byte of its range inverted, and no other; one of no byte has none.
#[test]
fn flipping_device_at_a_range(rt: HostRuntime) {
    let mut device = FlippingDevice::new(MemoryDevice::new(rt.alloc()), 2);
    put(&rt, &mut device, 0);
    assert_range(&rt, &mut device, 0, 5_000, &[3, 4]);
    assert_range(&rt, &mut device, 0, 5_000, &[252, 4]);
    assert_range(&rt, &mut device, 0, 5_000, &[3, 4]);
    let mut device = FlippingDevice::new(MemoryDevice::new(rt.alloc()), 1);
    put(&rt, &mut device, 0);
    assert_range(&rt, &mut device, 0, 5_000, &[]);
    assert_range(&rt, &mut device, 0, 5_000, &[3, 4]);
}

/// A read of a range is counted as a read, and the second call is refused memory.
#[test]
fn calls_of_a_range(rt: HostRuntime) {
    let inner = RefusingDevice::new(MemoryDevice::new(rt.alloc()), 2);
    let mut device = CountingDevice::new(inner);
    put(&rt, &mut device, 0);
    assert_range_fails(&rt, &mut device, 0, 4_999, DeviceFault::NoMemory);
    assert_range(&rt, &mut device, 0, 5_000, &[3, 4]);
    assert_same(&rt, (device.reads(), device.writes()), (2, 1));
    assert_same(&rt, device.faults(), 0);
}

/// The byte that is inverted is so in each range that has it, and in no other.
#[test]
fn lying_device_at_a_range(rt: HostRuntime) {
    let mut device = LyingDevice::new(MemoryDevice::new(rt.alloc()), 1, 5_001);
    put(&rt, &mut device, 0);
    put(&rt, &mut device, 1);
    assert_range(&rt, &mut device, 1, 4_999, &[0, 3, 251, 0]);
    assert_range(&rt, &mut device, 1, 5_001, &[251]);
    assert_range(&rt, &mut device, 1, 5_000, &[3]);
    assert_range(&rt, &mut device, 1, 5_002, &[0]);
    assert_range(&rt, &mut device, 0, 5_001, &[4]);
}

/// Ranges of a page that was overwritten are of the other page.
#[test]
fn overwritten_device_at_a_range(rt: HostRuntime) {
    let written = page_with([1, 2], [3, 4], [5, 6]);
    let instead = page_with([11, 12], [13, 14], [15, 16]);
    let mut device = OverwrittenDevice::new(MemoryDevice::new(rt.alloc()), written, instead);
    put(&rt, &mut device, 0);
    write(&rt, &mut device, 1, 0x0909);
    assert_range(&rt, &mut device, 0, 4_999, &[0, 13, 14, 0]);
    assert_range(&rt, &mut device, 0, 16_383, &[16]);
    assert_range(&rt, &mut device, 1, 16_383, &[9]);
}
