//! A device over a file.
use crate::assertions::assert_same;
use crate::devices::numbered_pages::{assert_page, page_of};
use crate::devices::short_files::ShortFile;
use crate::devices::steps::{add, assert_both, assert_read_fails, assert_written, write};
use oai_device::{DeviceFault, FileDevice, PAGE_BYTES, PageDevice};
use oai_pool::{PageKind, PagePool, Pool, PoolFault};
use std::fs;
use std::fs::{File, OpenOptions};
use std::io::ErrorKind;
use std::os::unix::fs::FileExt;
use std::panic::Expect;
use std::process::Abort;
use std::rt::Files;
use tests_devices::ByteFile;

/// An empty file of that name, where the test runs, open to be read and written.
pub(crate) fn empty_file<R: Files<File = File> + Abort>(rt: &R, path: &str) -> File {
    OpenOptions::new()
        .read(true)
        .write(true)
        .create(true)
        .truncate(true)
        .open(rt, path)
        .expect(rt, "open")
}

/// At that byte of the file stands the page of `number`, for whoever reads it.
fn assert_stands<R: Files<File = File> + Abort>(rt: &R, path: &str, byte: u64, number: u16) {
    let mut page = [0; PAGE_BYTES];
    let file = File::open(rt, path).expect(rt, "open");
    file.read_exact_at(&mut page, byte)
        .expect(rt, "read_exact_at");
    assert_page(rt, &page, number);
}

/// Writes the page of `number` at that byte of the file, past its device.
fn put<R: Files<File = File> + Abort>(rt: &R, path: &str, byte: u64, number: u16) {
    let file = OpenOptions::new()
        .write(true)
        .open(rt, path)
        .expect(rt, "open");
    file.write_all_at(&page_of(number), byte)
        .expect(rt, "write_all_at");
}

/// Leaves so many bytes of the file.
pub(crate) fn cut<R: Files<File = File> + Abort>(rt: &R, path: &str, bytes: u64) {
    let file = OpenOptions::new()
        .write(true)
        .open(rt, path)
        .expect(rt, "open");
    file.set_len(bytes).expect(rt, "set_len");
}

/// Page n stands at byte n times 16,384; and a file that is cut from outside fails its reads.
#[test]
fn file_device(rt: HostRuntime) {
    let path = "file-device.pages";
    let mut device = FileDevice::new(empty_file(&rt, path));
    write(&rt, &mut device, 2, 3);
    assert_written(&rt, &mut device, 2, 3);
    write(&rt, &mut device, 0, 1);
    assert_stands(&rt, path, 0, 1);
    assert_stands(&rt, path, 32_768, 3);
    assert_same(&rt, device.faults(), 0);
    cut(&rt, path, 100);
    assert_read_fails(&rt, &mut device, 0);
    assert_same(&rt, device.faults(), 1);
    fs::remove_file(&rt, path).expect(&rt, "fs::remove_file");
}

/// A file that can't be written fails its writes.
#[test]
fn file_that_is_only_read(rt: HostRuntime) {
    let path = "file-only-read.pages";
    fs::write(&rt, path, b"".as_slice()).expect(&rt, "fs::write");
    let mut device = FileDevice::new(File::open(&rt, path).expect(&rt, "open"));
    assert_same(&rt, device.write(0, &page_of(1)), Err(DeviceFault::Failed));
    assert_same(&rt, device.write(0, &page_of(1)), Err(DeviceFault::Failed));
    assert_same(&rt, device.faults(), 2);
    fs::remove_file(&rt, path).expect(&rt, "fs::remove_file");
}

/// Pages past the first 4 GiB of a sparse file stand at their place, and are read from there, in whole calls.
#[test]
fn sparse_file(rt: HostRuntime) {
    let path = "file-sparse.pages";
    let mut device = FileDevice::new(empty_file(&rt, path));
    write(&rt, &mut device, 1, 1);
    write(&rt, &mut device, 262_145, 2);
    assert_stands(&rt, path, 16_384, 1);
    assert_stands(&rt, path, 4_294_983_680, 2);
    put(&rt, path, 4_294_983_680, 3);
    assert_written(&rt, &mut device, 262_145, 3);
    assert_written(&rt, &mut device, 1, 1);
    fs::remove_file(&rt, path).expect(&rt, "fs::remove_file");
}

/// The same of a file whose calls come short, of which one is interrupted.
#[test]
fn sparse_file_in_parts(rt: HostRuntime) {
    let path = "file-in-parts.pages";
    let file = ShortFile::new(empty_file(&rt, path), 5_000, 2, ErrorKind::Interrupted);
    let mut device = FileDevice::new(file);
    write(&rt, &mut device, 1, 1);
    write(&rt, &mut device, 300_000, 2);
    assert_stands(&rt, path, 16_384, 1);
    assert_stands(&rt, path, 4_915_200_000, 2);
    put(&rt, path, 4_915_200_000, 3);
    assert_written(&rt, &mut device, 300_000, 3);
    assert_same(&rt, device.faults(), 0);
    fs::remove_file(&rt, path).expect(&rt, "fs::remove_file");
}

/// Pages are whole over a file that reads and writes one byte a call.
#[test]
fn file_of_single_bytes(rt: HostRuntime) {
    let mut device = FileDevice::new(ByteFile::new(rt.alloc(), None));
    write(&rt, &mut device, 4_294_967_294, 1);
    write(&rt, &mut device, 0, 2);
    assert_written(&rt, &mut device, 4_294_967_294, 1);
    assert_written(&rt, &mut device, 0, 2);
    assert_same(&rt, device.faults(), 0);
}

/// A read that finds the end of the file before the end of its page fails, and a later page is read.
#[test]
fn file_that_ends_early(rt: HostRuntime) {
    let mut device = FileDevice::new(ByteFile::new(rt.alloc(), Some(16_383)));
    write(&rt, &mut device, 0, 1);
    write(&rt, &mut device, 1, 2);
    assert_read_fails(&rt, &mut device, 0);
    assert_same(&rt, device.faults(), 1);
    assert_written(&rt, &mut device, 1, 2);
}

/// A write of which a later call fails has failed, and so has such a read.
#[test]
fn file_that_fails(rt: HostRuntime) {
    let alloc = rt.alloc();
    let cause = ErrorKind::PermissionDenied;
    let file = ShortFile::new(ByteFile::new(alloc, None), 1, 16_384, cause);
    let mut device = FileDevice::new(file);
    assert_same(&rt, device.write(0, &page_of(1)), Err(DeviceFault::Failed));
    write(&rt, &mut device, 0, 2);
    assert_written(&rt, &mut device, 0, 2);
    assert_same(&rt, device.faults(), 1);
    let file = ShortFile::new(ByteFile::new(alloc, None), 1, 32_768, cause);
    let mut device = FileDevice::new(file);
    write(&rt, &mut device, 0, 1);
    assert_read_fails(&rt, &mut device, 0);
    assert_same(&rt, device.faults(), 1);
}

/// A pool over a file: pages that are not cached come from it, and where it is cut the read fails.
#[test]
fn pool_over_a_file(rt: HostRuntime) {
    let path = "pool-over-a-file.pages";
    let device = FileDevice::new(empty_file(&rt, path));
    let mut pool = Pool::new(rt.alloc(), device, 1).expect(&rt, "Pool::new");
    let first = add(&rt, &mut pool, 1);
    let second = add(&rt, &mut pool, 2);
    assert_both(&rt, &mut pool, (first, 1), (second, 2));
    cut(&rt, path, 100);
    assert_same(
        &rt,
        pool.read(first, PageKind::Bytes).err(),
        Some(PoolFault::Device),
    );
    assert_same(&rt, (pool.used(), pool.device().faults()), (2, 1));
    fs::remove_file(&rt, path).expect(&rt, "fs::remove_file");
}
