//! Devices that are honest, and others that give other bytes than were written.
use crate::lines::number;
use crate::runs::StoreWay;
use crate::samples::sample_in;
use crate::spellings::{push_count, push_text, spelling_of};
use crate::stores::over_device;
use oai_device::{FlippingDevice, MemoryDevice, PAGE_BYTES, Page};
use std::alloc::{AllocError, Global};
use std::io::{self, Write};
use tests_devices::{LyingDevice, OverwrittenDevice, device_in_memory};

/// What the lines are answered over a file in memory that gives back what was written to it, and is so by its contract.
pub(crate) fn over_file(
    alloc: Global,
    way: StoreWay,
    lines: &str,
    out: &mut Vec<u8>,
) -> io::Result<()> {
    over_device(alloc, device_in_memory(alloc), 1, way, lines, out)
}

/// The same over a device that gives inverted the byte of a page that is named: `3,16383` is the last of the page 3.
pub(crate) fn over_inverting(
    alloc: Global,
    byte: &str,
    way: StoreWay,
    lines: &str,
    out: &mut Vec<u8>,
) -> io::Result<()> {
    let (no, at) = byte.split_once(',').unwrap_or((byte, ""));
    let device = LyingDevice::new(MemoryDevice::new(alloc), number(no), number(at) as usize);
    over_device(alloc, device, 1, way, lines, out)
}

/// The same over a device that inverts the first byte of the k-th read, with a cache of four pages.
pub(crate) fn over_flipping(
    alloc: Global,
    k: u64,
    way: StoreWay,
    lines: &str,
    out: &mut Vec<u8>,
) -> io::Result<()> {
    let device = FlippingDevice::new(MemoryDevice::new(alloc), k);
    over_device(alloc, device, 4, way, lines, out)
}

/// The same over a device of which another program has overwritten the page of the items 2, 4 and 6, of 4,000 bytes each.
pub(crate) fn over_overwritten(
    alloc: Global,
    instead: &str,
    way: StoreWay,
    lines: &str,
    out: &mut Vec<u8>,
) -> io::Result<()> {
    let written = page_with(alloc, "2:4000,4:4000,6:4000")?;
    let instead = page_named(alloc, instead)?;
    let device = OverwrittenDevice::new(MemoryDevice::new(alloc), written, instead);
    over_device(alloc, device, 1, way, lines, out)
}

/// The page of zeros or of ones, the page as it was written but for a byte, as `byte,4`, or that of the items.
fn page_named(alloc: Global, name: &str) -> Result<Page, AllocError> {
    match name {
        "zeros" => Ok([0; PAGE_BYTES]),
        "ones" => Ok([255; PAGE_BYTES]),
        _ => page_of_items(alloc, name),
    }
}

fn page_of_items(alloc: Global, name: &str) -> Result<Page, AllocError> {
    match name.split_once("byte,") {
        Some((_, at)) => page_changed_at(alloc, number(at) as usize),
        None => page_with(alloc, name),
    }
}

/// The page as it was written, but for the byte at that place.
fn page_changed_at(alloc: Global, at: usize) -> Result<Page, AllocError> {
    let mut page = page_with(alloc, "2:4000,4:4000,6:4000")?;
    if at < PAGE_BYTES {
        page[at] = 255;
    }
    Ok(page)
}

/// The page of the items, filled with zeros.
fn page_with(alloc: Global, items: &str) -> Result<Page, AllocError> {
    let mut bytes = Vec::new(alloc);
    push_count(&mut bytes, items.split(',').count())?;
    for item in items.split(',') {
        push_entry(alloc, item, &mut bytes)?;
    }
    Ok(page_of(bytes.as_slice()))
}

/// Adds the entry of the item: its spelling behind its length.
fn push_entry(alloc: Global, item: &str, bytes: &mut Vec<u8>) -> Result<(), AllocError> {
    let spelling = spelling_of(alloc, sample_in(item))?;
    push_text(bytes, spelling.as_slice())
}

/// The page of these bytes, filled with zeros; the page of zeros, where there are too many.
fn page_of(bytes: &[u8]) -> Page {
    let mut page = [0; PAGE_BYTES];
    if bytes.len() <= PAGE_BYTES {
        page[..bytes.len()].copy_from_slice(bytes);
    }
    page
}
