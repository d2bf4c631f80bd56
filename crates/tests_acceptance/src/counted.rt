//! Hosts of which is counted how many pages they use, which `used` writes, or how often their store was called, which
//! `calls` writes; all other lines are exchanges. Their stores are lists that count, or pages of a device.
use crate::hosts::exchange;
use oai_catalogue::{PlainVersions, Versions};
use oai_device::{FaultyDevice, MemoryDevice, PageDevice};
use oai_host::{Config, Host};
use oai_item::Forms;
use oai_paged::PagedVersions;
use oai_pool::PagePool;
use oai_startup::host_on;
use std::alloc::Global;
use std::io::{self, Write};
use tests_devices::LyingDevice;
use tests_fixtures::worked_configuration;
use tests_stores::{CountingHook, HookedVersions, counting};

/// Adds what the lines are answered by a new host of the worked configuration over lists that count, over pages in
/// memory, over such of which the call of the number behind `faulty:` fails, or over such of which a byte is read
/// inverted: behind `lying:` stand the number of its page and its place there.
pub(crate) fn counts_over(
    alloc: Global,
    lines: &str,
    store: &str,
    out: &mut Vec<u8>,
) -> io::Result<()> {
    let (kind, numbers) = store.split_once(':').unwrap_or((store, ""));
    match kind {
        "lists" => over_lists(alloc, lines, out),
        "memory" => over(alloc, MemoryDevice::new(alloc), lines, out),
        "faulty" => over_faulty(alloc, numbers, lines, out),
        "lying" => over_lying(alloc, numbers, lines, out),
        _ => out.write_all(b"no such store\n"),
    }
}

/// The same over pages of which that call fails.
fn over_faulty(alloc: Global, number: &str, lines: &str, out: &mut Vec<u8>) -> io::Result<()> {
    let call = number.parse::<u64>().unwrap_or(0);
    let device = FaultyDevice::new(MemoryDevice::new(alloc), call);
    over(alloc, device, lines, out)
}

/// The same over pages of which that byte is inverted.
fn over_lying(alloc: Global, numbers: &str, lines: &str, out: &mut Vec<u8>) -> io::Result<()> {
    let (page, place) = numbers.split_once(':').unwrap_or((numbers, "0"));
    let page = page.parse::<u32>().unwrap_or(0);
    let place = place.parse::<usize>().unwrap_or(0);
    let device = LyingDevice::new(MemoryDevice::new(alloc), page, place);
    over(alloc, device, lines, out)
}

/// The same over pages of the device.
fn over<D: PageDevice>(alloc: Global, device: D, lines: &str, out: &mut Vec<u8>) -> io::Result<()> {
    let Ok(config) = Config::read(alloc, Forms::Fields, worked_configuration().as_bytes()) else {
        return out.write_all(b"no configuration\n");
    };
    match host_on(alloc, config, device) {
        Ok(host) => count_pages(alloc, host, lines, out),
        Err(_) => out.write_all(b"no host\n"),
    }
}

/// Performs the lines, and writes how many pages are used.
fn count_pages<D: PageDevice>(
    alloc: Global,
    mut host: Host<PagedVersions<D>>,
    lines: &str,
    out: &mut Vec<u8>,
) -> io::Result<()> {
    for line in lines.lines() {
        if line == "used" {
            writeln!(out, "used {}", host.versions().pool().used())?;
        } else {
            exchange(alloc, &mut host, line, out)?;
        }
    }
    Ok(())
}

/// The same over lists that count their calls.
fn over_lists(alloc: Global, lines: &str, out: &mut Vec<u8>) -> io::Result<()> {
    let Ok(config) = Config::read(alloc, Forms::Fields, worked_configuration().as_bytes()) else {
        return out.write_all(b"no configuration\n");
    };
    match Host::new(alloc, config, counting(PlainVersions::new(alloc))) {
        Ok(host) => count_calls(alloc, host, lines, out),
        Err(_) => out.write_all(b"no host\n"),
    }
}

/// Performs the lines, and writes how often the store was called.
fn count_calls<V: Versions + Drop>(
    alloc: Global,
    mut host: Host<HookedVersions<V, CountingHook>>,
    lines: &str,
    out: &mut Vec<u8>,
) -> io::Result<()> {
    for line in lines.lines() {
        if line == "calls" {
            writeln!(out, "calls {}", host.versions().hook().calls())?;
        } else {
            exchange(alloc, &mut host, line, out)?;
        }
    }
    Ok(())
}
