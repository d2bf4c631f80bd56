//! A store over a device each of whose calls fails in turn, beside a plain one.
use crate::beside::Pair;
use crate::counts::Counted;
use crate::lines::each_line;
use crate::stores::paged_store;
use oai_catalogue::Versions;
use oai_device::{FaultyDevice, MemoryDevice, PageDevice};
use std::alloc::Global;
use std::io::{self, Write};

/// Performs the lines over a device whose first call fails, and then over one whose second one does, and so on, until no call fails,
/// and adds what is answered the first time, and each other time where that is not the same; and whether that is beyond the
/// call 18.
pub(crate) fn each_failure(alloc: Global, lines: &str, out: &mut Vec<u8>) -> io::Result<()> {
    let mut first = Vec::new(alloc);
    failures_at(alloc, 1, lines, &mut first)?;
    out.write_all(first.as_slice())?;
    for k in 1..1_000u64 {
        let failed = compare_at(alloc, k, lines, first.as_slice(), out)?;
        if failed == 0 {
            return writeln!(out, "beyond the call 18: {}", k > 18);
        }
    }
    out.write_all(b"each call fails\n")
}

/// The same once: how often the device whose k-th call fails has failed, which is at most once.
fn compare_at(
    alloc: Global,
    k: u64,
    lines: &str,
    first: &[u8],
    out: &mut Vec<u8>,
) -> io::Result<u64> {
    let mut answers = Vec::new(alloc);
    let failed = failures_at(alloc, k, lines, &mut answers)?;
    if answers.as_slice() != first || failed > 1 {
        writeln!(out, "with call {k}, {failed} failed:")?;
        out.write_all(answers.as_slice())?;
    }
    Ok(failed)
}

/// Performs the lines over a device whose k-th call fails, and adds what is answered otherwise.
fn failures_at(alloc: Global, k: u64, lines: &str, out: &mut Vec<u8>) -> io::Result<u64> {
    let device = FaultyDevice::new(MemoryDevice::new(alloc), k);
    failures_on(alloc, device, lines, out)
}

/// The same over that device.
fn failures_on<D: PageDevice>(
    alloc: Global,
    device: D,
    lines: &str,
    out: &mut Vec<u8>,
) -> io::Result<u64> {
    match paged_store(alloc, device, 1) {
        Some(store) => failures_of(alloc, store, lines, out),
        None => Ok(2),
    }
}

fn failures_of<V: Versions + Drop + Counted>(
    alloc: Global,
    store: V,
    lines: &str,
    out: &mut Vec<u8>,
) -> io::Result<u64> {
    match Pair::new(alloc, store) {
        Some(mut pair) => failures_in(alloc, &mut pair, lines, out),
        None => Ok(2),
    }
}

/// Each line is repeated where the device failed, but for those that count.
fn failures_in<V: Versions + Drop + Counted>(
    alloc: Global,
    pair: &mut Pair<V>,
    lines: &str,
    out: &mut Vec<u8>,
) -> io::Result<u64> {
    for line in lines.lines() {
        let each = each_line(alloc, line)?;
        for one in each.as_slice() {
            perform_again(pair, one.as_str(), out)?;
        }
    }
    Ok(pair.counts().faults)
}

fn perform_again<V: Versions + Drop + Counted>(
    pair: &mut Pair<V>,
    line: &str,
    out: &mut Vec<u8>,
) -> io::Result<()> {
    if line == "used" {
        return pair.perform(line, out);
    }
    pair.call_again(line, out)
}
