//! What calls are answered, in words: `ok` and what they return, or the fault.
use crate::names::write_name;
use oai_item::{Fault, Item};
use oai_names::Sequence;
use std::alloc::Global;
use std::io::{self, Write};

/// Adds that the call is done.
pub(crate) fn write_done(answer: Result<(), Fault>, out: &mut Vec<u8>) -> io::Result<()> {
    match answer {
        Ok(()) => out.write_all(b"ok\n"),
        Err(fault) => writeln!(out, "{fault}"),
    }
}

/// Adds whether there was an item.
pub(crate) fn write_was_there(answer: Result<bool, Fault>, out: &mut Vec<u8>) -> io::Result<()> {
    match answer {
        Ok(true) => out.write_all(b"ok, it was there\n"),
        Ok(false) => out.write_all(b"ok, there was none\n"),
        Err(fault) => writeln!(out, "{fault}"),
    }
}

/// Adds the number.
pub(crate) fn write_number(answer: Result<usize, Fault>, out: &mut Vec<u8>) -> io::Result<()> {
    match answer {
        Ok(number) => writeln!(out, "ok {number}"),
        Err(fault) => writeln!(out, "{fault}"),
    }
}

/// Adds the item, or that there is none.
pub(crate) fn write_found(
    alloc: Global,
    answer: Result<Option<Item>, Fault>,
    out: &mut Vec<u8>,
) -> io::Result<()> {
    match answer {
        Ok(Some(item)) => write_item_line(alloc, &item, out),
        Ok(None) => out.write_all(b"ok, there is none\n"),
        Err(fault) => writeln!(out, "{fault}"),
    }
}

fn write_item_line(alloc: Global, item: &Item, out: &mut Vec<u8>) -> io::Result<()> {
    out.write_all(b"ok ")?;
    write_name(alloc, item, out)?;
    out.write_all(b"\n")
}

/// Adds the items.
pub(crate) fn write_part(
    alloc: Global,
    answer: Result<Sequence<Item>, Fault>,
    out: &mut Vec<u8>,
) -> io::Result<()> {
    match answer {
        Ok(items) => write_items(alloc, items.as_slice(), out),
        Err(fault) => writeln!(out, "{fault}"),
    }
}

fn write_items(alloc: Global, items: &[Item], out: &mut Vec<u8>) -> io::Result<()> {
    out.write_all(b"ok")?;
    for item in items {
        out.write_all(b" ")?;
        write_name(alloc, item, out)?;
    }
    out.write_all(b"\n")
}

/// Adds whether the item passes a filter, and whether it passes a copy of that.
pub(crate) fn write_passes(passes: bool, copy_passes: bool, out: &mut Vec<u8>) -> io::Result<()> {
    writeln!(out, "ok {passes} {copy_passes}")
}
