//! Hosts that are saved part by part, and restored. `save`, by how much it raises the next list numbers, and for how
//! many parts there is room, writes the parts; `restore` and a part restores it. `checkpoint begin` begins a checkpoint,
//! `checkpoint next` saves some parts of it, `checkpoint all` all others, where there is room for so many, and
//! `checkpoint stop` gives it up. A part is its kind, its moment, the name of its repository, and its bytes behind ` | `.
use crate::hosts::exchange;
use crate::repositories::name_of;
use oai_catalogue::Versions;
use oai_host::Host;
use oai_replay::{Part, PartKind, SaveFault, Sink, SinkFault};
use std::alloc::Global;
use std::io::{self, Write};
use std::slice;
use tests_samples::with_bytes;

/// How many times the next parts are saved at most.
const MOST: u64 = 1_000;

/// Parts that were taken, as lines, and for how many more there is room.
#[derive(Drop)]
struct PartLines {
    alloc: Global,
    room: u64,
    lines: Vec<u8>,
}

impl Sink for PartLines {
    ghost use Rattle.std.specs.Prelude.{IsTrue, true};

    ghost has = { λ _ _. IsTrue true };

    fn add(&mut self, part: &Part<'_>) -> Result<(), SinkFault> {
        if self.room == 0 {
            return Err(SinkFault);
        }
        self.room -= 1;
        match write_part(self.alloc, part, &mut self.lines) {
            Ok(()) => Ok(()),
            Err(_) => Err(SinkFault),
        }
    }
}

/// Performs each line as an exchange, or saves or restores parts.
pub(crate) fn save_and_restore<V: Versions + Drop>(
    alloc: Global,
    host: &mut Host<V>,
    lines: &str,
    out: &mut Vec<u8>,
) -> io::Result<()> {
    for line in lines.lines() {
        match line.split_once(' ') {
            Some(("save", numbers)) => save(alloc, host, numbers, out)?,
            Some(("restore", part)) => restore(alloc, host, part, out)?,
            Some(("checkpoint", step)) => checkpoint(alloc, host, step, out)?,
            _ => {
                exchange(alloc, host, line, out)?;
            }
        }
    }
    Ok(())
}

/// Saves the host, and writes the parts that were taken, and what it came to.
fn save<V: Versions + Drop>(
    alloc: Global,
    host: &mut Host<V>,
    numbers: &str,
    out: &mut Vec<u8>,
) -> io::Result<()> {
    let (raise, room) = numbers.split_once(' ').unwrap_or((numbers, "100"));
    let mut sink = PartLines {
        alloc,
        room: room.parse::<u64>().unwrap_or(0),
        lines: Vec::new(alloc),
    };
    let saved = host.save(raise.parse::<u32>().unwrap_or(0), &mut sink);
    out.write_all(sink.lines.as_slice())?;
    match saved {
        Ok(()) => out.write_all(b"saved\n"),
        Err(fault) => writeln!(out, "{}", name_of_save(fault)),
    }
}

/// Takes a step of a checkpoint, and writes the parts that were taken, and what it came to.
fn checkpoint<V: Versions + Drop>(
    alloc: Global,
    host: &mut Host<V>,
    step: &str,
    out: &mut Vec<u8>,
) -> io::Result<()> {
    let (step, room) = step.split_once(' ').unwrap_or((step, "100"));
    let mut sink = PartLines {
        alloc,
        room: room.parse::<u64>().unwrap_or(0),
        lines: Vec::new(alloc),
    };
    let said = match step {
        "begin" => match host.begin_saving() {
            Ok(()) => "begun",
            Err(fault) => name_of(fault),
        },
        "next" => name_of_next(host.save_next(&mut sink)),
        "all" => name_of_next(save_all(host, &mut sink)),
        _ => {
            host.stop_saving();
            "stopped"
        }
    };
    out.write_all(sink.lines.as_slice())?;
    writeln!(out, "{said}")
}

/// Saves the next parts until all are saved.
fn save_all<V: Versions + Drop>(
    host: &mut Host<V>,
    sink: &mut PartLines,
) -> Result<bool, SaveFault> {
    for _ in 0..MOST {
        if !host.save_next(sink)? {
            return Ok(false);
        }
    }
    Ok(true)
}

/// Whether there was more to save, or why it was not saved.
fn name_of_next(saved: Result<bool, SaveFault>) -> &'static str {
    match saved {
        Ok(true) => "more",
        Ok(false) => "all saved",
        Err(fault) => name_of_save(fault),
    }
}

/// Why not all was saved.
fn name_of_save(fault: SaveFault) -> &'static str {
    match fault {
        SaveFault::Reading(fault) => name_of(fault),
        SaveFault::Numbers => "no number left",
        SaveFault::Sink(_) => "no room left",
    }
}

/// Restores the part of the line, and writes what it came to.
fn restore<V: Versions + Drop>(
    alloc: Global,
    host: &mut Host<V>,
    line: &str,
    out: &mut Vec<u8>,
) -> io::Result<()> {
    let (head, bytes) = line.split_once(" | ").unwrap_or((line, ""));
    let bytes = with_bytes(alloc, bytes)?;
    let Some(part) = part_of(head, bytes.as_slice()) else {
        return out.write_all(b"no part\n");
    };
    match host.restore(&part) {
        Ok(()) => out.write_all(b"restored\n"),
        Err(fault) => writeln!(out, "{}", name_of(fault)),
    }
}

/// The part with these bytes, behind its kind, its moment and the name of its repository.
fn part_of<'a>(head: &'a str, bytes: &'a [u8]) -> Option<Part<'a>> {
    let mut words = head.split(' ');
    let kind = kind_named(words.next()?)?;
    let moment = words.next()?.parse::<i64>().ok()?;
    Some(Part {
        kind,
        moment,
        name: words.next()?.as_bytes(),
        bytes,
    })
}

fn kind_named(name: &str) -> Option<PartKind> {
    match name {
        "begin" => Some(PartKind::Begin),
        "set" => Some(PartKind::Set),
        "item" => Some(PartKind::Item),
        "list" => Some(PartKind::List),
        "gone" => Some(PartKind::Gone),
        _ => None,
    }
}

fn name_of_kind(kind: PartKind) -> &'static str {
    match kind {
        PartKind::Begin => "begin",
        PartKind::Set => "set",
        PartKind::Item => "item",
        PartKind::List => "list",
        PartKind::Gone => "gone",
    }
}

/// Writes the part as a line.
fn write_part(alloc: Global, part: &Part<'_>, out: &mut Vec<u8>) -> io::Result<()> {
    write!(out, "{} {} ", name_of_kind(part.kind), part.moment)?;
    out.write_all(part.name)?;
    out.write_all(b" | ")?;
    write_bytes(alloc, part.bytes, out)
}

/// Writes the bytes, and a line end.
pub(crate) fn write_bytes(alloc: Global, bytes: &[u8], out: &mut Vec<u8>) -> io::Result<()> {
    for byte in bytes {
        write_byte(alloc, *byte, out)?;
    }
    out.write_all(b"\n")
}

/// Writes the byte, as a script names it where it is no letter.
fn write_byte(alloc: Global, byte: u8, out: &mut Vec<u8>) -> io::Result<()> {
    if matches!(byte, b' '..=b'~') {
        return out.write_all(slice::from_ref(&byte));
    }
    let digits = hex::encode(alloc, slice::from_ref(&byte))?;
    write!(out, "‹{digits}›")
}
