//! What is read of the bytes of a journal, and of those bytes once they are cut, changed or torn.
use crate::journals::{BEGUN, add, new_journal, tick};
use crate::outcomes::Outcomes;
use crate::scripts::Line;
use oai_journal::{Journal, JournalFault, Kind, LogRecord, Recovery, RecoveryFault};
use sqlite_disk::{Disk, Fuse, Memory, Rot};
use std::alloc::{AllocError, Global};
use tests_samples::with_bytes;

/// What was read of a journal: how many records behind the first, and whether it ended, was damaged, or was not
/// read on.
#[derive(Clone, Copy, Debug, PartialEq, Eq)]
pub(crate) enum Found {
    Whole(u64),
    Damaged(u64, usize),
    Stopped(u64),
}

/// What is done to the bytes of a journal at a number.
#[derive(Clone, Copy)]
enum Damage {
    /// So many are left.
    Cut,
    /// Those bits of the byte at that place are turned.
    Turned(u8),
    /// The byte at this place becomes that one.
    Set(usize),
}

/// Performs the lines on bytes, of which there are none at first.
pub(crate) fn perform_all(alloc: Global, lines: &str, out: &mut Outcomes) {
    let mut bytes = Vec::new(alloc);
    for text in lines.lines() {
        out.begin(text);
        perform(alloc, Line::read(text, ' '), &mut bytes, out);
    }
}

/// Performs the line.
fn perform(alloc: Global, line: Line<'_>, bytes: &mut Vec<u8>, out: &mut Outcomes) {
    match line.call {
        "bytes" => out.done(add_bytes(alloc, line.rest, bytes)),
        "ticks" => out.done(add_ticks(alloc, line.moment(0), bytes)),
        "read" => show_records(alloc, bytes, out),
        "found" => show_found(found_in(alloc, disk_of(alloc, bytes)), out),
        "found-on-fuse" => show_on_fuse(alloc, line.number(0), bytes, out),
        "found-on-rot" => show_on_rot(alloc, line.size(0), bytes, out),
        "cut" => show_damaged(alloc, bytes, Damage::Cut, line, out),
        "turn" => show_damaged(alloc, bytes, Damage::Turned(line.byte(2)), line, out),
        "set" => show_damaged(alloc, bytes, Damage::Set(line.size(2)), line, out),
        "tear" => show_torn(alloc, bytes, line.number(0), out),
        "kind" => show_kind(kind_named(line.rest), out),
        _ => show_fault(line, out),
    }
}

/// A disk that has the bytes; or has none, where memory is refused.
pub(crate) fn disk_of(alloc: Global, bytes: &[u8]) -> Memory {
    let mut disk = Memory::new(alloc);
    let _written = disk.write_at(0, bytes);
    disk
}

/// Reads a journal to its end.
pub(crate) fn found_in<D: Disk + Drop>(alloc: Global, disk: D) -> Found {
    let mut recovery = Recovery::new(alloc, disk);
    if let Err(cause) = recovery.begin() {
        return failed(0, cause);
    }
    let mut records = 0;
    for _turn in 0..1_000_000 {
        match recovery.advance() {
            Ok(true) => records = 1u64.wrapping_add(records),
            Ok(false) => return Found::Whole(records),
            Err(cause) => return failed(records, cause),
        }
    }
    Found::Stopped(records)
}

/// What a fault says of a journal of which so many records were read.
fn failed(records: u64, cause: RecoveryFault) -> Found {
    match cause {
        RecoveryFault::Damaged(at) => Found::Damaged(records, at),
        RecoveryFault::Stopped(_) => Found::Stopped(records),
    }
}

/// Shows what was found, and behind how many records.
pub(crate) fn show_found(found: Found, out: &mut Outcomes) {
    match found {
        Found::Whole(records) => {
            out.word("whole");
            out.value(records);
        }
        Found::Damaged(records, at) => {
            out.word("damaged");
            out.value(records);
            out.value(at);
        }
        Found::Stopped(records) => {
            out.word("stopped");
            out.value(records);
        }
    }
}

/// Shows the record.
pub(crate) fn show_record(record: Option<LogRecord<'_>>, out: &mut Outcomes) {
    match record {
        Some(record) => {
            out.value(record.moment);
            out.word(record.kind.word());
            out.bytes(record.name);
            out.bytes(record.body);
        }
        None => out.word("none"),
    }
}

/// Adds the bytes in the text, with a line end for each `¶`.
fn add_bytes(alloc: Global, text: &str, bytes: &mut Vec<u8>) -> Result<(), AllocError> {
    let text = text.replace(alloc, "¶", "\n")?;
    let more = with_bytes(alloc, text.as_str())?;
    bytes.extend_from_slice(more.as_slice())
}

/// Adds the bytes of a journal of so many ticks, each in a group of its own.
fn add_ticks(alloc: Global, ticks: i64, bytes: &mut Vec<u8>) -> Result<(), JournalFault> {
    let mut journal = new_journal(alloc, Memory::new(alloc), BEGUN)?;
    add_all(&mut journal, ticks)?;
    bytes.extend_from_slice(journal.into_disk().bytes())?;
    Ok(())
}

fn add_all<J: Journal>(journal: &mut J, ticks: i64) -> Result<(), JournalFault> {
    for moment in 0..ticks {
        add(journal, tick(moment))?;
        journal.commit()?;
    }
    Ok(())
}

/// Shows each record that is read, and where the journal ends.
fn show_records(alloc: Global, bytes: &[u8], out: &mut Outcomes) {
    let mut recovery = Recovery::new(alloc, disk_of(alloc, bytes));
    match recovery.begin() {
        Ok(()) => show_rest(&mut recovery, out),
        Err(fault) => out.value(fault),
    }
}

fn show_rest<D: Disk + Drop>(recovery: &mut Recovery<D>, out: &mut Outcomes) {
    for _turn in 0..1_000_000 {
        show_record(recovery.record(), out);
        match recovery.advance() {
            Ok(true) => {}
            Ok(false) => break,
            Err(fault) => return out.value(fault),
        }
    }
    out.word("end");
    out.value(recovery.position());
}

/// Shows what is found on a disk of which only so many calls are done.
fn show_on_fuse(alloc: Global, calls: u64, bytes: &[u8], out: &mut Outcomes) {
    show_found(
        found_in(alloc, Fuse::new(disk_of(alloc, bytes), calls)),
        out,
    );
}

/// Shows what is found on a disk with a damaged byte.
fn show_on_rot(alloc: Global, at: usize, bytes: &[u8], out: &mut Outcomes) {
    show_found(found_in(alloc, Rot::new(disk_of(alloc, bytes), at)), out);
}

/// Shows what is found of the bytes with damage at each of the numbers of the line, if it is the same at all.
fn show_damaged(alloc: Global, bytes: &[u8], damage: Damage, line: Line<'_>, out: &mut Outcomes) {
    let wanted = found_of(alloc, bytes, damage, line.size(0));
    for number in line.size(0)..=line.size(1) {
        if found_of(alloc, bytes, damage, number) != wanted {
            out.word("not the same at");
            out.value(number);
            return;
        }
    }
    show_found(wanted, out);
}

/// What is found of the bytes with damage at the number.
fn found_of(alloc: Global, bytes: &[u8], damage: Damage, number: usize) -> Found {
    match Vec::from_slice(alloc, bytes) {
        Ok(mut damaged) => {
            do_damage(&mut damaged, damage, number);
            found_in(alloc, disk_of(alloc, damaged.as_slice()))
        }
        Err(_) => Found::Stopped(u64::MAX),
    }
}

fn do_damage(bytes: &mut Vec<u8>, damage: Damage, number: usize) {
    match damage {
        Damage::Cut => bytes.truncate(number),
        Damage::Turned(bits) => {
            if let Some(byte) = bytes.get_mut(number) {
                *byte ^= bits;
            }
        }
        Damage::Set(at) => {
            if let Some(byte) = bytes.get_mut(at) {
                *byte = (number % 256) as u8;
            }
        }
    }
}

/// Shows what is found of the bytes of the example, torn so often behind the commit byte of the last group: the record
/// before it, or the first other finding.
fn show_torn(alloc: Global, bytes: &[u8], times: u64, out: &mut Outcomes) {
    let mut seed = 7;
    for _turn in 0..times {
        let Ok(mut torn) = Vec::from_slice(alloc, bytes) else {
            return out.word("out of memory");
        };
        seed = tear(torn.as_mut_slice(), seed);
        let found = found_in(alloc, disk_of(alloc, torn.as_slice()));
        if found != Found::Whole(1) {
            return show_found(found, out);
        }
    }
    show_found(Found::Whole(1), out);
}

/// Some bytes of the last group become others, and its commit byte an unset one; returns the next seed.
fn tear(bytes: &mut [u8], mut seed: u64) -> u64 {
    if let Some(gate) = bytes.get_mut(92) {
        *gate = b'-';
    }
    for _byte in 0..seed % 40 {
        seed = next_seed(seed);
        let at = 93 + (seed >> 33) as usize % 111;
        if let Some(byte) = bytes.get_mut(at) {
            *byte = ((seed >> 20) % 256) as u8;
        }
    }
    next_seed(seed) >> 3
}

/// The next of a row of numbers that look random.
fn next_seed(seed: u64) -> u64 {
    seed.wrapping_mul(6_364_136_223_846_793_005)
        .wrapping_add(1_442_695_040_888_963_407)
}

/// The kind of that word.
fn kind_named(word: &str) -> Kind {
    match word {
        "journal" => Kind::Journal,
        "oai" => Kind::Oai,
        "deposit" => Kind::Deposit,
        "tick" => Kind::Tick,
        "begin" => Kind::Begin,
        "set" => Kind::Set,
        "item" => Kind::Item,
        "list" => Kind::List,
        _ => Kind::Gone,
    }
}

/// Shows the word of the kind, its bytes at most, and whether it is of first records.
fn show_kind(kind: Kind, out: &mut Outcomes) {
    out.word(kind.word());
    out.value(kind.max_body());
    out.is(kind.is_first());
}

/// Shows the fault that the line names.
fn show_fault(line: Line<'_>, out: &mut Outcomes) {
    match line.call {
        "Damaged" => out.value(RecoveryFault::Damaged(line.size(0))),
        "Stopped" => out.value(RecoveryFault::Stopped(JournalFault::Failed)),
        "NoRoom" => out.value(JournalFault::NoRoom),
        _ => out.word("no such call"),
    }
}
