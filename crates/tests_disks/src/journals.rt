//! Journals on disks in memory, and on disks of which a call and all behind it fail.
use crate::outcomes::Outcomes;
use crate::readings::{disk_of, found_in, show_found, show_record};
use crate::scripts::{Line, parts_of};
use oai_journal::{FileJournal, Journal, JournalFault, Kind, LogRecord, Recovery, Tail, copy_some};
use sqlite_disk::{Crash, Disk, Fuse, Memory};
use std::alloc::Global;

/// The moment of the first record of a journal.
pub(crate) const BEGUN: i64 = 1_767_225_600;

/// Performs the lines on a new journal at that place: the calls of it and of its copy; behind `--`, where the place is
/// `crash`, the calls of the recovery behind a crash, and those of the journal that was recovered; and behind a last
/// `--` what the disks have.
pub(crate) fn perform_at(alloc: Global, place: &str, lines: &str, out: &mut Outcomes) {
    let place = Line::read(place, ':');
    match place.call {
        "memory" => in_memory(alloc, lines, out),
        "crash" => with_crash(alloc, lines, out),
        "fuse" => on_fuse(alloc, place.number(0), lines, out),
        _ => out.word("no such place"),
    }
}

/// A journal on the disk, whose first record has that moment.
pub(crate) fn new_journal<D: Disk + Drop>(
    alloc: Global,
    disk: D,
    moment: i64,
) -> Result<FileJournal<D>, JournalFault> {
    let first = LogRecord {
        moment,
        kind: Kind::Journal,
        name: b"oaihostd",
        body: b"1\n{}",
    };
    if !first.is_fit() {
        return Err(JournalFault::NoRoom);
    }
    if !first.kind.is_first() {
        return Err(JournalFault::NoRoom);
    }
    FileJournal::create(alloc, disk, &first)
}

/// On a disk in memory.
fn in_memory(alloc: Global, lines: &str, out: &mut Outcomes) {
    match new_journal(alloc, Memory::new(alloc), BEGUN) {
        Ok(journal) => write_on(alloc, journal, lines, out),
        Err(fault) => show_no_journal(fault, out),
    }
}

/// The same, and the machine crashes behind the first calls.
fn with_crash(alloc: Global, lines: &str, out: &mut Outcomes) {
    let (calls, lines) = parts_of(lines);
    let (readings, lines) = parts_of(lines);
    match new_journal(alloc, Memory::new(alloc), BEGUN) {
        Ok(mut journal) => {
            perform_beside(alloc, &mut journal, calls, out);
            recover(alloc, journal.crash(alloc), readings, lines, out);
        }
        Err(fault) => show_no_journal(fault, out),
    }
}

/// Performs the calls of the recovery, and then those of its journal.
fn recover(
    alloc: Global,
    mut recovery: Recovery<Memory>,
    readings: &str,
    lines: &str,
    out: &mut Outcomes,
) {
    read_all(&mut recovery, readings, out);
    out.begin("into_journal");
    match recovery.into_journal() {
        Some(journal) => {
            out.word("a journal");
            write_on(alloc, journal, lines, out);
        }
        None => out.word("none"),
    }
}

/// Performs the calls of the journal, and shows what the disks have.
fn write_on(alloc: Global, mut journal: FileJournal<Memory>, lines: &str, out: &mut Outcomes) {
    let (calls, ends) = parts_of(lines);
    let copy = perform_beside(alloc, &mut journal, calls, out);
    let mut disk = journal.into_disk();
    show_disks(alloc, &mut disk, &copy, ends, out);
}

/// On a disk in memory of which only so many calls are done.
fn on_fuse(alloc: Global, calls: u64, lines: &str, out: &mut Outcomes) {
    match new_journal(alloc, Fuse::new(Memory::new(alloc), calls), BEGUN) {
        Ok(journal) => write_on_fuse(alloc, journal, lines, out),
        Err(fault) => show_no_journal(fault, out),
    }
}

fn write_on_fuse(
    alloc: Global,
    mut journal: FileJournal<Fuse<Memory>>,
    lines: &str,
    out: &mut Outcomes,
) {
    let (calls, ends) = parts_of(lines);
    let copy = perform_beside(alloc, &mut journal, calls, out);
    let fuse = journal.into_disk();
    let mut disk = disk_of(alloc, fuse.inner().bytes());
    show_disks(alloc, &mut disk, &copy, ends, out);
}

fn show_no_journal(fault: JournalFault, out: &mut Outcomes) {
    out.begin("create");
    out.value(fault);
}

/// Performs the calls of the journal and of a new one beside it, and returns the disk of that one.
fn perform_beside<J: Journal>(
    alloc: Global,
    journal: &mut J,
    calls: &str,
    out: &mut Outcomes,
) -> Memory {
    match new_journal(alloc, Memory::new(alloc), BEGUN) {
        Ok(mut copy) => {
            perform_behind(alloc, journal, &mut copy, calls, out);
            copy.into_disk()
        }
        Err(fault) => {
            show_no_journal(fault, out);
            Memory::new(alloc)
        }
    }
}

/// Performs the calls with a tail behind what is committed.
fn perform_behind<J: Journal, K: Journal>(
    alloc: Global,
    journal: &mut J,
    copy: &mut K,
    calls: &str,
    out: &mut Outcomes,
) {
    match journal.tail(alloc) {
        Ok(mut tail) => {
            for text in calls.lines() {
                out.begin(text);
                perform(alloc, journal, &mut tail, copy, Line::read(text, ' '), out);
            }
        }
        Err(fault) => out.value(fault),
    }
}

/// Performs the call.
fn perform<J: Journal, K: Journal>(
    alloc: Global,
    journal: &mut J,
    tail: &mut Tail,
    copy: &mut K,
    line: Line<'_>,
    out: &mut Outcomes,
) {
    match line.call {
        "add" => out.done(add(journal, record_named(line))),
        "commit" => out.done(journal.commit()),
        "tail" => begin_tail(alloc, journal, tail, out),
        "tail-of-another" => begin_other_tail(alloc, tail, out),
        "record" => show_record(tail.record(), out),
        "read_next" => read_next(journal, tail, out),
        "copy_some" => copy_on(journal, tail, copy, line, out),
        "commit-copy" => out.done(copy.commit()),
        _ => out.word("no such call"),
    }
}

/// The record of the example in docs/FORMAT.md that the line names, or a tick of repository `a` at a moment.
fn record_named(line: Line<'_>) -> LogRecord<'static> {
    match line.word(0) {
        "deposit" => LogRecord {
            moment: 1_767_225_601,
            kind: Kind::Deposit,
            name: b"a",
            body: b"{\"a\":1}\n{\"b\":2}\n",
        },
        "request" => LogRecord {
            moment: 1_767_225_602,
            kind: Kind::Oai,
            name: b"b",
            body: b"verb=Identify",
        },
        _ => tick(line.moment(1)),
    }
}

/// A tick of repository `a`.
pub(crate) fn tick(moment: i64) -> LogRecord<'static> {
    LogRecord {
        moment,
        kind: Kind::Tick,
        name: b"a",
        body: b"",
    }
}

/// Adds the record to the journal. The error is NoRoom also of a record that no journal can have there.
pub(crate) fn add<J: Journal>(journal: &mut J, entry: LogRecord<'_>) -> Result<(), JournalFault> {
    if !entry.is_fit() {
        return Err(JournalFault::NoRoom);
    }
    if entry.kind.is_first() {
        return Err(JournalFault::NoRoom);
    }
    journal.reserve(entry.body.len())?;
    journal.append(&entry);
    Ok(())
}

/// The tail is behind what is committed from now on.
fn begin_tail<J: Journal>(alloc: Global, journal: &mut J, tail: &mut Tail, out: &mut Outcomes) {
    match journal.tail(alloc) {
        Ok(new) => {
            *tail = new;
            out.word("done");
        }
        Err(fault) => out.value(fault),
    }
}

/// The tail is one of a journal whose first record is a second later.
fn begin_other_tail(alloc: Global, tail: &mut Tail, out: &mut Outcomes) {
    match new_journal(alloc, Memory::new(alloc), BEGUN + 1) {
        Ok(mut other) => begin_tail(alloc, &mut other, tail, out),
        Err(fault) => out.value(fault),
    }
}

/// Reads the record behind the tail.
fn read_next<J: Journal>(journal: &mut J, tail: &mut Tail, out: &mut Outcomes) {
    match journal.read_next(tail) {
        Ok(true) => show_record(tail.record(), out),
        Ok(false) => out.word("none"),
        Err(fault) => out.value(fault),
    }
}

/// Copies what is behind the tail, until so many bytes are copied, or all.
fn copy_on<J: Journal, K: Journal>(
    journal: &mut J,
    tail: &mut Tail,
    copy: &mut K,
    line: Line<'_>,
    out: &mut Outcomes,
) {
    let bytes = if line.word(0) == "all" {
        usize::MAX
    } else {
        line.size(0)
    };
    match copy_some(journal, tail, copy, bytes) {
        Ok(true) => out.word("more"),
        Ok(false) => out.word("no more"),
        Err(fault) => out.value(fault),
    }
}

/// Performs the calls of the recovery.
fn read_all<D: Disk + Drop>(recovery: &mut Recovery<D>, calls: &str, out: &mut Outcomes) {
    for call in calls.lines() {
        out.begin(call);
        read_on(recovery, call, out);
    }
}

fn read_on<D: Disk + Drop>(recovery: &mut Recovery<D>, call: &str, out: &mut Outcomes) {
    match call {
        "begin" => out.done(recovery.begin()),
        "advance" => advance(recovery, out),
        "record" => show_record(recovery.record(), out),
        "position" => out.value(recovery.position()),
        "file_len" => out.value(recovery.file_len()),
        _ => out.word("no such call"),
    }
}

fn advance<D: Disk + Drop>(recovery: &mut Recovery<D>, out: &mut Outcomes) {
    match recovery.advance() {
        Ok(true) => show_record(recovery.record(), out),
        Ok(false) => out.word("none"),
        Err(fault) => out.value(fault),
    }
}

/// Shows what the lines ask for of the disk of the journal and of that of its copy.
fn show_disks(alloc: Global, disk: &mut Memory, copy: &Memory, lines: &str, out: &mut Outcomes) {
    for line in lines.lines() {
        out.begin(line);
        show_disk(alloc, disk, copy, line, out);
    }
}

fn show_disk(alloc: Global, disk: &mut Memory, copy: &Memory, line: &str, out: &mut Outcomes) {
    match line {
        "crash" => {
            disk.crash();
            out.word("done");
        }
        "bytes" => out.bytes(disk.bytes()),
        "found" => show_found(found_in(alloc, disk_of(alloc, disk.bytes())), out),
        "copy-bytes" => out.bytes(copy.bytes()),
        "copy-found" => show_found(found_in(alloc, disk_of(alloc, copy.bytes())), out),
        _ => out.word("no such call"),
    }
}
