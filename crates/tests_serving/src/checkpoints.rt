//! Checkpoints: their bytes, and what is restored from them.
use crate::shelves::Shelf;
use oai_durable::{CheckpointFault, Progress, RecoverFault, checkpoint, recover};
use oai_item::Fault;
use oai_journal::{FileJournal, JournalFault, Kind, LogRecord, Recovery};
use oai_replay::{Part, PartKind, SaveFault};
use sqlite_disk::{Disk, Fuse, Memory};
use std::alloc::Global;
use std::panic::Expect;
use std::process::Abort;

/// The bytes of a live item with one title.
const ITEM: &[u8] =
    b"\x01\x00\x00\x00\x00\x65\x92\x00\x80\x00\x00\x00\x07oai:a:1\x00\x00\x00\x00\x00\x00\x00\x01\x00\x00\x00\x06oai_dc\x00\x00\x00\x01\x00\x00\x00\x05title\x00\x00\x00\x01T";

/// A part of the repository `a`.
fn part_of_a(kind: PartKind, moment: i64, bytes: &[u8]) -> Part<'_> {
    Part {
        kind,
        moment,
        name: b"a",
        bytes,
    }
}

/// The parts of two repositories: of `a` a set and an item, and of `b` none.
fn parts() -> [Part<'static>; 4] {
    let begin = part_of_a(PartKind::Begin, 1_767_225_603, b"1000001");
    let set = part_of_a(PartKind::Set, 1_767_225_603, b"m Maps and plans");
    let item = part_of_a(PartKind::Item, 1_704_067_200, ITEM);
    let other = part_of_a(PartKind::Begin, 1_767_225_601, b"1000007");
    [
        begin,
        set,
        item,
        Part {
            name: b"b",
            ..other
        },
    ]
}

/// The journal of these parts, as docs/FORMAT.md has it.
const WRITTEN: [&[u8]; 9] = [
    b"+1767225600 journal oaihostd 4 5eb653a2147061dd\n1\n{}\n",
    b"+1767225603 begin a 7 31efd9bd0722a014\n1000001\n",
    b"&1767225603 set a 16 72ae87aa81efb16f\nm Maps and plans\n",
    b"&1704067200 item a 56 624fd8bf763f4c7f\n",
    ITEM,
    b"\n",
    b"&1767225601 begin b 7 8973c04c0c56f043\n1000007\n",
    b"-",
    b"",
];

/// The first record of a journal.
fn first() -> LogRecord<'static> {
    LogRecord {
        moment: 1_767_225_600,
        kind: Kind::Journal,
        name: b"oaihostd",
        body: b"1\n{}",
    }
}

/// A journal of no records, on that disk.
fn journal_on<D: Disk + Drop>(rt: &impl Abort, alloc: Global, disk: D) -> FileJournal<D> {
    let first = first();
    assert!(rt; first.is_fit());
    assert!(rt; first.kind.is_first());
    FileJournal::create(alloc, disk, &first).expect(rt, "create")
}

/// The journal of a checkpoint of these parts.
fn written(rt: &impl Abort, alloc: Global, parts: &[Part<'_>]) -> FileJournal<Memory> {
    let mut shelf = Shelf::new(alloc, parts, None);
    let journal = journal_on(rt, alloc, Memory::new(alloc));
    let written = checkpoint(&mut shelf, 7, journal).expect(rt, "checkpoint");
    assert!(rt; shelf.raise() == 7);
    written
}

/// The bytes are those of the pieces, one behind the other.
fn assert_pieces(rt: &impl Abort, bytes: &[u8], pieces: &[&[u8]]) {
    let mut rest = bytes;
    for piece in pieces {
        let left = rest.strip_prefix(*piece);
        assert!(rt; left.is_some());
        rest = left.unwrap_or(b"");
    }
    assert!(rt; rest.is_empty());
}

/// The bytes of the journal of a checkpoint of these parts are those of the pieces.
fn assert_written(rt: &impl Abort, alloc: Global, parts: &[Part<'_>], pieces: &[&[u8]]) {
    let disk = written(rt, alloc, parts).into_disk();
    assert_pieces(rt, disk.bytes(), pieces);
}

#[test]
fn checkpoint_has_these_bytes(rt: HostRuntime) {
    assert_written(&rt, rt.alloc(), &parts(), &WRITTEN);
}

/// A recovery whose progress is not reported.
#[derive(Drop)]
struct Quiet;

impl Progress for Quiet {
    fn note(&mut self, _entry: &LogRecord<'_>, _number: u64, _position: usize, _len: usize) {}
}

/// The handler replays the journal that a crash left.
fn recovered(
    rt: &impl Abort,
    alloc: Global,
    journal: FileJournal<Memory>,
    shelf: &mut Shelf<'_>,
) -> Result<u64, RecoverFault> {
    let mut recovery = journal.crash(alloc);
    recovery.begin().expect(rt, "begin");
    recover(shelf, &mut recovery, &mut Quiet)
}

/// Of the checkpoint of these parts four records are restored, which are noted so.
fn assert_restored(rt: &impl Abort, alloc: Global, parts: &[Part<'_>], notes: &[&[u8]]) {
    let journal = written(rt, alloc, parts);
    let mut shelf = Shelf::new(alloc, &[], None);
    let count = recovered(rt, alloc, journal, &mut shelf);
    assert!(rt; count == Ok(4));
    assert_pieces(rt, shelf.notes(), notes);
}

#[test]
fn checkpoint_is_restored(rt: HostRuntime) {
    assert_restored(
        &rt,
        rt.alloc(),
        &parts(),
        &[
            b"B\x00\x00\x00\x00\x69\x55\xb9\x03a 1000001\n",
            b"S\x00\x00\x00\x00\x69\x55\xb9\x03a m Maps and plans\n",
            b"I\x00\x00\x00\x00\x65\x92\x00\x80a ",
            ITEM,
            b"\nB\x00\x00\x00\x00\x69\x55\xb9\x01b 1000007\n",
        ],
    );
}

/// The parts of a repository with an open list of an item that is gone.
fn listed_parts() -> [Part<'static>; 4] {
    let begin = part_of_a(PartKind::Begin, 1_767_225_603, b"8");
    let item = part_of_a(PartKind::Item, 1_704_067_200, ITEM);
    let list = part_of_a(PartKind::List, 1_767_225_603, LIST);
    let gone = part_of_a(PartKind::Gone, 1_767_225_603, b"oai:a:1");
    [begin, item, list, gone]
}

/// The bytes of the list.
const LIST: &[u8] = b"7 ListRecords 1767225663 200 oai_dc -62135596800 1767225603 m:x";

/// The journal of these parts. Its digests were computed by another program.
const LISTED: [&[u8]; 9] = [
    b"+1767225600 journal oaihostd 4 5eb653a2147061dd\n1\n{}\n",
    b"+1767225603 begin a 1 57656ce14558ee75\n8\n",
    b"&1704067200 item a 56 f6b0eb437797e2bd\n",
    ITEM,
    b"\n&1767225603 list a 63 f1d4afbb428eb6c2\n",
    LIST,
    b"\n&1767225603 gone a 7 fa3789c6e08e4466\noai:a:1\n",
    b"-",
    b"",
];

#[test]
fn lists_have_these_bytes(rt: HostRuntime) {
    assert_written(&rt, rt.alloc(), &listed_parts(), &LISTED);
}

#[test]
fn lists_are_restored(rt: HostRuntime) {
    assert_restored(
        &rt,
        rt.alloc(),
        &listed_parts(),
        &[
            b"B\x00\x00\x00\x00\x69\x55\xb9\x03a 8\n",
            b"I\x00\x00\x00\x00\x65\x92\x00\x80a ",
            ITEM,
            b"\nL\x00\x00\x00\x00\x69\x55\xb9\x03a ",
            LIST,
            b"\nG\x00\x00\x00\x00\x69\x55\xb9\x03a oai:a:1\n",
        ],
    );
}

/// A part that the handler does not restore ends the recovery, with the number of its record.
#[test]
fn part_that_does_not_fit(rt: HostRuntime) {
    let [begin, set, item, _] = parts();
    let parts = [begin, Part { bytes: b"", ..set }, item];
    assert_unfit(&rt, rt.alloc(), &parts);
}

/// The second record of the checkpoint of these parts is not restored.
fn assert_unfit(rt: &impl Abort, alloc: Global, parts: &[Part<'_>]) {
    let journal = written(rt, alloc, parts);
    let mut shelf = Shelf::new(alloc, &[], None);
    let count = recovered(rt, alloc, journal, &mut shelf);
    assert!(rt; count == Err(RecoverFault::Performing(2, Fault::Damaged)));
}

/// Why no checkpoint of these parts is written, behind which the handler has that fault, and on a disk that takes so
/// many calls.
fn fault_of(
    rt: &impl Abort,
    alloc: Global,
    (parts, fault, calls): (&[Part<'_>], Option<SaveFault>, u64),
) -> Option<CheckpointFault> {
    let mut shelf = Shelf::new(alloc, parts, fault);
    let journal = journal_on(rt, alloc, Fuse::new(Memory::new(alloc), calls));
    checkpoint(&mut shelf, 0, journal).err()
}

#[test]
fn faults(rt: HostRuntime) {
    let alloc = rt.alloc();
    let reading = Some(SaveFault::Reading(Fault::Device));
    let fault = fault_of(&rt, alloc, (&parts(), reading, 100));
    assert!(&rt; fault == Some(CheckpointFault::Reading(Fault::Device)));
    let fault = fault_of(&rt, alloc, (&parts(), Some(SaveFault::Numbers), 100));
    assert!(&rt; fault == Some(CheckpointFault::Numbers));
}

/// A name of 33 bytes stands in no record.
#[test]
fn part_that_no_record_can_hold(rt: HostRuntime) {
    let [begin, _, _, _] = parts();
    let name = b"abcdefghijklmnopqrstuvwxyz0123456";
    let fault = fault_of(&rt, rt.alloc(), (&[Part { name, ..begin }], None, 100));
    assert!(&rt; fault == Some(CheckpointFault::Journal(JournalFault::NoRoom)));
}

/// The disk takes the calls of the first record, and fails at each later one in turn, until it takes all.
#[test]
fn disk_that_fails(rt: HostRuntime) {
    let mut failed = 0u64;
    for calls in 4..100u64 {
        match fault_of(&rt, rt.alloc(), (&parts(), None, calls)) {
            Some(fault) => {
                assert!(&rt; fault == CheckpointFault::Journal(JournalFault::Failed));
                failed = calls;
            }
            None => break,
        }
    }
    assert!(&rt; failed < 20);
    assert!(&rt; failed > 5);
}
