//! What a repository holds, as the lines of a dump.
use crate::assertions::assert_same;
use crate::daemon::places::{add_record, first_body};
use oai_archive::{ServerStop, dump_repository};
use oai_journal::{FileJournal, Kind, LogRecord};
use sqlite_disk::{Disk, Memory};
use std::alloc::Global;
use std::panic::Expect;
use std::process::Abort;

/// 2024-01-01T00:00:00Z.
const FIRST: i64 = 1_704_067_200;

/// A journal in memory that begins so.
pub(crate) fn begun(rt: &impl Abort, alloc: Global) -> FileJournal<Memory> {
    begun_with(rt, alloc, first_body())
}

/// A journal in memory whose first record has that body.
pub(crate) fn begun_with(rt: &impl Abort, alloc: Global, body: &[u8]) -> FileJournal<Memory> {
    let first = LogRecord {
        moment: FIRST,
        kind: Kind::Journal,
        name: b"oaihostd",
        body,
    };
    assert!(rt; first.is_fit() && first.kind.is_first());
    FileJournal::create(alloc, Memory::new(alloc), &first).expect(rt, "journal")
}

/// Adds a deposit of these lines at the repository `a`, so many seconds behind the first moment.
pub(crate) fn deposit(
    rt: &impl Abort,
    journal: &mut FileJournal<Memory>,
    seconds: i64,
    lines: &str,
) {
    let record = LogRecord {
        moment: FIRST.saturating_add(seconds),
        kind: Kind::Deposit,
        name: b"a",
        body: lines.as_bytes(),
    };
    add_record(journal, &record).expect(rt, "record");
}

/// What is dumped of the repository of that name, by the journal on the disk.
pub(crate) fn assert_dumped<D: Disk + Drop>(
    rt: &impl Abort,
    alloc: Global,
    disk: D,
    name: &str,
    wanted: Result<(), ServerStop>,
    text: &str,
) {
    let mut written = Vec::new(alloc);
    let done = dump_repository(alloc, disk, name, &mut written);
    assert_same(rt, done, wanted);
    assert_same(rt, written.as_slice(), text.as_bytes());
}

/// Sets stand first, in the order in which they were added, then the items in theirs; of a deleted one its deposit and
/// its deletion. Texts are escaped as JSON wants it.
#[test]
fn dumped_lines(rt: HostRuntime) {
    let alloc = rt.alloc();
    let mut journal = begun(&rt, alloc);
    let lines = r#"{"set":"y","name":"Y"}
{"set":"x","name":"X & \"Y\""}
{"deposit":"oai:a:2","sets":["x"],"records":{"oai_dc":[["title","gone"]]}}
{"deposit":"oai:a:1","sets":[],"records":{"oai_dc":[]}}
"#;
    deposit(&rt, &mut journal, 0, lines);
    let lines =
        r#"{"deposit":"oai:a:3","sets":["y","x"],"records":{"oai_dc":[["title","A \"b\" \\ \t é <&>"],["title","\u20ac"]]}}
{"delete":"oai:a:2"}
"#;
    deposit(&rt, &mut journal, 10, lines);
    let wanted = r#"{"name":"Y","set":"y"}
{"name":"X & \"Y\"","set":"x"}
{"deposit":"oai:a:1","records":{"oai_dc":[]},"sets":[]}
{"deposit":"oai:a:2","records":{"oai_dc":[]},"sets":["x"]}
{"delete":"oai:a:2"}
{"deposit":"oai:a:3","records":{"oai_dc":[["title","A \"b\" \\ \t é <&>"],["title","€"]]},"sets":["y","x"]}
"#;
    assert_dumped(&rt, alloc, journal.into_disk(), "a", Ok(()), wanted);
}

/// Nothing is written of a repository that is not there.
#[test]
fn unknown_repository(rt: HostRuntime) {
    let journal = begun(&rt, rt.alloc());
    let wanted = Err(ServerStop::NoRepository);
    assert_dumped(&rt, rt.alloc(), journal.into_disk(), "b", wanted, "");
}
