//! What is performed and leaves no log record.
use crate::archives::{MemoryArchive, answer_of, worked};
use oai_http::Settled;
use oai_journal::Recovery;
use sqlite_disk::Memory;
use std::alloc::Global;
use std::panic::Expect;
use std::process::Abort;

/// The answer to the exchange of the line is 200, with no line.
fn assert_no_line<H: Settled>(rt: &impl Abort, alloc: Global, handler: &mut H, line: &str) {
    let answer = answer_of(rt, alloc, handler, line);
    assert!(rt; answer.fault.is_none());
    assert!(rt; answer.status.number() == 200);
    assert!(rt; answer.body.as_slice().is_empty());
}

/// The journal has no record behind its first one.
fn assert_no_record(rt: &impl Abort, mut recovery: Recovery<Memory>) {
    recovery.begin().expect(rt, "begin");
    let more = recovery.advance().expect(rt, "advance");
    assert!(rt; !more);
}

/// A deposit of blank lines alone settles.
fn deposit_blank_lines<H: Settled>(rt: &impl Abort, alloc: Global, handler: &mut H) {
    let line = "1704067207 POST /deposit/a | - |  ¶\t¶\r¶¶ ";
    assert_no_line(rt, alloc, handler, line);
    handler.settle().expect(rt, "settle");
}

#[test]
fn blank_lines_leave_no_record(rt: HostRuntime) {
    let alloc = rt.alloc();
    let mut archive = MemoryArchive::begun(&rt, alloc, worked(1));
    deposit_blank_lines(&rt, alloc, &mut archive);
    assert_no_record(&rt, archive.into_journal().crash(alloc));
}
