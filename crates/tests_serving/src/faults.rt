//! Faults, and ends behind them.
use crate::archives::{MemoryArchive, answer_of, begun_on, worked};
use crate::assertions::assert_same;
use crate::ends::assert_only_first;
use oai_device::MemoryDevice;
use oai_durable::Journaled;
use oai_http::Settled;
use oai_item::Fault;
use oai_journal::FileJournal;
use oai_replay::Replayed;
use sqlite_disk::Memory;
use std::alloc::Global;
use std::panic::Expect;
use std::process::Abort;
use tests_devices::RefusingDevice;

/// A deposit of two lines.
fn two_lines() -> &'static str {
    r#"1704067201 POST /deposit/a | - | {"deposit":"oai:a:1","sets":[],"records":{"oai_dc":[]}}¶{"deposit":"oai:a:2","sets":[],"records":{"oai_dc":[]}}"#
}

/// Whether the handler fails in the second of the two lines, for memory.
fn fails_in_second<H: Settled>(rt: &impl Abort, alloc: Global, handler: &mut H) -> bool {
    let answer = answer_of(rt, alloc, handler, two_lines());
    handler.settle().expect(rt, "settle");
    if answer.done != Some(1) {
        return false;
    }
    assert_same(rt, answer.fault, Some(Fault::NoMemory));
    true
}

/// Behind a crash of that archive the first line is there.
fn assert_kept<H: Replayed + Drop>(
    rt: &impl Abort,
    alloc: Global,
    archive: Journaled<H, FileJournal<Memory>>,
) {
    let mut found = MemoryArchive::found(rt, alloc, archive.into_journal(), worked(1));
    assert_only_first(rt, alloc, &mut found);
}

/// Whether the archive fails in the second line. Then the first one is there after an end.
fn fails_and_keeps<H: Replayed + Drop>(
    rt: &impl Abort,
    alloc: Global,
    mut archive: Journaled<H, FileJournal<Memory>>,
) -> bool {
    let fails = fails_in_second(rt, alloc, &mut archive);
    if fails {
        assert_kept(rt, alloc, archive);
    }
    fails
}

/// Whether an archive over a device in memory, of which the k-th call is refused memory, fails in the second line.
/// Then the first one is there after an end.
fn is_kept(rt: &impl Abort, alloc: Global, k: u64) -> bool {
    let device = RefusingDevice::new(MemoryDevice::new(alloc), k);
    fails_and_keeps(rt, alloc, begun_on(rt, alloc, device, worked(1)))
}

/// Of a deposit that failed in its second line the first one is there after an end.
#[test]
fn deposit_that_failed_in_its_second_line(rt: HostRuntime) {
    for k in 1..100u64 {
        if is_kept(&rt, rt.alloc(), k) {
            return;
        }
    }
    panic!(&rt; "no call is refused in the second line")
}
