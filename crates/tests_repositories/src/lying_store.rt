//! A repository over a faulty store that returns nothing: each call returns.
use crate::outcomes::{archive, outcome};
use crate::samples::{
    Asked, BEGIN, NEXT_DAY, deletion, deposit, formats, headers, record, records,
};
use oai_catalogue::{PlainVersions, Versions};
use std::alloc::Global;
use std::process::Abort;
use tests_stores::lying;

/// More lies than are asked for.
const ALWAYS: u64 = 1_000;

/// A new item, one in its place at the same datestamp and at another, lists, a deletion, and what it
/// leaves.
fn all_kinds() -> [Asked; 8] {
    [
        (BEGIN, deposit(1)),
        (BEGIN, deposit(1)),
        (NEXT_DAY, deposit(1)),
        (NEXT_DAY, headers()),
        (NEXT_DAY, records()),
        (NEXT_DAY + 1, deletion(1)),
        (NEXT_DAY + 1, record(1)),
        (NEXT_DAY + 1, formats()),
    ]
}

/// Each exchange comes to something.
fn assert_each_returns<V: Versions + Drop>(rt: &impl Abort, alloc: Global, store: V) {
    let mut repo = archive(rt, alloc, store);
    for asked in all_kinds() {
        outcome(rt, alloc, &mut repo, asked);
    }
}

/// The same over a store that returns false reads after so many answers.
fn assert_returns(rt: &impl Abort, alloc: Global, truths: u64) {
    let store = lying(PlainVersions::new(alloc), truths, ALWAYS);
    assert_each_returns(rt, alloc, store);
}

/// Wherever the lies begin, each call returns, with an answer or with damage.
#[test]
fn each_call_returns(rt: HostRuntime) {
    for truths in 0..16 {
        assert_returns(&rt, rt.alloc(), truths);
    }
}
