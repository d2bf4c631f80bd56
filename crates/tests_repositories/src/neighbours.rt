//! Two repositories in one store, of whose items some have one identifier: each answers as it does
//! alone.
use crate::assertions::assert_same;
use crate::samples::{
    Asked, BEGIN, NEXT_DAY, change_in, deletion, deposit, headers, next_records, record, records,
};
use oai_catalogue::{PlainVersions, Versions};
use oai_item::Fault;
use oai_repo::{Refusal, Reply};
use oai_settings::RepoConfig;
use std::alloc::Global;
use std::io::Write;
use std::panic::Expect;
use std::process::Abort;
use tests_fixtures::{Shared, Stocked, Which, archive_a, archive_b, settings_of};

/// The configuration of Archive A, which keeps what is deleted, or of Archive B, which does not.
fn config_of(rt: &impl Abort, alloc: Global, which: Which) -> RepoConfig {
    let told = match which {
        Which::First => archive_a(),
        Which::Second => archive_b(),
    };
    RepoConfig::new(alloc, settings_of(alloc, told).expect(rt, "settings_of")).expect(
        rt,
        "RepoConfig::new",
    )
}

/// What is asked of the two, in turn: items under the same identifiers, at the same moments and at
/// others, which are changed, deleted and listed. A token of the first is none of the second.
fn exchanges() -> [(Which, Asked); 21] {
    [
        (Which::First, (BEGIN, deposit(1))),
        (Which::Second, (BEGIN, deposit(1))),
        (Which::First, (BEGIN + 1, deposit(2))),
        (Which::Second, (BEGIN + 1, headers())),
        (Which::First, (BEGIN + 2, headers())),
        (Which::Second, (BEGIN + 3, deletion(1))),
        (Which::Second, (BEGIN + 4, record(1))),
        (Which::First, (BEGIN + 4, record(1))),
        (Which::First, (BEGIN + 5, deposit(1))),
        (Which::Second, (BEGIN + 5, deposit(3))),
        (Which::First, (BEGIN + 6, deletion(2))),
        (Which::Second, (BEGIN + 6, deletion(2))),
        (Which::First, (BEGIN + 7, deposit(3))),
        (Which::Second, (BEGIN + 7, records())),
        (Which::First, (BEGIN + 7, records())),
        (Which::Second, (BEGIN + 8, next_records())),
        (Which::First, (BEGIN + 8, next_records())),
        (Which::Second, (NEXT_DAY, deposit(3))),
        (Which::First, (NEXT_DAY, deletion(1))),
        (Which::First, (NEXT_DAY, records())),
        (Which::Second, (NEXT_DAY, records())),
    ]
}

/// Writes what a change is answered.
fn write_change(rt: &impl Abort, changed: Result<i64, Refusal>, output: &mut Vec<u8>) {
    match changed {
        Ok(stamp) => writeln!(output, "ok {stamp}").expect(rt, "memory"),
        Err(Refusal::Refused(cause)) => writeln!(output, "{}", cause.answer()).expect(rt, "memory"),
        Err(Refusal::Fault(fault)) => panic!(rt; "{fault:?}"),
    }
}

/// Writes what a request is answered.
fn write_page(rt: &impl Abort, asked: Result<Reply, Fault>, output: &mut Vec<u8>) {
    match asked.expect(rt, "asked") {
        Reply::Page(page) => output
            .extend_from_slice(page.as_slice())
            .expect(rt, "memory"),
        Reply::Later(seconds) => writeln!(output, "later {seconds}").expect(rt, "memory"),
    }
}

/// Writes what a repository with a store of its own answers.
fn write_alone<V: Versions + Drop>(
    rt: &impl Abort,
    alloc: Global,
    repo: &mut Stocked<V>,
    asked: Asked,
    output: &mut Vec<u8>,
) {
    let (moment, text) = asked;
    match change_in(rt, alloc, text) {
        Some(change) => write_change(rt, repo.change(moment, &change), output),
        None => write_page(rt, repo.ask(moment, text.as_bytes()), output),
    }
}

/// Writes what one of two repositories in one store answers.
fn write_beside<V: Versions + Drop>(
    rt: &impl Abort,
    alloc: Global,
    shared: &mut Shared<V>,
    which: Which,
    asked: Asked,
    output: &mut Vec<u8>,
) {
    let (moment, text) = asked;
    match change_in(rt, alloc, text) {
        Some(change) => write_change(rt, shared.change(which, moment, &change), output),
        None => write_page(rt, shared.ask(which, moment, text.as_bytes()), output),
    }
}

/// What a repository with a store of its own answers to what that one of the two is asked.
fn answers_alone<V: Versions + Drop>(
    rt: &impl Abort,
    alloc: Global,
    mut repo: Stocked<V>,
    which: Which,
) -> Vec<u8> {
    let mut output = Vec::new(alloc);
    for (of, asked) in exchanges() {
        if of == which {
            write_alone(rt, alloc, &mut repo, asked, &mut output);
        }
    }
    output
}

/// What that repository answers where it is alone.
fn alone(rt: &impl Abort, alloc: Global, which: Which) -> Vec<u8> {
    let config = config_of(rt, alloc, which);
    let repo = Stocked::new(alloc, config, PlainVersions::new(alloc)).expect(rt, "Stocked::new");
    answers_alone(rt, alloc, repo, which)
}

/// The two repositories in one store.
fn neighbours(rt: &impl Abort, alloc: Global) -> Shared<PlainVersions> {
    let first = config_of(rt, alloc, Which::First);
    let second = config_of(rt, alloc, Which::Second);
    Shared::new(alloc, first, second, PlainVersions::new(alloc)).expect(rt, "Shared::new")
}

/// Asks one of the two, and writes what it answers if it is that one.
fn write_of<V: Versions + Drop>(
    rt: &impl Abort,
    alloc: Global,
    shared: &mut Shared<V>,
    of: Which,
    which: Which,
    asked: Asked,
    output: &mut Vec<u8>,
) {
    if of == which {
        return write_beside(rt, alloc, shared, of, asked, output);
    }
    let mut unseen = Vec::new(alloc);
    write_beside(rt, alloc, shared, of, asked, &mut unseen);
}

/// What that one of the two answers where they are asked in turn.
fn answers_beside<V: Versions + Drop>(
    rt: &impl Abort,
    alloc: Global,
    mut shared: Shared<V>,
    which: Which,
) -> Vec<u8> {
    let mut output = Vec::new(alloc);
    for (of, asked) in exchanges() {
        write_of(rt, alloc, &mut shared, of, which, asked, &mut output);
    }
    output
}

/// What that repository answers beside the other one.
fn beside(rt: &impl Abort, alloc: Global, which: Which) -> Vec<u8> {
    let shared = neighbours(rt, alloc);
    answers_beside(rt, alloc, shared, which)
}

/// That repository answers beside the other one as it does alone.
fn assert_alone(rt: &impl Abort, alloc: Global, which: Which) {
    let wanted = alone(rt, alloc, which);
    assert_same(rt, beside(rt, alloc, which).as_slice(), wanted.as_slice());
}

#[test]
fn neighbours_are_not_seen(rt: HostRuntime) {
    assert_alone(&rt, rt.alloc(), Which::First);
    assert_alone(&rt, rt.alloc(), Which::Second);
}
