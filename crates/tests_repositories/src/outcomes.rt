//! What a repository answers over a store that returns false reads, or finds no room, in a word.
use crate::assertions::assert_same_at;
use crate::samples::{Asked, change_in};
use oai_catalogue::Versions;
use oai_item::Fault;
use oai_names::Sequence;
use oai_repo::{Refusal, Reply};
use oai_settings::RepoConfig;
use std::alloc::Global;
use std::panic::Expect;
use std::process::Abort;
use tests_fixtures::{Stocked, archive_a, settings_of};

/// Archive A over the store.
pub(crate) fn archive<V: Versions + Drop>(rt: &impl Abort, alloc: Global, store: V) -> Stocked<V> {
    let config = RepoConfig::new(
        alloc,
        settings_of(alloc, archive_a()).expect(rt, "settings_of"),
    )
    .expect(rt, "RepoConfig::new");
    Stocked::new(alloc, config, store).expect(rt, "Stocked::new")
}

/// What a fault is called.
fn name_of(fault: Fault) -> &'static str {
    match fault {
        Fault::NoMemory => "out of memory",
        Fault::Device => "device failed",
        Fault::Damaged => "damaged",
        Fault::TooManyPages => "too many pages",
    }
}

/// Whether it is the name of a fault.
fn is_fault(outcome: &str) -> bool {
    match outcome {
        "out of memory" => true,
        "device failed" => true,
        "damaged" => true,
        "too many pages" => true,
        _ => false,
    }
}

/// What a change comes to.
fn outcome_of_change(changed: Result<i64, Refusal>) -> &'static str {
    match changed {
        Ok(_) => "ok",
        Err(Refusal::Refused(cause)) => cause.answer(),
        Err(Refusal::Fault(fault)) => name_of(fault),
    }
}

/// What a request comes to.
fn outcome_of_request(asked: Result<Reply, Fault>) -> &'static str {
    match asked {
        Ok(Reply::Page(_)) => "page",
        Ok(Reply::Later(_)) => "later",
        Err(fault) => name_of(fault),
    }
}

/// What an exchange comes to: `ok`, the line of a refusal, `page`, `later`, or the name of a fault.
pub(crate) fn outcome<V: Versions + Drop>(
    rt: &impl Abort,
    alloc: Global,
    repo: &mut Stocked<V>,
    asked: Asked,
) -> &'static str {
    let (moment, text) = asked;
    match change_in(rt, alloc, text) {
        Some(change) => outcome_of_change(repo.change(moment, &change)),
        None => outcome_of_request(repo.ask(moment, text.as_bytes())),
    }
}

/// The exchanges come to that, one after the other; a fault leaves the clock where it was.
pub(crate) fn assert_outcomes<V: Versions + Drop>(
    rt: &impl Abort,
    alloc: Global,
    repo: &mut Stocked<V>,
    exchanges: &[(Asked, &str)],
) {
    for (asked, wanted) in exchanges {
        let (moment, text) = *asked;
        let before = repo.clock();
        assert_same_at(rt, outcome(rt, alloc, repo, *asked), *wanted, text);
        let clock = if is_fault(wanted) { before } else { moment };
        assert_same_at(rt, repo.clock(), clock, text);
    }
}

/// The page that answers the query at the moment.
pub(crate) fn page_of<V: Versions + Drop>(
    rt: &impl Abort,
    repo: &mut Stocked<V>,
    moment: i64,
    query: &str,
) -> Sequence<u8> {
    let Reply::Page(page) = repo.ask(moment, query.as_bytes()).expect(rt, "ask") else {
        panic!(rt; "later")
    };
    page
}
