//! A token is handed out by a part that was answered, and not by one that failed: whether it failed for the store or, where
//! these tests are run with an allocation refused, since memory runs out.
use crate::outcomes::{archive, assert_outcomes, page_of};
use crate::samples::{Asked, BEGIN};
use oai_catalogue::{PlainVersions, Versions};
use std::alloc::Global;
use std::process::Abort;
use tests_fixtures::Stocked;
use tests_stores::failing;

/// Five deposits, and the first part of their list.
fn list_of_five() -> [(Asked, &'static str); 6] {
    [
        (
            (
                BEGIN,
                r#"{"deposit":"oai:a:1","sets":[],"records":{"oai_dc":[]}}"#,
            ),
            "ok",
        ),
        (
            (
                BEGIN,
                r#"{"deposit":"oai:a:2","sets":[],"records":{"oai_dc":[]}}"#,
            ),
            "ok",
        ),
        (
            (
                BEGIN,
                r#"{"deposit":"oai:a:3","sets":[],"records":{"oai_dc":[]}}"#,
            ),
            "ok",
        ),
        (
            (
                BEGIN,
                r#"{"deposit":"oai:a:4","sets":[],"records":{"oai_dc":[]}}"#,
            ),
            "ok",
        ),
        (
            (
                BEGIN,
                r#"{"deposit":"oai:a:5","sets":[],"records":{"oai_dc":[]}}"#,
            ),
            "ok",
        ),
        (
            (BEGIN, "verb=ListIdentifiers&metadataPrefix=oai_dc"),
            "page",
        ),
    ]
}

/// What asks for the second part.
fn second() -> &'static str {
    "verb=ListIdentifiers&resumptionToken=1.2"
}

/// And for the third.
fn third() -> &'static str {
    "verb=ListIdentifiers&resumptionToken=1.4"
}

/// Whether the page that answers the query is the error badResumptionToken.
fn is_refused<V: Versions + Drop>(rt: &impl Abort, repo: &mut Stocked<V>, query: &str) -> bool {
    let page = page_of(rt, repo, BEGIN, query);
    match str::from_utf8(page.as_slice()) {
        Ok(text) => text.contains("badResumptionToken"),
        Err(_) => panic!(rt; "no text"),
    }
}

/// The second part is asked for until it is answered; where that failed, the token of the third is refused meanwhile.
fn assert_second_part<V: Versions + Drop>(rt: &impl Abort, repo: &mut Stocked<V>, failed: bool) {
    let answer = repo.ask(BEGIN, second().as_bytes());
    assert!(rt; !failed || answer.is_err());
    if answer.is_err() {
        assert!(rt; is_refused(rt, repo, third()));
        assert!(rt; !is_refused(rt, repo, second()));
    }
    assert!(rt; !is_refused(rt, repo, third()));
}

/// An archive over the store lists five items in three parts; the token of the third is handed out with the second.
fn assert_handed_out<V: Versions + Drop>(rt: &impl Abort, alloc: Global, store: V, failed: bool) {
    let mut repo = archive(rt, alloc, store);
    assert_outcomes(rt, alloc, &mut repo, &list_of_five());
    assert_second_part(rt, &mut repo, failed);
}

/// The tenth call of the store is the one that reads the second part: the first makes the repository, each deposit takes one, and
/// the first part three.
#[test]
fn failed_part_hands_no_token_out(rt: HostRuntime) {
    let alloc = rt.alloc();
    let store = failing(PlainVersions::new(alloc), 10);
    assert_handed_out(&rt, alloc, store, true);
}

#[test]
fn answered_part_hands_its_token_out(rt: HostRuntime) {
    let alloc = rt.alloc();
    assert_handed_out(&rt, alloc, PlainVersions::new(alloc), false);
}
