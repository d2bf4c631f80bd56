//! Exchanges whose bytes are no text, and the parts of an answer.
use crate::assertions::assert_same;
use crate::sample_host::host;
use oai_catalogue::{PlainVersions, Versions};
use oai_host::{Answer, Exchange, Host, Status, Target};
use std::alloc::Global;
use std::panic::Expect;
use std::process::Abort;
use tests_fixtures::wanted_in;

// ---- bytes that are no text

/// Methods, targets and types that are not in UTF-8, and what each is answered.
fn bytes_asked() -> [(&'static [u8], &'static [u8], Option<&'static [u8]>, Status); 7] {
    let sets = b"/oai/a?verb=ListSets";
    let form = b"\x0bapplication/x-www-form-urlencoded";
    [
        (b"GET", b"\xff", None, Status::BadRequest),
        (b"GET", b"/\xff", None, Status::NotFound),
        (b"GET", b"/oai/\xff", None, Status::NotFound),
        (b"GET", b"/oai/a\xff", None, Status::NotFound),
        (b"GET\xff", sets, None, Status::MethodNotAllowed),
        (b"POST", sets, Some(b"\xff"), Status::UnsupportedMediaType),
        (b"POST", sets, Some(form), Status::UnsupportedMediaType),
    ]
}

/// The answer is that status and body, and nothing else.
fn assert_answer(rt: &impl Abort, answer: &Answer, status: Status, body: &str) {
    assert_same(rt, answer.status, status);
    assert_same(rt, answer.seconds, None);
    assert_same(rt, answer.done, None);
    assert_same(rt, answer.fault, None);
    assert_same(rt, answer.body.as_slice(), body.as_bytes());
}

/// The host answers each with its status.
fn assert_statuses<V: Versions + Drop>(rt: &impl Abort, mut host: Host<V>) {
    for (method, target, content_type, status) in bytes_asked() {
        let exchange = Exchange {
            method,
            target: Target::new(target),
            content_type,
            authorization: None,
            body: b"",
        };
        let answer = host.exchange(1_704_067_200, &exchange);
        assert_answer(rt, &answer, status, "");
    }
}

#[test]
fn bytes_that_are_no_text(rt: HostRuntime) {
    let alloc = rt.alloc();
    let host = host(&rt, alloc, PlainVersions::new(alloc));
    assert_statuses(&rt, host);
}

// ---- the parts of answers

/// What a query of `b` that is performed is answered, each part of it.
fn assert_page<V: Versions + Drop>(rt: &impl Abort, alloc: Global, mut host: Host<V>) {
    let exchange = Exchange {
        method: b"GET",
        target: Target::new(b"/oai/b?verb=ListSets"),
        content_type: None,
        authorization: None,
        body: b"",
    };
    let wanted = wanted_in(alloc, no_sets()).expect(rt, "wanted_in");
    let answer = host.exchange(-5, &exchange);
    assert_answer(rt, &answer, Status::Ok, wanted.as_str());
}

fn no_sets() -> &'static str {
    r#"DOC <responseDate>2024-01-01T00:00:00Z</responseDate><request verb="ListSets">http://host.example/oai/b</request><error code="noSetHierarchy">The repository has no sets.</error></OAI-PMH>"#
}

#[test]
fn parts_of_an_answer(rt: HostRuntime) {
    let alloc = rt.alloc();
    let host = host(&rt, alloc, PlainVersions::new(alloc));
    assert_page(&rt, alloc, host);
}
