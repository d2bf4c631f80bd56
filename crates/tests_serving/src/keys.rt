//! A handler behind keys (`oai_keys`), over the handler that repeats what it was asked: what is denied does not reach it.
use crate::assertions::assert_same_at;
use oai_http::{Answer, Exchange, Handler, Status, Target};
use oai_keys::{Guarded, Ring};
use oai_names::{Sequence, Text};
use std::alloc::Global;
use std::panic::Expect;
use std::process::Abort;
use tests_fixtures::{Teller, unasked};

/// The digest of `abc` (FIPS 180-4).
const DIGEST: [u8; 32] = [
    0xba, 0x78, 0x16, 0xbf, 0x8f, 0x01, 0xcf, 0xea, 0x41, 0x41, 0x40, 0xde, 0x5d, 0xae, 0x22, 0x23,
    0xb0, 0x03, 0x61, 0xa3, 0x96, 0x17, 0x7a, 0x9c, 0xb4, 0x10, 0xff, 0x61, 0xf2, 0x00, 0x15, 0xad,
];

/// The ring of `a`, with that digest.
fn rings(rt: &impl Abort, alloc: Global) -> Sequence<Ring> {
    let mut digests = Vec::new(alloc);
    digests.push(DIGEST).expect(rt, "push");
    let mut rings = Vec::new(alloc);
    let name = Text::new(alloc, "a").expect(rt, "Text::new");
    let digests = Sequence::new(digests);
    rings.push(Ring { name, digests }).expect(rt, "push");
    Sequence::new(rings)
}

/// What is answered to a message at the moment 7, with that value of the field Authorization, or without the field if it is empty.
fn told<'a, H: Handler>(
    handler: &mut H,
    method: &'a str,
    target: &'a str,
    authorization: &'a str,
) -> Answer {
    let exchange = Exchange {
        method: method.as_bytes(),
        target: Target::new(target.as_bytes()),
        content_type: None,
        authorization: if authorization.is_empty() {
            None
        } else {
            Some(authorization.as_bytes())
        },
        body: b"",
    };
    handler.exchange(7, &exchange)
}

/// It is denied: 401, and nothing else.
fn assert_denied<'a, H: Handler>(
    rt: &impl Abort,
    handler: &mut H,
    method: &'a str,
    target: &'a str,
    authorization: &'a str,
) {
    let answer = told(handler, method, target, authorization);
    assert_same_at(rt, answer.status, Status::Unauthorized, authorization);
    assert_same_at(rt, answer.body.len(), 0, authorization);
}

/// It reaches the handler, as the first message.
fn assert_first<'a, H: Handler>(
    rt: &impl Abort,
    handler: &mut H,
    target: &'a str,
    authorization: &'a str,
    wanted: &str,
) {
    let answer = told(handler, "POST", target, authorization);
    assert_same_at(rt, answer.status, Status::Ok, target);
    assert_same_at(rt, answer.body.as_slice(), wanted.as_bytes(), target);
}

/// The handler that repeats, behind that ring.
fn guarded(rt: &impl Abort, alloc: Global) -> Guarded<Teller> {
    Guarded::new(alloc, unasked(alloc), rings(rt, alloc))
}

#[test]
fn denied_messages_do_not_reach_the_handler(rt: HostRuntime) {
    let mut handler = guarded(&rt, rt.alloc());
    assert_all_denied(&rt, &mut handler);
    assert_first(
        &rt,
        &mut handler,
        "/deposit/a",
        "bearer abc",
        "1 7 POST [-] bearer abc",
    );
}

fn assert_all_denied<H: Handler>(rt: &impl Abort, handler: &mut H) {
    for authorization in ["", "Basic abc", "Bearer ", "Bearer abd", "abc"] {
        assert_denied(rt, handler, "POST", "/deposit/a", authorization);
    }
    assert_denied(rt, handler, "GET", "/deposit/a", "");
    assert_denied(rt, handler, "POST", "/deposit/a?b", "");
}

#[test]
fn requests_reach_the_handler_without_a_key(rt: HostRuntime) {
    let mut handler = guarded(&rt, rt.alloc());
    assert_first(&rt, &mut handler, "/oai/a", "", "1 7 POST [-] ");
}
