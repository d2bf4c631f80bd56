//! Exchanges one after the other, as one call.
use crate::sample_host::host;
use oai_catalogue::Versions;
use oai_host::{Answer, Call};
use oai_names::Sequence;
use std::alloc::Global;
use std::panic::Expect;
use std::process::Abort;
use tests_fixtures::{ExchangeLine, body_of, exchange_in};

// ---- calls

fn bytes_of(rt: &impl Abort, alloc: Global, text: &str) -> Sequence<u8> {
    let mut bytes = Vec::new(alloc);
    bytes
        .extend_from_slice(text.as_bytes())
        .expect(rt, "memory");
    Sequence::new(bytes)
}

/// A call of that moment, method, target, type and body.
pub(crate) fn call(
    rt: &impl Abort,
    alloc: Global,
    moment: i64,
    method: &str,
    target: &str,
    content_type: Option<&str>,
    body: &str,
) -> Call {
    Call {
        moment,
        method: bytes_of(rt, alloc, method),
        target: bytes_of(rt, alloc, target),
        content_type: match content_type {
            Some(value) => Some(bytes_of(rt, alloc, value)),
            None => None,
        },
        body: bytes_of(rt, alloc, body),
    }
}

/// The call that the line describes.
fn call_of(rt: &impl Abort, alloc: Global, line: &str) -> Call {
    let line = exchange_in(line).expect(rt, "exchange_in");
    let body = body_of(alloc, line).expect(rt, "body_of");
    let ExchangeLine {
        moment,
        method,
        target,
        content_type,
        ..
    } = line;
    call(
        rt,
        alloc,
        moment,
        method,
        target,
        content_type,
        body.as_str(),
    )
}

/// The exchanges of the transcript.
pub(crate) fn calls_in(rt: &impl Abort, alloc: Global, transcript: &str) -> Vec<Call> {
    let mut calls = Vec::new(alloc);
    for line in transcript.lines() {
        if let Some(asked) = line.strip_prefix("> ") {
            calls.push(call_of(rt, alloc, asked)).expect(rt, "memory");
        }
    }
    calls
}

// ---- their answers

/// What a new host over the store answers to them.
pub(crate) fn answers_to<V: Versions + Drop>(
    rt: &impl Abort,
    alloc: Global,
    store: V,
    calls: &[Call],
) -> Sequence<Answer> {
    let mut host = host(rt, alloc, store);
    host.run(calls).expect(rt, "run")
}
