//! Twenty lives, one behind the other, as a model answers what is asked in them.
use crate::archives::{MemoryArchive, Setting};
use crate::written_lives::{configuration, lives};
use oai_http::{Answer, Exchange, FORM, Handler, Settled, Target};
use oai_item::Forms;
use std::alloc::Global;
use std::panic::Expect;
use std::process::Abort;

/// The 64-bit FNV-1a hash of the bytes.
fn hash_of(bytes: &[u8]) -> u64 {
    let mut hash = 0xcbf2_9ce4_8422_2325u64;
    for byte in bytes {
        hash = (hash ^ u64::from(*byte)).wrapping_mul(0x0100_0000_01b3);
    }
    hash
}

/// The first word of a text, and what stands behind the space behind it.
fn cut(text: &str) -> (&str, &str) {
    text.split_once(' ').unwrap_or((text, ""))
}

/// The number of a word.
fn number(rt: &impl Abort, word: &str) -> u64 {
    word.parse::<u64>().expect(rt, "a number")
}

/// What the handler answers to what the text asks.
fn answer_to<H: Handler>(rt: &impl Abort, handler: &mut H, text: &str) -> Answer {
    let (moment, text) = cut(text);
    let (method, text) = cut(text);
    let (target, body) = cut(text);
    let exchange = Exchange {
        method: method.as_bytes(),
        target: Target::new(target.as_bytes()),
        content_type: Some(FORM),
        authorization: None,
        body: body.as_bytes(),
    };
    handler.exchange(moment.parse::<i64>().expect(rt, "a moment"), &exchange)
}

/// The answer is the one that the text describes: its status, its seconds, and how many bytes of which hash its body
/// has.
fn assert_told(rt: &impl Abort, answer: &Answer, text: &str) {
    let (status, text) = cut(text);
    let (seconds, text) = cut(text);
    let (length, text) = cut(text);
    let (hash, _) = cut(text);
    assert!(rt; answer.fault.is_none());
    assert!(rt; u64::from(answer.status.number()) == number(rt, status));
    assert!(rt; answer.seconds == seconds.parse::<i64>().ok());
    assert!(rt; u64::try_from(answer.body.as_slice().len()) == Ok(number(rt, length)));
    assert!(rt; hash_of(answer.body.as_slice()) == number(rt, hash));
}

/// What the text asks, behind the four words that describe its answer.
fn asked(text: &str) -> &str {
    let (_, text) = cut(text);
    let (_, text) = cut(text);
    let (_, text) = cut(text);
    cut(text).1
}

/// Performs what the line asks, and settles.
fn live<H: Settled>(rt: &impl Abort, handler: &mut H, line: &str) {
    let answer = answer_to(rt, handler, asked(line));
    handler.settle().expect(rt, "settle");
    assert_told(rt, &answer, line);
}

/// Performs what the line asks, or ends, and goes on behind the end.
fn live_or_end(rt: &impl Abort, archive: &mut MemoryArchive, line: &str) {
    if line == "end" {
        archive.crash(rt);
    } else {
        live(rt, archive, line);
    }
}

/// All lives of the text.
fn live_all(rt: &impl Abort, archive: &mut MemoryArchive) {
    for line in lives().lines() {
        live_or_end(rt, archive, line);
    }
}

/// All lives of the text, over a cache of so many pages.
fn assert_lives(rt: &impl Abort, alloc: Global, cache: usize) {
    let setting = Setting {
        configuration: configuration(),
        forms: Forms::Fields,
        cache,
    };
    live_all(rt, &mut MemoryArchive::begun(rt, alloc, setting));
}

#[test]
fn twenty_lives(rt: HostRuntime) {
    for cache in [1usize, 2, 64] {
        assert_lives(&rt, rt.alloc(), cache);
    }
}
