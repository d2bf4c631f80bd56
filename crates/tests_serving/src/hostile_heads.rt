//! Heads that attack: each byte at each place of a small head.
use crate::recording_handler::answered;
use std::alloc::Global;
use std::panic::Expect;
use std::process::Abort;
use std::str::from_utf8;

const FOUND: &str = "HTTP/1.1 404 Not Found\r\nContent-Length: 0\r\n\r\n";

const LAST_FOUND: &str = "HTTP/1.1 404 Not Found\r\nConnection: close\r\nContent-Length: 0\r\n\r\n";

const BAD: &str = "HTTP/1.1 400 Bad Request\r\nConnection: close\r\nContent-Length: 0\r\n\r\n";

/// What a target is answered that does not begin with `/`.
const BAD_TARGET: &str = "HTTP/1.1 400 Bad Request\r\nContent-Length: 0\r\n\r\n";

/// A small head.
fn small_head() -> &'static [u8] {
    b"GET / HTTP/1.1\r\nHost: h\r\n\r\n"
}

/// That head with the byte at that place.
fn head_with(rt: &impl Abort, alloc: Global, at: usize, byte: u8) -> Vec<u8> {
    let mut head = Vec::from_slice(alloc, small_head()).expect(rt, "Vec::from_slice");
    match head.get_mut(at) {
        Some(place) => *place = byte,
        None => panic!(rt; "no place {at}"),
    }
    head
}

/// Whether that is one whole answer to such a head, and whether the connection closes behind it.
fn is_answer(answer: &str, closing: bool) -> bool {
    match answer {
        FOUND | BAD_TARGET => !closing,
        LAST_FOUND | BAD => closing,
        _ => false,
    }
}

/// The bytes are answered, once.
fn assert_numbered(rt: &impl Abort, answer: &[u8], closing: bool, at: usize) {
    let answer = from_utf8(answer).expect(rt, "from_utf8");
    assert!(rt; is_answer(answer, closing), "at {at}: {answer}");
}

/// The head is answered, if not at once then where as many bytes have come as a head may have.
fn assert_head(rt: &impl Abort, alloc: Global, at: usize, byte: u8) {
    let mut head = head_with(rt, alloc, at, byte);
    let (answer, closing) = answered(rt, alloc, &[head.as_slice()]);
    if !answer.is_empty() {
        return assert_numbered(rt, &answer, closing, at);
    }
    for _ in head.len()..16_384 {
        head.push(b'x').expect(rt, "memory");
    }
    let (answer, closing) = answered(rt, alloc, &[head.as_slice()]);
    assert_numbered(rt, &answer, closing, at);
}

#[test]
fn each_byte_at_each_place(rt: HostRuntime) {
    for at in 0..small_head().len() {
        for byte in 0..=255u8 {
            assert_head(&rt, rt.alloc(), at, byte);
        }
    }
}
