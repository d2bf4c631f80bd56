//! What queries ask for: the request and its parts, in the order in which `Ask` has them, `-` for one that was not given.
use crate::answers::Answer;
use crate::rows::Row;
use crate::times::{granularity_of, show_bound};
use oai_args::{ArgFault, Ask, BoundText, read_request};
use oai_names::{ListVerb, Text};
use oai_time::Granularity;
use std::alloc::{AllocError, Global};

/// Adds what the row is answered.
pub(crate) fn answer(alloc: Global, row: &Row<'_>, answer: &mut Answer) {
    match row.call {
        "read_request" => ask(alloc, row.bytes(1), granularity_of(row.text(0)), answer),
        "BoundText::bound" => from(alloc, row.bytes(1), granularity_of(row.text(0)), answer),
        "each-byte" => each_byte(alloc, row, answer),
        "each-two-bytes" => each_two_bytes(alloc, row.text(0), answer),
        "ArgFault::NoMemory" => answer.fault(ArgFault::NoMemory),
        _ => answer.word("no such call"),
    }
}

/// What the query asks for, or why it is refused.
fn ask(alloc: Global, query: &[u8], granularity: Granularity, answer: &mut Answer) {
    match read_request(alloc, query, granularity) {
        Ok(ask) => show_ask(&ask, answer),
        Err(fault) => answer.fault(fault),
    }
}

fn show_ask(ask: &Ask, answer: &mut Answer) {
    match ask {
        Ask::Identify => answer.word("Identify"),
        Ask::Formats { identifier } => {
            answer.word("ListMetadataFormats");
            show_text(identifier, answer);
        }
        Ask::Sets => answer.word("ListSets"),
        Ask::Get { identifier, prefix } => {
            answer.word("GetRecord");
            answer.text(identifier.as_str());
            answer.text(prefix.as_str());
        }
        Ask::List {
            verb,
            prefix,
            from,
            until,
            set,
        } => {
            answer.word(name_of(*verb));
            answer.text(prefix.as_str());
            show_given(from, answer);
            show_given(until, answer);
            show_text(set, answer);
        }
        Ask::Resume { verb, token } => {
            answer.word("resumed");
            answer.word(name_of(*verb));
            answer.text(token.as_str());
        }
    }
}

fn show_text(text: &Option<Text>, answer: &mut Answer) {
    match text {
        Some(text) => answer.text(text.as_str()),
        None => answer.word("-"),
    }
}

fn show_given(bound: &Option<BoundText>, answer: &mut Answer) {
    match bound {
        Some(bound) => answer.text(bound.as_str()),
        None => answer.word("-"),
    }
}

fn name_of(verb: ListVerb) -> &'static str {
    match verb {
        ListVerb::Identifiers => "ListIdentifiers",
        ListVerb::Records => "ListRecords",
        ListVerb::Sets => "ListSets",
    }
}

/// The bound beside the argument `from` of a list.
fn from(alloc: Global, query: &[u8], granularity: Granularity, answer: &mut Answer) {
    match read_request(alloc, query, granularity) {
        Ok(ask) => show_from(&ask, answer),
        Err(fault) => answer.fault(fault),
    }
}

fn show_from(ask: &Ask, answer: &mut Answer) {
    match ask {
        Ask::List {
            from: Some(from),
            ..
        } => show_bound(from.bound(), answer),
        _ => answer.word("-"),
    }
}

/// What the query is answered with each byte behind it, in two digits behind a `%` (URL Standard, section 5.1): a line a byte.
fn each_byte(alloc: Global, row: &Row<'_>, answer: &mut Answer) {
    for byte in 0..=255u8 {
        answer.begin_line("requests", row.name, byte);
        match escaped(alloc, row.text(0), byte) {
            Ok(query) => ask(alloc, query.as_bytes(), Granularity::Second, answer),
            Err(_) => answer.out_of_memory(),
        }
    }
}

/// The query with the byte behind it.
fn escaped(alloc: Global, query: &str, byte: u8) -> Result<String, AllocError> {
    format!(in alloc; "{query}%{byte:02X}")
}

/// With how many pairs of bytes behind a `%` the query is a request or has one of the two faults of arguments.
fn each_two_bytes(alloc: Global, query: &str, answer: &mut Answer) {
    let Ok(mut bytes) = Vec::from_slice(alloc, query.as_bytes()) else {
        return answer.out_of_memory();
    };
    let mut answered = 0u32;
    for first in 0..=255u8 {
        for second in 0..=255u8 {
            if is_answered(alloc, &mut bytes, first, second) {
                answered = answered.wrapping_add(1);
            }
        }
    }
    answer.value(answered);
}

/// Whether memory is there for what the query asks for with a `%` and the two bytes behind it. The query stays as it is.
fn is_answered(alloc: Global, query: &mut Vec<u8>, first: u8, second: u8) -> bool {
    let length = query.len();
    if query.extend_from_slice(&[b'%', first, second]).is_err() {
        return false;
    }
    let fault = read_request(alloc, query.as_slice(), Granularity::Second).err();
    query.truncate(length);
    fault != Some(ArgFault::NoMemory)
}
