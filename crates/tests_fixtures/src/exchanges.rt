//! Exchanges with a host as lines of a transcript: a moment, the method and the target with a space
//! between, and behind each of two ` | ` the type of the body, `-` where there is none, and the body; `¶`
//! in a body is a line end. An answer is the number of its status, what else it has, each with a word before
//! it, a line end, and its body.
use oai_http::{Answer, Exchange, Handler, Target};
use oai_item::Fault;
use std::alloc::{AllocError, Global};
use std::io::{self, Write};

/// An exchange and its moment, as a line has them.
#[derive(Clone, Copy)]
pub struct ExchangeLine<'a> {
    /// When it comes, in seconds from 1970 on.
    pub moment: i64,
    /// Its method.
    pub method: &'a str,
    /// Its target.
    pub target: &'a str,
    /// The type of its body; none where it has none.
    pub content_type: Option<&'a str>,
    /// Its body, in which each `¶` stands for a line end.
    pub body: &'a str,
}

/// The exchange in the line, and its moment; none where the line has no moment or no method.
pub fn exchange_in(line: &str) -> Option<ExchangeLine<'_>> {
    let mut parts = line.split(" | ");
    let mut words = parts.next().unwrap_or("").split(' ');
    let moment = words.next().unwrap_or("").parse::<i64>().ok()?;
    let method = words.next()?;
    let content_type = match parts.next() {
        Some("-") => None,
        other => other,
    };
    Some(ExchangeLine {
        moment,
        method,
        target: words.next().unwrap_or(""),
        content_type,
        body: parts.next().unwrap_or(""),
    })
}

/// The body, in which each `¶` is a line end. The error is out of memory.
pub fn body_of(alloc: Global, line: ExchangeLine<'_>) -> Result<String, AllocError> {
    line.body.replace(alloc, "¶", "\n")
}

/// What the handler answers to it, with that body.
pub fn answer_to<'x, H: Handler>(handler: &mut H, line: ExchangeLine<'x>, body: &'x str) -> Answer {
    let exchange = Exchange {
        method: line.method.as_bytes(),
        target: Target::new(line.target.as_bytes()),
        content_type: match line.content_type {
            Some(value) => Some(value.as_bytes()),
            None => None,
        },
        authorization: None,
        body: body.as_bytes(),
    };
    handler.exchange(line.moment, &exchange)
}

/// What a fault is called.
fn name_of(fault: Fault) -> &'static str {
    match fault {
        Fault::NoMemory => "NoMemory",
        Fault::Device => "Device",
        Fault::Damaged => "Damaged",
        Fault::TooManyPages => "TooManyPages",
    }
}

/// Writes an answer behind what the buffer has. The error is out of memory.
pub fn write_exchanged(answer: &Answer, output: &mut Vec<u8>) -> io::Result<()> {
    write!(output, "{}", answer.status.number())?;
    if let Some(seconds) = answer.seconds {
        write!(output, " after {seconds}")?;
    }
    if let Some(done) = answer.done {
        write!(output, " done {done}")?;
    }
    if let Some(fault) = answer.fault {
        write!(output, " for {}", name_of(fault))?;
    }
    output.write_all(b"\n")?;
    output.write_all(answer.body.as_slice())
}
