//! Exchanges one after the other, as one call of a host.
use oai_catalogue::Versions;
use oai_host::{Call, Host};
use oai_names::Sequence;
use std::alloc::{AllocError, Global};
use std::io::{self, Write};
use tests_fixtures::{ExchangeLine, body_of, exchange_in, write_exchanged};

/// Performs the lines up to each `run` as one run.
pub(crate) fn run_all<V: Versions + Drop>(
    alloc: Global,
    host: &mut Host<V>,
    lines: &str,
    out: &mut Vec<u8>,
) -> io::Result<()> {
    let mut calls = Vec::new(alloc);
    for line in lines.lines() {
        if line == "run" {
            run(host, calls.as_slice(), out)?;
            calls.clear();
        } else {
            push_call(alloc, line, &mut calls)?;
        }
    }
    Ok(())
}

/// Performs the calls, and writes their answers.
fn run<V: Versions + Drop>(
    host: &mut Host<V>,
    calls: &[Call],
    out: &mut Vec<u8>,
) -> io::Result<()> {
    match host.run(calls) {
        Ok(answers) => {
            for answer in answers.as_slice() {
                write_exchanged(answer, out)?;
            }
            Ok(())
        }
        Err(_) => out.write_all(b"out of memory\n"),
    }
}

/// Adds the call that the line describes.
fn push_call(alloc: Global, line: &str, calls: &mut Vec<Call>) -> Result<(), AllocError> {
    let Some(told) = exchange_in(line) else {
        return Ok(());
    };
    let body = body_of(alloc, told)?;
    let call = call_of(alloc, told, body.as_str())?;
    calls.push(call)?;
    Ok(())
}

/// The call of that body.
fn call_of(alloc: Global, told: ExchangeLine<'_>, body: &str) -> Result<Call, AllocError> {
    Ok(Call {
        moment: told.moment,
        method: bytes_of(alloc, told.method)?,
        target: bytes_of(alloc, told.target)?,
        content_type: type_of(alloc, told.content_type)?,
        body: bytes_of(alloc, body)?,
    })
}

/// The type, where there is one.
fn type_of(alloc: Global, told: Option<&str>) -> Result<Option<Sequence<u8>>, AllocError> {
    match told {
        Some(text) => Ok(Some(bytes_of(alloc, text)?)),
        None => Ok(None),
    }
}

fn bytes_of(alloc: Global, text: &str) -> Result<Sequence<u8>, AllocError> {
    Ok(Sequence::new(Vec::from_slice(alloc, text.as_bytes())?))
}
