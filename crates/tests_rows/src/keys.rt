//! Keys of depositors: the key of a message, which messages are admitted, and how keys are read.
use crate::answers::Answer;
use crate::rows::Row;
use oai_config::{Config, ReadFault};
use oai_http::{Exchange, Target};
use oai_item::Forms;
use oai_keys::{KeysFault, Ring, bearer_key, is_admitted, read_keys, write_warnings};
use oai_names::Sequence;
use std::alloc::Global;
use tests_fixtures::worked_configuration;

/// The keys of the worked configuration: of `a` the digest of `abc`, of `b` that of the longer example, as FIPS 180-4 has them;
/// of `c` none.
const WORKED: &str = "{\"keys\":[\
{\"name\":\"a\",\"digests\":[\"ba7816bf8f01cfea414140de5dae2223b00361a396177a9cb410ff61f20015ad\"]},\
{\"name\":\"b\",\"digests\":[\"248d6a61d20638b8e5c026930c3e6039a33ce45964ff2167f6ecedd419db06c1\"]},\
{\"name\":\"c\",\"digests\":[]}]}";

/// Adds what the row is answered.
pub(crate) fn answer(alloc: Global, row: &Row<'_>, answer: &mut Answer) {
    match row.call {
        "bearer_key" => show_key(bearer_key(Some(row.bytes(0))), answer),
        "no_field" => show_key(bearer_key(None), answer),
        "is_admitted" => admits(alloc, row, answer),
        "read_keys" => show_rings(alloc, row.bytes(0), answer),
        "write_warnings" => warnings(alloc, row.bytes(0), answer),
        _ => answer.word("no such call"),
    }
}

fn show_key(key: Option<&[u8]>, answer: &mut Answer) {
    match key {
        Some(key) => answer.text(str::from_utf8(key).unwrap_or("?")),
        None => answer.word("-"),
    }
}

/// The configuration, and its keys in the text.
fn read(alloc: Global, text: &[u8]) -> Result<(Config, Sequence<Ring>), KeysFault> {
    let config = configuration(alloc)?;
    let rings = read_keys(alloc, text, &config)?;
    Ok((config, rings))
}

/// The worked configuration. The error is out of memory.
fn configuration(alloc: Global) -> Result<Config, KeysFault> {
    match Config::read(alloc, Forms::Fields, worked_configuration().as_bytes()) {
        Ok(config) => Ok(config),
        Err(ReadFault::NoMemory) => Err(KeysFault::NoMemory),
        Err(_) => Err(KeysFault::BadJson),
    }
}

/// Whether the keys of the worked configuration admit a message to a target, with a value of the field Authorization, if there is
/// one.
fn admits(alloc: Global, row: &Row<'_>, answer: &mut Answer) {
    let exchange = Exchange {
        method: b"POST",
        target: Target::new(row.bytes(0)),
        content_type: None,
        authorization: if row.len() > 1 {
            Some(row.bytes(1))
        } else {
            None
        },
        body: &[],
    };
    match read(alloc, WORKED.as_bytes()) {
        Ok((_, rings)) => answer.is(is_admitted(rings.as_slice(), &exchange)),
        Err(fault) => refused(fault, answer),
    }
}

/// How many rings are in the text; of each the name, and how many digests it has.
fn show_rings(alloc: Global, text: &[u8], answer: &mut Answer) {
    match read(alloc, text) {
        Ok((_, rings)) => {
            answer.value(rings.len());
            for ring in rings.as_slice() {
                answer.text(ring.name.as_str());
                answer.value(ring.digests.len());
            }
        }
        Err(fault) => refused(fault, answer),
    }
}

/// What is warned of with the keys in the text.
fn warnings(alloc: Global, text: &[u8], answer: &mut Answer) {
    match read(alloc, text) {
        Ok((config, rings)) => {
            let mut warnings = String::new(alloc);
            match write_warnings(&config, rings.as_slice(), &mut warnings) {
                Ok(()) => answer.text(warnings.as_str()),
                Err(_) => answer.out_of_memory(),
            }
        }
        Err(fault) => refused(fault, answer),
    }
}

fn refused(fault: KeysFault, answer: &mut Answer) {
    match fault {
        KeysFault::NoMemory => answer.out_of_memory(),
        fault => answer.fault(fault),
    }
}
