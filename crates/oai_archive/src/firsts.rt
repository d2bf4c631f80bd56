//! The first record of a journal: the program, the version, and the configuration.
ghost use Rattle.std.specs.Prelude.{◌≡◌, IfOk, IfSome, IsTrue, OnOk, string_bytes};
ghost use Rattle.oai_archive.specs.Firsts.{IsOf, IsSameConfig, IsWrittenFor, versioned_body, first_body, program};

use crate::stop::ServerStop;
use oai_bytes::read_number;
use oai_item::Forms;
use oai_journal::LogRecord;
use oai_json::read_json;
use serde_json::{Value, put};
use std::alloc::{AllocError, Global};

/// The name in the first record.
pub(crate) const PROGRAM: &[u8] = b"oaihostd";

/// The version in the first record, and the line end after it.
const FRONT: &[u8] = b"2\n";

/// The same of a journal of the version before, whose records are lists of fields alone.
const OLD_FRONT: &[u8] = b"1\n";

/// The version that this program writes. It reads 1 too.
pub const VERSION: u64 = 2;

/// The body of the first record of a new journal: the version, a line end, and the configuration. The error is out of memory.
pub(crate) fn write_first(alloc: Global, text: &[u8]) -> Result<Vec<u8>, AllocError>
    ensures { IfOk result (λ body. body.items ≡ first_body text.now) }
{
    let mut body = Vec::new(alloc);
    body.extend_from_slice(FRONT)?;
    body.extend_from_slice(text)?;
    Ok(body)
}

/// The forms of the records of the journal, if its first record has the configuration in the text, ignoring the size of
/// the cache. The errors are `NotOurs` and `OfVersion`, if the record is not this program's, or of another version of it,
/// and `NoMemory`.
pub(crate) fn forms_for(
    alloc: Global,
    first: &LogRecord<'_>,
    text: &[u8],
) -> Result<Option<Forms>, ServerStop>
    ensures { IfOk result (λ found. IfSome found
        (λ forms. IsOf forms first.now.name.now first.now.body.now text.now)) }
{
    match config_of(first) {
        Ok((forms, config)) => {
            if is_same(alloc, config, text)? {
                Ok(Some(forms))
            } else {
                Ok(None)
            }
        }
        Err(stop) => Err(stop),
    }
}

/// Whether two configurations are the same, ignoring the size of the cache. The error is out of memory.
#[tactic(auto, using(crate::proofs::FirstLemmas::same_written))]
fn is_same(alloc: Global, config: &[u8], text: &[u8]) -> Result<bool, AllocError>
    ensures { IfOk result (λ same. IsTrue same → IsSameConfig config.now text.now) }
{
    if config == text {
        return Ok(true);
    }
    match (without_cache(alloc, config)?, without_cache(alloc, text)?) {
        (Some(one), Some(other)) => Ok(one == other),
        _ => Ok(false),
    }
}

/// The configuration as compact JSON, with null as its member `cache`; `None` if it is no object. The error is out of
/// memory.
fn without_cache(alloc: Global, config: &[u8]) -> Result<Option<String>, AllocError>
    ensures { IfOk result (λ found. IfSome found (λ written. IsWrittenFor config.now (string_bytes written))) }
{
    match read_json(alloc, config)? {
        Some(Value::Object(mut members)) => {
            put(&mut members, alloc, "cache", Value::Null)?;
            Ok(Some(Value::Object(members).to_string(alloc)?))
        }
        _ => Ok(None),
    }
}

/// The forms of the journal's records, by its version, and the configuration in its first record. The errors are
/// `NotOurs` and `OfVersion`, if the record is not this program's, or of another version of it.
pub(crate) fn config_of<'a>(first: &LogRecord<'a>) -> Result<(Forms, &'a [u8]), ServerStop>
    ensures name { OnOk result (first.now.name.now ≡ program) }
    ensures body { IfOk result (λ found. first.now.body.now ≡ versioned_body found.0 found.1.now) }
{
    if first.name != PROGRAM {
        return Err(ServerStop::NotOurs);
    }
    match first.body.strip_prefix(FRONT) {
        Some(config) => Ok((Forms::Elements, config)),
        None => old_config_of(first.body),
    }
}

/// The same of a body that is not of this version.
fn old_config_of(body: &[u8]) -> Result<(Forms, &[u8]), ServerStop>
    ensures { IfOk result (λ found. body.now ≡ versioned_body found.0 found.1.now) }
{
    match body.strip_prefix(OLD_FRONT) {
        Some(config) => Ok((Forms::Fields, config)),
        None => Err(stop_of_version(body)),
    }
}

/// Why a journal whose first record has that body is not read.
fn stop_of_version(body: &[u8]) -> ServerStop {
    match version_in(body) {
        Some(version) if version != 1 && version != VERSION => ServerStop::OfVersion(version),
        _ => ServerStop::NotOurs,
    }
}

/// The version before the first line end.
fn version_in(body: &[u8]) -> Option<u64> {
    read_number(body.split(|b| *b == b'\n').next()?)
}
