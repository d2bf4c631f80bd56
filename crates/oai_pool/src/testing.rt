//! Validates a page of items.
ghost use Rattle.std.specs.Prelude.{◌≡◌, ◌==◌, ◌≤◌, length, IfOk};
ghost use Rattle.std.specs.List.{list_all};
ghost use Rattle.oai_pool.specs.Kinds.{IsEntryTest, has_items, is_of, leading_number};

use crate::kinds::PageKind;
use oai_item::is_spelling;
use std::alloc::{AllocError, Global};

/// The length of a number on a page in bytes.
const NUMBER_BYTES: usize = 4;

/// Whether the page is of that kind. The error is out of memory, which an item in many sets may need.
pub(crate) fn is_of(alloc: Global, kind: PageKind, page: &[u8]) -> Result<bool, AllocError>
    requires { 4 ≤ length page.now }
    ensures { IfOk result (λ is. is ≡ is_of kind page.now) }
{
    match kind {
        PageKind::Items => has_items(alloc, page),
        PageKind::Bytes => Ok(true),
    }
}

/// Whether each entry of the page encodes an item, and only zeros follow them. The error is out of memory.
fn has_items(alloc: Global, page: &[u8]) -> Result<bool, AllocError>
    requires { 4 ≤ length page.now }
    ensures { IfOk result (λ has. has ≡ has_items page.now) }
{
    let mut rest = &page[NUMBER_BYTES..];
    'entries: for _ in 0..number_in(page) {
        match entry_len(alloc, rest)? {
            Some(len) => rest = &rest[len..],
            None => return Ok(false),
        }
    }
    Ok(are_zeros(rest))
}

/// Whether each of the bytes is 0. The loop ends only at the last byte, and a separate function returns what it finds,
/// so that it can be vectorized.
#[inline(never)]
pub fn are_zeros(bytes: &[u8]) -> bool
    ensures { result ≡ list_all (λ byte. byte == 0) bytes.now }
{
    let mut zeros = true;
    for byte in bytes {
        zeros = zeros & (*byte == 0);
    }
    zeros
}

/// The length of the entry at the start of the bytes, if it encodes an item; otherwise None. The error is out of
/// memory.
fn entry_len(alloc: Global, bytes: &[u8]) -> Result<Option<usize>, AllocError>
    ensures { IfOk result (λ len. IsEntryTest bytes.now len) }
{
    if bytes.len() < NUMBER_BYTES {
        return Ok(None);
    }
    let len = number_in(bytes);
    let rest = &bytes[NUMBER_BYTES..];
    if rest.len() < len {
        return Ok(None);
    }
    if !is_spelling(alloc, &rest[..len])? {
        return Ok(None);
    }
    Ok(Some(NUMBER_BYTES + len))
}

/// The number at the start of the bytes.
fn number_in(bytes: &[u8]) -> usize
    requires { 4 ≤ length bytes.now }
    ensures { result ≡ leading_number bytes.now }
{
    let mut number = [0; NUMBER_BYTES];
    number.copy_from_slice(&bytes[..NUMBER_BYTES]);
    u32::from_be_bytes(number) as usize
}
