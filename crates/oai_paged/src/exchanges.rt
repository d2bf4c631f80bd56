//! Swaps leaves of a directory for others, in place.
ghost use Rattle.std.specs.Prelude.{◌≡◌, ◌+◌, ◌-◌, ◌≤◌, ◌++◌, take, drop, vec_len, vec_capacity, OnOk};
ghost use Rattle.oai_paged.specs.Changes.{KeepCapacity};
ghost use Rattle.oai_places.specs.declared.sizes.TheConstants.{MAX_REPLACED};

use oai_places::{MAX_REPLACED, SharedPlace};
use std::alloc::AllocError;
use std::mem;

/// Reserves the space in which `exchange` of at most three leaves for the others cannot fail, and neither can the
/// exchange back. The error is out of memory.
pub(crate) fn reserve(
    places: &mut Vec<SharedPlace>,
    others: &mut Vec<SharedPlace>,
) -> Result<(), AllocError>
    ensures places { places.new.items ≡ places.old.items }
    ensures others { others.new.items ≡ others.old.items }
    ensures len { vec_len places.new ≡ vec_len places.old }
    ensures others_len { vec_len others.new ≡ vec_len others.old }
    ensures capacity { vec_capacity places.old ≤ vec_capacity places.new }
    ensures room { OnOk result (vec_len places.new + vec_len others.new ≤ vec_capacity places.new) }
    ensures back { OnOk result (vec_len others.new + MAX_REPLACED ≤ vec_capacity others.new) }
{
    places.reserve(others.len())?;
    others.reserve(MAX_REPLACED)
}

/// Swaps `len` leaves from `at` on for the others, which are the old ones then. It allocates nothing, and moves the
/// leaves behind only if the number of leaves changes.
pub(crate) fn exchange(
    places: &mut Vec<SharedPlace>,
    at: usize,
    len: usize,
    others: &mut Vec<SharedPlace>,
)
    requires within { at + len ≤ vec_len places.old }
    requires room { vec_len places.old + vec_len others.old ≤ vec_capacity places.old }
    requires back { vec_len others.old + len ≤ vec_capacity others.old }
    ensures places { places.new.items
        ≡ take at places.old.items ++ (others.old.items ++ drop (at + len) places.old.items) }
    ensures others { others.new.items ≡ take len (drop at places.old.items) }
    ensures len { vec_len places.new + len ≡ vec_len places.old + vec_len others.old }
    ensures others_len { vec_len others.new ≡ len }
    ensures capacity { KeepCapacity places.old others.old places.new others.new }
{
    let count = others.len();
    let both = count.min(len);
    swap_all(places, at, others, both);
    if count > len {
        move_in(places, at + both, others, both);
    } else {
        move_out(places, at + both, len - both, others);
    }
}

/// Swaps `count` leaves from `at` on for as many others, the first ones.
fn swap_all(places: &mut Vec<SharedPlace>, at: usize, others: &mut Vec<SharedPlace>, count: usize)
    requires within { at + count ≤ vec_len places.old }
    requires others_within { count ≤ vec_len others.old }
    ensures places { places.new.items
        ≡ take at places.old.items ++ (take count others.old.items ++ drop (at + count) places.old.items) }
    ensures others { others.new.items
        ≡ take count (drop at places.old.items) ++ drop count others.old.items }
    ensures len { vec_len places.new ≡ vec_len places.old }
    ensures others_len { vec_len others.new ≡ vec_len others.old }
    ensures capacity { vec_capacity places.new ≡ vec_capacity places.old }
    ensures others_capacity { vec_capacity others.new ≡ vec_capacity others.old }
{
    'swapped: for i in 0..count {
        mem::swap(&mut places[at + i], &mut others[i]);
    }
}

/// Inserts the others from `from` on before the leaf at `at`.
fn move_in(places: &mut Vec<SharedPlace>, at: usize, others: &mut Vec<SharedPlace>, from: usize)
    requires within { at ≤ vec_len places.old }
    requires others_within { from ≤ vec_len others.old }
    requires room { vec_len places.old + (vec_len others.old - from) ≤ vec_capacity places.old }
    ensures places { places.new.items
        ≡ take at places.old.items ++ (drop from others.old.items ++ drop at places.old.items) }
    ensures others { others.new.items ≡ take from others.old.items }
    ensures len { vec_len places.new ≡ vec_len places.old + (vec_len others.old - from) }
    ensures others_len { vec_len others.new ≡ from }
    ensures capacity { KeepCapacity places.old others.old places.new others.new }
{
    'others: while others.len() > from {
        let place = others.remove(others.len() - 1);
        places.insert(at, place).unwrap();
    }
}

/// Removes `count` leaves from `at` on, and appends them to the others.
fn move_out(places: &mut Vec<SharedPlace>, at: usize, count: usize, others: &mut Vec<SharedPlace>)
    requires within { at + count ≤ vec_len places.old }
    requires room { vec_len others.old + count ≤ vec_capacity others.old }
    ensures places { places.new.items ≡ take at places.old.items ++ drop (at + count) places.old.items }
    ensures others { others.new.items ≡ others.old.items ++ take count (drop at places.old.items) }
    ensures len { vec_len places.new + count ≡ vec_len places.old }
    ensures others_len { vec_len others.new ≡ vec_len others.old + count }
    ensures capacity { KeepCapacity places.old others.old places.new others.new }
{
    'moved: for i in 0..count {
        let place = places.remove(at);
        others.push(place).unwrap();
    }
}
