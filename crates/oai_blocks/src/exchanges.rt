//! Swaps elements of a block for others, in place.
ghost use Rattle.std.specs.Prelude.{◌≡◌, ◌+◌, ◌-◌, ◌≤◌, ◌++◌, take, drop, reverse, vec_len, vec_capacity, OnOk};
ghost use Rattle.oai_blocks.specs.Naming.{KeepsRoom};

use std::alloc::AllocError;
use std::mem;

/// Reserves the space in which `exchange` of at most `back` elements for the others cannot fail, and neither can the
/// exchange back. The error is out of memory.
pub(crate) fn reserve<T: Drop>(
    items: &mut Vec<T>,
    others: &mut Vec<T>,
    back: usize,
) -> Result<(), AllocError>
    ensures items { items.new.items ≡ items.old.items }
    ensures others { others.new.items ≡ others.old.items }
    ensures len { vec_len items.new ≡ vec_len items.old }
    ensures others_len { vec_len others.new ≡ vec_len others.old }
    ensures capacity { vec_capacity items.old ≤ vec_capacity items.new }
    ensures room { OnOk result (vec_len items.new + vec_len others.new ≤ vec_capacity items.new) }
    ensures back { OnOk result (vec_len others.new + back ≤ vec_capacity others.new) }
{
    items.reserve(others.len())?;
    others.reserve(back)
}

/// Swaps `len` elements from `at` on for the others, which are the old ones then. It allocates nothing, and moves the
/// elements behind only if the number of elements changes.
pub(crate) fn exchange<T: Drop>(items: &mut Vec<T>, at: usize, len: usize, others: &mut Vec<T>)
    requires within { at + len ≤ vec_len items.old }
    requires room { vec_len items.old + vec_len others.old ≤ vec_capacity items.old }
    requires back { vec_len others.old + len ≤ vec_capacity others.old }
    ensures items { items.new.items
        ≡ take at items.old.items ++ (others.old.items ++ drop (at + len) items.old.items) }
    ensures others { others.new.items ≡ take len (drop at items.old.items) }
    ensures len { vec_len items.new + len ≡ vec_len items.old + vec_len others.old }
    ensures others_len { vec_len others.new ≡ len }
    ensures capacity { KeepsRoom items.old items.new others.old others.new }
{
    let count = others.len();
    let both = count.min(len);
    swap_all(items, at, others, both);
    if count > len {
        move_in(items, at + both, others, both);
    } else {
        move_out(items, at + both, len - both, others);
    }
}

/// Swaps `count` elements from `at` on for as many others, the first ones.
fn swap_all<T: Drop>(items: &mut Vec<T>, at: usize, others: &mut Vec<T>, count: usize)
    requires within { at + count ≤ vec_len items.old }
    requires others_within { count ≤ vec_len others.old }
    ensures items { items.new.items
        ≡ take at items.old.items ++ (take count others.old.items ++ drop (at + count) items.old.items) }
    ensures others { others.new.items
        ≡ take count (drop at items.old.items) ++ drop count others.old.items }
    ensures len { vec_len items.new ≡ vec_len items.old }
    ensures others_len { vec_len others.new ≡ vec_len others.old }
    ensures capacity { vec_capacity items.new ≡ vec_capacity items.old }
    ensures others_capacity { vec_capacity others.new ≡ vec_capacity others.old }
{
    'swapped: for i in 0..count {
        mem::swap(&mut items[at + i], &mut others[i]);
    }
}

/// Inserts the others from `from` on before the element at `at`.
fn move_in<T: Drop>(items: &mut Vec<T>, at: usize, others: &mut Vec<T>, from: usize)
    requires within { at ≤ vec_len items.old }
    requires others_within { from ≤ vec_len others.old }
    requires room { vec_len items.old + (vec_len others.old - from) ≤ vec_capacity items.old }
    ensures items { items.new.items
        ≡ take at items.old.items ++ (drop from others.old.items ++ drop at items.old.items) }
    ensures others { others.new.items ≡ take from others.old.items }
    ensures len { vec_len items.new ≡ vec_len items.old + (vec_len others.old - from) }
    ensures others_len { vec_len others.new ≡ from }
    ensures capacity { KeepsRoom items.old items.new others.old others.new }
{
    let behind = items.len() - at;
    move_last(others, from, items);
    rotate_from(items, at, behind);
}

/// Removes `count` elements from `at` on, and appends them to the others.
fn move_out<T: Drop>(items: &mut Vec<T>, at: usize, count: usize, others: &mut Vec<T>)
    requires within { at + count ≤ vec_len items.old }
    requires room { vec_len others.old + count ≤ vec_capacity others.old }
    ensures items { items.new.items ≡ take at items.old.items ++ drop (at + count) items.old.items }
    ensures others { others.new.items ≡ others.old.items ++ take count (drop at items.old.items) }
    ensures len { vec_len items.new + count ≡ vec_len items.old }
    ensures others_len { vec_len others.new ≡ vec_len others.old + count }
    ensures capacity { vec_capacity items.old ≤ vec_capacity items.new }
    ensures others_capacity { vec_capacity others.old ≤ vec_capacity others.new }
{
    rotate_from(items, at, count);
    let left = items.len() - count;
    move_last(items, left, others);
}

/// Moves the elements from `from` on to the end of the others, in O(how many they are).
pub(crate) fn move_last<T: Drop>(items: &mut Vec<T>, from: usize, others: &mut Vec<T>)
    requires within { from ≤ vec_len items.old }
    requires room { vec_len others.old + (vec_len items.old - from) ≤ vec_capacity others.old }
    ensures items { items.new.items ≡ take from items.old.items }
    ensures others { others.new.items ≡ others.old.items ++ drop from items.old.items }
    ensures len { vec_len items.new ≡ from }
    ensures others_len { vec_len others.new ≡ vec_len others.old + (vec_len items.old - from) }
    ensures capacity { vec_capacity items.new ≡ vec_capacity items.old }
    ensures others_capacity { vec_capacity others.new ≡ vec_capacity others.old }
{
    let start = others.len();
    'moved: while items.len() > from {
        let item = items.take_last();
        others.push_reserved(item);
    }
    reverse_from(others, start);
}

/// Reverses the order of the elements from `at` on.
fn reverse_from<T: Drop>(items: &mut Vec<T>, at: usize)
    requires within { at ≤ vec_len items.old }
    ensures items { items.new.items ≡ take at items.old.items ++ reverse (drop at items.old.items) }
    ensures len { vec_len items.new ≡ vec_len items.old }
    ensures capacity { vec_capacity items.new ≡ vec_capacity items.old }
{
    items[at..].reverse();
}

/// Moves the `count` elements from `at` on behind all others, in O(elements from `at` on). It allocates nothing.
fn rotate_from<T: Drop>(items: &mut Vec<T>, at: usize, count: usize)
    requires within { at + count ≤ vec_len items.old }
    ensures items { items.new.items
        ≡ take at items.old.items ++ (drop (at + count) items.old.items ++ take count (drop at items.old.items)) }
    ensures len { vec_len items.new ≡ vec_len items.old }
    ensures capacity { vec_capacity items.new ≡ vec_capacity items.old }
{
    items[at..].rotate_left(count);
}
