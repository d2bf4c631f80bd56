//! Steps on blocks, and on the numbers of lines.
ghost use Rattle.std.specs.Prelude.{◌≡◌, ◌+◌, ◌^◌, ◌<◌, ◌≤◌, ℕ, [], ◌∷◌, ◌++◌, Some, IfOk, IfSome, IsOk, IsSome, OnErr, OnOk, drop, length, slice_index_or, slice_set, take, vec_capacity, vec_len};
ghost use Rattle.std.specs.List.{insert, remove};
ghost use Rattle.slab.specs.Slab.{HasRoomFor, slab_len};
ghost use Rattle.oai_blocks.specs.Blocks.{items_at, items_out, names_at, numbers_at, numbers_in, room_at, times_named};
ghost use Rattle.oai_blocks.specs.Calls.{spliced};
ghost use Rattle.oai_blocks.specs.Naming.{Alters, IsSlotSet, Turns};

use crate::blocks::{Block, Line};
use crate::exchanges::{exchange, move_last, reserve};
use slab::Slab;
use std::alloc::AllocError;

/// One line more names the block.
pub(crate) fn name_again<T: Drop, S: Drop>(blocks: &mut Slab<Block<T, S>>, number: usize)
    requires stands { 0 < names_at blocks.old.slots number }
    requires few { names_at blocks.old.slots number + 1 < 2 ^ 64 }
    ensures { Turns [] (number ∷ []) [] [] blocks.old.slots blocks.new.slots }
{
    let Some(block) = blocks.get_mut(number) else {
        unreachable!()
    };
    block.names += 1;
}

/// One line more names each of the blocks.
pub(crate) fn name_all<T: Drop, S: Drop>(blocks: &mut Slab<Block<T, S>>, numbers: &[u32])
    requires stand { (b : ℕ) → 0 < times_named b numbers.now → 0 < names_at blocks.old.slots b }
    requires few { (b : ℕ) → names_at blocks.old.slots b + 1 < 2 ^ 64 }
    requires once { (b : ℕ) → times_named b numbers.now ≤ 1 }
    ensures { Turns [] numbers.now [] [] blocks.old.slots blocks.new.slots }
{
    'named: for at in 0..numbers.len() {
        name_again(blocks, numbers[at] as usize);
    }
}

/// One line less names the block. Returns its elements if it was the last one.
pub(crate) fn drop_name<T: Drop, S: Drop>(
    blocks: &mut Slab<Block<T, S>>,
    number: usize,
) -> Option<Vec<T>>
    requires { 0 < names_at blocks.old.slots number }
    ensures turns { Turns (number ∷ []) [] [] (items_out result) blocks.old.slots blocks.new.slots }
    ensures out { IfSome result (λ out. out.items ≡ items_at blocks.old.slots number) }
    ensures last { names_at blocks.old.slots number ≡ 1 → IsSome result }
    ensures none { 1 < names_at blocks.old.slots number → items_out result ≡ [] }
    ensures shared { 1 < names_at blocks.old.slots number → slab_len blocks.new ≡ slab_len blocks.old }
    ensures capacity { blocks.new.capacity ≡ blocks.old.capacity }
    ensures vacant { 1 < names_at blocks.old.slots number → blocks.new.vacant_key ≡ blocks.old.vacant_key }
{
    let Some(block) = blocks.get_mut(number) else {
        unreachable!()
    };
    if block.names > 1 {
        block.names -= 1;
        return None;
    }
    Some(blocks.remove(number).items)
}

/// The number of the block at the key: 32 bits. The error is that they do not suffice, where there are 4,294,967,296
/// blocks.
pub(crate) fn number_for(key: usize) -> Result<u32, AllocError>
    ensures number { IfOk result (λ number. number ≡ key) }
    ensures succeeds { key < 2 ^ 32 → IsOk result }
{
    if key > u32::MAX as usize {
        return Err(AllocError);
    }
    Ok(key as u32)
}

/// Puts the number in place of the one at `at`.
pub(crate) fn set_number(lines: &mut Slab<Line>, v: usize, at: usize, number: u32)
    requires within { at < length (numbers_in (numbers_at lines.old.slots v)) }
    ensures set { IsSlotSet v (Some (slice_set (numbers_in (numbers_at lines.old.slots v)) at number)) lines.old.slots lines.new.slots }
    ensures len { slab_len lines.new ≡ slab_len lines.old }
{
    let Some(line) = lines.get_mut(v) else {
        unreachable!()
    };
    line.numbers[at] = number;
}

/// Puts the number in before the one at `at`. The error is out of memory.
pub(crate) fn insert_number(
    lines: &mut Slab<Line>,
    v: usize,
    at: usize,
    number: u32,
) -> Result<(), AllocError>
    requires stands { IsSome (numbers_at lines.old.slots v) }
    requires within { at ≤ length (numbers_in (numbers_at lines.old.slots v)) }
    ensures set { OnOk result (IsSlotSet v (Some (insert (numbers_in (numbers_at lines.old.slots v)) at number)) lines.old.slots lines.new.slots) }
    ensures err { OnErr result (IsSlotSet v (numbers_at lines.old.slots v) lines.old.slots lines.new.slots) }
    ensures len { slab_len lines.new ≡ slab_len lines.old }
{
    let Some(line) = lines.get_mut(v) else {
        unreachable!()
    };
    line.numbers.insert(at, number)?;
    Ok(())
}

/// Takes the number at `at` out, and returns it.
pub(crate) fn remove_number(lines: &mut Slab<Line>, v: usize, at: usize) -> usize
    requires within { at < length (numbers_in (numbers_at lines.old.slots v)) }
    ensures number { (d : ℕ) → slice_index_or (numbers_in (numbers_at lines.old.slots v)) at d ≡ result }
    ensures set { IsSlotSet v (Some (remove (numbers_in (numbers_at lines.old.slots v)) at)) lines.old.slots lines.new.slots }
    ensures len { slab_len lines.new ≡ slab_len lines.old }
{
    let Some(line) = lines.get_mut(v) else {
        unreachable!()
    };
    line.numbers.remove(at) as usize
}

/// Reserves the space for one line more, in use or dropped. The error is out of memory.
pub(crate) fn reserve_line(
    lines: &mut Slab<Line>,
    waiting: &mut Vec<Line>,
) -> Result<(), AllocError>
    ensures slots { lines.new.slots ≡ lines.old.slots }
    ensures items { waiting.new.items ≡ waiting.old.items }
    ensures len { vec_len waiting.new ≡ vec_len waiting.old }
    ensures capacity { vec_capacity waiting.old ≤ vec_capacity waiting.new }
    ensures room { OnOk result (HasRoomFor lines.new 1) }
    ensures waiting_room { OnOk result (slab_len lines.new + vec_len waiting.new + 1 ≤ vec_capacity waiting.new) }
    ensures fits { OnOk result (slab_len lines.new + vec_len waiting.new + 1 < 2 ^ 64) }
{
    lines.reserve(1)?;
    let more = lines.len().checked_add(1).ok_or(AllocError)?;
    waiting.reserve(more)?;
    let _room = waiting.capacity();
    Ok(())
}

/// Reserves the space in which `exchange_items` of at most `back` elements of the block for the others cannot fail, and
/// neither can the exchange back. The error is out of memory.
pub(crate) fn reserve_items<T: Drop, S: Drop>(
    blocks: &mut Slab<Block<T, S>>,
    number: usize,
    others: &mut Vec<T>,
    back: usize,
) -> Result<(), AllocError>
    requires { 0 < names_at blocks.old.slots number }
    ensures alters { Alters number (items_at blocks.old.slots number) blocks.old.slots blocks.new.slots }
    ensures others { others.new.items ≡ others.old.items }
    ensures room { OnOk result (length (items_at blocks.old.slots number) + vec_len others.new ≤ room_at blocks.new.slots number) }
    ensures back { OnOk result (vec_len others.new + back ≤ vec_capacity others.new) }
{
    let Some(block) = blocks.get_mut(number) else {
        unreachable!()
    };
    reserve(&mut block.items, others, back)
}

/// Reserves the space for that many more elements in the block. The error is out of memory.
pub(crate) fn reserve_more<T: Drop, S: Drop>(
    blocks: &mut Slab<Block<T, S>>,
    number: usize,
    more: usize,
) -> Result<(), AllocError>
    requires { 0 < names_at blocks.old.slots number }
    ensures alters { Alters number (items_at blocks.old.slots number) blocks.old.slots blocks.new.slots }
    ensures room { OnOk result (length (items_at blocks.old.slots number) + more ≤ room_at blocks.new.slots number) }
{
    let Some(block) = blocks.get_mut(number) else {
        unreachable!()
    };
    block.items.reserve(more)
}

/// Moves the elements of the block from `at` on to the tail.
pub(crate) fn cut_items<T: Drop, S: Drop>(
    blocks: &mut Slab<Block<T, S>>,
    number: usize,
    at: usize,
    tail: &mut Vec<T>,
)
    requires stands { 0 < names_at blocks.old.slots number }
    requires within { at ≤ length (items_at blocks.old.slots number) }
    requires room { vec_len tail.old + length (items_at blocks.old.slots number) ≤ at + vec_capacity tail.old }
    ensures alters { Alters number (take at (items_at blocks.old.slots number)) blocks.old.slots blocks.new.slots }
    ensures tail { tail.new.items ≡ tail.old.items ++ drop at (items_at blocks.old.slots number) }
    ensures len { slab_len blocks.new ≡ slab_len blocks.old }
    ensures capacity { blocks.new.capacity ≡ blocks.old.capacity }
    ensures vacant { blocks.new.vacant_key ≡ blocks.old.vacant_key }
{
    let Some(block) = blocks.get_mut(number) else {
        unreachable!()
    };
    block.note = None;
    move_last(&mut block.items, at, tail);
}

/// Swaps `len` elements of the block from `at` on for the others, which are the old ones then.
pub(crate) fn exchange_items<T: Drop, S: Drop>(
    blocks: &mut Slab<Block<T, S>>,
    number: usize,
    at: usize,
    len: usize,
    others: &mut Vec<T>,
)
    requires stands { 0 < names_at blocks.old.slots number }
    requires within { at + len ≤ length (items_at blocks.old.slots number) }
    requires room { length (items_at blocks.old.slots number) + vec_len others.old ≤ room_at blocks.old.slots number }
    requires back { vec_len others.old + len ≤ vec_capacity others.old }
    ensures alters { Alters number (spliced at len others.old.items (items_at blocks.old.slots number)) blocks.old.slots blocks.new.slots }
    ensures gone { others.new.items ≡ take len (drop at (items_at blocks.old.slots number)) }
    ensures others_len { vec_len others.new ≡ len }
    ensures others_room { vec_capacity others.old ≤ vec_capacity others.new }
{
    let Some(block) = blocks.get_mut(number) else {
        unreachable!()
    };
    block.note = None;
    exchange(&mut block.items, at, len, others);
}
