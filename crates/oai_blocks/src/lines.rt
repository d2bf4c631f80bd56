//! Lines of elements in blocks that they share.
ghost use Rattle.std.specs.Prelude.{◌≡◌, ◌≢◌, ◌==◌, ◌+◌, ◌-◌, ◌<◌, ◌≤◌, ℕ, [], None, Some, IsFalse, IsSome, IfErr, IfOk, IfSome, OnErr, OnOk, drop, vec_capacity, vec_len, length, not, slice_set, sum_by, take};
ghost use Rattle.std.specs.List.{insert, remove};
ghost use Rattle.slab.specs.Slab.{slab_len};
ghost use Rattle.oai_blocks.specs.Blocks.{AreBlocked, items_at, items_out, names_at};
ghost use Rattle.oai_blocks.specs.Calls.{IsLineSet, cut_at, joined_at, listed, place_of, spliced};
ghost use Rattle.oai_blocks.specs.Props.{blocked_props};

use crate::blocks::{Block, Line};
use crate::shelves::{
    cut_items, drop_name, exchange_items, insert_number, name_all, number_for, remove_number,
    reserve_items, reserve_line, reserve_more, set_number,
};
use slab::Slab;
use std::alloc::{AllocError, Global};

/// Lines of elements, each kept as blocks that it may share with other lines. A note about its elements may be kept with a
/// block, as a database keeps zone maps; it goes when they change. There are at most 4,294,967,296 blocks: a call that needs
/// one more fails as if memory ran out.
#[derive(Drop)]
pub struct BlockLines<T, S> {
    pub(crate) alloc: Global,
    pub(crate) blocks: Slab<Block<T, S>>,
    lines: Slab<Line>,
    /// The lines that were dropped, and still have references to blocks.
    waiting: Vec<Line>,
    ghost blocked: { AreBlocked blocks.slots lines.slots waiting.items } by { Prim.hlevel blocked_props },
    ghost roomy: { slab_len lines + vec_len waiting ≤ vec_capacity waiting },
}

impl<T: Drop, S: Drop> BlockLines<T, S> {
    ghost use Rattle.oai_blocks.specs.Store.{CanExchange, CanJoin, HasBlock, KeepsLines, KeepsNotes, KeepsSharing, SetsLine, block_of, line_at, lines_of, names_of, number_of, room_of, steps_left, weight_of};

    /// No lines. Allocates nothing.
    pub fn new(alloc: Global) -> BlockLines<T, S>
        ensures lines { (v : ℕ) → lines_of result v ≡ None }
        ensures weight { (weigh : T → ℕ) → weight_of weigh result ≡ 0 }
        ensures steps { steps_left result ≡ 0 }
    {
        BlockLines {
            alloc,
            blocks: Slab::new(alloc),
            lines: Slab::new(alloc),
            waiting: Vec::new(alloc),
        }
    }

    /// A new line of no elements. The error is out of memory; nothing has changed then.
    pub fn begin(&mut self) -> Result<usize, AllocError>
        ensures fresh { IfOk result (λ v. lines_of self.old v ≡ None) }
        ensures line { IfOk result (λ v. SetsLine v (Some []) [] [] self.old self.new) }
        ensures err { OnErr result (KeepsLines self.old self.new) }
    {
        reserve_line(&mut self.lines, &mut self.waiting)?;
        let numbers = Vec::new(self.alloc);
        Ok(self.lines.insert_reserved(Line { numbers }))
    }

    /// A new line of the same blocks, each of which one line more names. The error is out of memory; nothing has changed
    /// then.
    pub fn copy(&mut self, v: usize) -> Result<usize, AllocError>
        requires { IsSome (lines_of self.old v) }
        ensures fresh { IfOk result (λ w. lines_of self.old w ≡ None) }
        ensures line { IfOk result (λ w. SetsLine w (lines_of self.old v) [] [] self.old self.new) }
        ensures err { OnErr result (KeepsLines self.old self.new) }
    {
        let Some(line) = self.lines.get(v) else {
            unreachable!()
        };
        let numbers = Vec::from_slice(self.alloc, line.numbers.as_slice())?;
        reserve_line(&mut self.lines, &mut self.waiting)?;
        name_all(&mut self.blocks, numbers.as_slice());
        Ok(self.lines.insert_reserved(Line { numbers }))
    }

    /// The number of blocks of the line, whose elements weigh no more than those of all blocks.
    pub fn len(&self, v: usize) -> usize
        requires { IsSome (lines_of self.now v) }
        ensures len { result ≡ length (line_at self.now v) }
        ensures weighs { (weigh : T → ℕ) → sum_by weigh (listed (line_at self.now v)) ≤ weight_of weigh self.now }
    {
        let Some(line) = self.lines.get(v) else {
            unreachable!()
        };
        line.numbers.len()
    }

    /// The elements of the block at `j` of the line.
    pub fn block(&self, v: usize, j: usize) -> &[T]
        requires { HasBlock self.now v j }
        ensures { result.now ≡ block_of self.now v j }
    {
        let number = self.number_of(v, j);
        let Some(block) = self.blocks.get(number) else {
            unreachable!()
        };
        block.items.as_slice()
    }

    /// Whether no other line names the block at `j` of the line, one that was dropped and waits included.
    pub fn is_own(&self, v: usize, j: usize) -> bool
        requires { HasBlock self.now v j }
        ensures own { result ≡ (names_of self.now v j == 1) }
        ensures shared { IsFalse result → 1 < names_of self.now v j }
    {
        let number = self.number_of(v, j);
        let Some(block) = self.blocks.get(number) else {
            unreachable!()
        };
        block.names == 1
    }

    /// The number of the block at `j` of the line.
    pub(crate) fn number_of(&self, v: usize, j: usize) -> usize
        requires { HasBlock self.now v j }
        ensures number { result ≡ number_of self.now v j }
        ensures stands { 0 < names_at self.now.blocks.slots result }
        ensures items { items_at self.now.blocks.slots result ≡ block_of self.now v j }
    {
        let Some(line) = self.lines.get(v) else {
            unreachable!()
        };
        line.numbers[j] as usize
    }

    /// Puts a block of the elements in before the one at `j` of the line. If memory runs out, hands them back; nothing
    /// has changed then.
    pub fn put_in(&mut self, v: usize, j: usize, items: Vec<T>) -> Result<(), Vec<T>>
        requires stands { IsSome (lines_of self.old v) }
        requires within { j ≤ length (line_at self.old v) }
        ensures line { OnOk result (SetsLine v (Some (insert (line_at self.old v) j items.items)) items.items [] self.old self.new) }
        ensures own { OnOk result (names_of self.new v j ≡ 1) }
        ensures back { IfErr result (λ back. back ≡ items) }
        ensures err { OnErr result (KeepsLines self.old self.new) }
    {
        if self.blocks.reserve(1).is_err() {
            return Err(items);
        }
        let Ok(number) = number_for(self.blocks.vacant_key()) else {
            return Err(items);
        };
        if insert_number(&mut self.lines, v, j, number).is_err() {
            return Err(items);
        }
        self.blocks.insert_reserved(Block::new(items));
        Ok(())
    }

    /// Takes the block at `j` out of the line. Returns its elements if no other line names it.
    pub fn take_out(&mut self, v: usize, j: usize) -> Option<Vec<T>>
        requires { HasBlock self.old v j }
        ensures line { SetsLine v (Some (remove (line_at self.old v) j)) [] (items_out result) self.old self.new }
        ensures out { IfSome result (λ out. out.items ≡ block_of self.old v j) }
        ensures last { (names_of self.old v j ≡ 1) → IsSome result }
        ensures before { (k : ℕ) → k < j → names_of self.new v k ≡ names_of self.old v k }
    {
        let number = remove_number(&mut self.lines, v, j);
        drop_name(&mut self.blocks, number)
    }

    /// Puts a block of copies of its elements in place of the block at `j` of the line, which other lines name too. If
    /// memory runs out, hands them back; nothing has changed then.
    pub fn make_own(&mut self, v: usize, j: usize, copies: Vec<T>) -> Result<(), Vec<T>>
        requires within { HasBlock self.old v j }
        requires shared { 1 < names_of self.old v j }
        ensures line { OnOk result (SetsLine v (Some (slice_set (line_at self.old v) j copies.items)) copies.items [] self.old self.new) }
        ensures own { OnOk result (names_of self.new v j ≡ 1) }
        ensures room { OnOk result (room_of self.new v j ≡ vec_capacity copies) }
        ensures others { OnOk result ((k : ℕ) → HasBlock self.old v k → k ≢ j → names_of self.new v k ≡ names_of self.old v k) }
        ensures back { IfErr result (λ back. back ≡ copies) }
        ensures err { OnErr result (KeepsLines self.old self.new) }
    {
        let shared = self.number_of(v, j);
        if self.blocks.reserve(1).is_err() {
            return Err(copies);
        }
        let Ok(own) = number_for(self.blocks.vacant_key()) else {
            return Err(copies);
        };
        drop_name(&mut self.blocks, shared);
        self.blocks.insert_reserved(Block::new(copies));
        set_number(&mut self.lines, v, j, own);
        Ok(())
    }

    /// Reserves the space in which `exchange` of at most `back` elements of the block at `j` of the line for the others
    /// cannot fail, and neither can the exchange back. The error is out of memory.
    pub fn reserve(
        &mut self,
        v: usize,
        j: usize,
        others: &mut Vec<T>,
        back: usize,
    ) -> Result<(), AllocError>
        requires { HasBlock self.old v j }
        ensures keeps { KeepsLines self.old self.new }
        ensures others { others.new.items ≡ others.old.items }
        ensures room { OnOk result (length (block_of self.old v j) + vec_len others.new ≤ room_of self.new v j) }
        ensures back { OnOk result (vec_len others.new + back ≤ vec_capacity others.new) }
    {
        let number = self.number_of(v, j);
        reserve_items(&mut self.blocks, number, others, back)
    }

    /// Swaps `len` elements of the block at `j` of the line, from `i` on, for the others, which are the old ones then. It
    /// allocates nothing and cannot fail.
    pub fn exchange(&mut self, v: usize, j: usize, i: usize, len: usize, others: &mut Vec<T>)
        requires { CanExchange v j i len others.old self.old }
        ensures line { SetsLine v (Some (slice_set (line_at self.old v) j (spliced i len others.old.items (block_of self.old v j)))) others.old.items others.new.items self.old self.new }
        ensures list { listed (line_at self.new v) ≡ spliced (place_of (line_at self.old v) j i) len others.old.items (listed (line_at self.old v)) }
        ensures gone { others.new.items ≡ take len (drop i (block_of self.old v j)) }
        ensures others_room { vec_capacity others.old ≤ vec_capacity others.new }
        ensures shared { KeepsSharing self.old self.new }
    {
        let number = self.number_of(v, j);
        exchange_items(&mut self.blocks, number, i, len, others);
    }

    /// Reserves the space for that many more elements in the block at `j` of the line. The error is out of memory.
    pub fn reserve_more(&mut self, v: usize, j: usize, more: usize) -> Result<(), AllocError>
        requires { HasBlock self.old v j }
        ensures keeps { KeepsLines self.old self.new }
        ensures room { OnOk result (length (block_of self.old v j) + more ≤ room_of self.new v j) }
    {
        let number = self.number_of(v, j);
        reserve_more(&mut self.blocks, number, more)
    }

    /// Cuts the block at `j` of the line, which no other line names, in two before its element at `i`. The error is out
    /// of memory; nothing has changed then.
    pub fn cut(&mut self, v: usize, j: usize, i: usize) -> Result<(), AllocError>
        requires block { HasBlock self.old v j }
        requires own { names_of self.old v j ≡ 1 }
        requires within { i ≤ length (block_of self.old v j) }
        ensures line { OnOk result (SetsLine v (Some (cut_at (line_at self.old v) j i)) [] [] self.old self.new) }
        ensures list { OnOk result (listed (line_at self.new v) ≡ listed (line_at self.old v)) }
        ensures names { OnOk result ((names_of self.new v j ≡ 1) × (names_of self.new v (j + 1) ≡ 1)) }
        ensures err { OnErr result (KeepsLines self.old self.new) }
    {
        let number = self.number_of(v, j);
        let _count = self.len(v);
        let more = self.block(v, j).len() - i;
        let mut tail = Vec::with_capacity(self.alloc, more)?;
        self.blocks.reserve(1)?;
        let next = number_for(self.blocks.vacant_key())?;
        if insert_number(&mut self.lines, v, j + 1, next).is_err() {
            return Err(AllocError);
        }
        cut_items(&mut self.blocks, number, i, &mut tail);
        self.blocks.insert_reserved(Block::new(tail));
        Ok(())
    }

    /// Moves the elements of the block behind the one at `j` of the line to its end. No other line names either. The
    /// error is out of memory; nothing has changed then.
    pub fn join(&mut self, v: usize, j: usize) -> Result<(), AllocError>
        requires { CanJoin v j self.old }
        ensures line { OnOk result (SetsLine v (Some (joined_at (line_at self.old v) j)) [] [] self.old self.new) }
        ensures list { OnOk result (listed (line_at self.new v) ≡ listed (line_at self.old v)) }
        ensures names { OnOk result (names_of self.new v j ≡ 1) }
        ensures err { OnErr result (KeepsLines self.old self.new) }
    {
        let _count = self.len(v);
        let next = j + 1;
        let len = self.block(v, j).len();
        let more = self.block(v, next).len();
        let mut others = Vec::new(self.alloc);
        self.reserve(v, next, &mut others, more)?;
        self.reserve_more(v, j, more)?;
        self.exchange(v, next, 0, more, &mut others);
        self.exchange(v, j, len, 0, &mut others);
        self.take_out(v, next);
        Ok(())
    }

    /// Drops the line. It keeps its references to blocks until `release` has dropped them.
    pub fn drop_line(&mut self, v: usize)
        requires { IsSome (lines_of self.old v) }
        ensures line { IsLineSet v None (lines_of self.old) (lines_of self.new) }
        ensures weight { (weigh : T → ℕ) → weight_of weigh self.new ≡ weight_of weigh self.old }
        ensures steps { steps_left self.new ≡ steps_left self.old + (1 + length (line_at self.old v)) }
        ensures notes { KeepsNotes self.old self.new }
    {
        let line = self.lines.remove(v);
        self.waiting.push_reserved(line);
    }

    /// One step for the lines that were dropped: drops a reference to a block. Returns the block's elements if no line
    /// names it now.
    pub fn release(&mut self) -> Option<Vec<T>>
        ensures lines { (v : ℕ) → lines_of self.new v ≡ lines_of self.old v }
        ensures weight { (weigh : T → ℕ) → weight_of weigh self.new + sum_by weigh (items_out result) ≡ weight_of weigh self.old }
        ensures steps { steps_left self.new ≡ steps_left self.old - 1 }
        ensures notes { KeepsNotes self.old self.new }
    {
        let Some(mut line) = self.waiting.pop() else {
            return None;
        };
        let Some(number) = line.numbers.pop() else {
            return None;
        };
        self.waiting.push_reserved(line);
        drop_name(&mut self.blocks, number as usize)
    }

    /// Whether a step is left for the lines that were dropped.
    pub fn is_waiting(&self) -> bool
        ensures { result ≡ not (steps_left self.now == 0) }
    {
        !self.waiting.is_empty()
    }
}
