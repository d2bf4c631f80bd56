//! One element put into a line or taken out of it, copy-on-write.
ghost use Rattle.std.specs.Prelude.{◌≡◌, ◌==◌, ◌+◌, ◌≤◌, [], ◌∷◌, Some, IfErr, IfOk, OnErr, OnOk, length, not, slice_index_or, slice_set, vec_capacity};
ghost use Rattle.std.specs.List.{insert, remove};
ghost use Rattle.oai_blocks.specs.Calls.{listed, place_of};
ghost use Rattle.oai_blocks.specs.Store.{HasBlock, HasElement, KeepsLines, SetsLine, block_of, copied_of, line_at, lines_of, names_of, room_of};

use crate::lines::BlockLines;
use std::alloc::{AllocError, Global};

impl<T: Drop + Clone, S: Drop> BlockLines<T, S> {
    /// Copies the block at `j` of the line if other lines name it too, and reserves the space for that many more
    /// elements in its own one. Returns whether it was copied. A clone of an element equals it. The error is out of
    /// memory; nothing has changed then.
    pub fn own_for(&mut self, v: usize, j: usize, more: usize) -> Result<bool, AllocError>
        requires block { HasBlock self.old v j }
        requires clones { (x y : T) → T.is_clone x y → y ≡ x }
        ensures copied { IfOk result (λ copied. copied ≡ not (names_of self.old v j == 1)) }
        ensures line { OnOk result (SetsLine v (lines_of self.old v) (copied_of self.old v j) [] self.old self.new) }
        ensures own { OnOk result (names_of self.new v j ≡ 1) }
        ensures room { OnOk result (length (block_of self.old v j) + more ≤ room_of self.new v j) }
        ensures err { OnErr result (KeepsLines self.old self.new) }
    {
        if self.is_own(v, j) {
            self.reserve_more(v, j, more)?;
            return Ok(false);
        }
        let copies = copies_of(self.alloc, self.block(v, j), more)?;
        if self.make_own(v, j, copies).is_err() {
            return Err(AllocError);
        }
        Ok(true)
    }

    /// Puts the element in before the one at `i` of the block at `j` of the line. A block that other lines name too is
    /// copied first. If memory runs out, hands the element back; nothing has changed then.
    pub fn put(&mut self, v: usize, j: usize, i: usize, item: T) -> Result<(), T>
        requires block { HasBlock self.old v j }
        requires within { i ≤ length (block_of self.old v j) }
        requires clones { (x y : T) → T.is_clone x y → y ≡ x }
        ensures line { OnOk result (SetsLine v (Some (slice_set (line_at self.old v) j (insert (block_of self.old v j) i item)))
            (item ∷ copied_of self.old v j) [] self.old self.new) }
        ensures list { OnOk result (listed (line_at self.new v) ≡ insert (listed (line_at self.old v)) (place_of (line_at self.old v) j i) item) }
        ensures own { OnOk result (names_of self.new v j ≡ 1) }
        ensures back { IfErr result (λ back. back ≡ item) }
        ensures err { OnErr result (KeepsLines self.old self.new) }
    {
        let Ok(mut others) = Vec::with_capacity(self.alloc, 1) else {
            return Err(item);
        };
        if self.own_for(v, j, 1).is_err() {
            return Err(item);
        }
        others.push_reserved(item);
        self.exchange(v, j, i, 0, &mut others);
        Ok(())
    }

    /// Takes the element at `i` of the block at `j` of the line out, and returns it. A block that other lines name too is
    /// copied first. The error is out of memory; nothing has changed then.
    pub fn take(&mut self, v: usize, j: usize, i: usize) -> Result<T, AllocError>
        requires element { HasElement self.old v j i }
        requires clones { (x y : T) → T.is_clone x y → y ≡ x }
        ensures line { IfOk result (λ item. SetsLine v (Some (slice_set (line_at self.old v) j (remove (block_of self.old v j) i)))
            (copied_of self.old v j) (item ∷ []) self.old self.new) }
        ensures list { OnOk result (listed (line_at self.new v) ≡ remove (listed (line_at self.old v)) (place_of (line_at self.old v) j i)) }
        ensures item { IfOk result (λ item. item ≡ slice_index_or (block_of self.old v j) i item) }
        ensures own { OnOk result (names_of self.new v j ≡ 1) }
        ensures err { OnErr result (KeepsLines self.old self.new) }
    {
        let mut others = Vec::with_capacity(self.alloc, 1)?;
        self.own_for(v, j, 0)?;
        self.exchange(v, j, i, 1, &mut others);
        Ok(others.take_last())
    }
}

/// Clones of the elements, with space for that many more. The error is out of memory.
fn copies_of<T: Drop + Clone>(alloc: Global, items: &[T], more: usize) -> Result<Vec<T>, AllocError>
    requires clones { (x y : T) → T.is_clone x y → y ≡ x }
    ensures items { IfOk result (λ copies. copies.items ≡ items.now) }
    ensures room { IfOk result (λ copies. length items.now + more ≤ vec_capacity copies) }
{
    let mut copies = Vec::from_clones(alloc, items)?;
    copies.reserve(more)?;
    Ok(copies)
}
