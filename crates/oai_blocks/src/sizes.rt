//! How long blocks become: a block that has become too long is cut in two, and short neighbours are joined.
ghost use Rattle.std.specs.Prelude.{◌≡◌, ◌+◌, ◌/◌, [], Some, IfOk, OnErr, OnOk, if◌then◌else◌, length, nat_le, nat_lt};
ghost use Rattle.oai_blocks.specs.Calls.{cut_at, joined_at, listed};
ghost use Rattle.oai_blocks.specs.Store.{CanJoin, HasBlock, KeepsLines, SetsLine, block_of, line_at, names_of};

use crate::lines::BlockLines;
use std::alloc::AllocError;

/// The maximum number of elements of a block, above which it is cut in two.
pub const MAX_BLOCK: usize = 512;

/// Two neighbours that have so many elements together, or fewer, are joined.
pub const MAX_JOINED: usize = 128;

impl<T: Drop, S: Drop> BlockLines<T, S> {
    /// Cuts the block at `j` of the line, which no other line names, in halves if it has more than `most` elements.
    /// Returns whether it did. The error is out of memory; nothing has changed then.
    pub fn cut_long(&mut self, v: usize, j: usize, most: usize) -> Result<bool, AllocError>
        requires block { HasBlock self.old v j }
        requires own { names_of self.old v j ≡ 1 }
        ensures cut { IfOk result (λ cut. cut ≡ nat_lt most (length (block_of self.old v j))) }
        ensures line { IfOk result (λ cut. SetsLine v
            (Some (if cut then cut_at (line_at self.old v) j (length (block_of self.old v j) / 2) else line_at self.old v)) [] [] self.old self.new) }
        ensures list { OnOk result (listed (line_at self.new v) ≡ listed (line_at self.old v)) }
        ensures names { OnOk result (names_of self.new v j ≡ 1) }
        ensures err { OnErr result (KeepsLines self.old self.new) }
    {
        let len = self.block(v, j).len();
        if len <= most {
            return Ok(false);
        }
        self.cut(v, j, len / 2)?;
        Ok(true)
    }

    /// Joins the block at `j` of the line and the one behind it, which no other line names, if they have at most `most`
    /// elements together. Returns whether it did. The error is out of memory; nothing has changed then.
    pub fn join_short(&mut self, v: usize, j: usize, most: usize) -> Result<bool, AllocError>
        requires { CanJoin v j self.old }
        ensures joined { IfOk result (λ joined. joined ≡ nat_le (length (block_of self.old v j) + length (block_of self.old v (j + 1))) most) }
        ensures line { IfOk result (λ joined. SetsLine v
            (Some (if joined then joined_at (line_at self.old v) j else line_at self.old v)) [] [] self.old self.new) }
        ensures list { OnOk result (listed (line_at self.new v) ≡ listed (line_at self.old v)) }
        ensures names { OnOk result (names_of self.new v j ≡ 1) }
        ensures err { OnErr result (KeepsLines self.old self.new) }
    {
        let _count = self.len(v);
        let len = self.block(v, j).len();
        let more = self.block(v, j + 1).len();
        if len > most || more > most - len {
            return Ok(false);
        }
        self.join(v, j)?;
        Ok(true)
    }
}
