//! Finds the block of a line in which an element is.
ghost use Rattle.std.specs.Prelude.{◌≡◌, ◌+◌, ◌^◌, ◌<◌, ◌≤◌, IfNone, IfSome, IsSome, false, length, true};
ghost use Rattle.std.specs.Fn.{FnReturnsAt};
ghost use Rattle.oai_blocks.specs.Calls.{BeginsBy, listed, place_of};
ghost use Rattle.oai_blocks.specs.Store.{HasBlock, block_of, line_at, lines_of};

use crate::lines::BlockLines;

/// Where an element of a line is: in which of its blocks, and where there.
#[derive(Clone, Copy)]
pub struct BlockPlace {
    /// The place of the block in the line.
    pub block: usize,
    /// The place of the element in the block.
    pub at: usize,
}

impl<T: Drop, S: Drop> BlockLines<T, S> {
    /// The block of the element that has that many before it in the line, and its place there, in O(blocks). If the line
    /// has no such element, the block is behind the last one.
    pub fn place_at(&self, v: usize, before: usize) -> BlockPlace
        requires { IsSome (lines_of self.now v) }
        ensures bound { result.block ≤ length (line_at self.now v) }
        ensures within { HasBlock self.now v result.block → result.at < length (block_of self.now v result.block) }
        ensures place { place_of (line_at self.now v) result.block result.at ≡ before }
        ensures found { before < length (listed (line_at self.now v)) → HasBlock self.now v result.block }
    {
        let count = self.len(v);
        let mut block = 0;
        let mut at = before;
        'passed: while block < count {
            let len = self.block(v, block).len();
            if at < len {
                return BlockPlace { block, at };
            }
            at -= len;
            block += 1;
        }
        BlockPlace { block, at }
    }

    /// How many elements the line has before its block at `j`, in O(blocks). None if they are 2^64 or more.
    #[tactic(auto, using(crate::proofs::ListedLemmas::count_more, crate::proofs::ListedLemmas::count_less))]
    pub fn count_before(&self, v: usize, j: usize) -> Option<usize>
        requires line { IsSome (lines_of self.now v) }
        requires within { j ≤ length (line_at self.now v) }
        ensures count { IfSome result (λ count. count ≡ place_of (line_at self.now v) j 0) }
        ensures none { IfNone result (2 ^ 64 ≤ place_of (line_at self.now v) j 0) }
    {
        let mut count: usize = 0;
        'counted: for block in 0..j {
            let Some(more) = count.checked_add(self.block(v, block).len()) else {
                return None;
            };
            count = more;
        }
        Some(count)
    }

    /// A block of the line in whose first element the test still holds, or the first block, and the next one's first
    /// element, if there is one, fails it. The test holds in a block of no elements. Binary search, O(log blocks) tests.
    pub fn block_for<F: Fn(&T) -> bool>(&self, v: usize, holds: F) -> usize
        requires line { IsSome (lines_of self.now v) }
        requires test { F.IsAlwaysCallable holds }
        ensures within { 0 < length (line_at self.now v) → HasBlock self.now v result }
        ensures holds { 0 < result → BeginsBy (FnReturnsAt F.Fn holds) (block_of self.now v result) true }
        ensures behind { HasBlock self.now v (result + 1) → BeginsBy (FnReturnsAt F.Fn holds) (block_of self.now v (result + 1)) false }
    {
        let mut low = 0;
        let mut high = self.len(v);
        'halves: while high - low > 1 {
            let middle = low + (high - low) / 2;
            if self.begins_by(v, middle, &holds) {
                low = middle;
            } else {
                high = middle;
            }
        }
        low
    }

    /// Whether the test holds in the first element of the block at `j` of the line, or it has none.
    fn begins_by<F: Fn(&T) -> bool>(&self, v: usize, j: usize, holds: &F) -> bool
        requires block { HasBlock self.now v j }
        requires test { F.IsAlwaysCallable holds.now }
        ensures { BeginsBy (FnReturnsAt F.Fn holds.now) (block_of self.now v j) result }
    {
        match self.block(v, j).first() {
            Some(first) => holds(first),
            None => true,
        }
    }
}
