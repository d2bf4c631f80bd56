//! Two lines of numbers, each of which changes beside the other. Each call that runs out of memory is made again: as it has changed
//! nothing, what a test finds is the same.
ghost use Rattle.std.specs.Prelude.{◌≡◌, IsSome};
ghost use Rattle.oai_blocks.specs.Store.{lines_of};

use oai_blocks::{BlockLines, BlockPlace};
use std::alloc::{AllocError, Global};
use std::mem;
use std::process::Abort;

/// Lines, and two of them: the one at hand, of which the calls speak, and the other one.
#[derive(Drop)]
pub(crate) struct TwoLines {
    alloc: Global,
    lines: BlockLines<u32, u32>,
    own: usize,
    other: usize,
    ghost own_stands: { IsSome (lines_of lines own) },
    ghost other_stands: { IsSome (lines_of lines other) },
}

/// A vector of the numbers. Where memory is refused once, it is there at the second time.
fn vec_of(rt: &impl Abort, alloc: Global, numbers: &[u32]) -> Vec<u32> {
    match Vec::from_slice(alloc, numbers) {
        Ok(vec) => vec,
        Err(_) => {
            let Ok(vec) = Vec::from_slice(alloc, numbers) else {
                panic!(rt; "out of memory")
            };
            vec
        }
    }
}

/// The number at a place, or the greatest one behind all.
fn nth(numbers: &[u32], at: usize) -> u32 {
    if at < numbers.len() {
        numbers[at]
    } else {
        u32::MAX
    }
}

impl TwoLines {
    /// Two lines of no elements.
    pub(crate) fn new(rt: &impl Abort, alloc: Global) -> TwoLines {
        let mut lines = BlockLines::new(alloc);
        let own = begin(rt, &mut lines);
        let other = copy(rt, &mut lines, own);
        TwoLines {
            alloc,
            lines,
            own,
            other,
        }
    }

    /// The other line is at hand from now on.
    pub(crate) fn turn(&mut self) {
        mem::swap(&mut self.own, &mut self.other);
    }

    /// The other line is dropped, and a copy of the one at hand takes its place.
    pub(crate) fn freeze(&mut self, rt: &impl Abort) {
        if self.try_freeze(rt).is_err() {
            assert!(rt; self.try_freeze(rt).is_ok());
        }
    }

    fn try_freeze(&mut self, rt: &impl Abort) -> Result<(), AllocError> {
        match self.lines.copy(self.own) {
            Ok(frozen) => {
                assert!(rt; self.other != self.own && self.other != frozen && self.own != frozen);
                self.lines.drop_line(self.other);
                self.other = frozen;
                Ok(())
            }
            Err(error) => Err(error),
        }
    }

    /// How many blocks the line has.
    pub(crate) fn len(&self) -> usize {
        self.lines.len(self.own)
    }

    /// The elements of a block.
    pub(crate) fn block(&self, rt: &impl Abort, j: usize) -> &[u32] {
        assert!(rt; j < self.lines.len(self.own));
        self.lines.block(self.own, j)
    }

    /// Whether no other line names the block.
    pub(crate) fn is_own(&self, rt: &impl Abort, j: usize) -> bool {
        assert!(rt; j < self.lines.len(self.own));
        self.lines.is_own(self.own, j)
    }

    /// The note about the elements of the block.
    pub(crate) fn note(&self, rt: &impl Abort, j: usize) -> Option<u32> {
        assert!(rt; j < self.lines.len(self.own));
        self.lines.note(self.own, j).copied()
    }

    /// A note about the elements of the block is kept.
    pub(crate) fn set_note(&mut self, rt: &impl Abort, j: usize, note: u32) {
        assert!(rt; self.own != self.other && j < self.lines.len(self.own));
        self.lines.set_note(self.own, j, note);
    }

    /// The line has these elements, and a 0 behind those of each block.
    pub(crate) fn assert_line(&self, rt: &impl Abort, wanted: &[u32]) {
        let mut at = 0;
        for j in 0..self.len() {
            at = assert_block(rt, self.block(rt, j), wanted, at);
        }
        assert!(rt; at == wanted.len());
    }

    /// A block of the numbers comes before the one at `j`.
    pub(crate) fn put_in(&mut self, rt: &impl Abort, j: usize, numbers: &[u32]) {
        let items = vec_of(rt, self.alloc, numbers);
        if let Err(back) = self.try_put_in(rt, j, items) {
            assert!(rt; back.as_slice() == numbers);
            assert!(rt; self.try_put_in(rt, j, back).is_ok());
        }
    }

    fn try_put_in(&mut self, rt: &impl Abort, j: usize, items: Vec<u32>) -> Result<(), Vec<u32>> {
        assert!(rt; self.own != self.other && j <= self.lines.len(self.own));
        match self.lines.put_in(self.own, j, items) {
            Ok(()) => Ok(()),
            Err(back) => Err(back),
        }
    }

    /// The block is taken out: its elements, or none where another line still names it.
    pub(crate) fn take_out(&mut self, rt: &impl Abort, j: usize) -> Vec<u32> {
        assert!(rt; self.own != self.other && j < self.lines.len(self.own));
        match self.lines.take_out(self.own, j) {
            Some(out) => out,
            None => Vec::new(self.alloc),
        }
    }

    /// The block, which the other line names too, is copied.
    pub(crate) fn make_own(&mut self, rt: &impl Abort, j: usize) {
        let copies = vec_of(rt, self.alloc, self.block(rt, j));
        if let Err(back) = self.try_make_own(rt, j, copies) {
            assert!(rt; back.as_slice() == self.block(rt, j));
            assert!(rt; self.try_make_own(rt, j, back).is_ok());
        }
    }

    fn try_make_own(
        &mut self,
        rt: &impl Abort,
        j: usize,
        copies: Vec<u32>,
    ) -> Result<(), Vec<u32>> {
        assert!(rt; self.own != self.other && j < self.lines.len(self.own));
        assert!(rt; !self.lines.is_own(self.own, j));
        match self.lines.make_own(self.own, j, copies) {
            Ok(()) => Ok(()),
            Err(back) => Err(back),
        }
    }

    /// So many elements of the block from `i` on are replaced by the numbers: the old ones.
    pub(crate) fn exchange(
        &mut self,
        rt: &impl Abort,
        j: usize,
        i: usize,
        len: usize,
        numbers: &[u32],
    ) -> Vec<u32> {
        let mut others = vec_of(rt, self.alloc, numbers);
        if self.try_exchange(rt, (j, i, len), &mut others).is_err() {
            assert!(rt; self.try_exchange(rt, (j, i, len), &mut others).is_ok());
        }
        others
    }

    fn try_exchange(
        &mut self,
        rt: &impl Abort,
        at: (usize, usize, usize),
        others: &mut Vec<u32>,
    ) -> Result<(), AllocError> {
        let (j, i, len) = at;
        assert!(rt; self.own != self.other && j < self.lines.len(self.own));
        assert!(rt; self.lines.is_own(self.own, j));
        let count = self.lines.block(self.own, j).len();
        assert!(rt; i <= count && len <= count - i);
        match self.lines.reserve(self.own, j, others, len) {
            Ok(()) => {
                self.lines.exchange(self.own, j, i, len, others);
                Ok(())
            }
            Err(error) => Err(error),
        }
    }

    /// The block is cut in two before its element at `i`.
    pub(crate) fn cut(&mut self, rt: &impl Abort, j: usize, i: usize) {
        if self.try_cut(rt, j, i).is_err() {
            assert!(rt; self.try_cut(rt, j, i).is_ok());
        }
    }

    fn try_cut(&mut self, rt: &impl Abort, j: usize, i: usize) -> Result<(), AllocError> {
        assert!(rt; self.own != self.other && j < self.lines.len(self.own));
        assert!(rt; self.lines.is_own(self.own, j) && i <= self.lines.block(self.own, j).len());
        match self.lines.cut(self.own, j, i) {
            Ok(()) => Ok(()),
            Err(error) => Err(error),
        }
    }

    /// The block and the one behind it become one.
    pub(crate) fn join(&mut self, rt: &impl Abort, j: usize) {
        if self.try_join(rt, j).is_err() {
            assert!(rt; self.try_join(rt, j).is_ok());
        }
    }

    fn try_join(&mut self, rt: &impl Abort, j: usize) -> Result<(), AllocError> {
        assert!(rt; self.own != self.other && j < 1_000 && j + 1 < self.lines.len(self.own));
        assert!(rt; self.lines.is_own(self.own, j) && self.lines.is_own(self.own, j + 1));
        match self.lines.join(self.own, j) {
            Ok(()) => Ok(()),
            Err(error) => Err(error),
        }
    }

    /// The block is cut in halves if it has more than `most` elements.
    pub(crate) fn cut_long(&mut self, rt: &impl Abort, j: usize, most: usize) -> bool {
        match self.try_cut_long(rt, j, most) {
            Ok(cut) => cut,
            Err(_) => {
                let Ok(cut) = self.try_cut_long(rt, j, most) else {
                    panic!(rt; "out of memory")
                };
                cut
            }
        }
    }

    fn try_cut_long(&mut self, rt: &impl Abort, j: usize, most: usize) -> Result<bool, AllocError> {
        assert!(rt; self.own != self.other && j < self.lines.len(self.own));
        assert!(rt; self.lines.is_own(self.own, j));
        match self.lines.cut_long(self.own, j, most) {
            Ok(cut) => Ok(cut),
            Err(error) => Err(error),
        }
    }

    /// The block and the one behind it become one if they have at most `most` elements.
    pub(crate) fn join_short(&mut self, rt: &impl Abort, j: usize, most: usize) -> bool {
        match self.try_join_short(rt, j, most) {
            Ok(joined) => joined,
            Err(_) => {
                let Ok(joined) = self.try_join_short(rt, j, most) else {
                    panic!(rt; "out of memory")
                };
                joined
            }
        }
    }

    fn try_join_short(
        &mut self,
        rt: &impl Abort,
        j: usize,
        most: usize,
    ) -> Result<bool, AllocError> {
        assert!(rt; self.own != self.other && j < 1_000 && j + 1 < self.lines.len(self.own));
        assert!(rt; self.lines.is_own(self.own, j) && self.lines.is_own(self.own, j + 1));
        match self.lines.join_short(self.own, j, most) {
            Ok(joined) => Ok(joined),
            Err(error) => Err(error),
        }
    }

    /// The number comes before the element at `i` of the block.
    pub(crate) fn put(&mut self, rt: &impl Abort, j: usize, i: usize, number: u32) {
        if let Err(back) = self.try_put(rt, j, i, number) {
            assert!(rt; back == number);
            assert!(rt; self.try_put(rt, j, i, number).is_ok());
        }
    }

    fn try_put(&mut self, rt: &impl Abort, j: usize, i: usize, number: u32) -> Result<(), u32> {
        assert!(rt; self.own != self.other && j < self.lines.len(self.own));
        assert!(rt; i <= self.lines.block(self.own, j).len());
        match self.lines.put(self.own, j, i, number) {
            Ok(()) => Ok(()),
            Err(back) => Err(back),
        }
    }

    /// The element at `i` of the block is taken out.
    pub(crate) fn take(&mut self, rt: &impl Abort, j: usize, i: usize) -> u32 {
        match self.try_take(rt, j, i) {
            Ok(number) => number,
            Err(_) => {
                let Ok(number) = self.try_take(rt, j, i) else {
                    panic!(rt; "out of memory")
                };
                number
            }
        }
    }

    fn try_take(&mut self, rt: &impl Abort, j: usize, i: usize) -> Result<u32, AllocError> {
        assert!(rt; self.own != self.other && j < self.lines.len(self.own));
        assert!(rt; i < self.lines.block(self.own, j).len());
        match self.lines.take(self.own, j, i) {
            Ok(number) => Ok(number),
            Err(error) => Err(error),
        }
    }

    /// Where the element is that has so many before it.
    pub(crate) fn place_at(&self, before: usize) -> BlockPlace {
        self.lines.place_at(self.own, before)
    }

    /// How many elements come before the block.
    pub(crate) fn count_before(&self, rt: &impl Abort, j: usize) -> Option<usize> {
        assert!(rt; j <= self.lines.len(self.own));
        self.lines.count_before(self.own, j)
    }

    /// The last block whose first number is not above the bound, or the first block.
    pub(crate) fn block_for(&self, bound: u32) -> usize {
        self.lines.block_for(self.own, |first| *first <= bound)
    }

    /// Whether a step is left for lines that were dropped.
    pub(crate) fn is_waiting(&self) -> bool {
        self.lines.is_waiting()
    }

    /// One step for the lines that were dropped: the elements of a block that no line names now.
    pub(crate) fn release(&mut self) -> Vec<u32> {
        match self.lines.release() {
            Some(out) => out,
            None => Vec::new(self.alloc),
        }
    }
}

/// A line of no elements.
fn begin(rt: &impl Abort, lines: &mut BlockLines<u32, u32>) -> usize
    ensures { IsSome (lines_of lines.new result) }
{
    match lines.begin() {
        Ok(line) => line,
        Err(_) => {
            let Ok(line) = lines.begin() else {
                panic!(rt; "out of memory")
            };
            line
        }
    }
}

/// A copy of the line.
fn copy(rt: &impl Abort, lines: &mut BlockLines<u32, u32>, line: usize) -> usize
    requires { IsSome (lines_of lines.old line) }
    ensures copy { IsSome (lines_of lines.new result) }
    ensures stands { IsSome (lines_of lines.new line) }
{
    match lines.copy(line) {
        Ok(copy) => {
            assert!(rt; copy != line);
            copy
        }
        Err(_) => {
            let Ok(copy) = lines.copy(line) else {
                panic!(rt; "out of memory")
            };
            assert!(rt; copy != line);
            copy
        }
    }
}

/// The wanted numbers from `at` on are those of the block, and then a 0. Returns the place behind.
fn assert_block(rt: &impl Abort, block: &[u32], wanted: &[u32], at: usize) -> usize {
    let mut at = at;
    for i in 0..block.len() {
        assert!(rt; nth(wanted, at) == block[i]);
        at = at.wrapping_add(1);
    }
    assert!(rt; nth(wanted, at) == 0);
    at.wrapping_add(1)
}
