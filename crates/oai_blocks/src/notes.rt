//! What is noted of the elements of a block, for all lines that name it.
ghost use Rattle.std.specs.Prelude.{◌≡◌, ◌⊎◌, ℕ, List, Some, IfSome};
ghost use Rattle.std.specs.Option.{option_copied};
ghost use Rattle.oai_blocks.specs.Store.{HasBlock, IsNoted, KeepsSharing, block_of, lines_of, note_of, steps_left, weight_of};

use crate::lines::BlockLines;

impl<T: Drop, S: Drop> BlockLines<T, S> {
    /// The note about the elements of the block at `j` of the line, if one was made since they changed.
    pub fn note(&self, v: usize, j: usize) -> Option<&S>
        requires { HasBlock self.now v j }
        ensures note { option_copied result ≡ note_of self.now v j }
        ensures noted { IfSome result (λ note. IsNoted note.now (block_of self.now v j) self.now) }
    {
        let number = self.number_of(v, j);
        let Some(block) = self.blocks.get(number) else {
            unreachable!()
        };
        block.note.as_ref()
    }

    /// Keeps a note about the elements of the block at `j` of the line, in place of the one that there was. It holds for
    /// all lines that name the block, until its elements change.
    pub fn set_note(&mut self, v: usize, j: usize, note: S)
        requires { HasBlock self.old v j }
        ensures lines { (w : ℕ) → lines_of self.new w ≡ lines_of self.old w }
        ensures shared { KeepsSharing self.old self.new }
        ensures weight { (weigh : T → ℕ) → weight_of weigh self.new ≡ weight_of weigh self.old }
        ensures steps { steps_left self.new ≡ steps_left self.old }
        ensures note { note_of self.new v j ≡ Some note }
        ensures notes { (other : S) (items : List T) → IsNoted other items self.new
            → IsNoted other items self.old ⊎ ((other ≡ note) × (items ≡ block_of self.old v j)) }
    {
        let number = self.number_of(v, j);
        let Some(block) = self.blocks.get_mut(number) else {
            unreachable!()
        };
        block.note = Some(note);
    }
}
