ghost use Rattle.std.specs.Prelude.{◌≡◌, None, vec_capacity};

use std::marker::Model;

/// Consecutive elements of the lines that name it.
#[derive(Drop)]
pub(crate) struct Block<T, S> {
    pub(crate) items: Vec<T>,
    /// How many lines name it.
    pub(crate) names: usize,
    /// What was noted of the elements, if something was since they changed.
    pub(crate) note: Option<S>,
}

impl<T, S> Model for Block<T, S> {
    ghost use Rattle.std.specs.Prelude.{vec_capacity};
    ghost use Rattle.oai_blocks.specs.Blocks.{BlockState};

    ghost Value = { BlockState T S };

    ghost view = { λ b. record { items = b.items.items; names = b.names; room = vec_capacity b.items; note = b.note } };
}

impl<T: Drop, S: Drop> Block<T, S> {
    /// A block of the elements that one line names, and of which nothing is noted.
    pub(crate) fn new(items: Vec<T>) -> Block<T, S>
        ensures { result ≡ record { items = items.items; names = 1; room = vec_capacity items; note = None } }
    {
        Block {
            items,
            names: 1,
            note: None,
        }
    }
}

/// The numbers of the blocks of a line, in their order.
#[derive(Drop)]
pub(crate) struct Line {
    pub(crate) numbers: Vec<u32>,
}

impl Model for Line {
    ghost use Rattle.std.specs.Prelude.{ℕ, List};

    ghost Value = { List ℕ };

    ghost view = { λ line. line.numbers.items };
}
