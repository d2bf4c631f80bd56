//! What a repository holds, its items and sets: how deposits change it, and how it is saved and restored.
#![tactic(auto)]

mod changes;
mod differences;
mod gone;
mod item_index;
mod laws;
mod restores;
mod saves;

pub use changes::{ChangeContext, make_change};
pub use differences::{MissingItems, OwnedKey, read_missing};
pub use gone::restore_gone;
pub use item_index::ItemIndex;
pub use laws::{difference_law, missing_law};
pub use restores::{restore_item, restore_set};
pub use saves::read_behind;
