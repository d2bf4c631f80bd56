//! Lines of elements in blocks that they share: a copy of a line takes a reference to each block, and a block to which several
//! lines refer is copied before it is changed.
#![tactic(auto)]

mod blocks;
mod elements;
mod exchanges;
mod lines;
mod notes;
mod searches;
mod shelves;
mod sizes;

pub use lines::BlockLines;
pub use searches::BlockPlace;
pub use sizes::{MAX_BLOCK, MAX_JOINED};
