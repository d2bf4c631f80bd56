//! A harvester's copy of an archive, which is updated by harvests.
#![tactic(auto)]

mod copies;
mod merges;

pub use copies::{Copy, copy_law};
