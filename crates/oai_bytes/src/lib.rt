//! What bytes spell: numbers and moments in decimal digits, and the parts of a line between single spaces.
#![tactic(auto)]

mod numbers;
mod parts;

pub use numbers::{read_moment, read_number};
pub use parts::split_at_space;
