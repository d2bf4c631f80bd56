//! Figures of a running server: what its parts report of themselves, and the text of all of it.
#![tactic(auto)]

mod expositions;
mod figures;

pub use expositions::Exposition;
pub use figures::Figures;
