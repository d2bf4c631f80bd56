//! Per-page statistics of items: how many are in each set, and where these are.
#![tactic(auto)]

mod packed_counts;
mod set_counts;
mod set_names;
mod spans;

pub use packed_counts::PackedCounts;
pub use set_counts::{MAX_COUNTED_SETS, SetCounts};
pub use set_names::SetNames;
pub use spans::{SetItems, Span};
