//! Items on leaf pages: how they are encoded there, the leaves with their statistics, and reads of the items of
//! consecutive leaves.
#![tactic(auto)]

mod counts;
mod entries;
mod entry_bytes;
mod faults;
mod finding;
mod groups;
mod known;
mod leaves;
mod names;
mod page_numbers;
mod parts;
mod picking;
mod places;
mod reading;
mod searches;
mod sizes;
mod sums;
mod untested;
mod wanted;

pub use entries::{Cuts, Entries};
pub use faults::fault_of;
pub use groups::Groups;
pub use leaves::LeafList;
pub use names::{drop_all, drop_numbers, share_all};
pub use places::{SharedPlace, Statistics};
pub use reading::read_place;
pub use searches::leaf_of;
pub use sizes::{
    FRONT_BYTES, FULL_BYTES, HEAD_BYTES, MAX_ENTRY_BYTES, MAX_OVERFLOW_PAGES, MAX_REPLACED,
    MAX_WHOLE_BYTES, NUMBER_BYTES, size_law,
};
