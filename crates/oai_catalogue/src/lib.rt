//! Versions of the items of repositories, in a store: what a store does, whatever it is made of; a store of plain
//! lists; and functions over any store.
#![tactic(auto)]

mod filters;
mod items;
mod plain;
mod removals;
mod versions;

pub use filters::Filter;
pub use plain::{LAST_VERSION, PlainVersions};
pub use removals::remove_items;
pub use versions::Versions;
