//! Versions of the items of repositories on the pages of a pool. Versions share pages (copy-on-write): a snapshot
//! copies no item, and a change only the pages that it touches.
#![tactic(auto)]

mod changes;
mod directories;
mod exchanges;
mod merging;
mod put_and_remove;
mod store;

pub use oai_places::{
    FRONT_BYTES, HEAD_BYTES, MAX_ENTRY_BYTES, MAX_OVERFLOW_PAGES, MAX_WHOLE_BYTES, NUMBER_BYTES,
    size_law,
};
pub use store::{PagedVersions, VersionsOver};
