//! The batches in which a snapshot is handed out.

use crate::versions::SnapshotList;
use oai_item::Item;
use oai_names::Sequence;

/// What a snapshot hands out next, in the order in which a repository is restored from it.
#[derive(Drop)]
pub enum Batch {
    /// The repository begins with that clock, in seconds from 1970 on, and that number for its next list.
    Begins {
        /// The clock.
        clock: i64,
        /// The number of the next list.
        next: u64,
    },
    /// It has the set at that position among its sets, in order of addition.
    HasSet(usize),
    /// These items go.
    Gone(Sequence<Item>),
    /// These items come, and then it has that open list, if it is one.
    Come(Sequence<Item>, Option<SnapshotList>),
}
