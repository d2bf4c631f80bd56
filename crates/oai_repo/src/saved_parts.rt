//! The parts of a repository's state, from which it can be rebuilt.

use oai_catalogue::Filter;
use oai_item::Item;
use oai_names::{ListVerb, SetSpec};

/// A part of a repository's state, to be restored. The parts of a state in their order make up the whole: first its
/// begin, then the sets in order of addition, then for each open list, oldest first, what has changed of the items since
/// the list before it began, and the list; and last what has changed of the items since the last list began. Without
/// open lists these changes are the items in their order.
#[derive(Clone, Copy)]
pub enum SavedPart<'a> {
    /// The repository begins with that clock, in seconds from 1970 on, and that number for its next list.
    Begins {
        /// The clock.
        clock: i64,
        /// The number of the next list.
        next: u64,
    },
    /// It has that set, after those before it.
    HasSet {
        /// The setSpec.
        spec: &'a SetSpec,
        /// The name.
        name: &'a str,
    },
    /// It has that item, in place of the one with its identifier, if there is one.
    HasItem {
        /// The item.
        item: &'a Item,
    },
    /// The item with that identifier goes.
    Goes {
        /// The identifier.
        identifier: &'a str,
    },
    /// It has that open list, after those before it.
    HasList {
        /// The list.
        list: SavedList<'a>,
    },
}

/// An open list as it is saved: without its records, which its filter selects of the items that are held where it is
/// restored.
#[derive(Clone, Copy)]
pub struct SavedList<'a> {
    /// Its number.
    pub number: u64,
    /// The verb that opened it.
    pub verb: ListVerb,
    /// What the request asked for.
    pub filter: &'a Filter,
    /// The moment from which on it is no longer open, in seconds from 1970 on.
    pub end: i64,
    /// The highest cursor handed out in a token: the number of records before the part that such a token requests.
    pub given: u64,
}
