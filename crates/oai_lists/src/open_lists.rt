use oai_catalogue::Filter;
use oai_names::{Identifier, ListVerb};

/// A list whose first part was answered with a resumption token (OAI-PMH 2.0, section 3.5).
#[derive(Debug, Drop)]
pub struct OpenList {
    /// Its number, which no other list of the repository has or had.
    pub number: u64,
    /// The verb that opened it.
    pub verb: ListVerb,
    /// What the request asked for.
    pub filter: Filter,
    /// The number of the version that is its snapshot of the items.
    pub version: u64,
    /// How many records the filter selects.
    pub size: u64,
    /// The moment from which on it is no longer open, in seconds from 1970 on.
    pub end: i64,
    /// The highest cursor given in a token: the number of records before the part that such a token requests.
    pub given: u64,
    /// The position after the part that was answered last, or None if it is not known.
    pub mark: Option<Mark>,
}

/// A list that is opened: an `OpenList` that has no number yet.
#[derive(Debug, Drop)]
pub struct NewList {
    /// The verb of the request.
    pub verb: ListVerb,
    /// What the request asks for.
    pub filter: Filter,
    /// The number of the version that is its snapshot of the items.
    pub version: u64,
    /// How many records the filter selects.
    pub size: u64,
    /// The moment from which on it is no longer open, in seconds from 1970 on.
    pub end: i64,
    /// The highest cursor given in a token.
    pub given: u64,
    /// The position after the first part, or None if it is not known.
    pub mark: Option<Mark>,
}

/// A position in a list, after one of its records.
#[derive(Debug, Drop)]
pub struct Mark {
    /// The number of records of the list before this position.
    pub cursor: u64,
    /// The datestamp of the last of them, in seconds from 1970 on.
    pub stamp: i64,
    /// The identifier of its item.
    pub identifier: Identifier,
}
