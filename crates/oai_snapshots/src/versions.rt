//! The versions of the store that a snapshot holds.

use oai_catalogue::Filter;
use oai_names::ListVerb;
use std::marker::Model;

/// An open list, as a snapshot holds it and hands it out.
#[derive(Drop)]
pub struct SnapshotList {
    /// Its number.
    pub number: u64,
    /// The verb that opened it.
    pub verb: ListVerb,
    /// What the request asked for.
    pub filter: Filter,
    /// The moment from which on it is no longer open, in seconds from 1970 on.
    pub end: i64,
    /// The highest cursor given in a token.
    pub given: u64,
}

impl Model for SnapshotList {
    ghost use Rattle.oai_repo.specs.Saved.{SavedListState};

    ghost Value = { SavedListState };

    ghost view = { λ list.
        record { number = list.number; verb = list.verb; filter = list.filter; end = list.end; given = list.given } };
}

/// A version of the store, and the open list that it belongs to, or none if it is that of the items.
#[derive(Drop)]
pub struct SnapshotVersion {
    /// The number of the version.
    pub version: u64,
    /// The list.
    pub list: Option<SnapshotList>,
}
