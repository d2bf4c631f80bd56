ghost use Rattle.std.specs.Prelude.{◌≡◌};
ghost use Rattle.oai_args.specs.Arguments.{role_in_list, role_of, suits};

use crate::occurrences::Occurrence;
use crate::verbs::Verb;

/// The keys of arguments.
#[derive(Clone, Copy)]
pub(crate) enum Key {
    Identifier,
    MetadataPrefix,
    From,
    Until,
    Set,
    ResumptionToken,
}

/// The role of an argument for a verb (OAI-PMH 2.0, section 4).
#[derive(Clone, Copy)]
pub(crate) enum Role {
    Required,
    Optional,
    /// It is given alone, in place of all others.
    Exclusive,
    /// The verb has no such argument.
    Absent,
}

/// Which requests of a verb are meant.
#[derive(Clone, Copy)]
pub(crate) enum Pagination {
    /// Those without a resumptionToken.
    First,
    /// Those for the next part of a list.
    Next,
}

impl Verb {
    /// The role of the argument for this verb: the one table of arguments.
    pub(crate) fn role_of(self, key: Key) -> Role
        ensures { result ≡ role_of self key }
    {
        match self {
            Verb::Identify => Role::Absent,
            Verb::ListMetadataFormats => match key {
                Key::Identifier => Role::Optional,
                _ => Role::Absent,
            },
            Verb::ListSets => match key {
                Key::ResumptionToken => Role::Exclusive,
                _ => Role::Absent,
            },
            Verb::GetRecord => match key {
                Key::Identifier => Role::Required,
                Key::MetadataPrefix => Role::Required,
                _ => Role::Absent,
            },
            Verb::ListIdentifiers => role_in_list(key),
            Verb::ListRecords => role_in_list(key),
        }
    }
}

/// The role of the argument for ListIdentifiers and ListRecords.
fn role_in_list(key: Key) -> Role
    ensures { result ≡ role_in_list key }
{
    match key {
        Key::Identifier => Role::Absent,
        Key::MetadataPrefix => Role::Required,
        Key::From => Role::Optional,
        Key::Until => Role::Optional,
        Key::Set => Role::Optional,
        Key::ResumptionToken => Role::Exclusive,
    }
}

impl Pagination {
    /// Whether an argument with the role is given as often as such a request requires.
    pub(crate) fn suits(self, role: Role, given: &Occurrence) -> bool
        ensures { result ≡ suits self role given.now }
    {
        match (self, role) {
            (Pagination::First, Role::Required) => given.is_once(),
            (Pagination::First, Role::Optional) => !given.is_often(),
            (Pagination::First, Role::Exclusive) => given.is_never(),
            (Pagination::First, Role::Absent) => given.is_never(),
            (Pagination::Next, Role::Required) => given.is_never(),
            (Pagination::Next, Role::Optional) => given.is_never(),
            (Pagination::Next, Role::Exclusive) => given.is_once(),
            (Pagination::Next, Role::Absent) => given.is_never(),
        }
    }
}
