ghost use Rattle.std.specs.Prelude.{◌≡◌, ◌≤◌, length, IfSome};
ghost use Rattle.oai_item.specs.Refusals.{byte_of, cause_text, in_line, in_repository, refusal_line};
ghost use Rattle.oai_item.specs.declared.faults.Fault.TheVariants as fault;
ghost use Rattle.oai_item.specs.declared.refusals.Refusal.TheVariants as refusal;

use crate::faults::Fault;
use std::alloc::AllocError;
use thiserror::Error;

/// Why a line is refused by itself, in the order in which the causes are tested.
#[derive(Clone, Copy, Debug, PartialEq, Eq, Error)]
pub enum LineRefusal {
    /// The line is not JSON. Number 1.
    #[error("the line is not JSON")]
    BadJson,
    /// The line is JSON, but has none of the shapes of a command. Number 2.
    #[error("the line is no command")]
    BadCommand,
    /// The text of a record is no XML element, as is found at that byte of it, counted from 0. Number 20.
    #[error("the text of a record is no XML element, as is found at its byte {0}")]
    BadXml(usize),
    /// The identifier has invalid syntax, or is too long. Number 3.
    #[error("the identifier is of illegal syntax or too long")]
    BadIdentifier,
    /// A setSpec has invalid syntax, or is too long. Number 4.
    #[error("a setSpec is of illegal syntax or too long")]
    BadSetSpec,
    /// A field's text, or the name of a set, has a character that no XML document may hold, or the name of a set is
    /// empty or longer than 512 bytes. Number 5.
    #[error("a text has a character that no XML document may hold, or is empty or too long")]
    BadText,
}

impl LineRefusal {
    /// The line that reports it, such as `refused 1 bad-json`, without a line end, and up to the number of a byte if it
    /// ends with one (`byte`).
    pub fn answer(self) -> &'static str
        ensures line { result.now ≡ cause_text (in_line self) }
        ensures short { length result.now ≤ 31 }
        ensures numbered { IfSome (byte_of (in_line self)) (λ at. length result.now ≤ 19) }
    {
        match self {
            LineRefusal::BadJson => "refused 1 bad-json",
            LineRefusal::BadCommand => "refused 2 bad-command",
            LineRefusal::BadXml(_) => "refused 20 bad-xml ",
            LineRefusal::BadIdentifier => "refused 3 bad-identifier",
            LineRefusal::BadSetSpec => "refused 4 bad-set-spec",
            LineRefusal::BadText => "refused 5 bad-text",
        }
    }

    /// The number of the byte with which the line ends that reports it, if it ends with one.
    pub fn byte(self) -> Option<usize>
        ensures { result ≡ byte_of (in_line self) }
    {
        match self {
            LineRefusal::BadXml(at) => Some(at),
            LineRefusal::BadJson => None,
            LineRefusal::BadCommand => None,
            LineRefusal::BadIdentifier => None,
            LineRefusal::BadSetSpec => None,
            LineRefusal::BadText => None,
        }
    }
}

/// Why a repository refuses a change, in the order in which the causes are tested. The repository has then moved its
/// clock, and changed nothing else.
#[derive(Clone, Copy, Debug, PartialEq, Eq, Error)]
pub enum ChangeRefusal {
    /// The item is deposited into a set that the repository does not have. Number 6.
    #[error("the repository does not have the set")]
    UnknownSet,
    /// A record is in a format that the repository does not have. Number 7.
    #[error("the repository does not have the format")]
    UnknownFormat,
    /// There is no record in oai_dc. Number 8.
    #[error("the item has no record in oai_dc")]
    NoDc,
    /// A record has a field that its format does not have. Number 9.
    #[error("the format does not have the field")]
    UnknownField,
    /// The root of an element is not in its format's namespace, or has not the local part of the name of the format's
    /// root; or a record is a list of fields, and its format has none. Number 21.
    #[error("the record is not one of its format")]
    NotOfFormat,
    /// The item has, or had when it was deleted, a format in which the deposit has no record. Number 10.
    #[error("the item has a format of which there is no record")]
    DropsFormat,
    /// The encoded item would have more than 1,048,576 bytes. Number 11.
    #[error("the item is too large")]
    TooLarge,
    /// The identifier is new, and the repository has as many items as it may have. Number 12.
    #[error("the repository has too many items")]
    TooManyItems,
    /// No item has the identifier to delete. Number 13.
    #[error("no item has the identifier")]
    NoSuchItem,
    /// The item to delete is already deleted. Number 14.
    #[error("the item is deleted already")]
    AlreadyDeleted,
    /// The repository keeps all of its tombstones or none, so a purge removes nothing. Number 15.
    #[error("the repository does not forget deleted items")]
    NotTransient,
    /// The purge's bound is not a bound, or is finer than the repository's datestamps. Number 16.
    #[error("the bound is none, or too fine")]
    BadDate,
    /// A set with that setSpec exists. Number 17.
    #[error("the set exists")]
    SetExists,
    /// The setSpec has two or more parts, and no set has it without the last part. Number 18.
    #[error("the set has no parent")]
    NoParent,
    /// There are 10,000 sets already. Number 19.
    #[error("the repository has too many sets")]
    TooManySets,
}

impl ChangeRefusal {
    /// The line that reports it, such as `refused 6 unknown-set`, without a line end.
    pub fn answer(self) -> &'static str
        ensures line { result.now ≡ refusal_line (in_repository self) }
        ensures short { length result.now ≤ 31 }
    {
        match self {
            ChangeRefusal::UnknownSet => "refused 6 unknown-set",
            ChangeRefusal::UnknownFormat => "refused 7 unknown-format",
            ChangeRefusal::NoDc => "refused 8 no-dc",
            ChangeRefusal::UnknownField => "refused 9 unknown-field",
            ChangeRefusal::NotOfFormat => "refused 21 not-of-format",
            ChangeRefusal::DropsFormat => "refused 10 drops-format",
            ChangeRefusal::TooLarge => "refused 11 too-large",
            ChangeRefusal::TooManyItems => "refused 12 too-many-items",
            ChangeRefusal::NoSuchItem => "refused 13 no-such-item",
            ChangeRefusal::AlreadyDeleted => "refused 14 already-deleted",
            ChangeRefusal::NotTransient => "refused 15 not-transient",
            ChangeRefusal::BadDate => "refused 16 bad-date",
            ChangeRefusal::SetExists => "refused 17 set-exists",
            ChangeRefusal::NoParent => "refused 18 no-parent",
            ChangeRefusal::TooManySets => "refused 19 too-many-sets",
        }
    }
}

/// Why a change was not made.
#[derive(Clone, Copy, Debug, PartialEq, Eq, Error)]
pub enum Refusal {
    /// The change is refused. The clock is moved, and nothing else is changed.
    #[error("the change is refused: {0}")]
    Refused(ChangeRefusal),
    /// The change failed. Nothing is changed, the clock included.
    #[error("{0}")]
    Fault(Fault),
}

impl From<Fault> for Refusal {
    ghost from_gives = { λ f e. e ≡ refusal.Fault f };

    fn from(fault: Fault) -> Refusal {
        Refusal::Fault(fault)
    }
}

impl From<AllocError> for Refusal {
    ghost from_gives = { λ _ e. e ≡ refusal.Fault fault.NoMemory };

    fn from(_refused: AllocError) -> Refusal {
        Refusal::Fault(Fault::NoMemory)
    }
}
