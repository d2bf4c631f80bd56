//! Why a text has no keys.
use oai_names::Text;
use std::alloc::{AllocError, AllocFailed};
use std::error::Error;
use std::fmt;

/// Why a text is not the keys of the depositors of a host. Each cause is tested over the whole text, in this order; only
/// `NoMemory` may come wherever memory is allocated.
#[derive(Debug, Drop)]
pub enum KeysFault {
    /// The text is not in UTF-8, or not JSON (RFC 8259).
    BadJson,
    /// A member is missing, unknown or of another kind, or a digest is not 64 hex digits.
    BadShape,
    /// The host has no repository of that name.
    NoRepository(Text),
    /// That name stands twice.
    Twice(Text),
    /// There are more than 16 digests for that name.
    TooMany(Text),
    /// Out of memory.
    NoMemory,
}

/// The fault's message on standard error.
impl fmt::Display for KeysFault {
    ghost use Rattle.std.specs.Prelude.{Some};
    ghost use Rattle.oai_keys.specs.Reading.{keys_fault_text};

    ghost output = { λ fault. Some (keys_fault_text fault) };

    fn fmt<W: fmt::Write>(&self, f: &mut fmt::Formatter<W>) -> fmt::Result {
        match self {
            KeysFault::BadJson => write!(f, "keys: bad JSON"),
            KeysFault::BadShape => write!(f, "keys: bad shape"),
            KeysFault::NoRepository(name) => write!(f, "keys: no repository: {}", name.as_str()),
            KeysFault::Twice(name) => write!(f, "keys: twice: {}", name.as_str()),
            KeysFault::TooMany(name) => write!(f, "keys: too many: {}", name.as_str()),
            KeysFault::NoMemory => write!(f, "out of memory"),
        }
    }
}

impl Error for KeysFault {}

impl From<AllocError> for KeysFault {
    ghost use Rattle.std.specs.Prelude.{◌≡◌};
    ghost use Rattle.oai_keys.specs.declared.faults.KeysFault.TheVariants.{NoMemory};

    ghost from_gives = { λ _ e. e ≡ NoMemory };

    fn from(_refused: AllocError) -> KeysFault {
        KeysFault::NoMemory
    }
}

impl<T: Drop> From<AllocFailed<T>> for KeysFault {
    ghost use Rattle.std.specs.Prelude.{◌≡◌};
    ghost use Rattle.oai_keys.specs.declared.faults.KeysFault.TheVariants.{NoMemory};

    ghost from_gives = { λ _ e. e ≡ NoMemory };

    fn from(_refused: AllocFailed<T>) -> KeysFault {
        KeysFault::NoMemory
    }
}
