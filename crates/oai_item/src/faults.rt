ghost use Rattle.std.specs.Prelude.{◌≡◌};
ghost use Rattle.oai_item.specs.declared.faults.Fault.TheVariants as fault;

use std::alloc::{AllocError, AllocFailed};
use thiserror::Error;

/// Why a call on stored items failed.
#[derive(Clone, Copy, Debug, PartialEq, Eq, Error)]
pub enum Fault {
    /// Out of memory.
    #[error("out of memory")]
    NoMemory,
    /// The device that stores the items failed.
    #[error("the device failed")]
    Device,
    /// The device returned other bytes than were written to it.
    #[error("the stored items are damaged")]
    Damaged,
    /// No page, no further reference to a page, or no number of a version is left.
    #[error("there are too many pages")]
    TooManyPages,
}

impl From<AllocError> for Fault {
    ghost from_gives = { λ _ e. e ≡ fault.NoMemory };

    fn from(_refused: AllocError) -> Fault {
        Fault::NoMemory
    }
}

impl<T: Drop> From<AllocFailed<T>> for Fault {
    ghost from_gives = { λ _ e. e ≡ fault.NoMemory };

    fn from(_refused: AllocFailed<T>) -> Fault {
        Fault::NoMemory
    }
}
