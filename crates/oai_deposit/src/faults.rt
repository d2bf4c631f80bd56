ghost use Rattle.std.specs.Prelude.{◌≡◌};
ghost use Rattle.oai_deposit.specs.declared.faults.LineFault.TheVariants.{NoMemory, Refused};

use oai_item::LineRefusal;
use std::alloc::{AllocError, AllocFailed};
use thiserror::Error;

/// Why a line was not read.
#[derive(Clone, Copy, Debug, PartialEq, Eq, Error)]
pub enum LineFault {
    /// Out of memory.
    #[error("out of memory")]
    NoMemory,
    /// The line is refused.
    #[error("the line is refused: {0}")]
    Refused(LineRefusal),
}

impl From<LineRefusal> for LineFault {
    ghost from_gives = { λ refusal e. e ≡ Refused refusal };

    fn from(refusal: LineRefusal) -> LineFault {
        LineFault::Refused(refusal)
    }
}

impl From<AllocError> for LineFault {
    ghost from_gives = { λ _ e. e ≡ NoMemory };

    fn from(_refused: AllocError) -> LineFault {
        LineFault::NoMemory
    }
}

impl<T: Drop> From<AllocFailed<T>> for LineFault {
    ghost from_gives = { λ _ e. e ≡ NoMemory };

    fn from(_refused: AllocFailed<T>) -> LineFault {
        LineFault::NoMemory
    }
}
