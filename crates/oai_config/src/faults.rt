ghost use Rattle.std.specs.Prelude.{◌≡◌};
ghost use Rattle.oai_config.specs.Reading.{read_fault_text};
ghost use Rattle.oai_config.specs.ReadingWork.{read_fault_of};
ghost use Rattle.oai_config.specs.Causes as spec;
ghost use Rattle.oai_settings.specs.Settings as settings;
ghost use Rattle.oai_settings.specs.declared.settings.ConfigFault as alone;

use oai_settings::ConfigFault;
use std::alloc::{AllocError, AllocFailed};
use std::error::Error;
use std::fmt;

/// Why a text is no configuration. Each cause is tested over the whole text, and the lowest number that applies is
/// returned; only `NoMemory` may come wherever memory is allocated.
#[derive(Clone, Copy, Debug, PartialEq, Eq)]
pub enum ReadFault {
    /// The text is not in UTF-8, or not JSON (RFC 8259). Number 1.
    BadJson,
    /// A member is missing, unknown or of another kind; the base, the repositoryName or an address does not have 1 to
    /// 512 bytes, or has a character that no XML document may hold (XML 1.0, section 2.2); there are not 1 to 16
    /// addresses; the policy on deleted records is not `no`, `transient` or `persistent`; the granularity is not `days`
    /// or `seconds`; what describes a repository or a set is no XML element; or there is no repository. Number 2.
    BadShape,
    /// A name is not 1 to 32 of `a` to `z`, `0` to `9` and `-`. Number 3.
    BadName,
    /// Two repositories have one name. Number 4.
    DuplicateName,
    /// A format violates the rules of formats, a prefix occurs twice in a repository or is oai_dc, or a repository has
    /// more than 63 formats. Number 5.
    BadFormat,
    /// An earliestDatestamp is not written at exactly the granularity of its repository, is no date that exists, or is
    /// not in the years 0001 to 9998. Number 6.
    BadDate,
    /// A number is not whole, is negative, or is out of its range. Number 7.
    BadNumber,
    /// There are more than 1,000 repositories. Number 8.
    TooMany,
    /// Out of memory. Number 9.
    NoMemory,
}

impl ReadFault {
    /// The fault's number: 1 to 9.
    pub fn number(self) -> u8
        ensures { result ≡ spec.fault_number self }
    {
        match self {
            ReadFault::BadJson => 1,
            ReadFault::BadShape => 2,
            ReadFault::BadName => 3,
            ReadFault::DuplicateName => 4,
            ReadFault::BadFormat => 5,
            ReadFault::BadDate => 6,
            ReadFault::BadNumber => 7,
            ReadFault::TooMany => 8,
            ReadFault::NoMemory => 9,
        }
    }

    /// The fault's number and name, such as `4 DuplicateName`.
    pub fn answer(self) -> &'static str
        ensures { result.now ≡ read_fault_text self }
    {
        match self {
            ReadFault::BadJson => "1 BadJson",
            ReadFault::BadShape => "2 BadShape",
            ReadFault::BadName => "3 BadName",
            ReadFault::DuplicateName => "4 DuplicateName",
            ReadFault::BadFormat => "5 BadFormat",
            ReadFault::BadDate => "6 BadDate",
            ReadFault::BadNumber => "7 BadNumber",
            ReadFault::TooMany => "8 TooMany",
            ReadFault::NoMemory => "9 NoMemory",
        }
    }
}

impl fmt::Display for ReadFault {
    ghost use Rattle.std.specs.Prelude.{Some};
    ghost use Rattle.oai_config.specs.Reading.{read_fault_text};

    ghost output = { λ fault. Some (read_fault_text fault) };

    fn fmt<W: fmt::Write>(&self, f: &mut fmt::Formatter<W>) -> fmt::Result {
        write!(f, "{}", self.answer())
    }
}

impl Error for ReadFault {}

/// A fault of one repository has the same number and name in a whole text as by itself. A theorem, proved by an empty
/// function.
pub fn fault_law()
    ensures { (fault : alone.ConfigFault) → settings.fault_text fault ≡ read_fault_text (read_fault_of fault) }
{}

impl From<ConfigFault> for ReadFault {
    ghost use Rattle.std.specs.Prelude.{◌≡◌};
    ghost use Rattle.oai_config.specs.ReadingWork.{read_fault_of};

    ghost from_gives = { λ alone e. e ≡ read_fault_of alone };

    fn from(alone: ConfigFault) -> ReadFault {
        match alone {
            ConfigFault::BadShape => ReadFault::BadShape,
            ConfigFault::BadName => ReadFault::BadName,
            ConfigFault::BadFormat => ReadFault::BadFormat,
            ConfigFault::BadDate => ReadFault::BadDate,
            ConfigFault::BadNumber => ReadFault::BadNumber,
            ConfigFault::NoMemory => ReadFault::NoMemory,
        }
    }
}

impl From<AllocError> for ReadFault {
    ghost use Rattle.std.specs.Prelude.{◌≡◌};
    ghost use Rattle.oai_config.specs.declared.faults.ReadFault.TheVariants.{NoMemory};

    ghost from_gives = { λ _ e. e ≡ NoMemory };

    fn from(_refused: AllocError) -> ReadFault {
        ReadFault::NoMemory
    }
}

impl<T: Drop> From<AllocFailed<T>> for ReadFault {
    ghost use Rattle.std.specs.Prelude.{◌≡◌};
    ghost use Rattle.oai_config.specs.declared.faults.ReadFault.TheVariants.{NoMemory};

    ghost from_gives = { λ _ e. e ≡ NoMemory };

    fn from(_refused: AllocFailed<T>) -> ReadFault {
        ReadFault::NoMemory
    }
}
