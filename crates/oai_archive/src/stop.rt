//! Why a program stops, its message, and its exit status.
ghost use Rattle.std.specs.Prelude.{◌≡◌};
ghost use Rattle.oai_archive.specs.Stops as spec;
ghost use Rattle.oai_archive.specs.declared.stop.ServerStop.TheVariants as stop;
ghost use Rattle.oai_startup.specs.declared.stop.Stop.TheVariants as other;

use oai_item::Fault;
use oai_startup::Stop;
use oai_time::{Clock, write_second};
use std::alloc::AllocError;
use std::error::Error;
use std::fmt;

/// Why the server stopped.
#[derive(Debug, PartialEq, Eq, Drop)]
pub enum ServerStop {
    /// A cause that stops `oaihost` too.
    Common(Stop),
    /// The folder, or a file in it, could not be opened or created.
    CannotOpen,
    /// Another process uses the folder.
    InUse,
    /// The first record of the journal is not this program's.
    NotOurs,
    /// The journal has that version, which this program does not read.
    OfVersion(u64),
    /// The journal is damaged at that byte.
    Damaged(usize),
    /// The replay of the record with that number failed, counted from 1 after the first one.
    Performing(u64, Fault),
    /// The journal could not be written or synced.
    CannotWrite,
    /// The system's clock jumped to that second, from 1970 on.
    Jumped(i64),
    /// The configuration is not the journal's, and the archive cannot continue with it.
    OtherConfig(Difference),
    /// The archive has no repository with the name.
    NoRepository,
}

/// Why an archive cannot continue with another configuration.
#[derive(Debug, PartialEq, Eq, Drop)]
pub struct Difference {
    /// The name of a repository of the journal.
    pub repository: String,
    /// The first aspect of it that does not match.
    pub aspect: Aspect,
}

/// An aspect of a repository that must not change in another configuration.
#[derive(Clone, Copy, Debug, PartialEq, Eq)]
pub enum Aspect {
    /// That there is one with its name.
    Name,
    /// Its granularity.
    Granularity,
    /// Its earliestDatestamp.
    Earliest,
    /// Its deletedRecord.
    Deleted,
    /// That its formats and limits allow each set and each item.
    Contents,
}

impl Aspect {
    /// The word for it.
    pub fn word(self) -> &'static str
        ensures { result.now ≡ spec.aspect_word self }
    {
        match self {
            Aspect::Name => "name",
            Aspect::Granularity => "granularity",
            Aspect::Earliest => "earliestDatestamp",
            Aspect::Deleted => "deletedRecord",
            Aspect::Contents => "sets and items",
        }
    }
}

impl ServerStop {
    /// The program's exit status: 2 if the configuration cannot be read, has a fault, or is not the journal's, or if there
    /// is no repository of the name, and 1 for each other cause.
    pub fn status(&self) -> u8
        ensures { result ≡ spec.server_status_of self.now }
    {
        match self {
            ServerStop::Common(cause) => cause.status(),
            ServerStop::CannotOpen => 1,
            ServerStop::InUse => 1,
            ServerStop::NotOurs => 1,
            ServerStop::OfVersion(_) => 1,
            ServerStop::Damaged(_) => 1,
            ServerStop::Performing(_, _) => 1,
            ServerStop::CannotWrite => 1,
            ServerStop::Jumped(_) => 1,
            ServerStop::OtherConfig(_) => 2,
            ServerStop::NoRepository => 2,
        }
    }
}

impl From<Stop> for ServerStop {
    ghost from_gives = { λ cause e. e ≡ stop.Common cause };

    fn from(cause: Stop) -> ServerStop {
        ServerStop::Common(cause)
    }
}

impl From<AllocError> for ServerStop {
    ghost from_gives = { λ _ e. e ≡ stop.Common other.NoMemory };

    fn from(_refused: AllocError) -> ServerStop {
        ServerStop::Common(Stop::NoMemory)
    }
}

/// The program's message on standard error.
impl fmt::Display for ServerStop {
    ghost use Rattle.std.specs.Prelude.{Some};
    ghost use Rattle.oai_archive.specs.Stops.{server_stop_text};

    ghost output = { λ stop. Some (server_stop_text stop) };

    fn fmt<W: fmt::Write>(&self, f: &mut fmt::Formatter<W>) -> fmt::Result {
        match self {
            ServerStop::Common(cause) => write!(f, "{cause}"),
            ServerStop::CannotOpen => write!(f, "folder: cannot open"),
            ServerStop::InUse => write!(f, "folder: in use"),
            ServerStop::NotOurs => write!(f, "journal: not of this program"),
            ServerStop::OfVersion(version) => write!(f, "journal: of version {version}"),
            ServerStop::Damaged(at) => write!(f, "journal: damaged at byte {at}"),
            ServerStop::Performing(number, fault) => {
                let (fails, cause) = (performing_fails(), fault_word(*fault));
                write!(f, "journal: record {number}{fails}{cause}")
            }
            ServerStop::CannotWrite => write!(f, "journal: cannot write"),
            ServerStop::Jumped(second) => write!(f, "clock: jumped to {}", Second(*second)),
            ServerStop::OtherConfig(difference) => {
                let name = difference.repository.as_str();
                let (differs, word) = (config_differs(), difference.aspect.word());
                write!(f, "{differs}{name}: {word}")
            }
            ServerStop::NoRepository => write!(f, "dump: no such repository"),
        }
    }
}

impl Error for ServerStop {}

/// The words before the name of a repository that differs.
#[tactic(auto, unfolding(crate::specs::Stops::config_differs))]
fn config_differs() -> &'static str
    ensures { result.now ≡ spec.config_differs }
{
    "config: differs from the journal: repository "
}

/// The words between the number of a record and the fault that ended its replay.
#[tactic(auto, unfolding(crate::specs::Stops::performing_fails))]
fn performing_fails() -> &'static str
    ensures { result.now ≡ spec.performing_fails }
{
    ": performing it fails: "
}

/// The fault, in words.
pub fn fault_word(fault: Fault) -> &'static str
    ensures { result.now ≡ spec.store_fault_text fault }
{
    match fault {
        Fault::NoMemory => "out of memory",
        Fault::Device => "the device failed",
        Fault::Damaged => "the stored items are damaged",
        Fault::TooManyPages => "there are too many pages",
    }
}

/// A second from 1970 on, shown as its datestamp; one before 1970 as 1970's first second, and one after the year 9998
/// as the last of that year.
#[derive(Drop)]
pub struct Second(pub i64);

impl fmt::Display for Second {
    ghost use Rattle.std.specs.Prelude.{Some};
    ghost use Rattle.oai_archive.specs.Stops.{jump_text};

    ghost output = { λ second. Some (jump_text second.0) };

    fn fmt<W: fmt::Write>(&self, f: &mut fmt::Formatter<W>) -> fmt::Result {
        let mut clock = Clock::start(0);
        clock.tick(self.0);
        match str::from_utf8(&write_second(clock.now())) {
            Ok(text) => f.write_str(text),
            Err(_) => Err(fmt::Error),
        }
    }
}
