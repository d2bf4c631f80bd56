//! The configuration that a command is called with, and why a command ends.
use oai_archive::ServerStop;
use oai_config::ReadFault;
use oai_keys::KeysFault;
use oai_startup::{Stop, WrittenConfig, read_file};
use std::rt::Files;

/// Why a command ends before it is done.
#[derive(Drop)]
pub(crate) enum Failure {
    /// The program stops.
    Stop(ServerStop),
    /// The configuration in the text has that fault.
    Config(ReadFault, Vec<u8>),
    /// The keys in the text have that fault, which is not out of memory.
    Keys(KeysFault),
    /// The file of the keys cannot be read.
    NoKeys,
    /// The configuration has no repository of that name.
    NoRepository,
    /// The file of the lines cannot be read.
    NoLines,
    /// The file of an XML element cannot be read.
    NoElement,
    /// Lines, or an XML element, are refused, and were reported.
    Refused,
}

impl From<ServerStop> for Failure {
    fn from(stop: ServerStop) -> Failure {
        Failure::Stop(stop)
    }
}

impl From<KeysFault> for Failure {
    fn from(fault: KeysFault) -> Failure {
        match fault {
            KeysFault::NoMemory => Failure::from(Stop::NoMemory),
            fault => Failure::Keys(fault),
        }
    }
}

impl From<Stop> for Failure {
    fn from(stop: Stop) -> Failure {
        Failure::Stop(ServerStop::Common(stop))
    }
}

/// The configuration in the file, of repositories whose records may be elements.
pub(crate) fn read_checked(
    rt: &(impl Files + AllocGlobal),
    path: &str,
) -> Result<WrittenConfig, Failure> {
    let text = read_file(rt, path)?;
    match WrittenConfig::read(rt.alloc(), text) {
        Ok(written) => Ok(written),
        Err((Stop::BadConfig(fault), text)) => Err(Failure::Config(fault, text)),
        Err((stop, _)) => Err(Failure::from(stop)),
    }
}
