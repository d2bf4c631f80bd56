//! What the program is called for.
use crate::commands::{program, serve};
use clap::error::ErrorKind;
use clap::{ArgMatches, Error};
use std::alloc::{AllocError, Global};
use std::net::{IpAddr, Ipv4Addr};

/// What the program is called for. Each text is one of the arguments.
#[derive(Clone, Copy, Debug)]
pub enum Called<'a> {
    /// Serves.
    Serve(Serving<'a>),
    /// Checks the configuration in a file; and the deposit lines in a file, for the repository with a name, or for the
    /// first one.
    Check {
        /// The file of the configuration.
        config: &'a str,
        /// The file of the lines.
        lines: Option<&'a str>,
        /// The name of their repository.
        repository: Option<&'a str>,
    },
    /// Checks the keys of depositors in a file, for the configuration in another.
    Keys {
        /// The file of the configuration.
        config: &'a str,
        /// The file of the keys.
        keys: &'a str,
    },
    /// Reads the journal in a folder to its end.
    Verify(&'a str),
    /// Writes what the repository with a name holds, by the journal in a folder, as deposit lines.
    Dump {
        /// The folder of the journal.
        folder: &'a str,
        /// The name of the repository.
        name: &'a str,
    },
    /// Replaces the journal in a folder by a checkpoint, with the configuration in a file.
    Checkpoint {
        /// The file of the configuration.
        config: &'a str,
        /// The folder of the journal.
        folder: &'a str,
        /// Whether it reports no progress.
        is_quiet: bool,
    },
    /// Writes the canonical text of the XML element in a file, or in the standard input (`-`).
    Xml(&'a str),
}

/// How the program serves.
#[derive(Clone, Copy, Debug)]
pub struct Serving<'a> {
    /// The file of the configuration.
    pub config: &'a str,
    /// The port; 0 means any free one.
    pub port: u16,
    /// The folder of the journal.
    pub folder: &'a str,
    /// The file of the depositors' keys.
    pub keys: Option<&'a str>,
    /// The address that it listens at.
    pub address: IpAddr,
    /// Whether it reports neither progress nor notices.
    pub is_quiet: bool,
    /// By how many bytes the journal may be longer than twice what it was after its last checkpoint.
    pub max_tail: usize,
}

/// By how many bytes it may be longer if the words do not say it: 64 MiB.
const MAX_TAIL: usize = 67_108_864;

/// What the words call the program for: its name, a command and the command's arguments. The error says what is wrong
/// with them, or it is the help or the version that they ask for.
pub fn read_arguments<'a>(
    alloc: Global,
    version: &'a str,
    words: &'a [String],
) -> Result<Called<'a>, Error> {
    let given = program(alloc, version)?.try_get_matches_from(words)?;
    call_in(alloc, &given)
}

/// What these arguments call the program for.
fn call_in<'a>(alloc: Global, given: &ArgMatches<'a>) -> Result<Called<'a>, Error> {
    match given.subcommand() {
        Some(("serve", given)) => to_serve(alloc, given),
        Some((name, given)) => Ok(of_texts(name, given)),
        None => Err(Error::from(AllocError)),
    }
}

/// The command with that name, one whose arguments may be any texts.
fn of_texts<'a>(name: &str, given: &ArgMatches<'a>) -> Called<'a> {
    match name {
        "check" => Called::Check {
            config: text_of(given, "CONFIG"),
            lines: given.get_str("LINES"),
            repository: given.get_str("repository"),
        },
        "keys" => Called::Keys {
            config: text_of(given, "CONFIG"),
            keys: text_of(given, "KEYS"),
        },
        "verify" => Called::Verify(text_of(given, "FOLDER")),
        "dump" => Called::Dump {
            folder: text_of(given, "FOLDER"),
            name: text_of(given, "NAME"),
        },
        "xml" => Called::Xml(text_of(given, "FILE")),
        _ => Called::Checkpoint {
            config: text_of(given, "CONFIG"),
            folder: text_of(given, "FOLDER"),
            is_quiet: given.get_flag("quiet"),
        },
    }
}

/// The command to serve.
fn to_serve<'a>(alloc: Global, given: &ArgMatches<'a>) -> Result<Called<'a>, Error> {
    let Some(port) = port_in(text_of(given, "PORT")) else {
        return Err(wrong(alloc, "PORT is no number from 0 to 65535"));
    };
    let Some(address) = address_in(given.get_str("listen")) else {
        return Err(wrong(alloc, "the ADDRESS of --listen is no IP address"));
    };
    let Some(max_tail) = bytes_in(given.get_str("checkpoint-after")) else {
        return Err(wrong(
            alloc,
            "the BYTES of --checkpoint-after is no number below 2^64",
        ));
    };
    Ok(Called::Serve(Serving {
        config: text_of(given, "CONFIG"),
        port,
        folder: text_of(given, "FOLDER"),
        keys: given.get_str("KEYS"),
        address,
        is_quiet: given.get_flag("quiet"),
        max_tail,
    }))
}

/// The text of an argument that has to be there.
fn text_of<'a>(given: &ArgMatches<'a>, name: &str) -> &'a str {
    given.get_str(name).unwrap_or("")
}

/// The port in the text: decimal digits alone, below 65,536.
fn port_in(text: &str) -> Option<u16> {
    if text.starts_with('+') {
        return None;
    }
    text.parse().ok()
}

/// The number of bytes in the text: decimal digits alone; 64 MiB if there is none.
fn bytes_in(text: Option<&str>) -> Option<usize> {
    match text {
        Some(text) if text.starts_with('+') => None,
        Some(text) => text.parse().ok(),
        None => Some(MAX_TAIL),
    }
}

/// The address in the text, 127.0.0.1 if there is none.
fn address_in(text: Option<&str>) -> Option<IpAddr> {
    match text {
        Some(text) => text.parse().ok(),
        None => Some(IpAddr::V4(Ipv4Addr::LOCALHOST)),
    }
}

/// The error of a command to serve with that message, and the command's usage.
fn wrong(alloc: Global, message: &str) -> Error {
    match usage_of_serve(alloc, message) {
        Ok(error) => error,
        Err(refused) => Error::from(refused),
    }
}

fn usage_of_serve(alloc: Global, message: &str) -> Result<Error, AllocError> {
    let mut command = serve(alloc)?.bin_name("oaihostd serve")?;
    command.error(ErrorKind::ValueValidation, message)
}
