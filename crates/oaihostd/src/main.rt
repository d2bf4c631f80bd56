//! `oaihostd`: a data provider for OAI-PMH 2.0 that hosts many repositories; its acknowledged writes are durable.
#![tactic(auto)]

ghost use Rattle.std.specs.Prelude.{◌≡◌, IfOk};
ghost use Rattle.std.specs.Process.{exit_status};
ghost use Rattle.oai_archive.specs.Stops as spec;
ghost use Rattle.oaihostd.specs.Statuses as status;

mod checks;
mod configurations;
mod elements;
mod keys;

use checks::run_check;
use clap::Error;
use configurations::{Failure, read_checked};
use elements::run_xml;
use keys::{read_rings, run_keys};
use oai_archive::{ReadFile, ServerStop, VERSION, dump_repository, verify_journal};
use oai_command_line::{Called, Serving, read_arguments};
use oai_daemon::{outcome_of, serve};
use oai_recovery::{HostPlace, checkpoint_folder};
use oai_reports::report_of;
use oai_startup::Stop;
use sqlite_std_file::Wary;
use std::env;
use std::fmt::Display;
use std::fs::File;
use std::io::{self, BufWriter, ErrorKind};
use std::process::ExitCode;
use std::rt::{Env, Files};

fn main(rt: HostRuntime) -> ExitCode {
    match (words_of(&rt), version_of(&rt)) {
        (Ok(words), Ok(version)) => called_with(&rt, version.as_str(), &words),
        (Err(stop), _) => stopped(&rt, stop),
        (_, Err(stop)) => stopped(&rt, stop),
    }
}

/// Does what the words call the program for.
fn called_with(rt: &HostRuntime, version: &str, words: &[String]) -> ExitCode {
    match read_arguments(rt.alloc(), version, words) {
        Ok(called) => exit_of(rt, run(rt, called)),
        Err(error) => answered(rt, &error),
    }
}

/// The words that the program is called with.
fn words_of(rt: &(impl Env + AllocGlobal)) -> Result<Vec<String>, ServerStop> {
    let Ok(arguments) = env::args(rt) else {
        return Err(ServerStop::Common(Stop::NoMemory));
    };
    match arguments.collect(rt.alloc()) {
        Ok(words) => Ok(words),
        Err(_) => Err(ServerStop::Common(Stop::NoMemory)),
    }
}

/// What the program says of its version.
fn version_of(rt: &impl AllocGlobal) -> Result<String, ServerStop> {
    Ok(format!(in rt.alloc(); "(journal version {VERSION})")?)
}

/// Does what the program is called for.
fn run(rt: &HostRuntime, called: Called<'_>) -> Result<(), Failure> {
    match called {
        Called::Serve(serving) => run_serve(rt, serving),
        Called::Check {
            config,
            lines,
            repository,
        } => run_check(rt, config, lines, repository),
        Called::Keys { config, keys } => run_keys(rt, config, keys),
        Called::Verify(folder) => Ok(run_verify(rt, folder)?),
        Called::Dump { folder, name } => Ok(run_dump(rt, folder, name)?),
        Called::Checkpoint {
            config,
            folder,
            is_quiet,
        } => { run_checkpoint(rt, config, folder, is_quiet) }
        Called::Xml(path) => run_xml(rt, path),
    }
}

/// Serves the configuration in the file on the port, with the journal in the folder, and behind the keys in a file.
fn run_serve(rt: &HostRuntime, serving: Serving<'_>) -> Result<(), Failure> {
    let written = read_checked(rt, serving.config)?;
    let rings = read_rings(rt, serving.keys, written.config())?;
    warn_of(rt, &serving);
    let mut place = HostPlace::new(rt, serving.folder, serving.port, Wary, Wary)
        .listening_at(serving.address)
        .checkpointing_after(serving.max_tail)
        .quiet(serving.is_quiet);
    Ok(outcome_of(serve(rt.alloc(), &mut place, rt, written, rings))?)
}

/// Warns of an address that other machines may reach.
fn warn_of(rt: &impl Eprint, serving: &Serving<'_>) {
    if serving.address.is_loopback() {
        return;
    }
    let (address, why) = (serving.address, why_not(serving.keys.is_some()));
    let _ = eprintln!(rt; "warning: {address} is no loopback address: {why}");
}

/// What is wrong with such an address, with keys or without.
fn why_not(has_keys: bool) -> &'static str {
    if has_keys {
        "keys reach it unencrypted"
    } else {
        "whoever reaches it can change the archive"
    }
}

/// Reads the journal in the folder, and writes how many records and bytes it has.
fn run_verify(
    rt: &(impl Files<File = File> + Print + AllocGlobal),
    folder: &str,
) -> Result<(), ServerStop> {
    let journal = open_to_read(rt, folder)?;
    verify_journal(rt.alloc(), journal, &mut io::writer(rt))
}

/// Writes what the repository with that name holds, by the journal in the folder.
fn run_dump(
    rt: &(impl Files<File = File> + Print + AllocGlobal),
    folder: &str,
    name: &str,
) -> Result<(), ServerStop> {
    let journal = open_to_read(rt, folder)?;
    let Ok(mut writer) = BufWriter::new(rt.alloc(), io::writer(rt)) else {
        return Err(ServerStop::Common(Stop::NoMemory));
    };
    dump_repository(rt.alloc(), journal, name, &mut writer)
}

/// The journal in the folder, opened for reading.
fn open_to_read(
    rt: &(impl Files<File = File> + AllocGlobal),
    folder: &str,
) -> Result<ReadFile, ServerStop> {
    let path = format!(in rt.alloc(); "{folder}/journal")?;
    match File::open(rt, path.as_str()) {
        Ok(file) => Ok(ReadFile::new(file)),
        Err(error) if error.kind() == ErrorKind::OutOfMemory => Err(ServerStop::Common(
            Stop::NoMemory,
        )),
        Err(_) => Err(ServerStop::CannotOpen),
    }
}

/// Replaces the journal in the folder by a checkpoint, with the configuration in the file.
fn run_checkpoint(
    rt: &HostRuntime,
    path: &str,
    folder: &str,
    is_quiet: bool,
) -> Result<(), Failure> {
    let written = read_checked(rt, path)?;
    let mut place = HostPlace::new(rt, folder, 0, Wary, Wary).quiet(is_quiet);
    Ok(checkpoint_folder(rt.alloc(), &mut place, rt, written, &mut io::writer(rt))?)
}

/// Ends with the status of what was done, and writes to standard error why it was not. If that fails, its status still
/// shows it.
fn exit_of(rt: &(impl Eprint + AllocGlobal), done: Result<(), Failure>) -> ExitCode
    ensures { exit_status result ≡ status.command_status done }
{
    match done {
        Ok(()) => ExitCode::SUCCESS,
        Err(Failure::Stop(stop)) => stopped(rt, stop),
        Err(Failure::Config(fault, text)) => {
            let report = report_of(rt.alloc(), &text, fault);
            if report.is_empty() {
                return stopped(rt, ServerStop::Common(Stop::BadConfig(fault)));
            }
            let _ = eprint!(rt; "{report}");
            ExitCode::from(Stop::BadConfig(fault).status())
        }
        Err(Failure::Keys(fault)) => misused(rt, fault),
        Err(Failure::NoKeys) => misused(rt, "keys: cannot read"),
        Err(Failure::NoRepository) => misused(rt, "check: no such repository"),
        Err(Failure::NoLines) => misused(rt, "lines: cannot read"),
        Err(Failure::NoElement) => misused(rt, "xml: cannot read"),
        Err(Failure::Refused) => ExitCode::FAILURE,
    }
}

/// Writes to standard error what is wrong with an argument, or with the file that it names.
fn misused(rt: &impl Eprint, message: impl Display + Drop) -> ExitCode
    ensures { exit_status result ≡ 2 }
{
    let _ = eprintln!(rt; "{message}");
    ExitCode::from(2)
}

/// Writes the help or the version to standard output, or what is wrong with the arguments to standard error.
fn answered(rt: &HostRuntime, error: &Error) -> ExitCode {
    match (error.print(rt), error.use_stderr()) {
        (Ok(()), false) => ExitCode::SUCCESS,
        (Err(_), false) => stopped(rt, ServerStop::Common(Stop::OutputFault)),
        (_, true) => ExitCode::from(2),
    }
}

/// Writes to standard error why the program stopped. If that fails, its status still shows it.
fn stopped(rt: &impl Eprint, stop: ServerStop) -> ExitCode
    ensures { exit_status result ≡ spec.server_status_of stop }
{
    let _ = eprintln!(rt; "{stop}");
    ExitCode::from(stop.status())
}
