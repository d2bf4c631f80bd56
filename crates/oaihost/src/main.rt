//! `oaihost`: a data provider for OAI-PMH 2.0 that hosts many repositories.
#![tactic(auto)]

ghost use Rattle.std.specs.Prelude.{◌≡◌, IfOk};
ghost use Rattle.std.specs.Process.{exit_status};
ghost use Rattle.oai_startup.specs.Stops as spec;

use oai_bytes::read_number;
use oai_cli::{MAX_CONNECTIONS, ask_lines, serve_port, trace_lines};
use oai_device::{FileDevice, MemoryDevice};
use oai_front::Front;
use oai_item::Forms;
use oai_startup::{Stop, check_config, empty_file, host_on, read_config, read_file, warnings_in};
use std::env;
use std::fs::File;
use std::io::{self, BufWriter};
use std::process::ExitCode;
use std::rt::{Clock, Env, Files, Net};

/// The program's commands, with the path of a configuration.
#[derive(Drop)]
enum Command {
    /// Checks whether the configuration is valid.
    Check(String),
    /// Performs the exchanges of standard input on the repositories of the configuration.
    Ask(String),
    /// Performs the lines of standard input, each a piece or the end of a connection.
    Trace(String),
    /// Serves that many connections on a port of 127.0.0.1, with the pages in the file at the second path.
    Serve(String, u16, String, u64),
}

fn main(rt: HostRuntime) -> io::Result<ExitCode> {
    let done = match called_for(&rt) {
        Ok(Command::Check(path)) => run_check(&rt, path.as_str()),
        Ok(Command::Ask(path)) => run_ask(&rt, path.as_str()),
        Ok(Command::Trace(path)) => run_trace(&rt, path.as_str()),
        Ok(Command::Serve(path, port, spill, connections)) => {
            run_serve(&rt, path.as_str(), port, spill.as_str(), connections)
        }
        Err(stop) => Err(stop),
    };
    match done {
        Ok(()) => Ok(ExitCode::SUCCESS),
        Err(stop) => stopped(&rt, stop),
    }
}

/// The command of the arguments.
fn called_for(rt: &(impl Env + AllocGlobal)) -> Result<Command, Stop> {
    let Ok(mut arguments) = env::args(rt) else {
        return Err(Stop::NoMemory);
    };
    let _program = arguments.next();
    let word = arguments.next();
    let path = arguments.next();
    let port = arguments.next();
    let spill = arguments.next();
    let connections = arguments.next();
    let others = arguments.next();
    match (word, path, port, spill, connections, others) {
        (Some(word), Some(path), None, None, None, None) => command_named(word.as_str(), path),
        (Some(word), Some(path), Some(port), Some(spill), Some(connections), None) => {
            to_serve(
                word.as_str(),
                path,
                port.as_bytes(),
                spill,
                connections.as_bytes(),
            )
        }
        _ => Err(Stop::Usage),
    }
}

/// The command to serve, with that port, that file and that many connections.
fn to_serve(
    word: &str,
    path: String,
    port: &[u8],
    spill: String,
    connections: &[u8],
) -> Result<Command, Stop> {
    match (word, read_port(port), read_number(connections)) {
        ("serve", Some(port), Some(connections)) => {
            Ok(Command::Serve(path, port, spill, connections))
        }
        _ => Err(Stop::Usage),
    }
}

/// Parses a port: decimal digits alone, below 65,536.
fn read_port(text: &[u8]) -> Option<u16> {
    u16::try_from(read_number(text)?).ok()
}

/// The command with that name.
fn command_named(word: &str, path: String) -> Result<Command, Stop> {
    match word {
        "check" => Ok(Command::Check(path)),
        "ask" => Ok(Command::Ask(path)),
        "trace" => Ok(Command::Trace(path)),
        _ => Err(Stop::Usage),
    }
}

/// Writes how many repositories the configuration has, and its warnings on standard error: what makes documents
/// invalid, or is of no use to a harvester. A warning that cannot be written ends nothing.
fn run_check(rt: &(impl Files + Print + Eprint + AllocGlobal), path: &str) -> Result<(), Stop> {
    let text = read_file(rt, path)?;
    check_config(rt.alloc(), Forms::Fields, &text, &mut io::writer(rt))?;
    if let Ok(warnings) = warnings_in(rt.alloc(), Forms::Fields, &text) {
        let _ = eprint!(rt; "{warnings}");
    }
    Ok(())
}

/// Performs the exchanges of standard input on the repositories of the configuration.
fn run_ask(rt: &(impl Files + Input + Print + AllocGlobal), path: &str) -> Result<(), Stop> {
    let alloc = rt.alloc();
    let config = read_config(rt, Forms::Fields, path)?;
    let mut host = host_on(alloc, config, MemoryDevice::new(alloc))?;
    let Ok(mut writer) = BufWriter::new(alloc, io::writer(rt)) else {
        return Err(Stop::NoMemory);
    };
    ask_lines(alloc, &mut host, &mut rt.reader(), &mut writer)
}

/// Performs the lines of standard input, each a piece or the end of a connection to the repositories of the
/// configuration.
fn run_trace(rt: &(impl Files + Input + Print + AllocGlobal), path: &str) -> Result<(), Stop> {
    let alloc = rt.alloc();
    let config = read_config(rt, Forms::Fields, path)?;
    let host = host_on(alloc, config, MemoryDevice::new(alloc))?;
    let mut front = Front::new(alloc, host, MAX_CONNECTIONS);
    let Ok(mut writer) = BufWriter::new(alloc, io::writer(rt)) else {
        return Err(Stop::NoMemory);
    };
    trace_lines(alloc, &mut front, &mut rt.reader(), &mut writer)
}

/// Serves that many connections to the repositories of the configuration, one after the other, with the pages in the
/// file `spill`, which is created or truncated once the configuration is read.
fn run_serve(
    rt: &(impl Files<File = File> + Net + Clock + Print + AllocGlobal),
    path: &str,
    port: u16,
    spill: &str,
    connections: u64,
) -> Result<(), Stop> {
    let alloc = rt.alloc();
    let config = read_config(rt, Forms::Fields, path)?;
    let device = FileDevice::new(empty_file(rt, spill)?);
    let host = host_on(alloc, config, device)?;
    let mut front = Front::new(alloc, host, 1);
    serve_port(rt, &mut front, port, connections)
}

/// Writes to standard error why the program stopped.
fn stopped(rt: &impl Eprint, stop: Stop) -> io::Result<ExitCode>
    ensures { IfOk result (λ code. exit_status code ≡ spec.status_of stop) }
{
    eprintln!(rt; "{stop}")?;
    Ok(ExitCode::from(stop.status()))
}
