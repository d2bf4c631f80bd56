//! The check of a configuration, and of a file of deposit lines for one of its repositories.
use crate::configurations::{Failure, read_checked};
use oai_config::{Config, NamedConfig};
use oai_reports::LineFile;
use oai_startup::{Stop, read_file, warnings_of, write_checked};
use std::io;

/// Writes how many repositories the configuration in the file has, and its warnings on standard error. If there is a
/// file of lines, also how many lines it has and how many are refused, and on standard error where and why.
pub(crate) fn run_check(
    rt: &HostRuntime,
    path: &str,
    lines: Option<&str>,
    repository: Option<&str>,
) -> Result<(), Failure> {
    let written = read_checked(rt, path)?;
    let config = written.config();
    write_checked(config, &mut io::writer(rt))?;
    if let Ok(warnings) = warnings_of(rt.alloc(), config) {
        let _ = eprint!(rt; "{warnings}");
    }
    match lines {
        Some(lines) => check_lines(rt, config, lines, repository),
        None => Ok(()),
    }
}

/// Checks the lines in the file, for the repository with that name, or for the first one.
fn check_lines(
    rt: &HostRuntime,
    config: &Config,
    path: &str,
    repository: Option<&str>,
) -> Result<(), Failure> {
    let Some(named) = named_in(config, repository) else {
        return Err(Failure::NoRepository);
    };
    let bytes = match read_file(rt, path) {
        Ok(bytes) => bytes,
        Err(Stop::CannotRead) => return Err(Failure::NoLines),
        Err(stop) => return Err(Failure::from(stop)),
    };
    let mut file = LineFile::new(rt.alloc(), &named.config);
    for line in bytes.split(|b| *b == b'\n') {
        check_line(rt, &mut file, line)?;
    }
    write_sum(rt, named.name.as_str(), file.read(), file.refused())
}

/// The repository with that name; the first one if there is no name.
fn named_in<'a>(config: &'a Config, name: Option<&str>) -> Option<&'a NamedConfig> {
    match name {
        Some(name) => config
            .repositories()
            .iter()
            .find(|named| named.name.as_str() == name),
        None => config.repositories().first(),
    }
}

/// Checks the next line.
fn check_line(rt: &HostRuntime, file: &mut LineFile<'_>, line: &[u8]) -> Result<(), Failure> {
    match file.check(line) {
        Ok(Some(report)) => {
            let _ = eprintln!(rt; "{report}");
            Ok(())
        }
        Ok(None) => Ok(()),
        Err(_) => Err(Failure::from(Stop::NoMemory)),
    }
}

/// Writes how many lines there are and how many are refused.
fn write_sum(rt: &HostRuntime, name: &str, read: u64, refused: u64) -> Result<(), Failure> {
    if println!(rt; "repository {name}: {read} lines, {refused} refused").is_err() {
        return Err(Failure::from(Stop::OutputFault));
    }
    if refused != 0 {
        return Err(Failure::Refused);
    }
    Ok(())
}
