//! The keys of depositors in a file.
use crate::configurations::{Failure, read_checked};
use oai_config::Config;
use oai_keys::{Ring, read_keys, write_warnings};
use oai_names::Sequence;
use oai_startup::{Stop, read_file};

/// Writes how many repositories of the configuration have keys in the file, and on standard error which have none.
pub(crate) fn run_keys(rt: &HostRuntime, config: &str, path: &str) -> Result<(), Failure> {
    let written = read_checked(rt, config)?;
    let config = written.config();
    let rings = rings_in(rt, path, config)?;
    if println!(rt; "ok {}", rings.len()).is_err() {
        return Err(Failure::from(Stop::OutputFault));
    }
    warn_of_open(rt, config, &rings);
    Ok(())
}

/// The keys in the file, for that configuration; none without a file. Each repository that has none in the file gets a
/// warning on standard error.
pub(crate) fn read_rings(
    rt: &HostRuntime,
    path: Option<&str>,
    config: &Config,
) -> Result<Sequence<Ring>, Failure> {
    let Some(path) = path else {
        return Ok(Sequence::new(Vec::new(rt.alloc())));
    };
    let rings = rings_in(rt, path, config)?;
    warn_of_open(rt, config, &rings);
    Ok(rings)
}

/// The keys in the file.
fn rings_in(rt: &HostRuntime, path: &str, config: &Config) -> Result<Sequence<Ring>, Failure> {
    let bytes = match read_file(rt, path) {
        Ok(bytes) => bytes,
        Err(Stop::CannotRead) => return Err(Failure::NoKeys),
        Err(stop) => return Err(Failure::from(stop)),
    };
    Ok(read_keys(rt.alloc(), &bytes, config)?)
}

/// Warns of each repository without keys, if memory is available for the text.
fn warn_of_open(rt: &HostRuntime, config: &Config, rings: &Sequence<Ring>) {
    let mut warnings = String::new(rt.alloc());
    if write_warnings(config, rings.as_slice(), &mut warnings).is_ok() {
        let _ = eprint!(rt; "{warnings}");
    }
}
