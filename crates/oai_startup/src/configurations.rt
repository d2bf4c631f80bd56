//! The configuration that the program is called with, and the host that it describes.
ghost use Rattle.std.specs.Prelude.{◌≡◌, map, Err, IfErr, IfOk, IfSome, OnOk, ◌≤◌, ◌+◌, length};
ghost use Rattle.std.specs.Io.KnownBytes.{Appends};
ghost use Rattle.std.specs.String.{string_bytes};
ghost use Rattle.oai_host.specs.Hosts.{begun};
ghost use Rattle.oai_config.specs.Reading.{IsRead};
ghost use Rattle.oai_config.specs.Warnings.{warnings_of};
ghost use Rattle.oai_startup.specs.Rules.{HaveRules};
ghost use Rattle.oai_startup.specs.Configurations as spec;
ghost use Rattle.oai_startup.specs.declared.stop.Stop.TheVariants.{NoMemory, OutputFault};

use crate::limits::{MAX_READS, READ_BYTES};
use crate::rules::rules_law;
use crate::stop::Stop;
use oai_catalogue::Versions;
use oai_config::write_warnings;
use oai_host::{Config, Host, ReadFault};
use oai_item::Forms;
use std::alloc::Global;
use std::fs;
use std::io::{ErrorKind, Read, Write};
use std::rt::Files;

/// The configuration in the file, of repositories whose records have these forms. The errors are `CannotRead`, also if
/// the file does not end within 1,000,000 reads, `BadConfig` and `NoMemory`.
pub fn read_config(
    rt: &(impl Files + AllocGlobal),
    forms: Forms,
    path: &str,
) -> Result<Config, Stop> {
    let text = read_file(rt, path)?;
    config_in(rt.alloc(), forms, &text)
}

/// The bytes of the file. The errors are `CannotRead`, also if the file does not end within 1,000,000 reads, and
/// `NoMemory`.
pub fn read_file(rt: &(impl Files + AllocGlobal), path: &str) -> Result<Vec<u8>, Stop> {
    let mut file = match fs::open(rt, path) {
        Ok(file) => file,
        Err(error) if error.kind() == ErrorKind::OutOfMemory => return Err(Stop::NoMemory),
        Err(_) => return Err(Stop::CannotRead),
    };
    read_text(rt.alloc(), &mut file)
}

/// The configuration in the text, of repositories whose records have these forms. The errors are `BadConfig`, with the
/// fault that `Config::read` returns, and `NoMemory`.
pub fn config_in(alloc: Global, forms: Forms, text: &[u8]) -> Result<Config, Stop>
    ensures read { spec.IsConfigIn forms text.now result }
    ensures rules { IfOk result HaveRules }
{
    match Config::read(alloc, forms, text) {
        Ok(config) => {
            rules_law(&config);
            Ok(config)
        }
        Err(ReadFault::NoMemory) => Err(Stop::NoMemory),
        Err(fault) => Err(Stop::BadConfig(fault)),
    }
}

/// The warnings of the configuration in the text, each a line: what makes documents invalid, or is of no use to a
/// harvester. The errors are `BadConfig`, with the fault that `Config::read` returns, and `NoMemory`.
pub fn warnings_in(alloc: Global, forms: Forms, text: &[u8]) -> Result<String, Stop>
    ensures warnings { IfOk result (λ warnings. spec.AreWarningsIn forms text.now
        (string_bytes warnings)) }
    ensures err { IfErr result (λ stop. spec.IsConfigIn forms text.now (Err stop)) }
{
    let config = match config_in(alloc, forms, text) {
        Ok(config) => config,
        Err(stop) => return Err(stop),
    };
    warnings_of(alloc, &config)
}

/// The warnings of the configuration, each a line, as `warnings_in` returns them. The error is `NoMemory`.
pub fn warnings_of(alloc: Global, config: &Config) -> Result<String, Stop>
    ensures warnings { IfOk result (λ warnings. string_bytes warnings ≡ warnings_of config.now) }
    ensures err { IfErr result (λ stop. stop ≡ NoMemory) }
{
    let mut warnings = String::new(alloc);
    match write_warnings(config, &mut warnings) {
        Ok(()) => Ok(warnings),
        Err(_) => Err(Stop::NoMemory),
    }
}

/// Checks the configuration in the text: writes `ok`, a space and the number of its repositories, as a line. The errors
/// are `BadConfig`, with the fault that `Config::read` returns, and `NoMemory`, after which nothing was written, and
/// `OutputFault`.
pub fn check_config<W: Write>(
    alloc: Global,
    forms: Forms,
    text: &[u8],
    writer: &mut W,
) -> Result<(), Stop>
    ensures { spec.IsChecked forms text.now result
        (Appends (W.Write.contents writer.old) (W.Write.contents writer.new)) }
{
    match config_in(alloc, forms, text) {
        Ok(config) => write_checked(&config, writer),
        Err(stop) => Err(stop),
    }
}

/// Writes `ok`, a space and the number of the configuration's repositories, as a line. The error is `OutputFault`.
pub fn write_checked<W: Write>(config: &Config, writer: &mut W) -> Result<(), Stop>
    ensures written { OnOk result (Appends (W.Write.contents writer.old)
        (W.Write.contents writer.new) (spec.checked_line (length config.now.repositories))) }
    ensures err { IfErr result (λ stop. stop ≡ OutputFault) }
{
    let repositories = config.len();
    if writeln!(writer, "ok {repositories}").is_err() {
        return Err(Stop::OutputFault);
    }
    if writer.flush().is_err() {
        return Err(Stop::OutputFault);
    }
    Ok(())
}

/// All bytes of the reader.
fn read_text<R: Read>(alloc: Global, reader: &mut R) -> Result<Vec<u8>, Stop>
    ensures text { IfOk result (λ text. IfSome (R.Read.remaining reader.old) (λ input. text.items
        ≡ input)) }
    ensures err { IfErr result spec.IsConfigurationUnread }
{
    let Ok(mut buffer) = vec![in alloc; 0u8; READ_BYTES] else {
        return Err(Stop::NoMemory);
    };
    let mut text = Vec::new(alloc);
    for _ in 0..MAX_READS {
        let Ok(count) = reader.read(&mut buffer) else {
            return Err(Stop::CannotRead);
        };
        if count == 0 {
            return Ok(text);
        }
        if text.extend_from_slice(&buffer[..count]).is_err() {
            return Err(Stop::NoMemory);
        }
    }
    Err(Stop::CannotRead)
}

/// The host of the configuration over that store, each of its repositories without items and sets. The device of the
/// store is as honest as it was, and room for one call for each repository is used up. The error is `NoMemory`.
pub fn host_over<V: Versions + Drop>(
    alloc: Global,
    config: Config,
    store: V,
) -> Result<Host<V>, Stop>
    ensures begun { IfOk result (λ host. host.repositories ≡ map begun config.repositories) }
    ensures honesty { IfOk result (λ host. host.honest ≡ V.honest store) }
    ensures count { IfOk result (λ host. V.failures store ≤ host.failures) }
    ensures room { IfOk result (λ host. V.room store ≤ host.room + length config.repositories) }
    ensures err { IfErr result (λ stop. stop ≡ NoMemory) }
{
    Host::new(alloc, config, store).map_err(|_| Stop::NoMemory)
}
