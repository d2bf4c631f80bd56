//! Writes what a repository of an archive holds, as deposit lines.
use crate::journals::{begin_reading, config_text, stop_of_reading};
use crate::recoveries::{Counted, stop_of_recovery};
use crate::stop::ServerStop;
use oai_config::Config;
use oai_deposit::{deletion_line, deposit_line, set_line};
use oai_device::MemoryDevice;
use oai_durable::{RecoverFault, recover};
use oai_item::{DecodeFault, Fault, Item};
use oai_journal::{Recovery, RecoveryFault};
use oai_names::SetSpec;
use oai_replay::{Part, PartKind, Replayed, SaveFault, Sink, SinkFault};
use oai_startup::{Stop, config_in, host_on};
use sqlite_disk::Disk;
use std::alloc::Global;
use std::io::Write;

/// Writes the sets and the items of the repository with that name as deposit lines, in an order in which they can be
/// deposited: the sets in the order in which they were added, and the items in their order, an element as its
/// text, and a deleted item as its deposit and its deletion. The journal on the disk is replayed with its pages in memory, and not written to. A server
/// may write to it meanwhile, as `verify_journal` says. The errors are those of `verify_journal`, `Performing`, and
/// `NoRepository`, after which nothing was written.
pub fn dump_repository<D: Disk + Drop, W: Write>(
    alloc: Global,
    disk: D,
    name: &str,
    writer: &mut W,
) -> Result<(), ServerStop> {
    let recovery = begin_reading(alloc, disk)?;
    let (forms, text) = config_text(alloc, &recovery)?;
    let config = config_in(alloc, forms, &text)?;
    check_name(&config, name)?;
    let host = host_on(alloc, config, MemoryDevice::new(alloc))?;
    dump_replayed(alloc, host, recovery, name, writer)
}

/// Replays the records of the journal by the handler, and writes what its repository of that name holds.
fn dump_replayed<H: Replayed + Drop, D: Disk + Drop, W: Write>(
    alloc: Global,
    mut handler: H,
    mut recovery: Recovery<D>,
    name: &str,
    writer: &mut W,
) -> Result<(), ServerStop> {
    perform_all(&mut handler, &mut recovery)?;
    let mut lines = Lines {
        alloc,
        name: name.as_bytes(),
        writer,
        stop: None,
    };
    let saved = handler.save(0, &mut lines);
    finish(saved, lines)
}

/// Replays all records. What looks like damage is read once more, and is damage if it is found at the same byte;
/// otherwise the journal ends where it is found then.
fn perform_all<H: Replayed, D: Disk + Drop>(
    handler: &mut H,
    recovery: &mut Recovery<D>,
) -> Result<(), ServerStop> {
    let mut done = Counted { records: 0 };
    let at = match recover(handler, recovery, &mut done) {
        Ok(_) => return Ok(()),
        Err(RecoverFault::Journal(RecoveryFault::Damaged(at))) => at,
        Err(fault) => return Err(stop_of_recovery(fault)),
    };
    read_again(recovery, at)?;
    match recover(handler, recovery, &mut Counted { records: 0 }) {
        Ok(_) => Ok(()),
        Err(RecoverFault::Journal(RecoveryFault::Damaged(again))) if again > at => Ok(()),
        Err(RecoverFault::Performing(number, fault)) => {
            Err(ServerStop::Performing(done.records.saturating_add(number), fault))
        }
        Err(fault) => Err(stop_of_recovery(fault)),
    }
}

/// Reads the journal once more, up to the commit byte at that position.
fn read_again<D: Disk + Drop>(recovery: &mut Recovery<D>, at: usize) -> Result<(), ServerStop> {
    match recovery.begin() {
        Ok(()) => {}
        Err(fault) => return Err(stop_of_reading(fault)),
    }
    for _ in 0..u64::MAX {
        if recovery.position() >= at {
            return Ok(());
        }
        match recovery.advance() {
            Ok(true) => {}
            Ok(false) => return Err(ServerStop::Damaged(recovery.position())),
            Err(fault) => return Err(stop_of_reading(fault)),
        }
    }
    Err(ServerStop::Common(Stop::InputFault))
}

/// Whether the configuration has a repository with that name. The error is `NoRepository`.
fn check_name(config: &Config, name: &str) -> Result<(), ServerStop> {
    if config
        .repositories()
        .iter()
        .any(|it| it.name.as_str() == name)
    {
        return Ok(());
    }
    Err(ServerStop::NoRepository)
}

/// Finishes the lines, whether or not all parts were saved.
fn finish<W: Write>(saved: Result<(), SaveFault>, lines: Lines<'_, W>) -> Result<(), ServerStop> {
    match saved {
        Ok(()) => {}
        Err(SaveFault::Reading(fault)) => return Err(stop_of_fault(fault)),
        Err(_) => return Err(lines.stop.unwrap_or(ServerStop::Common(Stop::OutputFault))),
    }
    match lines.writer.flush() {
        Ok(()) => Ok(()),
        Err(_) => Err(ServerStop::Common(Stop::OutputFault)),
    }
}

/// Why the items could not be read.
fn stop_of_fault(fault: Fault) -> ServerStop {
    match fault {
        Fault::NoMemory => ServerStop::Common(Stop::NoMemory),
        _ => ServerStop::Common(Stop::DeviceFault),
    }
}

/// A sink that writes the parts of one repository as deposit lines.
#[derive(Drop)]
struct Lines<'a, W> {
    alloc: Global,
    /// The name of the repository.
    name: &'a [u8],
    writer: &'a mut W,
    /// Why no further part was written.
    stop: Option<ServerStop>,
}

impl<W: Write> Sink for Lines<'_, W> {
    ghost use Rattle.std.specs.Prelude.{⊤};

    ghost has = { λ _ _. ⊤ };

    fn add(&mut self, part: &Part<'_>) -> Result<(), SinkFault> {
        if part.name != self.name {
            return Ok(());
        }
        match self.write_part(part) {
            Ok(()) => Ok(()),
            Err(stop) => {
                self.stop = Some(stop);
                Err(SinkFault)
            }
        }
    }
}

impl<W: Write> Lines<'_, W> {
    /// Writes the lines of a part. A state whose lists have ended has no item that is gone.
    fn write_part(&mut self, part: &Part<'_>) -> Result<(), ServerStop> {
        match part.kind {
            PartKind::Begin => Ok(()),
            PartKind::Set => self.write_set(part.bytes),
            PartKind::Item => self.write_item(part.bytes),
            PartKind::List => Ok(()),
            PartKind::Gone => Err(ServerStop::NotOurs),
        }
    }

    /// Writes the line of a set, from its setSpec, a space, and its name.
    fn write_set(&mut self, bytes: &[u8]) -> Result<(), ServerStop> {
        let Ok(text) = str::from_utf8(bytes) else {
            return Err(ServerStop::NotOurs);
        };
        let Some((spec, name)) = text.split_once(' ') else {
            return Err(ServerStop::NotOurs);
        };
        let Ok(spec) = SetSpec::read(self.alloc, spec) else {
            return Err(ServerStop::NotOurs);
        };
        let line = set_line(self.alloc, &spec, name)?;
        self.write_line(&line)
    }

    /// Writes the lines of an encoded item: its deposit, and for a deleted one its deletion.
    fn write_item(&mut self, bytes: &[u8]) -> Result<(), ServerStop> {
        let item = match Item::decode(self.alloc, bytes) {
            Ok(item) => item,
            Err(DecodeFault::NoMemory) => return Err(ServerStop::Common(Stop::NoMemory)),
            Err(_) => return Err(ServerStop::NotOurs),
        };
        let line = deposit_line(self.alloc, &item)?;
        self.write_line(&line)?;
        if item.is_live() {
            return Ok(());
        }
        let line = deletion_line(self.alloc, item.identifier())?;
        self.write_line(&line)
    }

    /// Writes a line and a line end.
    fn write_line(&mut self, line: &str) -> Result<(), ServerStop> {
        match writeln!(self.writer, "{line}") {
            Ok(()) => Ok(()),
            Err(_) => Err(ServerStop::Common(Stop::OutputFault)),
        }
    }
}
