//! Lines that are performed on a new host, and what is written for them.
use oai_catalogue::Versions;
use oai_cli::ask_lines;
use oai_device::{MemoryDevice, PageDevice};
use oai_host::{Config, Host};
use oai_item::Forms;
use oai_paged::PagedVersions;
use oai_startup::{Stop, config_in, host_on};
use std::alloc::Global;
use std::io::{Read, Write};
use std::panic::Expect;
use std::process::Abort;
use tests_fixtures::worked_configuration;

/// The worked configuration.
fn config(rt: &impl Abort, alloc: Global) -> Config {
    config_in(alloc, Forms::Fields, worked_configuration().as_bytes()).expect(rt, "config_in")
}

/// A new host over pages of the device.
pub(crate) fn host_over<D: PageDevice>(
    rt: &impl Abort,
    alloc: Global,
    device: D,
) -> Host<PagedVersions<D>> {
    host_on(alloc, config(rt, alloc), device).expect(rt, "host_on")
}

/// A new host over pages in memory, as the program has it.
pub(crate) fn new_host(rt: &impl Abort, alloc: Global) -> Host<PagedVersions<MemoryDevice>> {
    host_over(rt, alloc, MemoryDevice::new(alloc))
}

/// Performs the lines that the reader gives on the host; why that stopped, if it did.
fn performed_on<V: Versions + Drop, R: Read, W: Write>(
    alloc: Global,
    mut host: Host<V>,
    reader: &mut R,
    writer: &mut W,
) -> Result<(), Stop> {
    ask_lines(alloc, &mut host, reader, writer)
}

/// The same on a new host.
pub(crate) fn performed<R: Read, W: Write>(
    rt: &impl Abort,
    alloc: Global,
    reader: &mut R,
    writer: &mut W,
) -> Result<(), Stop> {
    performed_on(alloc, new_host(rt, alloc), reader, writer)
}

/// What is written for the lines that the reader gives.
pub(crate) fn written<R: Read>(rt: &impl Abort, alloc: Global, reader: &mut R) -> Vec<u8> {
    let mut output = Vec::new(alloc);
    performed(rt, alloc, reader, &mut output).expect(rt, "memory");
    output
}

/// Why the program stops at what the reader gives.
pub(crate) fn stop_of<R: Read>(rt: &impl Abort, alloc: Global, reader: &mut R) -> Stop {
    let mut output = Vec::new(alloc);
    match performed(rt, alloc, reader, &mut output) {
        Ok(()) => panic!(rt; "nothing stopped"),
        Err(stop) => stop,
    }
}
