//! Serves the repositories of a configuration, whose records are lists of fields, over many connections at once, with
//! nothing made durable.
#![tactic(auto)]

use oai_bytes::read_number;
use oai_device::FileDevice;
use oai_http::{Handler, Settled};
use oai_item::Forms;
use oai_serving::{Listener, ServeFault, Server, Volatile};
use oai_startup::{Stop, empty_file, host_on, read_config};
use std::alloc::Global;
use std::fs::File;
use std::net::{Ipv4Addr, Net, SocketAddr, SocketAddrV4};
use std::process::ExitCode;
use std::rt::{Clock, Env, Files};
use std::{env, io};

fn main(rt: HostRuntime) -> io::Result<ExitCode> {
    let done = match called_for(&rt) {
        Some((path, port, spill)) => run(&rt, path.as_str(), port, spill.as_str()),
        None => Err(Stop::Usage),
    };
    match done {
        Ok(()) => Ok(ExitCode::SUCCESS),
        Err(stop) => stopped(&rt, stop),
    }
}

/// The path of a configuration, a port, and the path of the file of the pages.
fn called_for(rt: &(impl Env + AllocGlobal)) -> Option<(String, u16, String)> {
    let Ok(mut arguments) = env::args(rt) else {
        return None;
    };
    let _program = arguments.next();
    let path = arguments.next();
    let port = arguments.next();
    let spill = arguments.next();
    match (path, port, spill) {
        (Some(path), Some(port), Some(spill)) => match read_port(port.as_bytes()) {
            Some(port) => Some((path, port, spill)),
            None => None,
        },
        _ => None,
    }
}

/// Reads a port: decimal digits alone, below 65,536.
fn read_port(text: &[u8]) -> Option<u16> {
    u16::try_from(read_number(text)?).ok()
}

/// Serves the configuration at the port of 127.0.0.1 until it is killed.
fn run(
    rt: &(impl Files<File = File> + Net + Clock + Print + AllocGlobal),
    path: &str,
    port: u16,
    spill: &str,
) -> Result<(), Stop> {
    let config = read_config(rt, Forms::Fields, path)?;
    let device = FileDevice::new(empty_file(rt, spill)?);
    let host = host_on(rt.alloc(), config, device)?;
    serve_over(rt, host, port)
}

/// Serves the handler at the port.
fn serve_over<H: Handler + Drop>(
    rt: &(impl Net + Clock + Print + AllocGlobal),
    handler: H,
    port: u16,
) -> Result<(), Stop> {
    let mut listener = listen(rt, port)?;
    serve_at(rt.alloc(), rt, Volatile::new(handler), &mut listener)
}

/// Listens at the port of 127.0.0.1, and says at which; port 0 is a free one.
fn listen(rt: &(impl Net + Print + AllocGlobal), port: u16) -> Result<Listener, Stop> {
    let address = SocketAddr::V4(SocketAddrV4::new(Ipv4Addr::LOCALHOST, port));
    let Ok(listener) = Listener::bind(rt.alloc(), rt, address) else {
        return Err(Stop::SocketFault);
    };
    match say_address(rt, &listener) {
        Ok(()) => Ok(listener),
        Err(stop) => Err(stop),
    }
}

/// Says at which port it listens.
fn say_address(rt: &impl Print, listener: &Listener) -> Result<(), Stop> {
    let Ok(address) = listener.address() else {
        return Err(Stop::SocketFault);
    };
    match println!(rt; "listening on 127.0.0.1:{}", address.port()) {
        Ok(()) => Ok(()),
        Err(_) => Err(Stop::OutputFault),
    }
}

/// Serves the handler until it is killed.
fn serve_at<H: Settled + Drop, C: Clock>(
    alloc: Global,
    clock: &C,
    handler: H,
    listener: &mut Listener,
) -> Result<(), Stop> {
    let Ok(mut server) = Server::new(alloc, handler) else {
        return Err(Stop::NoMemory);
    };
    match server.serve(listener, clock) {
        Ok(()) => Ok(()),
        Err(fault) => Err(stop_of(fault)),
    }
}

/// Why the program stops, where the server ended.
fn stop_of(fault: ServeFault) -> Stop {
    match fault {
        ServeFault::Wait => Stop::SocketFault,
        ServeFault::Clock => Stop::SocketFault,
        ServeFault::Unsettled => Stop::DeviceFault,
    }
}

/// Says on standard error why the program stopped.
fn stopped(rt: &impl Eprint, stop: Stop) -> io::Result<ExitCode> {
    eprintln!(rt; "{stop}")?;
    Ok(ExitCode::from(stop.status()))
}
