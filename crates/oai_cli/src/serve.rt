//! An HTTP server on this machine.
ghost use Rattle.std.specs.Prelude.{◌≡◌, [], ◌∷◌};
ghost use Rattle.std.specs.Net.Addr.{ipv4_octets};
ghost use Rattle.std.specs.Net.Socket.{v4_ip, v4_port};

pub(crate) mod buffers;
pub(crate) mod streams;

use crate::serve::streams::serve_stream;
use oai_front::Front;
use oai_http::Handler;
use oai_startup::Stop;
use std::alloc::Global;
use std::io::{self, Read, Write};
use std::net::{Ipv4Addr, Net, OpenListener, OpenStream, SocketAddr, SocketAddrV4};
use std::rt::Clock;
use std::time::Duration;

/// The timeout of a read or a write of a connection, in seconds.
const MAX_SECONDS: u64 = 60;

/// Listens on the port of 127.0.0.1, reports it, and serves that many connections, one after the other. Port 0 means a
/// free one. A fault of a connection ends only that one. The errors are `SocketFault`, if it cannot listen or accept a
/// connection, and `OutputFault`.
pub fn serve_port<R: Net + Clock + Print + AllocGlobal, H: Handler>(
    rt: &R,
    front: &mut Front<H>,
    port: u16,
    connections: u64,
) -> Result<(), Stop> {
    let alloc = rt.alloc();
    let Ok(listener) = rt.bind(SocketAddr::V4(local(port))) else {
        return Err(Stop::SocketFault);
    };
    let Ok(address) = listener.local_addr() else {
        return Err(Stop::SocketFault);
    };
    if println!(rt; "listening on 127.0.0.1:{}", address.port()).is_err() {
        return Err(Stop::OutputFault);
    }
    for _ in 0..connections {
        let Ok((stream, _)) = listener.accept() else {
            return Err(Stop::SocketFault);
        };
        serve_accepted(alloc, front, stream, rt);
    }
    Ok(())
}

/// The address of the port on the loopback interface.
fn local(port: u16) -> SocketAddrV4
    ensures address { ipv4_octets (v4_ip result) ≡ 127 ∷ 0 ∷ 0 ∷ 1 ∷ [] }
    ensures port { v4_port result ≡ port }
{
    SocketAddrV4::new(Ipv4Addr::LOCALHOST, port)
}

/// Serves a connection to its end, with timeouts; it ends at a fault.
fn serve_accepted<H: Handler, S: Read + Write + OpenStream + Drop, C: Clock>(
    alloc: Global,
    front: &mut Front<H>,
    mut stream: S,
    clock: &C,
) {
    if limit(&stream).is_ok() {
        let _ = serve_stream(alloc, front, &mut stream, clock);
    }
}

/// Sets the timeouts of the stream, and TCP_NODELAY.
fn limit<S: OpenStream>(stream: &S) -> io::Result<()> {
    let most = Some(Duration::from_secs(MAX_SECONDS));
    stream.set_read_timeout(most)?;
    stream.set_write_timeout(most)?;
    stream.set_nodelay(true)
}
