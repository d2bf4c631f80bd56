//! Many connections at once on one thread, each with bounded memory.
#![tactic(auto)]

mod faults;
mod laws;
mod links;
mod listeners;
mod phases;
mod servers;
mod sockets;
mod tables;
mod volatile;

pub use faults::ServeFault;
pub use laws::begin_law;
pub use links::{Link, READ_BYTES};
pub use listeners::{Listener, Socket};
pub use servers::Server;
pub use sockets::{Readiness, Sockets, Stream};
pub use tables::MAX_LINKS;
pub use volatile::Volatile;
