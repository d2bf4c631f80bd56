//! Devices for the tests of what stands on pools: one that counts its calls, one that gives a byte inverted, one that gives another
//! page, one that is refused memory, and an honest one over a file in memory. It holds no tests.
#![tactic(auto)]

mod byte_file;
mod counting;
mod lying;
mod overwritten;
mod refusing;

pub use byte_file::{ByteFile, device_in_memory, read_back};
pub use counting::CountingDevice;
pub use lying::LyingDevice;
pub use overwritten::OverwrittenDevice;
pub use refusing::RefusingDevice;
