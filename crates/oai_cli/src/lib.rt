//! The commands of `oaihost`, over any readers, writers, streams and clocks: the exchanges and the connections in the
//! lines of an input, and the connections that it serves.
#![tactic(auto)]

mod ask;
mod connections;
mod input;
mod laws;
mod serve;
mod trace;

pub use ask::answers::write_answer;
pub use ask::ask_lines;
pub use laws::{limit_law, line_law};
pub use serve::serve_port;
pub use serve::streams::{StreamFault, serve_stream};
pub use trace::{MAX_CONNECTIONS, trace_lines};
