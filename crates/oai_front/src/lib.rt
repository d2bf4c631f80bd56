//! Connections of HTTP/1.x (RFC 9112): bytes arrive in pieces, complete messages are performed in order, and their
//! answers wait to be written.
#![tactic(auto)]

mod connections;
mod faults;
mod fields;
mod framings;
mod fronts;
mod heads;
mod laws;
mod messages;
mod numbers;
mod queues;
mod request_heads;
mod stages;

pub use connections::Connection;
pub use faults::{NoSuchConnection, OpenFault, PieceFault};
pub use framings::{MAX_BODY_BYTES, MAX_DEPOSIT_BYTES};
pub use fronts::Front;
pub use laws::{cut_law, head_law, limit_law, run_law, split_law};
pub use numbers::{ConnId, LAST_NUMBER};
pub use request_heads::{MAX_HEAD_BYTES, MAX_HEAD_FIELDS};
