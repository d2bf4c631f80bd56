//! The arguments of the requests of OAI-PMH 2.0: which of the six verbs is requested, and with what.
#![tactic(auto)]

mod arguments;
mod bounds;
mod decodings;
mod forms;
mod occurrences;
mod requests;
mod roles;
mod verbs;

pub use bounds::BoundText;
pub use requests::{ArgFault, Ask, read_request, request_law};
