//! Requests over HTTP and their answers: exchanges and their statuses, the endpoint of a target, the media type of a
//! body, the traits of what performs messages, and helpers for bytes.
#![tactic(auto)]

mod bodies;
mod bytes;
mod exchanges;
mod handlers;
mod statuses;
mod targets;
mod texts;

pub use bodies::{FORM, is_form};
pub use bytes::{len_before, put};
pub use exchanges::{Answer, Call, Exchange};
pub use handlers::{Handler, SettleFault, Settled};
pub use statuses::Status;
pub use targets::{
    DEPOSITS_FRONT, Endpoint, REQUESTS_FRONT, Target, TargetPath, parse_path, path_law,
};
pub use texts::trim;
