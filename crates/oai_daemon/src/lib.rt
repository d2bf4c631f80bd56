//! The service of the durable server, behind its start: the event loop over the journaled host, its keys, what it reports,
//! and its figures.
#![tactic(auto)]

mod clocks;
mod counts;
mod folders;
mod laws;
mod service;
mod tallies;
mod watched;

pub use folders::NotedFolder;
pub use laws::{archive_law, whole_file_law};
pub use service::{Ended, Hosting, outcome_of, serve};
pub use watched::Watched;
