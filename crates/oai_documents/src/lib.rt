//! The documents that answer the requests of OAI-PMH 2.0 are well-formed XML: each is the spelling of a tree. Laws
//! alone; no code calls this crate.
#![tactic(auto)]

mod laws;

pub use laws::{answers_law, commands_law, read_law, schema_law, spelled_law, well_formed_law};
