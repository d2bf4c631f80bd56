//! The settings of a repository, and the configuration that they make: the rules of its names, its limits
//! and its metadata formats.
#![tactic(auto)]

mod config;
mod settings;

pub use config::RepoConfig;
pub use settings::{ConfigFault, FormatSettings, Settings};
