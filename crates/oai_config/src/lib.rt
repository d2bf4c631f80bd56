//! The configuration of a host: how it is parsed from a text, and why a text is none.
#![tactic(auto)]

mod causes;
mod config;
mod faults;
mod formats;
mod host_settings;
mod members;
mod repositories;
mod warnings;

pub use config::{Config, NamedConfig};
pub use faults::{ReadFault, fault_law};
pub use host_settings::shape_law;
pub use warnings::write_warnings;
