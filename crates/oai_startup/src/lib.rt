//! What both programs do at startup, and why they stop: the configuration is read from its file, the pages get their
//! file, and a host is made of the configuration over them. A law says which rules an accepted configuration satisfies.
#![tactic(auto)]

mod configurations;
mod limits;
mod pages;
mod rules;
mod stop;
mod written_configs;

pub use configurations::{
    check_config, config_in, host_over, read_config, read_file, warnings_in, warnings_of,
    write_checked,
};
pub use limits::{MAX_READS, READ_BYTES};
pub use pages::{empty_file, host_on};
pub use rules::rules_law;
pub use stop::Stop;
pub use written_configs::WrittenConfig;
