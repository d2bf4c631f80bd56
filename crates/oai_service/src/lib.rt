//! The theorem of a server over all its lives, in one place.
#![tactic(auto)]

mod laws;
mod programs;

pub use laws::{
    killed_law, online_service_law, service_law, service_on_files_law, worked_lives_law,
};
pub use programs::program_life_law;
