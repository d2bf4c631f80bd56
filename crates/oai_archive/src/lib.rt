//! An archive that nobody serves, as its journal on a disk: its first record, what it holds, and its checkpoints; and
//! why a program that works on it stops.
#![tactic(auto)]

mod checkpoints;
mod differences;
mod dumps;
mod firsts;
mod journals;
mod laws;
mod read_files;
mod recoveries;
mod stop;
mod verify;

pub use checkpoints::write_checkpoint;
pub use differences::check_differences;
pub use dumps::dump_repository;
pub use firsts::VERSION;
pub use journals::{begin_for, begin_reading, config_text, create_journal, forms_with_config};
pub use laws::same_config_law;
pub use read_files::ReadFile;
pub use recoveries::{stop_of_checkpoint, stop_of_recovery};
pub use stop::{Aspect, Difference, Second, ServerStop, fault_word};
pub use verify::{verify_journal, write_verified};
