//! Keys of depositors: the key of a message, which messages are admitted, a handler in front of which keys are asked
//! for, and how keys are read.
#![tactic(auto)]

mod admissions;
mod faults;
mod guarded;
mod laws;
mod readings;
mod rings;
mod tokens;
mod warnings;

pub use admissions::is_admitted;
pub use faults::KeysFault;
pub use guarded::Guarded;
pub use laws::key_law;
pub use readings::read_keys;
pub use rings::Ring;
pub use tokens::bearer_key;
pub use warnings::write_warnings;
