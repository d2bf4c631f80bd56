//! A journal, a write-ahead log: records that are only appended, of which a crash leaves a prefix that has all durable
//! ones; and its file, of frames in commit groups that no crash can tear.
#![tactic(auto)]

mod blocks;
mod changes;
mod copies;
mod file;
mod frames;
mod groups;
mod heads;
mod journals;
mod laws;
mod readings;
mod records;
mod recovery;
mod tails;

pub use copies::copy_some;
pub use file::FileJournal;
pub use journals::{Journal, JournalFault};
pub use laws::{crash_law, damage_law, one_journal_law};
pub use records::{Kind, LogRecord, MAX_BODY, MAX_FIRST_BODY, MAX_NAME};
pub use recovery::{Recovery, RecoveryFault};
pub use tails::Tail;
