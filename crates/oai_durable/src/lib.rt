//! A handler that outlives its process: what it performs is logged in a journal before an answer is sent, and replayed
//! after a crash.
#![tactic(auto)]

mod checkpointed;
mod checkpoints;
mod either;
mod folders;
mod journaled;
mod laws;
mod online_checkpoints;
mod records;
mod recovery;
mod steps;

pub use checkpointed::Checkpointed;
pub use checkpoints::{CheckpointFault, checkpoint};
pub use either::EitherJournal;
pub use folders::{CheckpointNote, Folder, Measured, Replacement};
pub use journaled::Journaled;
pub use laws::{
    checkpointed_law, life_law, moved_law, online_checkpoint_law, recovery_law, restart_law,
    service_law, stages_law, stood_law, switch_law,
};
pub use online_checkpoints::OnlineCheckpoint;
pub use recovery::{Progress, RecoverFault, recover, resume};
