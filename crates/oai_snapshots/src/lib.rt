//! A snapshot of a repository with its open lists, which is handed out part by part while the repository serves.
#![tactic(auto)]

mod batches;
mod freezing;
mod laws;
mod places;
mod reading;
mod snapshots;
mod versions;

pub use batches::Batch;
pub use laws::snapshot_law;
pub use snapshots::Snapshot;
pub use versions::{SnapshotList, SnapshotVersion};
