//! A start of the durable server: crash recovery of the journal in a folder, checkpoints in its place, and the host that
//! they leave. Files, ports and streams are those of a `Place`; `HostPlace` has the system's.
#![tactic(auto)]

mod begun_checkpoints;
mod checkpoints;
mod dates;
mod folder_files;
mod host_folders;
mod host_places;
mod journals;
mod laws;
mod moments;
mod notices;
mod origins;
mod places;
mod recoveries;
mod renewals;
mod served_disks;
mod starts;
mod startups;

pub use begun_checkpoints::begin_checkpoint;
pub use checkpoints::checkpoint_folder;
pub use folder_files::Fresh;
pub use host_folders::HostFolder;
pub use host_places::HostPlace;
pub use laws::checkpoint_law;
pub use moments::{second_of, to_moment};
pub use notices::Notice;
pub use origins::Origin;
pub use places::Place;
pub use served_disks::ServedDisk;
pub use starts::{Started, start};
pub use startups::StartupFigures;
