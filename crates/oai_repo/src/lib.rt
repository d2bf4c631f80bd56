//! One repository: what it answers to the requests of OAI-PMH, and what deposits change in it.
#![tactic(auto)]

mod laws;
mod lists;
mod parts;
mod passes;
mod records;
mod repo;
mod requests;
mod responses;
mod restores;
mod saved_parts;
mod tokens;
mod view;

pub use laws::{listed_law, put_law, restore_law, tick_law, unseen_law};
pub use oai_item::Refusal;
pub use oai_settings::RepoConfig;
pub use repo::Repo;
pub use responses::{Replay, Replied, Reply};
pub use saved_parts::{SavedList, SavedPart};
pub use view::verb_name;
