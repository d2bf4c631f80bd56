//! Many repositories behind one interface: which of them an exchange is for, what its answer is, and that repositories
//! are isolated from each other.
#![tactic(auto)]

mod deposits;
mod dispatch;
mod host;
mod host_snapshots;
mod laws;
mod list_parts;
mod records;
mod repositories;
mod restores;
mod routes;
mod saves;
mod saving;

pub use host::Host;
pub use laws::{failures_law, host_snapshots_law};
pub use oai_config::{Config, ReadFault};
pub use oai_http::{Answer, Call, Exchange, Status, Target};
