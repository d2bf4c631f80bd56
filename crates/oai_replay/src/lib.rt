//! The state of a handler: what was performed, in a form that can be replayed, and the parts in which the state is saved
//! and restored.
#![tactic(auto)]

mod parts;
mod replays;

pub use parts::{Part, PartKind, SaveFault, Sink, SinkFault};
pub use replays::{Performed, RecordedAnswer, Replayed};
