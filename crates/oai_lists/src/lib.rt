//! The open lists of a repository, and the resumption tokens that continue them (OAI-PMH 2.0, section 3.5).
#![tactic(auto)]

mod lists;
mod open_lists;
mod tokens;

pub use lists::{LAST_NUMBER, Lists, OpenListFault, ReopenFault};
pub use open_lists::{Mark, NewList, OpenList};
pub use tokens::{Token, read_decimal};
