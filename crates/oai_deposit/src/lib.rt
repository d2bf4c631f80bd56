//! Deposit lines: the change that a line of JSON requests of a repository, or why the line is refused; and what a
//! repository holds, as the lines that deposit it again.
#![tactic(auto)]

mod about_texts;
mod changes;
mod deposit_texts;
mod dump_values;
mod dumps;
mod faults;
mod given_elements;
mod lines;
mod members;
mod records;
mod tokens;

pub use changes::Change;
pub use dumps::{deletion_line, deposit_line, dump_law, set_line};
pub use faults::LineFault;
pub use lines::{forms_law, read_line, shape_law};
