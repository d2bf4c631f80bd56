//! The command line of `oaihostd`: what each command takes, its help, and what is wrong with arguments that are none.
#![tactic(auto)]

mod calls;
mod commands;
mod texts;

pub use calls::{Called, Serving, read_arguments};
