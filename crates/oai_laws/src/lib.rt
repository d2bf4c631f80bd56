//! What holds of a repository in the course of time, whatever it is asked and whatever is deposited: lists, tokens,
//! changes, and the copy of a harvester that harvests it repeatedly.
#![tactic(auto)]

mod eras;
mod harvests;
mod laws;

pub use eras::ended_lists_law;
pub use harvests::{harvest_law, worked_harvests_law};
pub use laws::{
    change_law, effect_law, following_law, number_law, selected_law, shown_law, token_law,
    worked_law,
};
