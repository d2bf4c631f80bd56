//! The theorem of a host, in one place: its repositories behave as if each were alone, and a list that is followed is
//! what was selected, whatever memory was refused and whichever device calls failed.
#![tactic(auto)]

mod documents;
mod harvests;
mod laws;
mod runs;
mod served;
mod texts;

pub use documents::documents_law;
pub use harvests::client_harvests_law;
pub use laws::{
    carried_law, place_law, throughout_law, throughout_on_pages_law, throughout_runs_law,
    visits_law, worked_faults_law, worked_headline_law,
};
pub use runs::host_law;
pub use served::pages_law;
pub use texts::texts_law;
