//! What tests of several crates share: the worked configuration and texts of the worked exchanges; the
//! shorthand of transcripts, and exchanges as their lines; repositories for tests, one with a store of its
//! own, and two in one store; and a handler that repeats what it was asked. It holds no tests.
#![tactic(auto)]

mod archives;
mod exchanges;
mod scripts;
mod shared;
mod stocked;
mod teller;
mod transcripts;
mod worked;

pub use archives::{Told, archive_a, archive_b, archive_c, settings_of};
pub use exchanges::{ExchangeLine, answer_to, body_of, exchange_in, write_exchanged};
pub use scripts::{Form, long, script, short};
pub use shared::{Shared, Which};
pub use stocked::Stocked;
pub use teller::{Teller, unasked};
pub use transcripts::{asked_in, document_head, push_wanted, wanted_in, worked_configuration};
pub use worked::{bad_verb_document, identify_document};
