//! The time of a repository (OAI-PMH 2.0, sections 2.7.1 and 3.3): its clock, its datestamps, their texts,
//! and the bounds of a harvest.
//!
//! Times are whole seconds from 1970-01-01T00:00:00Z, negative before it, of days that each have
//! 86,400 seconds. Dates are those of the Gregorian calendar, which ISO 8601 extends to the years
//! before its introduction, year 0000 included.
#![tactic(auto)]

mod bound;
mod clock;
mod datestamp;
mod granularity;
mod text;

pub use bound::{BadDate, Bound, calendar_law, is_no_finer_than, lower, read_bound, upper};
pub use clock::{Clock, LAST_TICK};
pub use datestamp::{Datestamp, write_datestamp};
pub use granularity::{Granularity, stamp};
pub use text::{FIRST_SECOND, LAST_SECOND, write_day, write_second};
