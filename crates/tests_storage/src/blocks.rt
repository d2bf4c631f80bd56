//! Lines in blocks that they share (`oai_blocks`).

mod changes;
mod notes;
mod searches;
mod sharing;
mod sizes;
mod two_lines;
