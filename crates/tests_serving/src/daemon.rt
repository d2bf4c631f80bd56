//! A server's start and what it says (`oai_daemon`, `oai_recovery`, `oai_archive`), over folders, ports and clocks in memory.

mod clocks;
mod dumps;
mod elements;
mod figures;
mod growing;
mod places;
mod starts;
mod stops;
