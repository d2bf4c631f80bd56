//! Tests of many repositories behind one door (`oai_host`): whose exchanges come in turns, whose bytes are no text, and
//! by a script in which each call of a store or a device fails in turn; and of a program's work with its inputs and
//! outputs (`oai_cli`, `oai_startup`). It holds nothing else.
#![tactic(auto)]

#[cfg(test)]
mod assertions;
#[cfg(test)]
mod neighbours;
#[cfg(test)]
mod program;
#[cfg(test)]
mod refusals;
#[cfg(test)]
mod runs;
#[cfg(test)]
mod sample_host;
#[cfg(test)]
mod script_failures;
#[cfg(test)]
mod script_faults;
#[cfg(test)]
mod script_lies;
#[cfg(test)]
mod script_runs;
