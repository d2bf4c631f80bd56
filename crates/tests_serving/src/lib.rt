//! Tests of connections (`oai_front`), over a handler that repeats what it was asked; of the loop of many
//! connections (`oai_serving`), over sockets in memory; of archives that outlive their process (`oai_durable`), over pages and
//! journals in memory; and of a server's start and of what it says (`oai_daemon`, `oai_recovery`, `oai_archive`). It holds
//! nothing else.
#![tactic(auto)]

#[cfg(test)]
mod archives;
#[cfg(test)]
mod assertions;
#[cfg(test)]
mod checkpoints;
#[cfg(test)]
mod connections;
#[cfg(test)]
mod daemon;
#[cfg(test)]
mod elements;
#[cfg(test)]
mod ends;
#[cfg(test)]
mod faults;
#[cfg(test)]
mod handler;
#[cfg(test)]
mod hostile_heads;
#[cfg(test)]
mod keys;
#[cfg(test)]
mod limits;
#[cfg(test)]
mod lives;
#[cfg(test)]
mod memory;
#[cfg(test)]
mod online_checkpoints;
#[cfg(test)]
mod pieces;
#[cfg(test)]
mod received;
#[cfg(test)]
mod recording_handler;
#[cfg(test)]
mod rounds;
#[cfg(test)]
mod served;
#[cfg(test)]
mod shelves;
#[cfg(test)]
mod unlogged;
#[cfg(test)]
mod written_lives;
