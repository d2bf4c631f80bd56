//! Tests of what keeps items: page devices and the pool of pages (`oai_device`, `oai_pool`), and lines in blocks (`oai_blocks`). It
//! holds nothing else.
#![tactic(auto)]

#[cfg(test)]
mod assertions;
#[cfg(test)]
mod blocks;
#[cfg(test)]
mod devices;
