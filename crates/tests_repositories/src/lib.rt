//! Tests of one repository (`oai_repo`): in a store that is not its alone or that returns false reads, with tokens of
//! parts that failed, and what its lists cost; of a harvester's copy (`oai_copy`); of XML documents by their whole
//! bytes (`oai_answers`); and of what no row of `tests_rows` can call: places among items in order, and the laws of
//! items and of configurations. It holds nothing else.
#![tactic(auto)]

#[cfg(test)]
mod assertions;
#[cfg(test)]
mod copies;
#[cfg(test)]
mod copy_samples;
#[cfg(test)]
mod documents;
#[cfg(test)]
mod ended_lists;
#[cfg(test)]
mod handed_out;
#[cfg(test)]
mod harvests;
#[cfg(test)]
mod laws;
#[cfg(test)]
mod lying_store;
#[cfg(test)]
mod neighbours;
#[cfg(test)]
mod outcomes;
#[cfg(test)]
mod page_reads;
#[cfg(test)]
mod places;
#[cfg(test)]
mod records;
#[cfg(test)]
mod refusals;
#[cfg(test)]
mod samples;
