//! A repository with a store of its own.
ghost use Rattle.oai_repo.specs.Fields.{Owns};

use oai_catalogue::Versions;
use oai_deposit::Change;
use oai_item::{Fault, Item};
use oai_names::Sequence;
use oai_repo::{Refusal, Reply, Repo, SavedPart};
use oai_settings::RepoConfig;
use std::alloc::Global;

/// A repository, and the store that has its items.
#[derive(Drop)]
pub struct Stocked<V: Versions + Drop> {
    store: V,
    repo: Repo,
    ghost owned: { Owns (V.honest store) repo (V.lists store) },
}

impl<V: Versions + Drop> Stocked<V> {
    /// A repository without items and sets.
    pub fn new(alloc: Global, config: RepoConfig, mut store: V) -> Result<Stocked<V>, Fault> {
        let repo = Repo::new(alloc, config, &mut store)?;
        Ok(Stocked { store, repo })
    }

    /// What it answers a request at the moment.
    pub fn ask(&mut self, moment: i64, query: &[u8]) -> Result<Reply, Fault> {
        let replied = self.repo.ask(&mut self.store, moment, query)?;
        Ok(replied.reply)
    }

    /// What it answers a change at the moment.
    pub fn change(&mut self, moment: i64, change: &Change) -> Result<i64, Refusal> {
        self.repo.change(&mut self.store, moment, change)
    }

    /// Moves its clock to the moment.
    pub fn advance(&mut self, moment: i64) {
        self.repo.advance(&mut self.store, moment);
    }

    /// Restores the part.
    pub fn restore(&mut self, part: &SavedPart<'_>) -> Result<(), Fault> {
        self.repo.restore(&mut self.store, part)
    }

    /// Some of the items behind that one.
    pub fn items_behind(
        &mut self,
        last: Option<&Item>,
        most: usize,
    ) -> Result<Sequence<Item>, Fault> {
        self.repo.items_behind(&mut self.store, last, most)
    }

    /// The repository.
    pub fn repo(&self) -> &Repo {
        &self.repo
    }

    /// The store.
    pub fn store(&self) -> &V {
        &self.store
    }

    /// Its clock, in seconds from 1970 on.
    pub fn clock(&self) -> i64 {
        self.repo.clock()
    }
}
