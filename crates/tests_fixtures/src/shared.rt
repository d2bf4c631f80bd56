//! Two repositories in one store.
ghost use Rattle.tests_fixtures.specs.Beside.{AreBeside};

use oai_catalogue::Versions;
use oai_deposit::Change;
use oai_item::Fault;
use oai_repo::{Refusal, Reply, Repo};
use oai_settings::RepoConfig;
use std::alloc::Global;

/// One of two repositories.
#[derive(Clone, Copy, Debug, PartialEq, Eq)]
pub enum Which {
    /// The one that was made first.
    First,
    /// The other one.
    Second,
}

/// Two repositories, and the store that has the items of both.
#[derive(Drop)]
pub struct Shared<V: Versions + Drop> {
    store: V,
    first: Repo,
    second: Repo,
    ghost beside: { AreBeside (V.honest store) first second (V.lists store) },
}

impl<V: Versions + Drop> Shared<V> {
    /// Two repositories without items and sets.
    pub fn new(
        alloc: Global,
        first: RepoConfig,
        second: RepoConfig,
        mut store: V,
    ) -> Result<Shared<V>, Fault> {
        let first = Repo::new(alloc, first, &mut store)?;
        let second = Repo::new(alloc, second, &mut store)?;
        Ok(Shared {
            store,
            first,
            second,
        })
    }

    /// What that repository answers a request.
    pub fn ask(&mut self, which: Which, moment: i64, query: &[u8]) -> Result<Reply, Fault> {
        let replied = match which {
            Which::First => self.first.ask(&mut self.store, moment, query)?,
            Which::Second => self.second.ask(&mut self.store, moment, query)?,
        };
        Ok(replied.reply)
    }

    /// What that repository answers a change.
    pub fn change(&mut self, which: Which, moment: i64, change: &Change) -> Result<i64, Refusal> {
        match which {
            Which::First => self.first.change(&mut self.store, moment, change),
            Which::Second => self.second.change(&mut self.store, moment, change),
        }
    }
}
