//! The repositories of a host.
ghost use Rattle.oai_catalogue.specs.Store.{Spends};
ghost use Rattle.oai_host.specs.Exchanged.{CountsFaults, store_state};
ghost use Rattle.oai_host.specs.HostSnapshots.{HasChangedAt};
ghost use Rattle.oai_host.specs.Hosts.{AreSteps, begun};
ghost use Rattle.oai_host.specs.NamedRepos.{AreNamedRepos, place_in, repo_names, repositories_of};
ghost use Rattle.oai_host.specs.Places.{IsRepoPlace};
ghost use Rattle.oai_host.specs.Redone.{AreLeftBy, AreRedone, IsNoLonger};
ghost use Rattle.oai_host.specs.Saved.{restored_in};
ghost use Rattle.oai_host.specs.Saving.{TakesAll};
ghost use Rattle.oai_http.specs.Exchanges.{call_of};
ghost use Rattle.oai_replay.specs.Parts.{as_part};
ghost use Rattle.oai_replay.specs.Redone.{call_again};
ghost use Rattle.oai_http.specs.Targets.{front_of, path_of};
ghost use Rattle.oai_settings.specs.Config.{is_repository_name};
ghost use Rattle.std.specs.BTreeMap.{IsUnchanged, get_by_text};
ghost use Rattle.std.specs.List.{list_all, list_any};
ghost use Rattle.std.specs.Option.{option_copied};
ghost use Rattle.std.specs.Prelude.{IsTrue, List, OnErr, OnOk, Some, [], false, if◌then◌else◌, length, true, vec_capacity, vec_len, ℕ, ◌++◌, ◌<◌, ◌∷◌, ◌≡◌};
ghost use Rattle.std.specs.Str.{bytes_eq};

use crate::dispatch::perform_exchange;
use crate::records::{RepoAnswer, redo};
use crate::restores::restore;
use crate::saves::save;
use oai_catalogue::Versions;
use oai_config::NamedConfig;
use oai_figures::Exposition;
use oai_http::{Endpoint, Exchange};
use oai_item::Fault;
use oai_names::Text;
use oai_replay::{Part, Performed, SaveFault, Sink};
use oai_repo::Repo;
use std::alloc::{AllocError, Global};
use std::collections::BTreeMap;
use std::marker::Model;

/// A repository of a host, and the name by which it is reached.
#[derive(Drop)]
pub(crate) struct NamedRepo {
    /// The name.
    pub(crate) name: Text,
    /// The repository.
    pub(crate) repo: Repo,
}

/// The repositories of a host, in the order of its configuration, and an index of their names: a look-up is O(log n).
#[derive(Drop)]
pub(crate) struct Repositories {
    alloc: Global,
    repos: Vec<NamedRepo>,
    places: BTreeMap<String, usize>,
}

impl Model for Repositories {
    ghost use Rattle.std.specs.Prelude.{◌≡◌, ℕ, List};
    ghost use Rattle.std.specs.BTreeMap.{get_by_text};
    ghost use Rattle.oai_host.specs.declared.repositories.NamedRepo as declared;
    ghost use Rattle.oai_host.specs.NamedRepos.{repo_names, place_in};

    ghost Value = { List declared.NamedRepo };

    ghost view = { λ r. r.repos.items };

    ghost invariant = { λ r. (name : List ℕ)
        → get_by_text r.places name ≡ place_in (repo_names r.repos.items) name };
}

impl Repositories {
    /// No repository. Allocates nothing.
    pub(crate) fn new(alloc: Global) -> Repositories
        ensures { result ≡ [] }
    {
        Repositories {
            alloc,
            repos: Vec::new(alloc),
            places: BTreeMap::new(alloc),
        }
    }

    /// All of them, in their order.
    pub(crate) fn as_slice(&self) -> &[NamedRepo]
        ensures { result.now ≡ self.now }
    {
        &self.repos
    }

    /// The position of the repository with that name, if there is one.
    pub(crate) fn place_of(&self, name: &str) -> Option<usize>
        ensures { result ≡ place_in (repo_names self.now) name.now }
    {
        self.places.get(name).copied()
    }

    /// The position of the repository with that name, which may be any bytes, if there is one.
    pub(crate) fn place_named(&self, name: &[u8]) -> Option<usize>
        requires { list_all is_repository_name (repo_names self.now) ≡ true }
        ensures { result ≡ place_in (repo_names self.now) name.now }
    {
        match str::from_utf8(name) {
            Ok(text) => self.place_of(text),
            Err(_) => None,
        }
    }

    /// Adds an empty repository, in a new version of the store. Any fault may come.
    pub(crate) fn begin<V: Versions>(
        &mut self,
        entry: NamedConfig,
        store: &mut V,
    ) -> Result<(), Fault>
        requires named { is_repository_name entry.name ≡ true }
        requires unused { list_any (bytes_eq entry.name) (repo_names self.old) ≡ false }
        requires repos { AreNamedRepos (V.honest store.old) self.old (V.lists store.old) }
        ensures begun { OnOk result (repositories_of self.new (V.lists store.new)
            ≡ repositories_of self.old (V.lists store.old) ++ begun entry ∷ []) }
        ensures repos { OnOk result (AreNamedRepos (V.honest store.new) self.new (V.lists store.new)) }
        ensures store { Spends V.room V.failures V.honest 1 result store.old store.new }
    {
        let NamedConfig { name, config } = entry;
        let repo = Repo::new(self.alloc, config, store)?;
        self.add(NamedRepo { name, repo })?;
        Ok(())
    }

    /// Adds a repository under a new name. All that may fail comes before the first visible change.
    fn add(&mut self, one: NamedRepo) -> Result<(), AllocError>
        requires { list_any (bytes_eq one.name) (repo_names self.old) ≡ false }
        ensures ok { OnOk result (self.new ≡ self.old ++ one ∷ []) }
        ensures err { OnErr result (self.new ≡ self.old) }
    {
        let name = one.name.as_str();
        let Ok(()) = note_next(self.alloc, &mut self.repos, &mut self.places, name) else {
            drop(one);
            return Err(AllocError);
        };
        self.repos.push(one).unwrap();
        Ok(())
    }

    /// Performs an exchange of the repository at the position, at the moment, in seconds from 1970 on, and returns with
    /// the answer what of it has to be replayed.
    pub(crate) fn exchange_at<'a, V: Versions>(
        &mut self,
        store: &mut V,
        place: usize,
        endpoint: Endpoint,
        moment: i64,
        exchange: &Exchange<'a>,
    ) -> RepoAnswer<'a>
        requires place { IsRepoPlace self.old place endpoint exchange.now.target }
        requires repos { AreNamedRepos (V.honest store.old) self.old (V.lists store.old) }
        ensures steps { AreSteps (call_of moment exchange.now) result.answer
            (store_state V.Versions store.old) (store_state V.Versions store.new)
            (repositories_of self.old (V.lists store.old))
            (repositories_of self.new (V.lists store.new)) }
        ensures left { (name : List ℕ) → path_of exchange.now.target ≡ front_of endpoint ++ name
            → IsTrue (V.honest store.old) → AreLeftBy moment endpoint name (option_copied result.bytes)
            (repositories_of self.old (V.lists store.old))
            (repositories_of self.new (V.lists store.new)) }
        ensures size { IsNoLonger exchange.now (option_copied result.bytes) }
        ensures changed { HasChangedAt place self.old (V.lists store.old) self.new (V.lists store.new) }
        ensures repos { AreNamedRepos (V.honest store.new) self.new (V.lists store.new) }
        ensures faults { CountsFaults V.Versions result.answer store.old store.new }
    {
        let repo = &mut self.repos[place].repo;
        perform_exchange(self.alloc, repo, store, moment, endpoint, exchange)
    }

    /// Replays, at the repository at the position and at the moment, in seconds from 1970 on, what was performed. The
    /// error is the fault that ended it.
    pub(crate) fn redo<V: Versions>(
        &mut self,
        store: &mut V,
        place: usize,
        moment: i64,
        performed: &Performed<'_>,
    ) -> Result<(), Fault>
        requires place { place_in (repo_names self.old) performed.now.name.now ≡ Some place }
        requires repos { AreNamedRepos (V.honest store.old) self.old (V.lists store.old) }
        ensures steps { AreRedone (call_again moment performed.now) result
            (store_state V.Versions store.old) (store_state V.Versions store.new)
            (repositories_of self.old (V.lists store.old))
            (repositories_of self.new (V.lists store.new)) }
        ensures changed { HasChangedAt place self.old (V.lists store.old) self.new (V.lists store.new) }
        ensures repos { AreNamedRepos (V.honest store.new) self.new (V.lists store.new) }
    {
        let own = &mut self.repos[place].repo;
        redo(
            self.alloc,
            own,
            store,
            moment,
            performed.endpoint,
            performed.bytes,
        )
    }

    /// Restores a part at the repository at the position. `Damaged` if the part does not fit; any other fault may come.
    pub(crate) fn restore<V: Versions>(
        &mut self,
        store: &mut V,
        place: usize,
        part: &Part<'_>,
    ) -> Result<(), Fault>
        requires place { place_in (repo_names self.old) part.now.name.now ≡ Some place }
        requires repos { AreNamedRepos (V.honest store.old) self.old (V.lists store.old) }
        ensures restored { OnOk result (IsTrue (V.honest store.old)
            → repositories_of self.new (V.lists store.new)
            ≡ restored_in (repositories_of self.old (V.lists store.old)) (as_part part.now)) }
        ensures err { OnErr result (repositories_of self.new (V.lists store.new)
            ≡ repositories_of self.old (V.lists store.old)) }
        ensures changed { IsTrue (V.honest store.old)
            → HasChangedAt place self.old (V.lists store.old) self.new (V.lists store.new) }
        ensures repos { AreNamedRepos (V.honest store.new) self.new (V.lists store.new) }
        ensures honesty { V.honest store.new ≡ V.honest store.old }
    {
        let own = &mut self.repos[place].repo;
        restore(self.alloc, own, store, part)
    }

    /// Passes all parts to the sink, with the number of each next list raised by that much.
    pub(crate) fn save<V: Versions, S: Sink>(
        &self,
        store: &mut V,
        raise: u32,
        sink: &mut S,
    ) -> Result<(), SaveFault>
        requires { AreNamedRepos (V.honest store.old) self.now (V.lists store.old) }
        ensures saved { OnOk result (IsTrue (V.honest store.old) → TakesAll S.has raise
            (repositories_of self.now (V.lists store.old)) sink.old sink.new) }
        ensures same { V.lists store.new ≡ V.lists store.old }
        ensures honesty { V.honest store.new ≡ V.honest store.old }
    {
        for one in &self.repos {
            save(self.alloc, one, store, raise, sink)?;
        }
        Ok(())
    }

    /// Adds the figures of each to the page.
    pub(crate) fn report(&self, page: &mut Exposition) {
        page.begin("items", "Items of the repository, deleted ones among them.");
        for one in &self.repos {
            let items = one.repo.items();
            page.add_for("items", "repository", one.name.as_str(), items);
        }
        page.begin("open_lists", "Lists that the repository holds open.");
        for one in &self.repos {
            let lists = one.repo.open_lists() as u64;
            page.add_for("open_lists", "repository", one.name.as_str(), lists);
        }
    }
}

/// Reserves room for one more repository, and adds its position to the index under the name.
fn note_next(
    alloc: Global,
    repos: &mut Vec<NamedRepo>,
    places: &mut BTreeMap<String, usize>,
    name: &str,
) -> Result<(), AllocError>
    ensures ok { OnOk result ((other : List ℕ) → get_by_text places.new other
        ≡ (if bytes_eq name.now other then Some (length repos.old.items) else get_by_text places.old other)) }
    ensures room { OnOk result (vec_len repos.new < vec_capacity repos.new) }
    ensures repos { repos.new.items ≡ repos.old.items }
    ensures err { OnErr result (IsUnchanged places.old places.new) }
{
    repos.reserve(1)?;
    let place = repos.len();
    note_place(alloc, places, name, place)
}

/// Adds the position to the index under the name.
fn note_place(
    alloc: Global,
    places: &mut BTreeMap<String, usize>,
    name: &str,
    place: usize,
) -> Result<(), AllocError>
    ensures ok { OnOk result ((other : List ℕ) → get_by_text places.new other
        ≡ (if bytes_eq name.now other then Some place else get_by_text places.old other)) }
    ensures err { OnErr result (IsUnchanged places.old places.new) }
{
    let key = String::from_str(alloc, name)?;
    places.insert(key, place)?;
    Ok(())
}
