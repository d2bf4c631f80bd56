//! A host of repositories.
ghost use Rattle.oai_host.specs.Faults.{HasCause};
ghost use Rattle.oai_host.specs.HostSnapshots.{HoldsSnapshots};
ghost use Rattle.oai_host.specs.Hosts.{AreAloneUnlessFailed, AreAnswered, AreExchanged, IsExchanged, begun};
ghost use Rattle.oai_host.specs.NamedRepos.{AreNamedRepos, StandFor, repo_names};
ghost use Rattle.oai_host.specs.Places.{IsRepoPlace, LeadsNowhere};
ghost use Rattle.oai_host.specs.Props.{named_repo_props, snapshot_props};
ghost use Rattle.oai_host.specs.Redone.{IsPerformedAt, IsRecorded, IsRedone};
ghost use Rattle.oai_host.specs.Saved.{emptied_in, ended_in, parts_in, restored_in};
ghost use Rattle.oai_host.specs.Saving.{Takes};
ghost use Rattle.oai_host.specs.Unsaved.{AreSavedBy};
ghost use Rattle.oai_http.specs.Exchanges.{call_of};
ghost use Rattle.oai_replay.specs.Parts.{SavesMore, as_part, restored_all};
ghost use Rattle.oai_http.specs.Targets as spec;
ghost use Rattle.oai_http.specs.declared.statuses.Status.TheVariants as status;
ghost use Rattle.oai_item.specs.declared.faults.Fault.TheVariants.{TooManyPages};
ghost use Rattle.oai_settings.specs.Config.{is_repository_name};
ghost use Rattle.std.specs.List.{list_all};
ghost use Rattle.std.specs.Option.{IfNone, option_copied};
ghost use Rattle.std.specs.Prelude.{IfErr, IfOk, IfSome, IsTrue, OnErr, OnOk, [], false, if◌then◌else◌, length, map, true, ◌++◌, ◌+◌, ◌<◌, ◌≡◌, ◌≤◌};

use crate::host_snapshots::HostSnapshots;
use crate::records::RepoAnswer;
use crate::repositories::Repositories;
use crate::routes::Routes;
use oai_catalogue::Versions;
use oai_config::Config;
use oai_figures::{Exposition, Figures};
use oai_http::{Answer, Call, Endpoint, Exchange, Handler, Status, Target};
use oai_item::Fault;
use oai_names::Sequence;
use oai_replay::{Part, Performed, RecordedAnswer, Replayed, SaveFault, Sink};
use std::alloc::{AllocError, Global};
use std::marker::Model;

/// A host: repositories, each reached by its name, and the store that has the items of all of them.
///
/// Repositories are isolated: if none of the exchanges of a repository failed, and the store returns what was written
/// to it, then the answers there are those that it alone would give to them, whatever comes between them. Two
/// repositories never use the same number in the store.
#[derive(Drop)]
pub struct Host<V: Versions + Drop> {
    alloc: Global,
    routes: Routes,
    repositories: Repositories,
    store: V,
    /// What is left to save of the checkpoint that is written: of the repositories as they were when it was begun.
    snapshots: HostSnapshots,
    ghost repos: { AreNamedRepos (V.honest store) repositories (V.lists store) } by { Prim.hlevel named_repo_props },
    ghost left: { HoldsSnapshots (V.honest store) repositories snapshots (V.lists store) } by { Prim.hlevel snapshot_props },
}

impl<V: Versions + Drop> Model for Host<V> {
    ghost use Rattle.oai_host.specs.HostSnapshots.{parts_left_in};
    ghost use Rattle.oai_host.specs.Hosts.{HostState};
    ghost use Rattle.oai_host.specs.NamedRepos.{repositories_of};

    ghost Value = { HostState };

    ghost view = { λ h. record {
      repositories = repositories_of h.repositories (V.lists h.store);
      honest = V.honest h.store;
      failures = V.failures h.store;
      room = V.room h.store;
      unsaved = parts_left_in h.repositories (V.lists h.store) h.snapshots;
    } };
}

impl<V: Versions + Drop> Host<V> {
    /// The repositories of the configuration, each without items and sets, in the store. What grows in them is
    /// allocated from `alloc`. Over an honest store any fault but `Damaged` may come; `TooManyPages` only if the store
    /// may lack room for one call for each repository.
    pub fn new(alloc: Global, config: Config, mut store: V) -> Result<Host<V>, Fault>
        ensures begun { IfOk result (λ host. host.repositories ≡ map begun config.repositories) }
        ensures honesty { IfOk result (λ host. host.honest ≡ V.honest store) }
        ensures count { IfOk result (λ host. V.failures store ≤ host.failures) }
        ensures cause { HasCause V.failures V.honest store result }
        ensures room { IfErr result (λ fault. fault ≡ TooManyPages
            → V.room store < length config.repositories) }
        ensures used { IfOk result (λ host. V.room store ≤ host.room + length config.repositories) }
    {
        let routes = Routes::new(alloc)?;
        let mut repositories = Repositories::new(alloc);
        for entry in config.into_repositories().into_vec() {
            repositories.begin(entry, &mut store)?;
        }
        Ok(Host {
            alloc,
            routes,
            repositories,
            store,
            snapshots: HostSnapshots::none(alloc),
        })
    }

    /// Performs an exchange at the moment, in seconds from 1970 on, and returns its answer, which also reports each
    /// fault, out of memory too.
    ///
    /// Over every store an exchange leaves all other repositories unchanged, and one that is no repository's is refused
    /// and leaves the host unchanged. At its own repository a request moves the clock and leaves what is held. A line
    /// of a deposit that is refused moves the clock and changes nothing else; for an accepted one the datestamp, the
    /// clock, the sets and the open lists are those of the change. Over a store that returns what was written to it,
    /// answers and states are the machine's. A request or line that fails changes nothing, the clock included: the
    /// first `done` lines of a deposit were performed, and no other. The status of the answer reports a fault.
    pub fn exchange(&mut self, moment: i64, exchange: &Exchange<'_>) -> Answer
        ensures { IsExchanged (call_of moment exchange.now) result self.old self.new }
    {
        let RecordedAnswer {
            answer,
            performed: _,
        } = self.exchange_recorded(moment, exchange);
        answer
    }

    /// Replays, at the moment, in seconds from 1970 on, what was performed before, as `exchange` performs it, and gives
    /// no answer. The error is the fault that ended it. If no repository has the name, nothing is done, and the error
    /// is `Damaged`.
    pub fn redo(&mut self, moment: i64, performed: &Performed<'_>) -> Result<(), Fault>
        ensures { IsRedone moment performed.now result self.old self.new }
    {
        match self.repositories.place_named(performed.name) {
            Some(place) => self
                .repositories
                .redo(&mut self.store, place, moment, performed),
            None => Err(Fault::Damaged),
        }
    }

    /// Performs an exchange as `exchange` does, and returns with the answer what of it has to be replayed.
    fn exchange_recorded<'a>(&mut self, moment: i64, exchange: &Exchange<'a>) -> RecordedAnswer<'a>
        ensures { IsRecorded moment exchange.now result.answer result.performed self.old self.new }
    {
        match find(&self.routes, &self.repositories, &exchange.target) {
            Some((endpoint, place, name)) => {
                let RepoAnswer { answer, bytes } = self
                    .repositories
                    .exchange_at(&mut self.store, place, endpoint, moment, exchange);
                let performed = performed_at(endpoint, name, bytes);
                RecordedAnswer { answer, performed }
            }
            None => RecordedAnswer {
                answer: Answer::of_status(self.alloc, status_of(&exchange.target)),
                performed: None,
            },
        }
    }

    /// Restores a part, after those that were restored before; a checkpoint that is written is given up. Any fault may
    /// come, and `Damaged` if no repository has the part's name, its bytes encode nothing, or it violates the repository's
    /// invariants. After a fault all repositories are unchanged.
    pub fn restore(&mut self, part: &Part<'_>) -> Result<(), Fault>
        ensures restored { OnOk result (IsTrue self.old.honest
            → self.new.repositories ≡ restored_in self.old.repositories (as_part part.now)) }
        ensures err { OnErr result (self.new.repositories ≡ self.old.repositories) }
        ensures honesty { self.new.honest ≡ self.old.honest }
        ensures unsaved { self.new.unsaved ≡ [] }
    {
        self.snapshots.release(&mut self.store);
        match self.repositories.place_named(part.name) {
            Some(place) => self.repositories.restore(&mut self.store, place, part),
            None => Err(Fault::Damaged),
        }
    }

    /// Passes the parts of all repositories to the sink, with the number of each next list raised by that much. The
    /// repositories are unchanged, and what was saved can be restored. The errors: `Reading` if the store fails or
    /// memory runs out, `Numbers` if a list number would not fit in 64 bits, `Sink` if the sink takes no more.
    pub fn save<S: Sink>(&mut self, raise: u32, sink: &mut S) -> Result<(), SaveFault>
        ensures saved { OnOk result (IsTrue self.old.honest
            → Takes S.has (parts_in (ended_in raise self.old.repositories)) sink.old sink.new) }
        ensures whole { OnOk result (IsTrue self.old.honest
            → restored_all restored_in (emptied_in self.old.repositories)
            (parts_in (ended_in raise self.old.repositories))
            ≡ ended_in raise self.old.repositories) }
        ensures same { self.new.repositories ≡ self.old.repositories }
        ensures honesty { self.new.honest ≡ self.old.honest }
    {
        self.repositories.save(&mut self.store, raise, sink)
    }

    /// Begins a checkpoint: what `save_next` passes from here on are the parts of the repositories as they are now, with
    /// their open lists. One that was begun before is given up. It freezes versions of the store, and reads no item. Any
    /// fault may come; then no checkpoint is begun.
    pub fn begin_saving(&mut self) -> Result<(), Fault>
        ensures begun { OnOk result (IsTrue self.old.honest → AreSavedBy self.new.unsaved self.old.repositories []) }
        ensures err { OnErr result (self.new.unsaved ≡ []) }
        ensures same { self.new.repositories ≡ self.old.repositories }
        ensures honesty { self.new.honest ≡ self.old.honest }
    {
        self.stop_saving();
        let repos = self.repositories.as_slice();
        match HostSnapshots::take(self.alloc, repos, &mut self.store) {
            Ok(snapshots) => {
                self.snapshots = snapshots;
                Ok(())
            }
            Err(fault) => Err(fault),
        }
    }

    /// Passes the next parts of the checkpoint to the sink, and returns whether there were any; if not, all are saved, or
    /// no checkpoint is written. The repositories are unchanged, also after an error. The errors: `Reading` if the store
    /// fails or memory runs out, `Sink` if the sink takes no more; after that the checkpoint can only be given up.
    pub fn save_next<S: Sink>(&mut self, sink: &mut S) -> Result<bool, SaveFault>
        ensures saved { IfOk result (λ more. IsTrue self.old.honest
            → SavesMore S.has (AreSavedBy self.old.unsaved) sink.old (AreSavedBy self.new.unsaved) sink.new) }
        ensures all { IfOk result (λ more. more ≡ false → IsTrue self.old.honest → self.new.unsaved ≡ []) }
        ensures same { self.new.repositories ≡ self.old.repositories }
        ensures honesty { self.new.honest ≡ self.old.honest }
    {
        let repos = self.repositories.as_slice();
        self.snapshots
            .save_next(self.alloc, repos, &mut self.store, sink)
    }

    /// Gives up the checkpoint that is written, if one is. It allocates nothing and cannot fail.
    pub fn stop_saving(&mut self)
        ensures unsaved { self.new.unsaved ≡ [] }
        ensures same { self.new.repositories ≡ self.old.repositories }
        ensures honesty { self.new.honest ≡ self.old.honest }
    {
        self.snapshots.release(&mut self.store);
    }

    /// The store. Its lists are the host's repositories, and its honesty, its failures and its room are those of the
    /// host.
    pub fn versions(&self) -> &V
        ensures lists { StandFor (V.honest result.now) (V.lists result.now) self.now.repositories }
        ensures honesty { V.honest result.now ≡ self.now.honest }
        ensures count { V.failures result.now ≡ self.now.failures }
        ensures room { V.room result.now ≡ self.now.room }
    {
        &self.store
    }

    /// Performs a call, at its moment, as `exchange` does, and returns its answer.
    fn answer(&mut self, call: &Call) -> Answer
        ensures { IsExchanged call.now result self.old self.new }
    {
        self.exchange(call.moment, &call.exchange())
    }

    /// Performs exchanges, one after the other, as `exchange` does, and returns their answers in order. At each
    /// repository its own exchanges are a run, whatever comes between them; if none of them failed, and the store
    /// returns what was written to it, their answers are those that the repository alone gives. The error is out of
    /// memory for the list of the answers; nothing was performed then.
    pub fn run(&mut self, calls: &[Call]) -> Result<Sequence<Answer>, AllocError>
        ensures exchanged { IfOk result (λ answers. AreExchanged calls.now answers self.old self.new) }
        ensures answered { IfOk result (λ answers. AreAnswered calls.now answers self.old self.new) }
        ensures alone { IfOk result (λ answers. IsTrue self.old.honest
            → AreAloneUnlessFailed calls.now answers self.old.repositories) }
        ensures err { OnErr result (self.new ≡ self.old) }
    {
        let mut answers = Vec::with_capacity(self.alloc, calls.len())?;
        for call in calls {
            let answer = self.answer(call);
            answers.push(answer).unwrap();
        }
        Ok(Sequence::new(answers))
    }
}

/// The endpoint of the target, and the position and the name of its repository; `None` if it is no repository's.
fn find<'a>(
    routes: &Routes,
    repositories: &Repositories,
    target: &Target<'a>,
) -> Option<(Endpoint, usize, &'a [u8])>
    requires { list_all is_repository_name (repo_names repositories.now) ≡ true }
    ensures place { IfSome result (λ found. IsRepoPlace repositories.now found.1 found.0 target.now) }
    ensures path { IfSome result (λ found. spec.path_of target.now
        ≡ spec.front_of found.0 ++ found.2.now) }
    ensures name { IfSome result (λ found. is_repository_name found.2.now ≡ true) }
    ensures nowhere { IfNone result (LeadsNowhere repositories.now target.now) }
{
    let (endpoint, behind) = target.named()?;
    let name = routes.find(behind)?;
    let place = repositories.place_of(name)?;
    Some((endpoint, place, name.as_bytes()))
}

/// What was performed at the repository with that name, if anything was.
fn performed_at<'a>(
    endpoint: Endpoint,
    name: &'a [u8],
    bytes: Option<&'a [u8]>,
) -> Option<Performed<'a>>
    ensures { IsPerformedAt endpoint name.now (option_copied bytes.entry) result }
{
    match bytes {
        Some(bytes) => Some(Performed {
            endpoint,
            name,
            bytes,
        }),
        None => None,
    }
}

/// The status for a target that is no repository's.
fn status_of(target: &Target<'_>) -> Status
    ensures { result ≡ (if spec.is_rooted target.now then status.NotFound else status.BadRequest) }
{
    if target.is_rooted() {
        Status::NotFound
    } else {
        Status::BadRequest
    }
}

impl<V: Versions + Drop> Handler for Host<V> {
    ghost use Rattle.oai_host.specs.Exchanged.{IsHandled};

    ghost step = { IsHandled };

    fn exchange(&mut self, moment: i64, exchange: &Exchange<'_>) -> Answer {
        self.exchange(moment, exchange)
    }
}

impl<V: Versions + Drop> Replayed for Host<V> {
    ghost use Rattle.std.specs.Prelude.{List};
    ghost use Rattle.oai_host.specs.Hosts.{HostState, Repository};
    ghost use Rattle.oai_host.specs.Emptied.{emptied_redone, emptied_restored};
    ghost use Rattle.oai_host.specs.Redone.{redone_repositories, reply_all};
    ghost use Rattle.oai_host.specs.Saved.{emptied_in, ended_in, parts_in, restored_in};
    ghost use Rattle.oai_host.specs.Unsaved.{AreSavedBy};

    ghost Kept = { List Repository };

    ghost kept = { λ host. host.repositories };

    ghost is_honest = { λ host. host.honest };

    ghost saves = { λ host. AreSavedBy host.unsaved };

    ghost redone = { redone_repositories };

    ghost reply = { reply_all };

    ghost restored = { restored_in };

    ghost parts = { parts_in };

    ghost ended = { ended_in };

    ghost emptied = { emptied_in };

    ghost same_redone = { emptied_redone };

    ghost same_restored = { emptied_restored };

    fn exchange_recorded<'a>(
        &mut self,
        moment: i64,
        exchange: &Exchange<'a>,
    ) -> RecordedAnswer<'a> {
        self.exchange_recorded(moment, exchange)
    }

    fn redo(&mut self, moment: i64, performed: &Performed<'_>) -> Result<(), Fault> {
        self.redo(moment, performed)
    }

    fn restore(&mut self, part: &Part<'_>) -> Result<(), Fault> {
        self.restore(part)
    }

    fn save<S: Sink>(&mut self, raise: u32, sink: &mut S) -> Result<(), SaveFault> {
        self.save(raise, sink)
    }

    fn begin_saving(&mut self) -> Result<(), Fault> {
        self.begin_saving()
    }

    fn save_next<S: Sink>(&mut self, sink: &mut S) -> Result<bool, SaveFault> {
        self.save_next(sink)
    }

    fn stop_saving(&mut self) {
        self.stop_saving();
    }
}

impl<V: Versions + Figures + Drop> Figures for Host<V> {
    fn report(&self, page: &mut Exposition) {
        self.repositories.report(page);
        self.store.report(page);
    }
}
