//! A startup, and the service after it.
ghost use Rattle.oai_daemon.specs.Ends.{serve_outcome, stop_of};
ghost use Rattle.oai_daemon.specs.Lives.{HasLived};
ghost use Rattle.oai_recovery.specs.Renewals.{HasRenewed, is_checkpoint};
ghost use Rattle.oai_recovery.specs.ServedDisks.{file_of};
ghost use Rattle.oai_daemon.specs.Served.{HasResumed, HasServed};
ghost use Rattle.oai_durable.specs.Journaled.{promised};
ghost use Rattle.oai_keys.specs.Guards.{unguarded};
ghost use Rattle.oai_serving.specs.Accepted.{PassesNone, known_of};
ghost use Rattle.oai_serving.specs.Wrappers.{world_behind};
ghost use Rattle.std.specs.Prelude.{◌≡◌, IfOk, IsTrue, MatchResult};

use crate::clocks::GuardedClock;
use crate::counts::Counts;
use crate::folders::NotedFolder;
use crate::tallies::{CountedPort, Tally};
use crate::watched::Watched;
use oai_archive::ServerStop;
use oai_durable::{Checkpointed, EitherJournal, resume};
use oai_figures::Figures;
use oai_host::Host;
use oai_http::Settled;
use oai_item::Forms;
use oai_journal::{FileJournal, Journal};
use oai_keys::{Guarded, Ring};
use oai_names::Sequence;
use oai_paged::PagedVersions;
use oai_recovery::{Origin, Place, Started, second_of, start, to_moment};
use oai_replay::Replayed;
use oai_serving::{ServeFault, Server, Sockets, Stream};
use oai_startup::{Stop, WrittenConfig};
use std::alloc::Global;
use std::rc::Rc;
use std::rt::Clock;

/// A port at which a server listens, and what it counts there.
#[derive(Drop)]
struct Listening<K> {
    port: K,
    counts: Counts,
}

/// A service that has ended.
#[derive(Drop)]
pub struct Ended<S, K, H> {
    /// The server, with the connections that were open.
    pub server: Server<S, H>,
    /// What its connections came from.
    pub port: K,
    /// Why it ended; Ok after at least 2^64 - 1 rounds.
    pub result: Result<(), ServeFault>,
    /// The second from 1970 on to which the system's clock jumped, if it did.
    pub jumped: Option<u64>,
    /// Where its journal came from.
    pub origin: Origin,
}

impl<S, K, H> Ended<S, K, H> {
    /// Why the program stops: `CannotWrite` if the journal could not be written or synced, `Jumped` if the clock
    /// jumped, `InputFault` if it could not be read, and `SocketFault` if it could not wait for readiness.
    pub fn outcome(&self) -> Result<(), ServerStop>
        ensures { result ≡ serve_outcome self.now.result self.now.jumped }
    {
        match self.result {
            Ok(()) => Ok(()),
            Err(fault) => Err(stop_of(fault, self.jumped)),
        }
    }
}

/// Why the program stops, where its service ended, or did not begin.
pub fn outcome_of<S: Drop, K: Drop, H: Drop>(
    ended: Result<Ended<S, K, H>, ServerStop>,
) -> Result<(), ServerStop>
    ensures { MatchResult ended (λ ended. result ≡ serve_outcome ended.result ended.jumped) (λ stop. result ≡ Err stop) }
{
    match ended {
        Ok(ended) => ended.outcome(),
        Err(stop) => Err(stop),
    }
}

/// A handler whose exchanges are logged in the journal of a place, and which writes checkpoints in its folder, behind the
/// keys of depositors; its faults are reported to the place.
pub type Logging<'a, P, H> = Watched<
    'a,
    Guarded<
        Checkpointed<
            H,
            FileJournal<<P as Place>::Disk>,
            FileJournal<<P as Place>::NewDisk>,
            NotedFolder<<P as Place>::Folder>,
        >,
    >,
    P,
>;

/// The handler of a place's server: a host over the pages of the place.
pub type Hosting<'a, P> = Logging<'a, P, Host<PagedVersions<<P as Place>::Pages>>>;

/// Serves the repositories of the configuration, in the state that the journal of the place gives, until it is killed or
/// cannot continue. Deposits into those that `rings` names need one of their keys. What is performed is logged in the
/// journal, and synced, before it is answered. Once the journal is long a checkpoint takes its place, beside exchanges. The
/// error is why it stopped before it served; the value is what its service ended with.
///
/// A startup goes in this order, and stops at the first fault: the folder, the port, the journal that is found and its
/// first record, the pages, all other records, and the report of where the server listens. A journal with another
/// configuration, and one of version 1 that is long while no list is open, is replaced by a checkpoint before that.
pub fn serve<'a, P: Place, C: Clock>(
    alloc: Global,
    place: &'a mut P,
    clock: &C,
    written: WrittenConfig,
    rings: Sequence<Ring>,
) -> Result<Ended<P::Link, P::Port, Hosting<'a, P>>, ServerStop>
    ensures lived { IfOk result (λ ended. HasLived ⟦<EitherJournal<FileJournal<P::Disk>, FileJournal<P::NewDisk>> as Journal>⟧
        ⟦<FileJournal<P::NewDisk> as Journal>⟧ P.Disk.Disk.seen P.Disk.Disk.is_clean P.Link.Stream.contents P.Link.Stream.remaining (file_of P.held P.held_begun ended.origin) written.text rings ended.origin
        (known_of (P.Port.Sockets.accepted ended.port) (P.Port.Sockets.gone ended.port)) ended.result (world_behind unguarded ended.server)) }
    ensures renewed { IfOk result (λ ended. IsTrue (is_checkpoint ended.origin)
        → HasRenewed P.Disk.Disk.seen P.Disk.Disk.is_clean ⟦<FileJournal<P::NewDisk> as Journal>⟧ P.is_honest 0) }
{
    let counts = Counts::new(alloc, written.config(), second_of(clock))?;
    let listening = open(place, counts)?;
    let started = start(alloc, place, clock, written)?;
    serve_over(alloc, place, clock, started, rings, listening)
}

/// Opens the folder, and listens.
fn open<P: Place>(place: &mut P, counts: Counts) -> Result<Listening<P::Port>, ServerStop>
    ensures { IfOk result (λ listening. PassesNone
        (known_of (P.Port.Sockets.accepted listening.port) (P.Port.Sockets.gone listening.port))) }
{
    place.lock()?;
    let port = place.listen()?;
    Ok(Listening { port, counts })
}

/// Serves the handler, which has replayed the whole journal, behind the keys.
fn serve_over<'a, P: Place, H: Replayed + Figures + Drop, C: Clock>(
    alloc: Global,
    place: &'a mut P,
    clock: &C,
    started: Started<P::Disk, H>,
    rings: Sequence<Ring>,
    listening: Listening<P::Port>,
) -> Result<Ended<P::Link, P::Port, Logging<'a, P, H>>, ServerStop>
    ensures resumed { IfOk result (λ ended. HasResumed (promised H.Replayed)
        ⟦<EitherJournal<FileJournal<P::Disk>, FileJournal<P::NewDisk>> as Journal>⟧ ⟦<FileJournal<P::NewDisk> as Journal>⟧
        H.emptied P.Disk.Disk.seen P.Disk.Disk.may_leave P.Link.Stream.contents P.Link.Stream.remaining started.handler started.recovery rings
        (known_of (P.Port.Sockets.accepted listening.port) (P.Port.Sockets.gone listening.port))
        (known_of (P.Port.Sockets.accepted ended.port) (P.Port.Sockets.gone ended.port)) ended.result (world_behind unguarded ended.server)) }
    ensures origin { IfOk result (λ ended. ended.origin ≡ started.origin) }
{
    let Started {
        handler,
        recovery,
        records,
        startup,
        origin,
        forms,
        text,
    } = started;
    let Some(journaled) = resume(alloc, handler, recovery, records) else {
        return Err(ServerStop::Common(Stop::InputFault));
    };
    let (folder, tally) = announce(place, &listening, text, forms)?;
    let checkpointed = Checkpointed::new(journaled, folder);
    let guarded = Guarded::new(alloc, checkpointed, rings);
    let Listening { port, counts } = listening;
    let watched = Watched::new(alloc, guarded, place, counts.after(startup));
    serve_at(alloc, clock, origin, watched, port, tally)
}

/// The folder of the place, of whose checkpoints the event loop knows, and what this counts; reports where the server
/// listens.
fn announce<P: Place>(
    place: &mut P,
    listening: &Listening<P::Port>,
    text: Vec<u8>,
    forms: Forms,
) -> Result<(NotedFolder<P::Folder>, Rc<Tally>), ServerStop> {
    let folder = place.folder(text, forms)?;
    let folder = NotedFolder::new(folder, listening.counts.tally()?);
    place.announce(&listening.port)?;
    let tally = listening.counts.tally()?;
    Ok((folder, tally))
}

/// Serves the handler until it is killed or cannot continue. The error is out of memory, before it served.
fn serve_at<S: Stream + Drop, K: Sockets<S> + Drop, H: Settled + Drop, C: Clock>(
    alloc: Global,
    clock: &C,
    origin: Origin,
    handler: H,
    port: K,
    tally: Rc<Tally>,
) -> Result<Ended<S, K, H>, ServerStop>
    ensures served { IfOk result (λ ended. HasServed H.step H.settled S.contents S.remaining handler
        (known_of (K.accepted port) (K.gone port)) (known_of (K.accepted ended.port) (K.gone ended.port)) ended.result ended.server) }
    ensures origin { IfOk result (λ ended. ended.origin ≡ origin) }
{
    let Ok(mut server) = Server::new(alloc, handler) else {
        return Err(ServerStop::Common(Stop::NoMemory));
    };
    let clock = GuardedClock::new(clock, tally.clone()?);
    let mut counted = CountedPort::new(port, tally);
    let result = server.serve(&mut counted, &clock);
    Ok(Ended {
        server,
        port: counted.into_port(),
        result,
        jumped: clock.jumped(),
        origin,
    })
}

/// Why the server stops when its service ended, and the clock jumped to that second, or did not jump.
fn stop_of(fault: ServeFault, jumped: Option<u64>) -> ServerStop
    ensures { result ≡ stop_of fault jumped }
{
    match (fault, jumped) {
        (ServeFault::Wait, _) => ServerStop::Common(Stop::SocketFault),
        (ServeFault::Clock, Some(second)) => ServerStop::Jumped(to_moment(second)),
        (ServeFault::Clock, None) => ServerStop::Common(Stop::InputFault),
        (ServeFault::Unsettled, _) => ServerStop::CannotWrite,
    }
}
