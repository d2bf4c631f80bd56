//! Connections to a host.
ghost use Rattle.std.specs.Prelude.{List, IsTrue};
ghost use Rattle.oai_front.specs.Fronts.{State};
ghost use Rattle.oai_front.specs.Runs.{Comes, FrontCall};
ghost use Rattle.oai_host.specs.Hosts.{HostState};
ghost use Rattle.oai_headline.specs.HostRuns.{AreServedByHost};

use oai_catalogue::Versions;
use oai_host::Host;
use oai_http::Handler;

/// The calls of a front come one after the other, as `run_law` of `oai_front` says, and a host performs the messages
/// over a store that returns what was written to it. At each of its repositories the answers are a run of its own
/// exchanges, and if none of these failed, those that it alone gives. A theorem, proved by an empty function.
pub fn host_law<V: Versions + Drop>()
    ensures hosted { (old new : State HostState) (calls : List FrontCall)
        → Comes ⟦<Host<V> as Handler>⟧.step old calls new → IsTrue old.handler.honest
        → AreServedByHost old new calls }
{}
