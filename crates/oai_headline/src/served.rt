//! A host over the pages of one device.
ghost use Rattle.std.specs.Prelude.{◌≡◌, List, IsTrue};
ghost use Rattle.oai_config.specs.Configs.{HostConfig};
ghost use Rattle.oai_host.specs.Hosts.{AreExchanged, HostState};
ghost use Rattle.oai_http.specs.declared.exchanges.Answer.{Answer};
ghost use Rattle.oai_http.specs.declared.exchanges.Call.{Call};
ghost use Rattle.oai_headline.specs.Served.{AreServedOnPages};
ghost use Rattle.oai_startup.specs.Begun.{IsBegunOn};

use oai_device::PageDevice;

/// Repositories on the pages of one device are isolated from each other. A host is made of a configuration, over a
/// device that returns what was written to it, and performs exchanges, one after the other, as `Host::run` and
/// `Host::exchange` say. The answers at each repository are those of a run of its own exchanges alone, from its empty
/// state. If none of these failed, they are the answers that the repository gives alone: they show nothing of the other
/// repositories, of the shared cache, or of where the pages are. An answer reports a failed device only if it failed
/// since the host was made, and never reports damage. A theorem, proved by an empty function.
pub fn pages_law<D: PageDevice>()
    ensures served { (config : HostConfig) (device : D) (first last : HostState) (calls : List Call)
        (answers : List Answer) → IsBegunOn config (D.honest device) (D.failures device) first
        → IsTrue (D.honest device) → AreExchanged calls answers first last
        → AreServedOnPages config (D.failures device) calls answers first last }
{}
