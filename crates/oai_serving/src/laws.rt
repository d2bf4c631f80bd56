ghost use Rattle.std.specs.Prelude.{◌≡◌, []};
ghost use Rattle.slab.specs.Slab.{Slab};
ghost use Rattle.oai_serving.specs.Links.{Link};
ghost use Rattle.oai_serving.specs.Tables.{AreAllKept};

use crate::sockets::Stream;

/// `serve` may continue from a server with no links, which accepted and closed no stream and served nothing. A
/// theorem, proved by an empty function.
pub fn begin_law<S: Stream>()
    ensures { (links : Slab (Link S)) → links.slots ≡ [] → AreAllKept S.contents S.remaining [] [] [] links }
{}
