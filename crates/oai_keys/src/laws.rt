//! What keys keep out, whichever handler is behind them: a theorem, proved by an empty function.
ghost use Rattle.std.specs.Prelude.{◌≡◌, ℤ, Contains, false, true};
ghost use Rattle.oai_http.specs.Exchanges.{Asked};
ghost use Rattle.oai_http.specs.Targets.{leads_to};
ghost use Rattle.oai_http.specs.declared.exchanges.Answer.{Answer as Given};
ghost use Rattle.oai_http.specs.declared.targets.Endpoint.TheVariants.{Deposits};
ghost use Rattle.oai_keys.specs.Guards.{Guard, IsGuarded, barred};
ghost use Rattle.oai_keys.specs.Keys.{has_key, bearer_key};
ghost use Rattle.oai_keys.specs.declared.rings.Ring.{Ring as Held};

use oai_http::Handler;

/// A message to `/deposit/` and the name of a ring that has none of the ring's own keys is answered 401 and leaves the
/// handler as it was, whichever keys other repositories have, and whatever its method. A theorem, proved by an empty
/// function.
pub fn key_law<H: Handler>()
    ensures { (ring : Held) (before : Guard H) (moment : ℤ) (asked : Asked) (answer : Given) (after : Guard H)
        → Contains before.rings ring
        → leads_to Deposits ring.name asked.target ≡ true
        → has_key ring.digests (bearer_key asked.authorization) ≡ false
        → IsGuarded H.step before moment asked answer after
        → (answer ≡ barred) × (after ≡ before) }
{}
