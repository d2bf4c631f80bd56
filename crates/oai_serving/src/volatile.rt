//! A handler with nothing to settle.
ghost use Rattle.std.specs.Prelude.{◌≡◌, Ok};

use oai_http::{Answer, Exchange, Handler, SettleFault, Settled};

/// A handler that makes nothing durable: settling does nothing.
#[derive(Drop)]
pub struct Volatile<H> {
    handler: H,
}

impl<H> Volatile<H> {
    /// Over that handler.
    pub fn new(handler: H) -> Volatile<H>
        ensures { result.handler ≡ handler }
    {
        Volatile { handler }
    }
}

impl<H: Handler> Handler for Volatile<H> {
    ghost step = { λ old moment asked answer new. H.step old.handler moment asked answer new.handler };

    fn exchange(&mut self, moment: i64, exchange: &Exchange<'_>) -> Answer {
        self.handler.exchange(moment, exchange)
    }
}

impl<H: Handler> Settled for Volatile<H> {
    ghost use Rattle.std.specs.Prelude.{◌≡◌, Ok};

    ghost settled = { λ old result new. (result ≡ Ok tt) × (new ≡ old) };

    fn settle(&mut self) -> Result<(), SettleFault> {
        Ok(())
    }
}
