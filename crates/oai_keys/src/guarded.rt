//! A handler in front of which keys are asked for.
ghost use Rattle.std.specs.Prelude.{◌≡◌};

use crate::admissions::is_admitted;
use crate::rings::Ring;
use oai_figures::{Exposition, Figures};
use oai_http::{Answer, Exchange, Handler, SettleFault, Settled, Status};
use oai_names::Sequence;
use std::alloc::Global;
use std::marker::Model;

/// A handler, and the keys of its repositories: a message that they do not admit is answered 401 (Unauthorized), and
/// does not reach the handler.
#[derive(Drop)]
pub struct Guarded<H> {
    alloc: Global,
    handler: H,
    rings: Sequence<Ring>,
}

impl<H> Model for Guarded<H> {
    ghost use Rattle.oai_keys.specs.Guards.{Guard};

    ghost Value = { Guard H };

    ghost view = { λ g. record { handler = g.handler; rings = g.rings } };
}

impl<H: Handler> Guarded<H> {
    /// The handler behind these keys. Allocates nothing.
    pub fn new(alloc: Global, handler: H, rings: Sequence<Ring>) -> Guarded<H>
        ensures handler { result.handler ≡ handler }
        ensures rings { result.rings ≡ rings }
    {
        Guarded {
            alloc,
            handler,
            rings,
        }
    }
}

impl<H: Handler> Handler for Guarded<H> {
    ghost use Rattle.oai_keys.specs.Guards.{IsGuarded};

    ghost step = { IsGuarded H.step };

    fn exchange(&mut self, moment: i64, exchange: &Exchange<'_>) -> Answer {
        if is_admitted(self.rings.as_slice(), exchange) {
            self.handler.exchange(moment, exchange)
        } else {
            Answer::of_status(self.alloc, Status::Unauthorized)
        }
    }
}

impl<H: Settled> Settled for Guarded<H> {
    ghost use Rattle.oai_keys.specs.Guards.{IsGuardSettled};

    ghost settled = { IsGuardSettled H.settled };

    fn settle(&mut self) -> Result<(), SettleFault> {
        self.handler.settle()
    }
}

impl<H: Figures> Figures for Guarded<H> {
    fn report(&self, page: &mut Exposition) {
        self.handler.report(page);
    }
}
