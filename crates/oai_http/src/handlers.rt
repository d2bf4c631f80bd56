ghost use Rattle.std.specs.Prelude.{ℤ, Result};
ghost use Rattle.oai_http.specs.Exchanges.{Asked, asked_by};
ghost use Rattle.oai_http.specs.declared.exchanges.Answer.{Answer as Given};
ghost use Rattle.oai_http.specs.declared.handlers.SettleFault.{SettleFault as Unsettled};

use crate::exchanges::{Answer, Exchange};
use thiserror::Error;

/// What was performed could not be made durable.
#[derive(Clone, Copy, Debug, PartialEq, Eq, Error)]
#[error("what was performed could not be made durable")]
pub struct SettleFault;

/// Performs the messages of connections.
pub trait Handler {
    /// What may be answered at a moment, in seconds from 1970 on, to what is asked, and what the handler then is.
    ghost step: { Self → ℤ → Asked → Given → Self → Type 0 };

    /// Performs a message at the moment, in seconds from 1970 on, and returns its answer, which also reports out of
    /// memory and other faults.
    fn exchange(&mut self, moment: i64, exchange: &Exchange<'_>) -> Answer
        ensures { step self.old moment (asked_by exchange.now) result self.new };
}

/// A handler whose answers may be sent only after it has settled (group commit).
pub trait Settled: Handler {
    /// What settling may return, and what the handler then is.
    ghost settled: { Self → Result Unit Unsettled → Self → Type 0 };

    /// Makes all that was performed durable, so that the answers may be sent. After an error, none of the answers since
    /// the last settling that was Ok may be sent.
    fn settle(&mut self) -> Result<(), SettleFault>
        ensures { settled self.old result self.new };
}
