//! A handler that counts, and may not settle.
ghost use Rattle.std.specs.Prelude.{⊤};

use oai_http::{Answer, Exchange, Handler, SettleFault, Settled, Status};
use oai_names::Sequence;
use std::alloc::{AllocError, Global};
use std::cell::Cell;
use std::rc::Rc;

/// How much a handler did.
#[derive(Drop)]
pub(crate) struct Count {
    pub(crate) performed: Cell<u64>,
    pub(crate) settled: Cell<u64>,
}

impl Count {
    /// Nothing so far.
    pub(crate) fn new(alloc: Global) -> Result<Rc<Count>, AllocError> {
        Ok(Rc::new(
            alloc,
            Count {
                performed: Cell::new(0),
                settled: Cell::new(0),
            },
        )?)
    }
}

/// Answers the target, a thousand times over where it begins with `/l`; the settling of that number fails, counted
/// from 1.
#[derive(Drop)]
pub(crate) struct Echo {
    pub(crate) alloc: Global,
    pub(crate) count: Rc<Count>,
    pub(crate) fails: u64,
}

impl Handler for Echo {
    ghost step = { λ old moment asked answer new. ⊤ };

    fn exchange(&mut self, _moment: i64, exchange: &Exchange<'_>) -> Answer {
        self.count
            .performed
            .set(self.count.performed.get().saturating_add(1));
        let times = if exchange.target.bytes().starts_with(b"/l") {
            1_000
        } else {
            1
        };
        match repeated(self.alloc, exchange.target.bytes(), times) {
            Ok(body) => Answer::with_body(Sequence::new(body)),
            Err(_) => Answer::of_status(self.alloc, Status::ServiceUnavailable),
        }
    }
}

impl Settled for Echo {
    ghost settled = { λ old result new. ⊤ };

    fn settle(&mut self) -> Result<(), SettleFault> {
        let number = self.count.settled.get().saturating_add(1);
        self.count.settled.set(number);
        if number == self.fails {
            return Err(SettleFault);
        }
        Ok(())
    }
}

/// The bytes, so many times.
fn repeated(alloc: Global, bytes: &[u8], times: usize) -> Result<Vec<u8>, AllocError> {
    let mut all = Vec::new(alloc);
    for _ in 0..times {
        all.extend_from_slice(bytes)?;
    }
    Ok(all)
}
