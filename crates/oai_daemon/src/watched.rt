//! A handler whose faults are reported, and whose figures are answered.
ghost use Rattle.std.specs.Prelude.{◌≡◌};
ghost use Rattle.oai_daemon.specs.Watches as spec;
ghost use Rattle.oai_daemon.specs.Watches.{IsStatusAnswer};
ghost use Rattle.oai_host.specs.Tasks.{is_get};

use crate::counts::Counts;
use oai_figures::{Exposition, Figures};
use oai_http::{Answer, Exchange, Handler, SettleFault, Settled, Status};
use oai_item::Fault;
use oai_names::Sequence;
use oai_recovery::{Notice, Place};
use std::alloc::Global;
use std::marker::Model;

/// The target of the figures of a server.
const STATUS: &[u8] = b"/status";

/// The method that it allows.
const GET: &[u8] = b"GET";

/// A handler, and the place to which each exchange is reported that it answers with 500 (Internal Server Error); equal
/// faults once a second, with their number since. Its answers are counted. A message to `/status` does not reach it: that
/// is answered with its figures, and with those of the server, which are also reported to the place each hour.
#[derive(Drop)]
pub struct Watched<'a, H, P> {
    alloc: Global,
    handler: H,
    place: &'a mut P,
    counts: Counts,
    /// The fault that was reported last, and its moment.
    told: Option<(Fault, i64)>,
    /// How many equal ones came since.
    untold: u64,
}

impl<'a, H, P> Model for Watched<'a, H, P> {
    ghost Value = { H };

    ghost view = { λ w. w.handler };
}

impl<'a, H: Figures, P: Place> Watched<'a, H, P> {
    /// Over that handler, whose faults and figures are reported to the place.
    pub(crate) fn new(
        alloc: Global,
        handler: H,
        place: &'a mut P,
        counts: Counts,
    ) -> Watched<'a, H, P>
        ensures { result ≡ handler }
    {
        Watched {
            alloc,
            handler,
            place,
            counts,
            told: None,
            untold: 0,
        }
    }

    /// Notes an answer at that moment.
    fn watch(&mut self, moment: i64, status: Status, fault: Option<Fault>)
        ensures { self.new ≡ self.old }
    {
        match (status, fault) {
            (Status::InternalServerError, Some(fault)) => self.fail(moment, fault),
            _ => {}
        }
    }

    /// Notes a fault at that moment.
    fn fail(&mut self, moment: i64, fault: Fault)
        ensures { self.new ≡ self.old }
    {
        if self.told == Some((fault, moment)) {
            self.untold = self.untold.saturating_add(1);
            return;
        }
        match self.told {
            Some((before, _)) if self.untold > 0 => {
                self.place.tell(Notice::Failed(self.untold, before));
            }
            _ => {}
        }
        self.untold = 0;
        self.told = Some((fault, moment));
        self.place.tell(Notice::Failed(1, fault));
    }

    /// All figures.
    fn figures(&self) -> Exposition {
        let mut page = Exposition::new(self.alloc);
        self.counts.report(&mut page);
        self.handler.report(&mut page);
        page
    }

    /// The answer to a message to `/status` with that method.
    fn status(&self, method: &[u8]) -> Answer
        ensures { IsStatusAnswer method.now result }
    {
        if !is_get(method) {
            return Answer::of_status(self.alloc, Status::MethodNotAllowed);
        }
        match self.figures().into_text() {
            Some(text) => Answer::with_body(Sequence::new(text.into_bytes())),
            None => Answer::of_fault(self.alloc, Fault::NoMemory, None),
        }
    }

    /// Reports the figures as a line, if one is due; none if memory runs out.
    fn tell_hourly(&mut self)
        ensures { self.new ≡ self.old }
    {
        if !self.counts.takes_line() {
            return;
        }
        if let Some(line) = self.figures().into_line(self.alloc) {
            self.place.tell_figures(line.as_str());
        }
    }
}

impl<H: Handler + Figures, P: Place> Handler for Watched<'_, H, P> {
    ghost use Rattle.oai_daemon.specs.Watches.{Watches};

    ghost step = { Watches H.step };

    fn exchange(&mut self, moment: i64, exchange: &Exchange<'_>) -> Answer {
        if is_status(exchange.target.bytes()) {
            return self.status(exchange.method);
        }
        let answer = self.handler.exchange(moment, exchange);
        self.counts.count(&exchange.target, answer.status);
        self.watch(moment, answer.status, answer.fault);
        answer
    }
}

impl<H: Settled + Figures, P: Place> Settled for Watched<'_, H, P> {
    ghost settled = { H.settled };

    fn settle(&mut self) -> Result<(), SettleFault> {
        let settled = self.handler.settle();
        self.tell_hourly();
        settled
    }
}

/// Whether the target is that of the figures.
fn is_status(target: &[u8]) -> bool
    ensures { result ≡ spec.is_status target.now }
{
    target == STATUS
}

/// Whether the method is GET.
fn is_get(method: &[u8]) -> bool
    ensures { result ≡ is_get method.now }
{
    method == GET
}
