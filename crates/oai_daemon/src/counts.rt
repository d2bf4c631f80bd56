//! What a server counts of the messages that it answers, and what it knows of its startup: figures.
use crate::tallies::Tally;
use oai_figures::{Exposition, Figures};
use oai_host::Config;
use oai_http::{Endpoint, Status, Target};
use oai_recovery::StartupFigures;
use std::alloc::{AllocError, Global};
use std::rc::Rc;

/// How often a server writes its figures as a line, in seconds: each hour.
const LINE_SECONDS: u64 = 3_600;

/// The deposits into a repository: how many messages were answered 200, and how many 401.
#[derive(Drop)]
struct DepositCounts {
    name: String,
    accepted: u64,
    denied: u64,
}

/// How many messages were answered with each status.
#[derive(Clone, Copy, Debug)]
struct AnswerCounts {
    ok: u64,
    bad_request: u64,
    unauthorized: u64,
    not_found: u64,
    method_not_allowed: u64,
    unsupported_media_type: u64,
    internal_server_error: u64,
    service_unavailable: u64,
    /// With any other status.
    others: u64,
}

/// What a server counts, and what it knows of its startup.
#[derive(Drop)]
pub(crate) struct Counts {
    startup: StartupFigures,
    tally: Rc<Tally>,
    answers: AnswerCounts,
    deposits: Vec<DepositCounts>,
    /// The second of a monotonic clock from which on the next line is due.
    due: u64,
}

impl AnswerCounts {
    /// Of no answer.
    fn new() -> AnswerCounts {
        AnswerCounts {
            ok: 0,
            bad_request: 0,
            unauthorized: 0,
            not_found: 0,
            method_not_allowed: 0,
            unsupported_media_type: 0,
            internal_server_error: 0,
            service_unavailable: 0,
            others: 0,
        }
    }

    /// Counts an answer.
    fn count(&mut self, status: Status) {
        let count = match status {
            Status::Ok => &mut self.ok,
            Status::BadRequest => &mut self.bad_request,
            Status::Unauthorized => &mut self.unauthorized,
            Status::NotFound => &mut self.not_found,
            Status::MethodNotAllowed => &mut self.method_not_allowed,
            Status::UnsupportedMediaType => &mut self.unsupported_media_type,
            Status::InternalServerError => &mut self.internal_server_error,
            Status::ServiceUnavailable => &mut self.service_unavailable,
            Status::ContentTooLarge | Status::NotImplemented => &mut self.others,
        };
        *count = count.wrapping_add(1);
    }
}

impl Counts {
    /// Of no message, for the repositories of the configuration, in that second of a monotonic clock.
    pub(crate) fn new(alloc: Global, config: &Config, second: u64) -> Result<Counts, AllocError> {
        let tally = Rc::new(alloc, Tally::new(second))?;
        let deposits = deposits_of(alloc, config)?;
        Ok(Counts {
            startup: StartupFigures::new(),
            tally,
            answers: AnswerCounts::new(),
            deposits,
            due: second.saturating_add(LINE_SECONDS),
        })
    }

    /// The same after that startup.
    pub(crate) fn after(mut self, startup: StartupFigures) -> Counts {
        self.startup = startup;
        self
    }

    /// What the event loop counts.
    pub(crate) fn tally(&self) -> Result<Rc<Tally>, AllocError> {
        self.tally.clone()
    }

    /// Counts an answer to a message with that target.
    pub(crate) fn count(&mut self, target: &Target<'_>, status: Status) {
        self.answers.count(status);
        let Some((Endpoint::Deposits, name)) = target.named() else {
            return;
        };
        for one in &mut self.deposits {
            if one.name.as_bytes() == name {
                one.count(status);
                return;
            }
        }
    }

    /// Whether a line is due; the next one is, an hour after this one.
    pub(crate) fn takes_line(&mut self) -> bool {
        let second = self.tally.second();
        if second < self.due {
            return false;
        }
        self.due = second.saturating_add(LINE_SECONDS);
        true
    }
}

/// Of no deposit, for the repositories of the configuration.
fn deposits_of(alloc: Global, config: &Config) -> Result<Vec<DepositCounts>, AllocError> {
    let mut deposits = Vec::new(alloc);
    for one in config.repositories() {
        let name = String::from_str(alloc, one.name.as_str())?;
        deposits.push(DepositCounts::new(name))?;
    }
    Ok(deposits)
}

impl DepositCounts {
    /// Of no deposit, for the repository with that name.
    fn new(name: String) -> DepositCounts {
        DepositCounts {
            name,
            accepted: 0,
            denied: 0,
        }
    }

    /// Counts an answer.
    fn count(&mut self, status: Status) {
        match status {
            Status::Ok => self.accepted = self.accepted.wrapping_add(1),
            Status::Unauthorized => self.denied = self.denied.wrapping_add(1),
            _ => {}
        }
    }
}

impl Figures for Counts {
    fn report(&self, page: &mut Exposition) {
        let startup = match self.tally.checkpoint() {
            Some((moment, bytes)) => self.startup.replaced(moment, bytes),
            None => self.startup,
        };
        startup.report(page);
        page.add(
            "connections",
            "Connections that are open.",
            self.tally.open(),
        );
        page.add(
            "connections_total",
            "Connections that were accepted.",
            self.tally.accepted(),
        );
        self.answers.report(page);
        page.begin("deposits_total", "Deposits that were answered 200.");
        for one in &self.deposits {
            page.add_for(
                "deposits_total",
                "repository",
                one.name.as_str(),
                one.accepted,
            );
        }
        page.begin("denied_total", "Deposits that were answered 401.");
        for one in &self.deposits {
            page.add_for("denied_total", "repository", one.name.as_str(), one.denied);
        }
    }
}

impl Figures for AnswerCounts {
    fn report(&self, page: &mut Exposition) {
        let counts = [
            ("200", self.ok),
            ("400", self.bad_request),
            ("401", self.unauthorized),
            ("404", self.not_found),
            ("405", self.method_not_allowed),
            ("415", self.unsupported_media_type),
            ("500", self.internal_server_error),
            ("503", self.service_unavailable),
        ];
        page.begin("requests_total", "Messages by the status of their answer.");
        for (status, count) in counts {
            page.add_for("requests_total", "status", status, count);
        }
    }
}
