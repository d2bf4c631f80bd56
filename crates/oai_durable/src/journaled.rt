//! A handler, and the journal of what it performed.
ghost use Rattle.oai_durable.specs.Journaled as spec;
ghost use Rattle.oai_durable.specs.Records.{most_in};
ghost use Rattle.oai_journal.specs.Records.{Entry};
ghost use Rattle.oai_journal.specs.declared.records.TheConstants.{MAX_BODY};
ghost use Rattle.oai_journal.specs.declared.tails.Tail.{Tail};
ghost use Rattle.oai_durable.specs.declared.either.EitherJournal.TheVariants.{First};
ghost use Rattle.std.specs.Prelude.{◌≡◌, ◌≤◌, ℕ, List, OnOk};

use crate::either::EitherJournal;
use crate::folders::Measured;
use crate::records::add;
use oai_figures::{Exposition, Figures};
use oai_http::{Answer, Endpoint, Exchange, Handler, SettleFault, Settled, Target};
use oai_item::Fault;
use oai_journal::{Journal, JournalFault, MAX_BODY};
use oai_replay::Replayed;
use std::alloc::Global;
use std::marker::Model;

/// A handler whose exchanges are logged in a journal: what it performs is appended, and answers may be sent once it has
/// settled (group commit).
#[derive(Drop)]
pub struct Journaled<H, J> {
    pub(crate) alloc: Global,
    pub(crate) handler: H,
    pub(crate) journal: J,
    /// How many records the journal has behind its first one.
    pub(crate) records: u64,
}

impl<H, J> Model for Journaled<H, J> {
    ghost use Rattle.oai_durable.specs.Journaled.{Parts};

    ghost Value = { Parts H J };

    ghost view = { λ j. record { handler = j.handler; journal = j.journal } };
}

impl<H: Replayed, J: Journal> Journaled<H, J> {
    /// The handler; the journal has what it performed, that many records behind its first one.
    pub fn new(alloc: Global, handler: H, journal: J, records: u64) -> Journaled<H, J>
        ensures handler { result.handler ≡ handler }
        ensures journal { result.journal ≡ journal }
    {
        Journaled {
            alloc,
            handler,
            journal,
            records,
        }
    }

    /// The same with another journal, which has that many records behind its first one; its own is dropped.
    pub(crate) fn replace(&mut self, journal: J, records: u64)
        ensures handler { self.new.handler ≡ self.old.handler }
        ensures journal { self.new.journal ≡ journal }
    {
        self.journal = journal;
        self.records = records;
    }

    /// The length of the journal in bytes.
    pub(crate) fn bytes(&self) -> usize
    where
        J: Measured,
    {
        self.journal.bytes()
    }

    /// The same with its journal as one of two kinds.
    pub(crate) fn either<K: Journal>(self) -> Journaled<H, EitherJournal<J, K>>
        ensures handler { result.handler ≡ self.handler }
        ensures journal { result.journal ≡ First self.journal }
    {
        let Journaled {
            alloc,
            handler,
            journal,
            records,
        } = self;
        Journaled {
            alloc,
            handler,
            journal: EitherJournal::First(journal),
            records,
        }
    }

    /// The journal; the handler is dropped.
    pub fn into_journal(self) -> J
    where
        H: Drop,
        ensures { result ≡ self.journal }
    {
        self.journal
    }
}

impl<H: Replayed, J: Journal> Handler for Journaled<H, J> {
    ghost use Rattle.oai_durable.specs.Journaled.{IsExchange, promised};

    ghost step = { IsExchange (promised H.Replayed) J.Journal };

    fn exchange(&mut self, moment: i64, exchange: &Exchange<'_>) -> Answer {
        match make_room(&mut self.journal, exchange) {
            Ok(()) => {
                let done = self.handler.exchange_recorded(moment, exchange);
                if let Some(performed) = done.performed {
                    add(&mut self.journal, moment, &performed);
                    self.records = self.records.wrapping_add(1);
                }
                done.answer
            }
            Err(_) => refused(self.alloc, &exchange.target),
        }
    }
}

/// The answer to a message that was not performed, since no space could be reserved for its record; for a deposit, with
/// no line done.
fn refused(alloc: Global, target: &Target<'_>) -> Answer
    ensures { result ≡ spec.unperformed_answer target.now }
{
    let done = match target.endpoint() {
        Some(Endpoint::Deposits) => Some(0),
        Some(Endpoint::Requests) => None,
        None => None,
    };
    Answer::of_fault(alloc, Fault::NoMemory, done)
}

/// Reserves space for the record that the message may need. The error is NoRoom, if out of memory or if a record cannot
/// be so long.
fn make_room<J: Journal>(journal: &mut J, exchange: &Exchange<'_>) -> Result<(), JournalFault>
    ensures room { OnOk result (J.has_room journal.new (most_in exchange.now)) }
    ensures size { OnOk result (most_in exchange.now ≤ MAX_BODY) }
    ensures same { (entries : List Entry) (durable : ℕ) → J.holds journal.old entries durable
        → J.holds journal.new entries durable }
    ensures tails { (tail : Tail) (read : List Entry) → J.stands journal.old tail read → J.stands journal.new tail read }
{
    let most = exchange.target.bytes().len().max(exchange.body.len());
    if most > MAX_BODY {
        return Err(JournalFault::NoRoom);
    }
    match journal.reserve(most) {
        Ok(()) => Ok(()),
        Err(fault) => Err(fault),
    }
}

impl<H: Replayed, J: Journal> Settled for Journaled<H, J> {
    ghost use Rattle.oai_durable.specs.Journaled.{IsSettled};

    ghost settled = { IsSettled J.Journal };

    fn settle(&mut self) -> Result<(), SettleFault> {
        match self.journal.commit() {
            Ok(()) => Ok(()),
            Err(_) => Err(SettleFault),
        }
    }
}

impl<H: Figures, J: Measured> Figures for Journaled<H, J> {
    fn report(&self, page: &mut Exposition) {
        let records = "Log records of the journal behind its first one.";
        page.add("journal_records", records, self.records);
        let bytes = self.journal.bytes() as u64;
        page.add("journal_bytes", "Length of the journal in bytes.", bytes);
        self.handler.report(page);
    }
}
