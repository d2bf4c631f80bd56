//! What was performed, and parts of a handler's state, as log records.
ghost use Rattle.oai_durable.specs.Records as spec;
ghost use Rattle.oai_journal.specs.Records.{as_entry};
ghost use Rattle.oai_replay.specs.Parts.{as_part};
ghost use Rattle.oai_replay.specs.Redone.{call_again, is_short_name};
ghost use Rattle.oai_journal.specs.Records.{Entry};
ghost use Rattle.oai_journal.specs.declared.records.TheConstants.{MAX_BODY};
ghost use Rattle.oai_journal.specs.declared.tails.Tail.{Tail};
ghost use Rattle.std.specs.Option.{IfNone};
ghost use Rattle.std.specs.Prelude.{◌≡◌, ◌≤◌, ◌++◌, ◌∷◌, [], ℕ, Some, IfSome, IsTrue, List, None, length};

use oai_http::Endpoint;
use oai_journal::{Journal, Kind, LogRecord};
use oai_replay::{Part, PartKind, Performed};

/// What was performed at the moment, as a log record: a deposit or a request; a request without arguments is a tick.
pub(crate) fn record_of<'a>(moment: i64, performed: &Performed<'a>) -> LogRecord<'a>
    ensures { as_entry result ≡ spec.log_entry_of moment performed.now }
{
    LogRecord {
        moment,
        kind: kind_of(performed.endpoint, performed.bytes),
        name: performed.name,
        body: performed.bytes,
    }
}

/// Appends what was performed at the moment, into reserved space.
#[tactic(auto, unfolding(oai_journal::specs::Records::is_within))]
pub(crate) fn add<J: Journal>(journal: &mut J, moment: i64, performed: &Performed<'_>)
    requires name { IsTrue (is_short_name performed.now.name.now) }
    requires size { length performed.now.bytes.now ≤ MAX_BODY }
    requires room { J.has_room journal.old (length performed.now.bytes.now) }
    ensures added { (entries : List Entry) (durable : ℕ) → J.holds journal.old entries durable
        → J.holds journal.new (entries ++ spec.log_entry_of moment performed.now ∷ []) durable }
    ensures tails { (tail : Tail) (read : List Entry) → J.stands journal.old tail read → J.stands journal.new tail read }
{
    journal.append(&record_of(moment, performed));
}

/// The kind of the record.
fn kind_of(endpoint: Endpoint, bytes: &[u8]) -> Kind
    ensures { result ≡ spec.kind_of endpoint bytes.now }
{
    match endpoint {
        Endpoint::Deposits => Kind::Deposit,
        Endpoint::Requests => {
            if bytes.is_empty() {
                Kind::Tick
            } else {
                Kind::Oai
            }
        }
    }
}

/// What has to be replayed for a record; `None` for a kind that is no exchange.
pub(crate) fn performed_in<'a>(entry: &LogRecord<'a>) -> Option<Performed<'a>>
    ensures { IfSome result (λ p. call_again entry.now.moment p ≡ spec.call_in (as_entry entry.now)) }
{
    let endpoint = match entry.kind {
        Kind::Deposit => Endpoint::Deposits,
        Kind::Oai => Endpoint::Requests,
        Kind::Tick => Endpoint::Requests,
        Kind::Journal => return None,
        Kind::Begin => return None,
        Kind::Set => return None,
        Kind::Item => return None,
        Kind::List => return None,
        Kind::Gone => return None,
    };
    Some(Performed {
        endpoint,
        name: entry.name,
        bytes: entry.body,
    })
}

/// A part, as a record.
pub(crate) fn record_of_part<'a>(part: &Part<'a>) -> LogRecord<'a>
    ensures { as_entry result ≡ spec.entry_of_part (as_part part.now) }
{
    let kind = match part.kind {
        PartKind::Begin => Kind::Begin,
        PartKind::Set => Kind::Set,
        PartKind::Item => Kind::Item,
        PartKind::List => Kind::List,
        PartKind::Gone => Kind::Gone,
    };
    LogRecord {
        moment: part.moment,
        kind,
        name: part.name,
        body: part.bytes,
    }
}

/// The part that the record holds; `None` if it holds none.
pub(crate) fn part_in<'a>(entry: &LogRecord<'a>) -> Option<Part<'a>>
    ensures part { IfSome result (λ p. (spec.part_kind entry.now.kind ≡ Some p.kind)
        × (as_part p ≡ spec.part_of_entry p.kind (as_entry entry.now))) }
    ensures none { IfNone result (spec.part_kind entry.now.kind ≡ None) }
{
    let kind = match entry.kind {
        Kind::Begin => PartKind::Begin,
        Kind::Set => PartKind::Set,
        Kind::Item => PartKind::Item,
        Kind::List => PartKind::List,
        Kind::Gone => PartKind::Gone,
        Kind::Journal => return None,
        Kind::Oai => return None,
        Kind::Deposit => return None,
        Kind::Tick => return None,
    };
    Some(Part {
        kind,
        moment: entry.moment,
        name: entry.name,
        bytes: entry.body,
    })
}
