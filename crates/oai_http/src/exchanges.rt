//! Requests and their answers: what is asked, and what is answered.
ghost use Rattle.std.specs.Prelude.{◌≡◌};
ghost use Rattle.oai_http.specs.Answers as spec;
ghost use Rattle.oai_http.specs.Exchanges.{call_of};

use crate::statuses::Status;
use crate::targets::Target;
use oai_item::Fault;
use oai_names::Sequence;
use std::alloc::Global;

/// The seconds after which an exchange may be repeated that ran out of memory or pages.
const ROOM_SECONDS: i64 = 60;

/// A message, without the moment at which it comes.
#[derive(Debug, Drop)]
pub struct Exchange<'a> {
    /// The method, such as `GET`.
    pub method: &'a [u8],
    /// The target, such as `/oai/a?verb=Identify`, with what was parsed of it.
    pub target: Target<'a>,
    /// The value of the field Content-Type, if there is one.
    pub content_type: Option<&'a [u8]>,
    /// The value of the field Authorization, if there is one (RFC 9110, section 11.6.2).
    pub authorization: Option<&'a [u8]>,
    /// The body, empty if there is none.
    pub body: &'a [u8],
}

/// An exchange that owns its bytes, and the moment at which it comes. It has no authorization: what a call does depends
/// on none.
#[derive(Debug, Drop)]
pub struct Call {
    /// The moment, in seconds from 1970 on; it may also lie before those of earlier calls.
    pub moment: i64,
    /// The method, such as `GET`.
    pub method: Sequence<u8>,
    /// The target, such as `/oai/a?verb=Identify`.
    pub target: Sequence<u8>,
    /// The value of the field Content-Type, if there is one.
    pub content_type: Option<Sequence<u8>>,
    /// The body, empty if there is none.
    pub body: Sequence<u8>,
}

/// The answer to an exchange.
#[derive(Debug, Drop)]
pub struct Answer {
    /// The status.
    pub status: Status,
    /// With `ServiceUnavailable` the seconds, at least 1, after which the exchange may be repeated (Retry-After).
    pub seconds: Option<i64>,
    /// For a deposit that failed, the number of its lines that were done.
    pub done: Option<u64>,
    /// The body; empty unless the status is `Ok`.
    pub body: Sequence<u8>,
    /// Why the exchange failed. Present with `InternalServerError`, and with a `ServiceUnavailable` that is due to
    /// memory or pages.
    pub fault: Option<Fault>,
}

impl Call {
    /// The exchange, without the moment, and with no authorization.
    pub fn exchange(&self) -> Exchange<'_>
        ensures { call_of self.now.moment result ≡ self.now }
    {
        Exchange {
            method: self.method.as_slice(),
            target: Target::new(self.target.as_slice()),
            content_type: match &self.content_type {
                Some(value) => Some(value.as_slice()),
                None => None,
            },
            authorization: None,
            body: self.body.as_slice(),
        }
    }
}

impl Answer {
    /// A status and nothing else. Allocates nothing.
    pub fn of_status(alloc: Global, status: Status) -> Answer
        ensures { result ≡ spec.answered status }
    {
        Answer {
            status,
            seconds: None,
            done: None,
            body: Sequence::new(Vec::new(alloc)),
            fault: None,
        }
    }

    /// The exchange was performed, and this is the body.
    pub fn with_body(body: Sequence<u8>) -> Answer
        ensures { result ≡ spec.answered_with body }
    {
        Answer {
            status: Status::Ok,
            seconds: None,
            done: None,
            body,
            fault: None,
        }
    }

    /// The exchange may be repeated after that many seconds. Allocates nothing.
    pub fn to_wait(alloc: Global, seconds: i64) -> Answer
        ensures { result ≡ spec.asked_to_wait seconds }
    {
        Answer {
            seconds: Some(seconds),
            ..Answer::of_status(alloc, Status::ServiceUnavailable)
        }
    }

    /// The exchange failed; for a deposit, with the number of its lines that were done. Allocates nothing.
    pub fn of_fault(alloc: Global, fault: Fault, done: Option<u64>) -> Answer
        ensures { result ≡ spec.failed fault done }
    {
        let (status, seconds) = match fault {
            Fault::NoMemory | Fault::TooManyPages => {
                (Status::ServiceUnavailable, Some(ROOM_SECONDS))
            }
            Fault::Device | Fault::Damaged => (Status::InternalServerError, None),
        };
        Answer {
            status,
            seconds,
            done,
            body: Sequence::new(Vec::new(alloc)),
            fault: Some(fault),
        }
    }
}
