//! A handler that repeats what it was asked.
ghost use Rattle.std.specs.Prelude.{⊤};

use oai_http::{Answer, Exchange, Handler, Status};
use oai_names::Sequence;
use std::alloc::{AllocError, Global};
use std::str::from_utf8;

/// Counts what it was asked.
#[derive(Drop)]
pub struct Teller {
    alloc: Global,
    asked: u64,
}

impl Handler for Teller {
    ghost step = { λ old moment asked answer new. ⊤ };

    fn exchange(&mut self, moment: i64, exchange: &Exchange<'_>) -> Answer {
        self.asked = self.asked.wrapping_add(1);
        match planned(from_utf8(exchange.target.bytes()).unwrap_or("")) {
            Some((status, seconds, done)) => told_only(self.alloc, status, seconds, done),
            None => self.told(moment, exchange),
        }
    }
}

/// The status, the seconds and the number of lines that a target is answered; none where the answer repeats
/// what was asked.
fn planned(target: &str) -> Option<(Status, Option<i64>, Option<u64>)> {
    match target {
        "/oai/a" | "/deposit/a" => None,
        "/oai/later" => Some((Status::ServiceUnavailable, Some(50), None)),
        "/deposit/barred" => Some((Status::Unauthorized, None, None)),
        "/deposit/later" => Some((Status::ServiceUnavailable, Some(60), Some(2))),
        "/deposit/failed" => Some((Status::InternalServerError, None, Some(1))),
        "/oai/failed" => Some((Status::InternalServerError, None, None)),
        "/oai/put" | "/deposit/put" => Some((Status::MethodNotAllowed, None, None)),
        "/oai/type" => Some((Status::UnsupportedMediaType, None, None)),
        "*" => Some((Status::BadRequest, None, None)),
        _ => Some((Status::NotFound, None, None)),
    }
}

impl Teller {
    /// How many exchanges came before, the moment, the method, the type, the authorization if there is one, and the
    /// body.
    fn told(&self, moment: i64, exchange: &Exchange<'_>) -> Answer {
        match in_words(self.alloc, self.asked, moment, exchange) {
            Ok(words) => Answer {
                status: Status::Ok,
                seconds: None,
                done: None,
                body: Sequence::new(words),
                fault: None,
            },
            Err(_) => told_only(self.alloc, Status::ServiceUnavailable, Some(60), None),
        }
    }
}

fn in_words(
    alloc: Global,
    asked: u64,
    moment: i64,
    exchange: &Exchange<'_>,
) -> Result<Vec<u8>, AllocError> {
    let number = format!(in alloc; "{asked} {moment} ")?;
    let mut words = number.into_bytes();
    let content_type = exchange.content_type.unwrap_or(b"-");
    let key = exchange.authorization.unwrap_or(b"");
    let pieces: [&[u8]; 6] = [
        exchange.method,
        b" [",
        content_type,
        b"] ",
        key,
        exchange.body,
    ];
    for piece in pieces {
        words.extend_from_slice(piece)?;
    }
    Ok(words)
}

/// An answer without a body.
fn told_only(alloc: Global, status: Status, seconds: Option<i64>, done: Option<u64>) -> Answer {
    Answer {
        status,
        seconds,
        done,
        body: Sequence::new(Vec::new(alloc)),
        fault: None,
    }
}

/// A handler that was asked nothing yet.
pub fn unasked(alloc: Global) -> Teller {
    Teller { alloc, asked: 0 }
}
