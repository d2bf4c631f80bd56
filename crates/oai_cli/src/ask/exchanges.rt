//! Parses an exchange in a line of the input.
ghost use Rattle.std.specs.Prelude.{◌≡◌};
ghost use Rattle.std.specs.Option.{option_copied, option_map};
ghost use Rattle.oai_cli.specs.ExchangeLines as spec;

use crate::input::spaces::has_two_spaces;
use oai_bytes::{read_moment, split_at_space};
use oai_http::{Exchange, FORM, Target};

/// Parses a line: three or four parts between single spaces, of which the last extends to the end: a moment in seconds
/// from 1970 on, a method, a target and a body; the body of a POST is a form.
#[tactic(auto, unfolding(crate::specs::ExchangeLines::parse_exchange))]
pub(crate) fn parse_exchange(line: &[u8]) -> Option<(i64, Exchange<'_>)>
    ensures { option_map spec.call_by result ≡ spec.parse_exchange line.now }
{
    if !has_two_spaces(line) {
        return None;
    }
    let (moment, rest) = split_at_space(line);
    let (method, rest) = split_at_space(rest);
    let (target, body) = split_at_space(rest);
    let moment = read_moment(moment)?;
    Some((
        moment,
        Exchange {
            method,
            target: Target::new(target),
            content_type: type_of(method),
            authorization: None,
            body,
        },
    ))
}

/// The media type of the body, if the method takes one.
fn type_of(method: &[u8]) -> Option<&'static [u8]>
    ensures { option_copied result ≡ spec.type_of method.now }
{
    if method == b"POST".as_slice() {
        Some(FORM)
    } else {
        None
    }
}
