ghost use Rattle.std.specs.Prelude.{◌≡◌, Some};
ghost use Rattle.oai_time.specs.Bound.{IsWritableBound, bound_of};
ghost use Rattle.oai_args.specs.Bounds as spec;
ghost use Rattle.oai_args.specs.Requests.{provided};

use oai_names::Text;
use oai_time::{Bound, Granularity, is_no_finer_than, read_bound};
use std::marker::Model;

/// An argument `from` or `until`: its text, and the bound that the text stands for (OAI-PMH 2.0, section
/// 2.7.1). Contracts see the bytes of the text.
#[derive(Debug, Drop)]
pub struct BoundText {
    text: Text,
    bound: Bound,
}

impl Model for BoundText {
    ghost use Rattle.std.specs.Prelude.{◌≡◌, ℕ, List, Some};
    ghost use Rattle.oai_time.specs.Bound.{IsWritableBound, bound_of};

    ghost Value = { List ℕ };

    ghost view = { λ b. b.text };

    ghost invariant = { λ b. (bound_of b.text ≡ Some b.bound) × IsWritableBound b.bound };
}

impl BoundText {
    /// The text, as it was given.
    pub fn as_str(&self) -> &str
        ensures { result.now ≡ self.now }
    {
        self.text.as_str()
    }

    /// The bound that the text stands for, parsed when the request was read.
    pub fn bound(&self) -> Bound
        ensures value { bound_of self.now ≡ Some result }
        ensures writable { IsWritableBound result }
    {
        self.bound
    }
}

/// The argument if it is absent, or is a bound no finer than the granularity; otherwise None. Allocates nothing.
pub(crate) fn none_or_bound(
    granularity: Granularity,
    argument: Option<Text>,
) -> Option<Option<BoundText>>
    ensures { result ≡ provided (spec.is_none_or_bound granularity argument) argument }
{
    match argument {
        Some(text) => match read_bound(text.as_str()) {
            Ok(bound) => {
                if is_no_finer_than(bound, granularity) {
                    Some(Some(BoundText { text, bound }))
                } else {
                    None
                }
            }
            Err(_) => None,
        },
        None => Some(None),
    }
}

/// Whether, if both are given, the two bounds have one granularity and the first is not after the second.
pub(crate) fn are_not_turned(from: &Option<BoundText>, until: &Option<BoundText>) -> bool
    ensures { result
        ≡ spec.are_not_turned (spec.given_bound from.now) (spec.given_bound until.now) }
{
    match (from, until) {
        (Some(from), Some(until)) => is_not_after(from.bound(), until.bound()),
        _ => true,
    }
}

/// Whether the bound is not after the other, which has the same granularity.
fn is_not_after(from: Bound, until: Bound) -> bool
    ensures { result ≡ spec.is_not_after from until }
{
    match (from, until) {
        (Bound::Day(from), Bound::Day(until)) => from <= until,
        (Bound::Second(from), Bound::Second(until)) => from <= until,
        (Bound::Day(_), Bound::Second(_)) => false,
        (Bound::Second(_), Bound::Day(_)) => false,
    }
}
