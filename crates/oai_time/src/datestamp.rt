ghost use Rattle.std.specs.Prelude.{◌≡◌, ◌≤◌, length};
ghost use Rattle.oai_time.specs.Stamp.{IsWritable};
ghost use Rattle.oai_time.specs.TimeTexts.{datestamp_text};

use crate::granularity::Granularity;
use crate::text::write_second;
use std::marker::Model;

/// The text of a datestamp, of at most 20 bytes: `YYYY-MM-DD` in a repository of days, and
/// `YYYY-MM-DDThh:mm:ssZ` in one of seconds (OAI-PMH 2.0, section 2.7.1 and 3.3 "UTCdatetime").
/// Contracts see its bytes.
#[derive(Debug, Drop)]
pub struct Datestamp {
    /// The text of the second, which begins with that of its day.
    second: [u8; 20],
    /// The number of bytes of it that are the datestamp.
    len: usize,
}

impl Model for Datestamp {
    ghost use Rattle.std.specs.Prelude.{◌≤◌, ℕ, List, take};

    ghost Value = { List ℕ };

    ghost view = { λ d. take d.len d.second };

    ghost invariant = { λ d. d.len ≤ 20 };
}

impl Datestamp {
    /// The bytes of the text, all of them ASCII. Allocates nothing.
    pub fn as_bytes(&self) -> &[u8]
        ensures text { result.now ≡ self.now }
        ensures short { length self.now ≤ 20 }
    {
        &self.second[..self.len]
    }
}

/// The datestamp of `seconds` at the granularity. The seconds lie in the years 0000 to 9999. Allocates nothing.
#[tactic(auto, using(crate::proofs::BoundLemmas::day_in_second, crate::proofs::BoundLemmas::whole_second))]
pub fn write_datestamp(granularity: Granularity, seconds: i64) -> Datestamp
    requires { IsWritable seconds }
    ensures { result ≡ datestamp_text granularity seconds }
{
    Datestamp {
        second: write_second(seconds),
        len: match granularity {
            Granularity::Day => 10,
            Granularity::Second => 20,
        },
    }
}
