ghost use Rattle.std.specs.Prelude.{◌≡◌, ◌↔◌, true, IfOk, IsTrue};
ghost use Rattle.oai_names.specs.Names.{IsReading};
ghost use Rattle.oai_names.specs.ByteTests.{ends_part};
ghost use Rattle.oai_names.specs.Sets.{Covers, covers, is_set_spec, may_be_set_spec};

use crate::limits::MAX_SET_SPEC_BYTES;
use crate::prefixes::is_prefix;
use crate::readings::NameFault;
use std::alloc::{AllocError, Global};
use std::marker::Model;

/// A setSpec, the name of a set: the path from a root of the set hierarchy, one or more parts joined by colons. Each
/// part is one or more ASCII letters, digits and `- _ . ! ~ * ' ( )`; the whole has at most 256 bytes (OAI-PMH 2.0,
/// section 2.6).
#[derive(Debug, Drop)]
pub struct SetSpec {
    text: String,
}

impl Model for SetSpec {
    ghost use Rattle.std.specs.Prelude.{◌≡◌, ℕ, true, List};
    ghost use Rattle.std.specs.String.{string_bytes};

    ghost Value = { List ℕ };

    ghost use Rattle.oai_names.specs.Sets.{may_be_set_spec};

    ghost view = { λ s. string_bytes s.text };

    ghost invariant = { λ s. may_be_set_spec (string_bytes s.text) ≡ true };
}

impl SetSpec {
    /// The setSpec of a text that is known to be one: `may_be_set_spec`. The error is out of memory.
    pub fn new(alloc: Global, text: &str) -> Result<SetSpec, AllocError>
        requires { may_be_set_spec text.now ≡ true }
        ensures { IfOk result (λ spec. spec ≡ text.now) }
    {
        Ok(SetSpec {
            text: String::from_str(alloc, text)?,
        })
    }

    /// Reads a setSpec. The errors, in this order: `Syntax`, `TooLong` above 256 bytes, `NoMemory`.
    pub fn read(alloc: Global, text: &str) -> Result<SetSpec, NameFault>
        ensures { IsReading is_set_spec MAX_SET_SPEC_BYTES text.now result }
    {
        if !is_set_spec(text) {
            return Err(NameFault::Syntax);
        }
        if text.len() > MAX_SET_SPEC_BYTES {
            return Err(NameFault::TooLong);
        }
        match SetSpec::new(alloc, text) {
            Ok(spec) => Ok(spec),
            Err(_) => Err(NameFault::NoMemory),
        }
    }

    /// The setSpec as text.
    pub fn as_str(&self) -> &str
        ensures text { result.now ≡ self.now }
        ensures name { may_be_set_spec self.now ≡ true }
    {
        self.text.as_str()
    }

    /// A copy of the setSpec. The error is out of memory.
    pub fn copy(&self, alloc: Global) -> Result<SetSpec, AllocError>
        ensures { IfOk result (λ copy. copy ≡ self.now) }
    {
        Ok(SetSpec {
            text: String::from_str(alloc, self.as_str())?,
        })
    }

    /// Whether the other set is this one or a descendant of it in the hierarchy: its setSpec equals this one, or begins
    /// with this one followed by a colon. An item in the other set is then in this one too (OAI-PMH 2.0, section 2.6).
    /// Allocates nothing.
    pub fn covers(&self, other: &SetSpec) -> bool
        ensures test { result ≡ covers self.now other.now }
        ensures relation { IsTrue result ↔ Covers self.now other.now }
    {
        other.lies_in(self.as_str())
    }

    /// Whether this set is the set of that setSpec, which may have any length, or a descendant of it, in the sense of
    /// `covers`. Allocates nothing.
    pub fn lies_in(&self, set: &str) -> bool
        ensures test { result ≡ covers set.now self.now }
        ensures relation { IsTrue result ↔ Covers set.now self.now }
    {
        covers(set, self.as_str())
    }
}

/// Whether the other text is this one, or begins with this one followed by a colon: for setSpecs, whether the other set
/// is this one or a descendant of it, in the sense of `SetSpec::covers`. Allocates nothing.
pub fn covers(set: &str, other: &str) -> bool
    ensures test { result ≡ covers set.now other.now }
    ensures relation { IsTrue result ↔ Covers set.now other.now }
{
    let own = set.as_bytes();
    match other.as_bytes().strip_prefix(own) {
        Some(rest) => ends_part(rest),
        None => false,
    }
}

/// Whether the text may be a setSpec: it has the syntax of one, and at most 256 bytes. Allocates nothing.
pub fn may_be_set_spec(text: &str) -> bool
    ensures { result ≡ may_be_set_spec text.now }
{
    is_set_spec(text) && text.len() <= MAX_SET_SPEC_BYTES
}

/// Whether the text has the syntax of a setSpec, of any length.
pub fn is_set_spec(text: &str) -> bool
    ensures { result ≡ is_set_spec text.now }
{
    text.split(':').all(|part| is_prefix(part))
}

/// Whether a part of a path ends where these bytes begin.
fn ends_part(rest: &[u8]) -> bool
    ensures { result ≡ ends_part rest.now }
{
    match rest {
        [] => true,
        [first, ..] => *first == b':',
    }
}
