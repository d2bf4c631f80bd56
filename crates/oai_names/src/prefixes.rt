ghost use Rattle.std.specs.Prelude.{◌≡◌, true, IfOk};
ghost use Rattle.std.specs.List.{list_all};
ghost use Rattle.oai_names.specs.Names.{IsReading, is_prefix, is_prefix_byte, may_be_prefix};

use crate::limits::MAX_PREFIX_BYTES;
use crate::readings::NameFault;
use std::alloc::{AllocError, Global};
use std::marker::Model;

/// A metadata prefix, the name of a metadata format: one or more ASCII letters, digits and
/// `- _ . ! ~ * ' ( )`, at most 64 bytes (OAI-PMH 2.0, section 3.4).
#[derive(Debug, Drop)]
pub struct Prefix {
    text: String,
}

impl Model for Prefix {
    ghost use Rattle.std.specs.Prelude.{◌≡◌, ℕ, true, List};
    ghost use Rattle.std.specs.String.{string_bytes};

    ghost Value = { List ℕ };

    ghost use Rattle.oai_names.specs.Names.{may_be_prefix};

    ghost view = { λ p. string_bytes p.text };

    ghost invariant = { λ p. may_be_prefix (string_bytes p.text) ≡ true };
}

impl Prefix {
    /// The prefix of a text that is known to be one: `may_be_prefix`. The error is out of memory.
    pub fn new(alloc: Global, text: &str) -> Result<Prefix, AllocError>
        requires { may_be_prefix text.now ≡ true }
        ensures { IfOk result (λ prefix. prefix ≡ text.now) }
    {
        Ok(Prefix {
            text: String::from_str(alloc, text)?,
        })
    }

    /// Reads a prefix. The errors, in this order: `Syntax`, `TooLong` above 64 bytes, `NoMemory`.
    pub fn read(alloc: Global, text: &str) -> Result<Prefix, NameFault>
        ensures { IsReading is_prefix MAX_PREFIX_BYTES text.now result }
    {
        if !is_prefix(text) {
            return Err(NameFault::Syntax);
        }
        if text.len() > MAX_PREFIX_BYTES {
            return Err(NameFault::TooLong);
        }
        match Prefix::new(alloc, text) {
            Ok(prefix) => Ok(prefix),
            Err(_) => Err(NameFault::NoMemory),
        }
    }

    /// The prefix as text.
    pub fn as_str(&self) -> &str
        ensures text { result.now ≡ self.now }
        ensures name { may_be_prefix self.now ≡ true }
    {
        self.text.as_str()
    }

    /// A copy of the prefix. The error is out of memory.
    pub fn copy(&self, alloc: Global) -> Result<Prefix, AllocError>
        ensures { IfOk result (λ copy. copy ≡ self.now) }
    {
        Ok(Prefix {
            text: String::from_str(alloc, self.as_str())?,
        })
    }
}

/// Whether the text may be a prefix: it has the syntax of one, and at most 64 bytes. Allocates nothing.
pub fn may_be_prefix(text: &str) -> bool
    ensures { result ≡ may_be_prefix text.now }
{
    is_prefix(text) && text.len() <= MAX_PREFIX_BYTES
}

/// Whether the text has the syntax of a metadata prefix, of any length.
#[tactic(auto, unfolding(crate::specs::Names::is_prefix))]
pub fn is_prefix(text: &str) -> bool
    ensures { result ≡ is_prefix text.now }
{
    !text.is_empty() && all_prefix_bytes(text)
}

fn all_prefix_bytes(text: &str) -> bool
    ensures { result ≡ list_all is_prefix_byte text.now }
{
    text.as_bytes().iter().all(|b| is_prefix_byte(*b))
}

fn is_prefix_byte(b: u8) -> bool
    ensures { result ≡ is_prefix_byte b }
{
    b.is_ascii_alphanumeric() || b"-_.!~*'()".contains(&b)
}
