ghost use Rattle.std.specs.Prelude.{◌≡◌, true, IfOk};
ghost use Rattle.std.specs.List.{list_all};
ghost use Rattle.oai_names.specs.Names.{IsReading, may_be_identifier, is_identifier, is_scheme, is_scheme_byte, is_some_of, is_uri_byte};

use crate::limits::MAX_IDENTIFIER_BYTES;
use crate::readings::NameFault;
use std::alloc::{AllocError, Global};
use std::marker::Model;

/// The unique identifier of an item, a URI: a scheme (a letter, then letters, digits and `+ - .`),
/// a colon, and one or more of the characters of a URI, at most 512 bytes in all (OAI-PMH 2.0,
/// section 2.4; RFC 3986, sections 2 and 3.1).
#[derive(Debug, Drop)]
pub struct Identifier {
    text: String,
}

impl Model for Identifier {
    ghost use Rattle.std.specs.Prelude.{◌≡◌, ℕ, true, List};
    ghost use Rattle.std.specs.String.{string_bytes};

    ghost Value = { List ℕ };

    ghost use Rattle.oai_names.specs.Names.{may_be_identifier};

    ghost view = { λ i. string_bytes i.text };

    ghost invariant = { λ i. may_be_identifier (string_bytes i.text) ≡ true };
}

impl Identifier {
    /// The identifier of a text that is known to be one: `may_be_identifier`. The error is out of memory.
    pub fn new(alloc: Global, text: &str) -> Result<Identifier, AllocError>
        requires { may_be_identifier text.now ≡ true }
        ensures { IfOk result (λ identifier. identifier ≡ text.now) }
    {
        Ok(Identifier {
            text: String::from_str(alloc, text)?,
        })
    }

    /// Reads an identifier. The errors, in this order: `Syntax`, `TooLong` above 512 bytes,
    /// `NoMemory`.
    pub fn read(alloc: Global, text: &str) -> Result<Identifier, NameFault>
        ensures { IsReading is_identifier MAX_IDENTIFIER_BYTES text.now result }
    {
        if !is_identifier(text) {
            return Err(NameFault::Syntax);
        }
        if text.len() > MAX_IDENTIFIER_BYTES {
            return Err(NameFault::TooLong);
        }
        match Identifier::new(alloc, text) {
            Ok(identifier) => Ok(identifier),
            Err(_) => Err(NameFault::NoMemory),
        }
    }

    /// The identifier as text.
    pub fn as_str(&self) -> &str
        ensures text { result.now ≡ self.now }
        ensures name { may_be_identifier self.now ≡ true }
    {
        self.text.as_str()
    }

    /// A copy of the identifier. The error is out of memory.
    pub fn copy(&self, alloc: Global) -> Result<Identifier, AllocError>
        ensures { IfOk result (λ copy. copy ≡ self.now) }
    {
        Ok(Identifier {
            text: String::from_str(alloc, self.as_str())?,
        })
    }
}

/// Whether the text may be an identifier: it has the syntax of one, and at most 512 bytes. Allocates nothing.
pub fn may_be_identifier(text: &str) -> bool
    ensures { result ≡ may_be_identifier text.now }
{
    is_identifier(text) && text.len() <= MAX_IDENTIFIER_BYTES
}

/// Whether the text has the syntax of an identifier, of any length.
#[tactic(auto, unfolding(crate::specs::Names::is_identifier))]
fn is_identifier(text: &str) -> bool
    ensures { result ≡ is_identifier text.now }
{
    match text.split_once(':') {
        Some((scheme, rest)) => is_scheme(scheme) && are_uri_bytes(rest),
        None => false,
    }
}

/// Whether the text is the scheme of a URI (RFC 3986, section 3.1).
#[tactic(auto, unfolding(crate::specs::Names::is_scheme))]
fn is_scheme(text: &str) -> bool
    ensures { result ≡ is_scheme text.now }
{
    match text.as_bytes() {
        [first, rest @ ..] => first.is_ascii_alphabetic() && all_scheme_bytes(rest),
        [] => false,
    }
}

fn all_scheme_bytes(bytes: &[u8]) -> bool
    ensures { result ≡ list_all is_scheme_byte bytes.now }
{
    bytes.iter().all(|b| is_scheme_byte(*b))
}

fn is_scheme_byte(b: u8) -> bool
    ensures { result ≡ is_scheme_byte b }
{
    b.is_ascii_alphanumeric() || b"+-.".contains(&b)
}

fn are_uri_bytes(text: &str) -> bool
    ensures { result ≡ is_some_of is_uri_byte text.now }
{
    !text.is_empty() && all_uri_bytes(text)
}

fn all_uri_bytes(text: &str) -> bool
    ensures { result ≡ list_all is_uri_byte text.now }
{
    text.as_bytes().iter().all(|b| is_uri_byte(*b))
}

fn is_uri_byte(b: u8) -> bool
    ensures { result ≡ is_uri_byte b }
{
    b.is_ascii_alphanumeric() || b"-._~:/?#[]@!$&'()*+,;=%".contains(&b)
}
