ghost use Rattle.std.specs.Prelude.{◌≡◌, Option};
ghost use Rattle.std.specs.Option.{option_map, option_copied};
ghost use Rattle.oai_xml.specs.Namespaces as spec;

use crate::names::{local_of, prefix_of};
use std::marker::Model;

/// The prefix of what XML itself names.
pub(crate) const XML: &[u8] = b"xml";

/// The prefix of declarations, and the name of one of the default namespace.
pub(crate) const XMLNS: &[u8] = b"xmlns";

/// What the prefix `xml` is bound to.
pub(crate) const XML_NAMESPACE: &[u8] = b"http://www.w3.org/XML/1998/namespace";

/// What the prefix `xmlns` is bound to.
pub(crate) const XMLNS_NAMESPACE: &[u8] = b"http://www.w3.org/2000/xmlns/";

/// A declaration in force: a prefix, which is empty of the default namespace, and what it is bound to.
#[derive(Drop)]
pub(crate) struct Declared<'a> {
    pub(crate) prefix: &'a [u8],
    pub(crate) namespace: Vec<u8>,
}

impl<'a> Model for Declared<'a> {
    ghost use Rattle.std.specs.Prelude.{List};
    ghost use Rattle.oai_xml.specs.Namespaces.{Declaration};

    ghost Value = { Declaration };

    ghost view = { λ d. record { prefix = d.prefix.now; namespace = d.namespace.items } };
}

/// The name of an attribute of a tag.
#[derive(Drop)]
pub(crate) struct Name<'a> {
    pub(crate) text: &'a [u8],
}

impl<'a> Model for Name<'a> {
    ghost use Rattle.std.specs.Prelude.{ℕ, List};

    ghost Value = { List ℕ };

    ghost view = { λ n. n.text.now };
}

/// Whether an attribute of this name declares a namespace (production [NS 1]).
#[tactic(auto, unfolding(crate::specs::Namespaces::is_declaring))]
pub(crate) fn is_declaring(name: &[u8]) -> bool
    ensures { result ≡ spec.is_declaring name.now }
{
    name == XMLNS || prefix_of(name) == XMLNS
}

/// The prefix that an attribute of this name declares.
pub(crate) fn declared_prefix(name: &[u8]) -> &[u8]
    ensures { result.now ≡ spec.declared_prefix name.now }
{
    if name == XMLNS { b"" } else { local_of(name) }
}
