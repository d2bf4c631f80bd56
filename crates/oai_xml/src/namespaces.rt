ghost use Rattle.std.specs.Prelude.{◌≡◌, ◌≤◌, ◌&&◌, not, Option, Some, None, length, drop, true};
ghost use Rattle.std.specs.List.{list_all};
ghost use Rattle.std.specs.Option.{option_copied, option_map, is_some};
ghost use Rattle.std.specs.Str.{bytes_eq};
ghost use Rattle.oai_xml.specs.Namespaces as spec;
ghost use Rattle.oai_xml.specs.Whole.{are_names_whole, has_default};

use crate::declarations::{Declared, Name, XML, XML_NAMESPACE, XMLNS, XMLNS_NAMESPACE};
use crate::limits::{MAX_ATTRIBUTES, MAX_DECLARATIONS};
use crate::names::{is_prefixed, local_of, prefix_of};

/// Whether the names of a start tag may stand together, where all that is in force is the scope, of which the tag declares
/// what stands from `outer` on.
#[tactic(auto, unfolding(crate::specs::Whole::are_names_whole))]
pub(crate) fn are_names_whole(scope: &[Declared], outer: usize, name: &[u8], names: &[Name]) -> bool
    requires { outer ≤ length scope.now }
    ensures { result ≡ are_names_whole scope.now (drop outer scope.now) name.now names.now }
{
    has_default(scope)
        && names.len() <= MAX_ATTRIBUTES
        && scope.len() <= MAX_DECLARATIONS
        && are_legal(&scope[outer..])
        && prefix_of(name) != XMLNS
        && is_bound(scope, name)
        && are_bound(scope, names)
        && are_unlike(scope, names)
}

fn are_legal(declarations: &[Declared]) -> bool
    ensures { result ≡ list_all spec.is_legal declarations.now }
{
    declarations.iter().all(|d| is_legal(d))
}

fn is_legal(d: &Declared) -> bool
    ensures { result ≡ spec.is_legal d.now }
{
    may_bind(d.prefix, d.namespace.as_slice())
}

/// Whether the prefix may be bound to the namespace (Namespaces in XML 1.0, section 3).
#[tactic(auto, unfolding(crate::specs::Namespaces::may_bind, crate::specs::Namespaces::xmlns_namespace))]
fn may_bind(prefix: &[u8], namespace: &[u8]) -> bool
    ensures { result ≡ spec.may_bind prefix.now namespace.now }
{
    prefix != XMLNS
        && is_xml_legal(prefix, namespace)
        && namespace != XMLNS_NAMESPACE
        && (prefix.is_empty() || !namespace.is_empty())
}

/// Whether `xml` is bound to its own namespace, or another prefix to another one.
#[tactic(auto, unfolding(crate::specs::Namespaces::xml_namespace))]
fn is_xml_legal(prefix: &[u8], namespace: &[u8]) -> bool
    ensures { result ≡ spec.is_xml_legal prefix.now namespace.now }
{
    if prefix == XML {
        namespace == XML_NAMESPACE
    } else {
        namespace != XML_NAMESPACE
    }
}

/// Whether a default namespace is declared, if only as none.
pub(crate) fn has_default(scope: &[Declared]) -> bool
    ensures { result ≡ has_default scope.now }
{
    namespace_of(scope, b"").is_some()
}

fn are_bound(scope: &[Declared], names: &[Name]) -> bool
    ensures { result ≡ list_all (spec.is_bound scope.now) names.now }
{
    names.iter().all(|name| is_bound(scope, name.text))
}

/// Whether the prefix of the name is bound, if it has one.
#[tactic(auto, unfolding(crate::specs::Namespaces::is_bound))]
fn is_bound(scope: &[Declared], name: &[u8]) -> bool
    ensures { result ≡ spec.is_bound scope.now name.now }
{
    !is_prefixed(name) || namespace_of(scope, prefix_of(name)).is_some()
}

/// The namespace that the prefix is bound to, if it is bound.
#[tactic(auto, unfolding(crate::specs::Namespaces::namespace_of, crate::specs::Namespaces::xml_namespace, crate::specs::Namespaces::xmlns_namespace))]
fn namespace_of<'s>(scope: &'s [Declared], prefix: &[u8]) -> Option<&'s [u8]>
    ensures { option_copied result ≡ spec.namespace_of scope.now prefix.now }
{
    if prefix == XML {
        return Some(XML_NAMESPACE);
    }
    if prefix == XMLNS {
        return Some(XMLNS_NAMESPACE);
    }
    match newest(scope, prefix) {
        Some(d) => Some(d.namespace.as_slice()),
        None => None,
    }
}

/// The newest declaration of the prefix.
fn newest<'s, 'a>(scope: &'s [Declared<'a>], prefix: &[u8]) -> Option<&'s Declared<'a>>
    ensures { option_copied result ≡ spec.newest scope.now prefix.now }
{
    scope.iter().rev().find(|d| d.prefix == prefix)
}

/// Whether no two of the names may not stand in one tag.
#[tactic(auto, unfolding(crate::specs::Namespaces::are_unlike))]
fn are_unlike(scope: &[Declared], names: &[Name]) -> bool
    ensures { result ≡ spec.are_unlike scope.now names.now }
{
    for (i, name) in names.iter().enumerate() {
        if !is_unlike(scope, name.text, &names[i + 1..]) {
            return false;
        }
    }
    true
}

fn is_unlike(scope: &[Declared], name: &[u8], others: &[Name]) -> bool
    ensures { result ≡ list_all (λ other. not (spec.are_alike scope.now name.now other)) others.now }
{
    others
        .iter()
        .all(|other| !are_alike(scope, name, other.text))
}

/// Whether the two names are one, or stand for one.
#[tactic(auto, unfolding(crate::specs::Namespaces::are_alike))]
fn are_alike(scope: &[Declared], name: &[u8], other: &[u8]) -> bool
    ensures { result ≡ spec.are_alike scope.now name.now other.now }
{
    name == other
        || (is_prefixed(name)
            && is_prefixed(other)
            && local_of(name) == local_of(other)
            && space_of(scope, name) == space_of(scope, other))
}

/// The namespace that the prefix of a name is bound to; of the name of an element without a prefix, the default
/// namespace.
pub(crate) fn space_of<'s>(scope: &'s [Declared], name: &[u8]) -> &'s [u8]
    ensures { result.now ≡ spec.space_of scope.now name.now }
{
    match namespace_of(scope, prefix_of(name)) {
        Some(namespace) => namespace,
        None => b"",
    }
}
