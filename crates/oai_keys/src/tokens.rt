//! The key of a message, in its field Authorization.
ghost use Rattle.std.specs.Prelude.{◌≡◌, ◌≤◌, length};
ghost use Rattle.std.specs.List.{after_first, position, position_or_len};
ghost use Rattle.std.specs.Option.{option_copied};
ghost use Rattle.httparse.specs.Grammar.{is_ows};
ghost use Rattle.oai_keys.specs.Keys as spec;

use httparse::is_space_or_tab;
use oai_http::trim;

/// The scheme of credentials that are a key (RFC 6750, section 2.1).
const SCHEME: &[u8] = b"bearer";

/// The key of a message, by the value of its first field Authorization: what follows the scheme `Bearer`, whatever its
/// case (RFC 9110, section 11.1), without white space around it. `None` if there is no such field, if its scheme is
/// another, or if nothing follows. Allocates nothing.
pub fn bearer_key(authorization: Option<&[u8]>) -> Option<&[u8]>
    ensures { option_copied result ≡ spec.bearer_key (option_copied authorization.entry) }
{
    match authorization {
        Some(value) => key_in(trim(value)),
        None => None,
    }
}

/// The key in credentials.
#[tactic(auto, unfolding(crate::specs::Keys::key_in))]
fn key_in(credentials: &[u8]) -> Option<&[u8]>
    ensures { option_copied result ≡ spec.key_in credentials.now }
{
    if !is_bearer(scheme_of(credentials)) {
        return None;
    }
    let token = token_of(credentials);
    if token.is_empty() { None } else { Some(token) }
}

/// Whether the scheme is that of a key, whatever its case.
fn is_bearer(scheme: &[u8]) -> bool
    ensures { result ≡ spec.is_bearer scheme.now }
{
    scheme.eq_ignore_ascii_case(SCHEME)
}

/// The scheme of credentials: what precedes the first white space.
fn scheme_of(credentials: &[u8]) -> &[u8]
    ensures { result.now ≡ spec.scheme_of credentials.now }
{
    &credentials[..scheme_len(credentials)]
}

/// What follows the scheme, without white space around it.
fn token_of(credentials: &[u8]) -> &[u8]
    ensures { result.now ≡ spec.bearer_token credentials.now }
{
    trim(behind_scheme(credentials))
}

/// What follows the first white space.
fn behind_scheme(credentials: &[u8]) -> &[u8]
    ensures { result.now ≡ after_first is_ows credentials.now }
{
    let scheme = scheme_len(credentials);
    if scheme < credentials.len() {
        &credentials[scheme + 1..]
    } else {
        &[]
    }
}

/// The number of bytes before the first white space; of all, if there is none.
fn scheme_len(credentials: &[u8]) -> usize
    ensures length { result ≡ position_or_len is_ows credentials.now }
    ensures within { result ≤ length credentials.now }
{
    match first_space(credentials) {
        Some(at) => at,
        None => credentials.len(),
    }
}

/// The position of the first white space.
fn first_space(credentials: &[u8]) -> Option<usize>
    ensures { result ≡ position is_ows credentials.now }
{
    credentials.iter().position(|b| is_space_or_tab(*b))
}
