//! Which messages are admitted.
ghost use Rattle.std.specs.Prelude.{◌≡◌, ◌||◌, not};
ghost use Rattle.std.specs.List.{list_all, list_any};
ghost use Rattle.std.specs.Option.{option_copied};
ghost use Rattle.std.specs.Str.{bytes_eq};
ghost use Rattle.sha2.specs.Sha256.{sha256};
ghost use Rattle.oai_http.specs.Exchanges.{asked_by};
ghost use Rattle.oai_keys.specs.Keys as spec;
ghost use Rattle.oai_keys.specs.declared.rings.Ring.{Ring as Held};

use crate::rings::Ring;
use crate::tokens::bearer_key;
use oai_http::{Endpoint, Exchange};
use sha2::{Digest, Sha256};

/// Whether a message is admitted: for each of the rings it is no deposit into that repository (its path is not
/// `/deposit/` and the name, byte for byte), or its key is one of the repository's own. The method does not matter.
/// Allocates nothing.
#[tactic(auto, unfolding(crate::specs::Keys::is_admitted))]
pub fn is_admitted(rings: &[Ring], exchange: &Exchange<'_>) -> bool
    ensures { result ≡ spec.is_admitted rings.now (asked_by exchange.now) }
{
    match exchange.target.named() {
        Some((Endpoint::Deposits, name)) => may_deposit(rings, name, exchange.authorization),
        Some((Endpoint::Requests, _)) => true,
        None => true,
    }
}

/// Whether a deposit into the repository of that name is admitted, with that value of the field Authorization.
fn may_deposit(rings: &[Ring], name: &[u8], authorization: Option<&[u8]>) -> bool
    ensures { result ≡ list_all (λ (ring : Held). not (bytes_eq name.now ring.name)
        || spec.has_key ring.digests (spec.bearer_key (option_copied authorization.entry))) rings.now }
{
    rings
        .iter()
        .all(|ring| !is_of(ring, name) || has_key(ring, authorization))
}

/// Whether the ring is that of the repository of that name.
fn is_of(ring: &Ring, name: &[u8]) -> bool
    ensures { result ≡ bytes_eq name.now ring.now.name }
{
    name == ring.name.as_str().as_bytes()
}

/// Whether that value of the field Authorization has one of the keys of the ring.
fn has_key(ring: &Ring, authorization: Option<&[u8]>) -> bool
    ensures { result ≡ spec.has_key ring.now.digests (spec.bearer_key (option_copied authorization.entry)) }
{
    match bearer_key(authorization) {
        Some(key) => has_digest(ring, &digest_of(key)),
        None => false,
    }
}

/// The digest of a key.
fn digest_of(key: &[u8]) -> [u8; 32]
    ensures { result ≡ sha256 key.now }
{
    Sha256::digest(key)
}

/// Whether the digest is one of the ring's.
fn has_digest(ring: &Ring, digest: &[u8; 32]) -> bool
    ensures { result ≡ list_any (bytes_eq digest.now) ring.now.digests }
{
    ring.digests.as_slice().iter().any(|own| digest == own)
}
