//! How much a repository holds: this repository's own limits, since OAI-PMH sets none.

ghost use Rattle.std.specs.Prelude.{◌≡◌};

/// The maximum length of a metadataPrefix in bytes.
pub const MAX_PREFIX_BYTES: usize = 64;

/// The maximum length of a setSpec in bytes.
pub const MAX_SET_SPEC_BYTES: usize = 256;

/// The maximum length of an identifier in bytes.
pub const MAX_IDENTIFIER_BYTES: usize = 512;

/// The maximum number of sets of a repository.
pub const MAX_SETS: usize = 10_000;

/// The limits in numbers, since definitions read them by their names. A theorem, proved by an empty function.
pub fn limit_law()
    ensures prefix { MAX_PREFIX_BYTES ≡ 64 }
    ensures set_spec { MAX_SET_SPEC_BYTES ≡ 256 }
    ensures identifier { MAX_IDENTIFIER_BYTES ≡ 512 }
    ensures sets { MAX_SETS ≡ 10_000 }
{}
