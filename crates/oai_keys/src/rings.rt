//! The keys of a repository's depositors.
use oai_names::{Sequence, Text};

/// The keys of the depositors of a repository, each by its SHA-256 (FIPS 180-4, section 6.2); with none, nobody
/// deposits into it.
#[derive(Debug, Drop)]
pub struct Ring {
    /// The name of the repository.
    pub name: Text,
    /// The digests of the keys: 0 to 16, as they are read.
    pub digests: Sequence<[u8; 32]>,
}
