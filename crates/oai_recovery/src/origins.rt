//! Where the journal of a service comes from.

/// Where the journal of a service comes from.
#[derive(Clone, Copy, Debug, PartialEq, Eq)]
pub enum Origin {
    /// It was found: an earlier service of the configuration wrote it, perhaps with another size of the cache.
    Found,
    /// There was none, and it was begun: it has no record after its first one.
    Begun,
    /// It is a checkpoint, which replaced a journal that was long.
    Shortened,
    /// It is a checkpoint, which replaced a journal of another configuration.
    Reconfigured,
}
