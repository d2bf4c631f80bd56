/// A repository's policy on deleted records (OAI-PMH 2.0, section 2.5.1).
#[derive(Clone, Copy, Debug, PartialEq, Eq)]
pub enum DeletedRecord {
    /// It keeps none.
    No,
    /// It keeps some, perhaps not for ever.
    Transient,
    /// It keeps all, for ever.
    Persistent,
}
