/// A verb whose answers are lists, which a resumptionToken continues (OAI-PMH 2.0, sections 3.5 and 4).
#[derive(Clone, Copy, Debug, PartialEq, Eq)]
pub enum ListVerb {
    /// ListIdentifiers (section 4.3).
    Identifiers,
    /// ListRecords (section 4.5).
    Records,
    /// ListSets (section 4.6).
    Sets,
}
