/// Which forms the records of a repository may have.
#[derive(Clone, Copy, Debug, PartialEq, Eq)]
pub enum Forms {
    /// A record is a list of fields.
    Fields,
    /// A record is a list of fields, or one XML element.
    Elements,
}
