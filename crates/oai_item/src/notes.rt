use oai_xml::Root;

/// What is noted of a record of a deposit, beside its fields as an item keeps them.
#[derive(Debug, Drop)]
pub struct Note {
    /// The root of its element, if it is one.
    pub root: Option<Root>,
    /// How many of its last fields are elements about it.
    pub about: usize,
}
