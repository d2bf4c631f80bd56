use crate::fields::Field;
use oai_names::{Sequence, Text};

/// What a deposit gives for a format.
#[derive(Debug, Drop)]
pub enum Given {
    /// A list of fields.
    Listed(Sequence<Field>),
    /// The text of an XML element.
    Whole(Text),
}
