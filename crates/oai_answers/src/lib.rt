//! The XML documents that answer the requests of OAI-PMH 2.0 (sections 3.2 and 4): an answer, and its bytes.
#![tactic(auto)]

mod dates;
mod documents;
mod errors;
mod fields;
mod formats;
mod head;
mod headers;
mod identify;
mod laws;
mod lists;
mod markup;
mod metadata;
mod records;
mod request;
mod rooms;
mod sets;
mod tags;
mod tokens;

pub use documents::{Body, Doc, document, write_document};
pub use errors::ErrorCode;
pub use formats::Offered;
pub use identify::Identity;
pub use laws::{document_law, fields_law, unseen_law};
pub use lists::Listed;
pub use oai_item::DeletedRecord;
pub use records::Record;
pub use request::RequestAttributes;
pub use sets::DescribedSets;
pub use tokens::{Extent, Remaining, Resumption};
