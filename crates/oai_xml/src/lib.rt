//! XML elements: one is read from a text, and kept as its canonical bytes, which determine its tree (XML 1.0, fifth edition;
//! Namespaces in XML 1.0, third edition).
#![tactic(auto)]

mod attributes;
mod characters;
mod declarations;
mod documents;
mod element_lists;
mod element_texts;
mod elements;
mod faults;
mod instructions;
mod laws;
mod limits;
mod lines;
mod literals;
mod names;
mod namespaces;
mod places;
mod prologs;
mod references;
mod roots;
mod spaces;
mod tags;
mod values;

pub use element_lists::{ElementTexts, NamedElements};
pub use element_texts::{ElementText, is_canonical};
pub use faults::{XmlCause, XmlFault};
pub use laws::{canonical_law, legal_law, spelling_law};
pub use limits::{MAX_ATTRIBUTES, MAX_DECLARATIONS, MAX_DEPTH, limit_law};
pub use names::local_of;
pub use roots::Root;
