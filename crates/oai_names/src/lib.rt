//! The texts of OAI-PMH: which characters a document may hold, the grammars of names, the sets and their tree, and how
//! a text is escaped in a document; `Text` and `Sequence`, which contracts see as plain lists.
#![tactic(auto)]

mod byte_tests;
mod escapes;
mod identifiers;
mod limits;
mod list_verbs;
mod prefixes;
mod readings;
mod sequences;
mod set_specs;
mod set_trees;
mod texts;

pub use byte_tests::{ByteTest, all_pass};
pub use escapes::{escape_attr, escape_law, escape_text};
pub use identifiers::{Identifier, may_be_identifier};
pub use limits::{MAX_IDENTIFIER_BYTES, MAX_PREFIX_BYTES, MAX_SET_SPEC_BYTES, MAX_SETS, limit_law};
pub use list_verbs::ListVerb;
pub use prefixes::{Prefix, is_prefix, may_be_prefix};
pub use readings::NameFault;
pub use sequences::Sequence;
pub use set_specs::{SetSpec, covers, is_set_spec, may_be_set_spec};
pub use set_trees::{SetFault, SetTree, parent_of};
pub use texts::{Text, is_xml_text};
