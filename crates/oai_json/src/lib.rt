//! JSON texts: the value of a text, what an object has as its members, and the tokens of a text one after the other.
#![tactic(auto)]

mod tokens;
mod values;

pub use tokens::{
    take_begin_array, take_begin_object, take_end_object, take_key, take_text, take_texts,
};
pub use values::{
    elements_at, elements_of, has_members, has_members_and, number_at, read_json, read_json_text,
    text_at,
};
