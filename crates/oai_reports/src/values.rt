//! What a JSON value is, in words.
use serde_json::Value;

/// The kind of the value.
pub(crate) fn kind_of(value: &Value) -> &str {
    match value {
        Value::Null => "null",
        Value::Bool(_) => "true or false",
        Value::Number(_) => "a number",
        Value::String(_) => "a text",
        Value::Array(_) => "a list",
        Value::Object(_) => "an object",
    }
}

/// Whether the text is one of these.
pub(crate) fn is_among(text: &str, known: &[&str]) -> bool {
    known.iter().any(|one| *one == text)
}

/// The elements of a list, none for any other value.
pub(crate) fn elements_of(value: &Value) -> &[Value] {
    oai_json::elements_of(value).unwrap_or(&[])
}

/// The elements of the list in the member with that name, none if there is no such list.
pub(crate) fn elements_at<'v>(object: &'v Value, name: &str) -> &'v [Value] {
    oai_json::elements_at(object, name).unwrap_or(&[])
}

/// The text of the member with that name; the empty text if there is no such text.
pub(crate) fn text_at<'v>(object: &'v Value, name: &str) -> &'v str {
    oai_json::text_at(object, name).unwrap_or("")
}

/// The text of a value; the empty text for any other one.
pub(crate) fn text_of(value: &Value) -> &str {
    value.as_str().unwrap_or("")
}
