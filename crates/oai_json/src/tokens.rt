//! The tokens of a JSON text, read one after the other. `None` of each of these calls says only that the token is
//! another one, or that memory ran out.

ghost use Rattle.std.specs.Prelude.{◌≡◌, ◌∷◌, ◌++◌, map, IfSome};
ghost use Rattle.json.specs.Token as token;
ghost use Rattle.oai_json.specs.Tokens as tokens;

use json::{Reader, Token};
use std::alloc::Global;

/// Reads the next array of strings.
pub fn take_texts<'a>(alloc: Global, reader: &mut Reader<'a>) -> Option<Vec<&'a str>>
    ensures { IfSome result (λ texts. reader.old
        ≡ tokens.array_tokens tokens.text_tokens (map (λ text. text.now) texts.items) ++ reader.new) }
{
    take_begin_array(reader)?;
    let mut texts = Vec::new(alloc);
    while !reader.take_end_array() {
        texts.push(take_text(reader)?).ok()?;
    }
    Some(texts)
}

/// Reads the next string.
pub fn take_text<'a>(reader: &mut Reader<'a>) -> Option<&'a str>
    ensures { IfSome result (λ text. reader.old ≡ token.Token.string text.now ∷ reader.new) }
{
    match reader.next()? {
        Token::String(text) => Some(text),
        _ => None,
    }
}

/// Reads the name of the next member, if it is this one.
pub fn take_key(reader: &mut Reader<'_>, name: &str) -> Option<()>
    ensures { IfSome result (λ _. reader.old ≡ token.Token.key name.now ∷ reader.new) }
{
    match reader.next()? {
        Token::Key(key) if key == name => Some(()),
        _ => None,
    }
}

/// Reads the bracket that opens an array.
pub fn take_begin_array(reader: &mut Reader<'_>) -> Option<()>
    ensures { IfSome result (λ _. reader.old ≡ token.Token.begin_array ∷ reader.new) }
{
    match reader.next()? {
        Token::BeginArray => Some(()),
        _ => None,
    }
}

/// Reads the brace that opens an object.
pub fn take_begin_object(reader: &mut Reader<'_>) -> Option<()>
    ensures { IfSome result (λ _. reader.old ≡ token.Token.begin_object ∷ reader.new) }
{
    match reader.next()? {
        Token::BeginObject => Some(()),
        _ => None,
    }
}

/// Reads the brace that closes an object.
pub fn take_end_object(reader: &mut Reader<'_>) -> Option<()>
    ensures { IfSome result (λ _. reader.old ≡ token.Token.end_object ∷ reader.new) }
{
    match reader.next()? {
        Token::EndObject => Some(()),
        _ => None,
    }
}
