//! Where a value stands in a JSON text: the byte at which it begins, and the line and the column of a byte.
use json::{Reader, Scratch, Token};
use std::alloc::Global;

/// The byte at which the value of the object's last member with that name begins. The object begins at a byte of the
/// text, or after blanks.
pub(crate) fn member_place(alloc: Global, text: &str, object: usize, name: &str) -> Option<usize> {
    let rest = text.get(object..)?;
    let place = member_in(alloc, rest, name)?;
    Some(object.saturating_add(place))
}

/// The byte at which the list's element with that number begins, counted from 0. The list begins at a byte of the text.
pub(crate) fn element_place(
    alloc: Global,
    text: &str,
    list: usize,
    number: usize,
) -> Option<usize> {
    let rest = text.get(list..)?;
    let place = element_in(alloc, rest, number)?;
    Some(list.saturating_add(place))
}

/// The byte at which the value of the last member with that name begins, of an object that the text begins with.
fn member_in(alloc: Global, text: &str, name: &str) -> Option<usize> {
    let mut scratch = Scratch::new(alloc);
    let mut reader = Reader::new(text, &mut scratch).ok()?;
    let _brace = reader.next();
    let mut found = None;
    for _ in 0..text.len() {
        match reader.next() {
            Some(Token::Key(key)) => {
                if key == name {
                    found = Some(start_from(text, reader.offset()));
                }
                skip_value(&mut reader, text.len());
            }
            _ => break,
        }
    }
    found
}

/// The byte at which the element with that number begins, of a list that the text begins with.
fn element_in(alloc: Global, text: &str, number: usize) -> Option<usize> {
    let mut scratch = Scratch::new(alloc);
    let mut reader = Reader::new(text, &mut scratch).ok()?;
    let _bracket = reader.next();
    for _ in 0..number {
        skip_value(&mut reader, text.len());
    }
    Some(start_from(text, reader.offset()))
}

/// The byte from which on the text is no JSON, its end if it ends too early; `None` if its tokens are those of a JSON text.
pub(crate) fn bad_place(alloc: Global, text: &str) -> Option<usize> {
    let mut scratch = Scratch::new(alloc);
    let mut reader = Reader::new(text, &mut scratch).ok()?;
    let mut depth: usize = 0;
    let mut is_begun = false;
    for _ in 0..=text.len() {
        match reader.next() {
            Some(Token::Bad) => return Some(reader.offset()),
            Some(token) => {
                depth = depth_after(depth, token);
                is_begun = true;
            }
            None => break,
        }
    }
    (depth != 0 || !is_begun).then_some(text.len())
}

/// Why the text is no JSON from that byte on.
pub(crate) fn why_bad(text: &str, place: Option<usize>) -> &'static str {
    if text.starts_with('\u{feff}') {
        return "a byte order mark stands before the text";
    }
    match place {
        Some(place) if place < text.trim_end().len() => "here the text is no JSON",
        Some(_) => "the text ends too early",
        None => "a number is too large, or the text is nested too deeply",
    }
}

/// How many of the first bytes are in UTF-8.
pub(crate) fn utf8_length(text: &[u8]) -> usize {
    match str::from_utf8(text) {
        Ok(_) => text.len(),
        Err(error) => error.valid_up_to(),
    }
}

/// Passes over the next value, of at most so many tokens.
fn skip_value(reader: &mut Reader<'_>, most: usize) {
    let mut depth: usize = 0;
    for _ in 0..most {
        match reader.next() {
            Some(Token::Bad) => return,
            Some(token) => depth = depth_after(depth, token),
            None => return,
        }
        if depth == 0 {
            return;
        }
    }
}

/// In how many objects and lists a reader is after the token, if it was in so many before.
fn depth_after(depth: usize, token: Token<'_>) -> usize {
    match token {
        Token::BeginObject => depth.saturating_add(1),
        Token::BeginArray => depth.saturating_add(1),
        Token::EndObject => depth.saturating_sub(1),
        Token::EndArray => depth.saturating_sub(1),
        _ => depth,
    }
}

/// The first byte from that one on that is neither blank nor stands between two values.
pub(crate) fn start_from(text: &str, place: usize) -> usize {
    match text.as_bytes().get(place..) {
        Some(rest) => place.saturating_add(count_between(rest)),
        None => place,
    }
}

/// How many bytes stand before the first value.
fn count_between(rest: &[u8]) -> usize {
    match rest.iter().position(|b| !b" \t\r\n,:".contains(b)) {
        Some(count) => count,
        None => rest.len(),
    }
}

/// The line of the byte, counted from 1.
pub(crate) fn line_at(text: &[u8], place: usize) -> usize {
    match text.get(..place) {
        Some(before) => before
            .iter()
            .filter(|b| **b == b'\n')
            .count()
            .saturating_add(1),
        None => 0,
    }
}

/// The column of the byte in its line, in bytes, counted from 1.
pub(crate) fn column_at(text: &[u8], place: usize) -> usize {
    match text.get(..place) {
        Some(before) => bytes_of_line(before).saturating_add(1),
        None => 0,
    }
}

/// How many bytes of its last line the text has.
fn bytes_of_line(text: &[u8]) -> usize {
    text.iter().rev().take_while(|b| **b != b'\n').count()
}
