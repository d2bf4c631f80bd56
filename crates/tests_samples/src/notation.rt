//! How rows and scripts write what is long or no text: `«a*64»` is `a` 64 times, `«#,*1..9»` the numbers from 1 to 9 with a comma
//! behind each, and `‹00 FF›` these bytes.
use std::alloc::{AllocError, Global};

/// The text, with each repeat in it written out. The error is out of memory.
pub fn with_repeats(alloc: Global, text: &str) -> Result<String, AllocError> {
    let mut whole = String::new(alloc);
    for piece in text.split('»') {
        match piece.split_once('«') {
            Some((front, repeat)) => {
                whole.push_str(front)?;
                push_repeat(repeat, &mut whole)?;
            }
            None => whole.push_str(piece)?,
        }
    }
    Ok(whole)
}

/// Adds what is repeated, as often as the number behind the last `*` says, or once for each number of the range there.
fn push_repeat(repeat: &str, whole: &mut String) -> Result<(), AllocError> {
    let (unit, times) = repeat.rsplit_once('*').unwrap_or((repeat, "1"));
    let (first, last) = times.split_once("..").unwrap_or(("1", times));
    let first = first.parse::<u32>().unwrap_or(1);
    let last = last.parse::<u32>().unwrap_or(0);
    for number in first..=last {
        push_numbered(unit, number, whole)?;
    }
    Ok(())
}

/// Adds the text, with the number in place of each `#`.
fn push_numbered(text: &str, number: u32, whole: &mut String) -> Result<(), AllocError> {
    for (place, piece) in text.split('#').enumerate() {
        if place > 0 {
            write!(whole, "{number}")?;
        }
        whole.push_str(piece)?;
    }
    Ok(())
}

/// The bytes of the text, with those in each pair of brackets that it names. The error is out of memory.
pub fn with_bytes(alloc: Global, text: &str) -> Result<Vec<u8>, AllocError> {
    let mut bytes = Vec::new(alloc);
    for piece in text.split('›') {
        match piece.split_once('‹') {
            Some((front, named)) => {
                bytes.extend_from_slice(front.as_bytes())?;
                push_named(named, &mut bytes)?;
            }
            None => bytes.extend_from_slice(piece.as_bytes())?,
        }
    }
    Ok(bytes)
}

/// Adds the bytes, each named by two digits of base 16.
fn push_named(named: &str, bytes: &mut Vec<u8>) -> Result<(), AllocError> {
    for digits in named.split(' ') {
        if let Ok(byte) = u8::from_str_radix(digits, 16) {
            bytes.push(byte)?;
        }
    }
    Ok(())
}
