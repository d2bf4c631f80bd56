//! Items that scripts speak of, each described in short: `2` is the item of the number 2 and of a datestamp 2 seconds later than the
//! first one, `2@5` of one 5 seconds later, `2@5:4000` of 4,000 bytes. Behind these stand `+b` or `+c` for one of another letter,
//! `+set` for one in the set `x:y`, `+z` for one in the set `x:z`, `+jnl` for one that has a record in `jnl` too, and `+wide`.
use crate::families::member;
use crate::lines::number;
use std::alloc::AllocError;

/// An item in short. It has a title in oai_dc, and the identifiers rise with the numbers.
#[derive(Clone, Copy, Debug, PartialEq, Eq)]
pub(crate) struct Sample {
    /// The number in its identifier, below 900,000.
    pub(crate) number: u32,
    /// By how many seconds its datestamp is later than the first one.
    pub(crate) later: u32,
    /// How many bytes its spelling has, but 104 at least.
    pub(crate) bytes: usize,
    /// The letter of which its title is made.
    pub(crate) letter: u8,
    /// Whether it is in the set `x:y`.
    pub(crate) in_set: bool,
    /// Whether it is in the set `x:z`.
    pub(crate) in_other: bool,
    /// Whether it has a record in `jnl` too.
    pub(crate) in_jnl: bool,
    /// Whether eighty other sets stand before its set, and a record of a long field before its others: 1,444 bytes, so that
    /// its set and these records stand behind the first 600 bytes.
    pub(crate) wide: bool,
}

/// The item of that number and of that datestamp, so many seconds later than the first one, of so many bytes, in no set and in
/// oai_dc alone.
pub(crate) fn sized(number: u32, later: u32, bytes: usize) -> Sample {
    Sample {
        number,
        later,
        bytes,
        letter: b'a',
        in_set: false,
        in_other: false,
        in_jnl: false,
        wide: false,
    }
}

/// The item that is described so.
pub(crate) fn sample_in(text: &str) -> Sample {
    let mut parts = text.split('+');
    let mut sample = plain_sample(parts.next().unwrap_or(""));
    for flag in parts {
        sample = with_flag(sample, flag);
    }
    sample
}

/// The item of a family, or one described by its numbers.
fn plain_sample(text: &str) -> Sample {
    match text.split_once('/') {
        Some((family, no)) => member(family, number(no)),
        None => numbered(text),
    }
}

fn numbered(text: &str) -> Sample {
    let (key, bytes) = text.split_once(':').unwrap_or((text, "0"));
    let (no, later) = key.split_once('@').unwrap_or((key, key));
    sized(number(no), number(later), number(bytes) as usize)
}

fn with_letter(sample: Sample, letter: u8) -> Sample {
    Sample { letter, ..sample }
}

fn with_flag(sample: Sample, flag: &str) -> Sample {
    match flag {
        "b" => with_letter(sample, b'b'),
        "c" => with_letter(sample, b'c'),
        "set" => Sample {
            in_set: true,
            ..sample
        },
        "z" => Sample {
            in_other: true,
            ..sample
        },
        "jnl" => Sample {
            in_jnl: true,
            ..sample
        },
        _ => Sample {
            wide: true,
            ..sample
        },
    }
}

/// Adds how the item is described.
pub(crate) fn push_sample(sample: Sample, text: &mut String) -> Result<(), AllocError> {
    write!(text, "{}@{}", sample.number, sample.later)?;
    if sample.bytes > 0 {
        write!(text, ":{}", sample.bytes)?;
    }
    push_flag(sample.letter == b'b', "+b", text)?;
    push_flag(sample.letter == b'c', "+c", text)?;
    push_flag(sample.in_set, "+set", text)?;
    push_flag(sample.in_other, "+z", text)?;
    push_flag(sample.in_jnl, "+jnl", text)?;
    push_flag(sample.wide, "+wide", text)
}

fn push_flag(is_set: bool, flag: &str, text: &mut String) -> Result<(), AllocError> {
    if is_set { text.push_str(flag) } else { Ok(()) }
}
