//! Many calls at a store and at a plain one beside it, of items in some order.
use crate::beside::Pair;
use crate::counts::Counted;
use crate::lines::{number, word};
use crate::random::Random;
use oai_catalogue::Versions;
use oai_device::PAGE_BYTES;
use std::alloc::{AllocError, Global};
use std::io::{self, Write};

/// How many small items there are.
const COUNT: u32 = 3_000;

/// How many items there are that are changed once, each in random order.
const ITEMS: u32 = 1_000;

/// How many bytes each of these has.
const BYTES: usize = 600;

/// How many items stand on each of three pages: twelve would fill more than nine tenths of one.
const ON_PAGE: u32 = 11;

/// Makes the call of the first word for each small item, in the order of the second word, beginning with a number.
pub(crate) fn each_in_order<V: Versions + Drop + Counted>(
    pair: &mut Pair<V>,
    text: &str,
    out: &mut Vec<u8>,
) -> io::Result<()> {
    let mut at = number(word(text, 2));
    for _ in 0..COUNT {
        call_of_small(pair, word(text, 0), at, out)?;
        at = next(word(text, 1), at);
    }
    Ok(())
}

fn call_of_small<V: Versions + Drop + Counted>(
    pair: &mut Pair<V>,
    verb: &str,
    at: u32,
    out: &mut Vec<u8>,
) -> io::Result<()> {
    let line = format!(in pair.alloc; "{verb} small/{at}")?;
    pair.call(line.as_str(), out)
}

/// The number behind that one. Of the shuffled ones each comes once in 3,000, since 1,381 is 1 above a multiple of 4, 3 and 5,
/// and 1,187 and 3,000 have no divisor in common.
fn next(order: &str, number: u32) -> u32 {
    match order {
        "rising" => number.wrapping_add(1) % COUNT,
        "falling" => number.wrapping_add(COUNT - 1) % COUNT,
        _ => number.wrapping_mul(1_381).wrapping_add(1_187) % COUNT,
    }
}

/// Puts three pages of items of 1,300 bytes; on each page the items of these places, counted from 0, are in the set.
pub(crate) fn put_three_pages<V: Versions + Drop + Counted>(
    pair: &mut Pair<V>,
    places: &str,
    out: &mut Vec<u8>,
) -> io::Result<()> {
    for at in 0..3 * ON_PAGE {
        put_on_page(pair, places, at, out)?;
    }
    Ok(())
}

fn put_on_page<V: Versions + Drop + Counted>(
    pair: &mut Pair<V>,
    places: &str,
    at: u32,
    out: &mut Vec<u8>,
) -> io::Result<()> {
    let flag = if is_among(places, at % ON_PAGE) {
        "+set"
    } else {
        ""
    };
    let line = format!(in pair.alloc; "put {at}:1300{flag}")?;
    pair.call(line.as_str(), out)
}

fn is_among(places: &str, place: u32) -> bool {
    for one in places.split(' ') {
        if number(one) == place {
            return true;
        }
    }
    false
}

/// Each of the items comes by a later datestamp, one after the other in random order; adds whether the pages that are used have at
/// most 1.7 times as many bytes as the items, whenever that is.
pub(crate) fn grow<V: Versions + Drop + Counted>(
    pair: &mut Pair<V>,
    out: &mut Vec<u8>,
) -> io::Result<()> {
    let numbers = shuffled(pair.alloc)?;
    let most = most_used(pair, numbers.as_slice(), out)?;
    let bytes = most.saturating_mul(PAGE_BYTES);
    let items = BYTES * ITEMS as usize;
    if bytes.saturating_mul(10) <= items * 17 {
        out.write_all(b"at most 1.7 times the bytes of the items\n")
    } else {
        writeln!(out, "{bytes} bytes for {items}")
    }
}

/// The numbers of the items, in random order.
fn shuffled(alloc: Global) -> Result<Vec<u32>, AllocError> {
    let mut random = Random::new(20_000, false);
    let mut numbers = Vec::new(alloc);
    for number in 0..ITEMS {
        let at = random.number() as usize % (numbers.len() + 1);
        numbers.insert(at, number)?;
    }
    Ok(numbers)
}

/// The most pages that are used meanwhile.
fn most_used<V: Versions + Drop + Counted>(
    pair: &mut Pair<V>,
    numbers: &[u32],
    out: &mut Vec<u8>,
) -> io::Result<usize> {
    let mut most = pair.counts().used;
    let mut later = ITEMS;
    for number in numbers {
        replace_by_later(pair, *number, later, out)?;
        most = most.max(pair.counts().used);
        later = later.saturating_add(1);
    }
    Ok(most)
}

fn replace_by_later<V: Versions + Drop + Counted>(
    pair: &mut Pair<V>,
    number: u32,
    later: u32,
    out: &mut Vec<u8>,
) -> io::Result<()> {
    let line = format!(in pair.alloc; "replace {number}:600 {number}@{later}:600")?;
    pair.call(line.as_str(), out)
}
