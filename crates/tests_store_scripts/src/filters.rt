//! What is asked of a list: `all` items, or those of datestamps from so many to so many seconds later, as `2..5`; behind that stand
//! `+x:y` for those of that set, and `+jnl` for those in `jnl`, where not in oai_dc.
use crate::lines::number;
use oai_catalogue::Filter;
use oai_names::{Prefix, SetSpec};
use std::alloc::Global;
use tests_samples::STAMP;

/// What is asked: the items of these datestamps, in seconds from 1970 on, with a record of that prefix, and in that set, where there
/// is a text.
#[derive(Clone, Copy)]
struct Asked<'a> {
    from: i64,
    until: i64,
    prefix: &'a str,
    set: &'a str,
}

/// The filter that is described so; None where a text is no name of its kind, or memory runs out.
pub(crate) fn filter_in(alloc: Global, text: &str) -> Option<Filter> {
    let asked = asked_in(text);
    let prefix = Prefix::read(alloc, asked.prefix).ok()?;
    if asked.set.is_empty() {
        return Some(Filter::new(prefix, asked.from, asked.until, None));
    }
    let set = SetSpec::read(alloc, asked.set).ok()?;
    Some(Filter::new(prefix, asked.from, asked.until, Some(set)))
}

fn asked_in(text: &str) -> Asked<'_> {
    let mut parts = text.split('+');
    let mut asked = bounded(parts.next().unwrap_or(""));
    for part in parts {
        asked = narrowed(asked, part);
    }
    asked
}

/// The items of these bounds, or all: their bounds are 0000-01-01T00:00:00Z and 9999-12-31T23:59:59Z.
fn bounded(text: &str) -> Asked<'_> {
    match text.split_once("..") {
        Some((from, until)) => in_oai_dc(
            STAMP + i64::from(number(from)),
            STAMP + i64::from(number(until)),
        ),
        None => in_oai_dc(-62_167_219_200, 253_402_300_799),
    }
}

fn in_oai_dc<'a>(from: i64, until: i64) -> Asked<'a> {
    Asked {
        from,
        until,
        prefix: "oai_dc",
        set: "",
    }
}

fn narrowed<'a>(asked: Asked<'a>, part: &'a str) -> Asked<'a> {
    match part {
        "jnl" => Asked {
            prefix: "jnl",
            ..asked
        },
        set => Asked { set, ..asked },
    }
}
