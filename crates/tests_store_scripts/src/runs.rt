//! A script: behind `== ` its name, how its lines are performed, and the stores over which they are; and then the lines. Each is
//! performed once for each choice in its braces: `{a,b}` and `{a|b}` stand for `a` and for `b`, `{1..3}` for these numbers.
use crate::beside::Pair;
use crate::calls::call;
use crate::counts::Counted;
use crate::lines::each_line;
use crate::lists::TwoLists;
use oai_catalogue::Versions;
use std::alloc::Global;
use std::io::{self, Write};

/// A script.
#[derive(Clone, Copy)]
pub(crate) struct Script<'a> {
    /// Its name.
    pub(crate) name: &'a str,
    /// How its lines are performed.
    pub(crate) way: Way,
    /// The stores, with spaces between.
    pub(crate) stores: &'a str,
    /// Its lines.
    pub(crate) lines: &'a str,
}

/// Of what the lines are calls.
#[derive(Clone, Copy)]
pub(crate) enum Way {
    /// Of a table of open lists.
    Table,
    /// Of a store.
    Store(StoreWay),
}

/// How lines are performed on a store.
#[derive(Clone, Copy)]
pub(crate) enum StoreWay {
    /// Each line is answered.
    Answer,
    /// Each line is performed on a plain store too, and answered only where that answers otherwise.
    Beside,
    /// The same over a device each call of which fails in turn.
    EachFailure,
}

impl<'a> Script<'a> {
    /// The script in the text: its first line, and the others.
    pub(crate) fn read(text: &'a str) -> Script<'a> {
        let (head, lines) = text.split_once('\n').unwrap_or((text, ""));
        let (name, head) = head.split_once(' ').unwrap_or((head, ""));
        let (way, stores) = head.split_once(' ').unwrap_or((head, ""));
        Script {
            name,
            way: way_named(way),
            stores,
            lines,
        }
    }
}

fn way_named(name: &str) -> Way {
    match name {
        "table" => Way::Table,
        "beside" => Way::Store(StoreWay::Beside),
        "each-failure" => Way::Store(StoreWay::EachFailure),
        _ => Way::Store(StoreWay::Answer),
    }
}

/// Performs the lines on two lists of the store, and adds what each is answered.
pub(crate) fn perform_on<V: Versions + Drop + Counted>(
    alloc: Global,
    store: V,
    lines: &str,
    out: &mut Vec<u8>,
) -> io::Result<()> {
    match TwoLists::new(store) {
        Some(mut lists) => answer_all(alloc, &mut lists, lines, out),
        None => out.write_all(b"no lists\n"),
    }
}

fn answer_all<V: Versions + Drop + Counted>(
    alloc: Global,
    lists: &mut TwoLists<V>,
    lines: &str,
    out: &mut Vec<u8>,
) -> io::Result<()> {
    for line in lines.lines() {
        let each = each_line(alloc, line)?;
        for one in each.as_slice() {
            answer(alloc, lists, one.as_str(), out)?;
        }
    }
    Ok(())
}

/// Adds what the line is answered behind it, or how many pages are used.
fn answer<V: Versions + Drop + Counted>(
    alloc: Global,
    lists: &mut TwoLists<V>,
    line: &str,
    out: &mut Vec<u8>,
) -> io::Result<()> {
    if line == "used" {
        return writeln!(out, "{} used", lists.store().counts().used);
    }
    write!(out, "{line}: ")?;
    call(alloc, lists, line, out)
}

/// Performs the lines on the store and on a plain one, adds what they count and what is answered otherwise, and then `end`.
pub(crate) fn perform_beside<V: Versions + Drop + Counted>(
    alloc: Global,
    store: V,
    lines: &str,
    out: &mut Vec<u8>,
) -> io::Result<()> {
    match Pair::new(alloc, store) {
        Some(mut pair) => perform_pair(alloc, &mut pair, lines, out),
        None => out.write_all(b"no lists\n"),
    }
}

fn perform_pair<V: Versions + Drop + Counted>(
    alloc: Global,
    pair: &mut Pair<V>,
    lines: &str,
    out: &mut Vec<u8>,
) -> io::Result<()> {
    for line in lines.lines() {
        let each = each_line(alloc, line)?;
        for one in each.as_slice() {
            pair.perform(one.as_str(), out)?;
        }
    }
    out.write_all(b"end\n")
}
