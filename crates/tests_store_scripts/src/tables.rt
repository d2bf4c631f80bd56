//! The texts of resumption tokens, and the table of the lists that are open. `table 2 1` begins a table of at most two lists, of which
//! the first gets the number 1.
use crate::lines::{behind_word, word};
use oai_catalogue::Filter;
use oai_lists::{Lists, Mark, NewList, OpenList, OpenListFault, Token};
use oai_names::{Identifier, ListVerb, Prefix};
use std::alloc::Global;
use std::fmt::Display;
use std::io::{self, Write};

/// Performs the lines, and adds what each is answered.
pub(crate) fn table_answers(alloc: Global, lines: &str, out: &mut Vec<u8>) -> io::Result<()> {
    let mut lists = Lists::new(alloc, 1, 1);
    for line in lines.lines() {
        if word(line, 0) == "table" {
            lists = Lists::new(alloc, wide(line, 1), wide(line, 2));
        } else {
            write!(out, "{line}: ")?;
            answer(alloc, &mut lists, line, out)?;
        }
    }
    Ok(())
}

fn answer(alloc: Global, lists: &mut Lists, line: &str, out: &mut Vec<u8>) -> io::Result<()> {
    match word(line, 0) {
        "token" => read_token(alloc, behind_word(line), out),
        "faults" => write_faults(out),
        "open" => open(alloc, lists, line, out),
        "reopen" => reopen(alloc, lists, wide(line, 1), out),
        "carry-on" => carry_on(alloc, lists, line, out),
        "find" => find(lists, line, out),
        _ => ask(lists, line, out),
    }
}

fn ask(lists: &mut Lists, line: &str, out: &mut Vec<u8>) -> io::Result<()> {
    let now = moment(line, 1);
    match word(line, 0) {
        "next" => match_number(lists.next(now), out),
        "expire" => write_some(lists.expire(now), out),
        "earliest-end" => write_some(lists.earliest_end(now), out),
        "len" => writeln!(out, "{}", lists.len()),
        "next-number" => writeln!(out, "{}", lists.next_number()),
        _ => out.write_all(b"no such call\n"),
    }
}

/// The number at that place of the line; 0 where there is none.
fn wide(line: &str, at: usize) -> u64 {
    word(line, at).parse::<u64>().unwrap_or(0)
}

/// The moment at that place of the line.
fn moment(line: &str, at: usize) -> i64 {
    word(line, at).parse::<i64>().unwrap_or(0)
}

fn match_number(answer: Result<u64, OpenListFault>, out: &mut Vec<u8>) -> io::Result<()> {
    match answer {
        Ok(number) => writeln!(out, "ok {number}"),
        Err(fault) => writeln!(out, "{fault}"),
    }
}

fn write_some<T: Display + Drop>(answer: Option<T>, out: &mut Vec<u8>) -> io::Result<()> {
    match answer {
        Some(value) => writeln!(out, "{value}"),
        None => out.write_all(b"none\n"),
    }
}

/// Adds the numbers of the token, and its text as it is written and as it is shown.
fn read_token(alloc: Global, text: &str, out: &mut Vec<u8>) -> io::Result<()> {
    match Token::read(text) {
        Some(token) => write_token(alloc, token, out),
        None => out.write_all(b"no token\n"),
    }
}

fn write_token(alloc: Global, token: Token, out: &mut Vec<u8>) -> io::Result<()> {
    write!(out, "{} {} {token} ", token.list, token.cursor)?;
    let text = token.write(alloc)?;
    out.write_all(text.as_slice())?;
    out.write_all(b"\n")
}

fn write_faults(out: &mut Vec<u8>) -> io::Result<()> {
    writeln!(out, "{}", OpenListFault::Full)?;
    writeln!(out, "{}", OpenListFault::NumbersSpent)?;
    writeln!(out, "{}", OpenListFault::NoMemory)
}

/// The filter of all records in oai_dc.
fn filter_of_dc(alloc: Global) -> Option<Filter> {
    let prefix = Prefix::read(alloc, "oai_dc").ok()?;
    Some(Filter::new(prefix, 0, 9, None))
}

/// Opens a list at a moment: behind that stand its end, its version and its size; the cursor 2 was given.
fn open(alloc: Global, lists: &mut Lists, line: &str, out: &mut Vec<u8>) -> io::Result<()> {
    match filter_of_dc(alloc) {
        Some(filter) => match_number(lists.open(moment(line, 1), new_list(filter, line)), out),
        None => out.write_all(b"no filter\n"),
    }
}

fn new_list(filter: Filter, line: &str) -> NewList {
    NewList {
        verb: ListVerb::Records,
        filter,
        version: wide(line, 3),
        size: wide(line, 4),
        end: moment(line, 2),
        given: 2,
        mark: None,
    }
}

/// Puts a list of that number back, which is the number of its version too, and which ends at 60.
fn reopen(alloc: Global, lists: &mut Lists, number: u64, out: &mut Vec<u8>) -> io::Result<()> {
    let Some(filter) = filter_of_dc(alloc) else {
        return out.write_all(b"no filter\n");
    };
    match lists.reopen(open_list(filter, number)) {
        Ok(()) => out.write_all(b"ok\n"),
        Err(fault) => writeln!(out, "{fault}"),
    }
}

fn open_list(filter: Filter, number: u64) -> OpenList {
    OpenList {
        number,
        verb: ListVerb::Identifiers,
        filter,
        version: number,
        size: 3,
        end: 60,
        given: 2,
        mark: None,
    }
}

/// Adds what the list of that number keeps at a moment.
fn find(lists: &Lists, line: &str, out: &mut Vec<u8>) -> io::Result<()> {
    match lists.find(wide(line, 1), moment(line, 2)) {
        Some((_, list)) => write_list(list, out),
        None => out.write_all(b"none\n"),
    }
}

fn write_list(list: &OpenList, out: &mut Vec<u8>) -> io::Result<()> {
    write!(out, "version {}, size {}, ", list.version, list.size)?;
    write!(out, "end {}, given {}, marked at ", list.end, list.given)?;
    write_some(cursor_marked(list), out)
}

fn cursor_marked(list: &OpenList) -> Option<u64> {
    match &list.mark {
        Some(mark) => Some(mark.cursor),
        None => None,
    }
}

/// A part of the list of that number is answered at a moment: behind these stand its end from then on, the cursor of the token that is
/// given, and that at which it is marked, if there are any.
fn carry_on(alloc: Global, lists: &mut Lists, line: &str, out: &mut Vec<u8>) -> io::Result<()> {
    let mark = marked(alloc, word(line, 5));
    let next = word(line, 4).parse::<u64>().ok();
    match lists.find(wide(line, 1), moment(line, 2)) {
        Some((at, _)) => {
            lists.carry_on(at, moment(line, 3), next, mark);
            out.write_all(b"ok\n")
        }
        None => out.write_all(b"none\n"),
    }
}

/// The mark at that cursor, if there is one.
fn marked(alloc: Global, cursor: &str) -> Option<Mark> {
    let cursor = cursor.parse::<u64>().ok()?;
    let identifier = Identifier::read(alloc, "oai:a:4").ok()?;
    Some(Mark {
        cursor,
        stamp: 0,
        identifier,
    })
}
