//! Lines of scripts that are calls at the list at hand, and what they are answered.
use crate::filters::filter_in;
use crate::lines::{behind_word, number, word};
use crate::lists::TwoLists;
use crate::samples::sample_in;
use crate::spellings::item_of;
use crate::written::{
    write_done, write_found, write_number, write_part, write_passes, write_was_there,
};
use oai_catalogue::{Filter, Versions};
use oai_item::Item;
use std::alloc::Global;
use std::io::{self, Write};
use tests_samples::STAMP;

/// Performs the call at the list at hand, and adds what it is answered, in a line.
pub(crate) fn call<V: Versions + Drop>(
    alloc: Global,
    lists: &mut TwoLists<V>,
    line: &str,
    out: &mut Vec<u8>,
) -> io::Result<()> {
    let rest = behind_word(line);
    match word(line, 0) {
        "freeze" => write_done(lists.freeze(), out),
        "renew" => write_done(lists.renew(), out),
        "turn" => turn(lists, out),
        "replace" => replace(alloc, lists, rest, out),
        "count" | "part" | "after" | "list" => ask(alloc, lists, line, out),
        "passes" | "passes-deleted" => passes(alloc, line, out),
        verb => change(alloc, lists, verb, rest, out),
    }
}

/// The other list is at hand from now on.
fn turn<V: Versions + Drop>(lists: &mut TwoLists<V>, out: &mut Vec<u8>) -> io::Result<()> {
    lists.turn();
    write_done(Ok(()), out)
}

/// The item that is described so.
fn item_in(alloc: Global, text: &str) -> Option<Item> {
    item_of(alloc, sample_in(text))
}

/// A call with one item, or its key.
fn change<V: Versions + Drop>(
    alloc: Global,
    lists: &mut TwoLists<V>,
    verb: &str,
    text: &str,
    out: &mut Vec<u8>,
) -> io::Result<()> {
    match item_in(alloc, text) {
        Some(item) => call_with(alloc, lists, verb, item, out),
        None => out.write_all(b"no item\n"),
    }
}

fn call_with<V: Versions + Drop>(
    alloc: Global,
    lists: &mut TwoLists<V>,
    verb: &str,
    item: Item,
    out: &mut Vec<u8>,
) -> io::Result<()> {
    match verb {
        "put" => write_done(lists.put(&item), out),
        "remove" => write_was_there(lists.remove(&item), out),
        "take-out" => write_done(lists.take_out(item), out),
        "find" => write_found(alloc, lists.find(&item), out),
        _ => out.write_all(b"no such call\n"),
    }
}

/// Takes the item of the first key out and puts the second item in.
fn replace<V: Versions + Drop>(
    alloc: Global,
    lists: &mut TwoLists<V>,
    text: &str,
    out: &mut Vec<u8>,
) -> io::Result<()> {
    let Some(key) = item_in(alloc, word(text, 0)) else {
        return out.write_all(b"no key\n");
    };
    match item_in(alloc, word(text, 1)) {
        Some(item) => write_was_there(lists.replace(&key, &item), out),
        None => out.write_all(b"no item\n"),
    }
}

/// A call with a filter; `list` is that of all items.
fn ask<V: Versions + Drop>(
    alloc: Global,
    lists: &mut TwoLists<V>,
    line: &str,
    out: &mut Vec<u8>,
) -> io::Result<()> {
    match filter_in(alloc, word(line, 1)) {
        Some(filter) => ask_for(alloc, lists, &filter, line, out),
        None => out.write_all(b"no filter\n"),
    }
}

fn ask_for<V: Versions + Drop>(
    alloc: Global,
    lists: &mut TwoLists<V>,
    filter: &Filter,
    line: &str,
    out: &mut Vec<u8>,
) -> io::Result<()> {
    let most = number(word(line, 3)) as usize;
    match word(line, 0) {
        "count" => write_number(lists.count(filter), out),
        "list" => write_part(alloc, lists.part(filter, 0, 10_000), out),
        "part" => {
            let skip = number(word(line, 2)) as usize;
            write_part(alloc, lists.part(filter, skip, most), out)
        }
        _ => part_after(alloc, lists, filter, line, out),
    }
}

/// The items behind a key.
fn part_after<V: Versions + Drop>(
    alloc: Global,
    lists: &mut TwoLists<V>,
    filter: &Filter,
    line: &str,
    out: &mut Vec<u8>,
) -> io::Result<()> {
    let most = number(word(line, 3)) as usize;
    match item_in(alloc, word(line, 2)) {
        Some(key) => write_part(alloc, lists.part_after(filter, &key, most), out),
        None => out.write_all(b"no key\n"),
    }
}

/// Whether the item passes the filter, or what is left of it, deleted at the first datestamp.
fn passes(alloc: Global, line: &str, out: &mut Vec<u8>) -> io::Result<()> {
    let is_deleted = word(line, 0) == "passes-deleted";
    match item_at_hand(alloc, word(line, 2), is_deleted) {
        Some(item) => passes_filter(alloc, word(line, 1), &item, out),
        None => out.write_all(b"no item\n"),
    }
}

fn item_at_hand(alloc: Global, text: &str, is_deleted: bool) -> Option<Item> {
    let item = item_in(alloc, text)?;
    if !is_deleted {
        return Some(item);
    }
    item.tombstone(alloc, STAMP).ok()
}

fn passes_filter(alloc: Global, text: &str, item: &Item, out: &mut Vec<u8>) -> io::Result<()> {
    let Some(filter) = filter_in(alloc, text) else {
        return out.write_all(b"no filter\n");
    };
    match filter.copy(alloc) {
        Ok(copy) => write_passes(filter.passes(item), copy.passes(item), out),
        Err(_) => out.write_all(b"no memory\n"),
    }
}

/// How many items the list at hand has; 0 where it cannot be read.
pub(crate) fn item_count<V: Versions + Drop>(alloc: Global, lists: &mut TwoLists<V>) -> usize {
    match filter_in(alloc, "all") {
        Some(filter) => lists.count(&filter).unwrap_or(0),
        None => 0,
    }
}
