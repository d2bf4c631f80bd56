//! Repositories that are restored, part by part, and read. `begin` and a clock and a number, `set` and a setSpec and a
//! name, `item` and its bytes, `titled` and an identifier and a title, `goes` and an identifier, and `list` and a
//! number, an end and a prefix restore a part, behind which is written what the repository has. `sets` and `walk` write
//! its sets and its items, one read after the other, and `items` how many are read at once: a number, and the bytes of
//! the item behind which they stand.
use crate::parts::write_bytes;
use crate::repositories::{name_of, perform_line};
use crate::scripts::RepositoryWay;
use oai_catalogue::{Filter, Versions};
use oai_item::{Fault, Item};
use oai_names::{ListVerb, Prefix, SetSpec};
use oai_repo::{SavedList, SavedPart};
use oai_time::{FIRST_SECOND, LAST_SECOND};
use std::alloc::Global;
use std::io::{self, Write};
use tests_fixtures::Stocked;
use tests_samples::{item, with_bytes};

/// Performs the line.
pub(crate) fn restore_line<V: Versions + Drop>(
    alloc: Global,
    repo: &mut Stocked<V>,
    line: &str,
    out: &mut Vec<u8>,
) -> io::Result<()> {
    let (word, text) = line.split_once(' ').unwrap_or((line, ""));
    match word {
        "sets" => write_sets(repo, out),
        "walk" => walk(alloc, repo, out),
        "items" => count_items(alloc, repo, text, out),
        "begin" | "set" | "item" | "titled" | "goes" | "list" => {
            let restored = restore(alloc, repo, word, text);
            write_restored(repo, restored, out)
        }
        _ => perform_line(alloc, repo, RepositoryWay::Restore, line, out),
    }
}

/// Restores the part; None where the text is none.
fn restore<V: Versions + Drop>(
    alloc: Global,
    repo: &mut Stocked<V>,
    word: &str,
    text: &str,
) -> Option<Result<(), Fault>> {
    match word {
        "begin" => begin(repo, text),
        "set" => add_set(alloc, repo, text),
        "item" => add_item(repo, item_of(alloc, text)),
        "titled" => add_titled(alloc, repo, text),
        "list" => add_list(alloc, repo, text),
        _ => Some(repo.restore(&SavedPart::Goes { identifier: text })),
    }
}

fn begin<V: Versions + Drop>(repo: &mut Stocked<V>, text: &str) -> Option<Result<(), Fault>> {
    let (clock, next) = text.split_once(' ')?;
    let clock = clock.parse::<i64>().ok()?;
    let next = next.parse::<u64>().ok()?;
    Some(repo.restore(&SavedPart::Begins { clock, next }))
}

fn add_set<V: Versions + Drop>(
    alloc: Global,
    repo: &mut Stocked<V>,
    text: &str,
) -> Option<Result<(), Fault>> {
    let (spec, name) = text.split_once(' ')?;
    let spec = SetSpec::read(alloc, spec).ok()?;
    Some(repo.restore(&SavedPart::HasSet { spec: &spec, name }))
}

fn add_item<V: Versions + Drop>(
    repo: &mut Stocked<V>,
    item: Option<Item>,
) -> Option<Result<(), Fault>> {
    let item = item?;
    Some(repo.restore(&SavedPart::HasItem { item: &item }))
}

/// The item of the bytes.
fn item_of(alloc: Global, text: &str) -> Option<Item> {
    let bytes = with_bytes(alloc, text).ok()?;
    Item::decode(alloc, bytes.as_slice()).ok()
}

/// Adds the item of the first second of 2024 with that identifier and that title, which may be longer than one that has
/// bytes.
fn add_titled<V: Versions + Drop>(
    alloc: Global,
    repo: &mut Stocked<V>,
    text: &str,
) -> Option<Result<(), Fault>> {
    let (identifier, title) = text.split_once(' ')?;
    add_item(repo, item(alloc, identifier, 0, &[], title))
}

/// Adds the list of records of that number, end and format, of which two were handed out.
fn add_list<V: Versions + Drop>(
    alloc: Global,
    repo: &mut Stocked<V>,
    text: &str,
) -> Option<Result<(), Fault>> {
    let (number, text) = text.split_once(' ')?;
    let (end, prefix) = text.split_once(' ')?;
    let prefix = Prefix::read(alloc, prefix).ok()?;
    let filter = Filter::new(prefix, FIRST_SECOND, LAST_SECOND, None);
    let list = SavedList {
        number: number.parse::<u64>().ok()?,
        verb: ListVerb::Records,
        filter: &filter,
        end: end.parse::<i64>().ok()?,
        given: 2,
    };
    Some(repo.restore(&SavedPart::HasList { list }))
}

/// Writes what came of the part, and what the repository has.
fn write_restored<V: Versions + Drop>(
    repo: &Stocked<V>,
    restored: Option<Result<(), Fault>>,
    out: &mut Vec<u8>,
) -> io::Result<()> {
    let word = match restored {
        Some(Ok(())) => "restored",
        Some(Err(fault)) => name_of(fault),
        None => "no part",
    };
    let repo = repo.repo();
    let (clock, next) = (repo.clock(), repo.next_list());
    let (sets, lists) = (repo.sets().len(), repo.open_lists());
    writeln!(
        out,
        "{word}: clock {clock}, next list {next}, sets {sets}, lists {lists}"
    )
}

/// Writes the setSpec and the name of each set.
fn write_sets<V: Versions + Drop>(repo: &Stocked<V>, out: &mut Vec<u8>) -> io::Result<()> {
    for (spec, name) in repo.repo().sets().as_slice() {
        writeln!(out, "set {} {}", spec.as_str(), name.as_str())?;
    }
    Ok(())
}

/// Writes the bytes of each item, where each is read behind the one before.
fn walk<V: Versions + Drop>(
    alloc: Global,
    repo: &mut Stocked<V>,
    out: &mut Vec<u8>,
) -> io::Result<()> {
    let mut last: Option<Item> = None;
    for _ in 0..100u32 {
        last = next_item(alloc, repo, last.as_ref(), out)?;
        if last.is_none() {
            return Ok(());
        }
    }
    Ok(())
}

/// Writes the bytes of the item behind the last one, and returns it, if there is one.
fn next_item<V: Versions + Drop>(
    alloc: Global,
    repo: &mut Stocked<V>,
    last: Option<&Item>,
    out: &mut Vec<u8>,
) -> io::Result<Option<Item>> {
    let Ok(items) = repo.items_behind(last, 1) else {
        out.write_all(b"not read\n")?;
        return Ok(None);
    };
    let Some(item) = items.into_vec().pop() else {
        return Ok(None);
    };
    write_item(alloc, &item, out)?;
    Ok(Some(item))
}

/// Writes the bytes of the item.
fn write_item(alloc: Global, item: &Item, out: &mut Vec<u8>) -> io::Result<()> {
    let Ok(size) = item.encoded_len() else {
        return out.write_all(b"too large\n");
    };
    let mut bytes = vec![in alloc; 0u8; size]?;
    if item.encode_into(&mut bytes).is_err() {
        return out.write_all(b"too large\n");
    }
    out.write_all(b"item ")?;
    write_bytes(alloc, bytes.as_slice(), out)
}

/// Writes how many items are read at once, of so many, behind the item of the bytes, if there are any.
fn count_items<V: Versions + Drop>(
    alloc: Global,
    repo: &mut Stocked<V>,
    text: &str,
    out: &mut Vec<u8>,
) -> io::Result<()> {
    let (most, bytes) = text.split_once(' ').unwrap_or((text, ""));
    let last = item_of(alloc, bytes);
    match repo.items_behind(last.as_ref(), most.parse::<usize>().unwrap_or(0)) {
        Ok(items) => writeln!(out, "items {}", items.len()),
        Err(fault) => writeln!(out, "{}", name_of(fault)),
    }
}
