//! Repositories without a host, each alone in its store, and what they answer: lines of a moment and of a deposit line,
//! a query, `clock` or `advance`. What fails for the device is made again.
use crate::restored::restore_line;
use crate::scripts::RepositoryWay;
use oai_catalogue::{PlainVersions, Versions};
use oai_deposit::{Change, LineFault, read_line};
use oai_device::MemoryDevice;
use oai_item::{DeletedRecord, Fault, Forms};
use oai_paged::PagedVersions;
use oai_pool::Pool;
use oai_repo::{Refusal, Reply};
use oai_settings::RepoConfig;
use std::alloc::Global;
use std::io::{self, Write};
use tests_fixtures::{Stocked, Told, archive_a, archive_b, archive_c, settings_of};
use tests_stores::{Want, cramped, failing, lying};

/// Adds what the lines are answered by a new repository of that name, with room for two open lists where its name says
/// no other number, over lists, or over the store that stands behind a `/`, in which a number stands behind a `:`: that
/// of the call which fails or finds no room, or of how many answers are lies.
pub(crate) fn answers_of(
    alloc: Global,
    way: RepositoryWay,
    lines: &str,
    place: &str,
    out: &mut Vec<u8>,
) -> io::Result<()> {
    let (name, store) = place.split_once('/').unwrap_or((place, ""));
    let (store, number) = store.split_once(':').unwrap_or((store, ""));
    let number = number.parse::<u64>().unwrap_or(0);
    let told = repository_named(name);
    let lists = PlainVersions::new(alloc);
    match store {
        "failing" => over(alloc, told, failing(lists, number), way, lines, out),
        "without-memory" => {
            let store = cramped(lists, number, Want::Memory);
            over(alloc, told, store, way, lines, out)
        }
        "without-pages" => {
            let store = cramped(lists, number, Want::Pages);
            over(alloc, told, store, way, lines, out)
        }
        "losing" => over(alloc, told, lying(lists, 0, number), way, lines, out),
        "losing-after-two" => over(alloc, told, lying(lists, 2, number), way, lines, out),
        "pages" => over_pages(alloc, told, way, lines, out),
        _ => over(alloc, told, lists, way, lines, out),
    }
}

/// The same over pages in memory, behind a cache of eight.
fn over_pages(
    alloc: Global,
    told: Told<'_>,
    way: RepositoryWay,
    lines: &str,
    out: &mut Vec<u8>,
) -> io::Result<()> {
    match Pool::new(alloc, MemoryDevice::new(alloc), 8) {
        Ok(pool) => over(
            alloc,
            told,
            PagedVersions::new(alloc, pool),
            way,
            lines,
            out,
        ),
        Err(_) => out.write_all(b"no pool\n"),
    }
}

/// The settings of the repository.
fn repository_named(name: &str) -> Told<'static> {
    match name {
        "a-of-one-list" => archive_a(),
        "b-of-one-list" => archive_b(),
        _ => Told {
            lists: Some(2),
            ..with_any_lists(name)
        },
    }
}

/// Its settings, whatever number of lists it may have open.
fn with_any_lists(name: &str) -> Told<'static> {
    match name {
        "a" => archive_a(),
        "b-of-two" => Told {
            items: Some(2),
            ..archive_b()
        },
        "transient-b" => Told {
            deleted: DeletedRecord::Transient,
            ..archive_b()
        },
        "transient-b-of-two" => Told {
            deleted: DeletedRecord::Transient,
            items: Some(2),
            ..archive_b()
        },
        "c" => archive_c(),
        "c-of-journals" => Told {
            items: Some(1_000),
            prefixes: Some("jnl"),
            ..archive_c()
        },
        _ => archive_b(),
    }
}

/// What the lines are answered by a new repository over the store.
fn over<V: Versions + Drop>(
    alloc: Global,
    told: Told<'_>,
    store: V,
    way: RepositoryWay,
    lines: &str,
    out: &mut Vec<u8>,
) -> io::Result<()> {
    match stocked(alloc, told, store) {
        Some(mut repo) => perform_all(alloc, &mut repo, way, lines, out),
        None => out.write_all(b"no repository\n"),
    }
}

fn stocked<V: Versions + Drop>(alloc: Global, told: Told<'_>, store: V) -> Option<Stocked<V>> {
    let config = RepoConfig::new(alloc, settings_of(alloc, told).ok()?).ok()?;
    Stocked::new(alloc, config, store).ok()
}

/// Performs each line.
fn perform_all<V: Versions + Drop>(
    alloc: Global,
    repo: &mut Stocked<V>,
    way: RepositoryWay,
    lines: &str,
    out: &mut Vec<u8>,
) -> io::Result<()> {
    for line in lines.lines() {
        match way {
            RepositoryWay::Restore => restore_line(alloc, repo, line, out)?,
            _ => perform_line(alloc, repo, way, line, out)?,
        }
    }
    Ok(())
}

/// Performs the line: a moment, a space, and what is asked at it.
pub(crate) fn perform_line<V: Versions + Drop>(
    alloc: Global,
    repo: &mut Stocked<V>,
    way: RepositoryWay,
    line: &str,
    out: &mut Vec<u8>,
) -> io::Result<()> {
    let (moment, text) = line.split_once(' ').unwrap_or((line, ""));
    let moment = moment.parse::<i64>().unwrap_or(0);
    match text {
        "advance" => repo.advance(moment),
        "clock" => writeln!(out, "clock {}", repo.clock())?,
        _ if text.starts_with('{') => change(alloc, repo, moment, text, out)?,
        _ => ask(repo, way, moment, text, out)?,
    }
    if let RepositoryWay::Outcome = way {
        writeln!(out, "clock {}", repo.clock())?;
    }
    Ok(())
}

/// Makes the change that the line asks for.
fn change<V: Versions + Drop>(
    alloc: Global,
    repo: &mut Stocked<V>,
    moment: i64,
    line: &str,
    out: &mut Vec<u8>,
) -> io::Result<()> {
    match read_line(alloc, Forms::Fields, line.as_bytes()) {
        Ok(change) => write_change(changed(repo, moment, &change), out),
        Err(LineFault::Refused(cause)) => writeln!(out, "{}", cause.answer()),
        Err(LineFault::NoMemory) => out.write_all(b"out of memory\n"),
    }
}

/// Makes the change, and makes it again where the device fails.
fn changed<V: Versions + Drop>(
    repo: &mut Stocked<V>,
    moment: i64,
    change: &Change,
) -> Result<i64, Refusal> {
    match repo.change(moment, change) {
        Err(Refusal::Fault(Fault::Device)) => repo.change(moment, change),
        answer => answer,
    }
}

fn write_change(changed: Result<i64, Refusal>, out: &mut Vec<u8>) -> io::Result<()> {
    match changed {
        Ok(stamp) => writeln!(out, "ok {stamp}"),
        Err(Refusal::Refused(cause)) => writeln!(out, "{}", cause.answer()),
        Err(Refusal::Fault(fault)) => writeln!(out, "{}", name_of(fault)),
    }
}

/// Asks the query, and asks it again where the device fails.
fn ask<V: Versions + Drop>(
    repo: &mut Stocked<V>,
    way: RepositoryWay,
    moment: i64,
    query: &str,
    out: &mut Vec<u8>,
) -> io::Result<()> {
    match repo.ask(moment, query.as_bytes()) {
        Err(Fault::Device) => write_reply(way, repo.ask(moment, query.as_bytes()), out),
        answer => write_reply(way, answer, out),
    }
}

/// Writes the page, or, where only outcomes are wanted, that there is one.
fn write_reply(
    way: RepositoryWay,
    asked: Result<Reply, Fault>,
    out: &mut Vec<u8>,
) -> io::Result<()> {
    match asked {
        Ok(Reply::Page(page)) => match way {
            RepositoryWay::Outcome => out.write_all(b"page\n"),
            RepositoryWay::Answer | RepositoryWay::Restore => out.write_all(page.as_slice()),
        },
        Ok(Reply::Later(seconds)) => writeln!(out, "later {seconds}"),
        Err(fault) => writeln!(out, "{}", name_of(fault)),
    }
}

/// What a fault is called.
pub(crate) fn name_of(fault: Fault) -> &'static str {
    match fault {
        Fault::NoMemory => "out of memory",
        Fault::Device => "device failed",
        Fault::Damaged => "damaged",
        Fault::TooManyPages => "too many pages",
    }
}
