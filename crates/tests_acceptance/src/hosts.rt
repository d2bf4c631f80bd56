//! Hosts of the worked configuration, and of one whose records may be elements, over the stores that scripts name, and
//! what they answer.
use crate::parts::save_and_restore;
use crate::runs::run_all;
use crate::scripts::HostWay;
use crate::traces::{connect, trace};
use oai_catalogue::{PlainVersions, Versions};
use oai_cli::ask_lines;
use oai_device::{MemoryDevice, PageDevice};
use oai_host::{Config, Host};
use oai_item::Forms;
use oai_startup::host_on;
use std::alloc::{AllocError, Global};
use std::io::{self, Write};
use tests_fixtures::{answer_to, body_of, exchange_in, worked_configuration, write_exchanged};
use tests_samples::{with_bytes, with_repeats};
use tests_stores::{Want, cramped, failing, lying, refusing};

/// Of which configuration a host is, and what is asked of it.
#[derive(Clone, Copy)]
struct Task<'a> {
    forms: Forms,
    configuration: &'a str,
    way: HostWay,
    lines: &'a str,
}

/// Adds what the lines are answered by a new host over the store of that name, in which a number stands behind a `:`:
/// of pages that of the pages of the cache, 1 where there is none, of a store of which a call fails the number of the
/// call, and of one that does not find items for how many calls it does not.
pub(crate) fn answers_over(
    alloc: Global,
    way: HostWay,
    lines: &str,
    store: &str,
    out: &mut Vec<u8>,
) -> io::Result<()> {
    let (store, number) = store.split_once(':').unwrap_or((store, "1"));
    let configuration = configuration_for(alloc, store, number)?;
    let task = Task {
        forms: forms_for(store),
        configuration: configuration.as_str(),
        way,
        lines,
    };
    let count = number.parse::<u64>().unwrap_or(1);
    perform(alloc, task, store, count, out)
}

/// The same of the task, with that number.
fn perform(
    alloc: Global,
    task: Task<'_>,
    store: &str,
    count: u64,
    out: &mut Vec<u8>,
) -> io::Result<()> {
    match store {
        "failing" => over_failing(alloc, task, count, out),
        "refusing" => over_refusing(alloc, task, count, out),
        "without-memory" => over_cramped(alloc, task, count, Want::Memory, out),
        "without-pages" => over_cramped(alloc, task, count, Want::Pages, out),
        "losing" => over_losing(alloc, task, count, out),
        _ if store.ends_with("pages") => over_pages(alloc, task, MemoryDevice::new(alloc), out),
        _ if store.ends_with("lists") => over(alloc, task, PlainVersions::new(alloc), out),
        _ => out.write_all(b"no such store\n"),
    }
}

/// Which records the configuration for that store may have.
fn forms_for(store: &str) -> Forms {
    match store.rsplit_once('-') {
        Some(("element" | "article" | "version-2", _)) => Forms::Elements,
        _ => Forms::Fields,
    }
}

/// The configuration for that store; the worked one has a cache of so many pages.
fn configuration_for(alloc: Global, store: &str, number: &str) -> Result<String, AllocError> {
    match store {
        "element-lists" | "element-pages" => String::from_str(alloc, element_configuration()),
        "article-lists" | "article-pages" => articles(alloc),
        "thousand-lists" => with_repeats(alloc, thousand_repositories()),
        "roomy-lists" => String::from_str(alloc, room_for_many()),
        "pages" => with_cache(alloc, number),
        _ => String::from_str(alloc, worked_configuration()),
    }
}

/// The worked configuration, with a cache of so many pages.
fn with_cache(alloc: Global, cache: &str) -> Result<String, AllocError> {
    let told = format!(in alloc; "\"cache\":{cache},")?;
    worked_configuration().replace(alloc, "\"cache\":1,", told.as_str())
}

/// A configuration of the repositories `r0` to `r999`.
fn thousand_repositories() -> &'static str {
    r##"{"base":"http://host.example","cache":1,"repositories":[«{"name":"r#","repositoryName":"R",
"adminEmail":["r@host.example"],"earliestDatestamp":"2024-01-01","deletedRecord":"no",
"granularity":"days","chunk":2,"lifetime":60,"lists":1,"items":1,"formats":[]},*0..998»
{"name":"r999","repositoryName":"R",
"adminEmail":["r@host.example"],"earliestDatestamp":"2024-01-01","deletedRecord":"no",
"granularity":"days","chunk":2,"lifetime":60,"lists":1,"items":1,"formats":[]}]}"##
}

/// A configuration of one repository, with room for 1,001 items.
fn room_for_many() -> &'static str {
    r#"{"base":"http://host.example","cache":1,"repositories":[{"name":"a","repositoryName":"A",
"adminEmail":["a@host.example"],"earliestDatestamp":"2024-01-01T00:00:00Z","deletedRecord":"persistent",
"granularity":"seconds","chunk":2,"lifetime":60,"lists":1,"items":1001,"formats":[]}]}"#
}

/// A configuration of one repository, whose records may be elements: those of seven formats are, and those of articles
/// of a journal may be lists of fields.
fn element_configuration() -> &'static str {
    r#"{"base":"http://host.example","cache":1,"repositories":[
{"name":"a","repositoryName":"Archive A","adminEmail":["a@host.example"],
 "earliestDatestamp":"2024-01-01T00:00:00Z","deletedRecord":"persistent",
 "granularity":"seconds","chunk":2,"lifetime":60,"lists":1,"items":1000,"formats":[
{"prefix":"marc21","schema":"http://www.loc.gov/standards/marcxml/schema/MARC21slim.xsd",
 "namespace":"http://www.loc.gov/MARC21/slim","root":"record"},
{"prefix":"datacite","schema":"http://schema.datacite.org/meta/kernel-4/metadata.xsd",
 "namespace":"http://datacite.org/schema/kernel-4","root":"resource"},
{"prefix":"mods","schema":"http://www.loc.gov/standards/mods/v3/mods-3-7.xsd",
 "namespace":"http://www.loc.gov/mods/v3","root":"mods"},
{"prefix":"edm","schema":"http://www.europeana.eu/schemas/edm/EDM.xsd",
 "namespace":"http://www.w3.org/1999/02/22-rdf-syntax-ns#","root":"RDF"},
{"prefix":"mets","schema":"http://www.loc.gov/standards/mets/mets.xsd",
 "namespace":"http://www.loc.gov/METS/","root":"mets"},
{"prefix":"jats","schema":"https://jats.nlm.nih.gov/archiving/1.3/xsd/JATS-archivearticle1-3.xsd",
 "namespace":"https://jats.nlm.nih.gov/ns/archiving/1.3/","root":"article"},
{"prefix":"tei","schema":"http://www.tei-c.org/release/xml/tei/custom/schema/xsd/tei_all.xsd",
 "namespace":"http://www.tei-c.org/ns/1.0","root":"TEI"},
{"prefix":"jnl","schema":"http://host.example/jnl.xsd",
 "namespace":"http://host.example/jnl/","root":"article","fields":["volume","pages"]}]}]}"#
}

/// The worked configuration, in which articles of journals are elements alone.
fn articles(alloc: Global) -> Result<String, AllocError> {
    worked_configuration().replace(alloc, ",\"fields\":[\"volume\",\"pages\"]", "")
}

/// The same by a host over pages of the device.
fn over_pages<D: PageDevice>(
    alloc: Global,
    task: Task<'_>,
    device: D,
    out: &mut Vec<u8>,
) -> io::Result<()> {
    let Ok(config) = Config::read(alloc, task.forms, task.configuration.as_bytes()) else {
        return out.write_all(b"no configuration\n");
    };
    match host_on(alloc, config, device) {
        Ok(host) => perform_by_way(alloc, host, task, out),
        Err(_) => out.write_all(b"no host\n"),
    }
}

/// The same over lists of which that call fails.
fn over_failing(alloc: Global, task: Task<'_>, call: u64, out: &mut Vec<u8>) -> io::Result<()> {
    let store = failing(PlainVersions::new(alloc), call);
    over(alloc, task, store, out)
}

/// The same over lists of which that call is refused memory.
fn over_refusing(alloc: Global, task: Task<'_>, call: u64, out: &mut Vec<u8>) -> io::Result<()> {
    let store = refusing(PlainVersions::new(alloc), call);
    over(alloc, task, store, out)
}

/// The same over lists of which that call finds no room.
fn over_cramped(
    alloc: Global,
    task: Task<'_>,
    call: u64,
    want: Want,
    out: &mut Vec<u8>,
) -> io::Result<()> {
    let store = cramped(PlainVersions::new(alloc), call, want);
    over(alloc, task, store, out)
}

/// The same over lists that do not find an item for so many calls.
fn over_losing(alloc: Global, task: Task<'_>, calls: u64, out: &mut Vec<u8>) -> io::Result<()> {
    let store = lying(PlainVersions::new(alloc), 0, calls);
    over(alloc, task, store, out)
}

/// What the lines are answered by a new host over the store, or why there is none.
fn over<V: Versions + Drop>(
    alloc: Global,
    task: Task<'_>,
    store: V,
    out: &mut Vec<u8>,
) -> io::Result<()> {
    let Ok(config) = Config::read(alloc, task.forms, task.configuration.as_bytes()) else {
        return out.write_all(b"no configuration\n");
    };
    match Host::new(alloc, config, store) {
        Ok(host) => perform_by_way(alloc, host, task, out),
        Err(fault) => writeln!(out, "no host: {fault}"),
    }
}

/// Performs the lines.
fn perform_by_way<V: Versions + Drop>(
    alloc: Global,
    mut host: Host<V>,
    task: Task<'_>,
    out: &mut Vec<u8>,
) -> io::Result<()> {
    let lines = task.lines;
    match task.way {
        HostWay::Ask => ask(alloc, &mut host, lines, out),
        HostWay::Exchange => exchange_all(alloc, &mut host, lines, false, out),
        HostWay::ExchangeAgain => exchange_all(alloc, &mut host, lines, true, out),
        HostWay::Run => run_all(alloc, &mut host, lines, out),
        HostWay::Save => save_and_restore(alloc, &mut host, lines, out),
        HostWay::Trace => trace(alloc, host, lines, out),
        HostWay::Connect => connect(alloc, host, lines, out),
    }
}

/// Performs the lines as those of `ask`.
fn ask<V: Versions + Drop>(
    alloc: Global,
    host: &mut Host<V>,
    lines: &str,
    out: &mut Vec<u8>,
) -> io::Result<()> {
    let lines = with_bytes(alloc, lines)?;
    let mut reader = lines.as_slice();
    match ask_lines(alloc, host, &mut reader, out) {
        Ok(()) => Ok(()),
        Err(stop) => writeln!(out, "stopped: {stop}"),
    }
}

/// Performs each line as an exchange, and once more, where that is wanted, one that fails.
fn exchange_all<V: Versions + Drop>(
    alloc: Global,
    host: &mut Host<V>,
    lines: &str,
    again: bool,
    out: &mut Vec<u8>,
) -> io::Result<()> {
    for line in lines.lines() {
        let failed = exchange(alloc, host, line, out)?;
        if failed && again {
            exchange(alloc, host, line, out)?;
        }
    }
    Ok(())
}

/// Performs the exchange, and says whether it failed.
pub(crate) fn exchange<V: Versions + Drop>(
    alloc: Global,
    host: &mut Host<V>,
    line: &str,
    out: &mut Vec<u8>,
) -> io::Result<bool> {
    let line = with_bytes(alloc, line)?;
    let Some(told) = exchange_in(str::from_utf8(line.as_slice()).unwrap_or("")) else {
        out.write_all(b"no exchange\n")?;
        return Ok(false);
    };
    let body = body_of(alloc, told)?;
    let answer = answer_to(host, told, body.as_str());
    write_exchanged(&answer, out)?;
    Ok(answer.fault.is_some())
}
