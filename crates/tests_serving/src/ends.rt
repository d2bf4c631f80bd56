//! Ends, and what goes on behind them.
use crate::archives::{
    MemoryArchive, Setting, answer_of, assert_told, assert_wanted, tell, worked,
};
use crate::assertions::assert_same;
use oai_http::{Settled, Status};
use std::alloc::Global;
use std::panic::Expect;
use std::process::Abort;
use tests_fixtures::{long, script, short};

/// Writes what the archive answers to the transcript; it ends after each exchange and goes on from its journal.
fn write_answers(
    rt: &impl Abort,
    alloc: Global,
    archive: &mut MemoryArchive,
    transcript: &str,
    output: &mut Vec<u8>,
) {
    for line in transcript.lines() {
        if let Some(line) = line.strip_prefix("> ") {
            tell(rt, alloc, archive, line, output);
            archive.crash(rt);
        }
    }
}

/// The archive ends after each exchange of the transcript and goes on from its journal; the answers are those of the
/// transcript.
fn assert_answers(rt: &impl Abort, alloc: Global, archive: &mut MemoryArchive, transcript: &str) {
    let mut output = Vec::new(alloc);
    write_answers(rt, alloc, archive, transcript, &mut output);
    assert_wanted(rt, alloc, &output, transcript);
}

/// So does a new archive of that setting.
fn assert_goes_on(rt: &impl Abort, alloc: Global, transcript: &str, setting: Setting) {
    let mut archive = MemoryArchive::begun(rt, alloc, setting);
    assert_answers(rt, alloc, &mut archive, transcript);
}

/// The script goes on over caches of 1, 2 and 64 pages.
#[test]
fn end_after_each_exchange(rt: HostRuntime) {
    let alloc = rt.alloc();
    let script = script(alloc, short()).expect(&rt, "memory");
    for cache in [1usize, 2, 64] {
        assert_goes_on(&rt, alloc, script.as_str(), worked(cache));
    }
}

/// So it does with an item that does not fit on a page.
#[test]
fn end_after_each_exchange_with_a_long_item(rt: HostRuntime) {
    let alloc = rt.alloc();
    let script = script(alloc, long()).expect(&rt, "memory");
    assert_goes_on(&rt, alloc, script.as_str(), worked(2));
}

/// Lists that end, tokens that were never handed out, and one that is asked for twice.
fn tokens() -> &'static str {
    r#"> 1704067200 POST /deposit/a | - | {"deposit":"oai:a:1","sets":[],"records":{"oai_dc":[]}}¶{"deposit":"oai:a:2","sets":[],"records":{"oai_dc":[]}}¶{"deposit":"oai:a:3","sets":[],"records":{"oai_dc":[]}}
200
ok 2024-01-01T00:00:00Z
ok 2024-01-01T00:00:00Z
ok 2024-01-01T00:00:00Z
> 1704067200 GET /oai/a?verb=ListIdentifiers&metadataPrefix=oai_dc
200
DOC <responseDate>2024-01-01T00:00:00Z</responseDate><request verb="ListIdentifiers" metadataPrefix="oai_dc">http://host.example/oai/a</request><ListIdentifiers><header><identifier>oai:a:1</identifier><datestamp>2024-01-01T00:00:00Z</datestamp></header><header><identifier>oai:a:2</identifier><datestamp>2024-01-01T00:00:00Z</datestamp></header><resumptionToken expirationDate="2024-01-01T00:01:00Z" completeListSize="3" cursor="0">1.2</resumptionToken></ListIdentifiers></OAI-PMH>
> 1704067201 GET /oai/a?verb=ListIdentifiers&resumptionToken=1.4
200
DOC <responseDate>2024-01-01T00:00:01Z</responseDate><request verb="ListIdentifiers" resumptionToken="1.4">http://host.example/oai/a</request><error code="badResumptionToken">The resumption token is invalid or has expired.</error></OAI-PMH>
> 1704067202 GET /oai/a?verb=ListIdentifiers&resumptionToken=1.2
200
DOC <responseDate>2024-01-01T00:00:02Z</responseDate><request verb="ListIdentifiers" resumptionToken="1.2">http://host.example/oai/a</request><ListIdentifiers><header><identifier>oai:a:3</identifier><datestamp>2024-01-01T00:00:00Z</datestamp></header><resumptionToken completeListSize="3" cursor="2"></resumptionToken></ListIdentifiers></OAI-PMH>
> 1704067261 GET /oai/a?verb=ListIdentifiers&resumptionToken=1.2
200
DOC <responseDate>2024-01-01T00:01:01Z</responseDate><request verb="ListIdentifiers" resumptionToken="1.2">http://host.example/oai/a</request><ListIdentifiers><header><identifier>oai:a:3</identifier><datestamp>2024-01-01T00:00:00Z</datestamp></header><resumptionToken completeListSize="3" cursor="2"></resumptionToken></ListIdentifiers></OAI-PMH>
> 1704067321 GET /oai/a?verb=ListIdentifiers&resumptionToken=1.2
200
DOC <responseDate>2024-01-01T00:02:01Z</responseDate><request verb="ListIdentifiers" resumptionToken="1.2">http://host.example/oai/a</request><error code="badResumptionToken">The resumption token is invalid or has expired.</error></OAI-PMH>
> 1704067321 GET /oai/a?verb=ListIdentifiers&metadataPrefix=oai_dc
200
DOC <responseDate>2024-01-01T00:02:01Z</responseDate><request verb="ListIdentifiers" metadataPrefix="oai_dc">http://host.example/oai/a</request><ListIdentifiers><header><identifier>oai:a:1</identifier><datestamp>2024-01-01T00:00:00Z</datestamp></header><header><identifier>oai:a:2</identifier><datestamp>2024-01-01T00:00:00Z</datestamp></header><resumptionToken expirationDate="2024-01-01T00:03:01Z" completeListSize="3" cursor="0">2.2</resumptionToken></ListIdentifiers></OAI-PMH>
> 1704067000 GET /oai/a?verb=Identify
200
DOC <responseDate>2024-01-01T00:02:01Z</responseDate><request verb="Identify">http://host.example/oai/a</request><Identify><repositoryName>Archive A</repositoryName><baseURL>http://host.example/oai/a</baseURL><protocolVersion>2.0</protocolVersion><adminEmail>a@host.example</adminEmail><earliestDatestamp>2024-01-01T00:00:00Z</earliestDatestamp><deletedRecord>persistent</deletedRecord><granularity>YYYY-MM-DDThh:mm:ssZ</granularity></Identify></OAI-PMH>
"#
}

#[test]
fn tokens_after_an_end(rt: HostRuntime) {
    assert_goes_on(&rt, rt.alloc(), tokens(), worked(1));
}

/// Deposits the item of that number, one second after the one before it.
fn deposit(number: u32) -> &'static str {
    match number {
        1 => {
            r#"1704067201 POST /deposit/a | - | {"deposit":"oai:a:1","sets":[],"records":{"oai_dc":[]}}"#
        }
        _ => {
            r#"1704067202 POST /deposit/a | - | {"deposit":"oai:a:2","sets":[],"records":{"oai_dc":[]}}"#
        }
    }
}

/// The answer to the exchange of the line is 200.
fn assert_ok<H: Settled>(rt: &impl Abort, alloc: Global, handler: &mut H, line: &str) {
    let answer = answer_of(rt, alloc, handler, line);
    assert_same(rt, answer.status, Status::Ok);
}

/// Two deposits, of which the first one settles.
fn deposit_twice<H: Settled>(rt: &impl Abort, alloc: Global, handler: &mut H) {
    assert_ok(rt, alloc, handler, deposit(1));
    handler.settle().expect(rt, "settle");
    assert_ok(rt, alloc, handler, deposit(2));
}

/// An answer that was held back may be lost, and what had settled is there.
#[test]
fn answer_that_was_held_back(rt: HostRuntime) {
    let alloc = rt.alloc();
    let mut archive = MemoryArchive::begun(&rt, alloc, worked(1));
    deposit_twice(&rt, alloc, &mut archive);
    archive.crash(&rt);
    assert_only_first(&rt, alloc, &mut archive);
}

/// Of the two items the first one is there, with its datestamp, and the other is not. The clock is that of the first.
pub(crate) fn assert_only_first<H: Settled>(rt: &impl Abort, alloc: Global, handler: &mut H) {
    assert_told(rt, alloc, handler, only_first());
}

fn only_first() -> &'static str {
    r#"> 1704067200 GET /oai/a?verb=ListIdentifiers&metadataPrefix=oai_dc
200
DOC <responseDate>2024-01-01T00:00:01Z</responseDate><request verb="ListIdentifiers" metadataPrefix="oai_dc">http://host.example/oai/a</request><ListIdentifiers><header><identifier>oai:a:1</identifier><datestamp>2024-01-01T00:00:01Z</datestamp></header></ListIdentifiers></OAI-PMH>
"#
}
