//! Journals whose records may be elements, dumped and loaded again; and journals of version 1, whose records are lists
//! of fields.
use crate::daemon::clocks::assert_waits;
use crate::daemon::dumps::{assert_dumped, begun_with, deposit};
use crate::daemon::places::{Outset, configuration, first_body, with_journal};
use std::alloc::Global;
use std::panic::Expect;
use std::process::Abort;

/// The version of a journal whose records may be elements, and the line end behind it.
const VERSION: &[u8] = b"2\n";

/// The body of the first record of a journal whose repository has a format of elements alone.
fn element_body() -> &'static [u8] {
    b"2\n{\"base\":\"http://host.example\",\"cache\":1,\"repositories\":[{\"name\":\"a\",\"repositoryName\":\"A\",\
\"adminEmail\":[\"a@host.example\"],\"earliestDatestamp\":\"2024-01-01T00:00:00Z\",\"deletedRecord\":\"persistent\",\
\"granularity\":\"seconds\",\"chunk\":2,\"lifetime\":60,\"lists\":1,\"items\":100,\"formats\":[{\"prefix\":\"marc21\",\
\"schema\":\"http://www.loc.gov/standards/marcxml/schema/MARC21slim.xsd\",\
\"namespace\":\"http://www.loc.gov/MARC21/slim\",\"root\":\"record\"}]}]}"
}

/// The configuration in it.
fn element_configuration() -> &'static [u8] {
    element_body().strip_prefix(VERSION).unwrap_or(b"")
}

/// The body of the first record of a journal of version 1, of the repository without a format of its own.
fn old_body(rt: &impl Abort, alloc: Global) -> String {
    let text = std::str::from_utf8(configuration()).expect(rt, "from_utf8");
    format!(in alloc; "1\n{text}").expect(rt, "memory")
}

/// What is dumped by a journal of a first record with that body, and of a deposit of these lines.
fn assert_dump_of(rt: &impl Abort, alloc: Global, body: &[u8], lines: &str, wanted: &str) {
    let mut journal = begun_with(rt, alloc, body);
    deposit(rt, &mut journal, 0, lines);
    assert_dumped(rt, alloc, journal.into_disk(), "a", Ok(()), wanted);
}

/// What is dumped by a journal of version 1 of a deposit of these lines.
fn assert_old_dump_of(rt: &impl Abort, alloc: Global, lines: &str, wanted: &str) {
    let old = old_body(rt, alloc);
    assert_dump_of(rt, alloc, old.as_bytes(), lines, wanted);
}

/// Elements and lists; of a deleted item nothing is left; and one that is refused.
fn element_lines() -> &'static str {
    r#"{"deposit":"oai:a:1","sets":[],"records":{"oai_dc":[["title","T"]],"marc21":"<?xml version='1.0'?><record xmlns='http://www.loc.gov/MARC21/slim'>\r\n<leader>\"é\" &amp; &#x26; \\</leader><!-- x --></record>"}}
{"deposit":"oai:a:2","sets":[],"records":{"oai_dc":"<d:dc xmlns:d='http://www.openarchives.org/OAI/2.0/oai_dc/'/>"}}
{"deposit":"oai:a:3","sets":[],"records":{"oai_dc":"<d:dc xmlns:d='http://www.openarchives.org/OAI/2.0/oai_dc/'/>"}}
{"delete":"oai:a:3"}
{"deposit":"oai:a:4","sets":[],"records":{"oai_dc":[],"marc21":"<record/>"}}
"#
}

/// What they leave, an element as its canonical text.
fn element_dump() -> &'static str {
    r#"{"deposit":"oai:a:1","records":{"marc21":"<record xmlns=\"http://www.loc.gov/MARC21/slim\">\n<leader>\"é\" &amp; &amp; \\</leader></record>","oai_dc":[["title","T"]]},"sets":[]}
{"deposit":"oai:a:2","records":{"oai_dc":"<d:dc xmlns:d=\"http://www.openarchives.org/OAI/2.0/oai_dc/\" xmlns=\"\"></d:dc>"},"sets":[]}
{"deposit":"oai:a:3","records":{"oai_dc":[]},"sets":[]}
{"delete":"oai:a:3"}
"#
}

/// What a dump deposits is dumped as it is.
#[test]
fn elements_are_dumped_and_loaded_again(rt: HostRuntime) {
    let alloc = rt.alloc();
    assert_dump_of(&rt, alloc, element_body(), element_lines(), element_dump());
    assert_dump_of(&rt, alloc, element_body(), element_dump(), element_dump());
}

/// Elements about a record of fields and about an element; of a deleted item nothing is left.
fn about_lines() -> &'static str {
    r#"{"deposit":"oai:a:1","sets":[],"records":{"oai_dc":[["title","T"]],"marc21":"<record xmlns='http://www.loc.gov/MARC21/slim'/>"},"about":{"oai_dc":["<r:a xmlns:r='u'/>","<b xmlns='v'>\u00e9</b>"],"marc21":[]}}
{"about":{"oai_dc":["<a xmlns='u'/>"]},"records":{"oai_dc":"<d:dc xmlns:d='http://www.openarchives.org/OAI/2.0/oai_dc/'/>"},"sets":[],"deposit":"oai:a:2"}
{"deposit":"oai:a:3","sets":[],"records":{"oai_dc":[["title","T"]]},"about":{"oai_dc":["<a xmlns='u'/>"]}}
{"delete":"oai:a:3"}
"#
}

/// What they leave: `about` where there is something about a record.
fn about_dump() -> &'static str {
    r#"{"about":{"oai_dc":["<r:a xmlns:r=\"u\" xmlns=\"\"></r:a>","<b xmlns=\"v\">é</b>"]},"deposit":"oai:a:1","records":{"marc21":"<record xmlns=\"http://www.loc.gov/MARC21/slim\"></record>","oai_dc":[["title","T"]]},"sets":[]}
{"about":{"oai_dc":["<a xmlns=\"u\"></a>"]},"deposit":"oai:a:2","records":{"oai_dc":"<d:dc xmlns:d=\"http://www.openarchives.org/OAI/2.0/oai_dc/\" xmlns=\"\"></d:dc>"},"sets":[]}
{"deposit":"oai:a:3","records":{"oai_dc":[]},"sets":[]}
{"delete":"oai:a:3"}
"#
}

/// What is dumped about records is dumped again as it is.
#[test]
fn what_is_about_records_is_dumped_and_loaded_again(rt: HostRuntime) {
    let alloc = rt.alloc();
    assert_dump_of(&rt, alloc, element_body(), about_lines(), about_dump());
    assert_dump_of(&rt, alloc, element_body(), about_dump(), about_dump());
}

/// A put that is sent again leaves one deposit, and a deposit of the item as it is leaves it.
#[test]
fn puts_are_recorded(rt: HostRuntime) {
    let alloc = rt.alloc();
    let lines = r#"{"put":"oai:a:1","sets":[],"records":{"oai_dc":[["title","T"]]}}
{"put":"oai:a:1","sets":[],"records":{"oai_dc":[["title","T"]]}}
{"put":"oai:a:1","sets":[],"records":{"oai_dc":[["title","U"]]}}
"#;
    let dump = r#"{"deposit":"oai:a:1","records":{"oai_dc":[["title","U"]]},"sets":[]}
"#;
    assert_dump_of(&rt, alloc, element_body(), lines, dump);
    assert_old_dump_of(&rt, alloc, lines, "");
}

/// An element, which a journal of version 1 refuses as it was refused then, and a list.
fn lines_of_both() -> &'static str {
    r#"{"deposit":"oai:a:1","sets":[],"records":{"oai_dc":"<dc xmlns='http://www.openarchives.org/OAI/2.0/oai_dc/'/>"}}
{"deposit":"oai:a:2","sets":[],"records":{"oai_dc":[["title","T"]]}}
"#
}

#[test]
fn journals_of_version_1_have_no_elements(rt: HostRuntime) {
    let alloc = rt.alloc();
    let element =
        r#"{"deposit":"oai:a:1","records":{"oai_dc":"<dc xmlns=\"http://www.openarchives.org/OAI/2.0/oai_dc/\"></dc>"},"sets":[]}
{"deposit":"oai:a:2","records":{"oai_dc":[["title","T"]]},"sets":[]}
"#;
    assert_dump_of(&rt, alloc, first_body(), lines_of_both(), element);
    let list = r#"{"deposit":"oai:a:2","records":{"oai_dc":[["title","T"]]},"sets":[]}
"#;
    assert_old_dump_of(&rt, alloc, lines_of_both(), list);
}

/// A start on a journal of version 1, with the configuration in the text, whose first record would have that body,
/// makes these calls.
fn assert_calls(rt: &impl Abort, alloc: Global, body: &'static [u8], text: &[u8], calls: &str) {
    let old = old_body(rt, alloc);
    let outset = Outset {
        other: Some(old.as_str()),
        body,
        ..with_journal()
    };
    assert_waits(rt, alloc, outset, text, calls);
}

/// It is gone on with, and that is reported; with a format that has no fields the server goes on by a checkpoint.
#[test]
fn starts_on_journals_of_version_1(rt: HostRuntime) {
    let alloc = rt.alloc();
    let goes_on = "lock listen find open pages recovered old announce ";
    assert_calls(&rt, alloc, first_body(), configuration(), goes_on);
    let by_a_checkpoint =
        "lock listen find open pages recovered begin begun pages recovered keep other announce ";
    assert_calls(
        &rt,
        alloc,
        element_body(),
        element_configuration(),
        by_a_checkpoint,
    );
}
