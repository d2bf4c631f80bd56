//! An archive whose records may be elements, found after a crash: each record is of the kind that it was.
use crate::archives::{MemoryArchive, Setting, assert_told, worked};
use oai_item::Forms;
use std::alloc::Global;
use std::process::Abort;

/// An element and a list of each format, a text that is no element, and a list of a field without a name.
fn deposits() -> &'static str {
    r#"> 1704067207 POST /deposit/a | - | {"deposit":"oai:a:1","sets":[],"records":{"oai_dc":[["title","<T>"]],"jnl":"<article xmlns='http://host.example/jnl/' xml:lang='de'><b/>&lt;</article>"}}¶{"deposit":"oai:a:2","sets":[],"records":{"oai_dc":"<o:dc xmlns:o='http://www.openarchives.org/OAI/2.0/oai_dc/'>é</o:dc>","jnl":[["volume","<b/>"]]}}¶{"deposit":"oai:a:2","sets":[],"records":{"oai_dc":"<dc>"}}¶{"deposit":"oai:a:2","sets":[],"records":{"oai_dc":[["","<dc/>"]]}}
200
ok 2024-01-01T00:00:07Z
ok 2024-01-01T00:00:07Z
refused 20 bad-xml 4
refused 9 unknown-field"#
}

/// The records, before the crash and behind it.
fn records() -> &'static str {
    r#"> 1704067207 GET /oai/a?verb=ListRecords&metadataPrefix=jnl
200
DOC <responseDate>2024-01-01T00:00:07Z</responseDate><request verb="ListRecords" metadataPrefix="jnl">http://host.example/oai/a</request><ListRecords><record><header><identifier>oai:a:1</identifier><datestamp>2024-01-01T00:00:07Z</datestamp></header><metadata><article xmlns="http://host.example/jnl/" xml:lang="de"><b></b>&lt;</article></metadata></record><record><header><identifier>oai:a:2</identifier><datestamp>2024-01-01T00:00:07Z</datestamp></header><metadata><article xmlns="http://host.example/jnl/" xmlns:xsi="http://www.w3.org/2001/XMLSchema-instance" xsi:schemaLocation="http://host.example/jnl/ http://host.example/jnl.xsd"><volume>&lt;b/&gt;</volume></article></metadata></record></ListRecords></OAI-PMH>
> 1704067207 GET /oai/a?verb=ListRecords&metadataPrefix=oai_dc
200
DOC <responseDate>2024-01-01T00:00:07Z</responseDate><request verb="ListRecords" metadataPrefix="oai_dc">http://host.example/oai/a</request><ListRecords><record><header><identifier>oai:a:1</identifier><datestamp>2024-01-01T00:00:07Z</datestamp></header><metadata>{dc}<dc:title>&lt;T&gt;</dc:title></oai_dc:dc></metadata></record><record><header><identifier>oai:a:2</identifier><datestamp>2024-01-01T00:00:07Z</datestamp></header><metadata><o:dc xmlns:o="http://www.openarchives.org/OAI/2.0/oai_dc/" xmlns="">é</o:dc></metadata></record></ListRecords></OAI-PMH>"#
}

/// What is deposited has these records, before a crash of the archive and behind it.
fn assert_found(rt: &impl Abort, alloc: Global, archive: &mut MemoryArchive) {
    assert_told(rt, alloc, archive, deposits());
    assert_told(rt, alloc, archive, records());
    archive.crash(rt);
    assert_told(rt, alloc, archive, records());
}

#[test]
fn elements_are_found_after_a_crash(rt: HostRuntime) {
    let setting = Setting {
        forms: Forms::Elements,
        ..worked(1)
    };
    let mut archive = MemoryArchive::begun(&rt, rt.alloc(), setting);
    assert_found(&rt, rt.alloc(), &mut archive);
}
