//! A script of all that three repositories are asked for: each verb, each change, a list that is followed while its records
//! change, a table of open lists that is full, and an empty one. It is made over stores and devices of which a call fails.
use std::alloc::{AllocError, Global};

/// A form of the script.
#[derive(Clone, Copy)]
pub struct Form {
    /// How many letters the title of the first item has.
    pub letters: usize,
    /// On how many pages the items stand at the end: those of the first repository, which its open list names too; the others
    /// have none.
    pub pages: usize,
}

/// The script with a short title: the three items stand on one page.
pub fn short() -> Form {
    Form {
        letters: 1,
        pages: 1,
    }
}

/// The script with a title of 20,000 letters: its item has a page and two overflow pages, and the two others stand on one page
/// behind it.
pub fn long() -> Form {
    Form {
        letters: 20_000,
        pages: 4,
    }
}

/// The script in that form. The error is out of memory.
pub fn script(alloc: Global, form: Form) -> Result<String, AllocError> {
    let mut title = String::new(alloc);
    for _ in 0..form.letters {
        title.push('T')?;
    }
    let mut whole = String::new(alloc);
    for part in [deposits(), requests(), changes(), lists()] {
        let part = part.replace(alloc, "{t}", title.as_str())?;
        whole.push_str(part.as_str())?;
    }
    Ok(whole)
}

/// A set and four items.
fn deposits() -> &'static str {
    r#"> 1704067200 POST /deposit/a | - | {"set":"x","name":"X"}
200
ok 2024-01-01T00:00:00Z
> 1704067200 POST /deposit/a | - | {"deposit":"oai:a:1","sets":["x"],"records":{"oai_dc":[["title","{t}"]]}}
200
ok 2024-01-01T00:00:00Z
> 1704067200 POST /deposit/a | - | {"deposit":"oai:a:2","sets":[],"records":{"oai_dc":[]}}
200
ok 2024-01-01T00:00:00Z
> 1704067201 POST /deposit/a | - | {"deposit":"oai:a:3","sets":[],"records":{"oai_dc":[]}}
200
ok 2024-01-01T00:00:01Z
> 1704067201 POST /deposit/b | - | {"deposit":"oai:b:1","sets":[],"records":{"oai_dc":[]}}
200
ok 2024-01-01
"#
}

/// What the first repository is, a record, and the first part of a list.
fn requests() -> &'static str {
    r#"> 1704067201 GET /oai/a?verb=Identify
200
DOC <responseDate>2024-01-01T00:00:01Z</responseDate><request verb="Identify">http://host.example/oai/a</request><Identify><repositoryName>Archive A</repositoryName><baseURL>http://host.example/oai/a</baseURL><protocolVersion>2.0</protocolVersion><adminEmail>a@host.example</adminEmail><earliestDatestamp>2024-01-01T00:00:00Z</earliestDatestamp><deletedRecord>persistent</deletedRecord><granularity>YYYY-MM-DDThh:mm:ssZ</granularity></Identify></OAI-PMH>
> 1704067201 GET /oai/a?verb=ListSets
200
DOC <responseDate>2024-01-01T00:00:01Z</responseDate><request verb="ListSets">http://host.example/oai/a</request><ListSets><set><setSpec>x</setSpec><setName>X</setName></set></ListSets></OAI-PMH>
> 1704067201 GET /oai/a?verb=ListMetadataFormats
200
DOC <responseDate>2024-01-01T00:00:01Z</responseDate><request verb="ListMetadataFormats">http://host.example/oai/a</request><ListMetadataFormats><metadataFormat><metadataPrefix>oai_dc</metadataPrefix><schema>http://www.openarchives.org/OAI/2.0/oai_dc.xsd</schema><metadataNamespace>http://www.openarchives.org/OAI/2.0/oai_dc/</metadataNamespace></metadataFormat><metadataFormat><metadataPrefix>jnl</metadataPrefix><schema>http://host.example/jnl.xsd</schema><metadataNamespace>http://host.example/jnl/</metadataNamespace></metadataFormat></ListMetadataFormats></OAI-PMH>
> 1704067201 GET /oai/a?verb=GetRecord&identifier=oai:a:1&metadataPrefix=oai_dc
200
DOC <responseDate>2024-01-01T00:00:01Z</responseDate><request verb="GetRecord" identifier="oai:a:1" metadataPrefix="oai_dc">http://host.example/oai/a</request><GetRecord><record><header><identifier>oai:a:1</identifier><datestamp>2024-01-01T00:00:00Z</datestamp><setSpec>x</setSpec></header><metadata>{dc}<dc:title>{t}</dc:title></oai_dc:dc></metadata></record></GetRecord></OAI-PMH>
> 1704067201 GET /oai/a?verb=ListRecords&metadataPrefix=oai_dc
200
DOC <responseDate>2024-01-01T00:00:01Z</responseDate><request verb="ListRecords" metadataPrefix="oai_dc">http://host.example/oai/a</request><ListRecords><record><header><identifier>oai:a:1</identifier><datestamp>2024-01-01T00:00:00Z</datestamp><setSpec>x</setSpec></header><metadata>{dc}<dc:title>{t}</dc:title></oai_dc:dc></metadata></record><record><header><identifier>oai:a:2</identifier><datestamp>2024-01-01T00:00:00Z</datestamp></header><metadata>{dc}</oai_dc:dc></metadata></record><resumptionToken expirationDate="2024-01-01T00:01:01Z" completeListSize="3" cursor="0">1.2</resumptionToken></ListRecords></OAI-PMH>
"#
}

/// Deletions, the other part of the list, which has its records as they were, a set, and a purge.
fn changes() -> &'static str {
    r#"> 1704067202 POST /deposit/a | - | {"delete":"oai:a:3"}
200
ok 2024-01-01T00:00:02Z
> 1704067202 POST /deposit/b | - | {"delete":"oai:b:1"}
200
ok 2024-01-01
> 1704067203 GET /oai/a?verb=ListRecords&resumptionToken=1.2
200
DOC <responseDate>2024-01-01T00:00:03Z</responseDate><request verb="ListRecords" resumptionToken="1.2">http://host.example/oai/a</request><ListRecords><record><header><identifier>oai:a:3</identifier><datestamp>2024-01-01T00:00:01Z</datestamp></header><metadata>{dc}</oai_dc:dc></metadata></record><resumptionToken completeListSize="3" cursor="2"></resumptionToken></ListRecords></OAI-PMH>
> 1704067203 GET /oai/a?verb=ListIdentifiers&metadataPrefix=oai_dc&set=x
200
DOC <responseDate>2024-01-01T00:00:03Z</responseDate><request verb="ListIdentifiers" metadataPrefix="oai_dc" set="x">http://host.example/oai/a</request><ListIdentifiers><header><identifier>oai:a:1</identifier><datestamp>2024-01-01T00:00:00Z</datestamp><setSpec>x</setSpec></header></ListIdentifiers></OAI-PMH>
> 1704067203 POST /deposit/c | - | {"deposit":"oai:c:1","sets":[],"records":{"oai_dc":[]}}
200
ok 2024-01-01T00:00:03Z
> 1704067204 POST /deposit/c | - | {"delete":"oai:c:1"}
200
ok 2024-01-01T00:00:04Z
> 1704067205 POST /deposit/c | - | {"purge":"2024-01-01T00:00:05Z"}
200
ok 2024-01-01T00:00:05Z
"#
}

/// A record that is not there; a list that has to wait until the other one ends, and is then opened.
fn lists() -> &'static str {
    r#"> 1704067205 GET /oai/a?verb=GetRecord&identifier=oai:a:9&metadataPrefix=oai_dc
200
DOC <responseDate>2024-01-01T00:00:05Z</responseDate><request verb="GetRecord" identifier="oai:a:9" metadataPrefix="oai_dc">http://host.example/oai/a</request><error code="idDoesNotExist">No item has this identifier.</error></OAI-PMH>
> 1704067262 GET /oai/a?verb=ListIdentifiers&metadataPrefix=oai_dc
503 after 1
> 1704067263 GET /oai/a?verb=ListIdentifiers&metadataPrefix=oai_dc
200
DOC <responseDate>2024-01-01T00:01:03Z</responseDate><request verb="ListIdentifiers" metadataPrefix="oai_dc">http://host.example/oai/a</request><ListIdentifiers><header><identifier>oai:a:1</identifier><datestamp>2024-01-01T00:00:00Z</datestamp><setSpec>x</setSpec></header><header><identifier>oai:a:2</identifier><datestamp>2024-01-01T00:00:00Z</datestamp></header><resumptionToken expirationDate="2024-01-01T00:02:03Z" completeListSize="3" cursor="0">2.2</resumptionToken></ListIdentifiers></OAI-PMH>
"#
}
