//! Each document by its whole bytes.
ghost use Rattle.std.specs.Prelude.{◌≡◌, ◌≢◌, [], true};
ghost use Rattle.oai_item.specs.Item.{IsStamp, are_rising};
ghost use Rattle.oai_answers.specs.Answers.{HasWritableEnd, HasWritableTimes, IsWritableDocument};
ghost use Rattle.oai_answers.specs.Borrowed.{body_answer, continuation_of, document_of};

mod expected;

use crate::assertions::{assert_same, assert_same_at};
use oai_answers::{
    Body, DeletedRecord, DescribedSets, Doc, ErrorCode, Extent, Identity, Listed, Offered, Record,
    Remaining, RequestAttributes, Resumption, write_document,
};
use oai_item::{Field, Format, Formats, Item};
use oai_names::{Identifier, Prefix, Sequence, SetSpec, Text};
use oai_time::Granularity;
use oai_xml::{ElementTexts, NamedElements};
use std::alloc::Global;
use std::panic::Expect;
use std::process::Abort;

/// 2024-01-01T00:00:00Z.
const DATE: i64 = 1_704_067_200;

/// The base URL.
const BASE: &str = "http://host.example/oai/a";

/// Markup, and other characters that are written in more than one way.
const MARKUP: &str = "&<>\"'\r\t\né𝄞";

/// The document is spelled so.
fn assert_document(rt: &impl Abort, alloc: Global, doc: &Doc<'_>, wanted: &str)
    requires { IsWritableDocument (document_of doc.now) }
{
    let mut written = Vec::new(alloc);
    write_document(alloc, doc, &mut written).expect(rt, "write_document");
    let wanted = wanted.replace(alloc, '→', "\t").expect(rt, "replace");
    assert_same_at(rt, written.as_slice(), wanted.as_bytes(), wanted.as_str());
}

/// The answer to the arguments, at the date and the base URL, is spelled so.
fn assert_answer(
    rt: &impl Abort,
    alloc: Global,
    asked: RequestAttributes<'_>,
    body: Body<'_>,
    wanted: &str,
)
    requires { HasWritableTimes (body_answer body) }
{
    let doc = Doc {
        date: DATE,
        base: BASE,
        asked,
        body,
    };
    assert_document(rt, alloc, &doc, wanted);
}

/// The answer, where markup stands in the base URL and in each argument, is spelled so.
fn assert_escaped(rt: &impl Abort, alloc: Global, body: Body<'_>, wanted: &str)
    requires { HasWritableTimes (body_answer body) }
{
    let doc = Doc {
        date: DATE,
        base: MARKUP,
        asked: all_of(MARKUP),
        body,
    };
    assert_document(rt, alloc, &doc, wanted);
}

/// The verb alone.
fn verb(name: &str) -> RequestAttributes<'_> {
    RequestAttributes {
        verb: Some(name),
        ..RequestAttributes::nothing()
    }
}

/// An item, or all, in the format of that prefix.
fn in_format<'a>(
    name: &'a str,
    identifier: Option<&'a str>,
    prefix: &'a str,
) -> RequestAttributes<'a> {
    RequestAttributes {
        identifier,
        prefix: Some(prefix),
        ..verb(name)
    }
}

/// All arguments, each of that text.
fn all_of(text: &str) -> RequestAttributes<'_> {
    RequestAttributes {
        verb: Some(text),
        identifier: Some(text),
        prefix: Some(text),
        from: Some(text),
        until: Some(text),
        set: Some(text),
        token: Some(text),
    }
}

/// The setSpecs.
fn set_specs(rt: &impl Abort, alloc: Global, specs: &[&str]) -> Sequence<SetSpec> {
    let mut sets = Vec::new(alloc);
    for spec in specs {
        sets.push(SetSpec::read(alloc, spec).expect(rt, "SetSpec::read"))
            .expect(rt, "memory");
    }
    Sequence::new(sets)
}

/// The fields, each its name and its text.
fn fields(rt: &impl Abort, alloc: Global, named: &[(&str, &str)]) -> Sequence<Field> {
    let mut fields = Vec::new(alloc);
    for (name, text) in named {
        fields
            .push(Field {
                name: Text::new(alloc, name).expect(rt, "memory"),
                text: Text::new(alloc, text).expect(rt, "memory"),
            })
            .expect(rt, "memory");
    }
    Sequence::new(fields)
}

/// The record in oai_dc of these fields.
fn one_record(
    rt: &impl Abort,
    alloc: Global,
    named: &[(&str, &str)],
) -> Sequence<(Prefix, Sequence<Field>)>
    ensures rising { are_rising result ≡ true }
    ensures carries { result ≢ [] }
{
    let mut formats = Vec::new(alloc);
    formats
        .push((
            Prefix::read(alloc, "oai_dc").expect(rt, "Prefix::read"),
            fields(rt, alloc, named),
        ))
        .expect(rt, "memory");
    Sequence::new(formats)
}

/// `oai:a:1`, in no sets, with these fields in oai_dc.
fn dublin_core(rt: &impl Abort, alloc: Global, named: &[(&str, &str)]) -> Item {
    let formats = one_record(rt, alloc, named);
    let identifier = Identifier::read(alloc, "oai:a:1").expect(rt, "Identifier::read");
    let sets = Sequence::new(Vec::new(alloc));
    Item::live(alloc, identifier, DATE, sets, formats).expect(rt, "Item::live")
}

/// Records in jnl, with that volume, and in oai_dc, with a title.
fn two_records(rt: &impl Abort, alloc: Global, volume: &str) -> Sequence<(Prefix, Sequence<Field>)>
    ensures rising { are_rising result ≡ true }
    ensures carries { result ≢ [] }
{
    let journal = Prefix::read(alloc, "jnl").expect(rt, "Prefix::read");
    let dublin_core = Prefix::read(alloc, "oai_dc").expect(rt, "Prefix::read");
    let in_journal = fields(rt, alloc, &[("volume", volume)]);
    let in_dublin_core = fields(rt, alloc, &[("title", "T")]);
    let mut formats = Vec::new(alloc);
    formats.push((journal, in_journal)).expect(rt, "memory");
    formats
        .push((dublin_core, in_dublin_core))
        .expect(rt, "memory");
    Sequence::new(formats)
}

/// An item of that identifier and datestamp, in these sets, with that volume in jnl and a
/// title in oai_dc.
fn in_journal(
    rt: &impl Abort,
    alloc: Global,
    identifier: &str,
    stamp: i64,
    specs: &[&str],
    volume: &str,
) -> Item
    requires { IsStamp stamp }
{
    let identifier = Identifier::read(alloc, identifier).expect(rt, "Identifier::read");
    let sets = set_specs(rt, alloc, specs);
    let formats = two_records(rt, alloc, volume);
    Item::live(alloc, identifier, stamp, sets, formats).expect(rt, "Item::live")
}

/// `oai:a:2`, deleted a second after the date, in two sets, with records in jnl and in oai_dc.
fn deleted(rt: &impl Abort, alloc: Global) -> Item {
    let item = in_journal(rt, alloc, "oai:a:2", DATE, &["x:y", "z"], "7");
    item.tombstone(alloc, DATE + 1).expect(rt, "tombstone")
}

/// The field of a format, `volume`.
fn volume(rt: &impl Abort, alloc: Global) -> Sequence<Text> {
    let mut fields = Vec::new(alloc);
    fields
        .push(Text::new(alloc, "volume").expect(rt, "memory"))
        .expect(rt, "memory");
    Sequence::new(fields)
}

/// A format of this prefix, with these texts.
fn format(rt: &impl Abort, alloc: Global, prefix: &str, schema: &str, namespace: &str) -> Format {
    Format {
        prefix: Prefix::read(alloc, prefix).expect(rt, "Prefix::read"),
        schema: Text::new(alloc, schema).expect(rt, "memory"),
        namespace: Text::new(alloc, namespace).expect(rt, "memory"),
        root: Text::new(alloc, "article").expect(rt, "memory"),
        fields: volume(rt, alloc),
    }
}

/// The format jnl.
fn journal(rt: &impl Abort, alloc: Global) -> Format {
    format(
        rt,
        alloc,
        "jnl",
        "http://host.example/jnl.xsd",
        "http://host.example/jnl/",
    )
}

/// Where a part stands in its list.
fn at(cursor: u64, size: u64) -> Extent {
    Extent { size, cursor }
}

/// The texts.
fn texts(rt: &impl Abort, alloc: Global, all: &[&str]) -> Vec<Text> {
    let mut texts = Vec::new(alloc);
    for text in all {
        let text = Text::new(alloc, text).expect(rt, "memory");
        texts.push(text).expect(rt, "memory");
    }
    texts
}

/// Identify, with these addresses and these elements that describe the repository, is spelled so.
fn assert_identify(
    rt: &impl Abort,
    alloc: Global,
    identity: Identity<'_>,
    addresses: &[&str],
    descriptions: &[&str],
    wanted: &str,
)
    requires { IsStamp identity.earliest }
{
    let addresses = texts(rt, alloc, addresses);
    let descriptions = texts(rt, alloc, descriptions);
    let identity = Identity {
        addresses: addresses.as_slice(),
        descriptions: descriptions.as_slice(),
        ..identity
    };
    let body = Body::Identify(identity);
    assert_answer(rt, alloc, verb("Identify"), body, wanted);
}

/// The identity of Archive A.
fn archive_a() -> Identity<'static>
    ensures { IsStamp result.earliest }
{
    Identity {
        name: "Archive A",
        addresses: &[],
        earliest: DATE,
        deleted: DeletedRecord::Persistent,
        granularity: Granularity::Second,
        descriptions: &[],
    }
}

#[test]
fn identify(rt: HostRuntime) {
    let addresses = ["a@host.example"];
    let wanted = expected::identify();
    assert_identify(&rt, rt.alloc(), archive_a(), &addresses, &[], wanted);
}

#[test]
fn identify_of_days(rt: HostRuntime) {
    let identity = Identity {
        name: "Archive B",
        earliest: DATE + 86_399,
        deleted: DeletedRecord::No,
        granularity: Granularity::Day,
        ..archive_a()
    };
    let addresses = ["b@host.example", "c@host.example"];
    let wanted = expected::identify_of_days();
    assert_identify(&rt, rt.alloc(), identity, &addresses, &[], wanted);
}

/// Two elements in containers, behind `granularity`, as they stand.
#[test]
fn identify_described(rt: HostRuntime) {
    let descriptions = [
        r#"<a xmlns="u" b="&quot;">&lt;</a>"#,
        r#"<p:c xmlns:p="v" xmlns=""></p:c>"#,
    ];
    let wanted = expected::identify_described();
    assert_identify(&rt, rt.alloc(), archive_a(), &[], &descriptions, wanted);
}

#[test]
fn identify_transient(rt: HostRuntime) {
    let identity = Identity {
        name: "",
        earliest: -62_167_219_200,
        deleted: DeletedRecord::Transient,
        ..archive_a()
    };
    let wanted = expected::identify_transient();
    assert_identify(&rt, rt.alloc(), identity, &[], &[], wanted);
}

/// All eight errors. All arguments were given; two of the errors repeat none.
#[test]
fn errors(rt: HostRuntime) {
    let asked = RequestAttributes {
        verb: Some("GetRecord"),
        identifier: Some("i"),
        prefix: Some("p"),
        from: Some("f"),
        until: Some("u"),
        set: Some("s"),
        token: Some("t"),
    };
    let all = [
        (ErrorCode::BadVerb, expected::bad_verb()),
        (ErrorCode::BadArgument, expected::bad_argument()),
        (
            ErrorCode::BadResumptionToken,
            expected::bad_resumption_token(),
        ),
        (
            ErrorCode::CannotDisseminateFormat,
            expected::cannot_disseminate_format(),
        ),
        (ErrorCode::IdDoesNotExist, expected::id_does_not_exist()),
        (ErrorCode::NoRecordsMatch, expected::no_records_match()),
        (
            ErrorCode::NoMetadataFormats,
            expected::no_metadata_formats(),
        ),
        (ErrorCode::NoSetHierarchy, expected::no_set_hierarchy()),
    ];
    for (code, wanted) in all {
        assert_answer(&rt, rt.alloc(), asked, Body::Error(code), wanted);
    }
}

/// Of oai_dc and jnl, the formats that are listed, all or those of an item, are spelled so.
fn assert_formats(
    rt: &impl Abort,
    alloc: Global,
    asked: RequestAttributes<'_>,
    of: Option<&Item>,
    wanted: &str,
) {
    let mut formats = Formats::dc(alloc).expect(rt, "Formats::dc");
    formats.declare(journal(rt, alloc)).expect(rt, "declare");
    let body = Body::ListMetadataFormats(Offered {
        formats: formats.as_slice(),
        of,
    });
    assert_answer(rt, alloc, asked, body, wanted);
}

#[test]
fn formats(rt: HostRuntime) {
    let asked = verb("ListMetadataFormats");
    assert_formats(&rt, rt.alloc(), asked, None, expected::all_formats());
}

#[test]
fn formats_of_an_item(rt: HostRuntime) {
    let alloc = rt.alloc();
    let item = dublin_core(&rt, alloc, &[]);
    let asked = RequestAttributes {
        identifier: Some("oai:a:1"),
        ..verb("ListMetadataFormats")
    };
    assert_formats(
        &rt,
        alloc,
        asked,
        Some(&item),
        expected::formats_of_an_item(),
    );
}

/// A set, its setSpec and its name.
fn set(rt: &impl Abort, alloc: Global, spec: &str, name: &str) -> (SetSpec, Text) {
    (
        SetSpec::read(alloc, spec).expect(rt, "SetSpec::read"),
        Text::new(alloc, name).expect(rt, "memory"),
    )
}

#[test]
fn sets(rt: HostRuntime) {
    let alloc = rt.alloc();
    let sets = [set(&rt, alloc, "x", "X & Y"), set(&rt, alloc, "x:y", "Y")];
    let described = NamedElements::new(alloc);
    let body = Body::ListSets(DescribedSets {
        sets: &sets,
        described: &described,
    });
    assert_answer(&rt, alloc, verb("ListSets"), body, expected::sets());
}

/// What describes a set stands behind its name, and behind no other set's.
#[test]
fn described_sets(rt: HostRuntime) {
    let alloc = rt.alloc();
    let sets = [set(&rt, alloc, "x", "X & Y"), set(&rt, alloc, "x:y", "Y")];
    let texts = [
        Text::new(alloc, r#"<a xmlns="u"/>"#).expect(&rt, "memory"),
        Text::new(alloc, "<b/>").expect(&rt, "memory"),
    ];
    let elements = ElementTexts::read(alloc, &texts).expect(&rt, "ElementTexts::read");
    let mut described = NamedElements::new(alloc);
    let name = Text::new(alloc, "x").expect(&rt, "memory");
    described.push(name, elements).expect(&rt, "memory");
    let body = Body::ListSets(DescribedSets {
        sets: &sets,
        described: &described,
    });
    assert_answer(
        &rt,
        alloc,
        verb("ListSets"),
        body,
        expected::described_sets(),
    );
}

/// So many bytes that they are more than a megabyte.
const MUCH: usize = 1_048_577;

/// A document is written behind what is there, however much that is.
#[test]
fn document_behind_much(rt: HostRuntime) {
    let alloc = rt.alloc();
    let sets = [set(&rt, alloc, "x", "X & Y"), set(&rt, alloc, "x:y", "Y")];
    let described = NamedElements::new(alloc);
    let doc = Doc {
        date: DATE,
        base: BASE,
        asked: verb("ListSets"),
        body: Body::ListSets(DescribedSets {
            sets: &sets,
            described: &described,
        }),
    };
    let mut written = bytes(&rt, alloc, MUCH);
    write_document(alloc, &doc, &mut written).expect(&rt, "write_document");
    assert_same(&rt, written.get(MUCH..), Some(expected::sets().as_bytes()));
}

/// So many bytes.
fn bytes(rt: &impl Abort, alloc: Global, count: usize) -> Vec<u8> {
    let mut bytes = Vec::new(alloc);
    for _ in 0..count {
        bytes.push(b'-').expect(rt, "memory");
    }
    bytes
}

/// The record in oai_dc of the item `oai:a:1` is spelled so.
fn assert_record(
    rt: &impl Abort,
    alloc: Global,
    item: &Item,
    granularity: Granularity,
    wanted: &str,
) {
    let formats = Formats::dc(alloc).expect(rt, "Formats::dc");
    let Some(format) = formats.get(0) else {
        panic!(rt; "no format");
    };
    let body = Body::GetRecord(Record {
        item,
        granularity,
        format,
    });
    let asked = in_format("GetRecord", Some("oai:a:1"), "oai_dc");
    assert_answer(rt, alloc, asked, body, wanted);
}

#[test]
fn first_record(rt: HostRuntime) {
    let item = dublin_core(&rt, rt.alloc(), &[("title", "A & B < \"C\" é")]);
    let second = Granularity::Second;
    assert_record(&rt, rt.alloc(), &item, second, expected::first_record());
}

#[test]
fn record_without_fields(rt: HostRuntime) {
    let item = dublin_core(&rt, rt.alloc(), &[]);
    let day = Granularity::Day;
    assert_record(
        &rt,
        rt.alloc(),
        &item,
        day,
        expected::record_without_fields(),
    );
}

/// The record in jnl of the item `oai:a:2` is spelled so.
fn assert_record_in_journal(rt: &impl Abort, alloc: Global, item: &Item, wanted: &str) {
    let format = journal(rt, alloc);
    let body = Body::GetRecord(Record {
        item,
        granularity: Granularity::Second,
        format: &format,
    });
    let asked = in_format("GetRecord", Some("oai:a:2"), "jnl");
    assert_answer(rt, alloc, asked, body, wanted);
}

#[test]
fn declared_record(rt: HostRuntime) {
    let alloc = rt.alloc();
    let item = in_journal(&rt, alloc, "oai:a:2", DATE, &["x:y", "z"], "7");
    assert_record_in_journal(&rt, alloc, &item, expected::declared_record());
}

/// The bytes of that item, as it is stored.
fn stored_bytes() -> &'static [u8] {
    b"\x01\x00\x00\x00\x00\x65\x92\x00\x80\x00\x00\x00\x07oai:a:2\x00\x00\x00\x02\x00\x00\x00\x03x:y\x00\x00\x00\x01z\x00\x00\x00\x02\x00\x00\x00\x03jnl\x00\x00\x00\x01\x00\x00\x00\x06volume\x00\x00\x00\x017\x00\x00\x00\x06oai_dc\x00\x00\x00\x01\x00\x00\x00\x05title\x00\x00\x00\x01T"
}

#[test]
fn declared_record_of_a_stored_item(rt: HostRuntime) {
    let alloc = rt.alloc();
    let item = Item::decode(alloc, stored_bytes()).expect(&rt, "Item::decode");
    assert_record_in_journal(&rt, alloc, &item, expected::declared_record());
}

#[test]
fn deleted_record(rt: HostRuntime) {
    let item = deleted(&rt, rt.alloc());
    assert_record_in_journal(&rt, rt.alloc(), &item, expected::deleted_record());
}

/// The headers of the items, as the whole list and as the front of three, are spelled so.
fn assert_headers(rt: &impl Abort, alloc: Global, items: &[Item]) {
    let whole = Listed {
        items,
        granularity: Granularity::Second,
        resumption: Resumption::Whole,
    };
    let asked = in_format("ListIdentifiers", None, "oai_dc");
    let body = Body::ListIdentifiers(whole);
    assert_answer(rt, alloc, asked, body, expected::headers());
    let resumption = Resumption::More(Remaining {
        expires: DATE + 61,
        extent: at(0, 3),
        token: "1.2",
    });
    let first = Listed {
        resumption,
        ..whole
    };
    let body = Body::ListIdentifiers(first);
    assert_answer(rt, alloc, asked, body, expected::headers_that_go_on());
}

#[test]
fn headers(rt: HostRuntime) {
    let alloc = rt.alloc();
    let items = [
        dublin_core(&rt, alloc, &[]),
        in_journal(&rt, alloc, "oai:a:2", DATE + 1, &["x:y", "z"], "7"),
    ];
    assert_headers(&rt, alloc, &items);
}

#[test]
fn last_headers(rt: HostRuntime) {
    let alloc = rt.alloc();
    let items = [deleted(&rt, alloc)];
    let last = Listed {
        items: &items,
        granularity: Granularity::Second,
        resumption: Resumption::Last(at(2, 3)),
    };
    let asked = RequestAttributes {
        token: Some("1.2"),
        ..verb("ListIdentifiers")
    };
    let body = Body::ListIdentifiers(last);
    assert_answer(&rt, alloc, asked, body, expected::last_headers());
}

/// The records of the items in oai_dc, as such a part of the list, are spelled so.
fn assert_records(
    rt: &impl Abort,
    alloc: Global,
    asked: RequestAttributes<'_>,
    items: &[Item],
    resumption: Resumption<'_>,
    wanted: &str,
)
    requires { HasWritableEnd (continuation_of resumption) }
{
    let formats = Formats::dc(alloc).expect(rt, "Formats::dc");
    let Some(format) = formats.get(0) else {
        panic!(rt; "no format");
    };
    let part = Listed {
        items,
        granularity: Granularity::Second,
        resumption,
    };
    assert_answer(rt, alloc, asked, Body::ListRecords(format, part), wanted);
}

#[test]
fn records(rt: HostRuntime) {
    let alloc = rt.alloc();
    let items = [
        dublin_core(&rt, alloc, &[("title", "A & B < \"C\" é")]),
        deleted(&rt, alloc),
    ];
    let asked = in_format("ListRecords", None, "oai_dc");
    let whole = Resumption::Whole;
    assert_records(&rt, alloc, asked, &items, whole, expected::records());
}

/// The records of the items in jnl, as the part of a long list behind ten, are spelled so.
fn assert_records_of_days(rt: &impl Abort, alloc: Global, items: &[Item]) {
    let format = journal(rt, alloc);
    let resumption = Resumption::More(Remaining {
        expires: DATE + 61,
        extent: at(10, 18_446_744_073_709_551_615),
        token: "1.2",
    });
    let part = Listed {
        items,
        granularity: Granularity::Day,
        resumption,
    };
    let asked = in_format("ListRecords", None, "jnl");
    let body = Body::ListRecords(&format, part);
    assert_answer(rt, alloc, asked, body, expected::records_of_days());
}

#[test]
fn records_of_days(rt: HostRuntime) {
    let items = [in_journal(&rt, rt.alloc(), "oai:a:2", DATE, &["x:y", "z"], "7")];
    assert_records_of_days(&rt, rt.alloc(), &items);
}

#[test]
fn last_records(rt: HostRuntime) {
    let alloc = rt.alloc();
    let items = [dublin_core(
        &rt,
        alloc,
        &[("title", "T"), ("creator", "C"), ("title", "")],
    )];
    let asked = RequestAttributes {
        token: Some("1.100"),
        ..verb("ListRecords")
    };
    let last = Resumption::Last(at(100, 101));
    assert_records(&rt, alloc, asked, &items, last, expected::last_records());
}

#[test]
fn escaped_identify(rt: HostRuntime) {
    let alloc = rt.alloc();
    let addresses = [Text::new(alloc, MARKUP).expect(&rt, "memory")];
    let body = Body::Identify(Identity {
        name: MARKUP,
        addresses: &addresses,
        earliest: DATE,
        deleted: DeletedRecord::No,
        granularity: Granularity::Day,
        descriptions: &[],
    });
    assert_escaped(&rt, alloc, body, expected::escaped_identify());
}

#[test]
fn escaped_formats(rt: HostRuntime) {
    let alloc = rt.alloc();
    let formats = [format(&rt, alloc, "a'b", MARKUP, MARKUP)];
    let body = Body::ListMetadataFormats(Offered {
        formats: &formats,
        of: None,
    });
    assert_escaped(&rt, alloc, body, expected::escaped_formats());
}

#[test]
fn escaped_sets(rt: HostRuntime) {
    let alloc = rt.alloc();
    let sets = [set(&rt, alloc, "x'y", MARKUP)];
    let described = NamedElements::new(alloc);
    let body = Body::ListSets(DescribedSets {
        sets: &sets,
        described: &described,
    });
    assert_escaped(&rt, alloc, body, expected::escaped_sets());
}

/// The records of the items in a format with markup, before a token with markup, are spelled so.
fn assert_escaped_records(rt: &impl Abort, alloc: Global, items: &[Item]) {
    let format = format(rt, alloc, "jnl", MARKUP, MARKUP);
    let resumption = Resumption::More(Remaining {
        expires: 253_402_300_799,
        extent: at(0, 0),
        token: MARKUP,
    });
    let part = Listed {
        items,
        granularity: Granularity::Second,
        resumption,
    };
    let body = Body::ListRecords(&format, part);
    assert_escaped(rt, alloc, body, expected::escaped_records());
}

/// Markup stands in the parts of a record, in its format and in a token.
#[test]
fn escaped_records(rt: HostRuntime) {
    let items = [in_journal(&rt, rt.alloc(), "a:&'1", DATE, &["x'y"], MARKUP)];
    assert_escaped_records(&rt, rt.alloc(), &items);
}

/// What stood in the buffer stays in front of the document.
#[test]
fn front_of_the_buffer_stays(rt: HostRuntime) {
    let alloc = rt.alloc();
    let doc = Doc {
        date: DATE,
        base: BASE,
        asked: RequestAttributes::nothing(),
        body: Body::Error(ErrorCode::BadVerb),
    };
    let mut written = Vec::new(alloc);
    written.extend_from_slice(b"front").expect(&rt, "memory");
    write_document(alloc, &doc, &mut written).expect(&rt, "write_document");
    let mut wanted = String::from_str(alloc, "front").expect(&rt, "memory");
    wanted.push_str(expected::bad_verb()).expect(&rt, "memory");
    assert_same(&rt, written.as_slice(), wanted.as_bytes());
}
