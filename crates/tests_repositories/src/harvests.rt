//! A harvester's copy of a repository of a host, which is harvested again and again by its documents: over plain
//! lists, and over pages in memory, as the program has them.
use crate::assertions::assert_same;
use crate::copies::assert_holds;
use crate::copy_samples::{Told, deleted, items, live};
use crate::records::push_records;
use oai_catalogue::{PlainVersions, Versions};
use oai_copy::Copy;
use oai_device::{MemoryDevice, PageDevice};
use oai_host::{Answer, Config, Exchange, Host, Target};
use oai_item::Forms;
use oai_startup::{config_in, host_on, host_over};
use std::alloc::Global;
use std::panic::Expect;
use std::process::Abort;
use std::str::from_utf8;
use tests_fixtures::worked_configuration;

/// 2024-01-01T00:00:00Z, at which the archive begins.
const BEGIN: i64 = 1_704_067_200;

/// The target of a request for all records, and of the one for those that do not fit into its first answer.
const ALL: &str = "/oai/a?verb=ListRecords&metadataPrefix=oai_dc";

const REST: &str = "/oai/a?verb=ListRecords&resumptionToken=1.2";

/// Those of requests for the records from the fifth second on, and from the seventh.
const FROM_5: &str = "/oai/a?verb=ListRecords&metadataPrefix=oai_dc&from=2024-01-01T00:00:05Z";

const FROM_7: &str = "/oai/a?verb=ListRecords&metadataPrefix=oai_dc&from=2024-01-01T00:00:07Z";

/// The deposit lines of three items, and the one that deletes the second.
const DEPOSIT_1: &str = r#"{"deposit":"oai:a:1","sets":[],"records":{"oai_dc":[]}}"#;

const DEPOSIT_2: &str = r#"{"deposit":"oai:a:2","sets":[],"records":{"oai_dc":[]}}"#;

const DEPOSIT_3: &str = r#"{"deposit":"oai:a:3","sets":[],"records":{"oai_dc":[]}}"#;

const DELETE_2: &str = r#"{"delete":"oai:a:2"}"#;

/// The worked configuration.
fn config(rt: &impl Abort, alloc: Global) -> Config {
    config_in(alloc, Forms::Fields, worked_configuration().as_bytes()).expect(rt, "config_in")
}

/// What the host answers at that second, with the status 200; a body is posted.
fn answered<'a, V: Versions + Drop>(
    rt: &impl Abort,
    host: &mut Host<V>,
    second: u8,
    target: &'a str,
    body: &'a str,
) -> Answer {
    let method: &[u8] = if body.is_empty() { b"GET" } else { b"POST" };
    let exchange = Exchange {
        method,
        target: Target::new(target.as_bytes()),
        content_type: None,
        authorization: None,
        body: body.as_bytes(),
    };
    let answer = host.exchange(BEGIN + i64::from(second), &exchange);
    assert_same(rt, answer.status.number(), 200);
    answer
}

/// The host takes the deposit line at that second.
fn deposit<V: Versions + Drop>(
    rt: &impl Abort,
    alloc: Global,
    host: &mut Host<V>,
    second: u8,
    line: &str,
) {
    let answer = answered(rt, host, second, "/deposit/a", line);
    let wanted = format!(in alloc; "ok 2024-01-01T00:00:0{second}Z\n").expect(rt, "memory");
    assert_same(rt, answer.body.as_slice(), wanted.as_bytes());
}

/// The copy catches up with the records of the document.
fn catch_up(rt: &impl Abort, alloc: Global, copy: &mut Copy, document: &str) {
    let mut records = Vec::new(alloc);
    push_records(rt, document, &mut records);
    let harvest = items(rt, alloc, records.as_slice());
    copy.catch_up(harvest.as_slice())
        .expect(rt, "Copy::catch_up");
}

/// The copy catches up with the records of the answer.
fn catch_up_with(rt: &impl Abort, alloc: Global, copy: &mut Copy, answer: &Answer) {
    let document = from_utf8(answer.body.as_slice()).expect(rt, "from_utf8");
    catch_up(rt, alloc, copy, document);
}

/// Whether the answer is a document with a resumptionToken.
fn has_token(rt: &impl Abort, answer: &Answer) -> bool {
    from_utf8(answer.body.as_slice())
        .expect(rt, "from_utf8")
        .contains("<resumptionToken ")
}

/// The copy catches up with what the host answers to a request of that target at that second, which is whole.
fn harvest<V: Versions + Drop>(
    rt: &impl Abort,
    alloc: Global,
    host: &mut Host<V>,
    copy: &mut Copy,
    second: u8,
    target: &str,
) {
    let answer = answered(rt, host, second, target, "");
    assert_same(rt, has_token(rt, &answer), false);
    catch_up_with(rt, alloc, copy, &answer);
}

/// Two items are deposited, and the copy is that of the first harvest.
fn begin<V: Versions + Drop>(rt: &impl Abort, alloc: Global, host: &mut Host<V>, copy: &mut Copy) {
    deposit(rt, alloc, host, 0, DEPOSIT_1);
    deposit(rt, alloc, host, 0, DEPOSIT_2);
    harvest(rt, alloc, host, copy, 5, ALL);
    assert_holds(rt, copy, &[live("oai:a:1", 0), live("oai:a:2", 0)]);
}

/// All records at that second, in two answers, are those of the items that these describe.
fn assert_selected<V: Versions + Drop>(
    rt: &impl Abort,
    alloc: Global,
    host: &mut Host<V>,
    second: u8,
    wanted: &[Told<'_>],
) {
    let mut selected = Copy::new(alloc);
    for target in [ALL, REST] {
        let answer = answered(rt, host, second, target, "");
        assert_same(rt, has_token(rt, &answer), true);
        catch_up_with(rt, alloc, &mut selected, &answer);
    }
    assert_holds(rt, &selected, wanted);
}

/// An item is deleted and one is deposited, and the copy catches up with the second harvest.
fn go_on<V: Versions + Drop>(rt: &impl Abort, alloc: Global, host: &mut Host<V>, copy: &mut Copy) {
    deposit(rt, alloc, host, 5, DELETE_2);
    deposit(rt, alloc, host, 6, DEPOSIT_3);
    harvest(rt, alloc, host, copy, 7, FROM_5);
    assert_holds(rt, copy, &at_the_seventh_second());
}

/// One is deposited anew, and the copy catches up with the third harvest.
fn end<V: Versions + Drop>(rt: &impl Abort, alloc: Global, host: &mut Host<V>, copy: &mut Copy) {
    deposit(rt, alloc, host, 7, DEPOSIT_1);
    harvest(rt, alloc, host, copy, 8, FROM_7);
    assert_holds(rt, copy, &at_the_eighth_second());
}

/// The items at the seventh second, before the first is deposited anew, and at the eighth.
fn at_the_seventh_second() -> [Told<'static>; 3] {
    [
        live("oai:a:1", 0),
        deleted("oai:a:2", 5),
        live("oai:a:3", 6),
    ]
}

fn at_the_eighth_second() -> [Told<'static>; 3] {
    [
        live("oai:a:1", 7),
        deleted("oai:a:2", 5),
        live("oai:a:3", 6),
    ]
}

/// The document that the host answers to the second harvest where nothing came between.
fn no_records() -> &'static str {
    r#"<responseDate>2024-01-01T00:00:07Z</responseDate><request verb="ListRecords" metadataPrefix="oai_dc" from="2024-01-01T00:00:05Z">http://host.example/oai/a</request><error code="noRecordsMatch">No records match.</error></OAI-PMH>
"#
}

// ---- what is done with a host and a copy

/// How it goes on behind the first harvest.
#[derive(Clone, Copy)]
enum Course {
    /// The copy of the second harvest holds what is selected at the seventh second, and the third goes on with it.
    Second,
    /// The copy of the third harvest holds what is selected at the eighth second.
    Third,
    /// Nothing comes between the first two: the host says so, and the copy stays as it is.
    NothingBetween,
}

/// The copy goes through the two harvests behind the first one.
fn harvest_again<V: Versions + Drop>(
    rt: &impl Abort,
    alloc: Global,
    host: &mut Host<V>,
    copy: &mut Copy,
    course: Course,
) {
    go_on(rt, alloc, host, copy);
    if matches!(course, Course::Second) {
        assert_selected(rt, alloc, host, 7, &at_the_seventh_second());
    }
    end(rt, alloc, host, copy);
    if matches!(course, Course::Third) {
        assert_selected(rt, alloc, host, 8, &at_the_eighth_second());
    }
}

/// The host answers so to the second harvest, and the copy stays as it is.
fn harvest_nothing<V: Versions + Drop>(
    rt: &impl Abort,
    alloc: Global,
    host: &mut Host<V>,
    copy: &mut Copy,
) {
    let answer = answered(rt, host, 7, FROM_5, "");
    let document = from_utf8(answer.body.as_slice()).expect(rt, "from_utf8");
    assert_same(rt, document.ends_with(no_records()), true);
    catch_up(rt, alloc, copy, document);
    assert_holds(rt, copy, &[live("oai:a:1", 0), live("oai:a:2", 0)]);
}

/// A copy of the host is harvested so.
fn assert_copied<V: Versions + Drop>(
    rt: &impl Abort,
    alloc: Global,
    mut host: Host<V>,
    course: Course,
) {
    let mut copy = Copy::new(alloc);
    begin(rt, alloc, &mut host, &mut copy);
    match course {
        Course::NothingBetween => harvest_nothing(rt, alloc, &mut host, &mut copy),
        _ => harvest_again(rt, alloc, &mut host, &mut copy, course),
    }
}

/// The same of a new host over plain lists.
fn assert_copied_from_lists<V: Versions + Drop>(
    rt: &impl Abort,
    alloc: Global,
    store: V,
    course: Course,
) {
    let host = host_over(alloc, config(rt, alloc), store).expect(rt, "host_over");
    assert_copied(rt, alloc, host, course);
}

/// And of one over pages of the device.
fn assert_copied_from_pages<D: PageDevice>(
    rt: &impl Abort,
    alloc: Global,
    device: D,
    course: Course,
) {
    let host = host_on(alloc, config(rt, alloc), device).expect(rt, "host_on");
    assert_copied(rt, alloc, host, course);
}

/// And of both, in memory.
fn assert_harvests(rt: &impl Abort, alloc: Global, course: Course) {
    assert_copied_from_lists(rt, alloc, PlainVersions::new(alloc), course);
    assert_copied_from_pages(rt, alloc, MemoryDevice::new(alloc), course);
}

#[test]
fn second_harvest_misses_nothing(rt: HostRuntime) {
    assert_harvests(&rt, rt.alloc(), Course::Second);
}

#[test]
fn third_harvest_misses_nothing(rt: HostRuntime) {
    assert_harvests(&rt, rt.alloc(), Course::Third);
}

#[test]
fn nothing_between_two_harvests(rt: HostRuntime) {
    assert_harvests(&rt, rt.alloc(), Course::NothingBetween);
}
