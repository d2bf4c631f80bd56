//! Three repositories whose exchanges come in turns, over pages behind a cache of one page: each answers byte for byte
//! as it does over plain lists where the others get none.
ghost use Rattle.std.specs.Prelude.{◌≤◌};

use crate::assertions::assert_same;
use crate::runs::{answers_to, call};
use crate::sample_host::paged;
use oai_catalogue::PlainVersions;
use oai_device::MemoryDevice;
use oai_host::{Answer, Call};
use std::alloc::{AllocError, Global};
use std::panic::Expect;
use std::process::Abort;
use std::str;
use tests_fixtures::write_exchanged;

/// How many exchanges there are; that of a number is at the repository of what is left of it by 3.
const EXCHANGES: u8 = 200;

/// The begin of the names of a repository's paths.
fn name_of(number: u8) -> &'static str {
    match number % 3 {
        0 => "a",
        1 => "b",
        _ => "c",
    }
}

/// The lines of a deposit, in the round in which the exchange comes: items of the same identifiers at
/// each repository, with titles of their own, a line that is refused, a set, and a deletion.
fn lines_of(alloc: Global, name: &str, round: u8) -> Result<String, AllocError> {
    let turn = round / 8;
    match round % 8 {
        0 => format!(in alloc;
            "{{\"deposit\":\"oai:x:{turn}\",\"sets\":[],\"records\":{{\"oai_dc\":[[\"title\",\"{name}\"]]}}}}"
        ),
        1 => format!(in alloc;
            "[\n{{\"deposit\":\"oai:y:{turn}\",\"sets\":[],\"records\":{{\"oai_dc\":[[\"title\",\"{name}\"]]}}}}"
        ),
        2 => format!(in alloc; "{{\"set\":\"s{turn}\",\"name\":\"{name}\"}}"),
        _ => format!(in alloc; "{{\"delete\":\"oai:x:{turn}\"}}"),
    }
}

/// The target of a request in that round: a list, its second part, the sets, and a record.
fn target_of(alloc: Global, name: &str, round: u8) -> Result<String, AllocError> {
    let turn = round / 8;
    match round % 8 {
        3 => format!(in alloc; "/oai/{name}?verb=ListRecords&metadataPrefix=oai_dc"),
        4 => format!(in alloc; "/oai/{name}?verb=ListRecords&resumptionToken={turn}.2"),
        5 => format!(in alloc; "/oai/{name}?verb=ListSets"),
        _ => format!(in alloc;
            "/oai/{name}?verb=GetRecord&identifier=oai:x:{turn}&metadataPrefix=oai_dc"
        ),
    }
}

/// The moment of an exchange: seven seconds after the one before, and at each repository a thousand
/// seconds after those at the one before it.
fn moment_of(number: u8) -> i64 {
    1_704_067_200 + 7 * i64::from(number) + 1_000 * i64::from(number % 3)
}

/// The exchange of that number.
fn call_at(rt: &impl Abort, alloc: Global, number: u8) -> Call {
    let name = name_of(number);
    let round = number / 3;
    let moment = moment_of(number);
    if matches!(round % 8, 0 | 1 | 2 | 6) {
        let target = format!(in alloc; "/deposit/{name}").expect(rt, "memory");
        let body = lines_of(alloc, name, round).expect(rt, "lines_of");
        call(
            rt,
            alloc,
            moment,
            "POST",
            target.as_str(),
            None,
            body.as_str(),
        )
    } else {
        let target = target_of(alloc, name, round).expect(rt, "target_of");
        call(rt, alloc, moment, "GET", target.as_str(), None, "")
    }
}

/// All exchanges, or those of one repository.
fn calls(rt: &impl Abort, alloc: Global, of: Option<u8>) -> Vec<Call> {
    let mut calls = Vec::new(alloc);
    for number in 0..EXCHANGES {
        if of.is_none() || of == Some(number % 3) {
            calls.push(call_at(rt, alloc, number)).expect(rt, "memory");
        }
    }
    calls
}

/// What stands in the answers that are this repository's own, one after the other.
fn written(rt: &impl Abort, alloc: Global, answers: &[Answer], of: usize, by: usize) -> Vec<u8>
    requires { 1 ≤ by }
{
    let mut output = Vec::new(alloc);
    for (number, answer) in answers.iter().enumerate() {
        if number % by == of {
            write_exchanged(answer, &mut output).expect(rt, "write_exchanged");
        }
    }
    output
}

/// What the repository answers over pages where the others are asked too.
fn beside(rt: &impl Abort, alloc: Global, of: u8) -> Vec<u8> {
    let calls = calls(rt, alloc, None);
    let store = paged(rt, alloc, MemoryDevice::new(alloc));
    let answers = answers_to(rt, alloc, store, &calls);
    assert_same(rt, answers.as_slice().len(), 200);
    written(rt, alloc, answers.as_slice(), usize::from(of), 3)
}

/// What it answers over plain lists where they are not.
fn alone(rt: &impl Abort, alloc: Global, of: u8) -> Vec<u8> {
    let calls = calls(rt, alloc, Some(of));
    let answers = answers_to(rt, alloc, PlainVersions::new(alloc), &calls);
    written(rt, alloc, answers.as_slice(), 0, 1)
}

/// The repository answers beside the others as it does alone, and what it says has this in it.
fn assert_alone(rt: &impl Abort, alloc: Global, of: u8, part: &str) {
    let beside = beside(rt, alloc, of);
    let alone = alone(rt, alloc, of);
    assert_same(rt, beside.as_slice(), alone.as_slice());
    assert!(rt;
        str::from_utf8(&alone)
            .expect(rt, "str::from_utf8")
            .contains(part),
        "no {part}"
    );
}

#[test]
fn neighbours_are_not_seen(rt: HostRuntime) {
    let alloc = rt.alloc();
    assert_alone(&rt, alloc, 0, "<dc:title>a</dc:title>");
    assert_alone(&rt, alloc, 0, ">7.2</resumptionToken>");
    assert_alone(&rt, alloc, 1, "<setName>b</setName>");
    assert_alone(&rt, alloc, 2, "refused 12 too-many-items");
}
