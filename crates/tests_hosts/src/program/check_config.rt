//! What checking a configuration writes, and how it stops.
use crate::assertions::{assert_same, assert_shown};
use crate::program::failing_streams::FailingWriter;
use crate::program::inputs::CountingWriter;
use oai_item::Forms;
use oai_startup::{Stop, check_config};
use std::alloc::Global;
use std::io::Write;
use std::panic::Expect;
use std::process::Abort;
use tests_fixtures::worked_configuration;

/// The text, with another one at the first place where the old one stands.
fn changed(rt: &impl Abort, alloc: Global, text: &str, old: &str, new: &str) -> String {
    let Some((front, back)) = text.split_once(old) else {
        panic!(rt; "no {old}")
    };
    format!(in alloc; "{front}{new}{back}").expect(rt, "memory")
}

/// The worked configuration, where the second repository has that name, and the first one that chunk.
fn with(rt: &impl Abort, alloc: Global, name: &str, chunk: &str) -> String {
    let text = changed(rt, alloc, worked_configuration(), r#""name":"b""#, name);
    changed(rt, alloc, text.as_str(), r#""chunk":2"#, chunk)
}

/// Checking the text stops: that is reported, the status is 2, and nothing is written.
fn assert_refused(rt: &impl Abort, alloc: Global, text: &str, wanted: &str) {
    let mut output = Vec::new(alloc);
    let checked = check_config(alloc, Forms::Fields, text.as_bytes(), &mut output);
    assert_same(rt, output.len(), 0);
    let stop = checked.err().expect(rt, "not refused");
    assert_shown(rt, alloc, stop, wanted);
    assert_same(rt, stop.status(), 2);
}

/// The text is accepted, and the number of its repositories is written.
fn assert_accepted(rt: &impl Abort, alloc: Global, forms: Forms, text: &str) {
    let mut output = Vec::new(alloc);
    check_config(alloc, forms, text.as_bytes(), &mut output).expect(rt, "check_config");
    assert_same(rt, output.as_slice(), b"ok 3\n".as_slice());
}

#[test]
fn number_of_repositories(rt: HostRuntime) {
    assert_accepted(&rt, rt.alloc(), Forms::Fields, worked_configuration());
}

/// A format without fields is none of lists of fields alone, and is one where records may be elements.
#[test]
fn format_without_fields(rt: HostRuntime) {
    let fields = r#","fields":["volume","pages"]"#;
    let text = changed(&rt, rt.alloc(), worked_configuration(), fields, "");
    assert_refused(&rt, rt.alloc(), text.as_str(), "config: 2 BadShape");
    assert_accepted(&rt, rt.alloc(), Forms::Elements, text.as_str());
}

/// One name twice, a chunk of no records, and both: of two faults the one with the lower number is reported.
#[test]
fn faults_of_configurations(rt: HostRuntime) {
    for (name, chunk, wanted) in [
        (r#""name":"a""#, r#""chunk":2"#, "config: 4 DuplicateName"),
        (r#""name":"b""#, r#""chunk":0"#, "config: 7 BadNumber"),
        (r#""name":"a""#, r#""chunk":0"#, "config: 4 DuplicateName"),
    ] {
        let text = with(&rt, rt.alloc(), name, chunk);
        assert_refused(&rt, rt.alloc(), text.as_str(), wanted);
    }
}

/// Checks the worked configuration.
fn check_worked<W: Write>(rt: &HostRuntime, writer: &mut W) -> Result<(), Stop> {
    let text = worked_configuration().as_bytes();
    check_config(rt.alloc(), Forms::Fields, text, writer)
}

/// A writer that takes four of the five bytes.
#[test]
fn output_fails_in_mid_line(rt: HostRuntime) {
    let mut writer = FailingWriter { room: 4 };
    let checked = check_worked(&rt, &mut writer);
    assert_same(&rt, checked, Err(Stop::OutputFault));
    assert_same(&rt, writer.room, 0);
}

/// A flush that fails is a fault of the output, though all was written.
#[test]
fn flush_fails(rt: HostRuntime) {
    let mut writer = CountingWriter {
        taken: Vec::new(rt.alloc()),
        writes: 100,
        flushes: false,
    };
    let checked = check_worked(&rt, &mut writer);
    assert_same(&rt, checked, Err(Stop::OutputFault));
    assert_same(&rt, writer.taken.as_slice(), b"ok 3\n".as_slice());
}
