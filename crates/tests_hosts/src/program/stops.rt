//! What stops the program: an input and an output that fail.
use crate::assertions::assert_same;
use crate::program::asking::performed;
use crate::program::failing_streams::FailingWriter;
use crate::program::inputs::assert_input_fails;
use oai_startup::Stop;
use std::alloc::Global;
use std::panic::Expect;
use std::process::Abort;
use tests_fixtures::{identify_document, push_wanted};

/// The answer to the first line of a request of Identify.
fn identified(rt: &impl Abort, alloc: Global) -> String {
    let mut wanted = String::from_str(alloc, "200\n").expect(rt, "memory");
    push_wanted(identify_document(), &mut wanted).expect(rt, "push_wanted");
    wanted
}

#[test]
fn input_fails_in_mid_line(rt: HostRuntime) {
    let text = b"1704067200 GET /oai/a?verb=Identify\n1704067200 GE";
    let wanted = identified(&rt, rt.alloc());
    assert_input_fails(&rt, rt.alloc(), text, 1_000, wanted.as_str());
}

#[test]
fn output_fails_in_mid_answer(rt: HostRuntime) {
    let mut reader: &[u8] = b"1704067200 GET /oai/a?verb=Identify\n";
    let mut writer = FailingWriter { room: 100 };
    let asked = performed(&rt, rt.alloc(), &mut reader, &mut writer);
    assert_same(&rt, asked, Err(Stop::OutputFault));
}
