//! Checkpoints that are written while exchanges go on.
use crate::archives::{MemoryArchive, Setting, WrittenCheckpoint, assert_wanted, tell, worked};
use oai_http::Settled;
use oai_item::Forms;
use std::alloc::Global;
use std::panic::Expect;
use std::process::Abort;
use tests_fixtures::{long, script, short};

/// The worked configuration, in journals that may have open lists.
fn setting() -> Setting {
    Setting {
        forms: Forms::Elements,
        ..worked(2)
    }
}

/// How many bytes of records are copied in a step.
const STEP_BYTES: usize = 100;

/// Before which exchange a checkpoint is begun, and behind which it is put in the journal's place.
#[derive(Clone, Copy)]
struct Span {
    begin: usize,
    end: usize,
}

/// Writes a step of the checkpoint; returns whether more may be left.
fn step(rt: &impl Abort, archive: &mut MemoryArchive, checkpoint: &mut WrittenCheckpoint) -> bool {
    archive.write_checkpoint(rt, checkpoint, STEP_BYTES)
}

/// Writes all that is left of the checkpoint.
fn write_all(rt: &impl Abort, archive: &mut MemoryArchive, checkpoint: &mut WrittenCheckpoint) {
    for _ in 0..10_000u32 {
        if !step(rt, archive, checkpoint) {
            break;
        }
    }
}

/// Performs the exchanges of the transcript from the one of a number to before that of another.
fn tell_from<H: Settled>(
    rt: &impl Abort,
    alloc: Global,
    archive: &mut H,
    transcript: &str,
    (first, last): (usize, usize),
    output: &mut Vec<u8>,
) {
    let mut at = 0usize;
    for line in transcript.lines() {
        if let Some(line) = line.strip_prefix("> ") {
            if first <= at && at < last {
                tell(rt, alloc, archive, line, output);
            }
            at = at.saturating_add(1);
        }
    }
}

/// Performs the exchanges of the span, a step of the checkpoint behind each.
fn tell_beside(
    rt: &impl Abort,
    alloc: Global,
    archive: &mut MemoryArchive,
    checkpoint: &mut WrittenCheckpoint,
    transcript: &str,
    span: Span,
    output: &mut Vec<u8>,
) {
    for at in span.begin..=span.end {
        let next = at.saturating_add(1);
        tell_from(rt, alloc, archive, transcript, (at, next), output);
        step(rt, archive, checkpoint);
    }
}

/// The journal of a checkpoint of that span, of which all that is left is written behind the exchanges of the span,
/// takes the place of the archive's.
fn switch_behind(
    rt: &impl Abort,
    alloc: Global,
    archive: &mut MemoryArchive,
    transcript: &str,
    span: Span,
    output: &mut Vec<u8>,
) {
    let mut checkpoint = archive.begin_checkpoint(rt);
    tell_beside(
        rt,
        alloc,
        archive,
        &mut checkpoint,
        transcript,
        span,
        output,
    );
    write_all(rt, archive, &mut checkpoint);
    archive.switch(rt, checkpoint);
}

/// The answers to the exchanges of the transcript are its own, with a checkpoint of that span, and a crash where it
/// takes the place of the journal.
fn assert_answers(
    rt: &impl Abort,
    alloc: Global,
    archive: &mut MemoryArchive,
    transcript: &str,
    span: Span,
) {
    let mut output = Vec::new(alloc);
    tell_from(rt, alloc, archive, transcript, (0, span.begin), &mut output);
    switch_behind(rt, alloc, archive, transcript, span, &mut output);
    archive.crash(rt);
    let rest = (span.end.saturating_add(1), usize::MAX);
    tell_from(rt, alloc, archive, transcript, rest, &mut output);
    assert_wanted(rt, alloc, &output, transcript);
}

/// So they are of a new archive.
fn assert_goes_on(rt: &impl Abort, alloc: Global, transcript: &str, span: Span) {
    let mut archive = MemoryArchive::begun(rt, alloc, setting());
    assert_answers(rt, alloc, &mut archive, transcript, span);
}

/// How many exchanges the transcript has.
fn count(transcript: &str) -> usize {
    let mut count = 0usize;
    for line in transcript.lines() {
        if line.starts_with("> ") {
            count = count.saturating_add(1);
        }
    }
    count
}

/// A checkpoint is begun before each exchange of the transcript, and takes the journal's place so many exchanges
/// later, or at its end.
fn assert_each_begin(rt: &impl Abort, alloc: Global, transcript: &str, later: usize) {
    for begin in 0..count(transcript) {
        let span = Span {
            begin,
            end: begin.saturating_add(later),
        };
        assert_goes_on(rt, alloc, transcript, span);
    }
}

#[test]
fn each_begin_in_the_script(rt: HostRuntime) {
    let alloc = rt.alloc();
    let script = script(alloc, short()).expect(&rt, "memory");
    for later in [0usize, 1, 7] {
        assert_each_begin(&rt, alloc, script.as_str(), later);
    }
}

#[test]
fn each_begin_with_a_long_item(rt: HostRuntime) {
    let alloc = rt.alloc();
    let script = script(alloc, long()).expect(&rt, "memory");
    for later in [0usize, 3] {
        assert_each_begin(&rt, alloc, script.as_str(), later);
    }
}
