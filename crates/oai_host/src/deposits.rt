//! Deposits: each line is performed, and answered in a line of its own.
ghost use Rattle.oai_deposit.specs.Lines.{line_of};
ghost use Rattle.oai_host.specs.Bodies as spec;
ghost use Rattle.oai_host.specs.Bodies.{lines_in};
ghost use Rattle.oai_host.specs.DepositLines.{HasDone, FollowsLines, IsWritableOutcome, from_line, outcome_line};
ghost use Rattle.oai_host.specs.Exchanged.{AnswersLine, PerformsIn, PerformsLine, RedoesIn};
ghost use Rattle.oai_host.specs.Tasks.{depositing};
ghost use Rattle.oai_host.specs.declared.deposits.TheConstants.{MAX_LINE};
ghost use Rattle.oai_item.specs.Refusals.{in_line, refusal_line};
ghost use Rattle.oai_repo.specs.Fields.{Owns};
ghost use Rattle.oai_time.specs.Stamp.{IsWritable};
ghost use Rattle.oai_time.specs.TimeTexts.{datestamp_text};
ghost use Rattle.std.specs.Prelude.{Err, IfSome, MatchOption, Ok, [], codes, if◌then◌else◌, length, vec_capacity, vec_len, ◌++◌, ◌+◌, ◌<◌, ◌∷◌, ◌≡◌, ◌≤◌};

use itoa::Buffer;
use oai_catalogue::Versions;
use oai_deposit::{Change, LineFault, read_line};
use oai_http::{Answer, len_before, put};
use oai_item::{ChangeRefusal, Fault, LineRefusal};
use oai_names::Sequence;
use oai_repo::{Refusal, Repo};
use oai_time::{Granularity, write_datestamp};
use std::alloc::Global;

/// The maximum length in bytes of the line that answers a line, with its line end.
const MAX_LINE: usize = 40;

/// Performs the lines of a deposit at the moment, in seconds from 1970 on, one after the other, and returns their
/// answer, the bytes of the body that were performed, and how many lines these are; a fault ends them. Space for the
/// answer to a line is reserved before the line is performed, so a line that was performed is always answered and
/// counted.
pub(crate) fn perform_lines<'a, V: Versions>(
    alloc: Global,
    repo: &mut Repo,
    store: &mut V,
    moment: i64,
    body: &'a [u8],
) -> (Answer, &'a [u8], u64)
    requires owns { Owns (V.honest store.old) repo.old (V.lists store.old) }
    ensures performed { PerformsIn V.Versions moment (depositing (lines_in body.now)) result.0 repo.old
        store.old repo.new store.new }
    ensures lines { HasDone body.now result.0 result.1.now }
    ensures count { result.2 ≡ length (lines_in result.1.now) }
    ensures size { length result.1.now ≤ length body.now }
{
    let mut rest = body;
    let mut told = Vec::new(alloc);
    let mut done = 0;
    while let Some((text, behind)) = next_line(rest) {
        match answer_line(alloc, repo, store, moment, text, &mut told) {
            Ok(()) => done += 1,
            Err(fault) => {
                let answer = Answer::of_fault(alloc, fault, Some(done));
                return (answer, &body[..body.len() - rest.len()], done);
            }
        }
        rest = behind;
    }
    (Answer::with_body(Sequence::new(told)), body, done)
}

/// Replays the lines of a deposit at the moment, in seconds from 1970 on, and writes no answers. The error is the fault
/// that ended it.
pub(crate) fn redo_lines<V: Versions>(
    alloc: Global,
    repo: &mut Repo,
    store: &mut V,
    moment: i64,
    body: &[u8],
) -> Result<(), Fault>
    requires owns { Owns (V.honest store.old) repo.old (V.lists store.old) }
    ensures { RedoesIn V.Versions moment (depositing (lines_in body.now)) result repo.old store.old repo.new
        store.new }
{
    let mut rest = body;
    while let Some((text, behind)) = next_line(rest) {
        match perform_line(alloc, repo, store, moment, text) {
            Ok(_) => rest = behind,
            Err(fault) => return Err(fault),
        }
    }
    Ok(())
}

/// Performs a line and writes its answer, for which space is reserved first. A fault leaves everything unchanged.
fn answer_line<V: Versions>(
    alloc: Global,
    repo: &mut Repo,
    store: &mut V,
    moment: i64,
    text: &[u8],
    told: &mut Vec<u8>,
) -> Result<(), Fault>
    requires owns { Owns (V.honest store.old) repo.old (V.lists store.old) }
    ensures { AnswersLine V.Versions moment (line_of repo.old.config.forms text.now) result repo.old store.old
        told.old.items repo.new store.new told.new.items }
{
    told.reserve(MAX_LINE)?;
    match perform_line(alloc, repo, store, moment, text) {
        Ok(outcome) => {
            put_outcome(repo.config().granularity(), outcome, told);
            Ok(())
        }
        Err(fault) => Err(fault),
    }
}

/// What performing a line came to, if no fault ended it.
#[derive(Clone, Copy)]
pub(crate) enum LineOutcome {
    /// It was accepted, and its answer has this datestamp.
    Accepted(i64),
    /// It was refused by itself.
    LineRefused(LineRefusal),
    /// Its change was refused.
    ChangeRefused(ChangeRefusal),
}

/// Performs a line. A fault leaves everything unchanged.
fn perform_line<V: Versions>(
    alloc: Global,
    repo: &mut Repo,
    store: &mut V,
    moment: i64,
    text: &[u8],
) -> Result<LineOutcome, Fault>
    requires owns { Owns (V.honest store.old) repo.old (V.lists store.old) }
    ensures { PerformsLine V.Versions moment (line_of repo.old.config.forms text.now) result repo.old store.old
        repo.new store.new }
{
    match read_line(alloc, repo.config().forms(), text) {
        Ok(change) => perform_change(repo, store, moment, &change),
        Err(LineFault::Refused(cause)) => Ok(refuse_line(repo, store, moment, cause)),
        Err(LineFault::NoMemory) => Err(Fault::NoMemory),
    }
}

/// Performs a change.
fn perform_change<V: Versions>(
    repo: &mut Repo,
    store: &mut V,
    moment: i64,
    change: &Change,
) -> Result<LineOutcome, Fault>
    requires owns { Owns (V.honest store.old) repo.old (V.lists store.old) }
    ensures { PerformsLine V.Versions moment (Ok change.now) result repo.old store.old repo.new store.new }
{
    match repo.change(store, moment, change) {
        Ok(stamp) => Ok(LineOutcome::Accepted(stamp)),
        Err(Refusal::Refused(cause)) => Ok(LineOutcome::ChangeRefused(cause)),
        Err(Refusal::Fault(fault)) => Err(fault),
    }
}

/// Moves the clock for a line that is refused by itself.
fn refuse_line<V: Versions>(
    repo: &mut Repo,
    store: &mut V,
    moment: i64,
    cause: LineRefusal,
) -> LineOutcome
    requires owns { Owns (V.honest store.old) repo.old (V.lists store.old) }
    ensures { PerformsLine V.Versions moment (Err cause) (Ok result) repo.old store.old repo.new store.new }
{
    repo.advance(store, moment);
    LineOutcome::LineRefused(cause)
}

/// Writes the answer to a line that came to this, into the reserved space.
fn put_outcome(granularity: Granularity, outcome: LineOutcome, out: &mut Vec<u8>)
    requires writable { IsWritableOutcome outcome }
    requires room { vec_len out.old + MAX_LINE ≤ vec_capacity out.old }
    ensures { out.new.items ≡ out.old.items ++ outcome_line granularity outcome }
{
    match outcome {
        LineOutcome::Accepted(stamp) => put_stamp(granularity, stamp, out),
        LineOutcome::LineRefused(cause) => put_cause(cause, out),
        LineOutcome::ChangeRefused(cause) => put_line(cause.answer(), out),
    }
}

/// Writes the line that reports the cause, and a line end.
fn put_cause(cause: LineRefusal, out: &mut Vec<u8>)
    requires { vec_len out.old + MAX_LINE ≤ vec_capacity out.old }
    ensures { out.new.items ≡ out.old.items ++ (refusal_line (in_line cause) ++ 10 ∷ []) }
{
    match cause.byte() {
        Some(at) => {
            let mut digits = Buffer::new();
            put(cause.answer().as_bytes(), out);
            put_line(digits.format(at), out);
        }
        None => put_line(cause.answer(), out),
    }
}

/// Writes `ok`, the datestamp and a line end.
fn put_stamp(granularity: Granularity, stamp: i64, out: &mut Vec<u8>)
    requires writable { IsWritable stamp }
    requires room { vec_len out.old + MAX_LINE ≤ vec_capacity out.old }
    ensures { out.new.items ≡ out.old.items
        ++ ((codes "ok " ++ datestamp_text granularity stamp) ++ 10 ∷ []) }
{
    put(b"ok ", out);
    put(write_datestamp(granularity, stamp).as_bytes(), out);
    put(b"\n", out);
}

/// Writes the text and a line end.
fn put_line(text: &str, out: &mut Vec<u8>)
    requires { vec_len out.old + length text.now + 1 ≤ vec_capacity out.old }
    ensures { out.new.items ≡ out.old.items ++ (text.now ++ 10 ∷ []) }
{
    put(text.as_bytes(), out);
    put(b"\n", out);
}

/// The first line of a deposit, and what stands behind it: the body is split at each line end, and a line of nothing but
/// spaces, tabs and CR is skipped. `None` if there is no line.
fn next_line(body: &[u8]) -> Option<(&[u8], &[u8])>
    ensures line { MatchOption result (lines_in body.now ≡ [])
        (λ next. lines_in body.now ≡ next.0.now ∷ lines_in next.1.now) }
    ensures behind { IfSome result (λ next. FollowsLines body.now next.1.now 1) }
    ensures less { IfSome result (λ next. length next.1.now < length body.now) }
{
    let mut rest = body;
    while !rest.is_empty() {
        let (line, behind) = cut(rest);
        if !is_blank(line) {
            return Some((line, behind));
        }
        rest = behind;
    }
    None
}

/// The bytes before the first line end, or all if there is none, and those behind it.
fn cut(text: &[u8]) -> (&[u8], &[u8])
    requires { 0 < length text.now }
    ensures lines { lines_in text.now ≡ from_line result.0.now (lines_in result.1.now) }
    ensures behind { FollowsLines text.now result.1.now (if spec.is_blank result.0.now then 0 else 1) }
    ensures less { length result.1.now < length text.now }
{
    let end = len_before(b'\n', text);
    let line = &text[..end];
    if end < text.len() {
        (line, &text[end + 1..])
    } else {
        (line, &[])
    }
}

/// Whether it is a line of nothing but spaces, tabs and CR.
fn is_blank(text: &[u8]) -> bool
    ensures { result ≡ spec.is_blank text.now }
{
    text.iter().all(|b| matches!(*b, b' ' | b'\t' | b'\r'))
}
