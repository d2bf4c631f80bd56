ghost use Rattle.std.specs.Prelude.{◌≡◌, ◌≤◌, ℕ, length, drop, IfSome};
ghost use Rattle.std.specs.List.{concat};
ghost use Rattle.std.specs.Option.{option_copied, option_map};
ghost use Rattle.httparse.specs.Spans.{IsWithin, span_bytes};
ghost use Rattle.oai_http.specs.Exchanges.{asked_by};
ghost use Rattle.oai_front.specs.Queues.{AreFilled, IsTaken};
ghost use Rattle.oai_front.specs.RequestHeads.{IsHead};
ghost use Rattle.oai_front.specs.Pipelining.{IsRemainder, IsNext, behind_message, message_behind};
ghost use Rattle.oai_front.specs.Pipelining as spec;

use crate::queues::{perform_message, put_fault};
use crate::request_heads::{Head, HeadParse, read_head};
use httparse::spans::Span;
use oai_http::{Exchange, Handler, Status, Target};
use oai_names::Sequence;
use std::alloc::Global;
use std::collections::VecDeque;

/// What the received bytes begin with.
#[derive(Clone, Copy)]
pub enum Next {
    /// Nothing complete, except possibly the head.
    Unfinished(Option<Head>),
    /// A fault, which is answered with that status, since no message can follow.
    Faulty(Status),
    /// A message with that head.
    Message(Head),
}

/// What is left of bytes after the messages that were performed.
#[derive(Clone, Copy)]
pub enum Left {
    /// An incomplete message, after that many bytes, with its head if that is complete.
    Waiting(usize, Option<Head>),
    /// Nothing: the connection is closed.
    Nothing,
    /// After that many bytes, what was not answered: for lack of memory, or since another message was answered before it
    /// in the same turn. With its head if that is complete.
    Unanswered(usize, Option<Head>),
}

/// Performs the messages with which the bytes begin, in order, up to the first after which the connection is closed,
/// and appends their answers to the output; then the answer to a connection fault. `head` is what is known of the first
/// head. Each byte of a body is skipped, and each head parsed, once.
pub(crate) fn perform_all<H: Handler>(
    alloc: Global,
    handler: &mut H,
    moment: i64,
    bytes: &[u8],
    head: Option<Head>,
    queue: &mut VecDeque<Sequence<u8>>,
) -> Left
    requires known { IfSome head (IsHead bytes.now) }
    requires filled { AreFilled queue.old.items }
    ensures left { IsRemainder H.step moment handler.old handler.new bytes.now (concat queue.old.items)
        (concat queue.new.items) result }
    ensures filled { AreFilled queue.new.items }
    ensures taken { (taken : ℕ) → IsTaken taken queue.old.items → IsTaken taken queue.new.items }
{
    let mut rest = bytes;
    let mut known = head;
    'messages: loop {
        match next_in(rest, known) {
            Next::Unfinished(head) => return Left::Waiting(bytes.len() - rest.len(), head),
            Next::Faulty(status) => {
                return match put_fault(alloc, status, queue) {
                    Ok(()) => Left::Nothing,
                    Err(_) => Left::Unanswered(bytes.len() - rest.len(), None),
                };
            }
            Next::Message(head) => {
                let exchange = exchange_of(rest, &head);
                match perform_message(alloc, handler, moment, &exchange, head.last, queue) {
                    Ok(()) => {}
                    Err(_) => return Left::Unanswered(bytes.len() - rest.len(), Some(head)),
                }
                if head.last {
                    return Left::Nothing;
                }
                rest = after(rest, &head);
                known = None;
            }
        }
    }
}

/// Performs the first of the messages with which the bytes begin, and appends its answer to the output, or the answer
/// to a connection fault. `head` is what is known of its head. What follows it waits, with its head if that is complete.
pub(crate) fn perform_first<H: Handler>(
    alloc: Global,
    handler: &mut H,
    moment: i64,
    bytes: &[u8],
    head: Option<Head>,
    queue: &mut VecDeque<Sequence<u8>>,
) -> Left
    requires known { IfSome head (IsHead bytes.now) }
    requires filled { AreFilled queue.old.items }
    ensures left { IsRemainder H.step moment handler.old handler.new bytes.now (concat queue.old.items)
        (concat queue.new.items) result }
    ensures filled { AreFilled queue.new.items }
    ensures taken { (taken : ℕ) → IsTaken taken queue.old.items → IsTaken taken queue.new.items }
{
    match next_in(bytes, head) {
        Next::Unfinished(head) => Left::Waiting(0, head),
        Next::Faulty(status) => match put_fault(alloc, status, queue) {
            Ok(()) => Left::Nothing,
            Err(_) => Left::Unanswered(0, None),
        },
        Next::Message(head) => {
            let exchange = exchange_of(bytes, &head);
            match perform_message(alloc, handler, moment, &exchange, head.last, queue) {
                Ok(()) => {}
                Err(_) => return Left::Unanswered(0, Some(head)),
            }
            if head.last {
                return Left::Nothing;
            }
            let rest = after(bytes, &head);
            left_at(bytes.len() - rest.len(), next_in(rest, None))
        }
    }
}

/// What is left after that many bytes, if this comes next.
fn left_at(begun: usize, next: Next) -> Left
    ensures { result ≡ spec.left_at begun next }
{
    match next {
        Next::Unfinished(head) => Left::Waiting(begun, head),
        Next::Faulty(_) => Left::Unanswered(begun, None),
        Next::Message(head) => Left::Unanswered(begun, Some(head)),
    }
}

/// What the bytes begin with, if this is known of their first head.
pub(crate) fn next_in(bytes: &[u8], known: Option<Head>) -> Next
    requires { IfSome known (IsHead bytes.now) }
    ensures { IsNext bytes.now result }
{
    match known {
        Some(head) => if_whole(bytes, head),
        None => match read_head(bytes) {
            HeadParse::Unknown => Next::Unfinished(None),
            HeadParse::Fault(status) => Next::Faulty(status),
            HeadParse::Whole(head) => if_whole(bytes, head),
        },
    }
}

/// The message with that head, if its body is complete.
fn if_whole(bytes: &[u8], head: Head) -> Next
    requires { IsHead bytes.now head }
    ensures { IsNext bytes.now result }
{
    if behind_head(bytes, &head).len() < head.size {
        Next::Unfinished(Some(head))
    } else {
        Next::Message(head)
    }
}

/// The bytes after a head.
fn behind_head<'b>(bytes: &'b [u8], head: &Head) -> &'b [u8]
    requires { IsHead bytes.now head.now }
    ensures { result.now ≡ drop head.now.start bytes.now }
{
    &bytes[head.start..]
}

/// The bytes after a message.
fn after<'b>(bytes: &'b [u8], head: &Head) -> &'b [u8]
    requires head { IsHead bytes.now head.now }
    requires whole { head.now.size ≤ length (drop head.now.start bytes.now) }
    ensures { result.now ≡ behind_message bytes.now head.now }
{
    &behind_head(bytes, head)[head.size..]
}

/// What a message asks.
fn exchange_of<'b>(bytes: &'b [u8], head: &Head) -> Exchange<'b>
    requires head { IsHead bytes.now head.now }
    requires whole { head.now.size ≤ length (drop head.now.start bytes.now) }
    ensures asked { asked_by result ≡ message_behind bytes.now head.now }
{
    Exchange {
        method: head.method.of(bytes),
        target: Target::parsed(head.target.of(bytes), head.path),
        content_type: part_of(bytes, head.content_type),
        authorization: part_of(bytes, head.authorization),
        body: &behind_head(bytes, head)[..head.size],
    }
}

/// The bytes of a part of a head, if it is there.
fn part_of(bytes: &[u8], span: Option<Span>) -> Option<&[u8]>
    requires { IfSome span (IsWithin (length bytes.now)) }
    ensures { option_copied result ≡ option_map (span_bytes bytes.now) span }
{
    match span {
        Some(span) => Some(span.of(bytes)),
        None => None,
    }
}
