ghost use Rattle.std.specs.Prelude.{◌≡◌, ◌+◌, ◌++◌, ◌≤◌, ℕ, List, [], length, drop, vec_capacity, OnErr, OnOk};
ghost use Rattle.std.specs.List.{concat};
ghost use Rattle.std.specs.VecDeque.{deque_capacity, deque_len};
ghost use Rattle.oai_http.specs.declared.exchanges.Answer.{Answer as Given};
ghost use Rattle.oai_front.specs.Heads.{answer_bytes, fault_bytes};
ghost use Rattle.oai_http.specs.Exchanges.{asked_by};
ghost use Rattle.oai_front.specs.Connections.{IsFrontOf};
ghost use Rattle.oai_front.specs.Queues.{AreFilled, IsTaken};
ghost use Rattle.oai_front.specs.Queues as spec;

use crate::heads::{AnswerHead, HEAD_ROOM, write_head};
use oai_http::{Answer, Exchange, Handler, Status, Target};
use oai_names::Sequence;
use std::alloc::{AllocError, Global};
use std::collections::VecDeque;

/// Performs a message, which may be the `last` of its connection, and appends its answer to the output. Space for the
/// answer's head, and in the queue, is reserved before the message is performed; the body is moved, not copied. The
/// error is out of memory; nothing was performed then.
pub(crate) fn perform_message<H: Handler>(
    alloc: Global,
    handler: &mut H,
    moment: i64,
    exchange: &Exchange<'_>,
    last: bool,
    queue: &mut VecDeque<Sequence<u8>>,
) -> Result<(), AllocError>
    requires { AreFilled queue.old.items }
    ensures ok { OnOk result ((answer : Given) × H.step handler.old moment (asked_by exchange.now) answer handler.new
        × (concat queue.new.items ≡ concat queue.old.items ++ answer_bytes exchange.now.target last answer)) }
    ensures err { OnErr result ((handler.new ≡ handler.old) × (queue.new.items ≡ queue.old.items)) }
    ensures filled { AreFilled queue.new.items }
    ensures taken { (taken : ℕ) → IsTaken taken queue.old.items → IsTaken taken queue.new.items }
{
    queue.try_reserve(2)?;
    let bytes = Vec::with_capacity(alloc, HEAD_ROOM)?;
    let answer = handler.exchange(moment, exchange);
    put_answer(&exchange.target, last, answer, bytes, queue);
    Ok(())
}

/// Appends the answer to a connection fault to the output. The error is out of memory; nothing was appended then.
#[tactic(auto, unfolding(crate::specs::Heads::fault_bytes))]
pub(crate) fn put_fault(
    alloc: Global,
    status: Status,
    queue: &mut VecDeque<Sequence<u8>>,
) -> Result<(), AllocError>
    requires { AreFilled queue.old.items }
    ensures ok { OnOk result (concat queue.new.items ≡ concat queue.old.items ++ fault_bytes status) }
    ensures err { OnErr result (queue.new.items ≡ queue.old.items) }
    ensures filled { AreFilled queue.new.items }
    ensures taken { (taken : ℕ) → IsTaken taken queue.old.items → IsTaken taken queue.new.items }
{
    queue.try_reserve(1)?;
    let mut answer = Vec::with_capacity(alloc, HEAD_ROOM)?;
    let head = AnswerHead {
        endpoint: None,
        status,
        seconds: None,
        done: None,
        last: true,
        size: 0,
    };
    write_head(&head, &mut answer);
    put(Sequence::new(answer), queue);
    Ok(())
}

/// Appends the answer to a message with that target to the output, which has the capacity; the answer's head is written
/// into that buffer.
#[tactic(auto, unfolding(crate::specs::Heads::answer_bytes))]
fn put_answer(
    target: &Target<'_>,
    last: bool,
    answer: Answer,
    mut bytes: Vec<u8>,
    queue: &mut VecDeque<Sequence<u8>>,
)
    requires empty { bytes.items ≡ [] }
    requires room { HEAD_ROOM ≤ vec_capacity bytes }
    requires places { deque_len queue.old + 2 ≤ deque_capacity queue.old }
    requires filled { AreFilled queue.old.items }
    ensures put { concat queue.new.items ≡ concat queue.old.items ++ answer_bytes target.now last answer }
    ensures filled { AreFilled queue.new.items }
    ensures taken { (taken : ℕ) → IsTaken taken queue.old.items → IsTaken taken queue.new.items }
{
    let head = AnswerHead {
        endpoint: target.endpoint(),
        status: answer.status,
        seconds: answer.seconds,
        done: answer.done,
        last,
        size: answer.body.as_slice().len(),
    };
    write_head(&head, &mut bytes);
    put(Sequence::new(bytes), queue);
    put(answer.body, queue);
}

/// Appends bytes to the output, which has the capacity; nothing if there are none.
#[tactic(auto, using(crate::proofs::QueueLemmas::concat_push, crate::proofs::QueueLemmas::taken_push))]
fn put(bytes: Sequence<u8>, queue: &mut VecDeque<Sequence<u8>>)
    requires places { deque_len queue.old + 1 ≤ deque_capacity queue.old }
    requires filled { AreFilled queue.old.items }
    ensures put { concat queue.new.items ≡ concat queue.old.items ++ bytes }
    ensures len { deque_len queue.new ≤ deque_len queue.old + 1 }
    ensures capacity { deque_capacity queue.new ≡ deque_capacity queue.old }
    ensures filled { AreFilled queue.new.items }
    ensures taken { (taken : ℕ) → IsTaken taken queue.old.items → IsTaken taken queue.new.items }
{
    if bytes.as_slice().is_empty() {
        return;
    }
    queue.push_back(bytes).unwrap();
}

/// What is left of the first buffer after `taken` bytes.
pub(crate) fn left_of(queue: &VecDeque<Sequence<u8>>, taken: usize) -> &[u8]
    requires filled { AreFilled queue.now.items }
    requires taken { IsTaken taken queue.now.items }
    ensures { IsFrontOf result.now (drop taken (concat queue.now.items)) }
{
    match queue.front() {
        Some(first) => &first.as_slice()[taken..],
        None => &[],
    }
}

/// Drops the first bytes of the output, and returns how many of the first buffer are taken then.
pub(crate) fn drop_taken(queue: &mut VecDeque<Sequence<u8>>, taken: usize, count: usize) -> usize
    requires filled { AreFilled queue.old.items }
    requires taken { IsTaken taken queue.old.items }
    requires within { count ≤ length (drop taken (concat queue.old.items)) }
    ensures left { drop result (concat queue.new.items) ≡ drop count (drop taken (concat queue.old.items)) }
    ensures filled { AreFilled queue.new.items }
    ensures taken { IsTaken result queue.new.items }
{
    let mut taken = taken;
    let mut count = count;
    'buffers: while count > 0 {
        let left = first_len(queue) - taken;
        if count < left {
            taken += count;
            count = 0;
        } else {
            drop_first(queue);
            count -= left;
            taken = 0;
        }
    }
    taken
}

/// The length of the first buffer.
fn first_len(queue: &VecDeque<Sequence<u8>>) -> usize
    ensures { result ≡ spec.first_len queue.now.items }
{
    match queue.front() {
        Some(first) => first.as_slice().len(),
        None => 0,
    }
}

/// Drops the first buffer.
fn drop_first(queue: &mut VecDeque<Sequence<u8>>)
    ensures { queue.new.items ≡ drop 1 queue.old.items }
{
    queue.pop_front();
}

/// Drops the first bytes.
pub(crate) fn drop_front(bytes: &mut Vec<u8>, count: usize)
    requires { count ≤ length bytes.old.items }
    ensures { bytes.new.items ≡ drop count bytes.old.items }
{
    bytes.drain(..count);
}
