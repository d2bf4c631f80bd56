ghost use Rattle.std.specs.Prelude.{◌≡◌, ℕ, Bool, true, List, [], ◌++◌};
ghost use Rattle.oai_http.specs.declared.exchanges.Answer.{Answer as Given};
ghost use Rattle.oai_http.specs.declared.statuses.Status.{Status};
ghost use Rattle.oai_front.specs.Clients.{BeginsWithResponse};
ghost use Rattle.oai_front.specs.Fronts.{State};
ghost use Rattle.oai_front.specs.Heads.{answer_bytes, fault_bytes};
ghost use Rattle.oai_front.specs.Messages.{AreAlike, End, IsClosing, IsMessageStream, IsUnfinished, Message, Splits, waits};
ghost use Rattle.oai_front.specs.Runs.{AreServed, Comes, FrontCall};

use crate::framings::{MAX_BODY_BYTES, MAX_DEPOSIT_BYTES, MAX_LENGTH_DIGITS};
use crate::numbers::LAST_NUMBER;
use crate::request_heads::{MAX_HEAD_BYTES, MAX_HEAD_FIELDS};
use oai_http::Handler;

/// Bytes have one list of messages and no other, of any length, and all that is known of their end is alike. A theorem,
/// proved by an empty function.
pub fn split_law()
    ensures alike { (bytes : List ℕ) (messages others : List Message) (end other : End)
        → IsMessageStream bytes messages end → IsMessageStream bytes others other
        → (messages ≡ others) × AreAlike end other }
{}

/// It does not matter how bytes are cut into pieces: the messages that a piece completes, and those that the next one
/// completes with what was left, are those of both together; once a connection is closed, what follows has no effect.
/// What was performed before memory ran out is a prefix of what was completed. A theorem, proved by an empty function.
pub fn cut_law()
    ensures joined { (first second rest : List ℕ) (messages others : List Message) (end : End)
        → IsMessageStream first messages (waits rest) → IsMessageStream (rest ++ second) others end
        → IsMessageStream (first ++ second) (messages ++ others) end }
    ensures over { (first second : List ℕ) (messages : List Message) (end : End)
        → IsMessageStream first messages end → IsClosing end → IsMessageStream (first ++ second) messages end }
    ensures begun { (bytes rest : List ℕ) (messages others : List Message) (end : End)
        → Splits bytes messages rest → IsMessageStream rest others end
        → IsMessageStream bytes (messages ++ others) end }
{}

/// The calls of a front come one after the other, on any number of connections, interleaved in any way; those that are
/// refused change nothing, and are left out. The handler performs one message after the other; those of each connection
/// are the messages of the bytes that came on it before its end, in order, each performed with the piece that brings
/// its last byte, or, if memory ran out, with a later one; their answers, and the answer to a fault, are appended to
/// its output, and what is taken is taken from the start. It holds of each connection that reads and on which nothing
/// complete waits, and of each that is opened among the calls. A theorem, proved by an empty function.
pub fn run_law<H: Handler>()
    ensures served { (old new : State H) (calls : List FrontCall)
        → Comes H.step old calls new → AreServed H.step old new calls }
    ensures begun { IsUnfinished [] }
{}

/// A client reads of an answer, by the grammar of `httparse` and whatever follows, the status, one length, which is the
/// body's, and whether the connection is closed. So it knows where the next answer begins. A theorem, proved by an
/// empty function.
pub fn head_law()
    ensures answers { (target : List ℕ) (last : Bool) (answer : Given) (others : List ℕ)
        → BeginsWithResponse (answer_bytes target last answer ++ others) answer.status last answer.body others }
    ensures faults { (status : Status) (others : List ℕ)
        → BeginsWithResponse (fault_bytes status ++ others) status true [] others }
{}

/// The limits in numbers, since definitions read them by their names. A theorem, proved
/// by an empty function.
pub fn limit_law()
    ensures head { MAX_HEAD_BYTES ≡ 16_384 }
    ensures fields { MAX_HEAD_FIELDS ≡ 64 }
    ensures body { MAX_BODY_BYTES ≡ 1_048_576 }
    ensures deposit { MAX_DEPOSIT_BYTES ≡ 2_097_152 }
    ensures digits { MAX_LENGTH_DIGITS ≡ 19 }
    ensures number { LAST_NUMBER ≡ 18_446_744_073_709_551_615 }
{}
