ghost use Rattle.std.specs.Prelude.{◌≡◌, ◌≤◌, ◌++◌, [], ℕ, Bool, false, IfOk, IfSome, IsTrue, List, None, OnOk, length, max};
ghost use Rattle.oai_http.specs.Exchanges.{asked_by, call_at};
ghost use Rattle.oai_http.specs.declared.exchanges.Answer.{Answer as Given};
ghost use Rattle.oai_http.specs.declared.exchanges.Call.{Call as Calls};
ghost use Rattle.oai_replay.specs.Parts.{PartState, SavesMore, as_part, restored_all};
ghost use Rattle.oai_replay.specs.Redone.{call_again, is_short_name, left_again};

use crate::parts::{Part, SaveFault, Sink};
use oai_http::{Answer, Endpoint, Exchange, Handler};
use oai_item::Fault;

/// What was performed at a repository, in a form that can be replayed.
#[derive(Clone, Copy, Debug)]
pub struct Performed<'a> {
    /// A request, or a deposit.
    pub endpoint: Endpoint,
    /// The name of the repository.
    pub name: &'a [u8],
    /// The arguments of the request, still encoded; or the lines of the deposit. A request without arguments only moves
    /// the clock of the repository.
    pub bytes: &'a [u8],
}

/// An answer, and what was performed for it; `None` if nothing was that changes the state.
#[derive(Debug, Drop)]
pub struct RecordedAnswer<'a> {
    /// The answer.
    pub answer: Answer,
    /// What to replay so that the handler gets to its present state.
    pub performed: Option<Performed<'a>>,
}

/// A handler whose exchanges can be replayed, which restores its state.
pub trait Replayed: Handler {
    /// The state that a handler keeps from one exchange to the next.
    ghost Kept: { Type 0 };

    /// The state of this handler.
    ghost kept: { Self → Kept };

    /// Whether its device returns what was written to it.
    ghost is_honest: { Self → Bool };

    /// The state after a call.
    ghost redone: { Kept → Calls → Kept };

    /// The answer to a call.
    ghost reply: { Kept → Calls → Given };

    /// Whether a checkpoint of that state is written, of which these parts are saved, and the others left to save.
    ghost saves: { Self → Kept → List PartState → Type 0 };

    /// Performs a message as `exchange` does, and returns with the answer what of it has to be replayed: a request; a
    /// deposit of its first lines, as many as were done; or nothing if nothing was done, as by a request that failed.
    /// The message left the state that the replay leaves. A checkpoint that is written stays one of the same state.
    fn exchange_recorded<'a>(&mut self, moment: i64, exchange: &Exchange<'a>) -> RecordedAnswer<'a>
        ensures step { Self.step self.old moment (asked_by exchange.now) result.answer self.new }
        ensures left { IsTrue (is_honest self.old)
            → kept self.new ≡ left_again redone (kept self.old) moment result.performed }
        ensures whole { IsTrue (is_honest self.old) → result.answer.fault ≡ None
            → kept self.new ≡ redone (kept self.old) (call_at moment (asked_by exchange.now)) }
        ensures reply { IsTrue (is_honest self.old) → result.answer.fault ≡ None
            → result.answer ≡ reply (kept self.old) (call_at moment (asked_by exchange.now)) }
        ensures name { IfSome result.performed (λ p. IsTrue (is_short_name p.name.now)) }
        ensures size { IfSome result.performed (λ p. length p.bytes.now
            ≤ max (length exchange.now.target) (length exchange.now.body.now)) }
        ensures saving { (state : Kept) (parts : List PartState) → saves self.old state parts → saves self.new state parts }
        ensures honesty { is_honest self.new ≡ is_honest self.old };

    /// Replays, at the moment, in seconds from 1970 on, what was performed, and makes no answer. The error is the fault
    /// that ended it.
    fn redo(&mut self, moment: i64, performed: &Performed<'_>) -> Result<(), Fault>
        ensures redone { OnOk result (IsTrue (is_honest self.old)
            → kept self.new ≡ redone (kept self.old) (call_again moment performed.now)) }
        ensures honesty { is_honest self.new ≡ is_honest self.old };

    /// The state after a part was restored, after those before it.
    ghost restored: { Kept → PartState → Kept };

    /// The parts of the state, in the order in which they can be restored, once its lists have ended.
    ghost parts: { Kept → List PartState };

    /// The state with all lists ended, and with the number of each next list raised by that much.
    ghost ended: { ℕ → Kept → Kept };

    /// The initial state of a handler of the same repositories.
    ghost emptied: { Kept → Kept };

    /// Restores a part, after those that were restored before. Any fault may come, and `Damaged` if the part does not
    /// fit: no repository has its name, its bytes encode nothing, or it violates the repository's invariants.
    fn restore(&mut self, part: &Part<'_>) -> Result<(), Fault>
        ensures restored { OnOk result (IsTrue (is_honest self.old)
            → kept self.new ≡ restored (kept self.old) (as_part part.now)) }
        ensures honesty { is_honest self.new ≡ is_honest self.old };

    /// Passes all parts to the sink, with the number of each next list raised by that much. The state is unchanged, and
    /// what was saved can be restored.
    fn save<S: Sink>(&mut self, raise: u32, sink: &mut S) -> Result<(), SaveFault>
        ensures saved { OnOk result (IsTrue (is_honest self.old) → (before : List PartState) → S.has sink.old before
            → S.has sink.new (before ++ parts (ended raise (kept self.old)))) }
        ensures whole { OnOk result (IsTrue (is_honest self.old)
            → restored_all restored (emptied (kept self.old)) (parts (ended raise (kept self.old)))
            ≡ ended raise (kept self.old)) }
        ensures same { kept self.new ≡ kept self.old }
        ensures honesty { is_honest self.new ≡ is_honest self.old };

    /// Begins a checkpoint of the state as it is now; one that was begun before is given up. Any fault may come, and then
    /// none is begun.
    fn begin_saving(&mut self) -> Result<(), Fault>
        ensures begun { OnOk result (IsTrue (is_honest self.old) → saves self.new (kept self.old) []) }
        ensures same { kept self.new ≡ kept self.old }
        ensures honesty { is_honest self.new ≡ is_honest self.old };

    /// Passes the next parts of the checkpoint to the sink, and returns whether there were any. If not, all are saved, and
    /// they restore the state of which it is. After an error it can only be given up.
    fn save_next<S: Sink>(&mut self, sink: &mut S) -> Result<bool, SaveFault>
        ensures saved { IfOk result (λ more. IsTrue (is_honest self.old)
            → SavesMore S.has (saves self.old) sink.old (saves self.new) sink.new) }
        ensures all { IfOk result (λ more. more ≡ false → IsTrue (is_honest self.old)
            → (state : Kept) (parts : List PartState) → saves self.new state parts
            → restored_all restored (emptied state) parts ≡ state) }
        ensures same { kept self.new ≡ kept self.old }
        ensures honesty { is_honest self.new ≡ is_honest self.old };

    /// Gives up the checkpoint that is written, if one is. It cannot fail.
    fn stop_saving(&mut self)
        ensures same { kept self.new ≡ kept self.old }
        ensures honesty { is_honest self.new ≡ is_honest self.old };

    /// A call keeps the repositories.
    ghost same_redone: { (state : Kept) (call : Calls) → emptied (redone state call) ≡ emptied state };

    /// Restoring a part keeps the repositories.
    ghost same_restored: { (state : Kept) (part : PartState) → emptied (restored state part) ≡ emptied state };
}
