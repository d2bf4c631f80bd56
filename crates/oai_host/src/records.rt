//! What of an exchange has to be replayed, and its replay.
ghost use Rattle.oai_host.specs.Bodies.{lines_in};
ghost use Rattle.oai_host.specs.Exchanged.{RedoesIn};
ghost use Rattle.oai_host.specs.Redone.{arguments_to_replay, lines_to_replay, task_again};
ghost use Rattle.oai_host.specs.Tasks as spec;
ghost use Rattle.oai_repo.specs.Fields.{Owns};
ghost use Rattle.std.specs.Option.{option_copied};
ghost use Rattle.std.specs.Prelude.{length, ◌≡◌};

use crate::deposits::redo_lines;
use oai_catalogue::Versions;
use oai_http::{Answer, Endpoint};
use oai_item::Fault;
use oai_repo::{Replay, Repo};
use std::alloc::Global;

/// The answer of a repository, and the bytes that replay what was performed for it: the arguments of a request, or the
/// lines of a deposit.
#[derive(Drop)]
pub(crate) struct RepoAnswer<'a> {
    /// The answer.
    pub(crate) answer: Answer,
    /// The bytes; `None` if nothing has to be replayed.
    pub(crate) bytes: Option<&'a [u8]>,
}

/// As much of the arguments of a request as has to be replayed: all, none at all, or nothing.
pub(crate) fn arguments_to_replay(replay: Replay, arguments: &[u8]) -> Option<&[u8]>
    ensures { option_copied result ≡ arguments_to_replay replay arguments.now }
{
    match replay {
        Replay::Nothing => None,
        Replay::Tick => Some(&[]),
        Replay::Request => Some(arguments),
    }
}

/// The lines of a deposit that have to be replayed: those that were performed, so many, if any were. Blank lines are
/// none.
pub(crate) fn lines_to_replay(lines: &[u8], count: u64) -> Option<&[u8]>
    requires { count ≡ length (lines_in lines.now) }
    ensures { option_copied result ≡ lines_to_replay lines.now }
{
    if count == 0 { None } else { Some(lines) }
}

/// Replays at the repository, at the moment, in seconds from 1970 on, what these bytes performed there: a request with
/// these arguments, or a deposit of these lines. The error is the fault that ended it.
pub(crate) fn redo<V: Versions>(
    alloc: Global,
    repo: &mut Repo,
    store: &mut V,
    moment: i64,
    endpoint: Endpoint,
    bytes: &[u8],
) -> Result<(), Fault>
    requires owns { Owns (V.honest store.old) repo.old (V.lists store.old) }
    ensures { RedoesIn V.Versions moment (task_again endpoint bytes.now) result repo.old store.old
        repo.new store.new }
{
    match endpoint {
        Endpoint::Requests => pass_request(repo, store, moment, bytes),
        Endpoint::Deposits => redo_lines(alloc, repo, store, moment, bytes),
    }
}

/// Replays a request, by its arguments, and makes no document.
#[tactic(auto, using(crate::proofs::RedoLemmas::passed_in))]
fn pass_request<V: Versions>(
    repo: &mut Repo,
    store: &mut V,
    moment: i64,
    arguments: &[u8],
) -> Result<(), Fault>
    requires owns { Owns (V.honest store.old) repo.old (V.lists store.old) }
    ensures { RedoesIn V.Versions moment (spec.asking arguments.now) result repo.old store.old repo.new
        store.new }
{
    repo.pass(store, moment, arguments)
}
