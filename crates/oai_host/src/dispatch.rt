//! Performs what exchanges ask of a repository: requests of OAI-PMH, and deposits.
ghost use Rattle.oai_host.specs.Answers.{answer_of};
ghost use Rattle.oai_host.specs.Bodies.{lines_in};
ghost use Rattle.oai_host.specs.Exchanged.{PerformsIn};
ghost use Rattle.oai_host.specs.Redone.{AreNoLonger, IsLeftBy, IsNoLonger, arguments_to_replay};
ghost use Rattle.oai_host.specs.Tasks as spec;
ghost use Rattle.oai_host.specs.Tasks.{task_in};
ghost use Rattle.oai_http.specs.Answers.{answered};
ghost use Rattle.oai_http.specs.Exchanges.{call_of};
ghost use Rattle.oai_http.specs.declared.targets.Endpoint.TheVariants.{Deposits, Requests};
ghost use Rattle.oai_repo.specs.Calls.{output_of_reply};
ghost use Rattle.oai_repo.specs.Fields.{Owns, state_of};
ghost use Rattle.std.specs.Option.{option_copied};
ghost use Rattle.std.specs.Prelude.{IfOk, IsTrue, MatchResult, None, length, max, ℤ, ◌≡◌, ◌≤◌};

use crate::deposits::perform_lines;
use crate::records::{RepoAnswer, arguments_to_replay, lines_to_replay};
use oai_catalogue::Versions;
use oai_http::{Answer, Endpoint, Exchange, Status, is_form};
use oai_repo::{Replied, Reply, Repo};
use std::alloc::Global;

/// Performs what the exchange asks of the repository, by the endpoint of its path, and returns with the answer what of
/// it has to be replayed.
pub(crate) fn perform_exchange<'a, V: Versions>(
    alloc: Global,
    repo: &mut Repo,
    store: &mut V,
    moment: i64,
    endpoint: Endpoint,
    exchange: &Exchange<'a>,
) -> RepoAnswer<'a>
    requires owns { Owns (V.honest store.old) repo.old (V.lists store.old) }
    ensures performed { PerformsIn V.Versions moment (task_in endpoint (call_of moment exchange.now))
        result.answer repo.old store.old repo.new store.new }
    ensures left { IsTrue (V.honest store.old) → IsLeftBy repo.old.config moment endpoint
        (option_copied result.bytes) (state_of repo.old (V.lists store.old))
        (state_of repo.new (V.lists store.new)) }
    ensures size { IsNoLonger exchange.now (option_copied result.bytes) }
{
    match endpoint {
        Endpoint::Requests => match arguments_of(exchange) {
            Ok(arguments) => perform_request(alloc, repo, store, moment, arguments),
            Err(status) => refused(alloc, status),
        },
        Endpoint::Deposits => {
            if is_post(exchange.method) {
                perform_deposit(alloc, repo, store, moment, exchange.body)
            } else {
                refused(alloc, Status::MethodNotAllowed)
            }
        }
    }
}

/// The answer with that status to an exchange for which nothing is performed.
fn refused<'a>(alloc: Global, status: Status) -> RepoAnswer<'a>
    ensures { result ≡ record { answer = answered status; bytes = None } }
{
    RepoAnswer {
        answer: Answer::of_status(alloc, status),
        bytes: None,
    }
}

/// The arguments of the request that the exchange makes, still encoded: the query of a GET, the body of a POST that is
/// a form. Otherwise the status of its answer.
fn arguments_of<'a>(exchange: &Exchange<'a>) -> Result<&'a [u8], Status>
    ensures asked { (moment : ℤ) → MatchResult result
        (λ arguments. spec.request_task (call_of moment exchange.now) ≡ spec.asking arguments.now)
        (λ status. spec.request_task (call_of moment exchange.now) ≡ spec.refusing status) }
    ensures size { IfOk result (λ arguments. length arguments.now
        ≤ max (length exchange.now.target) (length exchange.now.body.now)) }
{
    if exchange.method == b"GET".as_slice() {
        Ok(exchange.target.query())
    } else if !is_post(exchange.method) {
        Err(Status::MethodNotAllowed)
    } else if is_form(exchange.content_type) {
        Ok(exchange.body)
    } else {
        Err(Status::UnsupportedMediaType)
    }
}

/// Whether the method is POST.
fn is_post(method: &[u8]) -> bool
    ensures { result ≡ spec.is_post method.now }
{
    method == b"POST".as_slice()
}

/// Performs a request at the moment, in seconds from 1970 on, by its arguments.
fn perform_request<'a, V: Versions>(
    alloc: Global,
    repo: &mut Repo,
    store: &mut V,
    moment: i64,
    arguments: &'a [u8],
) -> RepoAnswer<'a>
    requires owns { Owns (V.honest store.old) repo.old (V.lists store.old) }
    ensures performed { PerformsIn V.Versions moment (spec.asking arguments.now) result.answer repo.old
        store.old repo.new store.new }
    ensures left { IsTrue (V.honest store.old) → IsLeftBy repo.old.config moment Requests
        (option_copied result.bytes) (state_of repo.old (V.lists store.old))
        (state_of repo.new (V.lists store.new)) }
    ensures size { AreNoLonger arguments.now (option_copied result.bytes) }
{
    match repo.ask(store, moment, arguments) {
        Ok(replied) => recorded(alloc, replied, arguments),
        Err(fault) => RepoAnswer {
            answer: Answer::of_fault(alloc, fault, None),
            bytes: None,
        },
    }
}

/// The answer with the reply to a request, and what of its arguments has to be replayed.
fn recorded<'a>(alloc: Global, replied: Replied, arguments: &'a [u8]) -> RepoAnswer<'a>
    ensures answer { result.answer ≡ answer_of (output_of_reply replied.reply) }
    ensures bytes { option_copied result.bytes ≡ arguments_to_replay replied.replay arguments.now }
{
    let bytes = arguments_to_replay(replied.replay, arguments);
    let answer = match replied.reply {
        Reply::Page(page) => Answer::with_body(page),
        Reply::Later(seconds) => Answer::to_wait(alloc, seconds),
    };
    RepoAnswer { answer, bytes }
}

/// Performs the lines of a deposit at the moment, in seconds from 1970 on.
fn perform_deposit<'a, V: Versions>(
    alloc: Global,
    repo: &mut Repo,
    store: &mut V,
    moment: i64,
    body: &'a [u8],
) -> RepoAnswer<'a>
    requires owns { Owns (V.honest store.old) repo.old (V.lists store.old) }
    ensures performed { PerformsIn V.Versions moment (spec.depositing (lines_in body.now)) result.answer
        repo.old store.old repo.new store.new }
    ensures left { IsTrue (V.honest store.old) → IsLeftBy repo.old.config moment Deposits
        (option_copied result.bytes) (state_of repo.old (V.lists store.old))
        (state_of repo.new (V.lists store.new)) }
    ensures size { AreNoLonger body.now (option_copied result.bytes) }
{
    let (answer, lines, count) = perform_lines(alloc, repo, store, moment, body);
    RepoAnswer {
        answer,
        bytes: lines_to_replay(lines, count),
    }
}
