ghost use Rattle.std.specs.Prelude.{◌≡◌, ◌∷◌, ◌++◌, ℕ, Bool, List, IsTrue, None, false, is_none, length, map};
ghost use Rattle.std.specs.List.{AllByRecursion, AllZip, flat_map};
ghost use Rattle.oai_item.specs.Formats.{AreRepositoryFormats};
ghost use Rattle.oai_settings.specs.Config.{IsConfig, RepositoryConfig};
ghost use Rattle.oai_repo.specs.State.{RepoState, empty_state};
ghost use Rattle.oai_laws.specs.Following.{IsChain, ListQuery};
ghost use Rattle.oai_laws.specs.Runs.{IsPart, Transition, run};
ghost use Rattle.oai_http.specs.declared.exchanges.Call.{Call};
ghost use Rattle.oai_laws.specs.Harvests.{Harvest};
ghost use Rattle.oai_host.specs.Alone.{answers_alone, exchanged_alone};
ghost use Rattle.oai_config.specs.Configs.{HostConfig, IsHostConfig};
ghost use Rattle.oai_http.specs.declared.exchanges.Answer.{Answer};
ghost use Rattle.oai_host.specs.Hosts.{AreAnswered, AreExchanged, HostState};
ghost use Rattle.oai_host.specs.Tasks.{asking, task_of};
ghost use Rattle.oai_startup.specs.Begun.{IsBegunOn};
ghost use Rattle.oai_headline.specs.Chains.{AreReached, IsFollowing, IsStepOf};
ghost use Rattle.oai_startup.specs.Rules.{HaveRules};
ghost use Rattle.oai_headline.specs.Headline.{IsMadeOf};
ghost use Rattle.oai_headline.specs.Throughout.{IsTrueVisit, IsThroughout, left_by, calls_done, visits_given};
ghost use Rattle.oai_headline.specs.Visits.{IsWrittenVisit, Visit, commands_in, steps_of, visits};
ghost use Rattle.oai_headline.specs.Worked.{AreMadeBeside, IsWorkedList, worked_host};
ghost use Rattle.oai_headline.specs.WorkedFaults.{IsWorkedWithFailures};

use oai_catalogue::Versions;
use oai_device::PageDevice;

/// What a repository alone answers to exchanges is what its machine does, written. The steps that the exchanges make
/// are the run of the commands that they carry: a request is one, a deposit one for each line. A request is answered
/// with the document of its step, or with a time to wait, and a deposit with a line for each step; an exchange that is
/// refused by its path, method or type is answered with its status, and is no step. So what the laws of runs say holds
/// of the exchanges. The function is empty.
pub fn carried_law()
    ensures answers { (config : RepositoryConfig) (state : RepoState) (calls : List Call)
        → map (λ (visit : Visit). visit.answer) (visits config state calls) ≡ answers_alone config state calls }
    ensures steps { (config : RepositoryConfig) (state : RepoState) (calls : List Call)
        → flat_map (steps_of config) (visits config state calls)
        ≡ run config state (commands_in config calls) }
    ensures written { (config : RepositoryConfig) (state : RepoState) (calls : List Call)
        → AllByRecursion (IsWrittenVisit config) (visits config state calls) }
{}

/// A list that is followed by exchanges is what was selected at its first request (OAI-PMH 2.0, section 3.5). Among the
/// exchanges with a repository alone, from its beginning on, one requests a list that is too long for one answer and is
/// not answered 503; and others, each after the one before it, come with the token that the previous answer prints,
/// before its expirationDate. Then each of them is a step of the machine and is answered with its page, written; and
/// the pages, joined, are what was selected at the first of them, as `following_law` of `oai_laws` says. And exchanges
/// whose steps are a chain of the machine are such a chain: the machine's answers satisfy what is required of a printed
/// token. The function is empty.
pub fn visits_law()
    ensures reached { (config : RepositoryConfig) (calls : List Call) (list_request : ListQuery) (first : Visit)
        (others : List Visit) → IsConfig config → AreRepositoryFormats config.formats
        → IsFollowing config (visits config (empty_state config) calls) list_request first others
        → AreReached config list_request first others }
    ensures met { (config : RepositoryConfig) (calls : List Call) (list_request : ListQuery) (first : Visit)
        (others : List Visit) (step : Transition) (steps : List Transition) → IsConfig config
        → AreRepositoryFormats config.formats
        → IsPart (first ∷ others) (visits config (empty_state config) calls)
        → AllZip (IsStepOf config) (first ∷ others) (step ∷ steps)
        → IsChain config (run config (empty_state config) (commands_in config calls))
        list_request step steps
        → IsFollowing config (visits config (empty_state config) calls) list_request first others }
{}

/// **The theorem.** Exchanges come to a host, one after the other, as `Host::run` and `Host::exchange` say, each with
/// its moment: deposits, deletions and requests. Whatever memory was refused in them, and whichever device calls
/// failed, at each repository each answer without a fault is the machine's to that exchange after what was performed
/// before it; the pages reached by following a list's unexpired tokens, also by repeating what failed, are, joined,
/// exactly the records selected at its first request, each once, in order; harvests miss nothing, where deleted records
/// are kept; and if no answer of a repository has a fault, they are those of the one-repository machine given that
/// repository's commands alone.
///
/// The configuration is one that satisfies its rules, as each accepted one does (`rules_law` of oai_startup). The host is
/// made of it by `Host::new`, over a store that satisfies the contract of a store of versions and returns what was
/// written to it. The function is empty.
pub fn throughout_law<V: Versions>()
    ensures { (config : HostConfig) (store : V) (first last : HostState) (calls : List Call)
        (answers : List Answer) → HaveRules config → IsMadeOf config (V.honest store) first
        → IsTrue (V.honest store) → AreExchanged calls answers first last
        → IsThroughout config calls answers last.repositories }
{}

/// The same of the host that the program runs: its store is the one of pages, over a device that returns what was
/// written to it, made as `host_on` of `oai_cli` says. The function is empty.
pub fn throughout_on_pages_law<D: PageDevice>()
    ensures { (config : HostConfig) (device : D) (first last : HostState) (calls : List Call)
        (answers : List Answer) → HaveRules config
        → IsBegunOn config (D.honest device) (D.failures device) first → IsTrue (D.honest device)
        → AreExchanged calls answers first last → IsThroughout config calls answers last.repositories }
{}

/// The same wherever the answers at each repository are those of a run of its own exchanges, from its beginning on: so
/// the clause `answered` of [`host_law`] says of the bytes of connections. The function is empty.
pub fn throughout_runs_law()
    ensures { (config : HostConfig) (honest : Bool) (first last : HostState) (calls : List Call)
        (answers : List Answer) → HaveRules config → IsMadeOf config honest first → IsTrue honest
        → AreAnswered calls answers first last → IsThroughout config calls answers last.repositories }
{}

/// What the field `given` of the theorem says at one place: an answer without a fault is the machine's to its exchange,
/// in the state that what was performed before it has left; and a request that failed has, for all that comes later, no
/// effect. The function is empty.
pub fn place_law()
    ensures given { (config : RepositoryConfig) (state : RepoState) (front : List Call) (call : Call) (back : List Call)
        (given : List Answer) (answer : Answer) (more : List Answer) → length front ≡ length given
        → AllByRecursion (IsTrueVisit config)
        (visits_given config state (front ++ call ∷ back) (given ++ answer ∷ more))
        → answer.fault ≡ None
        → answer ≡ (exchanged_alone config (left_by config state (calls_done front given)) call).0 }
    ensures failed { (front : List Call) (call : Call) (back : List Call) (given : List Answer)
        (answer : Answer) (more : List Answer) (arguments : List ℕ) → length front ≡ length given
        → task_of call ≡ asking arguments → is_none answer.fault ≡ false
        → calls_done (front ++ call ∷ back) (given ++ answer ∷ more)
        ≡ calls_done (front ++ back) (given ++ more) }
{}

/// The premises of the theorem and of the laws beside it can be met: a run of a host of two repositories, computed from
/// the bytes of its messages, at the machine of each. The configuration satisfies its rules. At the first repository a
/// list is followed over three pages, by the tokens that they print, and their records are the five that there were at
/// its first request. Between the pages an item is deposited and one is deleted; and another list is requested while as
/// many are open as may be, and is answered with a time to wait. At the second repository, interleaved with it, three
/// harvests are made, the first over two pages, while an item is deleted and one deposited; and a copy that they update
/// holds what there is. The answers are those of documents that show the pages; the bytes of these documents are not
/// written out. The function is empty.
pub fn worked_headline_law()
    ensures accepted { IsHostConfig worked_host }
    ensures rules { HaveRules worked_host }
    ensures followed { (first : Visit) × (waiting : Visit) × (second : Visit) × (last : Visit)
        × IsWorkedList first waiting second last }
    ensures beside { (first : Harvest) × (second : Harvest) × (third : Harvest)
        × AreMadeBeside first second third }
{}

/// What the theorem says about failures is not vacuous: a run of one repository of the worked host, computed from the
/// bytes of its messages, in which a deposit fails in its second line, and a page of a list runs out of memory and is
/// requested again. What was performed of it is what the run without failures performs, and the list is followed over
/// its three pages. The function is empty.
pub fn worked_faults_law()
    ensures { (first : Visit) × (second : Visit) × (last : Visit)
        × IsWorkedWithFailures first second last }
{}
