//! What holds of a repository in the course of time, whatever it is asked and whatever is deposited. These laws are
//! about the machine by whose definitions the calls of [`Repo`](oai_repo::Repo) are specified.

ghost use Rattle.std.specs.Prelude.{◌≡◌, ◌≢◌, ◌≤◌, ℕ, ℤ, List, [], ◌∷◌, ◌++◌, length, Some, true};
ghost use Rattle.std.specs.List.{list_all};
ghost use Rattle.oai_names.specs.declared.list_verbs.ListVerb.{ListVerb};
ghost use Rattle.oai_item.specs.Refusals.{Cause};
ghost use Rattle.oai_deposit.specs.declared.changes.Change.{Change};
ghost use Rattle.oai_answers.specs.Answers.{Document, Page};
ghost use Rattle.oai_answers.specs.Documents.{document};
ghost use Rattle.oai_answers.specs.Seen.{document_seen};
ghost use Rattle.oai_settings.specs.Config.{IsConfig, RepositoryConfig};
ghost use Rattle.oai_laws.specs.Changing.{DoesChange};
ghost use Rattle.oai_laws.specs.Commands.{ActsOn, StaysSound};
ghost use Rattle.oai_laws.specs.Effects.{IsSound};
ghost use Rattle.oai_args.specs.Verbs.{is_of_records};
ghost use Rattle.oai_laws.specs.Following.{IsChain, IsFollowedThrough, IsAnsweredNone, IsAnsweredWhole, ListQuery, WasOffered, next_request, page_shown, selection_in};
ghost use Rattle.oai_repo.specs.Machine.{Command, accepted, act, changing, refused_with};
ghost use Rattle.oai_laws.specs.Runs.{Transition, Throughout, Timed, are_never_last, numbers_rise_strictly, numbers_given, run};
ghost use Rattle.oai_laws.specs.Selecting.{IsSelection, has_granular_stamp};
ghost use Rattle.oai_laws.specs.Shown.{IsFollowedList, IsSomeAnswer, bytes_written, is_followed_to_its_end, selection_seen};
ghost use Rattle.oai_repo.specs.Listing.{wait_at};
ghost use Rattle.oai_repo.specs.State.{OpenLists, RepoState, empty_state, still_open};
ghost use Rattle.oai_laws.specs.Waiting.{IsWait};
ghost use Rattle.oai_laws.specs.Worked.{IsWorked, worked_config};

/// Each command has one of these effects on a sound state, and leaves it sound. It leaves the state, puts an item,
/// removes one, removes the tombstones below a limit, adds a set, renews an open list or opens one, and each of these
/// only under its condition. A state is sound if what is held satisfies a repository's invariants, with no deleted item
/// if the policy is to keep none, and if each open list has a number that was given, which the last one of 64 bits
/// never is. A repository begins in a sound state, and stays in one.
///
/// A request changes nothing that is held, and leaves the state if it neither begins a list nor continues one, or if
/// its token is refused; a change leaves the open lists. A request with a token is answered with a page, or with
/// badResumptionToken. A command that is answered by a time to wait is a request for which no further list may begin,
/// since as many are open as may be or no number is left. It leaves the state, and the time is at least a second; if
/// the table was full, a list has ended by then, and none before. A theorem, proved by an empty function.
pub fn effect_law()
    ensures sound { (config : RepositoryConfig) → StaysSound config }
    ensures acts { (config : RepositoryConfig) (state : RepoState) → ActsOn config state }
    ensures retry_after { (config : RepositoryConfig) (clock seconds : ℤ) (open_lists : OpenLists) → IsConfig config
        → wait_at config clock (still_open clock open_lists) ≡ Some seconds
        → IsWait config clock (still_open clock open_lists) seconds }
{}

/// An accepted change does what it asks for, and nothing else (OAI-PMH 2.0, sections 2.3 to 2.6). It is answered with
/// the datestamp of the clock, and a put with that of its item. With the datestamp of the clock a deposit puts a live item
/// with the given parts in place of the item with its identifier, if there is one; a put does so too, or finds that item
/// but for its datestamp; a deletion removes a live item, or puts its tombstone in its place, by the policy on deleted
/// records; a purge removes exactly the deleted items with earlier datestamps than its bound; and a set is added. Nothing
/// else is changed; a refused line changes nothing. A theorem, proved by an empty function.
pub fn change_law()
    ensures accepted { (config : RepositoryConfig) (state : RepoState) (change : Change) (stamp : ℤ)
        → (let done = act config state (changing change) in
        done.0 ≡ accepted stamp → DoesChange config change state done.1 stamp) }
    ensures refused { (config : RepositoryConfig) (state : RepoState) (command : Command) (cause : Cause)
        → (let done = act config state command in done.0 ≡ refused_with cause → done.1 ≡ state) }
{}

/// No number of a list is given twice. For any commands at any moments from the beginning of a repository on: each
/// command finds a sound state and leaves one; the numbers of the lists that are opened rise, so none is given twice;
/// and 18446744073709551615 is never given. A theorem, proved by an empty function.
pub fn number_law()
    ensures sound { (config : RepositoryConfig) (commands : List Timed)
        → Throughout (λ (exchange : Transition). IsSound config exchange.found
        × IsSound config exchange.left) (run config (empty_state config) commands) }
    ensures rising { (config : RepositoryConfig) (commands : List Timed)
        → numbers_rise_strictly (numbers_given (run config (empty_state config) commands)) ≡ true }
    ensures never_last { (config : RepositoryConfig) (commands : List Timed)
        → are_never_last (numbers_given (run config (empty_state config) commands)) ≡ true }
{}

/// A list request selects exactly the matching items (OAI-PMH 2.0, sections 2.6, 2.7, 4.3 and 4.5). For any requests at
/// any moments from the beginning of a repository on, and any deposits and deletions meanwhile: a list request selects,
/// of the items held when it comes, exactly those that have a record in its metadataPrefix, a datestamp not before
/// `from` and not after `until`, and are in the set or a descendant of it; of these three arguments, those that are
/// given. Each occurs in the selection once, in the order of datestamps and identifiers. Every datestamp has the
/// repository's granularity, and is not before earliestDatestamp and not after the clock. A theorem, proved by an empty
/// function.
pub fn selected_law()
    ensures selected { (config : RepositoryConfig) (commands : List Timed) (list_request : ListQuery) → IsConfig config
        → Throughout (λ (exchange : Transition). IsSelection list_request exchange.found.holdings.items
        (selection_in exchange.found list_request)) (run config (empty_state config) commands) }
    ensures dated { (config : RepositoryConfig) (commands : List Timed) → IsConfig config
        → Throughout (λ (exchange : Transition). list_all (has_granular_stamp config exchange.left.clock)
        exchange.left.holdings.items ≡ true) (run config (empty_state config) commands) }
{}

/// A list that is followed by its tokens is what was selected at its first request (OAI-PMH 2.0, section 3.5). For any
/// requests at any moments from the beginning of a repository on, and any deposits and deletions meanwhile: a list
/// request that selects more records than a page has and need not wait, and the requests that follow it, each with the
/// token of the page before and before this expires, are answered with pages. Each page has at least one record, says
/// how many records were selected and how many precede it, and its token expires a lifetime after the request. The
/// records of the pages, joined, are a prefix of the selection at the first request, and all of it once a page has the
/// empty token; each record once, in order. A list request that selects some records, at most as many as a page has, is
/// answered with all of them, and opens no list; one that selects none, with an error. A theorem, proved by an empty
/// function.
pub fn following_law()
    ensures followed { (config : RepositoryConfig) (commands : List Timed) (list_request : ListQuery)
        (first : Transition) (others : List Transition) → IsConfig config
        → IsChain config (run config (empty_state config) commands) list_request first others
        → (pages : List Page)
        × IsFollowedThrough config list_request (selection_in first.found list_request) (first ∷ others) pages }
    ensures short { (config : RepositoryConfig) (state : RepoState) (list_request : ListQuery) → IsSound config state
        → is_of_records list_request.verb ≡ true → selection_in state list_request ≢ []
        → length (selection_in state list_request) ≤ config.chunk
        → IsAnsweredWhole config state list_request }
    ensures none { (config : RepositoryConfig) (state : RepoState) (list_request : ListQuery)
        → selection_in state list_request ≡ [] → IsAnsweredNone config state list_request }
{}

/// Only tokens that were handed out are answered with a page (OAI-PMH 2.0, section 3.5). For any commands at any
/// moments from the beginning of a repository on: a token that is answered with a page was handed out before, in a page
/// that this repository answered. It begins with the number of its list, which no other list has or had
/// ([`number_law`]); so that page was one of the same list. A theorem, proved by an empty function.
pub fn token_law()
    ensures { (config : RepositoryConfig) (commands : List Timed) (before after : List Transition)
        (exchange : Transition) (verb : ListVerb) (token : List ℕ) (page : Page) → IsConfig config
        → before ++ exchange ∷ after ≡ run config (empty_state config) commands
        → exchange.command ≡ next_request verb token → page_shown exchange.outcome ≡ Some page
        → WasOffered token before }
{}

/// The premises of the law of following can be met: a run of fifteen commands, computed, in which a list is followed
/// over three pages while items are deposited and deleted, a moment falls, the table is full, and tokens are refused,
/// one by its verb and one at its end.
pub fn worked_law()
    ensures config { IsConfig worked_config }
    ensures chain { (first : Transition) × (others : List Transition) × IsWorked first others }
{}

/// Equal bytes show equal records (OAI-PMH 2.0, sections 2.5 and 3). Two documents of repositories that are equal byte
/// for byte show the same. If two lists are followed, the bytes of their answers are equal, and one of the lists is
/// followed to its end, then the selections at their first requests show equal headers and records: what a harvester
/// reads determines what was selected. A theorem, proved by an empty function.
pub fn shown_law()
    ensures documents { (config other : RepositoryConfig) (a b : Document) → IsSomeAnswer config a
        → IsSomeAnswer other b → document a ≡ document b → document_seen a ≡ document_seen b }
    ensures lists { (config other : RepositoryConfig) (list_request its : ListQuery) (first its_first : Transition)
        (others its_others : List Transition) → IsFollowedList config list_request first others
        → IsFollowedList other its its_first its_others
        → is_followed_to_its_end (first ∷ others) ≡ true
        → bytes_written config (first ∷ others) ≡ bytes_written other (its_first ∷ its_others)
        → selection_seen config list_request (selection_in first.found list_request)
        ≡ selection_seen other its (selection_in its_first.found its) }
{}
