//! Theorems on requests, on puts and on saved states: empty functions whose contracts are the statements.
ghost use Rattle.std.specs.Prelude.{◌≡◌, ℕ, ℤ, List, [], false};
ghost use Rattle.oai_args.specs.Asks.{AskOrError};
ghost use Rattle.oai_args.specs.Pairs.{decoded_pairs};
ghost use Rattle.oai_args.specs.Requests.{request_of};
ghost use Rattle.oai_repo.specs.Calls.{changes_lists};
ghost use Rattle.oai_holdings.specs.Kept.{AreKept};
ghost use Rattle.oai_item.specs.Givens.{GivenRecord};
ghost use Rattle.oai_deposit.specs.declared.changes.Change.TheVariants as change;
ghost use Rattle.oai_repo.specs.Machine.{Command, act_at, changing, requesting};
ghost use Rattle.oai_repo.specs.Puts.{AreAlikeButForStamps};
ghost use Rattle.oai_repo.specs.Saved.{ended, parts_of, with_parts};
ghost use Rattle.oai_repo.specs.SavedLists.{AreBeginnings, Beginning, listed_parts};
ghost use Rattle.oai_holdings.specs.Differences.{ItemDifference};
ghost use Rattle.oai_holdings.specs.Holdings.{no_holdings};
ghost use Rattle.oai_repo.specs.State.{RepoState, moved, state_at_clock};
ghost use Rattle.oai_settings.specs.Config.{RepositoryConfig};
ghost use Rattle.oai_time.specs.declared.granularity.Granularity.{Granularity};

/// A request that neither asks for a list of records nor continues one moves the clock, at which lists may end, and
/// leaves all else unchanged. One without arguments is such a request. A theorem, proved by an empty function.
#[tactic(auto, using(crate::proofs::PassLemmas::ticks, crate::proofs::PassLemmas::bare_ticks))]
pub fn tick_law()
    ensures ticks { (config : RepositoryConfig) (state : RepoState) (moment : ℤ) (request : AskOrError)
        → changes_lists request ≡ false
        → (act_at config state moment (requesting request)).1 ≡ moved moment state }
    ensures bare { (granularity : Granularity)
        → changes_lists (request_of granularity (decoded_pairs [])) ≡ false }
{}

/// Lists that have ended are not seen: without those that have by its clock, a state answers the same to every command,
/// at every moment, and leaves the same state. So they need not be saved. A theorem, proved by an empty function.
pub fn unseen_law()
    ensures { (config : RepositoryConfig) (state : RepoState) (moment : ℤ) (command : Command)
        → act_at config (state_at_clock state.clock state) moment command ≡ act_at config state moment command }
{}

/// A state is restored from its parts: restored over one that holds nothing, whatever its clock and its lists, they
/// make that state with no list open, and with the number of the next list that they have. A theorem, proved by an
/// empty function.
#[tactic(auto, using(crate::proofs::SavedLemmas::restored))]
pub fn restore_law()
    ensures { (config : RepositoryConfig) (state start : RepoState) (raise : ℕ)
        → AreKept config state.holdings → start.holdings ≡ no_holdings
        → with_parts start (parts_of (ended raise state)) ≡ ended raise state }
{}

/// A state is restored from its parts with all its open lists: restored over one that holds nothing, whatever its clock
/// and its lists, they make that state. A list is saved without its items: where it began stands among the changes of
/// the items, and it has what its filter selects of those that are held there. A theorem, proved by an empty function.
pub fn listed_law()
    ensures { (state start : RepoState) (beginnings : List Beginning) (last : List ItemDifference)
        → start.holdings ≡ no_holdings
        → AreBeginnings [] beginnings last state.open_lists.lists state.holdings.items
        → with_parts start (listed_parts state beginnings last) ≡ state }
{}

/// A put that comes again, at whatever moment and whatever it was answered, is answered the same, and leaves the state
/// as it was but for the clock, at which lists may end. And a put leaves what the deposit of the same leaves, but for
/// datestamps: the same clock, sets and open lists, and the same item under each identifier. A theorem, proved by an
/// empty function.
pub fn put_law()
    ensures again { (config : RepositoryConfig) (state : RepoState) (first next : ℤ) (identifier : List ℕ)
        (sets : List (List ℕ)) (records : List GivenRecord)
        → (let put = changing (change.Put identifier sets records) in
        let once = act_at config state first put in
        act_at config once.1 next put ≡ (once.0, moved next once.1)) }
    ensures alike { (config : RepositoryConfig) (state : RepoState) (moment : ℤ) (identifier : List ℕ)
        (sets : List (List ℕ)) (records : List GivenRecord)
        → AreAlikeButForStamps (act_at config state moment (changing (change.Put identifier sets records))).1
        (act_at config state moment (changing (change.Deposit identifier sets records))).1 }
{}
