//! What holds of a repository all of whose open lists are ended from time to time.

ghost use Rattle.std.specs.Prelude.{◌≡◌, List, true};
ghost use Rattle.std.specs.List.{AllByRecursion};
ghost use Rattle.oai_settings.specs.Config.{IsConfig, RepositoryConfig};
ghost use Rattle.oai_repo.specs.State.{empty_state};
ghost use Rattle.oai_laws.specs.Eras.{AreEnded, AreFollowed, Era, HaveNumbers, MissNothingWithin, all_exchanges, runs};
ghost use Rattle.oai_laws.specs.Runs.{numbers_given, numbers_rise_strictly};

/// A token of a list that a checkpoint ended is refused, no number of a list is given twice, and harvests still miss
/// nothing (OAI-PMH 2.0, sections 2.7.1 and 3.5). A repository may end all its open lists from time to time, and raise
/// the number of the next one, as a checkpoint does; an era is what happens between two such ends. The law holds for any
/// requests and deposits in each era, provided that no number is raised beyond the last one of 64 bits. A list that is
/// followed within an era is what was selected at its first request. A token that was handed out in one era is answered
/// with badResumptionToken in every later one. The numbers of the lists that are opened rise over all eras, as
/// [`number_law`](crate::number_law) says of one. Where deleted records are kept, harvests miss nothing, if each is
/// made within one era, whichever it is. A theorem, proved by an empty function.
pub fn ended_lists_law()
    ensures followed { (config : RepositoryConfig) (eras : List Era) → IsConfig config
        → HaveNumbers config (empty_state config) eras
        → AllByRecursion (AreFollowed config) (runs config (empty_state config) eras) }
    ensures refused { (config : RepositoryConfig) (eras : List Era) → IsConfig config
        → HaveNumbers config (empty_state config) eras
        → AreEnded (runs config (empty_state config) eras) }
    ensures rising { (config : RepositoryConfig) (eras : List Era) → HaveNumbers config (empty_state config) eras
        → numbers_rise_strictly (numbers_given (all_exchanges (runs config (empty_state config) eras))) ≡ true }
    ensures harvests { (config : RepositoryConfig) (eras : List Era) → IsConfig config
        → HaveNumbers config (empty_state config) eras
        → MissNothingWithin config (runs config (empty_state config) eras) }
{}
