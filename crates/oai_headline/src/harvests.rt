//! Harvests, as a client sees them.
ghost use Rattle.std.specs.Prelude.{◌≡◌, ◌∷◌, ℕ, List, Option};
ghost use Rattle.std.specs.List.{AllZip};
ghost use Rattle.oai_item.specs.Formats.{AreRepositoryFormats};
ghost use Rattle.oai_item.specs.declared.deleted_record.DeletedRecord.TheVariants.{Persistent};
ghost use Rattle.oai_answers.specs.Seen.{SeenDocument};
ghost use Rattle.oai_settings.specs.Config.{IsConfig, RepositoryConfig};
ghost use Rattle.oai_repo.specs.State.{RepoState, empty_state};
ghost use Rattle.oai_laws.specs.Harvests.{Harvest, IsHarvest, records_since, requests_of};
ghost use Rattle.oai_laws.specs.Runs.{IsPart, run};
ghost use Rattle.oai_config.specs.Configs.{NamedConfig};
ghost use Rattle.oai_http.specs.declared.exchanges.Answer.{Answer};
ghost use Rattle.oai_http.specs.declared.exchanges.Call.{Call};
ghost use Rattle.oai_host.specs.Alone.{own_answers, own_calls};
ghost use Rattle.oai_headline.specs.Chains.{IsStepOf};
ghost use Rattle.oai_startup.specs.Rules.{HasRules};
ghost use Rattle.oai_headline.specs.ClientHarvests.{AreSuccessiveByClient, AreSuccessiveByClientWithin, ClientHarvest, IsSeen, IsSomeClientHarvest, IsWholeClientCopy, client_copy, last_client_harvest};
ghost use Rattle.oai_headline.specs.Eras.{AreTrueOver, HaveNumbersIn, VisitedEra, visits_within};
ghost use Rattle.oai_headline.specs.Throughout.{AreTrueFrom, own_given, whole_visits};
ghost use Rattle.oai_headline.specs.Visits.{Visit, commands_in, found_by, visits};

/// Harvests miss nothing, as a client sees them (OAI-PMH 2.0, sections 2.5.1, 2.7.1 and 3.5). At a repository whose
/// answers are true ([`throughout_law`](crate::throughout_law)) and which keeps its deleted records, a client requests
/// all records in a metadataPrefix and follows the list by the tokens that it sees in the answers, each before its
/// expirationDate. It repeats this any number of times, each time from the day or the second of the responseDate in the
/// first answer of the previous harvest. Anything else may be asked and deposited between and during its requests, and
/// anything may fail. Of all records that it saw, it keeps the last of each identifier. Then it has exactly the
/// records, live and deleted, of the items that had one in that metadataPrefix when the last harvest began.
///
/// So it is over eras, between which a checkpoint ends all open lists: each harvest is made within an era, whichever it
/// is (`over`). The numbers of lists are raised to none beyond 64 bits.
///
/// The bytes of an answer determine what the client sees: two documents that could be seen in it show the same. And
/// visits whose steps are a harvest of the machine are such a harvest of a client: the machine's answers satisfy what
/// is required of the answers. The function is empty.
pub fn client_harvests_law()
    ensures copied { (calls : List Call) (answers : List Answer) (entry : NamedConfig) (left : RepoState)
        (prefix : List ℕ) (first : ClientHarvest) (others : List ClientHarvest) → HasRules entry
        → entry.config.deleted ≡ Persistent
        → AreTrueFrom entry.config (empty_state entry.config) (own_calls entry.name calls)
        (own_answers entry.name calls answers) left
        → AreSuccessiveByClient entry.config (whole_visits (own_given entry calls answers)) prefix first others
        → IsWholeClientCopy entry.config prefix (found_by (last_client_harvest first others).first.visit)
        (client_copy (first ∷ others)) }
    ensures over { (eras : List VisitedEra) (entry : NamedConfig) (left : RepoState) (prefix : List ℕ)
        (first : ClientHarvest) (others : List ClientHarvest) → HasRules entry → entry.config.deleted ≡ Persistent
        → AreTrueOver entry.config eras left → HaveNumbersIn entry.config (empty_state entry.config) eras
        → AreSuccessiveByClientWithin entry.config (visits_within entry.config (empty_state entry.config) eras) prefix first others
        → IsWholeClientCopy entry.config prefix (found_by (last_client_harvest first others).first.visit)
        (client_copy (first ∷ others)) }
    ensures seen { (answer : Answer) (one other : SeenDocument) → IsSeen answer one → IsSeen answer other
        → one ≡ other }
    ensures met { (config : RepositoryConfig) (calls : List Call) (prefix : List ℕ) (from : Option (List ℕ))
        (some : List Visit) (harvest : Harvest) → IsConfig config → AreRepositoryFormats config.formats
        → IsPart some (visits config (empty_state config) calls)
        → AllZip (IsStepOf config) some (requests_of harvest)
        → IsHarvest config (run config (empty_state config) (commands_in config calls))
        (records_since prefix from) harvest
        → IsSomeClientHarvest config (visits config (empty_state config) calls) prefix from some }
{}
