//! Successive harvests: they miss nothing.
ghost use Rattle.std.specs.Prelude.{◌≡◌, ℕ, List, [], ◌∷◌, map};
ghost use Rattle.oai_item.specs.declared.deleted_record.DeletedRecord.TheVariants.{Persistent};
ghost use Rattle.oai_settings.specs.Config.{IsConfig, RepositoryConfig};
ghost use Rattle.oai_repo.specs.State.{empty_state};
ghost use Rattle.oai_laws.specs.Runs.{Timed, run};
ghost use Rattle.oai_copy.specs.Copies.{caught_up_with};
ghost use Rattle.oai_laws.specs.Harvests.{AreSuccessive, Harvest, IsWholeCopy, harvested, last_harvest};
ghost use Rattle.oai_laws.specs.WorkedHarvests.{AreWorkedHarvests, archive_b};

/// Harvests miss nothing (OAI-PMH 2.0, sections 2.5.1 and 2.7.1). The law holds of a repository that keeps its deleted
/// records, for any requests at any moments from its beginning on, and any deposits and deletions meanwhile. A harvest
/// is a list request and those that follow it by its tokens to the end, or one with a single answer. Let a harvest of
/// all records in a metadataPrefix be followed by any number of others, each begun later than the one before and
/// requesting the records from the datestamp at which that one began. Then a new copy, updated with the items of each
/// of them, one after the other, holds exactly the items, live and deleted, that had a record in that metadataPrefix
/// when the last one began. A theorem, proved by an empty function.
pub fn harvest_law()
    ensures copied { (config : RepositoryConfig) (commands : List Timed) (prefix : List ℕ) (first : Harvest)
        (others : List Harvest) → IsConfig config → config.deleted ≡ Persistent
        → AreSuccessive config (run config (empty_state config) commands) prefix first others
        → IsWholeCopy prefix (last_harvest first others).first.found
        (caught_up_with [] (map harvested (first ∷ others))) }
{}

/// The premises of the law of harvests can be met: a run of nine commands, computed, with three harvests. The first
/// gets its records over two pages, between which an item is deleted; the second, from the datestamp of the first on,
/// gets the deleted item and a new one in one answer; the third finds nothing.
pub fn worked_harvests_law()
    ensures config { IsConfig archive_b }
    ensures policy { archive_b.deleted ≡ Persistent }
    ensures harvests { (first : Harvest) × (second : Harvest) × (third : Harvest)
        × AreWorkedHarvests first second third }
{}
