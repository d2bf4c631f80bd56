//! Restores parts of a saved state: the repository begins, and open lists are put back.
ghost use Rattle.std.specs.Prelude.{◌≡◌, [], false, if◌then◌else◌, is_some, Ok, Err, IsTrue, OnErr, OnOk};
ghost use Rattle.oai_catalogue.specs.Store.{Spends};
ghost use Rattle.oai_holdings.specs.Index.{stored_items};
ghost use Rattle.oai_holdings.specs.Saved.{fault_of_store};
ghost use Rattle.oai_item.specs.Formats.{format_named};
ghost use Rattle.oai_item.specs.declared.faults.Fault.TheVariants as fault;
ghost use Rattle.oai_repo.specs.Fields.{TableAgrees};
ghost use Rattle.oai_repo.specs.Saved.{begun_list, list_state, may_begin, may_have_list, reopened_list, with_begun};
ghost use Rattle.oai_repo.specs.Tables.{IsPutBack};
ghost use Rattle.oai_repo.specs.Views.{IsReady, view_open_lists};
ghost use Rattle.oai_settings.specs.Config as rule;

use crate::saved_parts::SavedList;
use crate::view::RepoView;
use oai_catalogue::{Filter, Versions};
use oai_item::Fault;
use oai_lists::{Lists, OpenList};
use oai_settings::RepoConfig;
use oai_time::{Clock, LAST_SECOND, LAST_TICK};
use std::alloc::Global;

/// The first second of the year 0001.
const FIRST_DATE: i64 = -62_135_596_800;

/// Sets the clock, to that second from 1970 on, and the number of the next list. `Damaged` if a list is held or the
/// clock is not in the years 0001 to 9998; then nothing is changed. It allocates nothing.
pub(crate) fn begin(
    alloc: Global,
    config: &RepoConfig,
    clock: &mut Clock,
    lists: &mut Lists,
    start: i64,
    next: u64,
) -> Result<(), Fault>
    ensures answer { result
        ≡ (if may_begin lists.old start then Ok tt else Err fault.Damaged) }
    ensures begun { OnOk result ((clock.new ≡ start)
        × (lists.new ≡ record { limit = config.now.lists; next = next; lists = [] })) }
    ensures err { OnErr result ((clock.new ≡ clock.old) × (lists.new ≡ lists.old)) }
{
    if !may_begin(lists, start) {
        return Err(Fault::Damaged);
    }
    *clock = Clock::start(start);
    *lists = Lists::new(alloc, config.lists(), next);
    Ok(())
}

/// Whether no list is held, and the second, from 1970 on, lies in the years 0001 to 9998.
fn may_begin(lists: &Lists, start: i64) -> bool
    ensures { result ≡ may_begin lists.now start }
{
    lists.len() == 0 && is_in_years(start)
}

/// Whether the second, from 1970 on, lies in the years 0001 to 9998.
fn is_in_years(second: i64) -> bool
    ensures { result ≡ rule.is_in_years second }
{
    FIRST_DATE <= second && second <= LAST_TICK
}

/// Puts an open list back, behind those that are held: a snapshot of the items is taken for it, and its records are
/// those that its filter selects of them. `Damaged` if it may not be open here; otherwise any fault may come, `Damaged`
/// only if the store returns other items than were put into it. After a fault everything is unchanged.
pub(crate) fn reopen<V: Versions>(
    repo: &RepoView<'_>,
    lists: &mut Lists,
    store: &mut V,
    list: &SavedList<'_>,
) -> Result<(), Fault>
    requires ready { IsReady V.Versions repo.now lists.old store.old }
    ensures reopened { OnOk result (view_open_lists repo.now lists.new (V.lists store.new)
        ≡ with_begun (view_open_lists repo.now lists.old (V.lists store.old))
        (begun_list (list_state list.now) (stored_items repo.now.index.now (V.lists store.old)))) }
    ensures damaged { may_have_list repo.now.config.now repo.now.clock lists.old (list_state list.now) ≡ false
        → result ≡ Err fault.Damaged }
    ensures left { IsPutBack repo.now.config.now repo.now.index.now.version lists.old (V.lists store.old)
        lists.new (V.lists store.new) }
    ensures agrees { IsTrue (V.honest store.old) → TableAgrees lists.new (V.lists store.new) }
    ensures err { OnErr result ((lists.new ≡ lists.old) × (V.lists store.new ≡ V.lists store.old)) }
    ensures store { Spends V.room V.failures V.honest 1
        (fault_of_store (may_have_list repo.now.config.now repo.now.clock lists.old (list_state list.now)) result)
        store.old store.new }
{
    if !may_have_list(repo, lists, list) {
        return Err(Fault::Damaged);
    }
    let size = store.count(repo.index.version(), list.filter)? as u64;
    let filter = list.filter.copy(repo.alloc)?;
    let frozen = store.freeze(repo.index.version())?;
    match lists.reopen(reopened(list, filter, frozen, size)) {
        Ok(()) => Ok(()),
        Err(_) => {
            store.release(frozen);
            Err(Fault::NoMemory)
        }
    }
}

/// Whether the list may be open here: its number is above those of the lists that are held and below the next one, it is
/// of a format of the repository, and its end is above the clock and can be written.
fn may_have_list(repo: &RepoView<'_>, lists: &Lists, list: &SavedList<'_>) -> bool
    ensures { result
        ≡ may_have_list repo.now.config.now repo.now.clock lists.now (list_state list.now) }
{
    lists.may_reopen(list.number)
        && has_format(repo.config, list.filter)
        && repo.clock < list.end
        && list.end <= LAST_SECOND
}

/// Whether the repository has the format of the filter.
fn has_format(config: &RepoConfig, filter: &Filter) -> bool
    ensures { result ≡ is_some (format_named filter.now.prefix config.now.formats) }
{
    config
        .formats()
        .find_named(filter.prefix().as_str())
        .is_some()
}

/// The list with that copy of its filter, of that version and that many records. It has no mark.
fn reopened(list: &SavedList<'_>, filter: Filter, version: u64, size: u64) -> OpenList
    ensures { result ≡ reopened_list (list_state list.now) filter version size }
{
    OpenList {
        number: list.number,
        verb: list.verb,
        filter,
        version,
        size,
        end: list.end,
        given: list.given,
        mark: None,
    }
}
