//! ListIdentifiers and ListRecords (OAI-PMH 2.0, sections 4.3 and 4.5): the selection is answered whole, or with the
//! first part of a new list.
ghost use Rattle.std.specs.Prelude.{◌≡◌, ◌+◌, ◌<◌, ◌-ℤ◌, ◌&&◌, int_le, int_lt, is_some, length, true, None, Ok, IfOk, IsSome, IsTrue, OnOk};
ghost use Rattle.oai_time.specs.declared.text.TheConstants.{LAST_SECOND};
ghost use Rattle.std.specs.List.{list_all};
ghost use Rattle.oai_args.specs.Bounds.{given_bound};
ghost use Rattle.oai_args.specs.Verbs.{is_of_records};
ghost use Rattle.oai_answers.specs.Answers.{HasWritableEnd, HasWritableTimes};
ghost use Rattle.oai_answers.specs.Borrowed.{body_answer, continuation_of, page_of};
ghost use Rattle.oai_catalogue.specs.Calls.{OnlyReads};
ghost use Rattle.oai_catalogue.specs.Store.{Spares, Spends, VersionLists as Versioned};
ghost use Rattle.oai_lists.specs.OpenLists.{number_or_fault, open_fault};
ghost use Rattle.oai_settings.specs.Config.{is_in_years};
ghost use Rattle.oai_repo.specs.Answers as spec;
ghost use Rattle.oai_repo.specs.Fields.{AreInUse, is_place_in, open_lists_of, versions_in};
ghost use Rattle.oai_repo.specs.Listing as listing;
ghost use Rattle.oai_repo.specs.Replays.{AreAsBefore};
ghost use Rattle.oai_repo.specs.Tables.{IsKeptTable, dropped_at, has_end, version_ended, without_version};
ghost use Rattle.oai_repo.specs.Views.{HasListBegun, IsBeyondPart, IsFilter, IsOfFormat, IsReady, IsSelectionOrError, IsViewReply, LeavesTableAndLists, document_reply, first_items, view_list_response, view_new_list, view_open_lists, view_selected, view_selection_response, view_wait, wait_in};

use crate::parts::{end_of_part, mark_behind};
use crate::responses::{Replied, Reply, make_reply, reply_with_error};
use crate::tokens::{ListPart, reply_with_part};
use crate::view::RepoView;
use oai_answers::{Body, ErrorCode, Extent, Listed, Resumption};
use oai_args::BoundText;
use oai_catalogue::{Filter, Versions};
use oai_item::{Fault, Format, Item};
use oai_lists::{Lists, Mark, NewList, OpenListFault};
use oai_names::{ListVerb, Prefix, SetTree, Text};
use oai_time::{FIRST_SECOND, LAST_SECOND, lower, upper};
use std::alloc::{AllocError, Global};

/// A list request.
#[derive(Clone, Copy)]
pub(crate) struct ListRequest<'a> {
    /// Its verb.
    pub(crate) verb: ListVerb,
    /// The metadataPrefix.
    pub(crate) prefix: &'a str,
    /// The argument `from`, if it is given.
    pub(crate) from: &'a Option<BoundText>,
    /// The argument `until`, if it is given.
    pub(crate) until: &'a Option<BoundText>,
    /// The setSpec, if it is given.
    pub(crate) set: &'a Option<Text>,
}

/// The selection of a list request, and how it is listed.
#[derive(Drop)]
pub(crate) struct Selection<'a> {
    /// Its verb.
    pub(crate) verb: ListVerb,
    /// The requested format.
    pub(crate) format: &'a Format,
    /// The filter that selects the items.
    pub(crate) filter: Filter,
}

/// Replies to a list request.
pub(crate) fn reply_with_list<V: Versions>(
    repo: &RepoView<'_>,
    lists: &mut Lists,
    store: &mut V,
    request: &ListRequest<'_>,
) -> Result<Replied, Fault>
    requires ready { IsReady V.Versions repo.now lists.old store.old }
    requires lists { is_of_records request.now.verb ≡ true }
    ensures reply { IfOk result (λ replied. IsTrue (V.honest store.old)
        → IsViewReply repo.now
        (view_list_response repo.now lists.old (V.lists store.old) request.now)
        replied lists.new (V.lists store.new)) }
    ensures same { IfOk result (λ replied. AreAsBefore V.Versions replied.replay lists.old store.old
        lists.new store.new) }
    ensures left { LeavesTableAndLists V.Versions result repo.now lists.old store.old lists.new store.new }
    ensures store { Spends V.room V.failures V.honest 1 result store.old store.new }
{
    let asked = selection_of(repo, request)?;
    match asked {
        Ok(selection) => reply_with_selection(repo, lists, store, selection),
        Err(code) => Ok(Replied::listless(reply_with_error(repo, code)?)),
    }
}

/// The selection of a list request, or the error of its answer: noSetHierarchy if a set is requested and there are no
/// sets; a set that the repository lacks has no items.
pub(crate) fn selection_of<'a>(
    repo: &RepoView<'a>,
    request: &ListRequest<'_>,
) -> Result<Result<Selection<'a>, ErrorCode>, AllocError>
    requires { is_of_records request.now.verb ≡ true }
    ensures { IfOk result (λ asked. IsSelectionOrError repo.now request.now asked) }
{
    if lacks_sets(repo.sets, request.set) {
        return Ok(Err(ErrorCode::NoSetHierarchy));
    }
    let Some(format) = repo.config.formats().find_named(request.prefix) else {
        return Ok(Err(ErrorCode::CannotDisseminateFormat));
    };
    let Some(filter) = filter_of(repo.alloc, repo.sets, &format.prefix, request)? else {
        return Ok(Err(ErrorCode::NoRecordsMatch));
    };
    Ok(Ok(Selection {
        verb: request.verb,
        format,
        filter,
    }))
}

/// Replies with the selection: whole if it is at most as long as a part of a list.
fn reply_with_selection<V: Versions>(
    repo: &RepoView<'_>,
    lists: &mut Lists,
    store: &mut V,
    selection: Selection<'_>,
) -> Result<Replied, Fault>
    requires ready { IsReady V.Versions repo.now lists.old store.old }
    requires selection { IsOfFormat repo.now.config.now selection }
    ensures reply { IfOk result (λ replied. IsTrue (V.honest store.old)
        → IsViewReply repo.now
        (view_selection_response repo.now lists.old (V.lists store.old) selection.entry)
        replied lists.new (V.lists store.new)) }
    ensures same { IfOk result (λ replied. AreAsBefore V.Versions replied.replay lists.old store.old
        lists.new store.new) }
    ensures left { LeavesTableAndLists V.Versions result repo.now lists.old store.old lists.new store.new }
    ensures store { Spends V.room V.failures V.honest 1 result store.old store.new }
{
    let first = store.part(
        repo.index.version(),
        &selection.filter,
        0,
        most_and_one(repo),
    )?;
    reply_by_first(repo, lists, store, selection, first.as_slice())
}

/// Replies with the selection, whose first items are known, up to one more than a part of a list may have.
fn reply_by_first<V: Versions>(
    repo: &RepoView<'_>,
    lists: &mut Lists,
    store: &mut V,
    selection: Selection<'_>,
    first: &[Item],
) -> Result<Replied, Fault>
    requires ready { IsReady V.Versions repo.now lists.old store.old }
    requires selection { IsOfFormat repo.now.config.now selection }
    requires first { IsTrue (V.honest store.old)
        → first.now ≡ first_items repo.now (V.lists store.old) selection.filter }
    ensures reply { IfOk result (λ replied. IsTrue (V.honest store.old)
        → IsViewReply repo.now
        (view_selection_response repo.now lists.old (V.lists store.old) selection.entry)
        replied lists.new (V.lists store.new)) }
    ensures same { IfOk result (λ replied. AreAsBefore V.Versions replied.replay lists.old store.old
        lists.new store.new) }
    ensures left { LeavesTableAndLists V.Versions result repo.now lists.old store.old lists.new store.new }
    ensures store { Spends V.room V.failures V.honest 1 result store.old store.new }
{
    if repo.config.chunk() < first.len() as u64 {
        return open_list(repo, lists, store, selection, first);
    }
    Ok(Replied::listless(reply_with_all(repo, &selection, first)?))
}

/// Replies with the items, which are the whole selection.
fn reply_with_all(
    repo: &RepoView<'_>,
    selection: &Selection<'_>,
    items: &[Item],
) -> Result<Reply, AllocError>
    requires dated { is_in_years repo.now.clock ≡ true }
    requires lists { is_of_records selection.now.verb ≡ true }
    ensures { IfOk result (λ reply. reply ≡ document_reply repo.now (listing.complete_answer
        repo.now.config.now selection.now.verb selection.now.format.now items.now)) }
{
    if items.is_empty() {
        return reply_with_error(repo, ErrorCode::NoRecordsMatch);
    }
    let whole = Listed {
        items,
        granularity: repo.config.granularity(),
        resumption: Resumption::Whole,
    };
    make_reply(
        repo,
        answer_by_verb(selection.verb, selection.format, whole),
    )
}

/// The maximum length of a part of a list, plus one.
#[tactic(auto, unfolding(oai_settings::specs::Config::are_limits))]
fn most_and_one(repo: &RepoView<'_>) -> usize
    ensures { result ≡ repo.now.config.now.chunk + 1 }
{
    repo.config.chunk() as usize + 1
}

/// Replies with the first part of a new list, or with the seconds to wait. The first items are one more than a part may
/// have.
fn open_list<V: Versions>(
    repo: &RepoView<'_>,
    lists: &mut Lists,
    store: &mut V,
    selection: Selection<'_>,
    first: &[Item],
) -> Result<Replied, Fault>
    requires ready { IsReady V.Versions repo.now lists.old store.old }
    requires selection { IsOfFormat repo.now.config.now selection }
    requires first { IsBeyondPart V.Versions repo.now selection.filter first.now store.old }
    ensures reply { IfOk result (λ replied. IsTrue (V.honest store.old)
        → IsViewReply repo.now
        (view_new_list repo.now lists.old (V.lists store.old) selection.entry
        (view_wait repo.now lists.old (V.lists store.old)))
        replied lists.new (V.lists store.new)) }
    ensures same { IfOk result (λ replied. AreAsBefore V.Versions replied.replay lists.old store.old
        lists.new store.new) }
    ensures left { LeavesTableAndLists V.Versions result repo.now lists.old store.old lists.new store.new }
    ensures store { Spends V.room V.failures V.honest 1 result store.old store.new }
{
    match number_or_wait(repo, lists) {
        Ok(number) => start_list(repo, lists, store, selection, first, number),
        Err(seconds) => Ok(Replied::later(seconds)),
    }
}

/// The number of a list that begins now. The error is how many seconds to wait: as many lists are open as may be, or no
/// number is left.
pub(crate) fn number_or_wait(repo: &RepoView<'_>, lists: &Lists) -> Result<u64, i64>
    requires dated { is_in_years repo.now.clock ≡ true }
    requires kept { IsKeptTable repo.now.config.now lists.now }
    ensures number { IfOk result (λ number. number_or_fault (open_fault lists.now repo.now.clock) lists.now.next
        ≡ Ok number) }
    ensures wait { (all : Versioned) → view_wait repo.now lists.now all ≡ wait_in result }
{
    match lists.next(repo.clock) {
        Ok(number) => Ok(number),
        Err(OpenListFault::Full) => Err(seconds_to_end(lists, repo.clock)),
        Err(OpenListFault::NumbersSpent) => Err(repo.lifetime()),
        Err(OpenListFault::NoMemory) => unreachable!(),
    }
}

/// Replies with the first part of a new list, which gets that number, the next one.
fn start_list<V: Versions>(
    repo: &RepoView<'_>,
    lists: &mut Lists,
    store: &mut V,
    selection: Selection<'_>,
    first: &[Item],
    number: u64,
) -> Result<Replied, Fault>
    requires ready { IsReady V.Versions repo.now lists.old store.old }
    requires selection { IsOfFormat repo.now.config.now selection }
    requires first { IsBeyondPart V.Versions repo.now selection.filter first.now store.old }
    requires next { number_or_fault (open_fault lists.old repo.now.clock) lists.old.next ≡ Ok number }
    ensures reply { IfOk result (λ replied. IsTrue (V.honest store.old)
        → IsViewReply repo.now
        (view_new_list repo.now lists.old (V.lists store.old) selection.entry None)
        replied lists.new (V.lists store.new)) }
    ensures same { IfOk result (λ replied. AreAsBefore V.Versions replied.replay lists.old store.old
        lists.new store.new) }
    ensures left { LeavesTableAndLists V.Versions result repo.now lists.old store.old lists.new store.new }
    ensures store { Spends V.room V.failures V.honest 1 result store.old store.new }
{
    let size = count_selected(repo, store, &selection.filter, first)?;
    let extent = Extent { size, cursor: 0 };
    let next = end_of_part(repo.config.chunk(), extent);
    let part = ListPart {
        number,
        end: repo.end(),
        extent,
        next,
    };
    let items = &first[..next as usize];
    let reply = reply_with_part(repo, selection.verb, selection.format, items, part)?;
    let mark = mark_behind(repo.alloc, items, next);
    start_unread(repo, lists, store, selection, size, mark)?;
    Ok(Replied::with_part(reply))
}

/// Opens a list of that many records with that mark, without reading a part: a snapshot of the items is taken for it, and
/// it gets the filter.
pub(crate) fn start_unread<V: Versions>(
    repo: &RepoView<'_>,
    lists: &mut Lists,
    store: &mut V,
    selection: Selection<'_>,
    size: u64,
    mark: Option<Mark>,
) -> Result<(), Fault>
    requires ready { IsReady V.Versions repo.now lists.old store.old }
    requires selection { IsOfFormat repo.now.config.now selection }
    requires size { IsTrue (V.honest store.old)
        → size ≡ length (view_selected repo.now (V.lists store.old) selection.filter) }
    requires mark { IsTrue (V.honest store.old)
        → is_place_in (view_selected repo.now (V.lists store.old) selection.filter) mark ≡ true }
    ensures begun { OnOk result (HasListBegun V.Versions repo.now selection.entry size mark lists.old store.old
        lists.new store.new) }
    ensures passed { OnOk result (IsTrue (V.honest store.old)
        → view_open_lists repo.now lists.new (V.lists store.new)
        ≡ (view_new_list repo.now lists.old (V.lists store.old) selection.entry None).1) }
    ensures left { LeavesTableAndLists V.Versions result repo.now lists.old store.old lists.new store.new }
    ensures store { Spends V.room V.failures V.honest 1 result store.old store.new }
{
    let end = repo.end();
    let frozen = store.freeze(repo.index.version())?;
    let list = NewList {
        verb: selection.verb,
        filter: selection.filter,
        version: frozen,
        size,
        end,
        given: repo.config.chunk(),
        mark,
    };
    match lists.open(repo.clock, list) {
        Ok(_) => Ok(()),
        Err(_) => {
            store.release(frozen);
            Err(Fault::NoMemory)
        }
    }
}

/// How many items the filter selects, the size that each part of the list says; the first of them are known, one more
/// than a part may have. Any fault but `TooManyPages` may come, and `Damaged` if the store counts fewer.
fn count_selected<V: Versions>(
    repo: &RepoView<'_>,
    store: &mut V,
    filter: &Filter,
    first: &[Item],
) -> Result<u64, Fault>
    requires stands { IsSome (V.lists store.old repo.now.index.now.version) }
    requires first { IsBeyondPart V.Versions repo.now filter.now first.now store.old }
    ensures size { IfOk result (λ size. IsTrue (V.honest store.old)
        → size ≡ length (view_selected repo.now (V.lists store.old) filter.now)) }
    ensures beyond { IfOk result (λ size. repo.now.config.now.chunk < size) }
    ensures reads { OnlyReads V.Versions result store.old store.new }
{
    let size = store.count(repo.index.version(), filter)? as u64;
    if size <= repo.config.chunk() {
        return Err(Fault::Damaged);
    }
    Ok(size)
}

/// The answer with the items in the format, as the verb lists them. Lists of sets have a verb of their own.
pub(crate) fn answer_by_verb<'a>(verb: ListVerb, format: &'a Format, list: Listed<'a>) -> Body<'a>
    requires end { HasWritableEnd (continuation_of list.resumption) }
    requires lists { is_of_records verb ≡ true }
    ensures answer { body_answer result ≡ listing.answer_by_verb verb format.now (page_of list.entry) }
    ensures writable { HasWritableTimes (body_answer result) }
{
    match verb {
        ListVerb::Identifiers => Body::ListIdentifiers(list),
        ListVerb::Records => Body::ListRecords(format, list),
        ListVerb::Sets => unreachable!(),
    }
}

/// Whether a set is requested and there are none.
fn lacks_sets(sets: &SetTree, set: &Option<Text>) -> bool
    ensures { result ≡ (is_some set.now && listing.has_no_sets sets.now) }
{
    set.is_some() && sets.as_slice().is_empty()
}

/// The filter that selects the items, or None if the repository lacks the set.
fn filter_of(
    alloc: Global,
    sets: &SetTree,
    prefix: &Prefix,
    request: &ListRequest<'_>,
) -> Result<Option<Filter>, AllocError>
    ensures { IfOk result (λ filter. IsFilter sets.now prefix.now request.now.from.now
        request.now.until.now request.now.set.now filter) }
{
    let prefix = prefix.copy(alloc)?;
    let (lower, upper) = (lower_given(request.from), upper_given(request.until));
    match request.set {
        Some(set) => match sets.find(set.as_str()) {
            Some(set) => Ok(Some(Filter::new(prefix, lower, upper, Some(set.copy(alloc)?)))),
            None => Ok(None),
        },
        None => Ok(Some(Filter::new(prefix, lower, upper, None))),
    }
}

/// The first second that the argument `from` includes.
fn lower_given(from: &Option<BoundText>) -> i64
    ensures { result ≡ spec.lower_given (given_bound from.now) }
{
    match from {
        Some(text) => lower(text.bound()),
        None => FIRST_SECOND,
    }
}

/// The last second that the argument `until` includes.
fn upper_given(until: &Option<BoundText>) -> i64
    ensures { result ≡ spec.upper_given (given_bound until.now) }
{
    match until {
        Some(text) => upper(text.bound()),
        None => LAST_SECOND,
    }
}

/// Drops the first of the lists that have ended at `now`, in seconds from 1970 on, and releases its version. It
/// allocates nothing and cannot fail.
pub(crate) fn drop_first_ended<V: Versions>(lists: &mut Lists, store: &mut V, now: i64)
    requires stands { AreInUse (versions_in lists.old) (V.lists store.old) }
    ensures table { lists.new ≡ dropped_at now lists.old }
    ensures released { V.lists store.new
        ≡ without_version (version_ended now lists.old) (V.lists store.old) }
    ensures store { Spares V.room V.failures V.honest store.old store.new }
{
    match lists.expire(now) {
        Some(version) => store.release(version),
        None => {}
    }
}

/// The seconds until the first of the open lists ends; 0 if none is open.
fn seconds_to_end(lists: &Lists, now: i64) -> i64
    requires dated { is_in_years now ≡ true }
    requires ends { list_all has_end lists.now.lists ≡ true }
    ensures { (all : Versioned)
        → result ≡ listing.seconds_to_end now (open_lists_of now lists.now all).lists }
{
    match lists.earliest_end(now) {
        Some(end) => seconds_until(now, end),
        None => 0,
    }
}

/// The seconds from a moment to a later one.
fn seconds_until(now: i64, end: i64) -> i64
    requires dated { is_in_years now ≡ true }
    requires later { int_lt now end ≡ true }
    requires ends { int_le end LAST_SECOND ≡ true }
    ensures { result ≡ end -ℤ now }
{
    end - now
}
