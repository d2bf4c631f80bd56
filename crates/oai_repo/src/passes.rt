//! Replays requests: what each leaves of the open lists, without a reply.
ghost use Rattle.std.specs.Prelude.{◌≡◌, length, true, IsTrue, OnOk};
ghost use Rattle.oai_args.specs.Asks.{asks};
ghost use Rattle.oai_args.specs.Pairs.{decoded_pairs};
ghost use Rattle.oai_args.specs.Requests.{is_by_record_verb, request_of};
ghost use Rattle.oai_args.specs.Verbs.{is_of_records};
ghost use Rattle.oai_catalogue.specs.Store.{Spends, VersionLists as Versioned};
ghost use Rattle.oai_settings.specs.Config.{is_in_years};
ghost use Rattle.oai_repo.specs.Calls.{room_to_ask};
ghost use Rattle.oai_repo.specs.Fields.{AreInUse, TableAgrees};
ghost use Rattle.oai_repo.specs.Tables.{IsKeptTable, IsLeftOpen};
ghost use Rattle.oai_repo.specs.Views.{IsOfFormat, IsReady, LeavesTableAndLists, view_ask_response, view_list_response, view_numbers, view_open_lists, view_response, view_selected, view_selection_response, view_token_response};

use crate::lists::{ListRequest, Selection, number_or_wait, selection_of, start_unread};
use crate::parts::end_of_part;
use crate::tokens::{chunk_of, continued, cursor_behind};
use crate::view::RepoView;
use oai_answers::Extent;
use oai_args::{ArgFault, Ask, read_request};
use oai_catalogue::Versions;
use oai_item::Fault;
use oai_lists::Lists;
use oai_names::ListVerb;
use std::alloc::Global;

/// Replays a request, by the bytes of its query: the open lists are left as the request leaves them, and no reply is
/// made. A fault leaves everything unchanged; any may come.
pub(crate) fn pass_query<V: Versions>(
    repo: &RepoView<'_>,
    lists: &mut Lists,
    store: &mut V,
    query: &[u8],
) -> Result<(), Fault>
    requires ready { IsReady V.Versions repo.now lists.old store.old }
    ensures passed { OnOk result (IsTrue (V.honest store.old)
        → (let request = request_of repo.now.config.now.granularity (decoded_pairs query.now) in
        view_open_lists repo.now lists.new (V.lists store.new)
        ≡ (view_response repo.now lists.old (V.lists store.old) request).1)) }
    ensures left { LeavesTableAndLists V.Versions result repo.now lists.old store.old lists.new store.new }
    ensures store { Spends V.room V.failures V.honest (room_to_ask
        (request_of repo.now.config.now.granularity (decoded_pairs query.now))) result
        store.old store.new }
{
    match read_request(repo.alloc, query, repo.config.granularity()) {
        Ok(ask) => pass(repo, lists, store, &ask),
        Err(ArgFault::BadVerb) => Ok(()),
        Err(ArgFault::BadArgument) => Ok(()),
        Err(ArgFault::NoMemory) => Err(Fault::NoMemory),
    }
}

/// Replays a well-formed request.
fn pass<V: Versions>(
    repo: &RepoView<'_>,
    lists: &mut Lists,
    store: &mut V,
    ask: &Ask,
) -> Result<(), Fault>
    requires ready { IsReady V.Versions repo.now lists.old store.old }
    requires lists { is_by_record_verb ask.now ≡ true }
    ensures passed { OnOk result (IsTrue (V.honest store.old)
        → view_open_lists repo.now lists.new (V.lists store.new)
        ≡ (view_ask_response repo.now lists.old (V.lists store.old) ask.now).1) }
    ensures left { LeavesTableAndLists V.Versions result repo.now lists.old store.old lists.new store.new }
    ensures store { Spends V.room V.failures V.honest (room_to_ask (asks ask.now)) result store.old store.new }
{
    match ask {
        Ask::Identify => Ok(()),
        Ask::Formats { .. } => Ok(()),
        Ask::Sets => Ok(()),
        Ask::Get { .. } => Ok(()),
        Ask::List {
            verb,
            prefix,
            from,
            until,
            set,
        } => {
            let request = ListRequest {
                verb: *verb,
                prefix: prefix.as_str(),
                from,
                until,
                set,
            };
            pass_list(repo, lists, store, &request)
        }
        Ask::Resume { verb, token } => {
            pass_part(repo, lists, *verb, token.as_str());
            Ok(())
        }
    }
}

/// Replays a list request.
fn pass_list<V: Versions>(
    repo: &RepoView<'_>,
    lists: &mut Lists,
    store: &mut V,
    request: &ListRequest<'_>,
) -> Result<(), Fault>
    requires ready { IsReady V.Versions repo.now lists.old store.old }
    requires lists { is_of_records request.now.verb ≡ true }
    ensures passed { OnOk result (IsTrue (V.honest store.old)
        → view_open_lists repo.now lists.new (V.lists store.new)
        ≡ (view_list_response repo.now lists.old (V.lists store.old) request.now).1) }
    ensures left { LeavesTableAndLists V.Versions result repo.now lists.old store.old lists.new store.new }
    ensures store { Spends V.room V.failures V.honest 1 result store.old store.new }
{
    let asked = selection_of(repo, request)?;
    match asked {
        Ok(selection) => pass_selection(repo, lists, store, selection),
        Err(_) => Ok(()),
    }
}

/// Replays a list request by its selection: a list is opened if that is longer than a part of a list. No record is read;
/// they are only counted.
fn pass_selection<V: Versions>(
    repo: &RepoView<'_>,
    lists: &mut Lists,
    store: &mut V,
    selection: Selection<'_>,
) -> Result<(), Fault>
    requires ready { IsReady V.Versions repo.now lists.old store.old }
    requires selection { IsOfFormat repo.now.config.now selection }
    ensures passed { OnOk result (IsTrue (V.honest store.old)
        → view_open_lists repo.now lists.new (V.lists store.new)
        ≡ (view_selection_response repo.now lists.old (V.lists store.old) selection.entry).1) }
    ensures left { LeavesTableAndLists V.Versions result repo.now lists.old store.old lists.new store.new }
    ensures store { Spends V.room V.failures V.honest 1 result store.old store.new }
{
    let size = store.count(repo.index.version(), &selection.filter)? as u64;
    pass_counted(repo, lists, store, selection, size)
}

/// Replays a list request that selects that many items.
fn pass_counted<V: Versions>(
    repo: &RepoView<'_>,
    lists: &mut Lists,
    store: &mut V,
    selection: Selection<'_>,
    size: u64,
) -> Result<(), Fault>
    requires ready { IsReady V.Versions repo.now lists.old store.old }
    requires selection { IsOfFormat repo.now.config.now selection }
    requires size { IsTrue (V.honest store.old)
        → size ≡ length (view_selected repo.now (V.lists store.old) selection.filter) }
    ensures passed { OnOk result (IsTrue (V.honest store.old)
        → view_open_lists repo.now lists.new (V.lists store.new)
        ≡ (view_selection_response repo.now lists.old (V.lists store.old) selection.entry).1) }
    ensures left { LeavesTableAndLists V.Versions result repo.now lists.old store.old lists.new store.new }
    ensures store { Spends V.room V.failures V.honest 1 result store.old store.new }
{
    if size <= repo.config.chunk() {
        return Ok(());
    }
    match number_or_wait(repo, lists) {
        Ok(_) => start_unread(repo, lists, store, selection, size, None),
        Err(_) => Ok(()),
    }
}

/// Replays a request for the next part of a list: if its token continues one, the list is renewed and the token of that
/// part counts as given. The list then has no mark, so its next part is found by skipping from its first record on. It
/// allocates nothing, reads nothing and cannot fail.
fn pass_part(repo: &RepoView<'_>, lists: &mut Lists, verb: ListVerb, token: &str)
    requires dated { is_in_years repo.now.clock ≡ true }
    requires kept { IsKeptTable repo.now.config.now lists.old }
    ensures passed { (all : Versioned) → TableAgrees lists.old all
        → view_open_lists repo.now lists.new all
        ≡ (view_token_response repo.now lists.old all verb token.now).1 }
    ensures left { (all : Versioned) → AreInUse (view_numbers repo.now lists.old) all
        → IsLeftOpen repo.now.config.now repo.now.clock repo.now.index.now.version lists.old all
        lists.new all }
    ensures agrees { (all : Versioned) → TableAgrees lists.old all → TableAgrees lists.new all }
{
    let chunk = chunk_of(repo);
    let Some((at, list, cursor)) = continued(lists, repo.clock, chunk, verb, token) else {
        return;
    };
    let extent = Extent {
        size: list.size,
        cursor,
    };
    let next = cursor_behind(list.size, end_of_part(chunk, extent));
    lists.carry_on(at, repo.end(), next, None);
}
