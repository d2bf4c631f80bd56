//! The requests of OAI-PMH: each is parsed, and replied to by its verb.
ghost use Rattle.std.specs.Prelude.{◌≡◌, true, IfOk, IsTrue};
ghost use Rattle.oai_args.specs.Asks.{asks};
ghost use Rattle.oai_args.specs.Pairs.{decoded_pairs};
ghost use Rattle.oai_args.specs.Requests.{is_by_record_verb, request_of};
ghost use Rattle.oai_answers.specs.Answers.{no_arguments};
ghost use Rattle.oai_answers.specs.Borrowed.{attributes_of};
ghost use Rattle.oai_catalogue.specs.Store.{Spends};
ghost use Rattle.oai_repo.specs.Answers.{arguments_of_request};
ghost use Rattle.oai_repo.specs.Calls.{room_to_ask};
ghost use Rattle.oai_repo.specs.Replays.{AreAsBefore};
ghost use Rattle.oai_repo.specs.Views.{IsReady, IsViewReply, IsViewReplyTo, LeavesTableAndLists, view_ask_response, view_response};

use crate::lists::{ListRequest, reply_with_list};
use crate::records::{formats_of, identity, reply_about_item, sets_answer};
use crate::responses::{Replied, make_reply, reply_with_error};
use crate::tokens::reply_with_next_part;
use crate::view::{RepoView, with_arguments};
use oai_answers::{Body, ErrorCode};
use oai_args::{ArgFault, Ask, read_request};
use oai_catalogue::Versions;
use oai_item::Fault;
use oai_lists::Lists;

/// Replies to a request, by the bytes of its query. A fault leaves everything unchanged; any may come.
pub(crate) fn reply_to_query<V: Versions>(
    repo: &RepoView<'_>,
    lists: &mut Lists,
    store: &mut V,
    query: &[u8],
) -> Result<Replied, Fault>
    requires ready { IsReady V.Versions repo.now lists.old store.old }
    requires bare { attributes_of repo.now.asked ≡ no_arguments }
    ensures reply { IfOk result (λ replied. IsTrue (V.honest store.old)
        → (let request = request_of repo.now.config.now.granularity (decoded_pairs query.now) in
        IsViewReplyTo repo.now (arguments_of_request request)
        (view_response repo.now lists.old (V.lists store.old) request)
        replied lists.new (V.lists store.new))) }
    ensures same { IfOk result (λ replied. AreAsBefore V.Versions replied.replay lists.old store.old
        lists.new store.new) }
    ensures left { LeavesTableAndLists V.Versions result repo.now lists.old store.old lists.new store.new }
    ensures store { Spends V.room V.failures V.honest (room_to_ask
        (request_of repo.now.config.now.granularity (decoded_pairs query.now))) result
        store.old store.new }
{
    match read_request(repo.alloc, query, repo.config.granularity()) {
        Ok(ask) => reply_to(&with_arguments(*repo, &ask), lists, store, &ask),
        Err(ArgFault::BadVerb) => Ok(Replied::listless(reply_with_error(
            repo,
            ErrorCode::BadVerb,
        )?)),
        Err(ArgFault::BadArgument) => Ok(Replied::listless(reply_with_error(
            repo,
            ErrorCode::BadArgument,
        )?)),
        Err(ArgFault::NoMemory) => Err(Fault::NoMemory),
    }
}

/// Replies to a well-formed request.
#[tactic(auto, using(crate::proofs::ReplayLemmas::part_sets, crate::proofs::ReplayLemmas::part_record, crate::proofs::ReplayLemmas::part_formats))]
fn reply_to<V: Versions>(
    repo: &RepoView<'_>,
    lists: &mut Lists,
    store: &mut V,
    ask: &Ask,
) -> Result<Replied, Fault>
    requires ready { IsReady V.Versions repo.now lists.old store.old }
    requires lists { is_by_record_verb ask.now ≡ true }
    ensures reply { IfOk result (λ replied. IsTrue (V.honest store.old)
        → IsViewReply repo.now (view_ask_response repo.now lists.old (V.lists store.old) ask.now)
        replied lists.new (V.lists store.new)) }
    ensures same { IfOk result (λ replied. AreAsBefore V.Versions replied.replay lists.old store.old
        lists.new store.new) }
    ensures left { LeavesTableAndLists V.Versions result repo.now lists.old store.old lists.new store.new }
    ensures store { Spends V.room V.failures V.honest (room_to_ask (asks ask.now)) result store.old store.new }
{
    match ask {
        Ask::Identify => {
            let reply = make_reply(repo, Body::Identify(identity(repo.config)))?;
            Ok(Replied::listless(reply))
        }
        Ask::Formats { identifier: None } => {
            let reply = make_reply(repo, formats_of(repo.config, None))?;
            Ok(Replied::listless(reply))
        }
        Ask::Formats {
            identifier: Some(identifier),
        } => {
            let reply = reply_about_item(repo, store, identifier.as_str(), None)?;
            Ok(Replied::listless(reply))
        }
        Ask::Sets => {
            let reply = make_reply(repo, sets_answer(repo.config, repo.sets.as_slice()))?;
            Ok(Replied::listless(reply))
        }
        Ask::Get { identifier, prefix } => {
            let prefix = Some(prefix.as_str());
            let reply = reply_about_item(repo, store, identifier.as_str(), prefix)?;
            Ok(Replied::listless(reply))
        }
        Ask::List {
            verb,
            prefix,
            from,
            until,
            set,
        } => {
            let request = ListRequest {
                verb: *verb,
                prefix: prefix.as_str(),
                from,
                until,
                set,
            };
            reply_with_list(repo, lists, store, &request)
        }
        Ask::Resume { verb, token } => {
            reply_with_next_part(repo, lists, store, *verb, token.as_str())
        }
    }
}
