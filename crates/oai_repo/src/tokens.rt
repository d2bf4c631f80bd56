//! Resumption tokens (OAI-PMH 2.0, section 3.5): parts of a list, and the token for the next one.
ghost use Rattle.std.specs.Prelude.{◌≡◌, ◌≢◌, ◌+◌, length, slice_get, true, Some, IfOk, IfSome, IsSome, IsTrue, OnSome};
ghost use Rattle.std.specs.Option.{option_map};
ghost use Rattle.oai_time.specs.Stamp.{IsWritable};
ghost use Rattle.oai_item.specs.Formats.{format_named};
ghost use Rattle.oai_args.specs.Verbs.{is_of_records};
ghost use Rattle.oai_catalogue.specs.Calls.{OnlyReads};
ghost use Rattle.oai_catalogue.specs.Store.{Spends};
ghost use Rattle.oai_lists.specs.OpenLists.{IsListTable};
ghost use Rattle.oai_lists.specs.Tokens.{token_of};
ghost use Rattle.oai_settings.specs.Config.{is_in_years};
ghost use Rattle.oai_repo.specs.Fields.{frozen_in, is_place_in, items_frozen};
ghost use Rattle.oai_repo.specs.Listing as listing;
ghost use Rattle.oai_repo.specs.Replays.{AreAsBefore};
ghost use Rattle.oai_repo.specs.Tables.{table_continued};
ghost use Rattle.oai_repo.specs.Views.{IsContinuing, IsReady, IsViewReply, LeavesTableAndLists, document_reply, view_token_response};

use crate::lists::answer_by_verb;
use crate::parts::{end_of_part, mark_behind, read_part};
use crate::responses::{Replied, Reply, make_reply, reply_with_error};
use crate::view::RepoView;
use oai_answers::{ErrorCode, Extent, Listed, Remaining, Resumption};
use oai_catalogue::Versions;
use oai_item::{Fault, Format, Item};
use oai_lists::{Lists, Mark, OpenList, Token};
use oai_names::ListVerb;
use oai_settings::RepoConfig;
use std::alloc::AllocError;

/// A part of a list that is too long for one answer, an incomplete list.
#[derive(Clone, Copy)]
pub(crate) struct ListPart {
    /// The number of the list.
    pub(crate) number: u64,
    /// When the list ends, in seconds from 1970 on.
    pub(crate) end: i64,
    /// How many records the list has, and how many of them precede the part.
    pub(crate) extent: Extent,
    /// How many of them there are up to the end of the part.
    pub(crate) next: u64,
}

/// A part of a list that was continued, with its answer.
#[derive(Drop)]
struct AnsweredPart {
    /// The reply.
    reply: Reply,
    /// The cursor of its token, if records remain.
    next: Option<u64>,
    /// The position after its last record, if there was memory for it.
    mark: Option<Mark>,
}

/// Replies with the part that the token requests, or with badResumptionToken.
pub(crate) fn reply_with_next_part<V: Versions>(
    repo: &RepoView<'_>,
    lists: &mut Lists,
    store: &mut V,
    verb: ListVerb,
    token: &str,
) -> Result<Replied, Fault>
    requires ready { IsReady V.Versions repo.now lists.old store.old }
    ensures reply { IfOk result (λ replied. IsTrue (V.honest store.old)
        → IsViewReply repo.now
        (view_token_response repo.now lists.old (V.lists store.old) verb token.now)
        replied lists.new (V.lists store.new)) }
    ensures same { IfOk result (λ replied. AreAsBefore V.Versions replied.replay lists.old store.old
        lists.new store.new) }
    ensures left { LeavesTableAndLists V.Versions result repo.now lists.old store.old lists.new store.new }
    ensures store { Spends V.room V.failures V.honest 0 result store.old store.new }
{
    let chunk = chunk_of(repo);
    let Some((at, list, cursor)) = continued(lists, repo.clock, chunk, verb, token) else {
        let reply = reply_with_error(repo, ErrorCode::BadResumptionToken)?;
        return Ok(Replied::listless(reply));
    };
    let part = reply_from(repo, store, verb, list, cursor)?;
    lists.carry_on(at, repo.end(), part.next, part.mark);
    Ok(Replied::with_part(part.reply))
}

/// How many records a part of a list may have.
#[tactic(auto, unfolding(oai_settings::specs::Config::are_limits))]
pub(crate) fn chunk_of(repo: &RepoView<'_>) -> u64
    ensures chunk { result ≡ repo.now.config.now.chunk }
    ensures some { result ≢ 0 }
{
    repo.config.chunk()
}

/// The open list that the token continues by that verb, its position in the table, which comes first, and how many of its
/// records precede the requested part. Each part but the last has `chunk` records.
pub(crate) fn continued<'a>(
    lists: &'a Lists,
    now: i64,
    chunk: u64,
    verb: ListVerb,
    token: &str,
) -> Option<(usize, &'a OpenList, u64)>
    requires some { chunk ≢ 0 }
    ensures found { option_map (λ r. (r.1.now, r.2)) result
        ≡ table_continued now chunk verb lists.now.lists (token_of token.now) }
    ensures placed { IfSome result (λ r. slice_get lists.now.lists r.0 ≡ Some r.1.now) }
    ensures valid { OnSome result (IsListTable lists.now) }
{
    let token = Token::read(token)?;
    let (at, list) = lists.find(token.list, now)?;
    if is_same_verb(list.verb, verb) && is_valid_cursor(list, chunk, token.cursor) {
        Some((at, list, token.cursor))
    } else {
        None
    }
}

/// Whether the cursor is below the size of the list, and a token with it was handed out.
fn is_valid_cursor(list: &OpenList, chunk: u64, cursor: u64) -> bool
    requires some { chunk ≢ 0 }
    ensures { result ≡ listing.is_valid_cursor chunk list.now.size list.now.given cursor }
{
    cursor < list.size && is_handed_out(chunk, list.given, cursor)
}

/// Whether a token with the cursor was handed out, if `given` is the highest that was.
fn is_handed_out(chunk: u64, given: u64, cursor: u64) -> bool
    requires some { chunk ≢ 0 }
    ensures { result ≡ listing.is_handed_out chunk given cursor }
{
    0 < cursor && cursor % chunk == 0 && cursor <= given
}

/// Whether both verbs are ListIdentifiers, or both are ListRecords: the verbs whose lists tokens continue.
fn is_same_verb(a: ListVerb, b: ListVerb) -> bool
    ensures { result ≡ listing.is_same_verb a b }
{
    match (a, b) {
        (ListVerb::Identifiers, ListVerb::Identifiers) => true,
        (ListVerb::Records, ListVerb::Records) => true,
        _ => false,
    }
}

/// Replies with the part of the list that begins after its first `cursor` records. Also returns the cursor of its
/// token, which expires a lifetime after the clock, and the mark after its last record. The list is not changed.
fn reply_from<V: Versions>(
    repo: &RepoView<'_>,
    store: &mut V,
    verb: ListVerb,
    list: &OpenList,
    cursor: u64,
) -> Result<AnsweredPart, Fault>
    requires dated { is_in_years repo.now.clock ≡ true }
    requires list { IsContinuing V.Versions repo.now.config.now verb list.now cursor store.old }
    ensures reply { IfOk result (λ part. IsTrue (V.honest store.old) → part.reply
        ≡ document_reply repo.now (listing.part_answer verb
        (format_named list.now.filter.prefix repo.now.config.now.formats)
        (listing.part_from repo.now.config.now (listing.prolonged repo.now.config.now repo.now.clock
        (frozen_in (V.lists store.old) list.now)) cursor))) }
    ensures next { IfOk result (λ part. IsTrue (V.honest store.old) → part.next
        ≡ listing.next_cursor repo.now.config.now (frozen_in (V.lists store.old) list.now) cursor) }
    ensures mark { IfOk result (λ part. IsTrue (V.honest store.old)
        → is_place_in (items_frozen (V.lists store.old) list.now) part.mark ≡ true) }
    ensures reads { OnlyReads V.Versions result store.old store.new }
{
    let extent = Extent {
        size: list.size,
        cursor,
    };
    let chunk = repo.config.chunk();
    let next = end_of_part(chunk, extent);
    let items = read_part(store, list, cursor, chunk, next)?;
    let part = ListPart {
        number: list.number,
        end: repo.end(),
        extent,
        next,
    };
    let format = format_of(repo.config, list);
    let reply = reply_with_part(repo, verb, format, items.as_slice(), part)?;
    Ok(AnsweredPart {
        reply,
        next: cursor_behind(list.size, next),
        mark: mark_behind(repo.alloc, items.as_slice(), next),
    })
}

/// The cursor of the token of a part, if `next` of the list's `size` records come up to its end. None if no more
/// records remain.
pub(crate) fn cursor_behind(size: u64, next: u64) -> Option<u64>
    ensures { result ≡ listing.cursor_behind size next }
{
    if next < size { Some(next) } else { None }
}

/// The format of the list, which is one of the repository's.
fn format_of<'a>(config: &'a RepoConfig, list: &OpenList) -> &'a Format
    requires { IsSome (format_named list.now.filter.prefix config.now.formats) }
    ensures { format_named list.now.filter.prefix config.now.formats ≡ Some result.now }
{
    match config.formats().find_named(list.filter.prefix().as_str()) {
        Some(format) => format,
        None => unreachable!(),
    }
}

/// The document with the items as that part of a list. A token requests the next part, if records remain.
pub(crate) fn reply_with_part(
    repo: &RepoView<'_>,
    verb: ListVerb,
    format: &Format,
    items: &[Item],
    part: ListPart,
) -> Result<Reply, AllocError>
    requires dated { is_in_years repo.now.clock ≡ true }
    requires end { IsWritable part.end }
    requires next { part.next ≡ part.extent.cursor + length items.now }
    requires lists { is_of_records verb ≡ true }
    ensures { IfOk result (λ reply. reply ≡ document_reply repo.now
        (listing.answer_by_verb verb format.now (record {
          items = items.now;
          granularity = repo.now.config.now.granularity;
          continuation = listing.continued_at part.number part.end part.extent
              (part.extent.cursor + length items.now);
        }))) }
{
    if part.extent.size <= part.next {
        let list = listed(repo, items, Resumption::Last(part.extent));
        return make_reply(repo, answer_by_verb(verb, format, list));
    }
    let token = Token {
        list: part.number,
        cursor: part.next,
    };
    let token = token.to_string(repo.alloc)?;
    let remaining = Remaining {
        expires: part.end,
        extent: part.extent,
        token: token.as_str(),
    };
    let list = listed(repo, items, Resumption::More(remaining));
    make_reply(repo, answer_by_verb(verb, format, list))
}

/// The items as a document lists them: with datestamps at the repository's granularity, and with how the list
/// continues.
fn listed<'a>(repo: &RepoView<'_>, items: &'a [Item], resumption: Resumption<'a>) -> Listed<'a>
    ensures { result ≡ record {
      items = items.entry;
      granularity = repo.now.config.now.granularity;
      resumption = resumption.entry;
    } }
{
    Listed {
        items,
        granularity: repo.config.granularity(),
        resumption,
    }
}
