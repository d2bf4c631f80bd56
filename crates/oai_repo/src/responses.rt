//! The reply to a request: a document, or how long to wait.
ghost use Rattle.std.specs.Ordering.{int_eq};
ghost use Rattle.std.specs.Prelude.{◌≡◌, true, IfOk, if◌then◌else◌};
ghost use Rattle.oai_answers.specs.Answers.{HasWritableTimes, fails};
ghost use Rattle.oai_answers.specs.Borrowed.{body_answer};
ghost use Rattle.oai_settings.specs.Config.{is_in_years};
ghost use Rattle.oai_repo.specs.declared.responses.Replay.TheVariants as replay;
ghost use Rattle.oai_repo.specs.declared.responses.Reply.TheVariants as reply;
ghost use Rattle.oai_repo.specs.Replays.{at_clock};
ghost use Rattle.oai_repo.specs.Views.{document_reply};

use crate::view::RepoView;
use oai_answers::{Body, Doc, ErrorCode, document};
use oai_names::Sequence;
use std::alloc::AllocError;

/// The reply to a request.
#[derive(Debug, Drop)]
pub enum Reply {
    /// The bytes of an XML document.
    Page(Sequence<u8>),
    /// The seconds, at least 1, after which the request may be repeated: as many lists are open as may be, or no number
    /// is left for one (OAI-PMH 2.0, section 3.1.2.2, the status 503).
    Later(i64),
}

/// What of a request has to be replayed, so that a repository in the state before it comes to the state after it.
#[derive(Clone, Copy, Debug, PartialEq, Eq)]
pub enum Replay {
    /// Nothing: the state is the same.
    Nothing,
    /// A tick: the clock was moved, at which lists may have ended, and nothing else was changed.
    Tick,
    /// The request: its answer is a part of an incomplete list, which it began or continued (OAI-PMH 2.0, section 3.5).
    Request,
}

/// The reply to a request, and what of the request has to be replayed.
#[derive(Debug, Drop)]
pub struct Replied {
    /// The reply.
    pub reply: Reply,
    /// What of the request has to be replayed.
    pub replay: Replay,
}

impl Replied {
    /// The reply to a request that neither began nor continued a list.
    pub(crate) fn listless(reply: Reply) -> Replied
        ensures { result ≡ record { reply = reply; replay = replay.Tick } }
    {
        Replied {
            reply,
            replay: Replay::Tick,
        }
    }

    /// The reply that no list begins for so many seconds.
    pub(crate) fn later(seconds: i64) -> Replied
        ensures { result ≡ record { reply = reply.Later seconds; replay = replay.Tick } }
    {
        Replied::listless(Reply::Later(seconds))
    }

    /// The reply with a part of a list, which the request began or continued.
    pub(crate) fn with_part(reply: Reply) -> Replied
        ensures { result ≡ record { reply = reply; replay = replay.Request } }
    {
        Replied {
            reply,
            replay: Replay::Request,
        }
    }

    /// The same of a request before which the clock was `before`, and which moved it to `now`, in seconds from 1970 on:
    /// where that is no move, a tick need not be replayed.
    pub(crate) fn at_clock(self, before: i64, now: i64) -> Replied
        ensures reply { result.reply ≡ self.reply }
        ensures replay { result.replay ≡ at_clock (int_eq before now) self.replay }
    {
        let Replied { reply, replay } = self;
        let replay = match replay {
            Replay::Request => Replay::Request,
            Replay::Tick => tick_between(before, now),
            Replay::Nothing => tick_between(before, now),
        };
        Replied { reply, replay }
    }
}

/// A tick, or nothing if the clock stood.
fn tick_between(before: i64, now: i64) -> Replay
    ensures { result ≡ (if int_eq before now then replay.Nothing else replay.Tick) }
{
    if before == now {
        Replay::Nothing
    } else {
        Replay::Tick
    }
}

/// The document of the answer, as a reply.
#[tactic(auto, using(crate::proofs::ClockLemmas::writable))]
pub(crate) fn make_reply(repo: &RepoView<'_>, body: Body<'_>) -> Result<Reply, AllocError>
    requires dated { is_in_years repo.now.clock ≡ true }
    requires times { HasWritableTimes (body_answer body) }
    ensures { IfOk result (λ reply. reply ≡ document_reply repo.now (body_answer body.entry)) }
{
    let doc = Doc {
        date: repo.clock,
        base: repo.config.base(),
        asked: repo.asked,
        body,
    };
    Ok(Reply::Page(Sequence::new(document(repo.alloc, &doc)?)))
}

/// The document of the error, as a reply.
pub(crate) fn reply_with_error(repo: &RepoView<'_>, code: ErrorCode) -> Result<Reply, AllocError>
    requires { is_in_years repo.now.clock ≡ true }
    ensures { IfOk result (λ reply. reply ≡ document_reply repo.now (fails code)) }
{
    make_reply(repo, Body::Error(code))
}
