//! A repository, as a request sees it.
ghost use Rattle.std.specs.Prelude.{◌≡◌, ◌+ℤ◌, pos, int_le, int_lt, true};
ghost use Rattle.oai_time.specs.declared.text.TheConstants.{LAST_SECOND};
ghost use Rattle.std.specs.Option.{option_copied};
ghost use Rattle.oai_time.specs.Stamp.{IsWritable};
ghost use Rattle.oai_args.specs.Verbs.{name_of, verb_of_list};
ghost use Rattle.oai_answers.specs.Borrowed.{attributes_of};
ghost use Rattle.oai_settings.specs.Config.{is_in_years};
ghost use Rattle.oai_repo.specs.Answers as spec;
ghost use Rattle.oai_repo.specs.Seen.{SeesSame};

use oai_answers::RequestAttributes;
use oai_args::{Ask, BoundText};
use oai_holdings::ItemIndex;
use oai_names::{ListVerb, SetTree, Text};
use oai_settings::RepoConfig;
use std::alloc::Global;

/// A repository as a request sees it, and the arguments of the request.
#[derive(Clone, Copy)]
pub(crate) struct RepoView<'a> {
    /// What a reply is allocated from.
    pub(crate) alloc: Global,
    /// The configuration.
    pub(crate) config: &'a RepoConfig,
    /// The clock, in seconds from 1970 on.
    pub(crate) clock: i64,
    /// The index of the items.
    pub(crate) index: &'a ItemIndex,
    /// The sets.
    pub(crate) sets: &'a SetTree,
    /// The arguments of the request, as a document has them.
    pub(crate) asked: RequestAttributes<'a>,
}

impl RepoView<'_> {
    /// The lifetime of a list, in seconds.
    #[tactic(auto, unfolding(oai_settings::specs::Config::are_limits))]
    pub(crate) fn lifetime(&self) -> i64
        ensures { result ≡ pos self.now.config.now.lifetime }
    {
        self.config.lifetime() as i64
    }

    /// The end of a list of which a part is returned now, in seconds from 1970 on.
    #[tactic(auto, unfolding(oai_settings::specs::Config::are_limits))]
    pub(crate) fn end(&self) -> i64
        requires { is_in_years self.now.clock ≡ true }
        ensures end { result ≡ self.now.clock +ℤ pos self.now.config.now.lifetime }
        ensures writable { IsWritable result }
        ensures later { int_lt self.now.clock result ≡ true }
        ensures last { int_le result LAST_SECOND ≡ true }
    {
        self.clock + self.config.lifetime() as i64
    }
}

/// The view of the repository with the arguments of that request.
pub(crate) fn with_arguments<'a>(repo: RepoView<'a>, ask: &'a Ask) -> RepoView<'a>
    ensures same { SeesSame repo.entry result }
    ensures asked { attributes_of result.asked ≡ spec.arguments_of_ask ask.now }
{
    RepoView {
        alloc: repo.alloc,
        config: repo.config,
        clock: repo.clock,
        index: repo.index,
        sets: repo.sets,
        asked: arguments_of(ask),
    }
}

/// The arguments of a request, as a document has them.
fn arguments_of(ask: &Ask) -> RequestAttributes<'_>
    ensures { attributes_of result ≡ spec.arguments_of_ask ask.now }
{
    match ask {
        Ask::Identify => asked_for("Identify"),
        Ask::Formats { identifier } => RequestAttributes {
            identifier: text_in(identifier),
            ..asked_for("ListMetadataFormats")
        },
        Ask::Sets => asked_for("ListSets"),
        Ask::Get { identifier, prefix } => RequestAttributes {
            identifier: Some(identifier.as_str()),
            prefix: Some(prefix.as_str()),
            ..asked_for("GetRecord")
        },
        Ask::List {
            verb,
            prefix,
            from,
            until,
            set,
        } => RequestAttributes {
            prefix: Some(prefix.as_str()),
            from: bound_text_in(from),
            until: bound_text_in(until),
            set: text_in(set),
            ..asked_for(verb_name(*verb))
        },
        Ask::Resume { verb, token } => RequestAttributes {
            token: Some(token.as_str()),
            ..asked_for(verb_name(*verb))
        },
    }
}

/// The verb alone.
fn asked_for(verb: &str) -> RequestAttributes<'_>
    ensures { attributes_of result ≡ spec.asked_for verb.now }
{
    RequestAttributes {
        verb: Some(verb),
        ..RequestAttributes::nothing()
    }
}

/// The name of the verb.
pub fn verb_name(verb: ListVerb) -> &'static str
    ensures { result.now ≡ name_of (verb_of_list verb) }
{
    match verb {
        ListVerb::Identifiers => "ListIdentifiers",
        ListVerb::Records => "ListRecords",
        ListVerb::Sets => "ListSets",
    }
}

/// The text, if it was given.
pub(crate) fn text_in(text: &Option<Text>) -> Option<&str>
    ensures { option_copied result ≡ text.now }
{
    match text {
        Some(text) => Some(text.as_str()),
        None => None,
    }
}

/// The text of the bound, if it was given.
fn bound_text_in(text: &Option<BoundText>) -> Option<&str>
    ensures { option_copied result ≡ text.now }
{
    match text {
        Some(text) => Some(text.as_str()),
        None => None,
    }
}
