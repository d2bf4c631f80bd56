//! Identify, ListMetadataFormats, ListSets and GetRecord (OAI-PMH 2.0, sections 4.1, 4.2, 4.4 and 4.6).
ghost use Rattle.std.specs.Prelude.{◌≡◌, IfOk, IsTrue};
ghost use Rattle.std.specs.Option.{option_copied};
ghost use Rattle.oai_time.specs.Stamp.{IsWritable};
ghost use Rattle.oai_answers.specs.Answers.{HasWritableTimes, lists_formats, offered};
ghost use Rattle.oai_answers.specs.Borrowed.{body_answer, description_of};
ghost use Rattle.oai_catalogue.specs.Calls.{OnlyReads};
ghost use Rattle.oai_repo.specs.Answers as spec;
ghost use Rattle.oai_repo.specs.Views.{IsReadable, answer_about_item, document_reply, view_item};

use crate::responses::{Reply, make_reply};
use crate::view::RepoView;
use oai_answers::{Body, DescribedSets, ErrorCode, Identity, Offered, Record};
use oai_catalogue::Versions;
use oai_item::{Fault, Item};
use oai_names::{SetSpec, Text};
use oai_settings::RepoConfig;

/// Replies to GetRecord with that prefix, or to ListMetadataFormats for the item, if no prefix is given.
pub(crate) fn reply_about_item<V: Versions>(
    repo: &RepoView<'_>,
    store: &mut V,
    identifier: &str,
    prefix: Option<&str>,
) -> Result<Reply, Fault>
    requires { IsReadable V.Versions repo.now store.old }
    ensures reply { IfOk result (λ reply. IsTrue (V.honest store.old) → reply
        ≡ document_reply repo.now (answer_about_item repo.now.config.now
        (view_item repo.now (V.lists store.old) identifier.now) (option_copied prefix.entry))) }
    ensures reads { OnlyReads V.Versions result store.old store.new }
{
    let item = repo.index.find(store, identifier)?;
    Ok(make_reply(repo, answer_about_item(repo.config, item.as_ref(), prefix))?)
}

/// The answer to ListSets.
#[tactic(auto, using(crate::proofs::DescriptionLemmas::all_alone))]
pub(crate) fn sets_answer<'a>(config: &'a RepoConfig, sets: &'a [(SetSpec, Text)]) -> Body<'a>
    ensures answer { body_answer result ≡ spec.sets_answer config.now sets.now }
    ensures writable { HasWritableTimes (body_answer result) }
{
    if sets.is_empty() {
        Body::Error(ErrorCode::NoSetHierarchy)
    } else {
        Body::ListSets(DescribedSets {
            sets,
            described: config.set_descriptions(),
        })
    }
}

/// The answer to GetRecord for the item, if there is one, in the format with that prefix, or to ListMetadataFormats for
/// it, if no prefix is given.
fn answer_about_item<'a>(
    config: &'a RepoConfig,
    item: Option<&'a Item>,
    prefix: Option<&str>,
) -> Body<'a>
    ensures answer { body_answer result ≡ answer_about_item config.now
        (option_copied item.entry) (option_copied prefix.entry) }
    ensures writable { HasWritableTimes (body_answer result) }
{
    match prefix {
        Some(prefix) => record_answer(config, item, prefix),
        None => item_formats_answer(config, item),
    }
}

/// The answer to ListMetadataFormats for the item, if there is one.
fn item_formats_answer<'a>(config: &'a RepoConfig, item: Option<&'a Item>) -> Body<'a>
    ensures answer { body_answer result ≡ spec.item_formats_answer config.now
        (option_copied item.entry) }
    ensures writable { HasWritableTimes (body_answer result) }
{
    match item {
        Some(item) if item.is_live() => formats_of(config, Some(item)),
        Some(_) => Body::Error(ErrorCode::NoMetadataFormats),
        None => Body::Error(ErrorCode::IdDoesNotExist),
    }
}

/// The formats of the repository, or those of them that the item has.
pub(crate) fn formats_of<'a>(config: &'a RepoConfig, item: Option<&'a Item>) -> Body<'a>
    ensures answer { body_answer result ≡ lists_formats
        (offered config.now.formats (option_copied item.entry)) }
    ensures writable { HasWritableTimes (body_answer result) }
{
    Body::ListMetadataFormats(Offered {
        formats: config.formats().as_slice(),
        of: item,
    })
}

/// The answer to GetRecord for the item, if there is one, in the format with that prefix.
fn record_answer<'a>(config: &'a RepoConfig, item: Option<&'a Item>, prefix: &str) -> Body<'a>
    ensures answer { body_answer result ≡ spec.record_answer config.now (option_copied item.entry)
        prefix.now }
    ensures writable { HasWritableTimes (body_answer result) }
{
    let Some(item) = item else {
        return Body::Error(ErrorCode::IdDoesNotExist);
    };
    match config.formats().find_named(prefix) {
        Some(format) if item.has_record(format.prefix.as_str()) => Body::GetRecord(Record {
            item,
            granularity: config.granularity(),
            format,
        }),
        Some(_) => Body::Error(ErrorCode::CannotDisseminateFormat),
        None => Body::Error(ErrorCode::CannotDisseminateFormat),
    }
}

/// The answer to Identify.
#[tactic(auto, using(crate::proofs::DescriptionLemmas::described))]
pub(crate) fn identity(config: &RepoConfig) -> Identity<'_>
    ensures identity { description_of result ≡ spec.description config.now }
    ensures writable { IsWritable result.earliest }
{
    Identity {
        name: config.repository_name(),
        addresses: config.addresses(),
        earliest: config.earliest(),
        deleted: config.deleted(),
        granularity: config.granularity(),
        descriptions: config.descriptions(),
    }
}
