//! An open list as a part of a saved state: how it is spelled, and which list bytes spell.
ghost use Rattle.oai_args.specs.Verbs.{is_of_records};
ghost use Rattle.oai_host.specs.ListReadings.{CanBeWords, IsListReading, IsPieceReading, IsPrefix, IsGivenSet, IsSetSpec, list_of_words};
ghost use Rattle.oai_host.specs.Saved as spec;
ghost use Rattle.oai_host.specs.Saving.{CanBeFilter, CanBeList};
ghost use Rattle.oai_names.specs.Sets.{may_be_set_spec};
ghost use Rattle.oai_repo.specs.Saved.{list_state};
ghost use Rattle.std.specs.Fmt.{signed_decimal};
ghost use Rattle.std.specs.Option.{option_map};
ghost use Rattle.std.specs.Prelude.{◌≡◌, ◌++◌, IfOk, IfSome, OnOk, true};

use itoa::Buffer;
use oai_bytes::{read_moment, read_number, split_at_space};
use oai_catalogue::Filter;
use oai_item::Fault;
use oai_names::{ListVerb, NameFault, Prefix, Sequence, SetSpec};
use oai_repo::{SavedList, verb_name};
use std::alloc::{AllocError, Global};
use std::marker::Model;

/// A list that was read: its parts, as `SavedList` has them.
#[derive(Drop)]
pub(crate) struct ReadList {
    number: u64,
    verb: ListVerb,
    filter: Filter,
    end: i64,
    given: u64,
}

impl Model for ReadList {
    ghost use Rattle.oai_repo.specs.Saved.{SavedListState};

    ghost Value = { SavedListState };

    ghost view = { λ list.
        record { number = list.number; verb = list.verb; filter = list.filter; end = list.end; given = list.given } };
}

impl ReadList {
    /// The list of these words, by that filter.
    fn new(words: &ListWords<'_>, filter: Filter) -> ReadList
        ensures { result ≡ record (list_of_words words.now) { filter = filter } }
    {
        ReadList {
            number: words.number,
            verb: words.verb,
            filter,
            end: words.end,
            given: words.given,
        }
    }

    /// The list, as a repository restores it.
    pub(crate) fn saved(&self) -> SavedList<'_>
        ensures { list_state result ≡ self.now }
    {
        SavedList {
            number: self.number,
            verb: self.verb,
            filter: &self.filter,
            end: self.end,
            given: self.given,
        }
    }
}

/// The words of an encoded list, with the numbers in them.
#[derive(Clone, Copy)]
struct ListWords<'a> {
    number: u64,
    verb: ListVerb,
    end: i64,
    given: u64,
    prefix: &'a [u8],
    lower: i64,
    upper: i64,
    set: &'a [u8],
}

/// The bytes of an open list: its number, the verb, the end, the highest cursor handed out, the metadataPrefix, the first
/// and the last datestamp, with a space between; where it has a set, a space and the setSpec behind them. The error is
/// out of memory.
#[tactic(auto, unfolding(crate::specs::Saved::spaced))]
pub(crate) fn spelled_list(alloc: Global, list: &SavedList<'_>) -> Result<Sequence<u8>, AllocError>
    ensures bytes { IfOk result (λ bytes. bytes ≡ spec.list_bytes (list_state list.now)) }
    ensures list { OnOk result (is_of_records list.now.verb ≡ true → CanBeList (list_state list.now)) }
{
    let mut digits = Buffer::new();
    let mut out = Vec::from_slice(alloc, digits.format(list.number).as_bytes())?;
    put_word(verb_name(list.verb).as_bytes(), &mut out)?;
    put_word(digits.format(list.end).as_bytes(), &mut out)?;
    put_word(digits.format(list.given).as_bytes(), &mut out)?;
    put_filter(list.filter, &mut out)?;
    Ok(Sequence::new(out))
}

/// Appends the words of a filter.
fn put_filter(filter: &Filter, out: &mut Vec<u8>) -> Result<(), AllocError>
    ensures bytes { OnOk result (out.new.items ≡ out.old.items ++ spec.spaced filter.now.prefix
        ++ spec.spaced (signed_decimal filter.now.lower) ++ spec.spaced (signed_decimal filter.now.upper)
        ++ spec.spaced_set filter.now.set) }
    ensures filter { OnOk result (CanBeFilter filter.now) }
{
    let mut digits = Buffer::new();
    put_word(filter.prefix.as_str().as_bytes(), out)?;
    put_word(digits.format(filter.lower).as_bytes(), out)?;
    put_word(digits.format(filter.upper).as_bytes(), out)?;
    put_set(&filter.set, out)
}

/// Appends a space and the setSpec, if there is one.
fn put_set(set: &Option<SetSpec>, out: &mut Vec<u8>) -> Result<(), AllocError>
    ensures bytes { OnOk result (out.new.items ≡ out.old.items ++ spec.spaced_set set.now) }
    ensures set { IfSome set.now (λ set. may_be_set_spec set ≡ true) }
{
    match set {
        Some(set) => put_word(set.as_str().as_bytes(), out),
        None => Ok(()),
    }
}

/// Appends a space and a word.
#[tactic(auto, unfolding(crate::specs::Saved::spaced))]
fn put_word(word: &[u8], out: &mut Vec<u8>) -> Result<(), AllocError>
    ensures { OnOk result (out.new.items ≡ out.old.items ++ spec.spaced word.now) }
{
    out.push(b' ')?;
    out.extend_from_slice(word)?;
    Ok(())
}

/// The list that the bytes spell. The errors: `Damaged` if they spell none, and `NoMemory`.
pub(crate) fn list_in(alloc: Global, bytes: &[u8]) -> Result<ReadList, Fault>
    ensures { IsListReading bytes.now result }
{
    let Some(words) = words_in(bytes) else {
        return Err(Fault::Damaged);
    };
    let filter = match filter_in(alloc, &words) {
        Ok(filter) => filter,
        Err(fault) => return Err(fault),
    };
    let list = ReadList::new(&words, filter);
    if spelled_list(alloc, &list.saved())?.as_slice() == bytes {
        Ok(list)
    } else {
        Err(Fault::Damaged)
    }
}

/// The words of a list, if the bytes are such words; whether they are spelled as `spelled_list` does is not tested.
#[tactic(auto, unfolding(crate::specs::Saved::list_in))]
fn words_in(bytes: &[u8]) -> Option<ListWords<'_>>
    ensures words { option_map list_of_words result ≡ spec.list_in bytes.now }
    ensures fits { IfSome result (λ words. CanBeWords words) }
{
    let (number, rest) = split_at_space(bytes);
    let (verb, rest) = split_at_space(rest);
    let (end, rest) = split_at_space(rest);
    let (given, rest) = split_at_space(rest);
    let (prefix, rest) = split_at_space(rest);
    let (lower, rest) = split_at_space(rest);
    let (upper, set) = split_at_space(rest);
    Some(ListWords {
        number: read_number(number)?,
        verb: verb_in(verb)?,
        end: read_moment(end)?,
        given: read_number(given)?,
        prefix,
        lower: read_moment(lower)?,
        upper: read_moment(upper)?,
        set,
    })
}

/// The verb of that name, of those that list items.
#[tactic(auto, unfolding(crate::specs::Saved::verb_in))]
fn verb_in(name: &[u8]) -> Option<ListVerb>
    ensures verb { result ≡ spec.verb_in name.now }
    ensures items { IfSome result (λ verb. is_of_records verb ≡ true) }
{
    if name == verb_name(ListVerb::Records).as_bytes() {
        return Some(ListVerb::Records);
    }
    if name == verb_name(ListVerb::Identifiers).as_bytes() {
        return Some(ListVerb::Identifiers);
    }
    None
}

/// The filter of a list with these words. The errors: `Damaged` if it is none, and `NoMemory`.
fn filter_in(alloc: Global, words: &ListWords<'_>) -> Result<Filter, Fault>
    ensures { IsPieceReading CanBeFilter (list_of_words words.now).filter result }
{
    let prefix = prefix_in(alloc, words.prefix)?;
    let set = set_in(alloc, words.set)?;
    Ok(Filter::new(prefix, words.lower, words.upper, set))
}

/// The metadataPrefix of these bytes. The errors: `Damaged` if they are none, and `NoMemory`.
fn prefix_in(alloc: Global, bytes: &[u8]) -> Result<Prefix, Fault>
    ensures { IsPieceReading IsPrefix bytes.now result }
{
    let Ok(text) = str::from_utf8(bytes) else {
        return Err(Fault::Damaged);
    };
    match Prefix::read(alloc, text) {
        Ok(prefix) => Ok(prefix),
        Err(NameFault::Syntax) => Err(Fault::Damaged),
        Err(NameFault::TooLong) => Err(Fault::Damaged),
        Err(NameFault::NoMemory) => Err(Fault::NoMemory),
    }
}

/// The setSpec of these bytes, or none if there are no bytes. The errors: `Damaged` if they are none, and `NoMemory`.
fn set_in(alloc: Global, bytes: &[u8]) -> Result<Option<SetSpec>, Fault>
    ensures { IsPieceReading IsGivenSet (spec.set_in bytes.now) result }
{
    match bytes {
        [] => Ok(None),
        _ => Ok(Some(set_spec_in(alloc, bytes)?)),
    }
}

/// The setSpec of these bytes. The errors: `Damaged` if they are none, and `NoMemory`.
fn set_spec_in(alloc: Global, bytes: &[u8]) -> Result<SetSpec, Fault>
    ensures { IsPieceReading IsSetSpec bytes.now result }
{
    let Ok(text) = str::from_utf8(bytes) else {
        return Err(Fault::Damaged);
    };
    match SetSpec::read(alloc, text) {
        Ok(spec) => Ok(spec),
        Err(NameFault::Syntax) => Err(Fault::Damaged),
        Err(NameFault::TooLong) => Err(Fault::Damaged),
        Err(NameFault::NoMemory) => Err(Fault::NoMemory),
    }
}
