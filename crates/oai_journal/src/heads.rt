//! The head of a frame: `<moment> <kind> <name> <length> `, before its digest.
ghost use Rattle.std.specs.Prelude.{◌≡◌, ◌≤◌, ◌+◌, ◌++◌, ◌<◌, ◌^◌, ◌∷◌, length, List, ℕ, drop, vec_len, vec_capacity, OnOk, IfSome};
ghost use Rattle.std.specs.Option.{option_map};
ghost use Rattle.oai_journal.specs.Heads as spec;
ghost use Rattle.oai_journal.specs.declared.records.TheConstants.{MAX_NAME};

use crate::records::Kind;
use itoa::Buffer;
use oai_bytes::{read_moment, read_number, split_at_space};

/// The maximum length of a head in bytes: 20 for each number, 7 for the kind, the name, and a space after each.
pub(crate) const MAX_HEAD: usize = 83;

/// What a head says: the fields of a log record, with the length of its bytes in their place.
#[derive(Clone, Copy)]
pub(crate) struct RecordHead<'a> {
    pub moment: i64,
    pub kind: Kind,
    pub name: &'a [u8],
    pub size: usize,
}

/// Writes a head into reserved space.
#[tactic(auto, unfolding(crate::specs::Heads::head_front, crate::specs::Heads::plain))]
pub(crate) fn write_head(head: &RecordHead<'_>, out: &mut Vec<u8>)
    requires name { length head.now.name.now ≤ MAX_NAME }
    requires room { vec_len out.old + MAX_HEAD ≤ vec_capacity out.old }
    ensures items { out.new.items ≡ out.old.items ++ spec.head_front (spec.fields_of_head head.now) }
    ensures len { vec_len out.new ≤ vec_len out.old + MAX_HEAD }
    ensures room { vec_capacity out.old ≤ vec_capacity out.new }
{
    let mut number = Buffer::new();
    put(number.format(head.moment).as_bytes(), out);
    put(b" ", out);
    put(head.kind.word().as_bytes(), out);
    put(b" ", out);
    put(head.name, out);
    put(b" ", out);
    put(number.format(head.size).as_bytes(), out);
    put(b" ", out);
}

/// Writes into reserved space.
pub(crate) fn put(bytes: &[u8], out: &mut Vec<u8>)
    requires { vec_len out.old + length bytes.now ≤ vec_capacity out.old }
    ensures items { out.new.items ≡ out.old.items ++ bytes.now }
    ensures len { vec_len out.new ≡ vec_len out.old + length bytes.now }
    ensures room { vec_capacity out.old ≤ vec_capacity out.new }
{
    out.extend_from_slice(bytes).unwrap()
}

/// Reads the fields of the head with which bytes begin; whether the bytes are their encoding is not tested.
#[tactic(auto, unfolding(crate::specs::Heads::head_in))]
pub(crate) fn parse_head(bytes: &[u8]) -> Option<RecordHead<'_>>
    ensures { option_map spec.fields_of_head result ≡ spec.head_in bytes.now }
{
    let (moment, rest) = split_at_space(bytes);
    let (kind, rest) = split_at_space(rest);
    let (name, rest) = split_at_space(rest);
    let (size, _) = split_at_space(rest);
    let moment = read_moment(moment)?;
    let kind = read_kind(kind)?;
    let size = read_number(size)?;
    Some(RecordHead {
        moment,
        kind,
        name,
        size: size as usize,
    })
}

/// The kind with that word.
#[tactic(auto, unfolding(crate::specs::Heads::kind_in))]
fn read_kind(word: &[u8]) -> Option<Kind>
    ensures { result ≡ spec.kind_in word.now }
{
    if word == b"oai".as_slice() {
        return Some(Kind::Oai);
    }
    if word == b"deposit".as_slice() {
        return Some(Kind::Deposit);
    }
    if word == b"tick".as_slice() {
        return Some(Kind::Tick);
    }
    if word == b"journal".as_slice() {
        return Some(Kind::Journal);
    }
    if word == b"begin".as_slice() {
        return Some(Kind::Begin);
    }
    if word == b"set".as_slice() {
        return Some(Kind::Set);
    }
    if word == b"item".as_slice() {
        return Some(Kind::Item);
    }
    if word == b"list".as_slice() {
        return Some(Kind::List);
    }
    if word == b"gone".as_slice() {
        return Some(Kind::Gone);
    }
    None
}
