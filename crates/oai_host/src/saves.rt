//! A repository of a host, saved part by part.
ghost use Rattle.oai_catalogue.specs.Calls.{OnlyReads};
ghost use Rattle.oai_host.specs.Saving.{Takes, TakesParts};
ghost use Rattle.oai_replay.specs.Parts.{as_part};
ghost use Rattle.oai_item.specs.Encoding.{Spells, encoded};
ghost use Rattle.oai_item.specs.Item.{ItemState};
ghost use Rattle.oai_names.specs.Sets.{may_be_set_spec};
ghost use Rattle.oai_holdings.specs.Index.{stored_items};
ghost use Rattle.oai_repo.specs.Fields.{Owns, state_of};
ghost use Rattle.oai_repo.specs.Saved.{ended, has_clock, has_item, has_named_set, parts_of};
ghost use Rattle.std.specs.Option.{option_copied};
ghost use Rattle.std.specs.Prelude.{IfOk, IsTrue, OnOk, Some, [], get_or, if◌then◌else◌, length, map, nat_lt, true, ℤ, ◌+◌, ◌++◌, ◌-◌, ◌<◌, ◌∷◌, ◌≡◌, ◌≤◌};

use crate::repositories::NamedRepo;
use itoa::Buffer;
use oai_catalogue::Versions;
use oai_item::{Fault, Item};
use oai_names::{Sequence, SetSpec, Text};
use oai_replay::{Part, PartKind, SaveFault, Sink};
use oai_repo::Repo;
use std::alloc::{AllocError, Global};

/// How many items are read at once.
const PIECE: usize = 256;

/// Passes the parts of a repository to the sink, with the number of its next list raised by that much.
pub(crate) fn save<V: Versions, S: Sink>(
    alloc: Global,
    one: &NamedRepo,
    store: &mut V,
    raise: u32,
    sink: &mut S,
) -> Result<(), SaveFault>
    requires { Owns (V.honest store.old) one.now.repo (V.lists store.old) }
    ensures saved { OnOk result (IsTrue (V.honest store.old) → TakesParts S.has one.now.name one.now.repo.clock
        (parts_of (ended raise (state_of one.now.repo (V.lists store.old)))) sink.old sink.new) }
    ensures same { V.lists store.new ≡ V.lists store.old }
    ensures honesty { V.honest store.new ≡ V.honest store.old }
{
    let name = one.name.as_str().as_bytes();
    save_beginning(&one.repo, name, raise, sink)?;
    save_sets(alloc, &one.repo, name, sink)?;
    save_items(alloc, &one.repo, name, store, sink)
}

/// Passes the part that begins the repository.
fn save_beginning<S: Sink>(
    repo: &Repo,
    name: &[u8],
    raise: u32,
    sink: &mut S,
) -> Result<(), SaveFault>
    ensures { OnOk result (TakesParts S.has name.now repo.now.clock
        (has_clock repo.now.clock (repo.now.table.next + raise) ∷ []) sink.old sink.new) }
{
    let Some(next) = repo.next_list().checked_add(u64::from(raise)) else {
        return Err(SaveFault::Numbers);
    };
    save_start(name, repo.clock(), next, sink)
}

/// Passes the part with which a repository begins: its clock, in seconds from 1970 on, and the number of its next list.
pub(crate) fn save_start<S: Sink>(
    name: &[u8],
    clock: i64,
    next: u64,
    sink: &mut S,
) -> Result<(), SaveFault>
    ensures { OnOk result (TakesParts S.has name.now clock (has_clock clock next ∷ []) sink.old sink.new) }
{
    let mut digits = Buffer::new();
    let part = Part {
        kind: PartKind::Begin,
        moment: clock,
        name,
        bytes: digits.format(next).as_bytes(),
    };
    put(sink, &part)
}

/// Passes the sets, in order of addition.
fn save_sets<S: Sink>(
    alloc: Global,
    repo: &Repo,
    name: &[u8],
    sink: &mut S,
) -> Result<(), SaveFault>
    ensures { OnOk result (TakesParts S.has name.now repo.now.clock (map has_named_set repo.now.sets) sink.old sink.new) }
{
    let clock = repo.clock();
    for set in repo.sets().as_slice() {
        save_set(alloc, clock, name, &set.0, &set.1, sink)?;
    }
    Ok(())
}

/// Passes a set.
pub(crate) fn save_set<S: Sink>(
    alloc: Global,
    clock: i64,
    name: &[u8],
    spec: &SetSpec,
    text: &Text,
    sink: &mut S,
) -> Result<(), SaveFault>
    ensures { OnOk result (TakesParts S.has name.now clock (has_named_set (spec.now, text.now) ∷ []) sink.old sink.new) }
{
    let Ok(bytes) = spelled_set(alloc, spec.as_str(), text.as_str()) else {
        return Err(SaveFault::Reading(Fault::NoMemory));
    };
    let part = Part {
        kind: PartKind::Set,
        moment: clock,
        name,
        bytes: bytes.as_slice(),
    };
    put(sink, &part)
}

/// An encoded set. The error is out of memory.
fn spelled_set(alloc: Global, spec: &str, name: &str) -> Result<Sequence<u8>, AllocError>
    ensures { IfOk result (λ bytes. bytes ≡ spec.now ++ 32 ∷ name.now) }
{
    let mut bytes = Vec::new(alloc);
    bytes.extend_from_slice(spec.as_bytes())?;
    bytes.push(b' ')?;
    bytes.extend_from_slice(name.as_bytes())?;
    Ok(Sequence::new(bytes))
}

/// Passes the items, in their order. They are read in batches, so a few hundred are in memory at a time.
fn save_items<V: Versions, S: Sink>(
    alloc: Global,
    repo: &Repo,
    name: &[u8],
    store: &mut V,
    sink: &mut S,
) -> Result<(), SaveFault>
    requires { Owns (V.honest store.old) repo.now (V.lists store.old) }
    ensures saved { OnOk result (IsTrue (V.honest store.old) → TakesParts S.has name.now repo.now.clock
        (map has_item (stored_items repo.now.index (V.lists store.old))) sink.old sink.new) }
    ensures same { V.lists store.new ≡ V.lists store.old }
    ensures honesty { V.honest store.new ≡ V.honest store.old }
{
    let most = repo.config().items() as usize;
    let mut last = None;
    let mut start = 0;
    while start < most {
        let some = PIECE.min(most - start);
        let piece = match repo.items_behind(store, last.as_ref(), some) {
            Ok(piece) => piece,
            Err(fault) => return Err(SaveFault::Reading(fault)),
        };
        save_piece(alloc, piece.as_slice(), name, sink)?;
        start = after_piece(start, some, piece.len(), most);
        last = last_of(piece);
    }
    Ok(())
}

/// How many items of `most` are read after a batch of `read` items, when `some` were requested after the first `start`:
/// all if the batch is shorter, since none follows.
fn after_piece(start: usize, some: usize, read: usize, most: usize) -> usize
    requires { start + some ≤ most }
    ensures read { result ≡ (if nat_lt read some then most else start + some) }
    ensures further { start + some ≤ result }
    ensures within { result ≤ most }
{
    if read < some { most } else { start + some }
}

/// The last of the items, if there are any.
fn last_of(items: Sequence<Item>) -> Option<Item>
    ensures { (d : ItemState) → 0 < length items → result ≡ Some (get_or items (length items - 1) d) }
{
    items.into_vec().pop()
}

/// Passes items.
pub(crate) fn save_piece<S: Sink>(
    alloc: Global,
    items: &[Item],
    name: &[u8],
    sink: &mut S,
) -> Result<(), SaveFault>
    ensures { OnOk result ((clock : ℤ) → TakesParts S.has name.now clock (map has_item items.now) sink.old sink.new) }
{
    for item in items {
        save_item(alloc, item, name, sink)?;
    }
    Ok(())
}

/// Passes an item.
fn save_item<S: Sink>(
    alloc: Global,
    item: &Item,
    name: &[u8],
    sink: &mut S,
) -> Result<(), SaveFault>
    ensures { OnOk result ((clock : ℤ) → TakesParts S.has name.now clock (has_item item.now ∷ []) sink.old sink.new) }
{
    let bytes = match spelled_item(alloc, item) {
        Ok(bytes) => bytes,
        Err(fault) => return Err(SaveFault::Reading(fault)),
    };
    let part = Part {
        kind: PartKind::Item,
        moment: item.stamp(),
        name,
        bytes: bytes.as_slice(),
    };
    put(sink, &part)
}

/// An item, encoded as a store does. The errors: `Damaged` if that is too long, and `NoMemory`.
fn spelled_item(alloc: Global, item: &Item) -> Result<Sequence<u8>, Fault>
    ensures bytes { IfOk result (λ bytes. bytes ≡ encoded item.now) }
    ensures spells { IfOk result (λ bytes. Spells (encoded item.now) item.now) }
{
    let Ok(size) = item.encoded_len() else {
        return Err(Fault::Damaged);
    };
    let mut bytes = vec![in alloc; 0; size]?;
    item.encode_measured(&mut bytes);
    Ok(Sequence::new(bytes))
}

/// Passes a part.
pub(crate) fn put<S: Sink>(sink: &mut S, part: &Part<'_>) -> Result<(), SaveFault>
    ensures { OnOk result (Takes S.has (as_part part.now ∷ []) sink.old sink.new) }
{
    match sink.add(part) {
        Ok(()) => Ok(()),
        Err(fault) => Err(SaveFault::Sink(fault)),
    }
}
