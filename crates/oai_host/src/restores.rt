//! A repository of a host, restored part by part.
ghost use Rattle.oai_host.specs.Saving.{RestoresIn};
ghost use Rattle.oai_replay.specs.Parts.{as_part};
ghost use Rattle.oai_replay.specs.declared.parts.PartKind.TheVariants as kind;
ghost use Rattle.oai_item.specs.Encoding.{Spells};
ghost use Rattle.oai_item.specs.declared.faults.Fault.TheVariants as fault;
ghost use Rattle.oai_item.specs.declared.forms.Forms.TheVariants.{Fields};
ghost use Rattle.oai_names.specs.Sets.{may_be_set_spec};
ghost use Rattle.oai_repo.specs.Fields.{Owns};
ghost use Rattle.std.specs.Prelude.{Err, IfOk, IfSome, decimal, true, ◌++◌, ◌∷◌, ◌≡◌};

use crate::list_parts::list_in;
use oai_catalogue::Versions;
use oai_item::{DecodeFault, Fault, Forms, Item};
use oai_lists::read_decimal;
use oai_names::{NameFault, SetSpec};
use oai_replay::{Part, PartKind};
use oai_repo::{Repo, SavedPart};
use std::alloc::Global;

/// Restores a part at the repository. `Damaged` if the part encodes nothing, or violates the repository's invariants, or
/// if the repository is that of a journal of version 1, which has neither open lists nor items that are gone.
/// Any other fault may come. After a fault everything is unchanged.
pub(crate) fn restore<V: Versions>(
    alloc: Global,
    repo: &mut Repo,
    store: &mut V,
    part: &Part<'_>,
) -> Result<(), Fault>
    requires { Owns (V.honest store.old) repo.old (V.lists store.old) }
    ensures { RestoresIn V.Versions (as_part part.now) result repo.old store.old repo.new store.new }
{
    match part.kind {
        PartKind::Begin => restore_begin(repo, store, part),
        PartKind::Set => restore_set(alloc, repo, store, part),
        PartKind::Item => restore_item(alloc, repo, store, part),
        PartKind::List => restore_list(alloc, repo, store, part),
        PartKind::Gone => restore_gone(repo, store, part),
    }
}

/// Restores the part that begins the repository.
fn restore_begin<V: Versions>(repo: &mut Repo, store: &mut V, part: &Part<'_>) -> Result<(), Fault>
    requires kind { part.now.kind ≡ kind.Begin }
    requires owns { Owns (V.honest store.old) repo.old (V.lists store.old) }
    ensures { RestoresIn V.Versions (as_part part.now) result repo.old store.old repo.new store.new }
{
    let Some(next) = number_in(part.bytes) else {
        return Err(Fault::Damaged);
    };
    let clock = part.moment;
    repo.restore(store, &SavedPart::Begins { clock, next })
}

/// Restores a set.
fn restore_set<V: Versions>(
    alloc: Global,
    repo: &mut Repo,
    store: &mut V,
    part: &Part<'_>,
) -> Result<(), Fault>
    requires kind { part.now.kind ≡ kind.Set }
    requires owns { Owns (V.honest store.old) repo.old (V.lists store.old) }
    ensures { RestoresIn V.Versions (as_part part.now) result repo.old store.old repo.new store.new }
{
    let Some((spec, name)) = set_in(part.bytes) else {
        return Err(Fault::Damaged);
    };
    let spec = spec_in(alloc, spec)?;
    repo.restore(store, &SavedPart::HasSet { spec: &spec, name })
}

/// Restores an item.
fn restore_item<V: Versions>(
    alloc: Global,
    repo: &mut Repo,
    store: &mut V,
    part: &Part<'_>,
) -> Result<(), Fault>
    requires kind { part.now.kind ≡ kind.Item }
    requires owns { Owns (V.honest store.old) repo.old (V.lists store.old) }
    ensures { RestoresIn V.Versions (as_part part.now) result repo.old store.old repo.new store.new }
{
    let item = item_in(alloc, part.bytes)?;
    if item.stamp() != part.moment {
        return Err(Fault::Damaged);
    }
    repo.restore(store, &SavedPart::HasItem { item: &item })
}

/// Restores an open list. A journal of version 1 has none.
fn restore_list<V: Versions>(
    alloc: Global,
    repo: &mut Repo,
    store: &mut V,
    part: &Part<'_>,
) -> Result<(), Fault>
    requires kind { part.now.kind ≡ kind.List }
    requires owns { Owns (V.honest store.old) repo.old (V.lists store.old) }
    ensures restored { RestoresIn V.Versions (as_part part.now) result repo.old store.old repo.new store.new }
    ensures version { repo.old.config.forms ≡ Fields → result ≡ Err fault.Damaged }
{
    if repo.config().forms() == Forms::Fields {
        return Err(Fault::Damaged);
    }
    let list = list_in(alloc, part.bytes)?;
    let list = list.saved();
    repo.restore(store, &SavedPart::HasList { list })
}

/// Restores that an item is gone. In a journal of version 1 none is.
fn restore_gone<V: Versions>(repo: &mut Repo, store: &mut V, part: &Part<'_>) -> Result<(), Fault>
    requires kind { part.now.kind ≡ kind.Gone }
    requires owns { Owns (V.honest store.old) repo.old (V.lists store.old) }
    ensures restored { RestoresIn V.Versions (as_part part.now) result repo.old store.old repo.new store.new }
    ensures version { repo.old.config.forms ≡ Fields → result ≡ Err fault.Damaged }
{
    if repo.config().forms() == Forms::Fields {
        return Err(Fault::Damaged);
    }
    let Ok(identifier) = str::from_utf8(part.bytes) else {
        return Err(Fault::Damaged);
    };
    repo.restore(store, &SavedPart::Goes { identifier })
}

/// The number below 2^64 that the bytes spell, decimal without leading zeros.
fn number_in(bytes: &[u8]) -> Option<u64>
    ensures { IfSome result (λ n. bytes.now ≡ decimal n) }
{
    match str::from_utf8(bytes) {
        Ok(text) => read_decimal(text),
        Err(_) => None,
    }
}

/// The setSpec and the name of the encoded set: what precedes the first space, and what follows it.
fn set_in(bytes: &[u8]) -> Option<(&str, &str)>
    ensures { IfSome result (λ set. bytes.now ≡ set.0.now ++ 32 ∷ set.1.now) }
{
    match str::from_utf8(bytes) {
        Ok(text) => text.split_once(' '),
        Err(_) => None,
    }
}

/// The setSpec of that text. The errors: `Damaged` if it is none, and `NoMemory`.
fn spec_in(alloc: Global, text: &str) -> Result<SetSpec, Fault>
    ensures text { IfOk result (λ spec. spec ≡ text.now) }
    ensures name { IfOk result (λ spec. may_be_set_spec spec ≡ true) }
{
    match SetSpec::read(alloc, text) {
        Ok(spec) => Ok(spec),
        Err(NameFault::NoMemory) => Err(Fault::NoMemory),
        Err(_) => Err(Fault::Damaged),
    }
}

/// The item that the bytes encode. The errors: `Damaged` if there is none, and `NoMemory`.
fn item_in(alloc: Global, bytes: &[u8]) -> Result<Item, Fault>
    ensures { IfOk result (λ item. Spells bytes.now item) }
{
    match Item::decode(alloc, bytes) {
        Ok(item) => Ok(item),
        Err(DecodeFault::NoMemory) => Err(Fault::NoMemory),
        Err(DecodeFault::Damaged) => Err(Fault::Damaged),
    }
}
