//! Changes of a repository: deposits, deletions, purges and new sets.
ghost use Rattle.std.specs.Prelude.{◌≡◌, ◌≤◌, ◌++◌, [], ◌∷◌, None, length, IfErr, IfOk, OnErr, OnOk};
ghost use Rattle.oai_item.specs.Item.{IsStamp};
ghost use Rattle.oai_item.specs.declared.faults.Fault.TheVariants as fault;
ghost use Rattle.oai_catalogue.specs.Store.{Spends};
ghost use Rattle.oai_holdings.specs.Accepted.{IsAnsweredWith, KeepsChange};
ghost use Rattle.oai_holdings.specs.Calls.{fault_in, unstamped, room_to_change};
ghost use Rattle.oai_holdings.specs.Changes.{set_refusal};
ghost use Rattle.oai_holdings.specs.Indexing.{HoldsItems, IsAfterChange, IsMadeIn, Moves};

mod deletions;
mod deposits;
mod purges;
mod sameness;

use crate::item_index::ItemIndex;
use deletions::delete;
use deposits::{Deposit, put_deposit, put_if_new};
pub(crate) use deposits::{have_sets, is_listed_in};
use oai_catalogue::Versions;
use oai_deposit::Change;
use oai_item::{ChangeRefusal, Fault, Refusal};
use oai_names::{SetFault, SetSpec, SetTree};
use oai_settings::RepoConfig;
pub(crate) use purges::deleted_below;
use purges::purge;
pub(crate) use sameness::{are_same_records, are_same_sets};
use std::alloc::Global;

/// The context of a change.
#[derive(Clone, Copy)]
pub struct ChangeContext<'a> {
    /// What grows is allocated from it.
    pub alloc: Global,
    /// The configuration.
    pub config: &'a RepoConfig,
    /// The datestamp of the change, in seconds from 1970 on.
    pub stamp: i64,
}

/// Makes the change, or refuses it by the first cause; returns the datestamp that answers it: of a put, that of its item.
/// A change that is not made leaves everything unchanged.
pub fn make_change<V: Versions>(
    context: &ChangeContext<'_>,
    store: &mut V,
    index: &mut ItemIndex,
    sets: &mut SetTree,
    change: &Change,
) -> Result<i64, Refusal>
    requires stamped { IsStamp context.now.stamp }
    requires held { HoldsItems V.Versions context.now.config.now index.old sets.old store.old }
    ensures made { IsMadeIn (V.honest store.old) context.now.config.now context.now.stamp change.now
        (unstamped result) index.old sets.old (V.lists store.old) index.new sets.new (V.lists store.new) }
    ensures kept { IfOk result (λ told. KeepsChange context.now.config.now.deleted context.now.stamp
        change.now index.old.entries index.new.entries sets.old sets.new
        × IsAnsweredWith context.now.stamp change.now index.new.entries told) }
    ensures few { OnOk (unstamped result) (length index.old.entries ≤ context.now.config.now.items
        → length index.new.entries ≤ context.now.config.now.items) }
    ensures err_sets { OnErr (unstamped result) (sets.new ≡ sets.old) }
    ensures moves { Moves V.Versions (unstamped result) index.old store.old index.new store.new }
    ensures store { Spends V.room V.failures V.honest (room_to_change (length index.old.entries) change.now)
        (fault_in (unstamped result)) store.old store.new }
{
    match change {
        Change::Deposit {
            identifier,
            sets: specs,
            records,
        } => {
            let deposit = Deposit {
                identifier,
                sets: specs.as_slice(),
                records,
            };
            dated(
                context.stamp,
                put_deposit(context, sets, store, index, &deposit),
            )
        }
        Change::Put {
            identifier,
            sets: specs,
            records,
        } => {
            let deposit = Deposit {
                identifier,
                sets: specs.as_slice(),
                records,
            };
            put_if_new(context, sets, store, index, &deposit)
        }
        Change::Delete { identifier } => {
            dated(context.stamp, delete(context, store, index, identifier))
        }
        Change::Purge { before } => {
            dated(context.stamp, purge(context, store, index, before.as_str()))
        }
        Change::AddSet { spec, name } => dated(context.stamp, add_set(sets, spec, name.as_str())),
    }
}

/// The answer of a change with that datestamp.
fn dated(stamp: i64, made: Result<(), Refusal>) -> Result<i64, Refusal>
    ensures outcome { unstamped result ≡ made }
    ensures told { IfOk result (λ told. (told ≡ stamp)) }
{
    match made {
        Ok(()) => Ok(stamp),
        Err(refusal) => Err(refusal),
    }
}

/// Adds the set as the last one, or refuses it by the first cause.
#[tactic(auto, unfolding(crate::specs::Changes::set_refusal))]
pub(crate) fn add_set(sets: &mut SetTree, set: &SetSpec, name: &str) -> Result<(), Refusal>
    ensures done { IsAfterChange (set_refusal sets.old set.now) None sets.old
        (sets.old ++ (set.now, name.now) ∷ []) result sets.new }
    ensures added { OnOk result (sets.new ≡ sets.old ++ (set.now, name.now) ∷ []) }
    ensures err { OnErr result (sets.new ≡ sets.old) }
    ensures memory { IfErr (fault_in result) (λ f. f ≡ fault.NoMemory) }
{
    match sets.add(set, name) {
        Ok(()) => Ok(()),
        Err(SetFault::Exists) => Err(Refusal::Refused(ChangeRefusal::SetExists)),
        Err(SetFault::NoParent) => Err(Refusal::Refused(ChangeRefusal::NoParent)),
        Err(SetFault::TooMany) => Err(Refusal::Refused(ChangeRefusal::TooManySets)),
        Err(SetFault::NoMemory) => Err(Refusal::Fault(Fault::NoMemory)),
    }
}
