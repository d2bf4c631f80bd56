ghost use Rattle.std.specs.Prelude.{◌≡◌, ◌+◌, None, length, IfOk, IsSome, IsTrue, OnErr, OnOk};
ghost use Rattle.oai_catalogue.specs.Store.{ChangesOnly, Spends, list_at, without_each, without_list};

use crate::versions::Versions;
use oai_item::{Fault, Item};

/// Removes several items from a version, all or none: stores what `v` holds, without the items that have the datestamps
/// and identifiers of `gone`, under a new number, and releases `v`. On a fault each list is unchanged, and no further
/// number is in use. Any fault may come; `TooManyPages` only if the store may lack room for one call more than there
/// are items in `gone`.
pub fn remove_items<V: Versions>(store: &mut V, v: u64, gone: &[Item]) -> Result<u64, Fault>
    requires { IsSome (V.lists store.old v) }
    ensures unused { IfOk result (λ w. V.lists store.old w ≡ None) }
    ensures ok { IfOk result
        (λ w. ChangesOnly w (without_list v (V.lists store.old)) (V.lists store.new)) }
    ensures list { IfOk result (λ w. IsTrue (V.honest store.old) → list_at (V.lists store.new) w
        ≡ without_each gone.now (list_at (V.lists store.old) v)) }
    ensures err { OnErr result (V.lists store.new ≡ V.lists store.old) }
    ensures store { Spends V.room V.failures V.honest (length gone.now + 1) result store.old store.new }
{
    let next = store.freeze(v)?;
    match take_out_each(store, next, gone) {
        Ok(()) => {
            store.release(v);
            Ok(next)
        }
        Err(fault) => {
            store.release(next);
            Err(fault)
        }
    }
}

/// Removes each of the items from the list. On a fault the list may have lost some; no other list has changed.
fn take_out_each<V: Versions>(store: &mut V, v: u64, gone: &[Item]) -> Result<(), Fault>
    requires { IsSome (V.lists store.old v) }
    ensures others { ChangesOnly v (V.lists store.old) (V.lists store.new) }
    ensures list { OnOk result (IsTrue (V.honest store.old) → list_at (V.lists store.new) v
        ≡ without_each gone.now (list_at (V.lists store.old) v)) }
    ensures store { Spends V.room V.failures V.honest (length gone.now) result store.old store.new }
{
    for item in gone {
        store.remove(v, item.stamp(), item.identifier())?;
    }
    Ok(())
}
