//! Restores that an item goes.
ghost use Rattle.std.specs.Prelude.{◌≡◌, ◌≤◌, List, false, Err, IsTrue, OnOk, length};
ghost use Rattle.oai_item.specs.Items.{without};
ghost use Rattle.oai_item.specs.declared.faults.Fault.TheVariants as fault;
ghost use Rattle.oai_catalogue.specs.Store.{Spends};
ghost use Rattle.oai_holdings.specs.Holdings.{NamedSet};
ghost use Rattle.oai_holdings.specs.Index.{IsIndexed, stored_items};
ghost use Rattle.oai_holdings.specs.Indexing.{Moves, StandsOn};
ghost use Rattle.oai_holdings.specs.Saved.{fault_of_store, may_go};
ghost use Rattle.oai_settings.specs.Config.{RepositoryConfig};

use crate::item_index::ItemIndex;
use oai_catalogue::Versions;
use oai_item::Fault;

/// Removes the item with that identifier, without a trace: no tombstone is left in its place. `Damaged` if there is
/// none. Otherwise any fault may come, `Damaged` only if the store returns other items than were put into it. After an
/// error everything is unchanged. It reads the item, and searches the store twice.
pub fn restore_gone<V: Versions>(
    store: &mut V,
    index: &mut ItemIndex,
    identifier: &str,
) -> Result<(), Fault>
    requires stands { StandsOn V.Versions index.old store.old }
    ensures made { OnOk result (IsTrue (V.honest store.old)
        → stored_items index.new (V.lists store.new)
        ≡ without identifier.now (stored_items index.old (V.lists store.old))) }
    ensures indexed { (config : RepositoryConfig) (sets : List NamedSet) → IsTrue (V.honest store.old)
        → IsIndexed config index.old sets (V.lists store.old)
        → IsIndexed config index.new sets (V.lists store.new) }
    ensures fewer { length index.new.entries ≤ length index.old.entries }
    ensures damaged { may_go index.old.entries identifier.now ≡ false → result ≡ Err fault.Damaged }
    ensures moves { Moves V.Versions result index.old store.old index.new store.new }
    ensures store { Spends V.room V.failures V.honest 1
        (fault_of_store (may_go index.old.entries identifier.now) result) store.old store.new }
{
    match index.find(store, identifier)? {
        Some(item) => index.remove(store, &item),
        None => Err(Fault::Damaged),
    }
}
