//! Reads all items of a repository, in batches, to save it.
ghost use Rattle.std.specs.Prelude.{◌≡◌, true, take, IfErr, IfOk, IsSome, IsTrue};
ghost use Rattle.std.specs.List.{list_all};
ghost use Rattle.std.specs.Option.{option_copied};
ghost use Rattle.oai_names.specs.Names.{may_be_prefix};
ghost use Rattle.oai_item.specs.declared.faults.Fault.TheVariants as fault;
ghost use Rattle.oai_catalogue.specs.Calls.{OnlyReads};
ghost use Rattle.oai_catalogue.specs.Store.{list_at};
ghost use Rattle.oai_holdings.specs.Index.{has_writable_stamp};
ghost use Rattle.oai_holdings.specs.Purges.{is_in_core, until};
ghost use Rattle.oai_holdings.specs.Saved as spec;

use oai_catalogue::{Filter, Versions};
use oai_item::{Fault, Item};
use oai_names::{NameFault, Prefix, Sequence};
use oai_time::{FIRST_SECOND, LAST_SECOND};
use std::alloc::Global;

/// The items of a version, in their order, after `last`, or from the first on, at most `most` of them. Any fault but
/// `TooManyPages` may come.
pub fn read_behind<V: Versions>(
    alloc: Global,
    store: &mut V,
    v: u64,
    last: Option<&Item>,
    most: usize,
) -> Result<Sequence<Item>, Fault>
    requires stands { IsSome (V.lists store.old v) }
    requires core { IsTrue (V.honest store.old)
        → list_all is_in_core (list_at (V.lists store.old) v) ≡ true }
    requires dated { IsTrue (V.honest store.old)
        → list_all has_writable_stamp (list_at (V.lists store.old) v) ≡ true }
    ensures items { IfOk result (λ items. IsTrue (V.honest store.old) → items
        ≡ take most (spec.items_behind (option_copied last.entry)
        (list_at (V.lists store.old) v))) }
    ensures reads { OnlyReads V.Versions result store.old store.new }
{
    let asked = asked_until(alloc, LAST_SECOND)?;
    match last {
        Some(last) => store.part_after(v, &asked, last.stamp(), last.identifier(), most),
        None => store.part(v, &asked, 0, most),
    }
}

/// The filter for the items with datestamps up to that one, in seconds from 1970 on, live and deleted. The error is out
/// of memory.
pub(crate) fn asked_until(alloc: Global, last: i64) -> Result<Filter, Fault>
    ensures ok { IfOk result (λ asked. asked ≡ until last) }
    ensures err { IfErr result (λ f. f ≡ fault.NoMemory) }
{
    let prefix = prefix_of(alloc, "oai_dc")?;
    Ok(Filter::new(prefix, FIRST_SECOND, last, None))
}

/// The text as a prefix, which it is. The error is out of memory.
fn prefix_of(alloc: Global, text: &str) -> Result<Prefix, Fault>
    requires { may_be_prefix text.now ≡ true }
    ensures ok { IfOk result (λ prefix. prefix ≡ text.now) }
    ensures err { IfErr result (λ f. f ≡ fault.NoMemory) }
{
    match Prefix::read(alloc, text) {
        Ok(prefix) => Ok(prefix),
        Err(NameFault::NoMemory) => Err(Fault::NoMemory),
        Err(_) => unreachable!(),
    }
}
