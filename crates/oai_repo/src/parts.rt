//! The records of a part of a list (OAI-PMH 2.0, section 3.5), and the position after them.
ghost use Rattle.std.specs.Prelude.{◌≡◌, ◌≤◌, ◌+◌, ◌-◌, length, min, take, drop, true, Some, IfOk, IfSome, IsSome, IsTrue};
ghost use Rattle.oai_catalogue.specs.Calls.{OnlyReads};
ghost use Rattle.oai_repo.specs.Fields.{is_counted, is_marked, items_frozen};
ghost use Rattle.oai_repo.specs.Tables.{IsMarkBehind};

use oai_answers::Extent;
use oai_catalogue::Versions;
use oai_item::{Fault, Item};
use oai_lists::{Mark, OpenList};
use oai_names::Sequence;
use std::alloc::Global;

/// How many records of a list there are up to the end of the part that begins after its first ones: those before it, and
/// the part's own, `chunk` or as many as remain.
pub(crate) fn end_of_part(chunk: u64, extent: Extent) -> u64
    requires within { extent.cursor ≤ extent.size }
    ensures { result ≡ extent.cursor + min chunk (extent.size - extent.cursor) }
{
    extent.cursor + chunk.min(extent.size - extent.cursor)
}

/// The items of the part of a list that begins after its first `cursor` records, and ends after its first `next`. Any
/// fault but `TooManyPages` may come, and `Damaged` if the store returns another number of items than the part has.
pub(crate) fn read_part<V: Versions>(
    store: &mut V,
    list: &OpenList,
    cursor: u64,
    chunk: u64,
    next: u64,
) -> Result<Sequence<Item>, Fault>
    requires stands { IsSome (V.lists store.old list.now.version) }
    requires next { next ≡ cursor + min chunk (list.now.size - cursor) }
    requires counted { IsTrue (V.honest store.old) → is_counted (V.lists store.old) list.now
        ≡ true }
    requires marked { IsTrue (V.honest store.old) → is_marked (V.lists store.old) list.now
        ≡ true }
    ensures items { IfOk result (λ items. IsTrue (V.honest store.old) → items
        ≡ take chunk (drop cursor (items_frozen (V.lists store.old) list.now))) }
    ensures next { IfOk result (λ items. cursor + length items ≡ next) }
    ensures reads { OnlyReads V.Versions result store.old store.new }
{
    let items = items_behind(store, list, cursor, chunk as usize)?;
    if items.len() as u64 != next - cursor {
        return Err(Fault::Damaged);
    }
    Ok(items)
}

/// The items of a list after its first `cursor` records, at most `most` of them. If the mark of the list is at that
/// cursor, the store reads from the mark's record on, so that it skips none before it. Any fault but `TooManyPages` may
/// come.
fn items_behind<V: Versions>(
    store: &mut V,
    list: &OpenList,
    cursor: u64,
    most: usize,
) -> Result<Sequence<Item>, Fault>
    requires stands { IsSome (V.lists store.old list.now.version) }
    requires marked { IsTrue (V.honest store.old) → is_marked (V.lists store.old) list.now
        ≡ true }
    ensures items { IfOk result (λ items. IsTrue (V.honest store.old) → items
        ≡ take most (drop cursor (items_frozen (V.lists store.old) list.now))) }
    ensures reads { OnlyReads V.Versions result store.old store.new }
{
    let (version, filter) = (list.version, &list.filter);
    match mark_at(list, cursor) {
        Some(mark) => store.part_after(version, filter, mark.stamp, &mark.identifier, most),
        None => store.part(version, filter, cursor as usize, most),
    }
}

/// The mark of the list, if it is at that cursor.
fn mark_at(list: &OpenList, cursor: u64) -> Option<&Mark>
    ensures { IfSome result (λ mark. (list.now.mark ≡ Some mark.now) × (mark.now.cursor ≡ cursor)) }
{
    match &list.mark {
        Some(mark) => {
            if mark.cursor == cursor {
                Some(mark)
            } else {
                None
            }
        }
        None => None,
    }
}

/// The mark after the last of the items, with the cursor `next`. None if there are no items, or if memory runs out.
pub(crate) fn mark_behind(alloc: Global, items: &[Item], next: u64) -> Option<Mark>
    ensures { IfSome result (λ mark. IsMarkBehind items.now next mark) }
{
    let last = items.last()?;
    match last.identifier().copy(alloc) {
        Ok(identifier) => Some(Mark {
            cursor: next,
            stamp: last.stamp(),
            identifier,
        }),
        Err(_) => None,
    }
}
