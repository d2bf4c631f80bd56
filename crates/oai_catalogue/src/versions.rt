ghost use Rattle.std.specs.Prelude.{◌≡◌, ◌≤◌, ℕ, Bool, List, [], None, Option, length, take, drop, is_some, IfOk, IsSome, IsTrue, OnErr, OnOk};
ghost use Rattle.oai_item.specs.Encoding.{encoded};
ghost use Rattle.oai_item.specs.Item.{ItemState};
ghost use Rattle.oai_item.specs.Items.{item_at, items_after, with_item, without_at};
ghost use Rattle.oai_item.specs.Selection.{selected};
ghost use Rattle.oai_item.specs.declared.sizes.TheConstants.{MAX_ITEM_BYTES};
ghost use Rattle.oai_catalogue.specs.Store.{AreInOrder, ChangesOnly, Spares, Spends, list_at, with_list, without_list};

use crate::filters::Filter;
use oai_item::{Fault, Item};
use oai_names::{Identifier, Sequence};

/// A store of versions: lists of items, each under a number of its own, in the order of datestamps and then of
/// identifiers. A list stays under its number until it is released. Versions may share storage (copy-on-write), on a
/// device that may fail; a call on one of them changes no other.
///
/// A call that fails leaves every list unchanged. If the device is not honest, and returns other bytes than were
/// written, then what a call returns, and the list that it changes, are unspecified; all other clauses hold.
pub trait Versions {
    /// The lists, by their numbers.
    ghost lists: { Self → ℕ → Option (List ItemState) };

    /// How often the device has failed; the count saturates.
    ghost failures: { Self → ℕ };

    /// Whether the device returns what was written to it.
    ghost honest: { Self → Bool };

    /// How many calls are sure to find room: pages, further references to a page, and numbers.
    ghost room: { Self → ℕ };

    /// A new number, for an empty list. Any fault may come.
    fn fresh(&mut self) -> Result<u64, Fault>
        ensures unused { IfOk result (λ v. lists self.old v ≡ None) }
        ensures ok { IfOk result (λ v. lists self.new ≡ with_list v [] (lists self.old)) }
        ensures err { OnErr result (lists self.new ≡ lists self.old) }
        ensures store { Spends room failures honest 1 result self.old self.new };

    /// A new number, for a snapshot of what `v` holds now. Any fault may come.
    fn freeze(&mut self, v: u64) -> Result<u64, Fault>
        requires { IsSome (lists self.old v) }
        ensures unused { IfOk result (λ w. lists self.old w ≡ None) }
        ensures ok { IfOk result
            (λ w. lists self.new ≡ with_list w (list_at (lists self.old) v) (lists self.old)) }
        ensures err { OnErr result (lists self.new ≡ lists self.old) }
        ensures store { Spends room failures honest 1 result self.old self.new };

    /// Inserts the item into the list, in place of the one with its datestamp and identifier if there is one. The
    /// encoded item has at most 1,048,576 bytes. Any fault may come.
    fn put(&mut self, v: u64, item: &Item) -> Result<(), Fault>
        requires stands { IsSome (lists self.old v) }
        requires fits { length (encoded item.now) ≤ MAX_ITEM_BYTES }
        ensures ok { OnOk result (ChangesOnly v (lists self.old) (lists self.new)) }
        ensures list { OnOk result (IsTrue (honest self.old)
            → list_at (lists self.new) v ≡ with_item item.now (list_at (lists self.old) v)) }
        ensures err { OnErr result (lists self.new ≡ lists self.old) }
        ensures store { Spends room failures honest 1 result self.old self.new };

    /// Removes the item with that datestamp, in seconds from 1970 on, and identifier from the list; returns whether
    /// there was one. Any fault may come.
    fn remove(&mut self, v: u64, stamp: i64, identifier: &Identifier) -> Result<bool, Fault>
        requires { IsSome (lists self.old v) }
        ensures found { IfOk result (λ found. IsTrue (honest self.old)
            → found ≡ is_some (item_at stamp identifier.now (list_at (lists self.old) v))) }
        ensures ok { OnOk result (ChangesOnly v (lists self.old) (lists self.new)) }
        ensures list { OnOk result (IsTrue (honest self.old) → list_at (lists self.new) v
            ≡ without_at stamp identifier.now (list_at (lists self.old) v)) }
        ensures err { OnErr result (lists self.new ≡ lists self.old) }
        ensures store { Spends room failures honest 1 result self.old self.new };

    /// Removes the item with that datestamp, in seconds from 1970 on, and identifier from the list and inserts the
    /// other item, as `remove` and then `put` do; returns whether there was one to remove. A call that fails has done
    /// neither. The encoded item has at most 1,048,576 bytes. Any fault may come.
    fn replace(
        &mut self,
        v: u64,
        stamp: i64,
        identifier: &Identifier,
        item: &Item,
    ) -> Result<bool, Fault>
        requires stands { IsSome (lists self.old v) }
        requires fits { length (encoded item.now) ≤ MAX_ITEM_BYTES }
        ensures found { IfOk result (λ found. IsTrue (honest self.old)
            → found ≡ is_some (item_at stamp identifier.now (list_at (lists self.old) v))) }
        ensures ok { OnOk result (ChangesOnly v (lists self.old) (lists self.new)) }
        ensures list { OnOk result (IsTrue (honest self.old) → list_at (lists self.new) v
            ≡ with_item item.now (without_at stamp identifier.now (list_at (lists self.old) v))) }
        ensures err { OnErr result (lists self.new ≡ lists self.old) }
        ensures store { Spends room failures honest 1 result self.old self.new };

    /// The item with that datestamp, in seconds from 1970 on, and identifier, or None. Any fault but `TooManyPages` may
    /// come.
    fn find(&mut self, v: u64, stamp: i64, identifier: &str) -> Result<Option<Item>, Fault>
        requires { IsSome (lists self.old v) }
        ensures found { IfOk result (λ item. IsTrue (honest self.old)
            → item ≡ item_at stamp identifier.now (list_at (lists self.old) v)) }
        ensures same { lists self.new ≡ lists self.old }
        ensures store { Spends room failures honest 0 result self.old self.new };

    /// The number of items that the filter selects. Any fault but `TooManyPages` may come.
    fn count(&mut self, v: u64, filter: &Filter) -> Result<usize, Fault>
        requires { IsSome (lists self.old v) }
        ensures number { IfOk result (λ n. IsTrue (honest self.old)
            → n ≡ length (selected filter.now (list_at (lists self.old) v))) }
        ensures same { lists self.new ≡ lists self.old }
        ensures store { Spends room failures honest 0 result self.old self.new };

    /// The selected items, in their order, after the first `skip`, at most `most` of them. Any fault but `TooManyPages`
    /// may come.
    fn part(
        &mut self,
        v: u64,
        filter: &Filter,
        skip: usize,
        most: usize,
    ) -> Result<Sequence<Item>, Fault>
        requires { IsSome (lists self.old v) }
        ensures part { IfOk result (λ items. IsTrue (honest self.old)
            → items ≡ take most (drop skip (selected filter.now (list_at (lists self.old) v)))) }
        ensures same { lists self.new ≡ lists self.old }
        ensures store { Spends room failures honest 0 result self.old self.new };

    /// The selected items, in their order, that come after this datestamp, in seconds from 1970 on, and identifier,
    /// whether or not an item has these; at most `most` of them. Any fault but `TooManyPages` may come.
    fn part_after(
        &mut self,
        v: u64,
        filter: &Filter,
        stamp: i64,
        identifier: &Identifier,
        most: usize,
    ) -> Result<Sequence<Item>, Fault>
        requires { IsSome (lists self.old v) }
        ensures part { IfOk result (λ items. IsTrue (honest self.old)
            → items ≡ take most (selected filter.now
            (items_after stamp identifier.now (list_at (lists self.old) v)))) }
        ensures same { lists self.new ≡ lists self.old }
        ensures store { Spends room failures honest 0 result self.old self.new };

    /// Releases the list; its number is no longer in use. It allocates nothing and cannot fail.
    fn release(&mut self, v: u64)
        requires { IsSome (lists self.old v) }
        ensures ok { lists self.new ≡ without_list v (lists self.old) }
        ensures store { Spares room failures honest self.old self.new };

    /// Each list is in order.
    ghost rising: { (s : Self) → AreInOrder (lists s) };
}
