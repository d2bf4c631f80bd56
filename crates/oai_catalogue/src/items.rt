ghost use Rattle.std.specs.Prelude.{◌≡◌, ◌<◌, ◌≤◌, [], true, length, take, drop, is_some, vec_capacity, vec_len, IfOk, OnErr, OnOk};
ghost use Rattle.std.specs.Option.{option_copied};
ghost use Rattle.oai_item.specs.Items.{item_at, items_after, with_item, without_at};
ghost use Rattle.oai_item.specs.Order.{are_in_order};
ghost use Rattle.oai_item.specs.Selection.{selected};

use crate::filters::Filter;
use oai_item::{Item, items_after, place_of};
use oai_names::Sequence;
use std::alloc::{AllocError, Global};
use std::marker::Model;

/// Items in their order.
#[derive(Drop)]
pub(crate) struct Items {
    items: Vec<Item>,
}

impl Model for Items {
    ghost use Rattle.std.specs.Prelude.{◌≡◌, List, true};
    ghost use Rattle.oai_item.specs.Item.{ItemState};
    ghost use Rattle.oai_item.specs.Order.{are_in_order};

    ghost Value = { List ItemState };

    ghost view = { λ l. l.items.items };

    ghost invariant = { λ l. are_in_order l.items.items ≡ true };
}

impl Items {
    /// No items. Allocates nothing.
    pub(crate) fn new(alloc: Global) -> Items
        ensures { result ≡ [] }
    {
        Items {
            items: Vec::new(alloc),
        }
    }

    /// Copies of the items. The error is out of memory.
    pub(crate) fn copy(&self, alloc: Global) -> Result<Items, AllocError>
        ensures copy { IfOk result (λ copy. copy ≡ self.now) }
        ensures rising { are_in_order self.now ≡ true }
    {
        Ok(Items {
            items: copies(alloc, self.items.as_slice())?,
        })
    }

    /// Inserts a copy of the item, in place of the one with its datestamp and identifier if there is one. The error is
    /// out of memory, and the items are unchanged.
    pub(crate) fn put_copy(&mut self, alloc: Global, item: &Item) -> Result<(), AllocError>
        ensures ok { OnOk result (self.new ≡ with_item item.now self.old) }
        ensures err { OnErr result (self.new ≡ self.old) }
        ensures rising { are_in_order self.new ≡ true }
    {
        self.items.try_reserve(1)?;
        let copy = item.copy(alloc)?;
        put(&mut self.items, copy);
        Ok(())
    }

    /// Removes the item with that datestamp, in seconds from 1970 on, and identifier; returns whether there was one.
    pub(crate) fn remove(&mut self, stamp: i64, identifier: &str) -> bool
        ensures found { result ≡ is_some (item_at stamp identifier.now self.old) }
        ensures left { self.new ≡ without_at stamp identifier.now self.old }
        ensures rising { are_in_order self.new ≡ true }
    {
        take_out(&mut self.items, stamp, identifier)
    }

    /// Removes the item with that datestamp, in seconds from 1970 on, and identifier, and inserts a copy of the other
    /// item, as `remove` and `put_copy` do; returns whether there was one to remove. The error is out of memory, and
    /// the items are unchanged.
    pub(crate) fn replace(
        &mut self,
        alloc: Global,
        stamp: i64,
        identifier: &str,
        item: &Item,
    ) -> Result<bool, AllocError>
        ensures found { IfOk result
            (λ found. found ≡ is_some (item_at stamp identifier.now self.old)) }
        ensures ok { OnOk result
            (self.new ≡ with_item item.now (without_at stamp identifier.now self.old)) }
        ensures err { OnErr result (self.new ≡ self.old) }
        ensures rising { are_in_order self.new ≡ true }
    {
        self.items.try_reserve(1)?;
        let copy = item.copy(alloc)?;
        let found = take_out(&mut self.items, stamp, identifier);
        put(&mut self.items, copy);
        Ok(found)
    }

    /// The item with that datestamp, in seconds from 1970 on, and identifier.
    pub(crate) fn find(&self, stamp: i64, identifier: &str) -> Option<&Item>
        ensures found { option_copied result ≡ item_at stamp identifier.now self.now }
        ensures rising { are_in_order self.now ≡ true }
    {
        match place_of(self.items.as_slice(), stamp, identifier) {
            Ok(at) => Some(&self.items[at]),
            Err(_) => None,
        }
    }

    /// The number of items that the filter selects.
    pub(crate) fn count(&self, filter: &Filter) -> usize
        ensures number { result ≡ length (selected filter.now self.now) }
        ensures rising { are_in_order self.now ≡ true }
    {
        count(self.items.as_slice(), filter)
    }

    /// Copies of the selected items after the first `skip`, at most `most` of them. The error is out
    /// of memory.
    pub(crate) fn part(
        &self,
        alloc: Global,
        filter: &Filter,
        skip: usize,
        most: usize,
    ) -> Result<Sequence<Item>, AllocError>
        ensures part { IfOk result
            (λ part. part ≡ take most (drop skip (selected filter.now self.now))) }
        ensures rising { are_in_order self.now ≡ true }
    {
        part(alloc, self.items.as_slice(), filter, skip, most)
    }

    /// Copies of the selected items that come after this datestamp, in seconds from 1970 on, and identifier, at most
    /// `most` of them. The error is out of memory.
    pub(crate) fn part_after(
        &self,
        alloc: Global,
        filter: &Filter,
        stamp: i64,
        identifier: &str,
        most: usize,
    ) -> Result<Sequence<Item>, AllocError>
        ensures part { IfOk result (λ part. part
            ≡ take most (selected filter.now (items_after stamp identifier.now self.now))) }
        ensures rising { are_in_order self.now ≡ true }
    {
        let behind = items_after(self.items.as_slice(), stamp, identifier);
        part(alloc, behind, filter, 0, most)
    }
}

/// Inserts the item among the others, which are in their order, in place of the one with its datestamp and identifier
/// if there is one. Allocates nothing: space for one more item is reserved.
fn put(items: &mut Vec<Item>, item: Item)
    requires rising { are_in_order items.old.items ≡ true }
    requires room { vec_len items.old < vec_capacity items.old }
    ensures with { items.new.items ≡ with_item item items.old.items }
    ensures rising { are_in_order items.new.items ≡ true }
{
    match place_of(items.as_slice(), item.stamp(), item.identifier().as_str()) {
        Ok(at) => items[at] = item,
        Err(at) => items.insert(at, item).unwrap(),
    }
}

/// Removes the item with that datestamp and identifier from the items, which are in their order; returns whether there
/// was one.
fn take_out(items: &mut Vec<Item>, stamp: i64, identifier: &str) -> bool
    requires { are_in_order items.old.items ≡ true }
    ensures found { result ≡ is_some (item_at stamp identifier.now items.old.items) }
    ensures left { items.new.items ≡ without_at stamp identifier.now items.old.items }
    ensures rising { are_in_order items.new.items ≡ true }
    ensures fewer { vec_len items.new ≤ vec_len items.old }
    ensures capacity { vec_capacity items.new ≡ vec_capacity items.old }
{
    match place_of(items.as_slice(), stamp, identifier) {
        Ok(at) => {
            items.remove(at);
            true
        }
        Err(_) => false,
    }
}

/// Copies of the items. The error is out of memory.
fn copies(alloc: Global, items: &[Item]) -> Result<Vec<Item>, AllocError>
    ensures { IfOk result (λ copies. copies.items ≡ items.now) }
{
    let mut copies = Vec::with_capacity(alloc, items.len())?;
    for item in items {
        copies.push(item.copy(alloc)?)?;
    }
    Ok(copies)
}

/// The number of the items that the filter selects.
#[tactic(auto, unfolding(oai_item::specs::Selection::selected))]
fn count(items: &[Item], filter: &Filter) -> usize
    ensures { result ≡ length (selected filter.now items.now) }
{
    items.iter().filter(|item| filter.passes(item)).count()
}

/// Copies of the selected items after the first `skip`, at most `most` of them. The error is out of memory.
fn part(
    alloc: Global,
    items: &[Item],
    filter: &Filter,
    skip: usize,
    most: usize,
) -> Result<Sequence<Item>, AllocError>
    ensures { IfOk result (λ part. part ≡ take most (drop skip (selected filter.now items.now))) }
{
    let mut part = Vec::new(alloc);
    let mut before = skip;
    let mut left = most;
    for item in items {
        if left == 0 {
            break;
        }
        if filter.passes(item) {
            if before == 0 {
                part.push(item.copy(alloc)?)?;
                left -= 1;
            } else {
                before -= 1;
            }
        }
    }
    Ok(Sequence::new(part))
}
