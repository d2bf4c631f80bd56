ghost use Rattle.std.specs.Prelude.{◌≡◌, nat_lt, ℕ, length, option_copied, option_map, IfOk};
ghost use Rattle.std.specs.Option.{option_flatten};
ghost use Rattle.oai_names.specs.Names.{is_among};
ghost use Rattle.oai_places.specs.Places.{first_cmp, known_in, span_at};

use crate::page_numbers::PageNumbers;
use oai_item::ItemKey;
use oai_names::{Identifier, Prefix, Sequence, SetSpec};
use oai_pool::PageNo;
use oai_sums::{PackedCounts, SetItems};
use std::alloc::{AllocError, Global};
use std::cmp::Ordering;
use std::marker::Model;
use std::rc::Rc;

/// Statistics of the items of a leaf, without reading their page.
#[derive(Drop)]
pub struct Statistics {
    /// The datestamp of the first item, in seconds from 1970 on.
    pub stamp: i64,
    /// The identifier of the first item.
    pub identifier: Identifier,
    /// How many items there are.
    pub len: usize,
    /// How many bytes their entries have.
    pub size: usize,
    /// Prefixes with each of which each item has a record. Many leaves have the same: these share one list, which is
    /// then in the processor's cache when many are tested.
    pub prefixes: Rc<Sequence<Prefix>>,
    /// How many items are in each set; None if there were too many sets, or memory ran out.
    pub sets: Option<PackedCounts>,
}

/// A leaf: where consecutive items are stored, and what is known of them.
#[derive(Drop)]
struct Place {
    pages: PageNumbers,
    items: Statistics,
}

impl Model for Place {
    ghost use Rattle.oai_places.specs.Places.{PlaceState};

    ghost Value = { PlaceState };

    ghost view = { λ p. record {
      pages = p.pages;
      stamp = p.items.stamp;
      identifier = p.items.identifier;
      len = p.items.len;
      size = p.items.size;
      prefixes = p.items.prefixes.value;
      sets = p.items.sets;
    } };
}

/// A leaf that the directories of several versions may share: a copy of it allocates nothing.
#[derive(Drop)]
pub struct SharedPlace {
    place: Rc<Place>,
}

impl Model for SharedPlace {
    ghost use Rattle.oai_places.specs.Places.{PlaceState};

    ghost Value = { PlaceState };

    ghost view = { λ s. s.place.value };
}

impl SharedPlace {
    /// The leaf of items on the pages with these numbers. The error is out of memory.
    pub fn new(
        alloc: Global,
        pages: &[PageNo],
        items: Statistics,
    ) -> Result<SharedPlace, AllocError>
        ensures { IfOk result (λ place. place ≡ record {
          pages = pages.now;
          stamp = items.stamp;
          identifier = items.identifier;
          len = items.len;
          size = items.size;
          prefixes = items.prefixes.value;
          sets = items.sets;
        }) }
    {
        let place = Place {
            pages: PageNumbers::new(alloc, pages)?,
            items,
        };
        Ok(SharedPlace {
            place: Rc::new(alloc, place)?,
        })
    }

    /// A reference-counted copy of the leaf. The error is out of memory, if the count would overflow.
    pub(crate) fn copy(&self) -> Result<SharedPlace, AllocError>
        ensures { IfOk result (λ copy. copy ≡ self.now) }
    {
        Ok(SharedPlace {
            place: self.place.clone()?,
        })
    }

    /// The numbers of its pages: that of the page of its entries, then those of its overflow pages.
    pub(crate) fn pages(&self) -> &[PageNo]
        ensures { result.now ≡ self.now.pages }
    {
        self.place.pages.as_slice()
    }

    /// Whether it has overflow pages, and so one item alone.
    pub fn is_long(&self) -> bool
        ensures { result ≡ nat_lt 1 (length self.now.pages) }
    {
        self.pages().len() > 1
    }

    /// The datestamp of the first item, in seconds from 1970 on.
    pub fn stamp(&self) -> i64
        ensures { result ≡ self.now.stamp }
    {
        self.place.items.stamp
    }

    /// The identifier of the first item.
    pub fn identifier(&self) -> &str
        ensures { result.now ≡ self.now.identifier }
    {
        self.place.items.identifier.as_str()
    }

    /// How many items there are.
    pub fn len(&self) -> usize
        ensures { result ≡ self.now.len }
    {
        self.place.items.len
    }

    /// How many bytes their entries have.
    pub fn size(&self) -> usize
        ensures { result ≡ self.now.size }
    {
        self.place.items.size
    }

    /// The prefixes with which each item is known to have a record: a list that other leaves may share.
    pub fn prefixes(&self) -> &Rc<Sequence<Prefix>>
        ensures { result.now.value ≡ self.now.prefixes }
    {
        &self.place.items.prefixes
    }

    /// Whether the prefix is one of those with which each item is known to have a record.
    pub(crate) fn has_prefix(&self, prefix: &str) -> bool
        ensures { result ≡ is_among self.now.prefixes prefix.now }
    {
        is_among(self.place.items.prefixes.as_slice(), prefix)
    }

    /// The items in the set, if one is given, or else all: how many there are, and within which span of the entries
    /// those of the set are; None if it is not known.
    pub(crate) fn items_of(&self, set: &Option<SetSpec>) -> Option<SetItems>
        ensures count { option_map (λ items. items.count) result ≡ known_in self.now set.now }
        ensures span { option_flatten (option_map (λ items. items.span) result) ≡ span_at self.now set.now }
    {
        match set {
            Some(set) => match &self.place.items.sets {
                Some(counts) => Some(counts.items_of(set.as_str())),
                None => None,
            },
            None => Some(SetItems {
                count: self.place.items.len,
                span: None,
            }),
        }
    }

    /// How many items are in each set, if it is known.
    pub(crate) fn sets(&self) -> Option<&PackedCounts>
        ensures { option_copied result ≡ self.now.sets }
    {
        self.place.items.sets.as_ref()
    }

    /// The key of the first item.
    pub fn key(&self) -> ItemKey<'_>
        ensures stamp { result.stamp ≡ self.now.stamp }
        ensures identifier { result.identifier.now ≡ self.now.identifier }
    {
        ItemKey {
            stamp: self.stamp(),
            identifier: self.identifier(),
        }
    }

    /// Compares the first item with the key.
    pub fn order_to(&self, key: ItemKey<'_>) -> Ordering
        ensures { result ≡ first_cmp self.now key.entry.stamp key.entry.identifier.now }
    {
        match self.stamp().cmp(&key.stamp) {
            Ordering::Equal => self.identifier().cmp(key.identifier),
            unequal => unequal,
        }
    }
}

/// Whether the prefix is one of these.
pub(crate) fn is_among(prefixes: &[Prefix], prefix: &str) -> bool
    ensures { result ≡ is_among prefixes.now prefix.now }
{
    prefixes.iter().any(|other| prefix == other.as_str())
}
