ghost use Rattle.std.specs.Prelude.{◌≡◌, IfOk};
ghost use Rattle.oai_item.specs.Selection.{is_in_given, passes};

use oai_item::{Item, is_in};
use oai_names::{Prefix, SetSpec};
use std::alloc::{AllocError, Global};
use std::marker::Model;

/// What a list request asks for (OAI-PMH 2.0, sections 2.6, 2.7, 4.3 and 4.5).
#[derive(Debug, Drop)]
pub struct Filter {
    /// The metadataPrefix: the items that have a record with it.
    pub prefix: Prefix,
    /// The first datestamp, in seconds from 1970 on.
    pub lower: i64,
    /// The last datestamp, in seconds from 1970 on.
    pub upper: i64,
    /// The setSpec of the set that the items are in, if one is given.
    pub set: Option<SetSpec>,
}

impl Model for Filter {
    ghost use Rattle.oai_item.specs.Selection.{Filter as Asked};

    ghost Value = { Asked };

    ghost view = { λ f.
        record { prefix = f.prefix; lower = f.lower; upper = f.upper; set = f.set } };
}

impl Filter {
    /// A filter for a prefix, the datestamps from `lower` to `upper`, in seconds from 1970 on and both included, and a
    /// set if one is given.
    pub fn new(prefix: Prefix, lower: i64, upper: i64, set: Option<SetSpec>) -> Filter
        ensures { result ≡ record { prefix = prefix; lower = lower; upper = upper; set = set } }
    {
        Filter {
            prefix,
            lower,
            upper,
            set,
        }
    }

    /// The metadataPrefix.
    pub fn prefix(&self) -> &Prefix
        ensures { result.now ≡ self.now.prefix }
    {
        &self.prefix
    }

    /// A copy of the filter. The error is out of memory.
    pub fn copy(&self, alloc: Global) -> Result<Filter, AllocError>
        ensures { IfOk result (λ copy. copy ≡ self.now) }
    {
        Ok(Filter {
            prefix: self.prefix.copy(alloc)?,
            lower: self.lower,
            upper: self.upper,
            set: copy_set(alloc, &self.set)?,
        })
    }

    /// Whether the filter selects the item, live or deleted. Allocates nothing.
    pub fn passes(&self, item: &Item) -> bool
        ensures { result ≡ passes self.now item.now }
    {
        item.has_record(self.prefix.as_str())
            && self.lower <= item.stamp()
            && item.stamp() <= self.upper
            && is_in_given(&self.set, item.sets())
    }
}

/// A copy of the setSpec, if there is one. The error is out of memory.
fn copy_set(alloc: Global, set: &Option<SetSpec>) -> Result<Option<SetSpec>, AllocError>
    ensures { IfOk result (λ copy. copy ≡ set.now) }
{
    match set {
        Some(set) => Ok(Some(set.copy(alloc)?)),
        None => Ok(None),
    }
}

/// Whether an item with these setSpecs is in the set, if one is given.
fn is_in_given(set: &Option<SetSpec>, sets: &[SetSpec]) -> bool
    ensures { result ≡ is_in_given set.now sets.now }
{
    match set {
        Some(set) => is_in(set, sets),
        None => true,
    }
}
