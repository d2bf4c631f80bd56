//! The numbers of the pages of a leaf.
ghost use Rattle.std.specs.Prelude.{◌≡◌, IfOk};

use oai_pool::PageNo;
use std::alloc::{AllocError, Global};
use std::marker::Model;

/// Numbers of pages, one or more. Nearly each leaf has one page: its number is not allocated.
#[derive(Drop)]
pub(crate) struct PageNumbers {
    held: HeldNumbers,
}

/// How the numbers are stored.
#[derive(Drop)]
enum HeldNumbers {
    /// One, inline.
    One([PageNo; 1]),
    /// Any others, allocated.
    Several(Vec<PageNo>),
}

impl Model for PageNumbers {
    ghost use Rattle.std.specs.Prelude.{List, ℕ};
    ghost use Rattle.oai_places.specs.PageNumbers.{numbers_held};

    ghost Value = { List ℕ };

    ghost view = { λ numbers. numbers_held numbers.held };
}

impl PageNumbers {
    /// These numbers. The error is out of memory, which one number does not need.
    pub(crate) fn new(alloc: Global, numbers: &[PageNo]) -> Result<PageNumbers, AllocError>
        ensures { IfOk result (λ own. own ≡ numbers.now) }
    {
        let held = match numbers {
            [number] => HeldNumbers::One([*number]),
            _ => HeldNumbers::Several(Vec::from_slice(alloc, numbers)?),
        };
        Ok(PageNumbers { held })
    }

    /// The numbers, in order.
    pub(crate) fn as_slice(&self) -> &[PageNo]
        ensures { result.now ≡ self.now }
    {
        match &self.held {
            HeldNumbers::One(number) => number,
            HeldNumbers::Several(numbers) => numbers.as_slice(),
        }
    }
}
