//! The references of leaves to the pages of a pool.
ghost use Rattle.std.specs.Prelude.{◌≡◌, ◌<◌, ◌≤◌, ℕ, [], OnErr, OnOk, IfErr, IfOk};
ghost use Rattle.oai_catalogue.specs.Store.{Spares};
ghost use Rattle.oai_item.specs.declared.faults.Fault.TheVariants as fault;
ghost use Rattle.oai_pool.specs.Counts.{count_of};
ghost use Rattle.oai_pool.specs.Names.{times};
ghost use Rattle.oai_places.specs.Calls.{Evicts, IsShareFault, Renames};
ghost use Rattle.oai_places.specs.Places.{named_in, page_numbers};
ghost use Rattle.oai_places.specs.Recounts.{HasFull, Recounts};

use crate::faults::fault_of;
use crate::places::SharedPlace;
use oai_item::Fault;
use oai_pool::{PageNo, PagePool};
use std::alloc::Global;

/// Drops the leaves and the references to their pages. It allocates nothing and cannot fail.
pub fn drop_all<P: PagePool>(pages: &mut P, places: Vec<SharedPlace>)
    requires { (n : ℕ) → named_in places.items n ≤ count_of (P.counts pages.old) n }
    ensures names { Renames P.PagePool places.items [] pages.old pages.new }
    ensures pool { Spares P.room P.failures P.honest pages.old pages.new }
{
    for place in places {
        drop_numbers(pages, place.pages());
    }
}

/// Drops one reference to each of the pages. It allocates nothing and cannot fail.
pub fn drop_numbers<P: PagePool>(pages: &mut P, numbers: &[PageNo])
    requires { (n : ℕ) → times n numbers.now ≤ count_of (P.counts pages.old) n }
    ensures names { Recounts P.PagePool numbers.now [] pages.old pages.new }
    ensures pool { Spares P.room P.failures P.honest pages.old pages.new }
{
    for number in numbers {
        pages.drop_ref(*number);
    }
}

/// Drops the pages from memory. It allocates nothing and cannot fail.
pub(crate) fn forget_all<P: PagePool>(pages: &mut P, numbers: &[PageNo])
    ensures { Evicts P.PagePool pages.old pages.new }
{
    for number in numbers {
        pages.forget(*number);
    }
}

/// A copy of each of the leaves, in order. Increments the reference count of each of their pages; these are referenced,
/// and no two leaves share one. The errors: `NoMemory`; `TooManyPages` if a count is 4,294,967,295. After an error each
/// count is unchanged.
pub fn share_all<P: PagePool>(
    alloc: Global,
    pages: &mut P,
    places: &[SharedPlace],
) -> Result<Vec<SharedPlace>, Fault>
    requires named { (n : ℕ) → named_in places.now n ≤ count_of (P.counts pages.old) n }
    requires once { (n : ℕ) → named_in places.now n ≤ 1 }
    ensures copies { IfOk result (λ copies. copies.items ≡ places.now) }
    ensures names { OnOk result (Renames P.PagePool [] places.now pages.old pages.new) }
    ensures undone { OnErr result (Renames P.PagePool [] [] pages.old pages.new) }
    ensures fault { IfErr result (λ cause. IsShareFault (HasFull P.PagePool (page_numbers places.now) pages.old) cause) }
    ensures pool { Spares P.room P.failures P.honest pages.old pages.new }
{
    let mut copies = Vec::with_capacity(alloc, places.len())?;
    for at in 0..places.len() {
        match share_place(pages, &places[at]) {
            Ok(copy) => copies.push(copy).unwrap(),
            Err(fault) => {
                drop_all(pages, copies);
                return Err(fault);
            }
        }
    }
    Ok(copies)
}

/// A copy of the leaf. Increments the reference count of each of its pages, which are referenced and distinct. The
/// errors: `NoMemory`; `TooManyPages` if a count is 4,294,967,295. After an error each count is unchanged.
fn share_place<P: PagePool>(pages: &mut P, place: &SharedPlace) -> Result<SharedPlace, Fault>
    requires named { (n : ℕ) → times n place.now.pages ≤ count_of (P.counts pages.old) n }
    requires once { (n : ℕ) → times n place.now.pages ≤ 1 }
    ensures copy { IfOk result (λ copy. copy ≡ place.now) }
    ensures names { OnOk result (Recounts P.PagePool [] place.now.pages pages.old pages.new) }
    ensures undone { OnErr result (Recounts P.PagePool [] [] pages.old pages.new) }
    ensures fault { IfErr result (λ cause. IsShareFault (HasFull P.PagePool place.now.pages pages.old) cause) }
    ensures pool { Spares P.room P.failures P.honest pages.old pages.new }
{
    let copy = place.copy()?;
    share_numbers(pages, copy.pages())?;
    Ok(copy)
}

/// Increments the reference count of each of the pages, which are referenced and distinct. The error is `TooManyPages`
/// if a count is 4,294,967,295; then each count is unchanged.
fn share_numbers<P: PagePool>(pages: &mut P, numbers: &[PageNo]) -> Result<(), Fault>
    requires named { (n : ℕ) → times n numbers.now ≤ count_of (P.counts pages.old) n }
    requires once { (n : ℕ) → times n numbers.now ≤ 1 }
    ensures names { OnOk result (Recounts P.PagePool [] numbers.now pages.old pages.new) }
    ensures undone { OnErr result (Recounts P.PagePool [] [] pages.old pages.new) }
    ensures fault { IfErr result (λ cause. cause ≡ fault.TooManyPages) }
    ensures full { OnErr result (HasFull P.PagePool numbers.now pages.old) }
    ensures pool { Spares P.room P.failures P.honest pages.old pages.new }
{
    for at in 0..numbers.len() {
        match pages.share(numbers[at]) {
            Ok(()) => {}
            Err(fault) => {
                drop_numbers(pages, &numbers[..at]);
                return Err(fault_of(fault));
            }
        }
    }
    Ok(())
}
