ghost use Rattle.std.specs.Prelude.{◌≡◌, ◌||◌, true, List, ℕ, length, IfOk, OnOk, vec_len};
ghost use Rattle.std.specs.List.{list_any};
ghost use Rattle.oai_item.specs.Item.{are_set_specs};
ghost use Rattle.oai_item.specs.Membership.{is_above, reduced};
ghost use Rattle.oai_item.specs.Reductions.{flagged, holds};

use oai_names::{Sequence, SetSpec, parent_of};
use std::alloc::{AllocError, Global};
use std::collections::BTreeSet;

/// The setSpecs without repetitions, and without those that cover another, in their order. Those that stay are not
/// copied. O(p log p) for p parts of setSpecs. The error is out of memory.
pub(crate) fn reduced(
    alloc: Global,
    sets: Sequence<SetSpec>,
) -> Result<Sequence<SetSpec>, AllocError>
    ensures kept { IfOk result (λ kept. kept ≡ reduced sets) }
    ensures names { OnOk result (are_set_specs (reduced sets) ≡ true) }
{
    let stay = which_stay(alloc, sets.as_slice())?;
    let mut kept = sets.into_vec();
    keep(&mut kept, stay.as_slice());
    Ok(Sequence::new(kept))
}

/// For each setSpec, whether it stays. The error is out of memory.
fn which_stay(alloc: Global, sets: &[SetSpec]) -> Result<Vec<bool>, AllocError>
    ensures kept { IfOk result (λ stay. flagged stay.items sets.now ≡ reduced sets.now) }
    ensures len { IfOk result (λ stay. vec_len stay ≡ length sets.now) }
    ensures names { OnOk result (are_set_specs sets.now ≡ true) }
{
    let mut out = names_above(alloc, sets)?;
    let mut stay = Vec::with_capacity(alloc, sets.len())?;
    for set in sets {
        stay.push(out.insert(set.as_str())?)?;
    }
    Ok(stay)
}

/// Removes the setSpecs that do not stay, in place.
fn keep(sets: &mut Vec<SetSpec>, stay: &[bool])
    requires { length stay.now ≡ vec_len sets.old }
    ensures { sets.new.items ≡ flagged stay.now sets.old.items }
{
    let mut kept = 0;
    for at in 0..stay.len() {
        if stay[at] {
            sets.swap(kept, at);
            kept += 1;
        }
    }
    sets.truncate(kept);
}

/// The names of the ancestors of these sets: the parent of each, its parent, and so on.
fn names_above(alloc: Global, sets: &[SetSpec]) -> Result<BTreeSet<&str>, AllocError>
    ensures { IfOk result (λ names. (q : List ℕ) → holds names q ≡ list_any (is_above q) sets.now) }
{
    let mut names = BTreeSet::new(alloc);
    for set in sets {
        add_above(&mut names, set.as_str())?;
    }
    Ok(names)
}

/// Adds the names of the ancestors of this set.
pub(crate) fn add_above<'a>(names: &mut BTreeSet<&'a str>, spec: &'a str) -> Result<(), AllocError>
    ensures { OnOk result ((q : List ℕ)
        → holds names.new q ≡ (holds names.old q || is_above q spec.now)) }
{
    let mut path = spec;
    while let Some(parent) = parent_of(path) {
        names.insert(parent)?;
        path = parent;
    }
    Ok(())
}
