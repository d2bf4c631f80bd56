ghost use Rattle.std.specs.Prelude.{◌≡◌, ◌<◌, ◌++◌, [], ◌∷◌, true, false, if◌then◌else◌, None, Some, length, IfOk, MatchResult};
ghost use Rattle.std.specs.List.{slice_get};
ghost use Rattle.std.specs.Option.{option_copied, option_map};
ghost use Rattle.oai_names.specs.SetPlaces.{IsSetPlace, spec_at};
ghost use Rattle.oai_names.specs.Sets.{HasParentsBefore, HasSetsAbove, IsAdding, IsSetTree, has_parent, has_set, parent_of};

use crate::limits::MAX_SETS;
use crate::set_specs::SetSpec;
use crate::texts::Text;
use std::alloc::{AllocError, Global};
use std::collections::BTreeMap;
use std::marker::Model;
use thiserror::Error;

/// Why a set was not added, in the order in which the causes are tested.
#[derive(Clone, Copy, Debug, PartialEq, Eq, Error)]
pub enum SetFault {
    /// A set with this setSpec exists.
    #[error("the set exists")]
    Exists,
    /// The setSpec has two or more parts, and no set has the setSpec without the last part.
    #[error("the set has no parent")]
    NoParent,
    /// There are 10,000 sets already.
    #[error("there are too many sets")]
    TooMany,
    /// Out of memory.
    #[error("out of memory")]
    NoMemory,
}

/// The sets of a repository, each with its setSpec and its name, in order of addition (OAI-PMH 2.0, section 2.6). The
/// setSpecs are distinct. The parent of a set, whose setSpec is the same without the last part, stands before it. There
/// are at most 10,000 sets.
///
/// A B-tree of the setSpecs, each with the position of its set, stands beside the list: a look-up takes O(log n)
/// comparisons, a few dozen among 10,000 sets.
#[derive(Debug, Drop)]
pub struct SetTree {
    sets: Vec<(SetSpec, Text)>,
    places: BTreeMap<String, usize>,
}

impl Model for SetTree {
    ghost use Rattle.std.specs.Prelude.{ℕ, List};
    ghost use Rattle.std.specs.BTreeMap.{get_by_text};

    ghost Value = { List (List ℕ × List ℕ) };

    ghost use Rattle.oai_names.specs.SetPlaces.{IsSetPlace};
    ghost use Rattle.oai_names.specs.Sets.{IsSetTree};

    ghost view = { λ t. t.sets.items };

    ghost invariant = { λ t. IsSetTree t.sets.items
        × ((spec : List ℕ) → IsSetPlace t.sets.items spec (get_by_text t.places spec)) };
}

impl SetTree {
    /// A repository without sets. Allocates nothing; sets that are added later are stored in memory of this allocator.
    pub fn new(alloc: Global) -> SetTree
        ensures { result ≡ [] }
    {
        SetTree {
            sets: Vec::new(alloc),
            places: BTreeMap::new(alloc),
        }
    }

    /// Adds a set with this setSpec and name, as the last one. The errors, in this order: `Exists` if a set has this
    /// setSpec, `NoParent` if the setSpec has two or more parts and no set has the setSpec without the last part,
    /// `TooMany` if there are 10,000 sets, `NoMemory`. After an error the tree is unchanged.
    pub fn add(&mut self, spec: &SetSpec, name: &str) -> Result<(), SetFault>
        ensures { IsAdding self.old spec.now name.now result self.new }
    {
        if self.has(spec) {
            return Err(SetFault::Exists);
        }
        if !self.has_parent(spec) {
            return Err(SetFault::NoParent);
        }
        if self.len() >= MAX_SETS {
            return Err(SetFault::TooMany);
        }
        match self.push(spec, name) {
            Ok(()) => Ok(()),
            Err(_) => Err(SetFault::NoMemory),
        }
    }

    /// Whether a set with this setSpec exists. O(log n) by the index.
    pub fn has(&self, spec: &SetSpec) -> bool
        ensures { result ≡ has_set self.now spec.now }
    {
        self.has_text(spec.as_str())
    }

    /// The setSpec of the set with that setSpec, if it exists; a set that does not exist has no descendants. O(log n)
    /// by the index.
    pub fn find(&self, spec: &str) -> Option<&SetSpec>
        ensures found { option_copied result
            ≡ (if has_set self.now spec.now then Some spec.now else None) }
        ensures above { HasSetsAbove self.now }
    {
        match self.place_of(spec) {
            Some(place) => self.spec_at(place),
            None => None,
        }
    }

    /// The setSpec and the name of the set at position `i`, counted from 0 in order of addition; `None` if there are at
    /// most `i` sets. The parent of a set of two or more parts stands before it.
    #[tactic(auto, using(crate::proofs::Parents::parents_stand_before))]
    pub fn get(&self, i: usize) -> Option<(&SetSpec, &str)>
        ensures set { option_map (λ set. (set.0.now, set.1.now)) result ≡ slice_get self.now i }
        ensures tree { IsSetTree self.now }
        ensures parents { HasParentsBefore self.now }
    {
        match self.sets.get(i) {
            Some((spec, name)) => Some((spec, name.as_str())),
            None => None,
        }
    }

    /// The sets in order of addition, each with its setSpec and its name.
    pub fn as_slice(&self) -> &[(SetSpec, Text)]
        ensures { result.now ≡ self.now }
    {
        self.sets.as_slice()
    }

    /// How many sets there are.
    pub fn len(&self) -> usize
        ensures { result ≡ length self.now }
    {
        self.sets.len()
    }

    /// Whether the setSpec is that of a root, or its parent exists.
    fn has_parent(&self, spec: &SetSpec) -> bool
        ensures { result ≡ has_parent self.now spec.now }
    {
        match parent_of(spec.as_str()) {
            Some(parent) => self.has_text(parent),
            None => true,
        }
    }

    /// Whether a set with that setSpec exists.
    fn has_text(&self, spec: &str) -> bool
        ensures { result ≡ has_set self.now spec.now }
    {
        self.place_of(spec).is_some()
    }

    /// The position of the set with that setSpec, if it exists.
    fn place_of(&self, spec: &str) -> Option<usize>
        ensures place { IsSetPlace self.now spec.now result }
        ensures tree { IsSetTree self.now }
    {
        self.places.get(spec).copied()
    }

    /// The setSpec of the set at that position, if there is one.
    fn spec_at(&self, place: usize) -> Option<&SetSpec>
        ensures { option_copied result ≡ spec_at self.now place }
    {
        match self.sets.get(place) {
            Some((spec, _)) => Some(spec),
            None => None,
        }
    }

    /// Adds a set that has a place in the tree. All that may fail comes before the first visible change.
    fn push(&mut self, spec: &SetSpec, name: &str) -> Result<(), AllocError>
        requires apart { has_set self.old spec.now ≡ false }
        requires parent { has_parent self.old spec.now ≡ true }
        requires room { length self.old < MAX_SETS }
        ensures { MatchResult result
            (λ _. self.new ≡ self.old ++ (spec.now, name.now) ∷ []) (λ _. self.new ≡ self.old) }
    {
        let alloc = *self.sets.allocator();
        self.sets.reserve(1)?;
        let set = copied(alloc, spec, name)?;
        let key = String::from_str(alloc, spec.as_str())?;
        let place = self.sets.len();
        self.places.insert(key, place)?;
        self.sets.push(set)?;
        Ok(())
    }
}

/// A set with copies of this setSpec and name.
fn copied(alloc: Global, spec: &SetSpec, name: &str) -> Result<(SetSpec, Text), AllocError>
    ensures { IfOk result (λ set. set ≡ (spec.now, name.now)) }
{
    let spec = spec.copy(alloc)?;
    Ok((spec, Text::new(alloc, name)?))
}

/// The setSpec of the parent, everything before the last colon; `None` if there is no colon, so that the set is a root
/// (OAI-PMH 2.0, section 2.6). Allocates nothing.
pub fn parent_of(spec: &str) -> Option<&str>
    ensures { option_copied result ≡ parent_of spec.now }
{
    match spec.rsplit_once(':') {
        Some((parent, _)) => Some(parent),
        None => None,
    }
}
