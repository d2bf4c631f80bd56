ghost use Rattle.std.specs.Prelude.{◌≡◌, ◌≤◌, IfSome, vec_len};

use oai_names::Text;
use std::alloc::Global;
use std::marker::Model;
use std::rc::Rc;

/// A setSpec that counts refer to. Its copies share one text.
#[derive(Drop)]
pub(crate) struct SharedSetSpec {
    text: Rc<Text>,
}

impl Model for SharedSetSpec {
    ghost use Rattle.std.specs.Prelude.{List, ℕ};

    ghost Value = { List ℕ };

    ghost view = { λ n. n.text.value };
}

impl SharedSetSpec {
    /// The setSpec, as the first of its copies; None if memory runs out.
    fn new(alloc: Global, set: &str) -> Option<SharedSetSpec>
        ensures { IfSome result (λ name. name ≡ set.now) }
    {
        let Ok(text) = Text::new(alloc, set) else {
            return None;
        };
        match Rc::new(alloc, text) {
            Ok(text) => Some(SharedSetSpec { text }),
            Err(_) => None,
        }
    }

    /// The setSpec.
    pub(crate) fn as_str(&self) -> &str
        ensures { result.now ≡ self.now }
    {
        self.text.as_str()
    }

    /// A copy of the setSpec, reference-counted; None if the count overflows.
    pub(crate) fn copy(&self) -> Option<SharedSetSpec>
        ensures { IfSome result (λ copy. copy ≡ self.now) }
    {
        match self.text.clone() {
            Ok(text) => Some(SharedSetSpec { text }),
            Err(_) => None,
        }
    }
}

/// The setSpecs of the sets in which items were counted, each once: all counts of a set share its setSpec.
#[derive(Drop)]
pub struct SetNames {
    alloc: Global,
    /// Sorted by their bytes.
    names: Vec<SharedSetSpec>,
}

impl SetNames {
    /// No setSpecs. Allocates nothing.
    pub fn new(alloc: Global) -> SetNames {
        SetNames {
            alloc,
            names: Vec::new(alloc),
        }
    }

    /// The shared copy of the setSpec, which is made if there is none; None if memory runs out.
    pub(crate) fn name(&mut self, set: &str) -> Option<SharedSetSpec>
        ensures { IfSome result (λ name. name ≡ set.now) }
    {
        let at = self.position_of(set);
        if at < self.names.len() {
            let name = &self.names[at];
            if name.as_str() == set {
                return name.copy();
            }
        }
        let name = SharedSetSpec::new(self.alloc, set)?;
        match self.names.insert(at, name.copy()?) {
            Ok(()) => Some(name),
            Err(_) => None,
        }
    }

    /// The position of the setSpec, or where it would be inserted; by binary search.
    fn position_of(&self, set: &str) -> usize
        ensures { result ≤ vec_len self.now.names }
    {
        self.names.partition_point(|name| name.as_str() < set)
    }
}
