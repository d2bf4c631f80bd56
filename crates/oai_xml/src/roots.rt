ghost use Rattle.std.specs.Prelude.{◌≡◌, IfOk};
ghost use Rattle.oai_xml.specs.Roots.{IsRootOf, root_of};
ghost use Rattle.oai_xml.specs.Trees.{Tree};
ghost use Rattle.oai_xml.specs.Whole.{SpellsTree};

use crate::faults::{ParseStop, XmlCause};
use crate::literals::past;
use crate::names::local_of;
use crate::namespaces::space_of;
use crate::tags::start;
use std::alloc::{AllocError, Global};
use std::marker::Model;

/// What names an element: the namespace of its root, which is empty where it has none, and the local part of its name.
#[derive(Debug, Drop)]
pub struct Root {
    namespace: Vec<u8>,
    local: Vec<u8>,
}

impl Model for Root {
    ghost use Rattle.oai_xml.specs.Roots.{RootName};

    ghost Value = { RootName };

    ghost view = { λ r. record { namespace = r.namespace.items; local = r.local.items } };
}

impl Root {
    /// The root of the element that the text is, by its first tag; of a text that is no element nothing is promised. The error
    /// is out of memory.
    pub fn of(alloc: Global, element: &str) -> Result<Root, AllocError>
        ensures { (t : Tree) → SpellsTree element.now t → IfOk result (λ root. root ≡ root_of t) }
    {
        match read_root(alloc, element.as_bytes()) {
            Ok(root) => Ok(root),
            Err(_stop) => Err(AllocError),
        }
    }

    /// The namespace, in UTF-8.
    pub fn namespace(&self) -> &[u8]
        ensures { result.now ≡ self.now.namespace }
    {
        self.namespace.as_slice()
    }

    /// The local part of the name, in UTF-8.
    pub fn local(&self) -> &[u8]
        ensures { result.now ≡ self.now.local }
    {
        self.local.as_slice()
    }
}

/// Reads the first tag of a text.
fn read_root(alloc: Global, bytes: &[u8]) -> Result<Root, ParseStop>
    ensures { IfOk result (λ root. IsRootOf bytes.now root) }
{
    let tag = match past(b"<", bytes, XmlCause::Syntax) {
        Ok(tag) => tag,
        Err(fault) => return Err(ParseStop::At(fault)),
    };
    let mut scope = Vec::new(alloc);
    let mut out = Vec::new(alloc);
    let (name, _) = match start(alloc, tag, &mut scope, &mut out) {
        Ok(read) => read,
        Err(stop) => return Err(stop),
    };
    let namespace = Vec::from_slice(alloc, space_of(&scope, name))?;
    let local = Vec::from_slice(alloc, local_of(name))?;
    Ok(Root { namespace, local })
}
