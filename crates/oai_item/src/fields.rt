ghost use Rattle.std.specs.Prelude.{◌≡◌, IfOk};

use oai_names::Text;
use std::alloc::{AllocError, Global};

/// A field of a record: an element of its metadata and the element's text.
#[derive(Debug, Drop)]
pub struct Field {
    /// The element's name, one of the format's.
    pub name: Text,
    /// The text, unescaped.
    pub text: Text,
}

impl Field {
    /// A copy of the field. The error is out of memory.
    pub fn copy(&self, alloc: Global) -> Result<Field, AllocError>
        ensures { IfOk result (λ copy. copy ≡ self.now) }
    {
        Ok(Field {
            name: self.name.copy(alloc)?,
            text: self.text.copy(alloc)?,
        })
    }
}
