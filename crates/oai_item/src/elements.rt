//! When a record is an element of a format.

ghost use Rattle.std.specs.Prelude.{◌≡◌, IfOk};
ghost use Rattle.oai_item.specs.Elements as spec;

use crate::formats::Format;
use oai_xml::{Root, is_canonical, local_of};
use std::alloc::{AllocError, Global};

/// Whether the text is an element of the format: in canonical text, and with the format's root. The error is out of
/// memory.
#[tactic(auto, using(crate::proofs::ElementLemmas::root_told), unfolding(crate::specs::Elements::is_element_of))]
pub fn is_element_of(alloc: Global, format: &Format, text: &str) -> Result<bool, AllocError>
    ensures { IfOk result (λ is. is ≡ spec.is_element_of format.now text.now) }
{
    if !is_canonical(alloc, text)? {
        return Ok(false);
    }
    let root = Root::of(alloc, text)?;
    Ok(is_root_of(format, &root))
}

/// Whether a root is the format's: it is in the format's namespace, and has the local part of the name of the format's
/// root.
pub fn is_root_of(format: &Format, root: &Root) -> bool
    ensures { result ≡ spec.is_root_of format.now root.now }
{
    root.namespace() == format.namespace.as_str().as_bytes()
        && root.local() == local_of(format.root.as_str().as_bytes())
}
