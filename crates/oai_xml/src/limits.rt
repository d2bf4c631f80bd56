//! How large an element may be: limits of this repository's own, since XML sets none.

ghost use Rattle.std.specs.Prelude.{◌≡◌};

/// The most levels of elements, of which the root is the first.
pub const MAX_DEPTH: usize = 128;

/// The most attributes of a tag, declarations of namespaces among them.
pub const MAX_ATTRIBUTES: usize = 64;

/// The most declarations of namespaces in force at a place.
pub const MAX_DECLARATIONS: usize = 128;

/// The limits in numbers, since definitions read them by their names. A theorem, proved by an empty
/// function.
pub fn limit_law()
    ensures depth { MAX_DEPTH ≡ 128 }
    ensures attributes { MAX_ATTRIBUTES ≡ 64 }
    ensures declarations { MAX_DECLARATIONS ≡ 128 }
{}
