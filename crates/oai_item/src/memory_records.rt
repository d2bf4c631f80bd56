//! Records in memory, in the forms of an item and of a deposit.

ghost use Rattle.std.specs.Prelude.{◌≡◌};
ghost use Rattle.oai_item.specs.Item.{Metadata};

use crate::fields::Field;
use oai_names::{Prefix, Sequence, Text};

/// A record in memory.
pub(crate) trait MemoryRecord {
    ghost record_of: { Self → Metadata };

    /// Its prefix.
    fn prefix(&self) -> &str
        ensures { result.now ≡ (record_of self.now).0 };

    /// Its fields.
    fn fields(&self) -> &[Field]
        ensures { result.now ≡ (record_of self.now).1 };
}

/// A record of an item.
impl MemoryRecord for (Prefix, Sequence<Field>) {
    ghost record_of = { λ r. r };

    fn prefix(&self) -> &str {
        self.0.as_str()
    }

    fn fields(&self) -> &[Field] {
        self.1.as_slice()
    }
}

/// A record of a deposit.
impl MemoryRecord for (Text, Sequence<Field>) {
    ghost record_of = { λ r. r };

    fn prefix(&self) -> &str {
        self.0.as_str()
    }

    fn fields(&self) -> &[Field] {
        self.1.as_slice()
    }
}
