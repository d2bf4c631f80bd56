//! What a deposit line asks for.
use oai_item::Records;
use oai_names::{Identifier, Sequence, SetSpec, Text};

/// What a deposit line asks for.
#[derive(Debug, Drop)]
pub enum Change {
    /// A new item, or a new version of an existing one (OAI-PMH 2.0, section 2.3).
    Deposit {
        /// The unique identifier.
        identifier: Identifier,
        /// The setSpecs of the sets, as the line gives them.
        sets: Sequence<SetSpec>,
        /// The record under each metadataPrefix.
        records: Records,
    },
    /// The same, but if the item is held already, live and with these sets and records, nothing. So a line may be sent
    /// again that may have been performed.
    Put {
        /// The unique identifier.
        identifier: Identifier,
        /// The setSpecs of the sets, as the line gives them.
        sets: Sequence<SetSpec>,
        /// The record under each metadataPrefix.
        records: Records,
    },
    /// The deletion of an item (OAI-PMH 2.0, section 2.5.1).
    Delete {
        /// The unique identifier.
        identifier: Identifier,
    },
    /// The removal of tombstones, what is left of deleted items (OAI-PMH 2.0, section 2.5.1).
    Purge {
        /// The bound: tombstones with a datestamp below its first second are removed.
        before: Text,
    },
    /// A new set (OAI-PMH 2.0, section 2.6).
    AddSet {
        /// The setSpec.
        spec: SetSpec,
        /// The setName: 1 to 512 bytes, of characters that an XML document may hold.
        name: Text,
    },
}
