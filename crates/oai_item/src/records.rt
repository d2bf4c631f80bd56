ghost use Rattle.std.specs.Prelude.{◌≡◌, true, map};
ghost use Rattle.oai_item.specs.Givens.{AreNoted, all_given, kept, listed_record};
ghost use Rattle.oai_item.specs.Item.{are_rising};

use crate::fields::Field;
use crate::given_records::GivenRecords;
use crate::notes::Note;
use oai_names::{Sequence, Text};
use std::alloc::Global;
use std::marker::Model;

/// The records of a deposit: under each metadataPrefix its fields, or its element, and the elements about it. The
/// prefixes are in strictly rising byte order, so they are distinct. An element is held as an item keeps it, as the text
/// of a field without a name, and beside it what is noted of it.
#[derive(Debug, Drop)]
pub struct Records {
    records: Sequence<(Text, Sequence<Field>)>,
    notes: Sequence<Note>,
}

impl Model for Records {
    ghost use Rattle.std.specs.Prelude.{List};
    ghost use Rattle.oai_item.specs.Givens.{AreRecords, GivenRecord, all_given};

    ghost Value = { List GivenRecord };

    ghost view = { λ r. all_given r.records r.notes };

    ghost invariant = { λ r. AreRecords r.records r.notes };
}

impl Records {
    /// Records that are lists of fields, with prefixes in rising order. Allocates nothing.
    #[tactic(auto, using(crate::proofs::GivenLemmas::all_listed, crate::proofs::GivenLemmas::none_noted))]
    pub fn listed(alloc: Global, records: Sequence<(Text, Sequence<Field>)>) -> Records
        requires { are_rising records ≡ true }
        ensures { result ≡ map listed_record records }
    {
        Records {
            records,
            notes: Sequence::new(Vec::new(alloc)),
        }
    }

    /// Records as an item keeps them, with prefixes in rising order, and what is noted of each of the first ones; the
    /// others are lists of fields, with nothing about them. Elements are in canonical text. Allocates nothing.
    pub fn new(records: Sequence<(Text, Sequence<Field>)>, notes: Sequence<Note>) -> Records
        requires rising { are_rising records ≡ true }
        requires noted { AreNoted records notes }
        ensures { result ≡ all_given records notes }
    {
        Records { records, notes }
    }

    /// The records as an item keeps them, in the order of their prefixes.
    #[tactic(auto, using(crate::proofs::GivenLemmas::kept_again, crate::proofs::GivenLemmas::rising_kept))]
    pub fn as_slice(&self) -> &[(Text, Sequence<Field>)]
        ensures records { result.now ≡ map kept self.now }
        ensures rising { are_rising (map kept self.now) ≡ true }
    {
        self.records.as_slice()
    }

    /// Iterates over the records as they are given, in the order of their prefixes.
    pub fn walk(&self) -> GivenRecords<'_>
        ensures { result ≡ self.now }
    {
        GivenRecords::new(self.records.as_slice(), self.notes.as_slice())
    }
}
