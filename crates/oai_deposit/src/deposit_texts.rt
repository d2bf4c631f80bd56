ghost use Rattle.std.specs.Prelude.{◌≡◌, true};
ghost use Rattle.oai_item.specs.Item.{are_rising};

use crate::about_texts::AboutTexts;
use oai_item::Given;
use oai_names::{Sequence, Text};
use std::marker::Model;

/// What a line gives under each metadataPrefix: fields, or a text that is to be an element. The prefixes are in strictly
/// rising byte order.
#[derive(Drop)]
pub(crate) struct RecordTexts {
    records: Sequence<(Text, Given)>,
}

impl Model for RecordTexts {
    ghost use Rattle.std.specs.Prelude.{◌≡◌, true, List};
    ghost use Rattle.oai_deposit.specs.Lines.{LineRecord};
    ghost use Rattle.oai_item.specs.Item.{are_rising};

    ghost Value = { List LineRecord };

    ghost view = { λ r. r.records };

    ghost invariant = { λ r. are_rising r.records ≡ true };
}

impl RecordTexts {
    /// These records, with prefixes in rising order. Allocates nothing.
    pub(crate) fn new(records: Sequence<(Text, Given)>) -> RecordTexts
        requires { are_rising records ≡ true }
        ensures { result ≡ records }
    {
        RecordTexts { records }
    }

    /// The records, in the order of their prefixes.
    pub(crate) fn as_slice(&self) -> &[(Text, Given)]
        ensures { result.now ≡ self.now }
    {
        self.records.as_slice()
    }

    /// The records, in the order of their prefixes.
    pub(crate) fn into_vec(self) -> Vec<(Text, Given)>
        ensures records { result.items ≡ self }
        ensures rising { are_rising self ≡ true }
    {
        let RecordTexts { records } = self;
        records.into_vec()
    }
}

/// The texts of a deposit, from its line.
#[derive(Drop)]
pub(crate) struct DepositTexts<'a> {
    /// The text of the identifier.
    pub(crate) identifier: &'a str,
    /// The texts of the setSpecs, in order.
    pub(crate) sets: Vec<&'a str>,
    /// The records, of any texts.
    pub(crate) records: RecordTexts,
    /// What is about them, of any texts.
    pub(crate) abouts: AboutTexts<'a>,
}
