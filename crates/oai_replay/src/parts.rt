ghost use Rattle.std.specs.Prelude.{◌++◌, ◌∷◌, [], List, OnOk};
ghost use Rattle.oai_replay.specs.Parts.{PartState, as_part};

use oai_item::Fault;
use thiserror::Error;

/// What kind of part of a handler's state it is.
#[derive(Clone, Copy, Debug, PartialEq, Eq)]
pub enum PartKind {
    /// A repository begins: its clock, and the number of its next list.
    Begin,
    /// A set: its setSpec, a space, its name.
    Set,
    /// An item, encoded as a store does. It is there from here on, in place of one with its identifier.
    Item,
    /// An open list, whose items are those that it selects of the items that are there at this part: its number, the
    /// verb of its request, its end, the highest cursor handed out, the metadataPrefix, and the first and the last
    /// datestamp, with one space between; where the request names a set, a space and its setSpec behind them. Moments
    /// and datestamps are in seconds from 1970 on.
    List,
    /// The identifier of an item that is there no longer.
    Gone,
}

/// A part of a handler's state. The parts in their order make up the whole state. `Replayed::save` passes no open lists:
/// it ends them; those that come as parts are restored.
#[derive(Clone, Copy, Debug)]
pub struct Part<'a> {
    /// Its kind.
    pub kind: PartKind,
    /// The datestamp of an item, or else the clock of the repository, in seconds from 1970 on.
    pub moment: i64,
    /// The name of the repository.
    pub name: &'a [u8],
    /// Its bytes.
    pub bytes: &'a [u8],
}

/// The sink cannot take more parts.
#[derive(Clone, Copy, Debug, PartialEq, Eq, Error)]
#[error("no further part can be taken")]
pub struct SinkFault;

/// Takes parts, one after the other.
pub trait Sink {
    /// The parts that it has taken.
    ghost has: { Self → List PartState → Type 0 };

    /// Takes a part.
    fn add(&mut self, part: &Part<'_>) -> Result<(), SinkFault>
        ensures { OnOk result ((parts : List PartState) → has self.old parts
            → has self.new (parts ++ as_part part.now ∷ [])) };
}

/// Why not all parts were saved.
#[derive(Clone, Copy, Debug, PartialEq, Eq, Error)]
pub enum SaveFault {
    /// Reading them failed.
    #[error("{0}")]
    Reading(Fault),
    /// A list number would not fit in 64 bits.
    #[error("no list number is left")]
    Numbers,
    /// The sink did not take one.
    #[error("{0}")]
    Sink(SinkFault),
}
