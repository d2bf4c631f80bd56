ghost use Rattle.std.specs.Prelude.{◌≡◌};
ghost use Rattle.oai_front.specs.Stages as spec;

/// The stage of a connection.
#[derive(Clone, Copy, PartialEq, Eq)]
pub enum Stage {
    /// It reads.
    Reading,
    /// Its end came; earlier messages may wait to be performed.
    Ended,
    /// The last message, or a fault, was answered.
    Closed,
}

impl Stage {
    /// Whether the connection reads no more input.
    pub(crate) fn is_closing(self) -> bool
        ensures { result ≡ spec.is_closing self }
    {
        match self {
            Stage::Reading => false,
            Stage::Ended => true,
            Stage::Closed => true,
        }
    }

    /// The stage once no more bytes come.
    pub(crate) fn ended(self) -> Stage
        ensures { result ≡ spec.stage_ended self }
    {
        match self {
            Stage::Reading => Stage::Ended,
            Stage::Ended => Stage::Ended,
            Stage::Closed => Stage::Closed,
        }
    }
}
