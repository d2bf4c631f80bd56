ghost use Rattle.std.specs.Prelude.{◌≡◌, false};
ghost use Rattle.oai_serving.specs.Links.{is_able};

/// The phase of a link.
#[derive(Clone, Copy, Debug, PartialEq, Eq)]
pub enum Phase {
    /// It is read, and its messages are performed.
    Open,
    /// Nothing more is read or performed; the waiting output is written, and then it is over.
    Last,
    /// It was shut down for writing in that second, and that many bytes were dropped since.
    Closing {
        /// The second.
        since: u64,
        /// The bytes.
        dropped: usize,
    },
    /// It has to be removed.
    Over,
}

impl Phase {
    /// Whether messages are performed.
    pub(crate) fn is_open(self) -> bool
        ensures { result ≡ is_able self }
    {
        match self {
            Phase::Open => true,
            Phase::Last => false,
            Phase::Closing {
                since: _,
                dropped: _,
            } => false,
            Phase::Over => false,
        }
    }

    /// The phase once its stream has ended.
    pub(crate) fn at_end(self) -> Phase
        ensures { is_able result ≡ false }
    {
        match self {
            Phase::Open => Phase::Last,
            Phase::Last => Phase::Last,
            Phase::Closing {
                since: _,
                dropped: _,
            } => Phase::Over,
            Phase::Over => Phase::Over,
        }
    }
}
