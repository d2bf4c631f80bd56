ghost use Rattle.std.specs.Prelude.{◌≡◌, length};
ghost use Rattle.std.specs.List.{list_all};
ghost use Rattle.oai_journal.specs.Records as spec;

/// The maximum length of a record in bytes, except for the first one.
pub const MAX_BODY: usize = 2_097_152;

/// The maximum length of the first record in bytes.
pub const MAX_FIRST_BODY: usize = 67_108_864;

/// The maximum length of the name in a record, in bytes.
pub const MAX_NAME: usize = 32;

/// The kind of a log record.
#[derive(Clone, Copy, Debug, PartialEq, Eq)]
pub enum Kind {
    /// The first record of a journal, and no other: the version and the configuration.
    Journal,
    /// The arguments of a request.
    Oai,
    /// The lines of a deposit.
    Deposit,
    /// A tick: only the clock moved.
    Tick,
    /// A repository of a checkpoint begins: its next list number.
    Begin,
    /// A set of a checkpoint: its setSpec, a space, its name.
    Set,
    /// An item of a checkpoint: it is there, in place of one with its identifier.
    Item,
    /// An open list of a checkpoint.
    List,
    /// An identifier of a checkpoint: its item is there no longer.
    Gone,
}

/// A log record.
#[derive(Clone, Copy, Debug)]
pub struct LogRecord<'a> {
    /// The moment, in seconds from 1970 on.
    pub moment: i64,
    /// Its kind.
    pub kind: Kind,
    /// The name of a repository: at most `MAX_NAME` visible ASCII characters.
    pub name: &'a [u8],
    /// Its bytes.
    pub body: &'a [u8],
}

impl Kind {
    /// The word for the kind in a head.
    pub fn word(self) -> &'static str
        ensures { result.now ≡ spec.word_of self }
    {
        match self {
            Kind::Journal => "journal",
            Kind::Oai => "oai",
            Kind::Deposit => "deposit",
            Kind::Tick => "tick",
            Kind::Begin => "begin",
            Kind::Set => "set",
            Kind::Item => "item",
            Kind::List => "list",
            Kind::Gone => "gone",
        }
    }

    /// Whether it is the kind of the first record of a journal.
    pub fn is_first(self) -> bool
        ensures { result ≡ spec.is_first_kind self }
    {
        match self {
            Kind::Journal => true,
            _ => false,
        }
    }

    /// The maximum length of a record of the kind, in bytes.
    pub fn max_body(self) -> usize
        ensures { result ≡ spec.most_bytes self }
    {
        match self {
            Kind::Journal => MAX_FIRST_BODY,
            _ => MAX_BODY,
        }
    }
}

impl LogRecord<'_> {
    /// Whether a frame can hold it: its name and its length are within bounds.
    pub fn is_fit(&self) -> bool
        ensures { result ≡ spec.is_fit (spec.as_entry self.now) }
    {
        is_within(self.kind, self.name, self.body.len())
    }
}

/// Whether a record of the kind may have that name and that many bytes.
#[tactic(auto, unfolding(crate::specs::Records::is_within))]
pub(crate) fn is_within(kind: Kind, name: &[u8], size: usize) -> bool
    ensures { result ≡ spec.is_within kind name.now size }
{
    has_name_bytes(name) && name.len() <= MAX_NAME && size <= kind.max_body()
}

/// Whether each byte is a visible ASCII character.
fn has_name_bytes(name: &[u8]) -> bool
    ensures { result ≡ list_all spec.is_visible_ascii name.now }
{
    name.iter().all(|b| 33 <= *b && *b <= 126)
}
