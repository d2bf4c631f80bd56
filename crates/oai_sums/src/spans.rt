//! Where some of many items are.

/// A span of the bytes of consecutive entries.
#[derive(Clone, Copy, Debug, PartialEq, Eq)]
pub struct Span {
    /// The offset of its first byte.
    pub from: u16,
    /// The offset of the byte after its last.
    pub to: u16,
}

/// The statistics of the items of a set.
#[derive(Clone, Copy)]
pub struct SetItems {
    /// How many there are.
    pub count: usize,
    /// Within which span of bytes their entries are, as `SetCounts::add` was given it; None if there are none.
    pub span: Option<Span>,
}
