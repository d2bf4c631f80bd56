//! The kinds of pages of a pool.

/// What a page holds, according to who adds it or reads it.
#[derive(Clone, Copy, Debug, PartialEq, Eq)]
pub enum PageKind {
    /// Items: the number of its entries, and the entries, each of which encodes an item. Such a page is validated when
    /// it is read from the device.
    Items,
    /// Any bytes, of which nothing is known.
    Bytes,
}
