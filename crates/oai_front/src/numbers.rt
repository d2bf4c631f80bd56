/// The number that no connection gets.
pub const LAST_NUMBER: u64 = 18_446_744_073_709_551_615;

/// A connection, by its number. The first of a front is 1; numbers are never used again.
#[derive(Clone, Copy, Debug, PartialEq, Eq)]
pub struct ConnId {
    /// The number.
    pub number: u64,
}
