//! Directories as they are read.
use crate::groups::Groups;
use crate::places::SharedPlace;

/// The leaves of a directory, in order, and the statistics of consecutive ones.
#[derive(Clone, Copy)]
pub struct LeafList<'a> {
    /// The leaves.
    pub places: &'a [SharedPlace],
    /// Their groups.
    pub groups: &'a Groups,
}
