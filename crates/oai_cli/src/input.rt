//! What the commands read: the lines of an input, and the parts of a line.

pub(crate) mod lines;
pub(crate) mod spaces;
