//! How much of an input is read.

/// The maximum number of reads of an input, a configuration or a stream; one that has not ended by then is a fault.
pub const MAX_READS: u64 = 1_000_000;

/// The maximum number of bytes of a read.
pub const READ_BYTES: usize = 65_536;
