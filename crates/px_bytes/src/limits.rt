// The limits of the records that files are made of.

/// The numbers of frames and the serials of restart files are below this one.
pub const NUMBER_LIMIT: u64 = 1 << 48;

/// The shortest payload of a frame, in bytes: what its change is and whose, without a cell.
pub const SHORTEST_PAYLOAD: usize = 18;

/// The longest payload of a frame, in bytes.
pub const LONGEST_PAYLOAD: usize = 8192;
