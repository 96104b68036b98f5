/// A segment with as many bytes or more is full: the log goes on in the next one.
pub const SEGMENT_SIZE: usize = 1 << 20;
