// The sizes of cells, in bytes.

/// How long a header is.
pub const HEADER_SIZE: usize = 16;

/// How long a slot is before its short part.
pub const SLOT_HEAD_SIZE: usize = 100;

/// How long a row pointer is.
pub const POINTER_SIZE: usize = 8;
