/// What a table knows of its slots and row pointers.
#[derive(Clone, Copy, Debug, PartialEq, Eq)]
pub struct Header {
    /// How many slots were ever used: they have the numbers 1 to this one.
    pub slots: u32,
    /// The first slot of the free list, 0 where that is empty.
    pub free_slot: u32,
    /// How many row pointers were ever used: they have the numbers 1 to this one.
    pub rows: u32,
    /// The first row pointer of the free list, 0 where that is empty.
    pub free_row: u32,
}
