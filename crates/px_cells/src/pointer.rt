/// A row pointer: the head of a row's chain of versions, or a place on the free list.
#[derive(Clone, Copy, Debug, PartialEq, Eq)]
pub struct Pointer {
    /// Whether a row has it.
    pub used: bool,
    /// The newest version's slot; of a free one the next free row pointer, 0 for none.
    pub head: u32,
}
