/// Where the cells of a table aren't sound.
#[derive(Clone, Copy, Debug, PartialEq, Eq)]
pub enum Flaw {
    /// A free list goes astray.
    Header,
    /// The row pointer of this number: a free one that isn't on the free list, or one whose chain isn't a row's own.
    Pointer(u32),
    /// The slot of this number is on no list.
    Slot(u32),
}
