ghost use Rattle.std.specs.Prelude.{◌≡◌, IfOk};

use px_model::Bytes;
use std::alloc::AllocError;

/// What a slot holds.
#[derive(Clone, Copy, Debug, PartialEq, Eq)]
pub enum SlotState {
    /// Nothing: it is on the free list.
    Free,
    /// A row.
    Row,
    /// The deletion of a row.
    Deletion,
}

/// A slot: one version of a row, or a place on the free list.
///
/// `specs/Form` says which values a store may have. A slot that was freed keeps its key and its tag, one that was never used
/// has an empty key and only zeros.
#[derive(Debug, Drop)]
pub struct Slot {
    pub state: SlotState,
    /// The stored number of the transaction that wrote it.
    pub xn: u64,
    /// The slot of the next older version; of a free one the next free slot. 0 for none.
    pub next: u32,
    /// The number of its row pointer.
    pub row: u32,
    pub tag: u32,
    /// How many bytes its row's body has.
    pub total: u32,
    /// The data log that has the body's bytes past the short length, 0 where there are none, and the place of that part in it.
    pub log: u32,
    pub place: u32,
    pub key: Bytes,
    /// The first bytes of the body, up to the store's short length.
    pub short: Bytes,
}

impl Slot {
    /// An equal one; fails only for want of memory.
    pub fn copy(&self) -> Result<Slot, AllocError>
        ensures { IfOk result (λ copy. copy ≡ self.now) }
    {
        Ok(Slot {
            state: self.state,
            xn: self.xn,
            next: self.next,
            row: self.row,
            tag: self.tag,
            total: self.total,
            log: self.log,
            place: self.place,
            key: self.key.copy()?,
            short: self.short.copy()?,
        })
    }
}
