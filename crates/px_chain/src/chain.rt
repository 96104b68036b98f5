use px_cells::Slot;

/// A slot with its number.
#[derive(Debug, Drop)]
pub struct Linked {
    pub number: u32,
    pub slot: Slot,
}
