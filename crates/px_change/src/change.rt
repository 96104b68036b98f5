use px_cells::CellList;

/// What was done to a store.
#[derive(Clone, Copy, Debug, PartialEq, Eq)]
pub enum ChangeKind {
    /// A transaction wrote a version of a row: the table's header, the version's slot, and the row pointer that heads its chain.
    Put,
    /// A transaction committed.
    Commit,
    /// A transaction was rolled back.
    Rollback,
    /// The sweeper unlinked what a transaction's write left over.
    Sweep,
    /// The compactor moved a version's part in a data log: the slot, with the new place.
    Move,
    /// An opening unlinked a version that it doesn't keep.
    Tidy,
}

/// What a frame of the log says: the new bytes of a few cells, or how a transaction ended.
///
/// `specs/Grammar` says which values a store may have.
#[derive(Debug, Drop)]
pub struct Change {
    pub kind: ChangeKind,
    /// The stored number of the transaction, from 1 to 2^62 - 1; for Move and Tidy that of the version moved or unlinked.
    pub xn: u64,
    /// The commit's number for Commit, from 1; else 0.
    pub commit: u64,
    /// At most four, of one table, in order of their kinds and numbers.
    pub cells: CellList,
}
