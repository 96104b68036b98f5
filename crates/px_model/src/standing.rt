/// What became of a transaction, as an opened store knows it by its stored number.
#[derive(Clone, Copy, Debug, PartialEq, Eq)]
pub enum Standing {
    /// It was done before the store was opened.
    Before,
    /// It is open.
    Open,
    /// It was rolled back.
    RolledBack,
    /// It committed, as the one at this place of the ended transactions, from 0.
    Committed(u64),
}
