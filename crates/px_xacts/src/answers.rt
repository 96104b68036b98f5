/// What a begin is answered.
#[derive(Clone, Copy, Debug, PartialEq, Eq)]
pub enum Begun {
    /// The new transaction's number: which begin since the opening it is, from 1.
    Number(u64),
    /// The session has an open transaction.
    OpenAlready,
    /// 2^32 - 1 transactions have begun since the opening, or the stored number would be 2^62.
    LimitBegins,
}

/// The next write to sweep.
#[derive(Clone, Copy, Debug, PartialEq, Eq)]
pub struct Due {
    /// Which begin since the opening its transaction was, from 1.
    pub number: u64,
    pub committed: bool,
    pub table: u8,
    /// Its row pointer and its slot.
    pub row: u32,
    pub slot: u32,
}
