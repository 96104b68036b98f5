// The parts of the machine that specs/Machine describes. A plain program keeps them as they are.

use crate::{RowList, Write, Writes};

/// A transaction that ended and had writes. Its place in the list of them is its number in the order of ends, from 0.
#[derive(Debug, Drop)]
pub struct Ended {
    /// Which begin since the opening it was, from 1.
    pub number: u64,
    /// Whether it committed; else it was rolled back.
    pub committed: bool,
    /// Its snapshot: how many transactions had ended when it began.
    pub snap: u64,
    pub writes: Writes,
}

/// An open transaction.
#[derive(Debug, Drop)]
pub struct Open {
    /// Which begin since the opening it was, from 1.
    pub number: u64,
    /// Its snapshot: how many transactions had ended when it began.
    pub snap: u64,
    /// Its own writes, the oldest first.
    pub writes: Writes,
    /// The rows that its tickets keep; ticket k keeps the k-th of them.
    pub kept: RowList,
}

/// A write of an ended transaction, and what is known of that transaction.
#[derive(Debug, Drop)]
pub struct Flat {
    /// The transaction's place in the list of ended ones.
    pub place: u64,
    pub number: u64,
    pub committed: bool,
    pub write: Write,
}

/// A version of a row, as a chain has it.
#[derive(Debug, Drop)]
pub struct Variation {
    /// The stored number of its transaction; none for a row that was there at the opening.
    pub xn: Option<u64>,
    pub write: Write,
}
