// The parts of what specs/Transactions describes.

use crate::write::{WriteAt, WriteAtList};

/// An open transaction.
#[derive(Debug, Drop)]
pub struct Transaction {
    /// Which begin since the opening it was, from 1.
    pub number: u64,
    /// Its snapshot: how many transactions had ended when it began.
    pub snap: u64,
    /// How many frames the log had when it began.
    pub frames: u64,
    /// Its writes, the oldest first.
    pub writes: WriteAtList,
}

/// How old a transaction is: which begin since the opening it was, from 1, and how many frames the log had then.
#[derive(Clone, Copy, Debug)]
pub struct Start {
    pub number: u64,
    pub frames: u64,
}

/// What became of a transaction that ended and had writes. Its place in the list of them is its number in the order of
/// ends, from 0.
#[derive(Clone, Copy, Debug)]
pub struct Outcome {
    /// Which begin since the opening it was, from 1.
    pub number: u64,
    /// Whether it committed; else it was rolled back.
    pub committed: bool,
}

/// A write of an ended transaction that isn't swept yet, and what is known of that transaction.
#[derive(Debug, Drop)]
pub struct Unswept {
    /// The transaction's place among the ended ones.
    pub place: u64,
    pub number: u64,
    pub committed: bool,
    /// How many frames the log had when the transaction began.
    pub frames: u64,
    pub write: WriteAt,
}
