use px_bytes::NUMBER_LIMIT;
use px_model::{LONGEST_SHORT, MOST_TABLES, SHORTEST_SHORT, STORED_NUMBERS_END};

/// The bytes of a restart file.
pub const RESTART_SIZE: usize = 80;

/// What a restart file says behind its version.
#[derive(Clone, Copy, Debug, PartialEq, Eq)]
pub struct Restart {
    /// Greater by one than that of the file written before: 1 to 2^48 - 1.
    pub serial: u64,
    /// How many tables the store has: 1 to 8.
    pub tables: u32,
    /// How many bytes of a row's body stand in its slot at most: 16 to 1,024.
    pub short: u32,
    /// How many transactions had committed: at most `durable`.
    pub commits: u64,
    /// The number of the next transaction: `low` to 2^62.
    pub next: u64,
    /// Each transaction with a lower number has ended and left nothing to sweep: 1 to `next`.
    pub low: u64,
    /// The number of the first frame in the segment `segment`: at most `redo`.
    pub first: u64,
    /// The table files have the frames below this number, and recovery does the others again: at most
    /// `durable`.
    pub redo: u64,
    /// The frames below this number were synced, so a log that ends before it is damaged: at most 2^48.
    pub durable: u64,
    /// The segment in which recovery begins to read the log: 1 or more.
    pub segment: u32,
}

impl Restart {
    ghost use Rattle.std.specs.Prelude.{◌↔◌, IsTrue};
    ghost use Rattle.px_restart.specs.Restart.{HasShape, HasMarks, CanRestart};

    /// Whether each field is in its bounds, so that the restart can be written.
    pub fn is_in_bounds(self) -> bool
        ensures { IsTrue result ↔ CanRestart self }
    {
        self.has_shape() && self.has_marks()
    }

    fn has_shape(self) -> bool
        ensures { IsTrue result ↔ HasShape self }
    {
        1 <= self.serial
            && self.serial < NUMBER_LIMIT
            && 1 <= self.tables
            && self.tables <= MOST_TABLES
            && SHORTEST_SHORT <= self.short
            && self.short <= LONGEST_SHORT
            && 1 <= self.segment
    }

    fn has_marks(self) -> bool
        ensures { IsTrue result ↔ HasMarks self }
    {
        self.commits <= self.durable
            && 1 <= self.low
            && self.low <= self.next
            && self.next <= STORED_NUMBERS_END
            && self.first <= self.redo
            && self.redo <= self.durable
            && self.durable <= NUMBER_LIMIT
    }
}
