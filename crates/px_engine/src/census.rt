/// What a store counts of itself: its commits, its open transactions, the writes that no sweep has taken, the versions in
/// its chains, and the bytes of parts in data logs, those that live and those that are held.
#[derive(Clone, Copy, Debug, PartialEq, Eq)]
pub struct Census {
    pub commits: u64,
    pub opens: u64,
    pub unswept: u64,
    pub variations: u64,
    pub live: u64,
    pub held: u64,
}

/// How far a log is: the number of the next frame, and of the first one that isn't synced, that isn't applied to the table
/// files, and that an opening lays over them.
#[derive(Clone, Copy, Debug, PartialEq, Eq)]
pub struct Marks {
    pub frames: u64,
    pub durable: u64,
    pub applied: u64,
    pub redo: u64,
}
