/// Versions that stand one behind the other in the chain of a row.
#[derive(Clone, Copy, Debug, PartialEq, Eq)]
pub struct Run {
    /// The slot in front of the newest of them, 0 where there is none.
    pub newer: u32,
    /// The slot of the newest of them.
    pub first: u32,
    /// How many they are, at least 1.
    pub count: u32,
}
