use px_chain::Unlinked;

/// Versions of a row that are prepared to go, and what changes then.
#[derive(Debug, Drop)]
pub struct Unlinking {
    pub row: u32,
    /// The slot of the newest of them, and how many they are.
    pub first: u32,
    pub count: u32,
    pub unlinked: Unlinked,
}
