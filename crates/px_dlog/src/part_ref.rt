/// The reference by which a slot names its part.
#[derive(Clone, Copy, Debug, PartialEq, Eq)]
pub struct PartRef {
    /// The number of the data log, from 1 on.
    pub log: u32,
    /// Where the part begins in that log, in bytes.
    pub place: u32,
    /// How many bytes of its own the part has, at most `LONGEST_PART`.
    pub length: u32,
    /// The table and the slot that the part is of.
    pub table: u8,
    pub slot: u32,
}
