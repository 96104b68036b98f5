//! The entries of versions, by key and by tag: how a key's row, the next key and the slots with a tag are found.
//!
//! Each linked version has an entry by its key, and one by its tag too where it is a row. `Entries` is the trait of whatever keeps
//! them, seen as a list in order without twins; its calls may fault, since pages of a file can keep them too. `MemEntries` keeps them
//! in memory.
//!
//! - `entry`: `Entry` and its order. `field`: `Field`, the key or the tag that an entry stands under.
//! - `entries`: the trait. `error`: why a call gives up. `memory`: `MemEntries`.
//! - `walks`: the next slot of a key or of a tag, and the next key, each found by one call.
//! - `laws`: what entries of versions become as a version is linked or unlinked, and which slots a walk meets.
//!
//! specs/: `Order` (the order of entries), `Listed` (lists of them, and what calls do to these), `Walks` (what is found in them),
//! `Versions` (when they are the entries of versions), `Errors`.
#![tactic(auto)]

mod entries;
mod entry;
mod error;
mod field;
pub mod laws;
mod memory;
pub mod walks;

pub use entries::Entries;
pub use entry::Entry;
pub use error::EntriesError;
pub use field::Field;
pub use memory::MemEntries;
