//! What a frame of the transaction log says: a change, which is the new bytes of a few cells, or how a transaction ended.
//!
//! - `change`: `Change` and its kinds.
//! - `codes`: the bytes that stand for kinds.
//! - `grammar`: which changes a store may have, as a test that runs.
//! - `read`: `decode`, a change of its bytes.
//! - `payload`: `Payload`, the bytes that a frame carries, and those of an end, which take no memory. A `Change` is one, and so is
//!   `version`'s `Version`: a Put whose cells aren't copied before they stand in the frame.
//! - `write`: the bytes of a change.
//! - `stand`: `may_stand`, whether a frame of a store may hold a change of the grammar.
//! - `laws`: written is read, one reading, sizes, and small examples.
//!
//! `specs/Text` has the one text of a change, `specs/Grammar` the grammar and `may_hold`, and `specs/Reading` says which
//! change bytes hold; `specs/Version` has the change of a `Version`. What the bytes of a cell say isn't looked at here, only how many they are. The format is in
//! docs/FORMATS.md, 'Change'.
#![tactic(auto)]

mod change;
mod codes;
mod grammar;
mod laws;
mod limits;
mod payload;
mod read;
mod stand;
mod version;
mod write;

pub use change::{Change, ChangeKind};
pub use grammar::is_in_grammar;
pub use laws::{
    fits_a_frame, one_reading, read_is_written, size_of_a_put, text_of_a_commit,
    what_a_frame_may_hold, what_a_store_may_have, written_is_read,
};
pub use limits::{END_SIZE, LONGEST_TEXT, MOST_CELLS};
pub use payload::Payload;
pub use read::decode;
pub use stand::may_stand;
pub use version::Version;
pub use write::text_size;
