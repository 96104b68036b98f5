//! What holds of every machine, whoever runs it.
//!
//! - `laws`: the first committer wins, the sweeper only makes room, a transaction has so many writes and a table so many versions.
//! - `specs/Seen` the last write of a key, `specs/Writers` who writes in a session, `specs/Begun` that the open transactions were
//!   begun, `specs/Unwriting` a write that is taken back.
#![tactic(auto)]

mod laws;

pub use laws::{
    a_table_has_so_many_versions, a_transaction_has_so_many_writes, the_first_committer_wins,
    the_sweeper_only_makes_room,
};
