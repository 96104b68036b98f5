//! How many slots and row pointers of a table are in use, and that the slots in its chains are its versions.
//!
//! Each place that was ever used is free or in use, and each stands once: so what is in use is counted by what a header counts
//! and by what its free lists hold. Nothing here runs.
//!
//! - `laws`: the places of sound cells are counted, row pointers run out only where slots have, and a table's versions are the slots
//!   in its chains, as those of all tables are.
//!
//! `specs/Counts` says what is counted.
#![tactic(auto)]

mod laws;

pub use laws::{
    all_variations_are_the_slots_in_chains, places_are_counted, row_pointers_last_as_long_as_slots,
    variations_are_the_slots_in_chains,
};
