//! The cells of a table in memory, decoded and sound, with the keys of its rows.
//!
//! A change has two halves. What prepares it computes the cells and takes all the memory that it needs; what lays it over the
//! table then takes none and can't fail. Between the two the caller writes the cells to the log. Where that fails, the table
//! is as it was.
//!
//! - `table`: `Table`. `table/opening` makes one of cells that were read and found sound. `table/reading` finds a key's row and
//!   its versions; `table/counting` tells how many versions there are; `table/linking` prepares and lays a new version, `table/unlinking` that versions go.
//! - `linking`, `unlinking`: `Place`, where a key's next version goes; `Linking` and `Unlinking`, what is prepared. `versions`: `Versions`, the walk along a chain.
//! - `laws`: a version that fits a slot is stored. `keys`: the rows that keys name. `places`: lists in which a cell stands at its number.
//!
//! `specs/Held` says what a table holds, `specs/Linking` and `specs/Unlinking` what is prepared; what cells are and when they are sound is said in
//! `px_chain`.
#![tactic(auto)]

mod keys;
mod laws;
mod linking;
mod places;
mod table;
mod unlinking;
mod versions;

pub use laws::a_version_that_fits_is_stored;
pub use linking::{Linking, Place};
pub use table::Table;
pub use unlinking::Unlinking;
pub use versions::Versions;
