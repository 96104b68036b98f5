//! The tables of a store as its core sees them. Today they are in memory whole. Each call takes the site all the same, and may
//! answer a fault of a read or that a cell is damaged: once the tables' cells are read from their files, the calls say the same.
//!
//! - `held`: `Held`, the tables. `held/reading` finds a key's row and the keys in their order, and says which version of a row a
//!   reader sees, and which one was committed last; `held/linking` takes the place for a new version, has what its frame
//!   carries, and lays it, `held/unlinking` that versions go; `held/tidying` finds the versions that nobody will see, `held/sweeping` those that go with a write that is due; `held/counting` tells how many versions there are. A change has two halves: what prepares it changes no cell, and what lays it takes no memory and can't fail.
//! - `prepared`: `Prepared` and `PreparedUnlink`, what is prepared. `run`: `Run`, versions one behind the other. `reader`: `Reader`, who
//!   reads. `walking`: walks along the chain of a row.
//! - `error`: `HeldError`, why a call gives up.
//! - `laws`: what serves a store asks of the site only the tables' files, and of the store only its tables; the newest committed
//!   version is the machine's, and what goes with a write that is due is what the machine sweeps.
//!
//! `specs/Serving` says when tables serve a store, `specs/Reading` which version was committed last, `specs/Linking` and
//! `specs/Unlinking` what is prepared and which step of the store it is, `specs/Sweeping` what goes with a write that is due, `specs/Numbers` which stored numbers are in the chains,
//! `specs/Errors` the causes of errors.
#![tactic(auto)]

mod error;
mod held;
mod laws;
mod prepared;
mod reader;
mod run;
mod walking;

pub use error::HeldError;
pub use held::Held;
pub use laws::{
    a_due_write_is_swept, an_end_changes_no_table, no_file_is_asked, only_tables_are_asked,
    serves_elsewhere, tables_that_open_are_numbered, tables_that_open_serve,
    the_newest_commit_stands_in_the_cells, what_is_served_is_one, what_is_served_is_sound,
};
pub use prepared::{Prepared, PreparedUnlink};
pub use reader::Reader;
pub use run::Run;
