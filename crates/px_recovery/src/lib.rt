//! The beginning of a store whose rows lie in cells: it is made in an empty site, and opened again.
//!
//! - `making`: `make`, which makes a store without rows where there is none.
//! - `opening`: `open_store`, which opens the store that a site stands for.
//! - `counting`: how many rows a store has that was just opened.
//! - `restarts`: which restart counts, as the two restart files read.
//! - `laws`: files stand for one store at most; what may be opened, and what of that was found; and which files are not refused.
//! - `error`: `MakeError` and `OpenError`, why a store isn't made or opened, and the status by which each ends a run.
//!
//! The definitions: `specs/Making` which sites are free, and what `make` leaves of them, at each of its moments too; `specs/Opening`
//! what an opening gives, that what is found is one, and that nothing is told meanwhile; `specs/Touching` which files it touches, in how
//! many calls, and that it may be tried again; `specs/Cells` and `specs/Counting` when cells are those of what was found, and keys those of
//! rows; `specs/Errors` causes, what a refusal says of the files, and what it leaves.
#![tactic(auto)]

mod counting;
mod error;
mod laws;
mod making;
mod opening;
mod restarts;

pub use error::{MakeError, OpenError};
pub use laws::{
    files_stand_for_one_store, what_has_no_room_is_not_refused, what_is_found_is_not_refused,
    what_opens_is_not_refused,
};
pub use making::make;
pub use opening::{NotOpened, OpenReport, Opened, open_store};
