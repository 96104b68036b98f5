//! How the life of a store begins again: what an opening finds on a site lasts for the machine that starts there, and goes on while
//! the opening tidies.
//!
//! No code. An opening reads a restart, the frames behind it and the tables that these open to over the files (`specs/Found`). Where the
//! files rest, the life that begins there lasts. Each version that nobody will see is then unlinked by a step of its own; what is left
//! is a store in which a fresh machine works.
//!
//! - `found`: what is found lasts, with all its frames durable; tables of whose files none has a byte.
//! - `tidying`: an unlink of what nobody sees follows, for the same machine; and once all of these were unlinked the machine works.
//!
//! `specs/Found` says what is found, `specs/Numbers` what the next number is, `specs/Tidied` the life with the tidying steps.
#![tactic(auto)]

mod found;
mod tidying;

pub use found::{what_was_read_lasts, without_cells_files_rest};
pub use tidying::{an_unlink_follows, what_was_tidied_works};
