//! The tables that the changes of a log leave. Until there are table files, an opening lays the cells of all changes over tables
//! of which nothing was ever used, reads the cells of each table, surveys them, and makes tables in memory of them.
//!
//! - `laying`: `lay_all`, the cells of changes laid over each other.
//! - `opening`: `open_tables`, the tables of a store, or the first damage in them.
//! - `error`: `OpenedError`, why tables aren't opened.
//! - `laws`: places open to one store, or have one damage; and the changes of a history open to the history's store.
//!
//! `specs/Opened` says which tables places open to, `specs/Damage` what the first damage is, and `specs/Kept` that places hold a
//! store.
#![tactic(auto)]

mod error;
mod laws;
mod laying;
mod opening;

pub use error::OpenedError;
pub use laws::{
    a_damage_is_one, a_history_opens_to_its_store, a_step_keeps_what_is_held, what_is_held_opens,
    what_opens_has_no_damage, what_opens_is_one,
};
pub use laying::lay_all;
pub use opening::open_tables;
