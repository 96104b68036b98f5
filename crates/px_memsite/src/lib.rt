//! A site in memory, for tests and for proofs that read as examples: its calls fail where they are told to,
//! and it can crash at any moment of its past.
//!
//! `site` has the site and its calls, and `failure` those that are to fail. A `disk` keeps the `files`, each a `file`
//! with its `change`s since its last sync, and the `history` of `event`s that led there. A `crash` plays the
//! history again up to its moment, and takes from each file the `image` that it is to leave. `bytes` lays bytes
//! over others.
#![tactic(auto)]

mod bytes;
mod change;
mod crash;
mod disk;
mod event;
mod failure;
mod file;
mod files;
mod history;
mod image;
mod site;

pub use crash::{Keep, Pick};
pub use failure::Failure;
pub use site::MemSite;
