//! The store's outside: files and one output, which may refuse at any call and crash at any moment.
//!
//! `Site` is the trait that the whole store is written against. Its contract has the disk model: each file's content as
//! it reads, what was synced of it, the changes since, and from these the images that a crash may leave at each moment;
//! beside them what was told. `FileName` names the files and knows their texts, `SiteError` and `Fault` say why a call
//! failed, and `Tally` keeps the counts by which each error has its cause.
//!
//! specs/: `Names` (file names), `Disk` (one file), `State` (all files and the output, and what calls do to them),
//! `Cause` (counts and causes), `Tally`. proofs/: what crates above cite, `Moments` (what held at each moment, over
//! calls in a row), `Files` (calls on one file), `Images` (what changes leave), `Causes` (counts over calls in a row).
#![tactic(auto)]

mod error;
pub mod laws;
mod name;
mod site;
mod tally;

pub use error::{Fault, SiteError};
pub use name::FileName;
pub use site::{LONGEST_FILE, Site};
pub use tally::Tally;
