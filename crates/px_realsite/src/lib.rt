//! The site of the programs: the files of one folder, and standard output.
//!
//! This is the trusted edge. No contract can say what a file of the system holds, so `RealSite` tells no content. What is
//! proved of it is what the trait says of every site: the bounds of its answers, and that each error was counted once and
//! under its kind. Besides, by what the one module that asks the system notes of its answers:
//!
//! - that the folder is locked where a name in it is asked for, so that one process at a time has it;
//! - that a write that is done was taken by the system end to end, from its place on, in the file of its name, and that a read
//!   was given so, and ended where there was no more room or where the system said that the file ends;
//! - that a sync that is done asked for one of just this file, and of the folder and the one above where names came or went
//!   since, and that none of them ever failed;
//! - that its folder's path is the one that was asked for and stays so, that no more files are open than may be, and that none
//!   of them has the number of a standard stream.
//!
//! That the system then did what it said, and that the folder is what the disk model says, can't be proved. It is argued in the
//! comments, and tested by px_realsite_tests and by the scripts under outside/.
//!
//! - `real_site`: `RealSite`, the adapter
//! - `refusals`: what the system refused, counted by its kind, and its last words
//! - `folder`: the folder as a site has it: its files, its names, their syncs
//! - `open_files`: the files that are open, a bounded number of them
//! - `open_file`: one open file, read and written at places
//! - `path`: where a file stands (docs/FORMATS.md, 'File names')
//! - `walk`: the names of the folder in order, read once for a whole listing
//! - `system`: the system's calls, each counted in `Traffic`; nothing else in the crate makes one
//!
//! specs/: `Traffic` (the counts of what was asked, and how they go on), `Piece` (what went over end to end), `RealSite` (what
//! clauses see of a site), `Folder`, `OpenFiles`, `Path`, `Streams`.
#![tactic(auto)]

mod folder;
mod open_file;
mod open_files;
mod path;
mod real_site;
mod refusals;
mod system;
mod walk;

pub use real_site::RealSite;
pub use system::{Piece, Syncs, Traffic};
