//! The files of a store, and what a crash may leave of them.
//!
//! No code: the definitions are `specs/Files`, the files by their names and the restart files among them; `specs/Images`, what a crash
//! may leave of a moment; and `specs/Resting`, what reads return, and restart files that are on the disk. What all of that stands for is
//! px_cell_standing's. `proofs/Moments` has the last moment of a call.
#![tactic(auto)]
