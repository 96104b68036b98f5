//! The program as a function of its words, its input and its site: what it tells, what it leaves, and the status that it
//! ends with.
//!
//! - `run`: `pbxt_run`, the public call. Its clauses are the program's promises.
//! - `command`: what the words ask for.
//! - `make_store`, `run_script`, `dump_rows`: what each word does, but for the line that a call ends with.
//! - `ended`: what came of a word.
//! - `telling`: pieces of text that are told, and that closing line.
//! - `laws`: what the definitions say of a small run.
//!
//! The definitions: `specs/Command` which words are which command, `specs/Causes` when each status may come, `specs/Told`
//! what is told, `specs/Making`, `specs/Running` and `specs/Dumping` what each word tells and leaves, `specs/Premises` when a
//! call is bound to succeed. What is acknowledged, and that a crash at any moment leaves it, is px_play's `specs/Acknowledged`.
#![tactic(auto)]

mod command;
mod dump_rows;
mod ended;
mod laws;
mod make_store;
mod run;
mod run_script;
mod telling;

pub use command::Command;
pub use run::pbxt_run;
