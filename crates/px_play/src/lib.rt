//! The loop of the program's `run`: a line of the script is read, the core answers it, the answer is told, and only then the
//! next line is looked for.
//!
//! - `playing`: the loop, and what a whole script tells and leaves, at each moment too.
//! - `reading`: the next line of the input, or the status by which the run ends there.
//! - `turns`: one line: what it asks for, the core's answer, and that the answer is told.
//! - `serving`: a call or a step of the sweeper, made by the core.
//! - `commands`: what a line asks for.
//! - `telling`: the status by which an error of `tell` ends a run.
//!
//! The definitions: `specs/Input` how the input was read where a run ends, `specs/Causes` when each status may come,
//! `specs/Told` and `specs/Playing` what is told and left, `specs/Acknowledged` what a crash at any moment leaves of what was
//! acknowledged, `specs/Engine` when a core is an engine; `specs/Reading`, `specs/Turns` and `specs/Serving` (for private
//! clauses) the same for one line and one step.
#![tactic(auto)]

mod commands;
mod playing;
mod reading;
mod serving;
mod telling;
mod turns;

pub use playing::play;
pub use telling::status_of_tell;
