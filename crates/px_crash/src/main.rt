//! What a crash leaves of a script: `./demo --crash` runs it.
//!
//! The script is standard input, or one of its own where that is empty. It is played on a store in memory, and stopped at
//! every moment of its run: within each call that changes something, and after each. For each moment every part
//! of the bytes that weren't synced by then is left, the first so many of them from none to all; what is left is opened,
//! and its rows are told. No outcome may have fewer commits than were acknowledged by then, more than one more, or rows
//! that aren't those after so many commits.
//!
//! - `calling`: the engine's public call.
//! - `change`, `watched`: a call that changes something; a site in memory that notes these calls.
//! - `trial`: a script that is played, and stopped at a moment.
//! - `moments`: what isn't synced by a moment, and what was acknowledged.
//! - `images`: what lies in the files of a site.
//! - `outcomes`: all that a crash at a moment may leave.
//! - `report`: the table and its last line.
#![tactic(auto)]

mod calling;
mod change;
mod images;
mod moments;
mod outcomes;
mod report;
mod trial;
mod watched;

use px_calls::{Status, closing_line};
use report::report;
use std::io;
use std::process::ExitCode;
use trial::Trial;

/// Two sessions write, and both commit: one by itself, one beside the other.
const SCRIPT: &str = "a begin
a insert 1 6b31 7 616263
a commit
a begin
b begin
a update 1 6b31 8 646566
b insert 1 6b32 9 -
b commit
a commit
";

fn main(rt: HostRuntime) -> anyhow::Result<ExitCode> {
    let given = io::read_to_string(rt.alloc(), rt.reader())?;
    let script = match given.as_str() {
        "" => SCRIPT,
        given => given,
    };
    let trial = Trial::new(rt.alloc(), script)?;
    match trial.status {
        Status::Done => report(&rt, &trial),
        status => refuse(&rt, script, &status),
    }
}

/// Says why a script can't be played, and which line it is.
fn refuse(rt: &HostRuntime, script: &str, status: &Status) -> anyhow::Result<ExitCode> {
    let line = closing_line(status);
    let text = str::from_utf8(line.as_slice())?;
    match status {
        Status::BadLine(number) => {
            let place = number.saturating_sub(1) as usize;
            let bad = script.lines().nth(place).unwrap_or("");
            println!(rt; "{}: {bad}", text.trim_end())?;
        }
        _ => print!(rt; "{text}")?,
    }
    Ok(ExitCode::FAILURE)
}
