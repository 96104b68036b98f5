//! The loops that are timed beside the same loops in C (bench/run), and whose calls of the system are counted
//! (outside/calls). The first argument names the work, the second how many bytes it goes over; without arguments each
//! work is done once over a few bytes. What came of the work stands on standard output, and how long its loops took on
//! standard error.
//!
//! - `sums`: the sum over bytes.
//! - `frames`: frames written one after the other, and read again.
//! - `lines`: the lines of standard input, split and parsed.
//! - `files`: pieces written to a file of a folder, synced and read, and files made and listed.
//! - `log`: frames appended to a log in a folder.
//! - `chains`: versions of one key that are unlinked one by one.
//! - `timing`: how long a loop took.
#![tactic(auto)]

mod chains;
mod files;
mod frames;
mod lines;
mod log;
mod sums;
mod timing;

use std::env;

/// The bytes that a work goes over where no argument says how many.
const FEW: u32 = 4096;

/// How often a call of the system is made there.
const TIMES: u32 = 3;

fn main(rt: HostRuntime) -> anyhow::Result<()> {
    let mut words = env::args(&rt)?;
    let _program = words.next();
    let Some(work) = words.next() else {
        return all(&rt);
    };
    let size = match words.next() {
        Some(word) => word.parse::<u32>()?,
        None => FEW,
    };
    match work.as_str() {
        "fnv" => sums::run(&rt, size),
        "frames" => frames::run(&rt, size),
        "lines" => lines::run(&rt),
        "writes" => files::writes(&rt, size),
        "syncs" => files::syncs(&rt, size),
        "reads" => files::reads(&rt, size),
        "lists" => files::lists(&rt, size),
        "appends" => log::appends(&rt, size),
        "unlinks" => chains::unlinks(&rt, size),
        _ => {
            println!(&rt;
                "px_bench [fnv BYTES|frames BYTES|lines|writes TIMES|syncs TIMES|reads TIMES|lists FILES|appends TIMES|unlinks VERSIONS]"
            )?;
            Ok(())
        }
    }
}

fn all(rt: &HostRuntime) -> anyhow::Result<()> {
    sums::run(rt, FEW)?;
    frames::run(rt, FEW)?;
    lines::run(rt)?;
    files::writes(rt, TIMES)?;
    files::syncs(rt, TIMES)?;
    files::reads(rt, TIMES)?;
    files::lists(rt, TIMES)?;
    log::appends(rt, TIMES)?;
    chains::unlinks(rt, TIMES)
}
