use crate::scripts::{Part, look_into, played};
use crate::stores::{found, opened};
use px_memsite::{Keep, MemSite, Pick};
use px_recovery::{MakeError, OpenError, make};
use std::alloc::Global;
use std::process::Abort;
use std::test::Fail;

/// A Put's frame has 198 bytes, a Commit's 34, and a restart file 80.
const KEEPS: [Keep; 5] = [
    Keep::Synced,
    Keep::Written,
    Keep::Torn(1),
    Keep::Torn(60),
    Keep::Torn(198),
];

/// What a crash leaves, at a moment that there is.
fn crashed(site: MemSite, moment: u64, keep: Keep) -> Result<MemSite, Fail> {
    if moment > site.moments() {
        return Err(Fail::new("no such moment"));
    }
    Ok(site.crash(Pick { moment, keep })?)
}

/// Each moment from the first to the last, with each Keep.
fn crashes(alloc: Global, first: u64, last: u64) -> Result<Vec<(u64, Keep)>, Fail> {
    let mut crashes = Vec::new(alloc);
    for moment in first..=last {
        for keep in KEEPS {
            crashes.push((moment, keep))?;
        }
    }
    Ok(crashes)
}

/// Whether there is a store after a making was stopped, under each Keep: the moments are the start, those within the write
/// of its file and after it, and those within the sync and after it.
const MAKINGS: [[bool; 5]; 5] = [
    [false, false, false, false, false],
    [false, true, false, false, true],
    [false, true, false, false, true],
    [false, true, false, false, true],
    [true, true, true, true, true],
];

#[test]
fn a_making_that_is_stopped_leaves_no_store_or_all_of_it(rt: HostRuntime) -> Result<(), Fail> {
    for (moment, are_made) in MAKINGS.iter().enumerate() {
        for (keep, is_made) in KEEPS.iter().zip(are_made) {
            stop_making(&rt, rt.alloc(), moment as u64, *keep, *is_made)?;
        }
    }
    Ok(())
}

/// A stopped making leaves a store or none, and where there is none another making isn't in its way.
fn stop_making(
    rt: &impl Abort,
    alloc: Global,
    moment: u64,
    keep: Keep,
    is_made: bool,
) -> Result<(), Fail> {
    let mut site = MemSite::new(alloc)?;
    make(&mut site, 1, 16)?;
    let mut left = crashed(site, moment, keep)?;
    let (first, again) = if is_made {
        (found(0, 0, 0), Err(MakeError::NotEmpty))
    } else {
        (Err(OpenError::NoStore), Ok(()))
    };
    assert_eq!(rt; opened(alloc, &mut left), first, "{keep:?} at {moment}");
    assert_eq!(rt; make(&mut left, 1, 16), again, "{keep:?} at {moment}");
    assert_eq!(rt; opened(alloc, &mut left), found(0, 0, 0));
    Ok(())
}

/// Transactions that commit one after the other, and calls behind them.
type Script = (&'static [Part], &'static str);

const SCRIPTS: [Script; 3] = [
    (
        &[
            Part {
                lines: "a begin\na insert 1 01 5 aa\na commit",
                rows: "found 1 | at 01 5 aa",
            },
            Part {
                lines: "a begin\na update 1 01 6 bb\nb begin\nb insert 1 02 0 -\na commit",
                rows: "found 1 | at 01 6 bb",
            },
        ],
        "b rollback",
    ),
    (
        &[
            Part {
                lines: "a begin\na insert 1 01 5 aa\na insert 1 02 6 -\na commit",
                rows: "found 2 | at 01 5 aa | at 02 6 -",
            },
            Part {
                lines: "b begin\nb delete 1 01\nb commit",
                rows: "found 1 | at 02 6 -",
            },
        ],
        "",
    ),
    (&[], "a begin\na insert 1 01 5 aa\na update 1 01 6 bb"),
];

/// What a crash of this script leaves.
fn left_by(alloc: Global, script: Script, crash: (u64, Keep)) -> Result<MemSite, Fail> {
    let (parts, rest) = script;
    let (moment, keep) = crash;
    crashed(played(alloc, parts, rest)?, moment, keep)
}

/// The last moment of a new store, and of each of these parts that was run in it.
fn ends_of(alloc: Global, parts: &[Part]) -> Result<Vec<u64>, Fail> {
    let mut ends = Vec::new(alloc);
    for count in 0..=parts.len() {
        ends.push(played(alloc, &parts[..count], "")?.moments())?;
    }
    Ok(ends)
}

/// How many of them were told by this moment, which the first isn't.
fn told_by(ends: &[u64], moment: u64) -> u64 {
    let mut told = 0u64;
    for end in ends {
        if *end <= moment {
            told = told.saturating_add(1);
        }
    }
    told.saturating_sub(1)
}

/// The rows after so many commits.
fn rows_after(parts: &[Part], commits: u64) -> &'static str {
    match parts.iter().take(commits as usize).last() {
        Some(part) => part.rows,
        None => "found 0",
    }
}

/// Each commit that was told is there, at most one more, and the rows are those after the last one.
fn keeps_what_was_told(
    rt: &impl Abort,
    alloc: Global,
    script: Script,
    ends: &[u64],
    crash: (u64, Keep),
) -> Result<(), Fail> {
    let (moment, keep) = crash;
    let told = told_by(ends, moment);
    let left = look_into(alloc, left_by(alloc, script, crash)?)?;
    let commits = left.report.commits;
    assert!(rt;
        commits == told || commits == told.saturating_add(1),
        "{keep:?} at {moment}"
    );
    assert_eq!(rt;
        left.rows.as_str(),
        rows_after(script.0, commits),
        "{keep:?} at {moment}"
    );
    Ok(())
}

#[test]
fn a_crash_keeps_what_was_told(rt: HostRuntime) -> Result<(), Fail> {
    for script in SCRIPTS {
        let ends = ends_of(rt.alloc(), script.0)?;
        for crash in crashes_of(rt.alloc(), script)? {
            keeps_what_was_told(&rt, rt.alloc(), script, &ends, crash)?;
        }
    }
    Ok(())
}

/// The crashes of a script, from the moment on at which its store is there.
fn crashes_of(alloc: Global, script: Script) -> Result<Vec<(u64, Keep)>, Fail> {
    let (parts, rest) = script;
    let first = played(alloc, &[], "")?.moments();
    let last = played(alloc, parts, rest)?.moments();
    crashes(alloc, first, last)
}

/// An opening after this crash that is stopped, too, leaves what it found.
fn stop_opening(
    rt: &impl Abort,
    alloc: Global,
    script: Script,
    crash: (u64, Keep),
) -> Result<(), Fail> {
    let first = look_into(alloc, left_by(alloc, script, crash)?)?;
    let wanted = (first.report.commits, first.report.rows);
    for (stop, keep) in crashes(alloc, 0, first.site.moments())? {
        let stopped = look_into(alloc, left_by(alloc, script, crash)?)?;
        let again = look_into(alloc, crashed(stopped.site, stop, keep)?)?;
        assert_eq!(rt;
            (again.report.commits, again.report.rows),
            wanted,
            "{keep:?} at {stop}"
        );
        assert_eq!(rt;
            again.rows.as_str(),
            first.rows.as_str(),
            "{keep:?} at {stop}"
        );
    }
    Ok(())
}

#[test]
fn an_opening_that_is_stopped_leaves_what_it_found(rt: HostRuntime) -> Result<(), Fail> {
    for (parts, rest) in SCRIPTS {
        let end = played(rt.alloc(), parts, rest)?.moments();
        stop_opening(&rt, rt.alloc(), (parts, rest), (end, Keep::Written))?;
        let earlier = end.saturating_sub(2);
        stop_opening(&rt, rt.alloc(), (parts, rest), (earlier, Keep::Torn(60)))?;
    }
    Ok(())
}
