use crate::scripts::{
    AROUND_A_SWEEP, BESIDE_A_SNAPSHOT, NOT_ACKNOWLEDGED, READ_AGAIN, Script, THREE_COMMITS,
    sync_of_the_commit,
};
use crate::stores::{call, crash_at, failing_store, told_by};
use px_memsite::{Keep, MemSite, Pick};
use std::alloc::Global;
use std::process::Abort;
use std::test::Fail;

const KEEPS: [Keep; 5] = [
    Keep::Synced,
    Keep::Written,
    Keep::Torn(1),
    Keep::Torn(7),
    Keep::Torn(20),
];

/// A crash at each of these moments, under each Keep.
fn picks(alloc: Global, first: u64, last: u64) -> Result<Vec<Pick>, Fail> {
    let mut picks = Vec::new(alloc);
    for moment in first..=last {
        for keep in KEEPS {
            picks.push(Pick { moment, keep })?;
        }
    }
    Ok(picks)
}

/// A new store on which a script is played, while the calls with these numbers fail.
#[derive(Drop)]
struct Play<'a> {
    alloc: Global,
    script: Script,
    failing: &'a [u64],
}

impl Play<'_> {
    /// The store before the run.
    fn made(&self) -> Result<MemSite, Fail> {
        failing_store(self.alloc, self.failing)
    }

    /// The store after a run of these lines.
    fn played(&self, lines: &str) -> Result<MemSite, Fail> {
        let mut site = self.made()?;
        call(self.alloc, "run", lines, &mut site)?;
        Ok(site)
    }

    /// A crash at each moment of the run, under each Keep.
    fn crashes(&self) -> Result<Vec<Pick>, Fail> {
        let first = self.made()?.moments();
        let last = self.played(self.script.lines)?.moments();
        picks(self.alloc, first, last)
    }

    /// The moments by which each commit was told: so many as there are after the lines up to it alone.
    fn moments_of_commits(&self) -> Result<Vec<u64>, Fail> {
        let mut moments = Vec::new(self.alloc);
        for lines in self.script.commits {
            let front = first_lines(self.alloc, self.script.lines, *lines)?;
            moments.push(self.played(&front)?.moments())?;
        }
        Ok(moments)
    }

    /// What that crash leaves.
    fn left(&self, crash: Pick) -> Result<MemSite, Fail> {
        crash_at(self.played(self.script.lines)?, crash)
    }

    /// What is left is opened.
    fn opened(&self, crash: Pick) -> Result<MemSite, Fail> {
        let mut site = self.left(crash)?;
        call(self.alloc, "run", "", &mut site)?;
        Ok(site)
    }

    /// The number of commits that an opening finds, after which the rows are those of so many.
    fn commits_in(&self, rt: &impl Abort, site: &mut MemSite) -> Result<usize, Fail> {
        let told = told_by(self.alloc, "run", "", site)?;
        let rest = told
            .as_str()
            .strip_prefix("opened commits ")
            .ok_or("not opened")?;
        let (commits, _rest) = rest.split_once(' ').ok_or("no number")?;
        let commits = commits.parse::<usize>()?;
        let want = self
            .script
            .dumps
            .get(commits)
            .ok_or("more commits than were made")?;
        assert_eq!(rt; told_by(self.alloc, "dump", "", site)?.as_str(), *want);
        Ok(commits)
    }
}

/// The first lines of a script.
fn first_lines(alloc: Global, script: &str, count: usize) -> Result<String, Fail> {
    let mut lines = String::new(alloc);
    for line in script.lines().take(count) {
        lines.push_str(line)?;
        lines.push('\n')?;
    }
    Ok(lines)
}

/// Each crash of the run leaves the acknowledged commits, or one more; and however the opening of what is left is stopped,
/// it leaves the same.
fn crash_everywhere(rt: &impl Abort, play: &Play) -> Result<(), Fail> {
    let told = play.moments_of_commits()?;
    for crash in play.crashes()? {
        let acknowledged = told.iter().filter(|by| **by <= crash.moment).count();
        let found = play.commits_in(rt, &mut play.left(crash)?)?;
        assert!(rt;
            found == acknowledged || found == acknowledged + 1,
            "{found} commits after {crash:?}"
        );
        stop_the_opening_everywhere(rt, play, crash, found)?;
    }
    Ok(())
}

/// After that crash, and after a second one at any moment of the opening, so many commits are found.
fn stop_the_opening_everywhere(
    rt: &impl Abort,
    play: &Play,
    crash: Pick,
    want: usize,
) -> Result<(), Fail> {
    let last = play.opened(crash)?.moments();
    for second in picks(play.alloc, 0, last)? {
        let mut site = crash_at(play.opened(crash)?, second)?;
        assert_eq!(rt;
            play.commits_in(rt, &mut site)?,
            want,
            "{second:?} after {crash:?}"
        );
    }
    Ok(())
}

/// Plays the script where no call fails, and crashes it everywhere.
fn crash_without_faults(rt: &impl Abort, alloc: Global, script: Script) -> Result<(), Fail> {
    let play = Play {
        alloc,
        script,
        failing: &[],
    };
    crash_everywhere(rt, &play)
}

#[test]
fn a_commit_that_was_read_outlives_crashes(rt: HostRuntime) -> Result<(), Fail> {
    crash_without_faults(&rt, rt.alloc(), READ_AGAIN)
}

#[test]
fn a_commit_beside_a_snapshot_outlives_crashes(rt: HostRuntime) -> Result<(), Fail> {
    crash_without_faults(&rt, rt.alloc(), BESIDE_A_SNAPSHOT)
}

#[test]
fn three_commits_outlive_crashes_in_order(rt: HostRuntime) -> Result<(), Fail> {
    crash_without_faults(&rt, rt.alloc(), THREE_COMMITS)
}

#[test]
fn commits_around_a_sweep_outlive_crashes(rt: HostRuntime) -> Result<(), Fail> {
    crash_without_faults(&rt, rt.alloc(), AROUND_A_SWEEP)
}

#[test]
fn a_commit_whose_sync_fails_is_there_or_not(rt: HostRuntime) -> Result<(), Fail> {
    let alloc = rt.alloc();
    let failing = [sync_of_the_commit(alloc)?];
    let play = Play {
        alloc,
        script: NOT_ACKNOWLEDGED,
        failing: &failing,
    };
    crash_everywhere(&rt, &play)
}
