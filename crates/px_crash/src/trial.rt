// A script that is played and stopped.

use crate::calling::{call, told_by};
use crate::change::Change;
use crate::images::{Lying, at_rest, files};
use crate::moments::is_acknowledgement;
use crate::watched::WatchedSite;
use anyhow::anyhow;
use px_calls::Status;
use px_memsite::{MemSite, Pick};
use std::alloc::{AllocError, Global};

/// The store on which a script is played: all the tables that there may be, and short bodies, since each write's frame has a whole slot.
const MAKE: &str = "make 8 64";

/// A script, and its run on a new store that nothing stopped.
#[derive(Drop)]
pub(crate) struct Trial<'a> {
    alloc: Global,
    pub script: &'a str,
    /// The new store's files.
    store: Vec<Lying>,
    /// How the run ended.
    pub status: Status,
    /// Its calls that changed something. The j-th has moment 2j - 1 within it and 2j after it; moment 0 is before the run.
    pub changes: Vec<Change>,
    /// What `dump` tells after each number of commits.
    rows: Vec<String>,
}

impl<'a> Trial<'a> {
    pub(crate) fn new(alloc: Global, script: &'a str) -> anyhow::Result<Trial<'a>> {
        let store = made(alloc)?;
        let mut site = WatchedSite::new(alloc, at_rest(alloc, store.as_slice())?);
        let status = call(alloc, "run", script, &mut site)?;
        let changes = site.into_changes()?;
        let mut rows = Vec::new(alloc);
        rows.push(rows_after(alloc, store.as_slice(), "")?)?;
        for count in lines_of_commits(alloc, changes.as_slice())? {
            let lines = first_lines(alloc, script, count)?;
            rows.push(rows_after(alloc, store.as_slice(), lines.as_str())?)?;
        }
        Ok(Trial {
            alloc,
            script,
            store,
            status,
            changes,
            rows,
        })
    }

    /// How many commits were acknowledged in the end.
    pub(crate) fn commits(&self) -> usize {
        self.rows.len().saturating_sub(1)
    }

    /// What that crash leaves: the run's calls are made once more, up to the moment.
    pub(crate) fn left(&self, pick: Pick) -> anyhow::Result<MemSite> {
        let mut site = at_rest(self.alloc, self.store.as_slice())?;
        let begun = pick.moment.div_ceil(2) as usize;
        for change in self.changes.iter().take(begun) {
            change.make(&mut site)?;
        }
        if pick.moment > site.moments() {
            return Err(anyhow!("there is no such moment"));
        }
        Ok(site.crash(pick)?)
    }

    /// Whether an opening found what it must: no fewer commits than were acknowledged, at most one more, and their rows.
    pub(crate) fn is_kept(&self, commits: u64, rows: &str, acknowledged: u64) -> bool {
        let within = acknowledged <= commits && commits - acknowledged <= 1;
        match self.rows.get(commits as usize) {
            Some(wanted) => within && wanted.as_str() == rows,
            None => false,
        }
    }
}

/// The files of a new store.
fn made(alloc: Global) -> anyhow::Result<Vec<Lying>> {
    let mut site = WatchedSite::new(alloc, MemSite::new(alloc)?);
    match call(alloc, MAKE, "", &mut site)? {
        Status::Done => Ok(files(alloc, &mut site.into_site())?),
        _ => Err(anyhow!("no store was made")),
    }
}

/// The rows after a run of these lines on that store.
fn rows_after(alloc: Global, store: &[Lying], lines: &str) -> anyhow::Result<String> {
    let mut site = WatchedSite::new(alloc, at_rest(alloc, store)?);
    call(alloc, "run", lines, &mut site)?;
    told_by(alloc, "dump", &mut site)
}

/// How many lines there are up to each that a commit was acknowledged for. The first piece that is told is no reply.
fn lines_of_commits(alloc: Global, changes: &[Change]) -> Result<Vec<usize>, AllocError> {
    let mut lines = Vec::new(alloc);
    let told = changes.iter().filter_map(|change| change.told());
    for (line, reply) in told.enumerate() {
        if is_acknowledgement(reply) {
            lines.push(line)?;
        }
    }
    Ok(lines)
}

/// The first lines of a script.
fn first_lines(alloc: Global, script: &str, count: usize) -> Result<String, AllocError> {
    let mut lines = String::new(alloc);
    for line in script.lines().take(count) {
        lines.push_str(line)?;
        lines.push('\n')?;
    }
    Ok(lines)
}
