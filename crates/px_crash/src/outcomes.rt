// What a crash at one moment leaves, where the disk keeps a first part of what wasn't synced.

use crate::calling::{Found, open};
use crate::images::image;
use crate::moments::Progress;
use crate::trial::Trial;
use px_memsite::{Keep, Pick};
use std::alloc::{AllocError, Global};
use std::collections::BTreeMap;

/// By how many bytes a first part is longer than the one before.
const STEP: u64 = 16;

/// The outcomes that were tried so far.
#[derive(Drop)]
pub(crate) struct Outcomes {
    alloc: Global,
    /// What was found, by the files that were opened: equal ones aren't opened twice.
    found: BTreeMap<Vec<u8>, Found>,
    pub tried: u64,
    /// How many of them weren't what they must be.
    pub lost: u64,
}

impl Outcomes {
    pub(crate) fn new(alloc: Global) -> Outcomes {
        Outcomes {
            alloc,
            found: BTreeMap::new(alloc),
            tried: 0,
            lost: 0,
        }
    }

    /// Tries each outcome of a moment, and says how many there are and which commits they have.
    pub(crate) fn try_all(
        &mut self,
        trial: &Trial,
        progress: &Progress,
        moment: u64,
    ) -> anyhow::Result<String> {
        let mut by_commits = Vec::new(self.alloc);
        by_commits.resize(trial.commits().saturating_add(1), 0u64)?;
        let loose = progress.loose();
        for step in 0..count_of(loose) {
            let kept = step.saturating_mul(STEP).min(loose);
            let keep = keep_of(kept, loose);
            let commits = self.try_one(trial, progress, Pick { moment, keep })?;
            if let Some(count) = by_commits.get_mut(commits as usize) {
                *count = (*count).saturating_add(1);
            }
        }
        let summary = summary(self.alloc, by_commits.as_slice())?;
        let count = count_of(loose);
        Ok(format!(in self.alloc; "{count:>8}  {summary}")?)
    }

    /// Opens what that crash leaves, and answers how many commits were found.
    fn try_one(&mut self, trial: &Trial, progress: &Progress, pick: Pick) -> anyhow::Result<u64> {
        let mut site = trial.left(pick)?;
        let files = image(self.alloc, &mut site)?;
        if self.found.get(&files).is_none() {
            let found = open(self.alloc, site)?;
            self.found.insert(files.clone()?, found)?;
        }
        self.tried = self.tried.saturating_add(1);
        match self.found.get(&files) {
            Some(found) => {
                if !trial.is_kept(found.commits, found.rows.as_str(), progress.acknowledged) {
                    self.lost = self.lost.saturating_add(1);
                }
                Ok(found.commits)
            }
            None => Ok(0),
        }
    }
}

/// How many outcomes a moment has with so many bytes that aren't synced: none of them is left, each first part that is a step longer, and
/// all.
pub(crate) fn count_of(loose: u64) -> u64 {
    loose.div_ceil(STEP).saturating_add(1)
}

/// The first so many bytes of those that aren't synced are kept: none, all, or some.
fn keep_of(kept: u64, loose: u64) -> Keep {
    if kept == 0 {
        Keep::Synced
    } else if kept == loose {
        Keep::Written
    } else {
        Keep::Torn(kept)
    }
}

/// Which numbers of commits were found, and each how often where there are several.
fn summary(alloc: Global, by_commits: &[u64]) -> Result<String, AllocError> {
    let several = by_commits.iter().filter(|count| **count > 0).count() > 1;
    let mut text = String::new(alloc);
    for (commits, count) in by_commits.iter().enumerate() {
        if *count == 0 {
            continue;
        }
        if !text.is_empty() {
            text.push_str(", ")?;
        }
        if several {
            text.push_str(&format!(in alloc; "{commits} in {count}")?)?;
        } else {
            text.push_str(&format!(in alloc; "{commits}")?)?;
        }
    }
    Ok(text)
}
