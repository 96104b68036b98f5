// What an opening counts of the changes that it read.
ghost use Rattle.std.specs.Prelude.{◌≡◌, ◌-◌, length};
ghost use Rattle.px_life.specs.Front.{commits_by};

use px_change::Change;
use px_restart::Restart;

/// How many transactions have committed: as many as the restart knows or, where that is more, the last Commit's number.
pub(crate) fn commits_of(restart: &Restart, changes: &[Change]) -> u64
    ensures { result ≡ commits_by restart.now changes.now }
{
    let mut last = 0;
    for change in changes {
        if change.commit != 0 {
            last = change.commit;
        }
    }
    restart.commits.max(last)
}

/// How many of the changes stand in frames from the restart's `redo` on.
pub(crate) fn redone_of(restart: &Restart, changes: &[Change]) -> u64
    ensures { result ≡ length changes.now - restart.now.redo }
{
    (changes.len() as u64).saturating_sub(restart.redo)
}
