// Crashes.
ghost use Rattle.std.specs.Prelude.{◌≡◌, ◌≤◌, length, take, IfOk};
ghost use Rattle.px_site.specs.declared.name.FileName.{FileName};
ghost use Rattle.px_memsite.specs.Crash.{IsCrashed, IsWithin};
ghost use Rattle.px_memsite.specs.Events.{reached, AllFitLimit};
ghost use Rattle.px_memsite.specs.Files.{states_in, names_of, IsInOrder};
ghost use Rattle.px_memsite.specs.Moments.{moment_at};

use crate::disk::Disk;
use crate::event::Event;
use crate::file::MemFile;
use crate::history::events_seen;
use std::alloc::{AllocError, Global};

/// When a crash comes, and what it leaves of the bytes that were touched since their file's last
/// successful sync.
#[derive(Clone, Copy, Debug)]
pub struct Pick {
    /// The number of the moment, at most `moments()`.
    pub moment: u64,
    pub keep: Keep,
}

/// What a crash leaves of the touched bytes.
#[derive(Clone, Copy, Debug)]
pub enum Keep {
    /// They are as at the last sync; each file has the length that it had then.
    Synced,
    /// They are as written, also by a write that failed, and cuts and removals leave them; each file
    /// reaches to the end of what was synced and of each write since.
    Written,
    /// The first so many of them, in order of file name and then of place, are as written, and the
    /// others as synced. A file is then as long as what was synced, and longer by as many bytes as are
    /// left to keep behind the touched ones in it, as far as was written.
    Torn(u64),
}

/// What a crash leaves, with nothing touched and nothing told.
pub fn crashed(disk: Disk, pick: Pick) -> Result<Disk, AllocError>
    requires { pick.moment ≤ length (reached disk.history.items).past }
    ensures { IfOk result (λ left.
        let moment = moment_at pick.moment (reached disk.history.items) in
        IsCrashed pick.keep moment.files (reached left.history.items)) }
{
    let alloc = disk.alloc;
    let seen = events_seen(&disk.history, pick.moment);
    let played = played(alloc, disk.history, seen)?;
    left(alloc, &played.files, pick.keep)
}

/// The disk once more, with the first so many of its events.
fn played(alloc: Global, history: Vec<Event>, seen: usize) -> Result<Disk, AllocError>
    requires { AllFitLimit history.items }
    ensures { IfOk result (λ disk. disk.history.items ≡ take seen history.items) }
{
    let mut history = history;
    history.truncate(seen);
    let mut disk = Disk::new(alloc);
    for event in history {
        disk.play(event)?;
    }
    Ok(disk)
}

/// What is left of these files.
fn left(alloc: Global, files: &[MemFile], keep: Keep) -> Result<Disk, AllocError>
    requires in_order { IsInOrder (names_of files.now) }
    requires within { (name : FileName) → IsWithin (states_in files.now name) }
    ensures { IfOk result (λ left. IsCrashed keep (states_in files.now) (reached left.history.items)) }
{
    let mut rest = keep;
    let mut left = Disk::new(alloc);
    for file in files {
        let bytes = file.image(alloc, &mut rest)?;
        left.play(Event::Put(file.name, bytes))?;
    }
    Ok(left)
}
