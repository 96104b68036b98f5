//! The files that are open.
ghost use Rattle.std.specs.Prelude.{◌≤◌, ◌<◌, ◌≢◌, ℕ, length, vec_len, All, IfSome, IfNone};
ghost use Rattle.std.specs.Vec.{vec_capacity};
ghost use Rattle.px_realsite.specs.OpenFiles.{IsNamed};
ghost use Rattle.px_realsite.specs.Traffic.{NoBytes};
ghost use Rattle.px_realsite.specs.declared.open_files.TheConstants.{MOST_OPEN};

use crate::open_file::OpenFile;
use crate::system::{Handle, System};
use px_site::FileName;
use std::alloc::{AllocError, Global};

/// The most files that are open at once. A process may have 1,024 by default.
pub(crate) const MOST_OPEN: usize = 64;

/// The files that are open, in the order of their last use, the latest at the end. It takes its memory when it is made.
#[derive(Drop)]
pub(crate) struct OpenFiles {
    pub(crate) files: Vec<OpenFile>,
    ghost few: { vec_len files ≤ MOST_OPEN },
    ghost room: { MOST_OPEN ≤ vec_capacity files },
}

impl OpenFiles {
    pub(crate) fn new(alloc: Global) -> Result<OpenFiles, AllocError> {
        Ok(OpenFiles {
            files: Vec::with_capacity(alloc, MOST_OPEN)?,
        })
    }

    /// Where the file stands, if it is open. This is a use of it.
    pub(crate) fn position(&mut self, name: FileName) -> Option<usize>
        ensures within { IfSome result (λ at. at < vec_len self.new.files) }
        ensures named { IfSome result (IsNamed self.new.files.items name) }
    {
        let at = place_of(&self.files, name)?;
        let file = self.files.remove(at);
        self.files.push_reserved(file);
        Some(self.files.len() - 1)
    }

    /// Closes the file whose last use is the longest ago, where no other may be opened.
    ///
    /// What was written to it is made durable first: once a file is closed, the system may forget that writing it back failed.
    /// Where that sync fails the system has noted it, so that no later one is answered as done.
    pub(crate) fn make_room<R>(&mut self, system: &mut System<R>)
        ensures room { vec_len self.new.files < MOST_OPEN }
        ensures no_bytes { NoBytes system.old.traffic system.new.traffic }
    {
        if self.files.len() == MOST_OPEN {
            let _ = self.files.remove(0).close(system);
        }
    }

    /// Takes a file that was opened, and answers where it stands.
    pub(crate) fn add(&mut self, handle: Handle) -> usize
        requires { vec_len self.old.files < MOST_OPEN }
        ensures within { result < vec_len self.new.files }
        ensures named { IsNamed self.new.files.items handle.name result }
    {
        let at = self.files.len();
        self.files.push_reserved(OpenFile::new(handle));
        at
    }

    /// Closes the file without a sync, since it has no name any more.
    pub(crate) fn forget(&mut self, name: FileName)
        ensures gone { All (λ file. file.handle.name ≢ name) self.new.files.items }
        ensures fewer { vec_len self.new.files ≤ vec_len self.old.files }
    {
        self.files.retain(|file| file.handle.name != name);
    }
}

/// Where the file stands, sought from the latest use on.
fn place_of(files: &[OpenFile], name: FileName) -> Option<usize>
    ensures within { IfSome result (λ at. at < length files.now) }
    ensures named { IfSome result (IsNamed files.now name) }
    ensures absent { IfNone result ((k : ℕ) → k < length files.now → ¬ IsNamed files.now name k) }
{
    let mut at = files.len();
    while at > 0 {
        at -= 1;
        if files[at].handle.name == name {
            return Some(at);
        }
    }
    None
}
