//! The names of a folder, in order.
ghost use Rattle.std.specs.Prelude.{◌≡◌, ◌↔◌, true, IfOk, IfSome, IsSome, IsTrue, OnOk, OnSome};
ghost use Rattle.px_site.specs.State.{IsListed};
ghost use Rattle.px_realsite.specs.Traffic.{Asked, NoBytes};

use crate::path::path_of;
use crate::system::System;
use px_site::FileName;
use std::io::{self, ErrorKind};
use std::rt::Files;

/// A listing of a folder that is under way.
///
/// It holds each name that the folder had when it was read, whatever its file was then, and looks at a file when its name is
/// about to be answered. So a file that was emptied or taken away since is passed over, and one that was empty and got bytes is
/// answered. Only a name that came since is missing: who makes one drops the walk.
#[derive(Drop)]
pub(crate) struct Walk {
    names: Vec<FileName>,
    /// Where the names begin that weren't answered yet.
    next: usize,
    /// The name that was answered last.
    last: Option<FileName>,
}

impl Walk {
    /// Reads the folder.
    pub(crate) fn read<R: Files + AllocGlobal + Clone + Drop>(
        system: &mut System<R>,
        folder: &str,
    ) -> io::Result<Walk>
        requires { system.old.traffic.is_held ≡ true }
        ensures asked { Asked system.old.traffic system.new.traffic }
        ensures no_bytes { NoBytes system.old.traffic system.new.traffic }
    {
        let mut names = system.names(folder)?;
        names.sort_unstable();
        Ok(Walk {
            names,
            next: 0,
            last: None,
        })
    }

    /// Whether the listing goes on after this name.
    pub(crate) fn goes_on_after(&self, after: Option<FileName>) -> bool
        ensures { IsTrue result → IsSome after }
    {
        after.is_some() && self.last == after
    }

    /// The least name after this one whose file has a byte.
    pub(crate) fn next<R: Files + AllocGlobal>(
        &mut self,
        system: &mut System<R>,
        folder: &str,
        after: Option<FileName>,
    ) -> io::Result<Option<FileName>>
        requires { system.old.traffic.is_held ≡ true }
        ensures bound { IfOk result (λ found. IfSome found (IsListed after)) }
        ensures asked { IfOk result (λ found. OnSome found (Asked system.old.traffic system.new.traffic)) }
        ensures no_bytes { NoBytes system.old.traffic system.new.traffic }
    {
        for at in self.next..self.names.len() {
            let name = self.names[at];
            if is_listed(after, name) && has_byte(system, folder, name)? {
                self.next = at + 1;
                self.last = Some(name);
                return Ok(Some(name));
            }
        }
        Ok(None)
    }
}

/// Whether the name stands after the one where the listing goes on.
fn is_listed(after: Option<FileName>, name: FileName) -> bool
    ensures { IsTrue result ↔ IsListed after name }
{
    match after {
        Some(after) => after.is_before(name),
        None => true,
    }
}

/// Whether the name is a file's, with at least one byte. What isn't there has none.
fn has_byte<R: Files + AllocGlobal>(
    system: &mut System<R>,
    folder: &str,
    name: FileName,
) -> io::Result<bool>
    requires { system.old.traffic.is_held ≡ true }
    ensures asked { OnOk result (Asked system.old.traffic system.new.traffic) }
    ensures no_bytes { NoBytes system.old.traffic system.new.traffic }
{
    let path = path_of(system.alloc(), folder, name)?;
    match system.has_byte(path.as_str()) {
        Err(error) if error.kind() == ErrorKind::NotFound => Ok(false),
        answer => answer,
    }
}
