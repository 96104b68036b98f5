//! The folder of a site. It answers the system's errors as they are; what they count as is said in `refusals`.
ghost use Rattle.std.specs.Prelude.{◌≡◌, ◌<◌, ◌≤◌, ◌+◌, ◌-◌, ◌⊎◌, length, min, vec_len, string_bytes, IfOk, IfSome, IfNone, OnOk, OnSome, None, true};
ghost use Rattle.px_site.specs.State.{IsListed};
ghost use Rattle.px_realsite.specs.OpenFiles.{IsNamed};
ghost use Rattle.px_realsite.specs.Path.{path_or_current};
ghost use Rattle.px_realsite.specs.Piece.{EndsWith};
ghost use Rattle.px_realsite.specs.Traffic.{Asked, FoundNone, IsDurable, IsLocked, IsWhole, Moved, NoBytes, OnlyReads, OnlyWrites, SyncedFile};

use crate::open_files::OpenFiles;
use crate::path::path_of;
use crate::system::System;
use crate::walk::Walk;
use px_site::{FileName, LONGEST_FILE};
use std::alloc::{AllocError, Global};
use std::fs::File;
use std::io::{self, ErrorKind};
use std::rt::Files;

/// A folder of files. It is made by the first write; until then it may be missing, and then it reads as an empty one. Each call
/// takes its lock first, where it is there.
#[derive(Drop)]
pub(crate) struct Folder {
    path: String,
    handles: OpenFiles,
    walk: Option<Walk>,
}

impl Folder {
    ghost use Rattle.px_realsite.specs.Folder.{IsSameFolder};

    /// The folder of this path, the current one where the path is empty.
    pub(crate) fn new(alloc: Global, path: &str) -> Result<Folder, AllocError>
        ensures { IfOk result (λ folder. string_bytes folder.path ≡ path_or_current path.now) }
    {
        let path = if path.is_empty() { "." } else { path };
        Ok(Folder {
            path: String::from_str(alloc, path)?,
            handles: OpenFiles::new(alloc)?,
            walk: None,
        })
    }

    pub(crate) fn path(&self) -> &str {
        self.path.as_str()
    }

    pub(crate) fn len<R: Files<File = File> + AllocGlobal>(
        &mut self,
        system: &mut System<R>,
        name: FileName,
    ) -> io::Result<u64>
        ensures bound { IfOk result (λ len. len ≤ LONGEST_FILE) }
        ensures asked { OnOk result (Asked system.old.traffic system.new.traffic) }
        ensures locked { OnOk result (IsLocked system.old.traffic system.new.traffic) }
        ensures no_bytes { NoBytes system.old.traffic system.new.traffic }
        ensures same_folder { IsSameFolder self.old self.new }
    {
        match self.find(system, name)? {
            Some(at) => self.handles.files[at].len(system),
            None => Ok(0),
        }
    }

    pub(crate) fn read_at<R: Files<File = File> + AllocGlobal>(
        &mut self,
        system: &mut System<R>,
        name: FileName,
        place: u64,
        buf: &mut [u8],
    ) -> io::Result<usize>
        requires { place < LONGEST_FILE }
        ensures bound { IfOk result (λ count. count ≤ length buf.new) }
        ensures asked { 0 < length buf.new → OnOk result (Asked system.old.traffic system.new.traffic) }
        ensures moved { IfOk result (Moved system.old.traffic.bytes_read system.new.traffic.bytes_read) }
        ensures piece { IfOk result (λ count. 0 < count → EndsWith name place count system.new.read) }
        ensures whole { IfOk result (λ count. IsWhole count (min (length buf.new) (LONGEST_FILE - place)) system.old.traffic system.new.traffic) }
        ensures locked { OnOk result (IsLocked system.old.traffic system.new.traffic) }
        ensures only_reads { OnlyReads system.old.traffic system.new.traffic }
        ensures same_folder { IsSameFolder self.old self.new }
    {
        match self.find(system, name)? {
            Some(at) => self.handles.files[at].read_at(system, place, buf),
            None => Ok(0),
        }
    }

    pub(crate) fn write_at<R: Files<File = File> + AllocGlobal + Clone + Drop>(
        &mut self,
        system: &mut System<R>,
        name: FileName,
        place: u64,
        bytes: &[u8],
    ) -> io::Result<()>
        requires { place + length bytes.now ≤ LONGEST_FILE }
        ensures asked { OnOk result (Asked system.old.traffic system.new.traffic) }
        ensures moved { OnOk result
            (Moved system.old.traffic.bytes_written system.new.traffic.bytes_written (length bytes.now)) }
        ensures piece { 0 < length bytes.now
            → OnOk result (EndsWith name place (length bytes.now) system.new.written) }
        ensures locked { OnOk result (system.new.traffic.is_held ≡ true) }
        ensures only_writes { OnlyWrites system.old.traffic system.new.traffic }
        ensures same_folder { IsSameFolder self.old self.new }
    {
        let at = self.find_or_make(system, name)?;
        self.handles.files[at].write_at(system, place, bytes)
    }

    pub(crate) fn cut<R: Files<File = File> + AllocGlobal>(
        &mut self,
        system: &mut System<R>,
        name: FileName,
        len: u64,
    ) -> io::Result<()>
        ensures asked { OnOk result (Asked system.old.traffic system.new.traffic) }
        ensures locked { OnOk result (IsLocked system.old.traffic system.new.traffic) }
        ensures no_bytes { NoBytes system.old.traffic system.new.traffic }
        ensures same_folder { IsSameFolder self.old self.new }
    {
        match self.find(system, name)? {
            Some(at) => self.handles.files[at].cut(system, len),
            None => Ok(()),
        }
    }

    /// Makes the file durable, and with it the names of the folder. Once a sync failed, it answers an error for ever: the system
    /// drops what it couldn't write, and a later sync would pass over it.
    pub(crate) fn sync<R: Files<File = File> + AllocGlobal>(
        &mut self,
        system: &mut System<R>,
        name: FileName,
    ) -> io::Result<()>
        ensures durable { OnOk result (IsDurable name system.old.traffic system.new.traffic) }
        ensures asked { OnOk result (Asked system.old.traffic system.new.traffic) }
        ensures locked { OnOk result (IsLocked system.old.traffic system.new.traffic) }
        ensures no_bytes { NoBytes system.old.traffic system.new.traffic }
        ensures same_folder { IsSameFolder self.old self.new }
    {
        if system.hold(self.path.as_str())? {
            self.sync_file(system, name)?;
            self.sync_names(system)?;
        }
        if system.traffic().syncs.has_failed {
            return Err(io::Error::other("an earlier sync failed"));
        }
        Ok(())
    }

    fn sync_file<R: Files<File = File> + AllocGlobal>(
        &mut self,
        system: &mut System<R>,
        name: FileName,
    ) -> io::Result<()>
        ensures content { OnOk result (SyncedFile name system.old.traffic system.new.traffic
            ⊎ FoundNone system.old.traffic system.new.traffic) }
        ensures asked { OnOk result (Asked system.old.traffic system.new.traffic) }
        ensures no_bytes { NoBytes system.old.traffic system.new.traffic }
        ensures same_folder { IsSameFolder self.old self.new }
    {
        match self.find(system, name)? {
            Some(at) => self.handles.files[at].sync(system),
            None => Ok(()),
        }
    }

    /// Makes the names durable that came and went: those in the folder, and the folder's own in the one above.
    fn sync_names<R: Files<File = File> + AllocGlobal>(
        &self,
        system: &mut System<R>,
    ) -> io::Result<()>
        requires { system.old.traffic.is_held ≡ true }
        ensures names { OnOk result (system.new.traffic.syncs.are_names_durable ≡ true) }
        ensures folder { OnOk result (system.new.traffic.syncs.is_folder_durable ≡ true) }
        ensures no_file { system.new.traffic.syncs.last ≡ system.old.traffic.syncs.last }
        ensures no_bytes { NoBytes system.old.traffic system.new.traffic }
    {
        if !system.traffic().syncs.are_names_durable {
            system.sync_names()?;
        }
        if !system.traffic().syncs.is_folder_durable {
            self.sync_above(system)?;
        }
        Ok(())
    }

    /// Makes the names in the folder above durable.
    fn sync_above<R: Files<File = File> + AllocGlobal>(
        &self,
        system: &mut System<R>,
    ) -> io::Result<()>
        ensures names { system.new.traffic.syncs.are_names_durable ≡ system.old.traffic.syncs.are_names_durable }
        ensures folder { OnOk result (system.new.traffic.syncs.is_folder_durable ≡ true) }
        ensures no_file { system.new.traffic.syncs.last ≡ system.old.traffic.syncs.last }
        ensures no_bytes { NoBytes system.old.traffic system.new.traffic }
    {
        let path = format!(in system.alloc(); "{}/..", self.path.as_str())?;
        match system.open_folder(path.as_str())? {
            Some(above) => system.sync_above(&above),
            None => Err(ErrorKind::NotFound.into()),
        }
    }

    /// Takes the file's name away, which leaves it empty: whoever opens it then finds no file.
    pub(crate) fn remove<R: Files<File = File> + AllocGlobal>(
        &mut self,
        system: &mut System<R>,
        name: FileName,
    ) -> io::Result<()>
        ensures asked { OnOk result (Asked system.old.traffic system.new.traffic) }
        ensures locked { OnOk result (IsLocked system.old.traffic system.new.traffic) }
        ensures no_bytes { NoBytes system.old.traffic system.new.traffic }
        ensures same_folder { IsSameFolder self.old self.new }
    {
        if !system.hold(self.path.as_str())? {
            return Ok(());
        }
        let path = path_of(system.alloc(), self.path.as_str(), name)?;
        match system.remove_file(path.as_str()) {
            Err(error) if error.kind() != ErrorKind::NotFound => Err(error),
            _ => {
                self.handles.forget(name);
                Ok(())
            }
        }
    }

    /// The least name after this one whose file has a byte. A listing that goes on from name to name reads the folder once.
    pub(crate) fn list<R: Files<File = File> + AllocGlobal + Clone + Drop>(
        &mut self,
        system: &mut System<R>,
        after: Option<FileName>,
    ) -> io::Result<Option<FileName>>
        ensures bound { IfOk result (λ found. IfSome found (IsListed after)) }
        ensures asked { IfNone after (OnOk result (Asked system.old.traffic system.new.traffic)) }
        ensures looked { IfOk result (λ found. OnSome found (Asked system.old.traffic system.new.traffic)) }
        ensures locked { OnOk result (IsLocked system.old.traffic system.new.traffic) }
        ensures no_bytes { NoBytes system.old.traffic system.new.traffic }
        ensures same_folder { IsSameFolder self.old self.new }
    {
        if !system.hold(self.path.as_str())? {
            return Ok(None);
        }
        let mut walk = self.take_walk(system, after)?;
        let found = walk.next(system, self.path.as_str(), after)?;
        if found.is_some() {
            self.walk = Some(walk);
        }
        Ok(found)
    }

    /// The walk that goes on after this name, or else a new one.
    fn take_walk<R: Files + AllocGlobal + Clone + Drop>(
        &mut self,
        system: &mut System<R>,
        after: Option<FileName>,
    ) -> io::Result<Walk>
        requires { system.old.traffic.is_held ≡ true }
        ensures asked { IfNone after (Asked system.old.traffic system.new.traffic) }
        ensures no_bytes { NoBytes system.old.traffic system.new.traffic }
        ensures same_folder { IsSameFolder self.old self.new }
    {
        match self.walk.take() {
            Some(walk) if walk.goes_on_after(after) => Ok(walk),
            _ => Walk::read(system, self.path.as_str()),
        }
    }

    /// Where the file stands among those that are open. It is opened if it wasn't, and not made.
    fn find<R: Files<File = File> + AllocGlobal>(
        &mut self,
        system: &mut System<R>,
        name: FileName,
    ) -> io::Result<Option<usize>>
        ensures within { IfOk result (λ found. IfSome found (λ at. at < vec_len self.new.handles.files)) }
        ensures named { IfOk result (λ found. IfSome found (IsNamed self.new.handles.files.items name)) }
        ensures locked { IfOk result (λ found. OnSome found (system.new.traffic.is_held ≡ true)) }
        ensures absent { IfOk result (λ found. IfNone found (FoundNone system.old.traffic system.new.traffic)) }
        ensures no_bytes { NoBytes system.old.traffic system.new.traffic }
        ensures same_folder { IsSameFolder self.old self.new }
    {
        if !system.hold(self.path.as_str())? {
            return Ok(None);
        }
        if let Some(at) = self.handles.position(name) {
            return Ok(Some(at));
        }
        let path = path_of(system.alloc(), self.path.as_str(), name)?;
        self.handles.make_room(system);
        match system.open(path.as_str(), name)? {
            Some(handle) => Ok(Some(self.handles.add(handle))),
            None => Ok(None),
        }
    }

    /// Where the file stands, which is made if it isn't there.
    fn find_or_make<R: Files<File = File> + AllocGlobal + Clone + Drop>(
        &mut self,
        system: &mut System<R>,
        name: FileName,
    ) -> io::Result<usize>
        ensures within { IfOk result (λ at. at < vec_len self.new.handles.files) }
        ensures named { IfOk result (IsNamed self.new.handles.files.items name) }
        ensures locked { OnOk result (system.new.traffic.is_held ≡ true) }
        ensures no_bytes { NoBytes system.old.traffic system.new.traffic }
        ensures same_folder { IsSameFolder self.old self.new }
    {
        match self.find(system, name)? {
            Some(at) => Ok(at),
            None => self.make(system, name),
        }
    }

    /// Makes the file, and the folder where that isn't there, and answers where the file stands.
    fn make<R: Files<File = File> + AllocGlobal + Clone + Drop>(
        &mut self,
        system: &mut System<R>,
        name: FileName,
    ) -> io::Result<usize>
        ensures within { IfOk result (λ at. at < vec_len self.new.handles.files) }
        ensures named { IfOk result (IsNamed self.new.handles.files.items name) }
        ensures locked { OnOk result (system.new.traffic.is_held ≡ true) }
        ensures no_walk { OnOk result (self.new.walk ≡ None) }
        ensures no_bytes { NoBytes system.old.traffic system.new.traffic }
        ensures same_folder { IsSameFolder self.old self.new }
    {
        let path = path_of(system.alloc(), self.path.as_str(), name)?;
        self.walk = None;
        if !system.traffic().is_held {
            system.make_folder(self.path.as_str())?;
        }
        self.handles.make_room(system);
        let handle = system.create(path.as_str(), name)?;
        Ok(self.handles.add(handle))
    }
}
