//! The system, which is asked here and nowhere else in the crate. Each call is counted where it is made.
//!
//! - `handles`: files that are open, and what is asked of them
//! - `lock`: the lock on the folder, without which no name in it is asked for
//! - `streams`: no open file has the number of a standard stream
//! - `traffic`: the counts
//! - `piece`: where the bytes went over that were read or written last
ghost use Rattle.std.specs.Prelude.{◌≡◌, ◌≤◌, length, true, IfOk, IfSome, IsSome};
ghost use Rattle.px_realsite.specs.Traffic.{IsCounted, asked, asked_for, asked_to_name, asked_to_tell, no_traffic};

mod handles;
mod lock;
mod piece;
mod streams;
mod traffic;

pub(crate) use handles::{FolderHandle, Handle};
use lock::Lock;
pub use piece::Piece;
use px_site::FileName;
use std::alloc::Global;
use std::fs::{self, DirEntry, File, OpenOptions};
use std::io::{self, ErrorKind};
use std::rt::Files;
pub use traffic::{Syncs, Traffic};

/// The files of the system and standard output, with the counts of what was asked of them.
#[derive(Drop)]
pub(crate) struct System<R> {
    rt: R,
    lock: Option<Lock>,
    /// Whether the folder was once asked for and not there: then it is answered for as an empty one.
    was_absent: bool,
    read: Piece,
    written: Piece,
    traffic: Traffic,
    ghost counted: { IsCounted traffic },
    ghost kept: { traffic.is_held ≡ true → IsSome lock },
}

impl<R> System<R> {
    pub(crate) fn new(rt: R) -> System<R>
        ensures { result.traffic ≡ no_traffic }
    {
        System {
            rt,
            lock: None,
            was_absent: false,
            read: Piece::new(),
            written: Piece::new(),
            traffic: Traffic::new(),
        }
    }

    pub(crate) fn traffic(&self) -> Traffic
        ensures { result ≡ self.now.traffic }
    {
        self.traffic
    }
}

impl<R: AllocGlobal> System<R> {
    pub(crate) fn alloc(&self) -> Global {
        self.rt.alloc()
    }
}

impl<R: Files<File = File>> System<R> {
    /// Opens the file of this name at this path, or answers None where it isn't there.
    pub(crate) fn open(&mut self, path: &str, name: FileName) -> io::Result<Option<Handle>>
        requires { self.old.traffic.is_held ≡ true }
        ensures named { IfOk result (λ found. IfSome found (λ handle. handle.name ≡ name)) }
        ensures counted { self.new.traffic ≡ asked_for result self.old.traffic }
    {
        self.traffic.count_call();
        let opened = OpenOptions::new()
            .read(true)
            .write(true)
            .open(&self.rt, path);
        match opened {
            Ok(file) => Ok(Some(Handle::new(name, file)?)),
            Err(error) if error.kind() == ErrorKind::NotFound => {
                self.traffic.count_absent();
                Ok(None)
            }
            Err(error) => Err(error),
        }
    }

    /// Opens a file, and makes it where it isn't there.
    pub(crate) fn create(&mut self, path: &str, name: FileName) -> io::Result<Handle>
        requires { self.old.traffic.is_held ≡ true }
        ensures named { IfOk result (λ handle. handle.name ≡ name) }
        ensures counted { self.new.traffic ≡ asked_to_name self.old.traffic }
    {
        self.traffic.count_call();
        self.traffic.syncs.are_names_durable = false;
        let file = OpenOptions::new()
            .read(true)
            .write(true)
            .create(true)
            .open(&self.rt, path)?;
        Handle::new(name, file)
    }

    /// Opens a folder, or answers None where it isn't there.
    pub(crate) fn open_folder(&mut self, path: &str) -> io::Result<Option<FolderHandle>>
        ensures { self.new.traffic ≡ asked_for result self.old.traffic }
    {
        self.traffic.count_call();
        match File::open(&self.rt, path) {
            Ok(folder) => Ok(Some(FolderHandle::new(folder)?)),
            Err(error) if error.kind() == ErrorKind::NotFound => {
                self.traffic.count_absent();
                Ok(None)
            }
            Err(error) => Err(error),
        }
    }
}

impl<R: Files> System<R> {
    pub(crate) fn remove_file(&mut self, path: &str) -> io::Result<()>
        requires { self.old.traffic.is_held ≡ true }
        ensures { self.new.traffic ≡ asked_to_name self.old.traffic }
    {
        self.traffic.count_call();
        self.traffic.syncs.are_names_durable = false;
        fs::remove_file(&self.rt, path)
    }

    /// Whether what stands there is a file with at least one byte.
    pub(crate) fn has_byte(&mut self, path: &str) -> io::Result<bool>
        requires { self.old.traffic.is_held ≡ true }
        ensures { self.new.traffic ≡ asked self.old.traffic }
    {
        self.traffic.count_call();
        let metadata = fs::metadata(&self.rt, path)?;
        Ok(metadata.is_file() && metadata.len() > 0)
    }
}

impl<R: Files + AllocGlobal + Clone + Drop> System<R> {
    /// The names in a folder that are those of a store's files, in no order.
    pub(crate) fn names(&mut self, folder: &str) -> io::Result<Vec<FileName>>
        requires { self.old.traffic.is_held ≡ true }
        ensures { self.new.traffic ≡ asked self.old.traffic }
    {
        self.traffic.count_call();
        names_in(&self.rt, folder)
    }
}

impl<R: Print> System<R> {
    /// Writes some first bytes to standard output, and answers how many.
    pub(crate) fn tell(&mut self, bytes: &[u8]) -> io::Result<usize>
        ensures bound { IfOk result (λ count. count ≤ length bytes.now) }
        ensures counted { self.new.traffic ≡ asked_to_tell result self.old.traffic }
    {
        self.traffic.count_call();
        let count = self.rt.write_some(bytes)?;
        self.traffic.count_told(count);
        Ok(count)
    }
}

fn names_in<R: Files + AllocGlobal + Clone + Drop>(
    rt: &R,
    folder: &str,
) -> io::Result<Vec<FileName>> {
    let mut names = Vec::new(rt.alloc());
    for entry in fs::read_dir(rt, folder)? {
        if let Some(name) = name_of(entry)? {
            names.push(name)?;
        }
    }
    Ok(names)
}

/// The file that an entry of the folder is. An entry with another name is none of ours, also where its name is no text.
fn name_of<R: Files + Drop>(entry: io::Result<DirEntry<R>>) -> io::Result<Option<FileName>> {
    match entry {
        Ok(entry) => Ok(FileName::of_text(entry.file_name().as_bytes())),
        Err(error) if error.kind() == ErrorKind::InvalidFilename => Ok(None),
        Err(error) => Err(error),
    }
}
