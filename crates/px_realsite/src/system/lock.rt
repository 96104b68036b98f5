//! The lock on the folder, by which one process at a time has a store.
ghost use Rattle.std.specs.Prelude.{◌≡◌, true, IfOk, IsFalse, OnOk};
ghost use Rattle.px_realsite.specs.Traffic.{FoundNone, NoBytes, asked, asked_for_folder};

use super::{FolderHandle, System, names_in};
use crate::refusals::in_use;
use std::fs::{self, File, TryLockError};
use std::io::{self, ErrorKind};
use std::rt::Files;

/// A folder whose lock was given. The system takes it back where this is dropped, and where the process ends.
#[derive(Drop)]
pub(super) struct Lock {
    pub(super) folder: FolderHandle,
}

impl<R: Files<File = File> + AllocGlobal> System<R> {
    /// Takes the folder's lock where it isn't held yet, and answers whether the folder is there: one that isn't has nothing that
    /// another process could have.
    ///
    /// Once a folder was answered for as an empty one, it isn't taken when it is there after all: another process made it, and
    /// what was answered isn't true of it.
    pub(crate) fn hold(&mut self, folder: &str) -> io::Result<bool>
        ensures held { IfOk result (λ there. there ≡ self.new.traffic.is_held) }
        ensures absent { IfOk result (λ there. IsFalse there → FoundNone self.old.traffic self.new.traffic) }
        ensures no_bytes { NoBytes self.old.traffic self.new.traffic }
    {
        if self.traffic.is_held {
            return Ok(true);
        }
        // What is no folder can't be opened as this path.
        let path = format!(in self.alloc(); "{folder}/.")?;
        match self.open_folder(path.as_str())? {
            None => {
                self.was_absent = true;
                Ok(false)
            }
            Some(_) if self.was_absent => Err(in_use()),
            Some(folder) => {
                let lock = self.take_lock(folder)?;
                self.keep(lock);
                Ok(true)
            }
        }
    }

    /// Asks for the lock on an open folder.
    fn take_lock(&mut self, folder: FolderHandle) -> io::Result<Lock>
        ensures { self.new.traffic ≡ asked self.old.traffic }
    {
        self.traffic.count_call();
        match folder.try_lock() {
            Ok(()) => Ok(Lock { folder }),
            Err(TryLockError::WouldBlock) => Err(in_use()),
            Err(TryLockError::Error(error)) => Err(error),
        }
    }

    /// Keeps the lock to the site's end.
    fn keep(&mut self, lock: Lock)
        ensures held { self.new.traffic.is_held ≡ true }
        ensures no_bytes { NoBytes self.old.traffic self.new.traffic }
    {
        self.lock = Some(lock);
        self.traffic.note_lock();
    }
}

impl<R: Files<File = File> + AllocGlobal + Clone + Drop> System<R> {
    /// Makes the folder, and takes its lock. Another process may take it in between, and even give it up again: so the folder
    /// is kept only where no file of a store is in it.
    pub(crate) fn make_folder(&mut self, folder: &str) -> io::Result<()>
        ensures held { OnOk result (self.new.traffic.is_held ≡ true) }
        ensures no_bytes { NoBytes self.old.traffic self.new.traffic }
    {
        self.create_folder(folder)?;
        let path = format!(in self.alloc(); "{folder}/.")?;
        let Some(opened) = self.open_folder(path.as_str())? else {
            return Err(ErrorKind::NotFound.into());
        };
        let lock = self.take_lock(opened)?;
        self.traffic.count_call();
        if !names_in(&self.rt, folder)?.is_empty() {
            return Err(in_use());
        }
        self.keep(lock);
        Ok(())
    }

    fn create_folder(&mut self, path: &str) -> io::Result<()>
        ensures { self.new.traffic ≡ asked_for_folder self.old.traffic }
    {
        self.traffic.count_call();
        self.traffic.syncs.is_folder_durable = false;
        fs::create_dir(&self.rt, path)
    }
}
