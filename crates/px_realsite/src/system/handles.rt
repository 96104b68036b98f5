//! Files that are open, and what is asked of the system of them.
ghost use Rattle.std.specs.Prelude.{◌≡◌, ◌≤◌, ◌+◌, length, true, IfOk, OnErr};
ghost use Rattle.px_realsite.specs.Piece.{Adds};
ghost use Rattle.px_realsite.specs.Streams.{IsNoStream};
ghost use Rattle.px_realsite.specs.Traffic.{asked, asked_to_read, asked_to_sync, asked_to_sync_above, asked_to_sync_names, asked_to_write};

use super::System;
use super::streams::apart_from_streams;
use px_site::{FileName, LONGEST_FILE};
use std::fs::{File, TryLockError};
use std::io;
use std::os::unix::fs::FileExt;

/// A file that is open for reading and writing. It is closed where it is dropped.
#[derive(Drop)]
pub(crate) struct Handle {
    pub(crate) name: FileName,
    file: File,
    ghost no_stream: { IsNoStream file },
}

impl Handle {
    /// A file that was just opened.
    pub(super) fn new(name: FileName, file: File) -> io::Result<Handle>
        ensures named { IfOk result (λ handle. handle.name ≡ name) }
    {
        Ok(Handle {
            name,
            file: apart_from_streams(file)?,
        })
    }
}

/// A folder that is open so that it can be locked and synced. It is closed where it is dropped.
#[derive(Drop)]
pub(crate) struct FolderHandle {
    folder: File,
    ghost no_stream: { IsNoStream folder },
}

impl FolderHandle {
    /// A folder that was just opened.
    pub(super) fn new(folder: File) -> io::Result<FolderHandle> {
        Ok(FolderHandle {
            folder: apart_from_streams(folder)?,
        })
    }

    /// Asks for the lock on the folder, which one handle at a time has, of this process and of others.
    pub(super) fn try_lock(&self) -> Result<(), TryLockError> {
        self.folder.try_lock()
    }

    /// Asks to make the names in the folder durable.
    fn sync(&self) -> io::Result<()> {
        self.folder.sync_all()
    }
}

impl<R> System<R> {
    /// The file's length in bytes.
    pub(crate) fn len(&mut self, handle: &Handle) -> io::Result<u64>
        ensures { self.new.traffic ≡ asked self.old.traffic }
    {
        self.traffic.count_call();
        Ok(handle.file.metadata()?.len())
    }

    /// Makes the file this long.
    pub(crate) fn set_len(&mut self, handle: &Handle, len: u64) -> io::Result<()>
        ensures { self.new.traffic ≡ asked self.old.traffic }
    {
        self.traffic.count_call();
        handle.file.set_len(len)
    }

    /// Reads some bytes from `place` on to the front of `buf`, and answers how many: none where the file ends there.
    pub(crate) fn read_at(
        &mut self,
        handle: &Handle,
        place: u64,
        buf: &mut [u8],
    ) -> io::Result<usize>
        requires { place + length buf.old ≤ LONGEST_FILE }
        ensures bound { IfOk result (λ count. count ≤ length buf.new) }
        ensures counted { self.new.traffic ≡ asked_to_read result self.old.traffic }
        ensures piece { IfOk result (λ count. Adds handle.now.name place count self.old.read self.new.read) }
        ensures no_piece { OnErr result (self.new.read ≡ self.old.read) }
    {
        self.traffic.count_call();
        let count = handle.file.read_at(buf, place)?;
        self.traffic.count_read(count);
        self.read.add(handle.name, place, count);
        Ok(count)
    }

    /// Writes some first bytes from `place` on, and answers how many.
    pub(crate) fn write_at(
        &mut self,
        handle: &Handle,
        place: u64,
        bytes: &[u8],
    ) -> io::Result<usize>
        requires { place + length bytes.now ≤ LONGEST_FILE }
        ensures bound { IfOk result (λ count. count ≤ length bytes.now) }
        ensures counted { self.new.traffic ≡ asked_to_write result self.old.traffic }
        ensures piece { IfOk result (λ count. Adds handle.now.name place count self.old.written self.new.written) }
        ensures no_piece { OnErr result (self.new.written ≡ self.old.written) }
    {
        self.traffic.count_call();
        let count = handle.file.write_at(bytes, place)?;
        self.traffic.count_written(count);
        self.written.add(handle.name, place, count);
        Ok(count)
    }

    /// Makes the file's content and its length durable.
    pub(crate) fn sync(&mut self, handle: &Handle) -> io::Result<()>
        ensures { self.new.traffic ≡ asked_to_sync handle.now.name result self.old.traffic }
    {
        self.traffic.count_call();
        let synced = handle.file.sync_data();
        self.traffic.syncs.note_file(handle.name, synced.is_ok());
        synced
    }

    /// Makes the names in the folder durable.
    pub(crate) fn sync_names(&mut self) -> io::Result<()>
        requires { self.old.traffic.is_held ≡ true }
        ensures { self.new.traffic ≡ asked_to_sync_names result self.old.traffic }
    {
        self.traffic.count_call();
        let synced = match &self.lock {
            Some(lock) => lock.folder.sync(),
            None => unreachable!(),
        };
        self.traffic.syncs.note_names(synced.is_ok());
        synced
    }

    /// Makes the names in the folder above durable.
    pub(crate) fn sync_above(&mut self, above: &FolderHandle) -> io::Result<()>
        ensures { self.new.traffic ≡ asked_to_sync_above result self.old.traffic }
    {
        self.traffic.count_call();
        let synced = above.sync();
        self.traffic.syncs.note_folder(synced.is_ok());
        synced
    }
}
