//! One open file, read and written at places.
ghost use Rattle.std.specs.Prelude.{◌≡◌, ◌≤◌, ◌<◌, ◌+◌, ◌-◌, ◌⊎◌, length, min, IfOk, false, true, OnOk};
ghost use Rattle.px_site.specs.Cause.{Rose};
ghost use Rattle.px_realsite.specs.Piece.{EndsWith};
ghost use Rattle.px_realsite.specs.Traffic.{Asked, Moved, NoBytes, OnlyReads, OnlyWrites, SyncedFile};

use crate::system::{Handle, System};
use px_site::LONGEST_FILE;
use std::io::{self, ErrorKind};

/// A file of the folder that is open for reading and writing. It is closed where it is dropped.
#[derive(Drop)]
pub(crate) struct OpenFile {
    pub(crate) handle: Handle,
    /// Whether it was changed through this handle since its last sync.
    is_changed: bool,
}

impl OpenFile {
    /// A file that was just opened.
    pub(crate) fn new(handle: Handle) -> OpenFile
        ensures named { result.handle.name ≡ handle.name }
        ensures unchanged { result.is_changed ≡ false }
    {
        OpenFile {
            handle,
            is_changed: false,
        }
    }

    /// The file's length, or an error where that is past the greatest.
    pub(crate) fn len<R>(&self, system: &mut System<R>) -> io::Result<u64>
        ensures bound { IfOk result (λ len. len ≤ LONGEST_FILE) }
        ensures asked { Asked system.old.traffic system.new.traffic }
        ensures no_bytes { NoBytes system.old.traffic system.new.traffic }
    {
        let len = system.len(&self.handle)?;
        if len > LONGEST_FILE {
            return Err(ErrorKind::FileTooLarge.into());
        }
        Ok(len)
    }

    /// Reads from `place` on until `buf` is full or the file ends. What stands past the greatest length is no content.
    pub(crate) fn read_at<R>(
        &self,
        system: &mut System<R>,
        place: u64,
        buf: &mut [u8],
    ) -> io::Result<usize>
        requires { place < LONGEST_FILE }
        ensures bound { IfOk result (λ count. count ≤ length buf.new) }
        ensures asked { 0 < length buf.new → OnOk result (Asked system.old.traffic system.new.traffic) }
        ensures moved { IfOk result (Moved system.old.traffic.bytes_read system.new.traffic.bytes_read) }
        ensures piece { IfOk result (λ count. 0 < count → EndsWith self.now.handle.name place count system.new.read) }
        ensures whole { IfOk result (λ count. (count ≡ min (length buf.new) (LONGEST_FILE - place))
            ⊎ Rose system.old.traffic.ends system.new.traffic.ends) }
        ensures only_reads { OnlyReads system.old.traffic system.new.traffic }
    {
        let room = (buf.len() as u64).min(LONGEST_FILE - place) as usize;
        read_all(system, &self.handle, place, &mut buf[..room])
    }

    /// Writes all of `bytes` from `place` on. A gap before them is filled with zero bytes, also where no byte follows it.
    pub(crate) fn write_at<R>(
        &mut self,
        system: &mut System<R>,
        place: u64,
        bytes: &[u8],
    ) -> io::Result<()>
        requires { place + length bytes.now ≤ LONGEST_FILE }
        ensures changed { OnOk result (self.new.is_changed ≡ true) }
        ensures named { self.new.handle.name ≡ self.old.handle.name }
        ensures asked { OnOk result (Asked system.old.traffic system.new.traffic) }
        ensures moved { OnOk result
            (Moved system.old.traffic.bytes_written system.new.traffic.bytes_written (length bytes.now)) }
        ensures piece { 0 < length bytes.now
            → OnOk result (EndsWith self.old.handle.name place (length bytes.now) system.new.written) }
        ensures only_writes { OnlyWrites system.old.traffic system.new.traffic }
    {
        self.is_changed = true;
        if bytes.is_empty() && system.len(&self.handle)? < place {
            return system.set_len(&self.handle, place);
        }
        write_all(system, &self.handle, place, bytes)
    }

    /// Shortens the file where it is longer. The system's own call would lengthen it where it is shorter.
    pub(crate) fn cut<R>(&mut self, system: &mut System<R>, len: u64) -> io::Result<()>
        ensures named { self.new.handle.name ≡ self.old.handle.name }
        ensures asked { Asked system.old.traffic system.new.traffic }
        ensures no_bytes { NoBytes system.old.traffic system.new.traffic }
    {
        if system.len(&self.handle)? > len {
            self.is_changed = true;
            system.set_len(&self.handle, len)?;
        }
        Ok(())
    }

    /// Makes the content and the length durable.
    pub(crate) fn sync<R>(&mut self, system: &mut System<R>) -> io::Result<()>
        ensures unchanged { OnOk result (self.new.is_changed ≡ false) }
        ensures named { self.new.handle.name ≡ self.old.handle.name }
        ensures synced { OnOk result (SyncedFile self.old.handle.name system.old.traffic system.new.traffic) }
        ensures asked { Asked system.old.traffic system.new.traffic }
        ensures no_bytes { NoBytes system.old.traffic system.new.traffic }
    {
        system.sync(&self.handle)?;
        self.is_changed = false;
        Ok(())
    }

    /// Closes the file, once it is durable.
    pub(crate) fn close<R>(mut self, system: &mut System<R>) -> io::Result<()>
        ensures no_bytes { NoBytes system.old.traffic system.new.traffic }
    {
        if self.is_changed {
            self.sync(system)?;
        }
        Ok(())
    }
}

/// Reads until the buffer is full or the system says that the file ends.
fn read_all<R>(
    system: &mut System<R>,
    handle: &Handle,
    place: u64,
    buf: &mut [u8],
) -> io::Result<usize>
    requires { place + length buf.old ≤ LONGEST_FILE }
    ensures bound { IfOk result (λ count. count ≤ length buf.new) }
    ensures asked { 0 < length buf.new → OnOk result (Asked system.old.traffic system.new.traffic) }
    ensures moved { IfOk result (Moved system.old.traffic.bytes_read system.new.traffic.bytes_read) }
    ensures piece { IfOk result (λ count. 0 < count → EndsWith handle.now.name place count system.new.read) }
    ensures whole { IfOk result (λ count. (count ≡ length buf.new)
        ⊎ Rose system.old.traffic.ends system.new.traffic.ends) }
    ensures only_reads { OnlyReads system.old.traffic system.new.traffic }
{
    let mut done = 0;
    for _ in 0..u64::MAX {
        if done == buf.len() {
            return Ok(done);
        }
        match system.read_at(handle, place + done as u64, &mut buf[done..]) {
            Ok(0) => return Ok(done),
            Ok(count) => done += count,
            Err(error) if error.kind() == ErrorKind::Interrupted => {}
            Err(error) => return Err(error),
        }
    }
    Err(ErrorKind::TimedOut.into())
}

/// Writes until all bytes are written. Where some were, a want of memory isn't answered as one: that says that nothing was done.
fn write_all<R>(system: &mut System<R>, handle: &Handle, place: u64, bytes: &[u8]) -> io::Result<()>
    requires { place + length bytes.now ≤ LONGEST_FILE }
    ensures asked { 0 < length bytes.now → OnOk result (Asked system.old.traffic system.new.traffic) }
    ensures moved { OnOk result
        (Moved system.old.traffic.bytes_written system.new.traffic.bytes_written (length bytes.now)) }
    ensures piece { 0 < length bytes.now
        → OnOk result (EndsWith handle.now.name place (length bytes.now) system.new.written) }
    ensures only_writes { OnlyWrites system.old.traffic system.new.traffic }
{
    let mut done = 0;
    for _ in 0..u64::MAX {
        if done == bytes.len() {
            return Ok(());
        }
        match system.write_at(handle, place + done as u64, &bytes[done..]) {
            Ok(0) => return Err(ErrorKind::WriteZero.into()),
            Ok(count) => done += count,
            Err(error) if error.kind() == ErrorKind::Interrupted => {}
            Err(error) if done > 0 && error.kind() == ErrorKind::OutOfMemory => {
                return Err(ErrorKind::WriteZero.into());
            }
            Err(error) => return Err(error),
        }
    }
    Err(ErrorKind::TimedOut.into())
}
